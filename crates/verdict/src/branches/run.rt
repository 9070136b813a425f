//! One run of recovery.

ghost use Rattle.std.specs.Prelude.{◌≡◌, ◌≢◌, ℕ, ◌+◌, ◌-◌, ◌<◌, ◌++◌, ◌==◌, false, true, if◌then◌else◌, List, length, slice_index, take, drop, IfOk, OnOk};
ghost use Rattle.std.specs.List.{AllByRecursion};
ghost use Rattle.verdict.specs.Branches.{IsWithin};
ghost use Rattle.verdict.specs.Numbers.{number_over, AreAbove};
ghost use Rattle.verdict.specs.Queue.{branching, cut_at, entry_at, is_new_behind, siblings, AreRaised, IsTree};

use crate::branches::Recovery;
use crate::branches::line_bytes::LineBytes;
use crate::branches::numbers::Numbers;
use crate::branches::question::Question;
use crate::branches::queue::Entry;
use std::alloc::{AllocError, Global};

/// A run of recovery on the image of one cut: the cut, what was asked, and the entries that branch off.
#[derive(Drop)]
pub struct Run {
    pub numbers: Numbers,
    pub asked: Vec<Question>,
    pub found: Vec<Entry>,
    seen: LineBytes,
    ghost same_size: { length seen ≡ length numbers },
}

impl Run {
    pub fn new(alloc: Global, lines: u32) -> Result<Run, AllocError>
        ensures { IfOk result (λ run. length run.numbers ≡ lines) }
    {
        Ok(Run {
            numbers: Numbers::new(alloc, lines)?,
            seen: LineBytes::new(alloc, lines)?,
            asked: Vec::new(alloc),
            found: Vec::new(alloc),
        })
    }

    /// Runs recovery on the image of an entry's cut, and finds what branches off.
    pub fn open<R: Recovery>(
        &mut self,
        alloc: Global,
        recovery: &R,
        workspace: &mut R::Workspace,
        entries: &[Entry],
        at: usize,
    ) -> Result<Option<R::Cause>, AllocError>
        requires size { length self.old.numbers ≡ R.lines recovery.now }
        requires there { at < length entries.now }
        requires tree { IsTree (R.lines recovery.now) entries.now }
        requires raised { AreRaised (R.low recovery.now) entries.now }
        requires within { IsWithin (R.low recovery.now) (R.high recovery.now) (cut_at (R.low recovery.now) entries.now at) }
        requires fits { R.fits recovery.now workspace.old }
        ensures fits { R.fits recovery.now workspace.new }
        ensures size { length self.new.numbers ≡ length self.old.numbers }
        ensures cut { OnOk result (number_over (R.low recovery.now) self.new.numbers ≡ cut_at (R.low recovery.now) entries.now at) }
        ensures above { OnOk result (AreAbove (R.low recovery.now) self.new.numbers) }
        ensures asked { OnOk result (R.asks recovery.now (cut_at (R.low recovery.now) entries.now at) self.new.asked.items) }
        ensures below { OnOk result (AllByRecursion (λ q. q.line < R.lines recovery.now) self.new.asked.items) }
        ensures judged { IfOk result (λ found. R.judged recovery.now (cut_at (R.low recovery.now) entries.now at) found) }
        ensures found { OnOk result (self.new.found.items ≡ branching at (R.alike recovery.now) (R.low recovery.now) (R.high recovery.now)
            (cut_at (R.low recovery.now) entries.now at) (take (entry_at entries.now at).decided self.new.asked.items) (drop (entry_at entries.now at).decided self.new.asked.items)) }
    {
        self.numbers.set(entries, at)?;
        self.asked.clear();
        let judged = recovery.recover(alloc, workspace, self.numbers.as_slice(), &mut self.asked)?;
        let cut = Branched {
            place: at,
            decided: entries[at].decided,
            numbers: self.numbers.as_slice(),
        };
        branch_off(recovery, &self.asked, &mut self.seen, &mut self.found, cut)?;
        Ok(judged)
    }
}

/// A cut whose run is branched off.
#[derive(Clone, Copy)]
struct Branched<'a> {
    /// The place of its entry in the queue.
    place: usize,
    /// How many of the questions that recovery asks were decided when the entry was made.
    decided: usize,
    /// The cut, by line, with 0 for a line at its floor.
    numbers: &'a [u32],
}

/// Finds what branches off: of each question asked from place `decided` on each new number above the cut's own.
fn branch_off<R: Recovery>(
    recovery: &R,
    asked: &[Question],
    seen: &mut LineBytes,
    found: &mut Vec<Entry>,
    cut: Branched<'_>,
) -> Result<(), AllocError>
    requires size { length seen.old ≡ R.lines recovery.now }
    requires numbers { length cut.numbers.now ≡ R.lines recovery.now }
    requires within { IsWithin (R.low recovery.now) (R.high recovery.now) (number_over (R.low recovery.now) cut.numbers.now) }
    requires below { AllByRecursion (λ q. q.line < R.lines recovery.now) asked.now }
    ensures found { OnOk result (found.new.items ≡ branching cut.entry.place (R.alike recovery.now) (R.low recovery.now) (R.high recovery.now)
        (number_over (R.low recovery.now) cut.entry.numbers.now) (take cut.entry.decided asked.now) (drop cut.entry.decided asked.now)) }
    ensures size { length seen.new ≡ length seen.old }
{
    seen.clear();
    found.clear();
    if asked.len() <= cut.decided {
        return Ok(());
    }
    for (place, question) in asked.iter().enumerate() {
        if !is_open(recovery, question.line) {
            continue;
        }
        let before = seen.add(*question)?;
        if place >= cut.decided && before | question.bytes != before {
            push_siblings(recovery, found, cut, place + 1, *question, before)?;
        }
    }
    Ok(())
}

/// Whether the line has several numbers. Of most lines that recovery asks the floor is the only one.
#[inline(always)]
fn is_open<R: Recovery>(recovery: &R, line: u32) -> bool
    requires { line < R.lines recovery.now }
    ensures several { result ≡ true → R.low recovery.now line ≢ R.high recovery.now line }
    ensures one { result ≡ false → R.low recovery.now line ≡ R.high recovery.now line }
{
    recovery.floor(line) != recovery.stores(line)
}

/// Adds an entry with the line of a question at each of its new numbers, where these bytes of the line were asked before: it is as the
/// cut has it in those, and with the question no lower number is as it.
fn push_siblings<R: Recovery>(
    recovery: &R,
    found: &mut Vec<Entry>,
    cut: Branched<'_>,
    decided: usize,
    question: Question,
    before: u64,
) -> Result<(), AllocError>
    requires line { question.line < R.lines recovery.now }
    requires numbers { length cut.numbers.now ≡ R.lines recovery.now }
    requires within { IsWithin (R.low recovery.now) (R.high recovery.now) (number_over (R.low recovery.now) cut.numbers.now) }
    ensures { OnOk result (found.new.items ≡ found.old.items ++ siblings (is_new_behind (R.alike recovery.now) (R.low recovery.now) question before
        (number_over (R.low recovery.now) cut.entry.numbers.now question.line)) cut.entry.place decided question.line
        (number_over (R.low recovery.now) cut.entry.numbers.now question.line + 1)
        (R.high recovery.now question.line - number_over (R.low recovery.now) cut.entry.numbers.now question.line)) }
{
    let line = question.line;
    let earlier = Question {
        line,
        bytes: before,
    };
    let all = Question {
        line,
        bytes: before | question.bytes,
    };
    let own = number_of(cut.numbers, line, recovery.floor(line));
    for below in own..recovery.stores(line) {
        let number = below + 1;
        if recovery.is_alike(earlier, number, own) && recovery.is_first(all, number) {
            found.push(Entry {
                parent: cut.place,
                decided,
                line,
                number,
            })?;
        }
    }
    Ok(())
}

/// The number of a line in a cut that has 0 for a line at its floor.
#[inline(always)]
fn number_of(numbers: &[u32], line: u32, floor: u32) -> u32
    requires { line < length numbers.now }
    ensures { result ≡ (if slice_index numbers.now line == 0 then floor else slice_index numbers.now line) }
{
    match numbers[line as usize] {
        0 => floor,
        number => number,
    }
}
