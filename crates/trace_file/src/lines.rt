//! The lines of a trace file, one by one.

ghost use Rattle.std.specs.Prelude.{◌≡◌, ◌≢◌, ◌+◌, ◌<◌, ◌^◌, ◌↔◌, ℕ, List, IfErr, IfNone, IfOk, IfSome, IsTrue};
ghost use Rattle.text.specs.Numbers.{IsOf};
ghost use Rattle.trace_file.specs.Entries.{Entry as AnEntry};
ghost use Rattle.trace_file.specs.Files.{HasEntry};
ghost use Rattle.trace_file.specs.Parts.{HasEntryLine, HasNext, HasNoLine, IsLineFault};

use crate::acts::{numbered, read_act};
use crate::cutting::{after, cut};
use crate::fault::TraceFileCode;
use crate::numbers::number_before;
use crate::place_words::places;
use store_trace::Event;
use text::Number;

/// The line of an event: its number, the event or why it isn't allowed, and the place words, each with a blank behind it.
#[derive(Clone, Copy)]
struct EntryLine<'a> {
    number: Number,
    judged: Result<Event, TraceFileCode>,
    place: &'a [u8],
    /// What follows the line.
    rest: &'a [u8],
}

/// The line of an event with which a text begins.
#[tactic(auto, using(crate::proofs::LineLemmas::entry_read, crate::proofs::LineLemmas::no_number, crate::proofs::LineLemmas::no_letter, crate::proofs::LineLemmas::no_hart, crate::proofs::LineLemmas::no_act))]
fn entry_line(text: &[u8]) -> Option<EntryLine<'_>>
    ensures some { IfSome result (HasEntryLine text.now) }
    ensures none { IfNone result ((number : ℕ) (entry : AnEntry) → ¬ HasEntry text.now number entry) }
{
    let (number, behind) = number_before(text, 10, b' ')?;
    let digits = after(behind, b"h")?;
    let (hart, behind) = number_before(digits, 10, b' ')?;
    let (place, behind) = places(behind);
    let act = read_act(behind, hart)?;
    Some(EntryLine {
        number,
        judged: act.judged,
        place,
        rest: act.rest,
    })
}

/// A line of a trace file that is right by itself.
#[derive(Clone, Copy)]
pub(crate) enum Line<'a> {
    /// The line of an event, its place words each with a blank behind it, and what follows the line.
    Event {
        event: Event,
        place: &'a [u8],
        rest: &'a [u8],
    },
    /// The last line, and what follows it.
    Last {
        rest: &'a [u8],
    },
}

/// Whether a number is this one.
fn is_number(number: Number, value: u64) -> bool
    ensures yes { IsTrue result → (n : ℕ) → IsOf n number → n ≡ value }
    ensures no { ¬ (IsTrue result) → (n : ℕ) → IsOf n number → n ≢ value }
{
    matches!(number, Number::Small(small) if small == value)
}

/// What is wrong with a text that begins with no line of a trace file.
#[tactic(auto, using(crate::proofs::LineLemmas::line_ends, crate::proofs::LineLemmas::line_unended))]
fn no_such_line(text: &[u8]) -> TraceFileCode
    ensures { HasNoLine text.now result }
{
    match cut(text, b'\n') {
        Some(_) => TraceFileCode::Form,
        None => TraceFileCode::End,
    }
}

/// The line with which a text begins, behind so many lines of events.
pub(crate) fn next_line(text: &[u8], count: usize) -> Result<Line<'_>, TraceFileCode>
    requires { count + 1 < 2 ^ 64 }
    ensures ok { IfOk result (HasNext count text.now) }
    ensures err { IfErr result (IsLineFault count text.now) }
{
    if let Some((total, rest)) = numbered(text, b"events ") {
        return if is_number(total, count as u64) {
            Ok(Line::Last { rest })
        } else {
            Err(TraceFileCode::Number)
        };
    }
    let Some(line) = entry_line(text) else {
        return Err(no_such_line(text));
    };
    if is_number(line.number, count as u64 + 1) {
        match line.judged {
            Ok(event) => Ok(Line::Event {
                event,
                place: line.place,
                rest: line.rest,
            }),
            Err(code) => Err(code),
        }
    } else {
        Err(TraceFileCode::Number)
    }
}
