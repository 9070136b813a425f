//! How many contents a power cut can leave lines with.

ghost use Rattle.std.specs.Prelude.{◌≡◌, ◌<◌, map, IfOk};
ghost use Rattle.std.specs.List.{AllByRecursion};
ghost use Rattle.verdict.specs.Contents.{AreWidest, contents, with_contents};

use crate::branches::{Question, Recovery};
use std::alloc::{AllocError, Global};
use std::cmp::Reverse;
use std::fmt;
use std::marker::Model;

/// How many lines are named at most.
const MOST_NAMED: usize = 8;

/// A line, and how many contents a power cut can leave it with.
#[derive(Clone, Copy, Debug, PartialEq, Eq)]
pub struct LineContents {
    pub line: u32,
    /// One at its floor, and one for each number of its stores after which its 64 bytes are as after no lower one.
    pub contents: u64,
}

/// Lines that recovery asks, those with the most contents first, and of lines with as many the lower one; at most eight.
///
/// A contract sees the list of them.
#[derive(Debug, Drop)]
pub struct WidestLines {
    lines: Vec<LineContents>,
}

impl Model for WidestLines {
    ghost use Rattle.std.specs.Prelude.{List};
    ghost use Rattle.verdict.specs.declared.moment_verdict.contents.LineContents.{LineContents as ALine};

    ghost Value = { List ALine };

    ghost view = { λ w. w.lines.items };
}

impl WidestLines {
    /// Those of these lines.
    pub(crate) fn of<R: Recovery>(
        alloc: Global,
        recovery: &R,
        lines: &[u32],
    ) -> Result<WidestLines, AllocError>
        requires { AllByRecursion (λ l. l < R.lines recovery.now) lines.now }
        ensures { IfOk result (AreWidest (R.alike recovery.now) (R.low recovery.now) (R.high recovery.now) lines.now) }
    {
        let mut lines = all_contents(alloc, recovery, lines)?;
        lines.sort_unstable_by_key(|one| (Reverse(one.contents), one.line));
        lines.truncate(MOST_NAMED);
        Ok(WidestLines { lines })
    }

    /// The lines, in order.
    pub fn lines(&self) -> &[LineContents]
        ensures { result.now ≡ self.now }
    {
        &self.lines
    }
}

/// `lN:K` for each line N with K contents, a comma between each two, or `none` where there is no line.
impl fmt::Display for WidestLines {
    ghost use Rattle.std.specs.Prelude.{Some};
    ghost use Rattle.verdict.specs.Contents.{widest_text};

    ghost output = { λ lines. Some (widest_text lines) };

    fn fmt<W: fmt::Write>(&self, f: &mut fmt::Formatter<W>) -> fmt::Result {
        let [first, rest @ ..] = self.lines() else {
            return write!(f, "none");
        };
        write!(f, "l{}:{}", first.line, first.contents)?;
        for one in rest {
            write!(f, ",l{}:{}", one.line, one.contents)?;
        }
        Ok(())
    }
}

/// Each of these lines with the number of its contents.
fn all_contents<R: Recovery>(
    alloc: Global,
    recovery: &R,
    lines: &[u32],
) -> Result<Vec<LineContents>, AllocError>
    requires { AllByRecursion (λ l. l < R.lines recovery.now) lines.now }
    ensures { IfOk result (λ all. all.items ≡ map (with_contents (R.alike recovery.now) (R.low recovery.now) (R.high recovery.now)) lines.now) }
{
    let mut all = Vec::new(alloc);
    for line in lines {
        all.push(LineContents {
            line: *line,
            contents: contents(recovery, *line),
        })?;
    }
    Ok(all)
}

/// How many contents a power cut can leave the line with.
fn contents<R: Recovery>(recovery: &R, line: u32) -> u64
    requires { line < R.lines recovery.now }
    ensures { result ≡ contents (R.alike recovery.now) (R.low recovery.now) (R.high recovery.now) line }
{
    let whole = Question {
        line,
        bytes: u64::MAX,
    };
    let mut count = 1;
    for below in recovery.floor(line)..recovery.stores(line) {
        if recovery.is_first(whole, below + 1) {
            count += 1;
        }
    }
    count
}
