//! Reading the lines of a trace file, one after another.

ghost use Rattle.std.specs.Prelude.{◌≡◌, ◌+◌, ◌<◌, ◌≤◌, ◌^◌, [], IfErr, IfOk, IsTrue};
ghost use Rattle.trace_file.specs.Drafts.{HasAdmitted, IsAdmissible, IsAdmitted, IsFaultBehind, IsGathered};
ghost use Rattle.trace_file.specs.Files.{IsFirstFault};
ghost use Rattle.trace_file.specs.Lines.{IsUpward};

use crate::fault::{TraceFileCode, TraceFileFault};
use crate::kept::{Kept, nothing, with_event};
use crate::line_set::{LineSet, add_line_of};
use crate::lines::{Line, next_line};
use std::alloc::Global;
use store_trace::{Event, MAX_EVENTS};

/// Adds the line that an event names, where the event passes no limit of all events together.
fn admit(event: Event, count: usize, lines: &mut LineSet) -> bool
    requires { IsUpward lines.old.items }
    ensures yes { IsTrue result → IsAdmitted count lines.old.items event lines.new.items }
    ensures no { ¬ (IsTrue result) → ¬ (IsAdmissible count lines.old.items event) }
{
    if count < MAX_EVENTS {
        add_line_of(lines, event)
    } else {
        false
    }
}

/// The line with which a text begins, behind so many lines of events with these lines of the medium.
#[tactic(auto, using(crate::proofs::Drafting::line_at_fault, crate::proofs::Drafting::limit_passed))]
fn admitted_line<'a>(
    text: &'a [u8],
    count: usize,
    lines: &mut LineSet,
) -> Result<Line<'a>, TraceFileCode>
    requires few { count ≤ 65536 }
    requires upward { IsUpward lines.old.items }
    ensures ok { IfOk result (HasAdmitted count text.now lines.old.items lines.new.items) }
    ensures err { IfErr result (IsFaultBehind count text.now lines.old.items) }
{
    match next_line(text, count) {
        Ok(Line::Event { event, place, rest }) => {
            if admit(event, count, lines) {
                Ok(Line::Event { event, place, rest })
            } else {
                Err(TraceFileCode::Limit)
            }
        }
        Ok(Line::Last { rest }) => Ok(Line::Last { rest }),
        Err(code) => Err(code),
    }
}

/// The events of a trace file, as far as memory allows keeping them, and how many there are. Their lines are added to the set.
#[tactic(auto, using(crate::proofs::Drafting::nothing_read, crate::proofs::Drafting::one_more_read, crate::proofs::Drafting::all_read, crate::proofs::Drafting::goes_on, crate::proofs::Drafting::fault_found, crate::proofs::Drafting::event_shorter, crate::proofs::Drafting::reading_upward))]
pub(crate) fn gather<'a>(
    alloc: Global,
    text: &'a [u8],
    lines: &mut LineSet,
) -> Result<(usize, Option<Kept<'a>>), TraceFileFault>
    requires { lines.old.items ≡ [] }
    ensures ok { IfOk result (λ found. IsGathered text.now lines.new.items found.0 found.1) }
    ensures err { IfErr result (λ fault. IsFirstFault text.now fault.line fault.code) }
{
    let mut kept = Some(nothing(alloc));
    let mut rest = text;
    let mut count = 0usize;
    'lines: loop {
        match admitted_line(rest, count, lines) {
            Ok(
                Line::Event {
                    event,
                    place,
                    rest: behind,
                },
            ) => {
                kept = with_event(kept, event, place);
                rest = behind;
                count += 1;
            }
            Ok(Line::Last { rest: behind }) => {
                if behind.is_empty() {
                    return Ok((count, kept));
                }
                let line = count + 2;
                let code = TraceFileCode::End;
                return Err(TraceFileFault { line, code });
            }
            Err(code) => {
                let line = count + 1;
                return Err(TraceFileFault { line, code });
            }
        }
    }
}
