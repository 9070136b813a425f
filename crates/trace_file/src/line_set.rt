//! The different lines of a trace, upwards.

ghost use Rattle.std.specs.Prelude.{◌≡◌, ◌<◌, ◌≤◌, IsTrue, length};
ghost use Rattle.store_trace.specs.Cut.{with_line};
ghost use Rattle.trace_file.specs.Files.{with_named};
ghost use Rattle.trace_file.specs.Lines.{IsPlaceOf, IsUpward};

use arrayvec::ArrayVec;
use store_trace::Event;

/// The most different lines of a trace file.
pub const MAX_LINES: usize = 16_384;

/// Different lines, upwards. They need no growth, so that a limit that is passed is found whatever memory there is.
pub(crate) type LineSet = ArrayVec<u32, MAX_LINES>;

/// Adds a line at its place among these, where there is room.
#[tactic(auto, using(crate::proofs::LineSets::inserted, crate::proofs::LineSets::inserted_few, crate::proofs::LineSets::no_room))]
fn insert_line(lines: &mut LineSet, place: usize, line: u32) -> bool
    requires { IsPlaceOf lines.old.items line place }
    ensures added { IsTrue result → lines.new.items ≡ with_line line lines.old.items }
    ensures few { IsTrue result → length (with_line line lines.old.items) ≤ 16384 }
    ensures full { ¬ (IsTrue result) → 16384 < length (with_line line lines.old.items) }
{
    match lines.try_insert(place, line) {
        Ok(()) => true,
        Err(_) => false,
    }
}

/// Adds a line where it is among these or there is room for it.
#[tactic(auto, using(crate::proofs::LineSets::there, crate::proofs::LineSets::there_few, crate::proofs::LineSets::place_of))]
fn add_line(lines: &mut LineSet, line: u32) -> bool
    requires { IsUpward lines.old.items }
    ensures added { IsTrue result → lines.new.items ≡ with_line line lines.old.items }
    ensures few { IsTrue result → length (with_line line lines.old.items) ≤ 16384 }
    ensures full { ¬ (IsTrue result) → 16384 < length (with_line line lines.old.items) }
{
    match lines.as_slice().binary_search(&line) {
        Ok(_) => true,
        Err(place) => insert_line(lines, place, line),
    }
}

/// Adds the line that an event names, where it names none, or one that is among these or for which there is room.
pub(crate) fn add_line_of(lines: &mut LineSet, event: Event) -> bool
    requires { IsUpward lines.old.items }
    ensures added { IsTrue result → lines.new.items ≡ with_named lines.old.items event }
    ensures few { IsTrue result → length (with_named lines.old.items event) ≤ 16384 }
    ensures full { ¬ (IsTrue result) → 16384 < length (with_named lines.old.items event) }
{
    match event {
        Event::Store { line, .. } | Event::Clean { line, .. } => add_line(lines, line),
        Event::Fence { .. } | Event::Begin { .. } | Event::End { .. } => lines.len() <= MAX_LINES,
    }
}
