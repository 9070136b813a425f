//! The index while the events are read, the oldest first.

ghost use Rattle.crash_image.specs.Lines.{AreLines, unstored};
ghost use Rattle.crash_image.specs.Pendings.{AreIndexed, IsHartPending, IsRaising};
ghost use Rattle.store_trace.specs.declared.crash_model.step.PersistenceStep.{PersistenceStep};
ghost use Rattle.store_trace.specs.declared.crash_model.step.PersistenceStep.TheVariants as step;
ghost use Rattle.store_trace.specs.History.{at_moment};
ghost use Rattle.store_trace.specs.TraceView.{IsEvent, NamesLine};
ghost use Rattle.std.specs.Prelude.{◌≡◌, ℕ, ◌+◌, ◌<◌, ◌≤◌, ◌∷◌, List, [], length, slice_index_or, All, IfOk};

use crate::trace_index::line::Stored;
use crate::trace_index::table::LineTable;
use line_memory::Medium;
use std::alloc::{AllocError, Global};
use store_trace::{Event, MAX_HARTS};

/// A clean of a line that waits for a fence of its hart.
#[derive(Clone, Copy)]
pub struct Clean {
    pub line: u32,
    /// How many stores the line had then.
    pub stores: u32,
}

/// The lines of the index of these events.
pub fn lines_of(alloc: Global, medium: &Medium, events: &[Event]) -> Result<LineTable, AllocError>
    requires each { All IsEvent events.now }
    requires named { All (NamesLine (length medium.now)) events.now }
    requires limit { length events.now ≤ 65536 }
    ensures { IfOk result (λ lines. AreLines medium.now (at_moment events.now) (length events.now) lines) }
{
    let mut lines = LineTable::new(alloc, medium.lines())?;
    let mut pending = no_cleans(alloc)?;
    for at in 0..events.len() {
        read(alloc, medium, &mut lines, &mut pending, events, at)?;
    }
    Ok(lines)
}

fn no_cleans(alloc: Global) -> Result<Vec<Vec<Clean>>, AllocError>
    ensures size { IfOk result (λ made. length made.items ≡ 8) }
    ensures empty { IfOk result (λ made. All (λ cleans. cleans.items ≡ []) made.items) }
{
    let mut made = Vec::with_capacity(alloc, MAX_HARTS)?;
    for _hart in 0..MAX_HARTS {
        made.push(Vec::new(alloc))?;
    }
    Ok(made)
}

/// Takes the index one event further.
fn read(
    alloc: Global,
    medium: &Medium,
    lines: &mut LineTable,
    pending: &mut [Vec<Clean>],
    events: &[Event],
    at: usize,
) -> Result<(), AllocError>
    requires there { at < length events.now }
    requires each { All IsEvent events.now }
    requires named { All (NamesLine (length medium.now)) events.now }
    requires limit { length events.now ≤ 65536 }
    requires before { AreIndexed medium.now (at_moment events.now) at lines.old pending.old }
    ensures { IfOk result (λ _. AreIndexed medium.now (at_moment events.now) (at + 1) lines.new pending.new) }
{
    match events[at] {
        Event::Store {
            line,
            offset,
            width,
            value,
            ..
        } => {
            let start = medium.read_line(line);
            let store = Stored {
                event: at as u32,
                offset,
                width,
                value,
            };
            lines.store(alloc, line, start, store)?;
            Ok(())
        }
        Event::Clean { hart, line } => {
            let stores = count(lines, line) as u32;
            pending[hart as usize].push(Clean { line, stores })?;
            Ok(())
        }
        Event::Fence { hart } => {
            raise_all(alloc, lines, &pending[hart as usize], at as u32)?;
            pending[hart as usize].clear();
            Ok(())
        }
        Event::Begin { .. } | Event::End { .. } => Ok(()),
    }
}

/// How many stores the line has.
fn count(lines: &LineTable, line: u32) -> usize
    requires { line < length lines.now }
    ensures { result ≡ length (slice_index_or lines.now line unstored).stores }
{
    match lines.line(line) {
        Some(line) => line.count(),
        None => 0,
    }
}

/// Raises the floors of the cleaned lines to at least what they had then, by the fence of the event at this place.
fn raise_all(
    alloc: Global,
    lines: &mut LineTable,
    cleans: &[Clean],
    event: u32,
) -> Result<(), AllocError>
    requires { All (λ clean. clean.line < length lines.old) cleans.now }
    ensures { IfOk result (λ _. (start : List (List ℕ)) (past : ℕ → List PersistenceStep) (hart : ℕ) →
        past (event + 1) ≡ step.Fence hart ∷ past event →
        IsHartPending (length start) (past event) hart cleans.now →
        AreLines start past event lines.old → AreLines start past (event + 1) lines.new) }
{
    for clean in cleans {
        lines.raise(alloc, clean.line, event, clean.stores)?;
    }
    Ok(())
}
