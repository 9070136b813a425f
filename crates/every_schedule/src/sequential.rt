//! The sequential runs of a program: those in which each operation is made alone.

ghost use Rattle.every_schedule.specs.Sequential.{AreAllNoted, program_of};
ghost use Rattle.schedule_states.specs.Exploring.{IfAll};
ghost use Rattle.routine_judge.specs.SequentialRuns.{AreSequentialRuns, notes_in};
ghost use Rattle.routine_judge.specs.Views.{ProgramView};
ghost use Rattle.std.specs.Prelude.{◌≤◌, IfOk};

use crate::outcome::Bound;
use crate::sequential_judge::{Notes, SequentialJudge};
use machine::Setup;
use program::Program;
use routine_judge::SequentialRuns;
use schedule_states::{Explored, Start, StateJudge, Stop, Unwatched, explore};
use std::alloc::{AllocError, Global};
use std::thread::Threads;

/// A recovery routine, and what bounds it.
#[derive(Clone, Copy)]
pub struct Recovery<'a> {
    pub program: &'a Program,
    /// How many steps it makes at most on an image.
    pub steps: u32,
}

/// What is known of the sequential runs of a program.
#[derive(Drop)]
pub enum Sequential {
    /// All that are at rest are noted.
    All {
        runs: SequentialRuns,
        /// How many states stand for all sequential runs.
        states: usize,
    },
    /// They weren't all found: a bound is passed.
    TooMany(Bound),
}

/// Notes all sequential runs at rest of a program on one to eight harts, of any length: their operations in order, and what the routine comes
/// to on what loads find behind each of them. A run is followed no further behind a wrong mark, and an operation that waits for another one
/// gives no run. The search meets at most `most` states.
///
/// # Errors
/// A growth was refused.
pub fn sequential_runs<T: Threads + Sync>(
    rt: &T,
    alloc: Global,
    setup: &Setup,
    recovery: Recovery<'_>,
    most: u32,
) -> Result<Sequential, AllocError>
    requires few { setup.now.harts ≤ 8 }
    ensures all { IfOk result (AreAllNoted (program_of setup.now recovery.entry.program.now recovery.entry.steps)) }
{
    let judge = SequentialJudge {
        setup,
        recovery: recovery.program,
        steps: recovery.steps,
    };
    let start = Start {
        program: &setup.program,
        medium: &setup.medium,
        harts: setup.harts,
        most,
        workers: 1,
    };
    let mut notes = judge.workspace(alloc, setup.medium.lines())?;
    let explored = explore(rt, alloc, &judge, start, &mut notes, &mut Unwatched)?;
    Ok(noted_by(&explored, notes))
}

/// What is known where a search has noted these runs.
fn noted_by(explored: &Explored, notes: Notes) -> Sequential
    ensures { (view : ProgramView) → IfAll explored.now (AreSequentialRuns view (notes_in notes.runs)) → AreAllNoted view result }
{
    let Notes { answers: _, runs } = notes;
    match explored {
        Explored::All { states, .. } => Sequential::All {
            runs,
            states: *states,
        },
        Explored::Found {
            stop: Stop::TooLong(_),
            ..
        } => Sequential::TooMany(Bound::Steps),
        Explored::Found { .. } | Explored::NoWayOut { .. } | Explored::TooMany => {
            Sequential::TooMany(Bound::Sequential)
        }
    }
}
