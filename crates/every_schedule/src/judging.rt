//! The verdict over every schedule, by a recovery routine.

ghost use Rattle.every_schedule.specs.AllAnswers.{AllAnswer, AllAnswerOnMachines, IsFoundByRoutine, IsOfSetup, SomeBegins};
ghost use Rattle.every_schedule.specs.EverySchedule.{AllCanEnd, AllEndWell, IfPass};
ghost use Rattle.every_schedule.specs.Sequential.{program_of};
ghost use Rattle.machine.specs.RunValues.{start_of};
ghost use Rattle.schedule_states.specs.Ending.{IsStuckBehind};
ghost use Rattle.schedule_states.specs.Exploring.{IfAll, IfNoWayOut};
ghost use Rattle.schedule_states.specs.Watching.{HasHeard};
ghost use Rattle.std.specs.Prelude.{◌≡◌, ◌≤◌, false, true, IfOk};

use crate::atomic_judge::AtomicJudge;
use crate::checking::Limits;
use crate::outcome::{Bound, Outcome};
use crate::routine_run::RoutineRun;
use crate::sequential::{Recovery, Sequential, sequential_runs};
use crate::showing::{Sought, show, show_stuck};
use machine::Setup;
use routine_judge::{Cause, MarkFault, ProgramRuns};
use schedule_states::{Explored, Start, StateJudge, Watcher, explore};
use std::alloc::{AllocError, Global};
use std::thread::Threads;

/// Judges by a recovery routine every schedule of a program on one to eight harts: of any length, with evictions anywhere, over a cache of
/// any size. Operations count as made alone, each at one time between its Begin and its End. The routine's answer is right where a
/// sequential run of the program that fits has it, on what loads find behind that run.
///
/// A pass speaks of all schedules, and their number has no bound. What is found comes with a run, of which `judge_program` by
/// `Rule::Atomic`, or `find_unfinished`, says the same, or from whose end no schedule goes on to where all harts have stopped. Its schedule
/// has the fewest requests up to where that shows. The sequential runs are searched first. Both searches together meet at most `states` states. Whoever watches hears how many the second one has met, and how many
/// of them wait.
///
/// # Errors
/// A growth was refused.
pub fn judge_all<T: Threads + Sync, W: Watcher>(
    rt: &T,
    alloc: Global,
    recovery: Recovery<'_>,
    setup: Setup,
    limits: Limits,
    watcher: &mut W,
) -> Result<Outcome<Cause, MarkFault>, AllocError>
    requires few { setup.harts ≤ 8 }
    // whatever schedule was run: right marks; and once an operation has begun, the routine answers rightly on all that a power cut may leave
    ensures pass { IfOk result (λ outcome. IfPass outcome (AllAnswer (program_of setup recovery.entry.program.now recovery.entry.steps)
        × SomeBegins setup)) }
    // so it does on what it leaves of any machine, with a cache of any size
    ensures survives { IfOk result (λ outcome. IfPass outcome (AllAnswerOnMachines (program_of setup recovery.entry.program.now recovery.entry.steps))) }
    // no hart has trapped, or exited with another code than 0; and some schedule goes on to where all have exited
    ensures whole { limits.any_end ≡ false → IfOk result (λ outcome. IfPass outcome (AllEndWell setup × AllCanEnd setup)) }
    // what was found is what is said of one run alone
    ensures found { IfOk result (IsFoundByRoutine (program_of setup recovery.entry.program.now recovery.entry.steps) setup) }
    ensures told { HasHeard W.hears watcher.old watcher.new }
{
    match sequential_runs(rt, alloc, &setup, recovery, limits.states)? {
        Sequential::All { runs, states } => {
            let left = Limits {
                states: states_left(limits.states, states),
                any_end: limits.any_end,
                workers: limits.workers,
            };
            let judge = RoutineRun {
                recovery,
                runs: ProgramRuns {
                    program: &setup.program,
                    harts: setup.harts,
                    runs: &runs,
                },
            };
            judge_by(rt, alloc, judge, &setup, left, watcher)
        }
        Sequential::TooMany(bound) => Ok(Outcome::TooMany(bound)),
    }
}

/// How many states a search may meet where so many of the most were met before.
fn states_left(most: u32, met: usize) -> u32 {
    match u32::try_from(met) {
        Ok(met) => most.saturating_sub(met),
        Err(_) => 0,
    }
}

/// Judges every schedule of a setup by a routine and the sequential runs of its program.
fn judge_by<T: Threads + Sync, W: Watcher>(
    rt: &T,
    alloc: Global,
    judge: RoutineRun<'_>,
    setup: &Setup,
    limits: Limits,
    watcher: &mut W,
) -> Result<Outcome<Cause, MarkFault>, AllocError>
    requires few { setup.now.harts ≤ 8 }
    requires runs { IsOfSetup judge setup.now }
    ensures pass { IfOk result (λ outcome. IfPass outcome (AllAnswer (program_of setup.now judge.entry.recovery.program.now judge.entry.recovery.steps) × SomeBegins setup.now)) }
    ensures whole { limits.any_end ≡ false → IfOk result (λ outcome. IfPass outcome (AllEndWell setup.now × AllCanEnd setup.now)) }
    ensures found { IfOk result (IsFoundByRoutine (program_of setup.now judge.entry.recovery.program.now judge.entry.recovery.steps) setup.now) }
    ensures told { HasHeard W.hears watcher.old watcher.new }
{
    let Searched {
        explored,
        has_begun,
    } = search(rt, alloc, judge, setup, limits, watcher)?;
    match explored {
        Explored::All { states, moments } if has_begun => Ok(Outcome::Pass { states, moments }),
        Explored::All { .. } => show(rt, alloc, &judge, setup, Sought::no_operation()),
        Explored::Found { stop, requests } => {
            let sought = Sought::behind(stop, &requests);
            show(rt, alloc, &judge, setup, sought)
        }
        Explored::NoWayOut { requests } => show_stuck(alloc, &judge, setup, &requests),
        Explored::TooMany => Ok(Outcome::TooMany(Bound::States)),
    }
}

/// What is known of the states of a program.
#[derive(Drop)]
struct Searched {
    explored: Explored,
    /// Whether an operation has begun in one of them.
    has_begun: bool,
}

/// Searches through the states of all schedules.
fn search<T: Threads + Sync, W: Watcher>(
    rt: &T,
    alloc: Global,
    judge: RoutineRun<'_>,
    setup: &Setup,
    limits: Limits,
    watcher: &mut W,
) -> Result<Searched, AllocError>
    requires few { setup.now.harts ≤ 8 }
    requires runs { IsOfSetup judge setup.now }
    ensures pass { IfOk result (λ searched. IfAll searched.explored (AllAnswer (program_of setup.now judge.entry.recovery.program.now judge.entry.recovery.steps))) }
    ensures begins { IfOk result (λ searched. searched.has_begun ≡ true → SomeBegins setup.now) }
    ensures whole { limits.any_end ≡ false → IfOk result (λ searched. IfAll searched.explored (AllEndWell setup.now × AllCanEnd setup.now)) }
    ensures stuck { IfOk result (λ searched. IfNoWayOut searched.explored (λ requests. IsStuckBehind requests (start_of setup.now))) }
    ensures told { HasHeard W.hears watcher.old watcher.new }
{
    let atomic = AtomicJudge {
        setup,
        recovery: judge.recovery,
        runs: judge.runs.runs,
        any_end: limits.any_end,
    };
    let start = Start {
        program: &setup.program,
        medium: &setup.medium,
        harts: setup.harts,
        most: limits.states,
        workers: limits.workers,
    };
    let mut notes = atomic.workspace(alloc, setup.medium.lines())?;
    let explored = explore(rt, alloc, &atomic, start, &mut notes, watcher)?;
    let has_begun = notes.has_begun;
    Ok(Searched {
        explored,
        has_begun,
    })
}
