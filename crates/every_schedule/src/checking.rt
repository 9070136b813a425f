//! The verdict over every schedule, by a plan.

ghost use Rattle.every_schedule.specs.EverySchedule.{AllCanEnd, AllEndWell, AllPass, AllSurvive, IfPass, IsFoundOf};
ghost use Rattle.machine.specs.RunValues.{start_of};
ghost use Rattle.schedule_states.specs.Ending.{IsStuckBehind};
ghost use Rattle.schedule_states.specs.Exploring.{IfAll, IfNoWayOut};
ghost use Rattle.schedule_states.specs.Watching.{HasHeard};
ghost use Rattle.std.specs.Prelude.{◌≡◌, ◌≤◌, false, IfOk};

use crate::outcome::{Bound, Outcome};
use crate::plan_judge::PlanJudge;
use crate::plan_run::PlanRun;
use crate::showing::{Sought, show, show_stuck};
use image_check::{Cause, OpFault};
use machine::Setup;
use plan::Plan;
use schedule_states::{Explored, Start, StateJudge, Watcher, explore};
use std::alloc::{AllocError, Global};
use std::thread::Threads;

/// What bounds the search, and what it lets pass.
#[derive(Clone, Copy, Debug, PartialEq, Eq)]
pub struct Limits {
    /// The most states that are met.
    pub states: u32,
    /// Whether harts may stop in any way, or never: trap, exit with another code than 0, wait or go round for ever.
    pub any_end: bool,
    /// How many threads look at states at once, from one on. Nothing that is found depends on them.
    pub workers: u32,
}

/// Judges by a plan every schedule of a program on one to eight harts: of any length, with evictions anywhere, over a cache of any size.
///
/// A pass speaks of all of them, and their number has no bound. What is found comes with a run, of which `check_program` or
/// `find_unfinished` says the same, or from whose end no schedule goes on to where all harts have stopped; its schedule has the fewest
/// requests up to where that shows. The search meets at most `states` states.
/// Whoever watches hears on the way how many it has met, and how many of them wait.
#[tactic(auto, using(crate::proofs::Judged::all_survive))]
pub fn check_all<T: Threads + Sync, W: Watcher>(
    rt: &T,
    alloc: Global,
    plan: &Plan,
    setup: Setup,
    limits: Limits,
    watcher: &mut W,
) -> Result<Outcome<Cause, OpFault>, AllocError>
    requires few { setup.harts ≤ 8 }
    // whatever schedule was run: right marks, and all that a power cut may leave recovers to a legal volume
    ensures pass { IfOk result (λ outcome. IfPass outcome (AllPass plan.now.operations setup)) }
    // so does what it leaves of any machine, with a cache of any size
    ensures survives { IfOk result (λ outcome. IfPass outcome (AllSurvive plan.now.operations setup)) }
    // no hart has trapped, or exited with another code than 0; and some schedule goes on to where all have exited
    ensures whole { limits.any_end ≡ false → IfOk result (λ outcome. IfPass outcome (AllEndWell setup × AllCanEnd setup)) }
    // what was found is what is said of one run alone
    ensures found { IfOk result (IsFoundOf plan.now.operations setup) }
    ensures told { HasHeard W.hears watcher.old watcher.new }
{
    match explore_all(rt, alloc, plan, &setup, limits, watcher)? {
        Explored::All { states, moments } => Ok(Outcome::Pass { states, moments }),
        Explored::Found { stop, requests } => {
            let sought = Sought::behind(stop, &requests);
            show(rt, alloc, &PlanRun { plan }, &setup, sought)
        }
        Explored::NoWayOut { requests } => {
            show_stuck(alloc, &PlanRun { plan }, &setup, &requests)
        }
        Explored::TooMany => Ok(Outcome::TooMany(Bound::States)),
    }
}

/// Searches through the states of all schedules.
fn explore_all<T: Threads + Sync, W: Watcher>(
    rt: &T,
    alloc: Global,
    plan: &Plan,
    setup: &Setup,
    limits: Limits,
    watcher: &mut W,
) -> Result<Explored, AllocError>
    requires few { setup.now.harts ≤ 8 }
    ensures pass { IfOk result (λ explored. IfAll explored (AllPass plan.now.operations setup.now)) }
    ensures whole { limits.any_end ≡ false → IfOk result (λ explored. IfAll explored (AllEndWell setup.now × AllCanEnd setup.now)) }
    ensures stuck { IfOk result (λ explored. IfNoWayOut explored (λ requests. IsStuckBehind requests (start_of setup.now))) }
    ensures told { HasHeard W.hears watcher.old watcher.new }
{
    let judge = PlanJudge {
        plan,
        medium: &setup.medium,
        any_end: limits.any_end,
    };
    let start = Start {
        program: &setup.program,
        medium: &setup.medium,
        harts: setup.harts,
        most: limits.states,
        workers: limits.workers,
    };
    let mut workspace = judge.workspace(alloc, setup.medium.lines())?;
    explore(rt, alloc, &judge, start, &mut workspace, watcher)
}
