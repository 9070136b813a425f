//! A run that shows why a search has stopped.

ghost use Rattle.crash_test.specs.Runs.{IsRunBy};
ghost use Rattle.every_schedule.specs.EverySchedule.{IsFoundBy, IsRunOf, IsStuck};
ghost use Rattle.every_schedule.specs.Showing.{PassesNot};
ghost use Rattle.machine.specs.Grammar.{hart_steps};
ghost use Rattle.machine.specs.Run.{Config as AConfig, RunsTo};
ghost use Rattle.machine.specs.RunValues.{RunView, start_of};
ghost use Rattle.machine.specs.Steps.{all_steps};
ghost use Rattle.schedule_states.specs.Ending.{GoesBy, IsStuckBehind};
ghost use Rattle.std.specs.Prelude.{◌≡◌, ◌<◌, ◌^◌, None, IfOk, IfSome};

use crate::follower::Follower;
use crate::outcome::{Bound, Finding, Outcome};
use crate::run_judge::RunJudge;
use crash_test::record_run;
use machine::{Run, Schedule, Setup, StepFault};
use schedule_states::Stop;
use std::alloc::{AllocError, Global};
use std::thread::Threads;

/// Why a run is looked for, and the harts whose requests it begins with.
#[derive(Clone, Copy)]
pub(crate) struct Sought<'a> {
    why: Why,
    requests: &'a [u32],
}

/// Why a run is looked for.
#[derive(Clone, Copy)]
enum Why {
    /// A search has stopped.
    Stop(Stop),
    /// No schedule begins an operation.
    NoOperation,
}

impl<'a> Sought<'a> {
    /// It shows why a search has stopped behind these requests.
    pub(crate) fn behind(stop: Stop, requests: &'a [u32]) -> Sought<'a> {
        Sought {
            why: Why::Stop(stop),
            requests,
        }
    }

    /// It begins no operation, as none does.
    pub(crate) fn no_operation() -> Sought<'a> {
        Sought {
            why: Why::NoOperation,
            requests: &[],
        }
    }
}

/// A run of the setup that shows what is sought: one that goes on up to where all harts have stopped, if that one shows it too.
pub(crate) fn show<T: Threads + Sync, J: RunJudge>(
    rt: &T,
    alloc: Global,
    judge: &J,
    setup: &Setup,
    sought: Sought<'_>,
) -> Result<Outcome<J::Cause, J::Fault>, AllocError>
    requires { (run : RunView) → IsRunOf setup.now run → J.suits judge.now run }
    ensures found { IfOk result (IsFoundBy (J.says judge.now) setup.now) }
    ensures no_pass { IfOk result PassesNot }
{
    if let Why::Stop(Stop::TooLong(_) | Stop::Claimed(_)) = sought.why {
        return Ok(Outcome::TooMany(Bound::Steps));
    }
    if let Some(outcome) = show_whole(rt, alloc, judge, setup, sought)? {
        return Ok(outcome);
    }
    match show_by(rt, alloc, judge, setup, sought, false)? {
        Some(outcome) => Ok(outcome),
        None => Ok(Outcome::TooMany(Bound::Events)),
    }
}

/// A run that goes on; None where a mark was refused or a moment has too many branches, behind which nothing is judged.
fn show_whole<T: Threads + Sync, J: RunJudge>(
    rt: &T,
    alloc: Global,
    judge: &J,
    setup: &Setup,
    sought: Sought<'_>,
) -> Result<Option<Outcome<J::Cause, J::Fault>>, AllocError>
    requires { (run : RunView) → IsRunOf setup.now run → J.suits judge.now run }
    ensures found { IfOk result (λ found. IfSome found (IsFoundBy (J.says judge.now) setup.now)) }
    ensures no_pass { IfOk result (λ found. IfSome found PassesNot) }
{
    match sought.why {
        Why::Stop(Stop::Bad | Stop::Ended(_)) | Why::NoOperation => {
            show_by(rt, alloc, judge, setup, sought, true)
        }
        Why::Stop(Stop::TooManyBranches | Stop::Refused(_) | Stop::TooLong(_) | Stop::Claimed(_)) =>
            Ok(None),
    }
}

/// A run of the setup that shows it, which goes on where that is asked for; None where it doesn't.
fn show_by<T: Threads + Sync, J: RunJudge>(
    rt: &T,
    alloc: Global,
    judge: &J,
    setup: &Setup,
    sought: Sought<'_>,
    goes_on: bool,
) -> Result<Option<Outcome<J::Cause, J::Fault>>, AllocError>
    requires { (run : RunView) → IsRunOf setup.now run → J.suits judge.now run }
    ensures found { IfOk result (λ found. IfSome found (IsFoundBy (J.says judge.now) setup.now)) }
    ensures no_pass { IfOk result (λ found. IfSome found PassesNot) }
{
    let Some(run) = run_of(alloc, setup, sought, goes_on)? else {
        return Ok(None);
    };
    match finding_in(rt, alloc, judge, &run, sought.why)? {
        Some(finding) => Ok(Some(Outcome::Found { run, finding })),
        None => Ok(None),
    }
}

/// The run of the setup by the requests that led to where the search has stopped, and on where that is asked for; None where it has over
/// 65,536 events, or a hart that goes on doesn't stop.
fn run_of(
    alloc: Global,
    setup: &Setup,
    sought: Sought<'_>,
    goes_on: bool,
) -> Result<Option<Run>, AllocError>
    ensures { IfOk result (λ found. IfSome found (IsRunOf setup.now)) }
{
    let followed = copy_of(alloc, setup)?;
    let schedule = match schedule_of(alloc, followed, sought, goes_on) {
        Ok(Some(schedule)) => schedule,
        Ok(None) => return Ok(None),
        Err(fault) => return none_by(fault),
    };
    recorded(alloc, setup, &schedule)
}

/// The run of the setup by a schedule; None where it has over 65,536 events.
fn recorded(alloc: Global, setup: &Setup, schedule: &Schedule) -> Result<Option<Run>, AllocError>
    requires few { hart_steps schedule.now < 2 ^ 32 }
    ensures { IfOk result (λ found. IfSome found (IsRunBy setup.now schedule.now)) }
{
    let setup = copy_of(alloc, setup)?;
    match record_run(alloc, setup, schedule) {
        Ok(run) => Ok(Some(run)),
        Err(fault) => none_by(fault),
    }
}

/// There is none for this reason, unless memory was refused.
fn none_by<T>(fault: StepFault) -> Result<Option<T>, AllocError>
    ensures { IfOk result (λ found. found ≡ None) }
{
    match fault {
        StepFault::Memory => Err(AllocError),
        StepFault::NoSuchHart
        | StepFault::NoSuchLine
        | StepFault::TraceFull
        | StepFault::OutOfLimits => Ok(None),
    }
}

/// The schedule of the requests that led to where the search has stopped, and on where that is asked for; None where a hart that goes on
/// doesn't stop.
fn schedule_of(
    alloc: Global,
    setup: Setup,
    sought: Sought<'_>,
    goes_on: bool,
) -> Result<Option<Schedule>, StepFault>
    ensures { IfOk result (λ found. IfSome found (λ schedule. hart_steps schedule < 2 ^ 32)) }
{
    let mut follower = Follower::new(alloc, setup)?;
    if follow(&mut follower, sought, goes_on)? {
        Ok(Some(follower.into_schedule()))
    } else {
        Ok(None)
    }
}

/// Makes these requests, and the steps that show why the search has stopped. Where harts are to go on, it says whether all have stopped.
fn follow(follower: &mut Follower, sought: Sought<'_>, goes_on: bool) -> Result<bool, StepFault> {
    follower.make_requests(sought.requests)?;
    match sought.why {
        Why::Stop(Stop::Refused(hart)) => follower.make_request(hart)?,
        Why::Stop(Stop::Ended(hart)) => follower.run_ahead(hart)?,
        Why::Stop(Stop::Bad | Stop::TooManyBranches | Stop::TooLong(_) | Stop::Claimed(_))
        | Why::NoOperation => {}
    }
    if goes_on {
        follower.take_turns()
    } else {
        Ok(true)
    }
}

/// What is wrong with the run, if it shows why it was looked for.
fn finding_in<T: Threads + Sync, J: RunJudge>(
    rt: &T,
    alloc: Global,
    judge: &J,
    run: &Run,
    why: Why,
) -> Result<Option<Finding<J::Cause, J::Fault>>, AllocError>
    requires { J.suits judge.now run.now }
    ensures { IfOk result (λ found. IfSome found (J.says judge.now run.now)) }
{
    if let Why::Stop(Stop::Ended(_)) = why {
        return judge.unfinished(alloc, run);
    }
    let finding = judge.judge_run(rt, alloc, run)?;
    Ok(finding.filter(|finding| shows(why, finding)))
}

/// Whether that is why the run was looked for. Where the search judged few contents, there can be many branches by numbers of stores.
fn shows<C, F>(why: Why, finding: &Finding<C, F>) -> bool {
    match finding {
        Finding::Verdict(_) => matches!(why, Why::Stop(Stop::Bad | Stop::TooManyBranches)),
        Finding::Refused(_) => matches!(why, Why::Stop(Stop::Refused(_)) | Why::NoOperation),
        Finding::NotWhole(_) => matches!(why, Why::Stop(Stop::Ended(_))),
        Finding::NoWayOut => false,
    }
}

/// A run of the setup by requests behind which no schedule goes on to an end.
pub(crate) fn show_stuck<J: RunJudge>(
    alloc: Global,
    judge: &J,
    setup: &Setup,
    requests: &[u32],
) -> Result<Outcome<J::Cause, J::Fault>, AllocError>
    requires stuck { IsStuckBehind requests.now (start_of setup.now) }
    ensures found { IfOk result (IsFoundBy (J.says judge.now) setup.now) }
    ensures no_pass { IfOk result PassesNot }
{
    match stuck_run(alloc, setup, requests)? {
        Some(run) => Ok(Outcome::Found {
            run,
            finding: Finding::NoWayOut,
        }),
        None => Ok(Outcome::TooMany(Bound::Events)),
    }
}

/// The run of the setup by these requests; None where it has over 65,536 events.
fn stuck_run(alloc: Global, setup: &Setup, requests: &[u32]) -> Result<Option<Run>, AllocError>
    requires stuck { IsStuckBehind requests.now (start_of setup.now) }
    ensures run { IfOk result (λ found. IfSome found (IsRunOf setup.now)) }
    ensures stuck { IfOk result (λ found. IfSome found IsStuck) }
{
    let followed = copy_of(alloc, setup)?;
    match schedule_behind(alloc, followed, requests) {
        Ok(schedule) => recorded(alloc, setup, &schedule),
        Err(fault) => none_by(fault),
    }
}

/// The schedule of these requests.
fn schedule_behind(alloc: Global, setup: Setup, requests: &[u32]) -> Result<Schedule, StepFault>
    ensures few { IfOk result (λ schedule. hart_steps schedule < 2 ^ 32) }
    ensures goes { IfOk result (λ schedule. (end : AConfig) × RunsTo (start_of setup) (all_steps schedule) end × GoesBy requests.now (start_of setup) end) }
{
    let mut follower = Follower::new(alloc, setup)?;
    follower.run_through(requests)?;
    Ok(follower.into_schedule())
}

/// Another setup, of copies.
fn copy_of(alloc: Global, setup: &Setup) -> Result<Setup, AllocError>
    ensures { IfOk result (λ copy. copy ≡ setup.now) }
{
    let program = setup.program.copy(alloc)?;
    let Ok(medium) = setup.medium.copy(alloc) else {
        return Err(AllocError);
    };
    Ok(Setup {
        program,
        medium,
        harts: setup.harts,
        capacity: setup.capacity,
    })
}
