//! Judging the moments of a run one by one, by one judge or by several that share the run.

ghost use Rattle.crash_image.specs.View.{HasLines};
ghost use Rattle.image_check.specs.Branching.{AreKeptAt};
ghost use Rattle.image_check.specs.Growth.{AreOutcomes};
ghost use Rattle.image_check.specs.Keeping.{KeepsPass};
ghost use Rattle.image_check.specs.OrderFaults.{AreSound};
ghost use Rattle.image_check.specs.Standing.{IsStanding};
ghost use Rattle.image_check.specs.Verdicts.{AreFlagged, IsMomentVerdict, IsRefusal};
ghost use Rattle.verdict.specs.Verdicts.{IfPassed};
ghost use Rattle.nova_log.specs.Volumes.{volume_of};
ghost use Rattle.store_trace.specs.History.{at_moment};
ghost use Rattle.store_trace.specs.declared.event.Event.{Event as AnEvent};
ghost use Rattle.std.specs.Prelude.{◌≡◌, ◌↔◌, ◌+◌, ◌^◌, ◌<◌, ◌≤◌, ℕ, List, length, slice_index_or, take, IfErr, IfOk, IfSome, IsTrue, OnOk};
ghost use Rattle.std.specs.Result.{result_ok};

use crate::judge::{note_next, starting_volume};
use crate::legal::{Outcomes, copy_of};
use crate::order::check_trace;
use crate::plan_images::{PlanImages, Workspace};
use crate::{Cause, CheckFault};
use crash_image::{TraceIndex, images_between};
use line_memory::Medium;
use nova_log::Volume;
use plan::Plan;
use std::alloc::{AllocError, Global};
use std::marker::Model;
use std::thread::Threads;
use store_trace::{Event, Trace};
use verdict::{MomentCuts, MomentVerdict, Moments, Opener, is_unseen, open_moment};

/// The most moments that are worth one worker alone: most take less time than a further worker takes to start. The branches of one
/// that has many are opened in threads all the same.
const MOMENTS_OF_ONE: u32 = 64;

/// A further worker is worth so many moments.
const MOMENTS_OF_MORE: u32 = 128;

/// A run whose marks are right, with what its moments are judged by. Judges of moments share it.
///
/// A contract sees the plan, the lines of the starting medium, and the events.
#[derive(Drop)]
pub struct SoundRun<'a> {
    plan: &'a Plan,
    medium: &'a Medium,
    trace: &'a Trace,
    /// The volume of the starting medium, if it has one.
    before: Option<Volume>,
    index: TraceIndex<'a>,
    /// The number of lines of the medium.
    lines: u32,
    /// The number of moments: one more than there are events.
    moments: u32,
}

impl<'a> Model for SoundRun<'a> {
    ghost use Rattle.crash_image.specs.View.{HasLines};
    ghost use Rattle.image_check.specs.OrderFaults.{AreSound};
    ghost use Rattle.image_check.specs.RunViews.{RunView};
    ghost use Rattle.line_memory.specs.Lines.{IsMedium};
    ghost use Rattle.nova_log.specs.Volumes.{volume_of};
    ghost use Rattle.store_trace.specs.TraceView.{IsEvent};
    ghost use Rattle.std.specs.Prelude.{◌≡◌, ◌+◌, ◌≤◌, length, All};
    ghost use Rattle.std.specs.Result.{result_ok};

    ghost Value = { RunView };

    ghost view = { λ r. record { plan = r.plan.now.operations; start = r.medium.now; events = r.trace.now.events } };

    ghost invariant = { λ r. HasLines r.medium.now r.trace.now.events
        × AreSound r.plan.now.operations r.trace.now.events (length r.trace.now.events)
        × (r.before ≡ result_ok (volume_of r.medium.now))
        × (r.index.start ≡ r.medium.now)
        × (r.index.events ≡ r.trace.now.events)
        × IsMedium r.medium.now
        × All IsEvent r.trace.now.events
        × (r.lines ≡ length r.medium.now)
        × (r.moments ≡ length r.trace.now.events + 1)
        × (r.moments ≤ 65537) };
}

impl<'a> SoundRun<'a> {
    /// The run of this trace, which started from the medium. The medium has every line that the trace names.
    /// A wrong mark of an operation is told before memory is asked for.
    #[tactic(auto, using(crate::proofs::Refusing::refused_operation))]
    pub fn new(
        alloc: Global,
        plan: &'a Plan,
        medium: &'a Medium,
        trace: &'a Trace,
    ) -> Result<SoundRun<'a>, CheckFault>
        requires { HasLines medium.now trace.now.events }
        ensures ok { IfOk result (λ run. run ≡ record { plan = plan.now.operations; start = medium.now; events = trace.now.events }) }
        ensures sound { IfOk result (λ run. AreSound plan.now.operations trace.now.events (length trace.now.events)) }
        ensures err { IfErr result (λ fault. IsRefusal plan.now.operations trace.now.events 0 fault) }
    {
        if let Err(fault) = check_trace(plan, trace) {
            return Err(CheckFault::Operation(fault));
        }
        let before = starting_volume(alloc, medium)?;
        let index = TraceIndex::new(alloc, medium, trace)?;
        let lines = index.lines();
        let moments = trace.events().len() as u32 + 1;
        Ok(SoundRun {
            plan,
            medium,
            trace,
            before,
            index,
            lines,
            moments,
        })
    }

    /// The number of moments: one more than there are events.
    pub fn moments(&self) -> u32
        ensures count { result ≡ length self.now.events + 1 }
        ensures most { result ≤ 65537 }
    {
        self.moments
    }
}

/// What a worker keeps from one moment to the next. A moment costs least after an earlier one that passes: what lies between them, and
/// one run of recovery for each branch only where one of the events between changes what recovery asked there.
#[derive(Drop)]
pub struct MomentJudge {
    pub(crate) opener: Opener,
    /// None after an error, and at first.
    pub(crate) standing: Option<Standing>,
}

impl Moments for SoundRun<'_> {
    ghost use Rattle.image_check.specs.Standing.{StandsIn};
    ghost use Rattle.image_check.specs.Verdicts.{judged_at};

    type Cause = Cause;

    type Judge = MomentJudge;

    ghost events = { λ s. s.events };

    ghost judged = { λ s moment verdict. judged_at s.plan s.start s.events moment verdict };

    ghost keeps = { λ s judge. StandsIn s judge };

    fn judge(&self, alloc: Global) -> Result<MomentJudge, AllocError> {
        Ok(MomentJudge {
            opener: Opener::new(alloc, self.lines)?,
            standing: None,
        })
    }

    fn judge_moment<T: Threads + Sync>(
        &self,
        rt: &T,
        alloc: Global,
        judge: &mut MomentJudge,
        moment: u32,
    ) -> Result<MomentVerdict<Cause>, AllocError> {
        let last = judge.standing.take();
        let mut standing = stand_before(alloc, self, &judge.opener, last, moment)?;
        standing.advance(self, &judge.opener, moment)?;
        let verdict = standing.judge(rt, alloc, self, &mut judge.opener)?;
        judge.standing = Some(standing);
        Ok(verdict)
    }

    fn images(&self, alloc: Global, first: u32, end: u32) -> Result<Option<u64>, AllocError> {
        images_between(alloc, self.trace, first, end)
    }

    fn workers(&self, moments: u32) -> u32 {
        if moments <= MOMENTS_OF_ONE {
            1
        } else {
            2 + moments / MOMENTS_OF_MORE
        }
    }
}

/// Where a judge of moments stands in a run.
#[derive(Drop)]
pub struct Standing {
    pub moment: u32,
    /// What the legal volumes of the moment are made of.
    pub outcomes: Outcomes,
    /// Whether the moment is known to pass; the lines that recovery asks there are then in the judge's opener.
    pub passes: bool,
    /// What runs of recovery work in: logs by lines that no event changes are kept from one moment to the next.
    pub workspace: Workspace,
}

impl Standing {
    /// At the beginning of the run, of which nothing is known.
    fn first(alloc: Global, run: &SoundRun, opener: &Opener) -> Result<Standing, AllocError>
        ensures standing { IfOk result (IsStanding run.now opener.now) }
        ensures moment { IfOk result (λ standing. standing.moment ≡ 0) }
    {
        let before = copy_of(alloc, &run.before)?;
        Ok(Standing {
            moment: 0,
            outcomes: Outcomes::new(alloc, before),
            passes: false,
            workspace: Workspace::new(alloc),
        })
    }

    /// Goes one event further.
    fn step(&mut self, run: &SoundRun, opener: &Opener) -> Result<(), AllocError>
        requires there { self.old.moment < length run.now.events }
        requires room { self.old.moment + 1 < 2 ^ 32 }
        requires standing { IsStanding run.now opener.now self.old }
        ensures standing { OnOk result (IsStanding run.now opener.now self.new) }
        ensures moment { OnOk result (self.new.moment ≡ self.old.moment + 1) }
    {
        let passes = still_passes(self.passes, run.trace, self.moment, opener);
        leave_next(&mut self.workspace, run.trace, self.moment);
        note_next(&mut self.outcomes, run.plan, run.trace, self.moment)?;
        self.passes = passes;
        self.moment += 1;
        Ok(())
    }

    /// Goes on to a later moment, or stays.
    fn advance(&mut self, run: &SoundRun, opener: &Opener, moment: u32) -> Result<(), AllocError>
        requires there { moment ≤ length run.now.events }
        requires later { self.old.moment ≤ moment }
        requires standing { IsStanding run.now opener.now self.old }
        ensures standing { OnOk result (IsStanding run.now opener.now self.new) }
        ensures moment { OnOk result (self.new.moment ≡ moment) }
    {
        while self.moment < moment {
            self.step(run, opener)?;
        }
        Ok(())
    }

    /// The verdict on the moment. Its branches are opened, unless it is known to pass.
    fn judge<T: Threads + Sync>(
        &mut self,
        rt: &T,
        alloc: Global,
        run: &SoundRun,
        opener: &mut Opener,
    ) -> Result<MomentVerdict<Cause>, AllocError>
        requires standing { IsStanding run.now opener.old self.old }
        requires size { length opener.old ≡ length run.now.start }
        ensures ok { IfOk result (λ verdict.
            IsMomentVerdict run.now.plan run.now.start (take self.old.moment run.now.events) verdict) }
        ensures standing { OnOk result (IsStanding run.now opener.new self.new) }
        ensures size { length opener.new ≡ length opener.old }
    {
        if self.passes {
            return Ok(MomentVerdict::Pass);
        }
        let verdict = open_at(rt, alloc, run, self, opener)?;
        self.passes = verdict.is_pass();
        Ok(verdict)
    }
}

/// Opens the branches of the moment of the run at which it stands.
fn open_at<T: Threads + Sync>(
    rt: &T,
    alloc: Global,
    run: &SoundRun,
    standing: &mut Standing,
    opener: &mut Opener,
) -> Result<MomentVerdict<Cause>, AllocError>
    requires standing { IsStanding run.now opener.old standing.old }
    requires size { length opener.old ≡ length run.now.start }
    ensures ok { IfOk result (λ verdict. IsMomentVerdict run.now.plan run.now.start (take standing.old.moment run.now.events) verdict) }
    ensures asked { IfOk result (λ verdict. IfPassed verdict (AreFlagged run.now.start (at_moment run.now.events standing.old.moment) opener.new)) }
    ensures size { length opener.new ≡ length opener.old }
    ensures moment { standing.new.moment ≡ standing.old.moment }
    ensures outcomes { standing.new.outcomes ≡ standing.old.outcomes }
    ensures kept { AreKeptAt run.now.start run.now.events standing.old.moment standing.new.workspace.kept }
{
    let (medium, trace) = (run.medium, run.trace);
    let cuts = MomentCuts::new(&run.index, standing.moment);
    let images = PlanImages {
        images: &cuts,
        plan: run.plan,
        outcomes: &standing.outcomes,
    };
    let verdict = open_moment(
        rt,
        alloc,
        medium,
        trace,
        standing.moment,
        &images,
        &mut standing.workspace,
        opener,
    )?;
    Ok(verdict)
}

/// Makes the workspace, which is one for the images of a moment, one for those of the next.
fn leave_next(workspace: &mut Workspace, trace: &Trace, moment: u32)
    requires { moment < length trace.now.events }
    ensures { (start : List (List ℕ)) → AreKeptAt start trace.now.events moment workspace.old.kept →
        AreKeptAt start trace.now.events (moment + 1) workspace.new.kept }
{
    if let Event::Store { line, .. } = trace.events()[moment as usize] {
        workspace.leave(line);
    }
}

/// Whether a moment that is known to pass or not is known to pass still after its next event.
fn still_passes(passes: bool, trace: &Trace, moment: u32, opener: &Opener) -> bool
    requires { moment < length trace.now.events }
    ensures { IsTrue result → IsTrue passes × ((d : AnEvent) → KeepsPass opener.now (slice_index_or trace.now.events moment d)) }
{
    passes && spoils_nothing(trace.events()[moment as usize], opener)
}

/// Where a judge that stood here last goes on to a moment from: it never goes back.
fn stand_before(
    alloc: Global,
    run: &SoundRun,
    opener: &Opener,
    last: Option<Standing>,
    moment: u32,
) -> Result<Standing, AllocError>
    requires { IfSome last (IsStanding run.now opener.now) }
    ensures standing { IfOk result (IsStanding run.now opener.now) }
    ensures before { IfOk result (λ standing. standing.moment ≤ moment) }
{
    if let Some(standing) = last {
        if standing.moment <= moment {
            return Ok(standing);
        }
    }
    Standing::first(alloc, run, opener)
}

/// Whether the event changes nothing that recovery looked at, and forbids no volume.
fn spoils_nothing(event: Event, opener: &Opener) -> bool
    ensures { IsTrue result ↔ KeepsPass opener.now event }
{
    match event {
        Event::End { .. } => false,
        _ => is_unseen(event, opener),
    }
}
