//! One step of a run, and whether the debugger halts at it.

ghost use Rattle.std.specs.Prelude.{◌≡◌, IfErr, IfNone, IfSome, OnOk, Some, slice_get};
ghost use Rattle.machine.specs.Represents.{IsRunning, copy_of};
ghost use Rattle.debugger.specs.Walks.{AsksFor, AsksForWatched, Halts, HaltsBehind, IsBrokenAt, IsStoppedBefore, StepsOn, Walks, WatchesOn, met_by};
ghost use Rattle.debugger.specs.Laws.{walks_joined, walks_none};

use crate::debugger::Debugger;
use crate::points::touched_line;
use crate::stop::{Cause, Halt};
use hart::{HartState, Need, Status};
use machine::{Outcome, Step, Stepper};

/// Steps of a run that has begun: it halts before a breakpoint, behind an access to a watched line, and at a step that is refused.
impl Stepper for Debugger {
    type Halt = Halt;

    ghost makes = { Walks };

    ghost halts = { Halts };

    #[tactic(auto, using(crate::proofs::Walking::walks_one, crate::proofs::Walking::halts_before, crate::proofs::Walking::halts_behind))]
    fn step(&mut self, step: Step) -> Result<(), Halt> {
        match self.stop_before(step) {
            Some(cause) => Err(Halt::Stop(cause)),
            None => self.make(step),
        }
    }

    /// All steps of a hart that has stopped, since no point stops the run before or behind them; of one that runs none.
    #[tactic(auto, using(crate::proofs::Walking::walks_rest))]
    fn make_several(&mut self, step: Step, most: u32) -> u32 {
        let Step::Hart(hart) = step else {
            return 0;
        };
        if self.machine.has_stopped(hart) {
            return most;
        }
        0
    }

    ghost no_step = { walks_none };

    ghost more_steps = { walks_joined };
}

impl Debugger {
    /// Makes a step, whatever breakpoint it is at. It halts where the step touched a watched line, or was refused.
    pub(crate) fn make(&mut self, step: Step) -> Result<(), Halt>
        ensures ok { OnOk result (StepsOn self.old step self.new) }
        ensures err { IfErr result (HaltsBehind self.old step self.new) }
    {
        let watch = self.watch_on(step);
        match self.machine.step(step) {
            Ok(outcome) => match met_by(watch, outcome) {
                Some(touched) => Err(Halt::Stop(touched)),
                None => Ok(()),
            },
            Err(fault) => Err(Halt::Fault(fault)),
        }
    }

    /// The breakpoint that stops a run before a step.
    fn stop_before(&self, step: Step) -> Option<Cause>
        ensures { IsStoppedBefore self.now.points self.now.machine.harts step result }
    {
        match step {
            Step::Hart(hart) => match self.broken_at(hart) {
                Some(pc) => Some(Cause::Break { hart, pc }),
                None => None,
            },
            Step::Evict(_) => None,
        }
    }

    /// The watched line that a step touches unless it traps.
    fn watch_on(&self, step: Step) -> Option<Cause>
        ensures { WatchesOn self.now.points self.now.machine step result }
    {
        match step {
            Step::Hart(hart) => match self.watched_line(hart) {
                Some(line) => Some(Cause::Watch { hart, line }),
                None => None,
            },
            Step::Evict(_) => None,
        }
    }

    /// The pc of a hart that runs and is at a breakpoint.
    fn broken_at(&self, hart: u32) -> Option<u64>
        ensures { IsBrokenAt self.now.points (slice_get self.now.machine.harts hart) result }
    {
        let pc = self.running(hart)?.pc;
        if self.has_break(pc) { Some(pc) } else { None }
    }

    /// The watched line that a hart's next instruction asks for an access to.
    fn watched_line(&self, hart: u32) -> Option<u64>
        ensures { AsksForWatched self.now.points (slice_get self.now.machine.harts hart) (copy_of self.now.machine hart) result }
    {
        match self.accessed_line(hart) {
            Some(line) => {
                if self.has_watch(line) {
                    Some(line)
                } else {
                    None
                }
            }
            None => None,
        }
    }

    /// The line that a hart's next instruction asks for an access to.
    fn accessed_line(&self, hart: u32) -> Option<u64>
        ensures { AsksFor (slice_get self.now.machine.harts hart) (copy_of self.now.machine hart) result }
    {
        self.running(hart)?;
        match self.machine.need(hart) {
            Need::Ask(request) => touched_line(request),
            Need::Local(_) | Need::Stop(_) => None,
        }
    }

    /// The state of a hart that is there and runs.
    fn running(&self, hart: u32) -> Option<&HartState>
        ensures some { IfSome result (λ state. (slice_get self.now.machine.harts hart ≡ Some state.now)
            × (state.now.status ≡ Status.Running)) }
        ensures none { IfNone result (¬ (IsRunning (slice_get self.now.machine.harts hart))) }
    {
        if hart >= self.machine.harts() {
            return None;
        }
        let state = self.machine.hart(hart);
        match state.status {
            Status::Running => Some(state),
            Status::Exited(_) | Status::Trapped(_) => None,
        }
    }
}

/// What a step was watched for, where its hart runs on.
fn met_by(watch: Option<Cause>, outcome: Outcome) -> Option<Cause>
    ensures { result ≡ met_by watch outcome }
{
    match outcome {
        Outcome::Done => watch,
        Outcome::Exited(_) | Outcome::Trapped(_) | Outcome::Stopped => None,
    }
}
