//! Going on by a schedule.

ghost use Rattle.std.specs.Prelude.{◌≡◌, ◌+◌, ◌<◌, ◌^◌, IfErr, IfOk, length};
ghost use Rattle.debugger.specs.Going.{GoesTo, IsStoppedBy, ended, stop_at};

use crate::debugger::Debugger;
use crate::fault::DebugFault;
use crate::stop::{Cause, Halt, Stop};
use machine::{Place, Schedule, next_step, walk};

impl Debugger {
    /// Makes the steps of a schedule from a place on, one at least where there is one, up to the first after which a
    /// watched line was touched or a hart that runs and makes the next step is at a breakpoint. The watch is told where
    /// both are so.
    ///
    /// # Errors
    /// Stopped where a step is refused before that. The steps before it stand.
    pub fn go(&mut self, schedule: &Schedule, from: Place) -> Result<Stop, DebugFault>
        ensures ok { IfOk result (GoesTo self.old self.new schedule.now from) }
        ensures err { IfErr result (IsStoppedBy self.old self.new schedule.now from) }
    {
        let Some((first, at)) = next_step(schedule, from) else {
            return Ok(end_of(schedule));
        };
        // No breakpoint stops the run before its first step.
        if let Err(halt) = self.make(first) {
            return ended(at, halt);
        }
        match walk(self, schedule, at.behind()) {
            Ok(()) => Ok(end_of(schedule)),
            Err(halted) => ended(halted.place, halted.halt),
        }
    }
}

/// The stop behind all steps of a schedule.
fn end_of(schedule: &Schedule) -> Stop
    ensures { result ≡ record { cause = Cause.End; place = record { item = length schedule.now; steps = 0 } } }
{
    Stop {
        cause: Cause::End,
        place: Place {
            item: schedule.items().len(),
            steps: 0,
        },
    }
}

/// What a run comes to that halts at the step of a place.
fn ended(place: Place, halt: Halt) -> Result<Stop, DebugFault>
    requires { place.steps + 1 < 2 ^ 32 }
    ensures { result ≡ ended place halt }
{
    match halt {
        Halt::Stop(cause) => Ok(stop_at(place, cause)),
        Halt::Fault(fault) => Err(DebugFault::Stopped { place, fault }),
    }
}

/// The stop at the step of a place: a watched line stops the run behind the step.
fn stop_at(place: Place, cause: Cause) -> Stop
    requires { place.steps + 1 < 2 ^ 32 }
    ensures { result ≡ stop_at place cause }
{
    match cause {
        Cause::Watch { .. } => Stop {
            cause,
            place: place.behind(),
        },
        Cause::Break { .. } | Cause::End => Stop { cause, place },
    }
}
