//! How a run of one hart is traced.

ghost use Rattle.machine.specs.Stops.{is_stopped};
ghost use Rattle.machine.specs.Rows.{RunsBeforeEach};
ghost use Rattle.machine.specs.Traced.{StopsTracing, Traces, steps_alone};
ghost use Rattle.machine.specs.Tracers.{IsHeld, Makes};
ghost use Rattle.machine.specs.Walks.{HaltsAt};
ghost use Rattle.std.specs.Prelude.{◌≡◌, ◌≤◌, ◌⊎◌, true, IfErr, IfOk, replicate, slice_get};

use crate::run_trace::tracer::{TracedMachine, Tracer};
use crate::{Machine, Place, RunStop, Step};
use std::alloc::Global;

/// What a hart has made that went on alone.
#[derive(Drop)]
pub struct TracedAlone {
    /// The machine after its steps, and the places of the events that they made.
    pub run: TracedMachine,
    /// How many steps it has made.
    pub made: u32,
}

/// Makes the steps of one hart of a machine until it has stopped or has made so many; and gives the machine and, for each
/// event that this makes, in order, the number of its hart step, from 1, and the pc that the hart had before that step. The step
/// by which the hart stops counts, and is the last.
///
/// # Errors
/// The first step that is refused, with the steps made before it, as of a schedule of so many steps of the hart. Memory where a
/// growth is refused.
pub fn trace_alone(
    alloc: Global,
    machine: Machine,
    hart: u32,
    most: u32,
) -> Result<TracedAlone, RunStop>
    ensures ok { IfOk result (λ made. Traces machine made.run.machine (replicate made.made (Step.Hart hart)) made.run.places.items) }
    ensures most { IfOk result (λ made. made.made ≤ most) }
    ensures ended { IfOk result (λ made. (is_stopped (slice_get made.run.machine.harts hart) ≡ true) ⊎ (made.made ≡ most)) }
    ensures running { IfOk result (λ made. RunsBeforeEach machine hart made.made) }
    ensures err { IfErr result (StopsTracing machine (steps_alone hart most)) }
{
    let mut tracer = Tracer {
        machine,
        made: 0,
        places: Vec::new(alloc),
    };
    let ended = go_on(&mut tracer, hart, most);
    // The trace is within its limit, also where a step was refused.
    prove!(tracer.machine.events().len() <= 65_536);
    let Tracer {
        machine,
        places,
        ..
    } = tracer;
    match ended {
        Ok(made) => Ok(TracedAlone {
            run: TracedMachine { machine, places },
            made,
        }),
        Err(stop) => Err(stop),
    }
}

/// Makes the steps of a hart until it has stopped or has made so many, and says how many it has made.
fn go_on(tracer: &mut Tracer, hart: u32, most: u32) -> Result<u32, RunStop>
    requires { tracer.old.made ≡ 0 }
    ensures ok { IfOk result (λ made. Makes tracer.old (replicate made (Step.Hart hart)) tracer.new) }
    ensures most { IfOk result (λ made. made ≤ most) }
    ensures ended { IfOk result (λ made. (is_stopped (slice_get tracer.new.machine.harts hart) ≡ true) ⊎ (made ≡ most)) }
    ensures running { IfOk result (RunsBeforeEach tracer.old.machine hart) }
    ensures err { IfErr result (λ stop. HaltsAt Makes IsHeld tracer.old tracer.new (steps_alone hart most) (record { item = 0; steps = 0 }) stop.place stop.fault) }
{
    let mut made = 0;
    loop {
        made += tracer.make_rows(hart, most - made);
        if made == most || tracer.machine.has_stopped(hart) {
            return Ok(made);
        }
        if let Err(fault) = tracer.step_hart(hart) {
            let place = Place {
                item: 0,
                steps: made,
            };
            return Err(RunStop { place, fault });
        }
        made += 1;
    }
}
