//! Steps of a seat: a refused one leaves everything as it was, and is made when it is asked for again. And the end of a run of
//! two harts.

use crate::ending::{Refused, ended, ready, refusal};
use crate::samples::{COUNTER, COUNTS, assembled, bus_of, program_of};
use bus::{Bus, FinishFault, Outcome, Seat, StepFault};
use hart::{HartState, Status};
use machine::Recorded;
use std::alloc::Global;
use std::sync::Wait;

/// The state of a seat's hart, how many steps it has made, and how many of its requests were served.
type Seen = (HartState, u32, u32, usize);

fn seen_of(seat: &Seat<'_>) -> Seen {
    (
        *seat.state(),
        seat.made(),
        seat.since(),
        seat.exchanges().len(),
    )
}

/// Makes a step, and again where it was refused. Whether it was refused; None where an answer or the seat isn't as it should
/// be.
fn stepped_again<'p, R: Wait>(rt: &R, bus: &Bus<'p>, seat: &mut Seat<'p>) -> Option<bool> {
    let before = seen_of(seat);
    let is_refused = match seat.step(rt, bus) {
        Ok(Outcome::Done) => return Some(false),
        Ok(_) => return None,
        Err(fault) => matches!(fault, StepFault::Memory) && seen_of(seat) == before,
    };
    if is_refused && seat.step(rt, bus) == Ok(Outcome::Done) {
        Some(true)
    } else {
        None
    }
}

/// Makes eighteen steps of the first seat. Whether one was refused at first.
fn all_stepped<'p, R: Wait>(rt: &R, bus: &Bus<'p>, seats: &mut [Seat<'p>]) -> Option<bool> {
    let seat = seats.get_mut(0)?;
    let mut is_refused = false;
    for _ in 0..18 {
        if stepped_again(rt, bus, seat)? {
            is_refused = true;
        }
    }
    Some(is_refused)
}

/// Whether the history has the eighteen steps, and the trace their nine events.
fn are_recorded(alloc: Global, recorded: &Recorded) -> Result<bool, Refused> {
    let schedule = ready(recorded.schedule().write(alloc))?;
    Ok(schedule.as_str() == "h0*18" && recorded.trace().events().len() == 9)
}

/// Makes the steps, and compares the run that is gathered then.
fn stepped<R: Wait>(rt: &R, alloc: Global) -> Result<bool, Refused> {
    let program = program_of(alloc, COUNTS)?;
    let (bus, mut seats) = bus_of(alloc, &program, 100)?;
    let Some(is_refused) = all_stepped(rt, &bus, &mut seats) else {
        return Ok(false);
    };
    let recorded = ready(bus.finish(alloc, seats))?;
    let is_right = are_recorded(alloc, &recorded)?;
    if is_refused {
        return refusal(is_right);
    }
    Ok(is_right)
}

#[test]
fn seat_step_with_a_request(rt: HostRuntime) -> Result<(), Refused> {
    ended(&rt, stepped(&rt, rt.alloc()))
}

/// Makes each seat's 3,005 steps, one seat after the other.
fn count_up<'p, R: Wait>(rt: &R, bus: &Bus<'p>, seats: &mut [Seat<'p>]) -> Result<(), Refused> {
    for seat in seats.iter_mut() {
        for _ in 0..3_005 {
            ready(seat.step(rt, bus))?;
        }
    }
    Ok(())
}

/// Whether both harts have ended well, after 2,000 events.
fn have_counted(recorded: &Recorded) -> bool {
    recorded.trace().events().len() == 2_000
        && recorded.harts().len() == 2
        && recorded
            .harts()
            .iter()
            .all(|hart| hart.status == Status::Exited(0))
}

fn counted<R: Wait>(rt: &R, alloc: Global) -> Result<bool, Refused> {
    let program = assembled(alloc, COUNTER)?;
    let (bus, mut seats) = bus_of(alloc, &program, 3_005)?;
    count_up(rt, &bus, &mut seats)?;
    match bus.finish(alloc, seats) {
        Ok(recorded) => Ok(have_counted(&recorded)),
        Err(fault) => refusal(matches!(fault, FinishFault::Memory)),
    }
}

#[test]
fn finish_two_counters(rt: HostRuntime) -> Result<(), Refused> {
    ended(&rt, counted(&rt, rt.alloc()))
}
