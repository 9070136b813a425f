//! Seats of a bus, a stop word and a check desk, and a debugger's points, whose calls take no memory.

ghost use Rattle.workers.specs.Desks.{fresh as fresh_desk_seat};
ghost use Rattle.std.specs.Prelude.{◌≡◌, replicate};
ghost use Rattle.workers.specs.Stops.{fresh};

use crate::ending::{Refused, ended, ready};
use crate::samples::{LOADS, REGISTERS, bus_of, machine_of, program_of, zeros};
use bus::{Outcome, Seat};
use debugger::{DebugFault, Debugger};
use std::alloc::Global;
use workers::{CheckDesk, DeskResult, DeskSeat, StopSeat, StopWord};

/// Makes forty steps of a seat that need no request.
fn stepped(seats: &mut [Seat<'_>]) -> bool {
    let Some(seat) = seats.get_mut(0) else {
        return false;
    };
    for _ in 0..40 {
        if seat.step_local() != Some(Outcome::Done) {
            return false;
        }
    }
    seat.made() == 40 && seat.since() == 40 && seat.state().pc == 0x1_0000
}

fn stepped_alone(alloc: Global) -> Result<bool, Refused> {
    let program = program_of(alloc, REGISTERS)?;
    let (_, mut seats) = bus_of(alloc, &program, 100)?;
    Ok(stepped(&mut seats))
}

#[test]
fn seat_step_local_without_memory(rt: HostRuntime) -> Result<(), Refused> {
    ended(&rt, stepped_alone(rt.alloc()))
}

/// Whether one of eight seats sees that another raises the word.
fn is_seen(word: StopWord, mut seats: Vec<StopSeat>) -> bool
    requires count { word.seats ≡ 8 }
    requires seats { seats.items ≡ replicate 8 (fresh word.table) }
{
    let before = word.look(&mut seats[0]);
    word.raise(&mut seats[7]);
    let after = word.look(&mut seats[0]);
    let closed = word.close(seats);
    !before && after && closed
}

fn raised(alloc: Global) -> Result<bool, Refused> {
    match StopWord::new(alloc, 8) {
        Ok((word, seats)) => Ok(is_seen(word, seats)),
        Err(_) => Err(Refused::SetUp),
    }
}

#[test]
fn raise_and_look_without_memory(rt: HostRuntime) -> Result<(), Refused> {
    ended(&rt, raised(rt.alloc()))
}

/// What the desk comes to once two moments are given out, of which moment 1 is bad.
const RESULT: DeskResult = DeskResult {
    given: 2,
    least_bad: Some(1),
};

/// A claim, and a report that what it gives is bad.
fn claim_bad(desk: &CheckDesk, seat: &mut DeskSeat) -> Option<u32>
    requires { seat.old.desk ≡ desk.now.name }
    ensures { seat.new.desk ≡ seat.old.desk }
{
    let moment = desk.claim(seat)?;
    desk.report(seat, moment, true);
    Some(moment)
}

/// Whether two seats get two moments in turn, of which the second is told to be bad.
fn gives_moments(desk: CheckDesk, mut seats: Vec<DeskSeat>) -> bool
    requires workers { desk.workers ≡ 2 }
    requires seats { seats.items ≡ replicate 2 (fresh_desk_seat desk.name) }
{
    let first = desk.claim(&mut seats[0]);
    let unseen = seats[0].seen();
    let second = claim_bad(&desk, &mut seats[1]);
    let result = desk.close(seats);
    first == Some(0) && unseen == None && second == Some(1) && result == RESULT
}

fn given(alloc: Global) -> Result<bool, Refused> {
    match CheckDesk::new(alloc, 5, 2) {
        Ok((desk, seats)) => Ok(gives_moments(desk, seats)),
        Err(_) => Err(Refused::SetUp),
    }
}

#[test]
fn claim_and_report_without_memory(rt: HostRuntime) -> Result<(), Refused> {
    ended(&rt, given(rt.alloc()))
}

/// Sets sixty-four points, and takes them away.
fn set_and_clear(debugger: &mut Debugger) -> Result<(), DebugFault> {
    for place in 0..32 {
        debugger.break_at(0x1_0000 + 4 * place)?;
        debugger.watch_line(0x4000_0000 + 64 * place)?;
    }
    for place in 0..32 {
        debugger.clear(0x1_0000 + 4 * place)?;
        debugger.clear(0x4000_0000 + 64 * place)?;
    }
    Ok(())
}

fn points_set(alloc: Global) -> Result<bool, Refused> {
    let program = program_of(alloc, LOADS)?;
    let medium = zeros(alloc)?;
    let machine = ready(machine_of(alloc, program, medium, 1))?;
    let mut debugger = Debugger::new(machine);
    Ok(set_and_clear(&mut debugger).is_ok() && debugger.peek(0x1_0000) == Some(0x83))
}

#[test]
fn debugger_points_without_memory(rt: HostRuntime) -> Result<(), Refused> {
    ended(&rt, points_set(rt.alloc()))
}
