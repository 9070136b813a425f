//! Machines: made, and stepped.

use crate::ending::{Refused, ended, ready, refusal};
use crate::samples::{APPENDS, LOADS, assembled, machine_of, new_volume, program_of, zeros};
use hart::{HartState, Status};
use machine::{Machine, Outcome, Step, StepFault};
use std::alloc::Global;

/// The state of hart 0, the number of events, and the byte of persistent memory that the routine stores first.
type Seen = (Option<HartState>, usize, Option<u8>);

fn seen_of(machine: &Machine) -> Seen {
    let state = if machine.harts() > 0 {
        Some(*machine.hart(0))
    } else {
        None
    };
    (state, machine.events().len(), machine.peek(0x4000_4000))
}

/// Whether a hart stands at this pc, after so many events.
fn stands(machine: &Machine, hart: u32, pc: u64, events: usize) -> bool {
    hart < machine.harts() && machine.hart(hart).pc == pc && machine.events().len() == events
}

fn made(alloc: Global) -> Result<bool, Refused> {
    let program = program_of(alloc, LOADS)?;
    let medium = zeros(alloc)?;
    let machine = machine_of(alloc, program, medium, 3)?;
    Ok(machine.harts() == 3 && stands(&machine, 2, 0x1_0000, 0))
}

#[test]
fn machine_new(rt: HostRuntime) -> Result<(), Refused> {
    ended(&rt, made(rt.alloc()))
}

/// Makes a step of hart 0, and again where it was refused, which has to change nothing that is seen. Whether it was refused; None
/// where an answer or the machine isn't as it should be.
fn stepped_again(machine: &mut Machine) -> Option<bool> {
    let before = seen_of(machine);
    let Err(fault) = machine.step(Step::Hart(0)) else {
        return Some(false);
    };
    let is_refused = matches!(fault, StepFault::Memory) && seen_of(machine) == before;
    if is_refused && machine.step(Step::Hart(0)).is_ok() {
        Some(true)
    } else {
        None
    }
}

/// Makes so many steps of hart 0. Whether one of them was refused at first.
fn all_stepped(machine: &mut Machine, count: u32) -> Option<bool> {
    let mut is_refused = false;
    for _ in 0..count {
        if stepped_again(machine)? {
            is_refused = true;
        }
    }
    Some(is_refused)
}

/// Whether hart 0 has ended well after ten events, the first of its stores made.
fn has_appended(machine: &Machine) -> bool {
    machine.harts() == 1
        && machine.hart(0).status == Status::Exited(0)
        && machine.events().len() == 10
        && machine.peek(0x4000_4000) == Some(1)
}

/// Makes the 22 steps of the routine that appends.
fn appended(machine: &mut Machine) -> Result<bool, Refused> {
    match all_stepped(machine, 22) {
        Some(false) => Ok(has_appended(machine)),
        Some(true) => refusal(has_appended(machine)),
        None => Ok(false),
    }
}

fn appended_over(alloc: Global) -> Result<bool, Refused> {
    let program = assembled(alloc, APPENDS)?;
    let medium = new_volume(alloc)?;
    let mut machine = ready(machine_of(alloc, program, medium, 1))?;
    appended(&mut machine)
}

#[test]
fn machine_steps_of_an_append(rt: HostRuntime) -> Result<(), Refused> {
    ended(&rt, appended_over(rt.alloc()))
}

/// Makes forty steps without an event, and an eviction.
fn looped(machine: &mut Machine) -> bool {
    for _ in 0..40 {
        if machine.step(Step::Hart(0)) != Ok(Outcome::Done) {
            return false;
        }
    }
    machine.step(Step::Evict(0)).is_ok() && stands(machine, 0, 0x1_0000, 0)
}

fn looped_alone(alloc: Global) -> Result<bool, Refused> {
    let program = program_of(alloc, LOADS)?;
    let medium = zeros(alloc)?;
    let mut machine = ready(machine_of(alloc, program, medium, 1))?;
    Ok(looped(&mut machine))
}

#[test]
fn machine_steps_without_memory(rt: HostRuntime) -> Result<(), Refused> {
    ended(&rt, looped_alone(rt.alloc()))
}
