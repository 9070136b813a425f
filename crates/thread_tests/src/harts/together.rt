//! Harts in threads.

ghost use Rattle.std.specs.Prelude.{◌≡◌, ◌<◌, length};

use crate::harts::programs::{
    BUDGET, COUNT_1000, FIRST_RUN, bus_of, program_of, seats_of, start_of,
};
use bus::{Bus, RunFault, Seat, StepFault, run_harts};
use hart::{HartState, Status};
use isa_table::Reg;
use machine::{Item, Machine, Recorded, Schedule};
use program::Program;
use std::alloc::Global;
use std::sync::Wait;
use std::sync::atomic::{AtomicBool, AtomicU32, Ordering};
use std::thread;
use std::thread::Threads;
use workers::{Gate, Open};

/// How often a hart looks whether the other has entered.
const TURNS: u32 = 1_000_000_000;

/// Holds harts 0 and 1, each in its first `enter`, until the other has entered, or for so many turns.
#[derive(Drop)]
struct Meeting {
    entered: [AtomicBool; 2],
    /// How often each of them has left.
    left: [AtomicU32; 2],
    missed: AtomicBool,
}

impl Meeting {
    fn new() -> Meeting {
        Meeting {
            entered: [AtomicBool::new(false), AtomicBool::new(false)],
            left: [AtomicU32::new(0), AtomicU32::new(0)],
            missed: AtomicBool::new(false),
        }
    }

    /// Whether the other hart enters within the turns.
    fn meets(&self, other: usize) -> bool
        requires { other < 2 }
    {
        for _ in 0..TURNS {
            if self.entered[other].load(Ordering::SeqCst) {
                return true;
            }
        }
        false
    }

    fn is_met(&self) -> bool {
        !self.missed.load(Ordering::SeqCst)
            && self.entered[0].load(Ordering::SeqCst)
            && self.entered[1].load(Ordering::SeqCst)
    }

    /// Whether each hart has left so often.
    fn has_left(&self, times: u32) -> bool {
        self.left[0].load(Ordering::SeqCst) == times && self.left[1].load(Ordering::SeqCst) == times
    }
}

impl Gate for Meeting {
    fn enter(&self, worker: u32) {
        if worker > 1 {
            return;
        }
        let first = !self.entered[worker as usize].swap(true, Ordering::SeqCst);
        if first && !self.meets(1 - worker as usize) {
            self.missed.store(true, Ordering::SeqCst);
        }
    }

    fn leave(&self, worker: u32) {
        if worker <= 1 {
            self.left[worker as usize].fetch_add(1, Ordering::SeqCst);
        }
    }
}

/// Whether a hart has counted 1000 times and exited.
fn has_counted(hart: &HartState, stack: u64) -> bool {
    hart.status == Status::Exited(0)
        && hart.pc == 0x10020
        && hart.registers.get(Reg { number: 2 }) == stack
        && hart.registers.get(Reg { number: 5 }) == 0
        && hart.registers.get(Reg { number: 6 }) == 1
        && hart.registers.get(Reg { number: 11 }) == 0x4000_0000
        && hart.registers.get(Reg { number: 17 }) == 93
}

fn have_counted(harts: &[HartState]) -> bool {
    match harts {
        [first, second] => has_counted(first, 0x20_0000) && has_counted(second, 0x1f_f000),
        _ => false,
    }
}

/// How many steps a schedule has of a hart.
fn steps_of(schedule: &Schedule, number: u32) -> u64 {
    let mut total: u64 = 0;
    for item in schedule.items() {
        if let Item::Steps { hart, count } = *item {
            if hart == number {
                total = total.saturating_add(u64::from(count));
            }
        }
    }
    total
}

fn evictions_of(schedule: &Schedule) -> usize {
    schedule
        .items()
        .iter()
        .filter(|item| matches!(item, Item::Evict { .. }))
        .count()
}

/// Whether a machine of two harts has counted to 2000 after a schedule.
fn counts_by(machine: &mut Machine, schedule: &Schedule) -> bool {
    machine.run(schedule).is_ok()
        && machine.harts() == 2
        && has_counted(machine.hart(0), 0x20_0000)
        && has_counted(machine.hart(1), 0x1f_f000)
        && machine.events().len() == 2000
}

/// Whether the machine comes to the same by the schedule of a run.
fn is_replayed(alloc: Global, schedule: &Schedule) -> bool {
    let Some((program, medium)) = start_of(alloc, &COUNT_1000) else {
        return false;
    };
    match Machine::new(alloc, program, medium, 2, 512) {
        Ok(mut machine) => counts_by(&mut machine, schedule),
        Err(_) => false,
    }
}

/// Whether a run is that of two harts that have counted to 2000, with so many evictions.
fn is_count(alloc: Global, recorded: &Recorded, evictions: usize) -> bool {
    let schedule = recorded.schedule();
    have_counted(recorded.harts())
        && steps_of(schedule, 0) == 3005
        && steps_of(schedule, 1) == 3005
        && evictions_of(schedule) == evictions
        && recorded.trace().events().len() == 2000
        && is_replayed(alloc, schedule)
}

/// Whether two harts count to 2000 beside each other.
fn count_together<G: Gate, R: Threads + Wait + Sync>(
    rt: &R,
    alloc: Global,
    gate: &G,
) -> Option<bool> {
    let program = program_of(alloc, &COUNT_1000)?;
    count_by(rt, alloc, &program, gate)
}

/// The same with this program.
fn count_by<G: Gate, R: Threads + Wait + Sync>(
    rt: &R,
    alloc: Global,
    program: &Program,
    gate: &G,
) -> Option<bool> {
    let (bus, seats) = bus_of(alloc, program, 2, BUDGET)?;
    match run_harts(rt, alloc, bus, seats, gate) {
        Ok(recorded) => Some(is_count(alloc, &recorded, 0)),
        Err(_) => None,
    }
}

#[test]
fn two_harts_count(rt: HostRuntime) {
    assert!(rt; count_together(&rt, rt.alloc(), &Open) == Some(true));
}

#[test]
fn harts_run_together(rt: HostRuntime) {
    let meeting = Meeting::new();
    let counted = count_together(&rt, rt.alloc(), &meeting);
    assert!(rt; meeting.is_met() && meeting.has_left(3005));
    assert!(rt; counted == Some(true));
}

/// The fault of running both harts of a bus of one hart, of which the second is none.
fn fault_of_a_stranger<R: Threads + Wait + Sync>(rt: &R, alloc: Global) -> Option<RunFault> {
    let program = program_of(alloc, &FIRST_RUN)?;
    let strangers = seats_of(alloc, &program, 2, 8)?;
    fault_of(rt, alloc, &program, strangers)
}

/// The fault of running these seats, of which there are two, on a new bus of one hart.
fn fault_of<'p, R: Threads + Wait + Sync>(
    rt: &R,
    alloc: Global,
    program: &'p Program,
    seats: Vec<Seat<'p>>,
) -> Option<RunFault>
    requires { length seats.items ≡ 2 }
{
    let (bus, _seats) = bus_of(alloc, program, 1, 8)?;
    run_harts(rt, alloc, bus, seats, &Open).err()
}

#[test]
fn a_refusal_is_answered(rt: HostRuntime) {
    let fault = fault_of_a_stranger(&rt, rt.alloc());
    assert!(rt; fault == Some(RunFault::Step(StepFault::NoSuchHart)));
}

/// Makes all steps of a seat.
fn finish_steps<'p, R: Wait>(rt: &R, bus: &Bus<'p>, seat: &mut Seat<'p>) {
    for _ in 0..3005 {
        let _ = seat.step(rt, bus);
    }
}

/// Evicts line 0 a hundred times. False where an eviction is refused.
fn evict_often<R: Wait>(rt: &R, bus: &Bus<'_>) -> bool {
    for _ in 0..100 {
        if bus.evict(rt, 0).is_err() {
            return false;
        }
    }
    true
}

/// Drives the two seats of a bus in threads beside one that evicts. False where there are not two, or an eviction is refused.
fn drive_beside_evictions<'p, R: Threads + Sync + Wait>(
    rt: &R,
    bus: &Bus<'p>,
    seats: &mut [Seat<'p>],
) -> bool {
    let Some((first, others)) = seats.split_first_mut() else {
        return false;
    };
    let Some(second) = others.first_mut() else {
        return false;
    };
    let (_, is_evicted) = thread::join(
        rt,
        || thread::join(
            rt,
            || finish_steps(rt, bus, first),
            || finish_steps(rt, bus, second),
        ),
        || evict_often(rt, bus),
    );
    is_evicted
}

/// Whether the seats of a bus are gathered to the run of two harts that have counted to 2000, with 100 evictions.
fn are_gathered_so<'p>(alloc: Global, bus: Bus<'p>, seats: Vec<Seat<'p>>) -> bool {
    match bus.finish(alloc, seats) {
        Ok(recorded) => is_count(alloc, &recorded, 100),
        Err(_) => false,
    }
}

/// Whether two harts that count beside evictions come to such a run.
fn count_beside<R: Threads + Sync + Wait>(
    rt: &R,
    alloc: Global,
    program: &Program,
) -> Option<bool> {
    let (bus, mut seats) = bus_of(alloc, program, 2, BUDGET)?;
    let is_evicted = drive_beside_evictions(rt, &bus, &mut seats);
    let is_gathered = are_gathered_so(alloc, bus, seats);
    Some(is_evicted && is_gathered)
}

/// The same with a new program.
fn count_beside_evictions<R: Threads + Sync + Wait>(rt: &R, alloc: Global) -> Option<bool> {
    let program = program_of(alloc, &COUNT_1000)?;
    count_beside(rt, alloc, &program)
}

#[test]
fn evict_beside_threads(rt: HostRuntime) {
    assert!(rt; count_beside_evictions(&rt, rt.alloc()) == Some(true));
}
