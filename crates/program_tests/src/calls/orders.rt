//! The verdict over every schedule beside a plain look at each: all orders of the requests of two harts, each of which makes the steps up to
//! its next request, and that, in its turn. Each run is judged by itself.

use crate::calls::states::{Routine, verdict_on};
use every_schedule::{Limits, Outcome};
use hart::{Need, Status};
use image_check::Verdict;
use machine::{Machine, Run, Schedule, Setup, Step};
use plan::Plan;
use std::alloc::Global;
use std::thread::Threads;

/// How many steps a hart here makes at most.
const STEPS: u32 = 50;

/// Hart h adds the value 0 to an inode of its own by operation h.
const OWN: &str = "inodes 2\npages 2\njournals 1\nop 0 append 0 0\nop 1 append 1 0\n";

/// Both harts add to one inode.
const ONE: &str = "inodes 1\npages 1\njournals 1\nop 0 append 0 0\nop 1 append 0 0\n";

/// Hart 0 appends, and hart 1 makes an entry of its own, without a tail that takes it in.
const RIGHT: &str =
    "li a7, 2001\necall\nlui t1, 0x40004\nli t2, 1\nbnez a0, other\nsd t2, 0(t1)\ncbo.clean (t1)\nfence w, w\n\
    li t0, 0x4040\nsd t0, 72(a1)\nli a7, 93\nli a0, 0\necall\n\
    other: lui t1, 0x40005\nsd t2, 0(t1)\ncbo.clean (t1)\nfence w, w\nli a7, 93\nli a0, 0\necall\n";

/// Hart 0 appends without a clean of its entry. Hart 1 cleans it and makes a fence, in some orders in time.
const UNCLEANED: &str =
    "li a7, 2001\nlui t1, 0x40004\nli t2, 1\nbnez a0, other\necall\nsd t2, 0(t1)\nfence w, w\nli t0, 0x4040\n\
    sd t0, 72(a1)\nli a7, 93\nli a0, 0\necall\n\
    other: cbo.clean (t1)\nfence w, w\nli a7, 93\nli a0, 0\necall\n";

/// Hart 0 makes its fence before its clean. The fences of hart 1 complete nothing of it.
const FENCED_EARLY: &str =
    "li a7, 2001\nlui t1, 0x40004\nli t2, 1\nbnez a0, other\necall\nsd t2, 0(t1)\nfence w, w\ncbo.clean (t1)\n\
    li t0, 0x4040\nsd t0, 72(a1)\nli a7, 93\nli a0, 0\necall\n\
    other: fence w, w\nfence w, w\nli a7, 93\nli a0, 0\necall\n";

/// Hart 0 appends from its Begin to its End. Hart 1 begins an append to the same inode, right only behind that End.
const OVERLAPPED: &str =
    "li a7, 2001\necall\nbnez a0, out\nlui t1, 0x40004\nli t2, 1\nsd t2, 0(t1)\ncbo.clean (t1)\nfence w, w\n\
    li t0, 0x4040\nsd t0, 72(a1)\naddi t4, a1, 64\ncbo.clean (t4)\nfence w, w\nli a7, 2002\necall\n\
    out: li a7, 93\nli a0, 0\necall\n";

/// Hart 0 makes an entry durable and raises a flag. Where hart 1 finds the flag it takes the entry in, else it exits with 1.
const HANDED_OVER: &str =
    "li a7, 2001\nlui t1, 0x40004\nlui t3, 0x100\nli t2, 1\nbnez a0, other\necall\nsd t2, 0(t1)\ncbo.clean (t1)\n\
    fence w, w\nsd t2, 0(t3)\nli a7, 93\nli a0, 0\necall\n\
    other: ld t4, 0(t3)\nli a7, 93\nbeqz t4, out\nli a0, 0\nli t0, 0x4040\nsd t0, 72(a1)\nout: ecall\n";

/// The same, where the flag is raised before the fence, and hart 1 exits with 0.
const HANDED_EARLY: &str =
    "li a7, 2001\nlui t1, 0x40004\nlui t3, 0x100\nli t2, 1\nbnez a0, other\necall\nsd t2, 0(t1)\ncbo.clean (t1)\n\
    sd t2, 0(t3)\nfence w, w\nli a7, 93\nli a0, 0\necall\n\
    other: ld t4, 0(t3)\nli a7, 93\nli a0, 0\nbeqz t4, out\nli t0, 0x4040\nsd t0, 72(a1)\nout: ecall\n";

/// The hart that takes a lock appends. The other one goes without.
const LOCKED: &str =
    "lui t3, 0x100\nli t2, 1\namoswap.w t4, t2, (t3)\nbnez t4, out\nli a7, 2001\necall\nlui t1, 0x40004\nsd a0, 8(t1)\n\
    sd t2, 0(t1)\ncbo.clean (t1)\nfence w, w\nli t0, 0x4040\nsd t0, 72(a1)\nout: li a7, 93\nli a0, 0\necall\n";

/// What is known of all schedules of a routine on two harts.
#[derive(Clone, Copy, Debug, PartialEq, Eq)]
struct Known {
    /// All are good where harts may stop in any way.
    passes: bool,
    /// All are good, and each hart exits with 0.
    ends_well: bool,
}

impl Known {
    /// What is known of both.
    fn and(self, other: Known) -> Known {
        Known {
            passes: self.passes && other.passes,
            ends_well: self.ends_well && other.ends_well,
        }
    }
}

/// Who takes the next turns, two harts having so many: the lowest bit is the number of the hart that begins.
#[derive(Clone, Copy)]
pub(crate) struct Order {
    pub(crate) bits: u32,
    pub(crate) turns: u32,
}

struct Case {
    source: &'static str,
    plan: &'static str,
    /// How many requests both harts make at most.
    requests: u32,
    known: Known,
}

static CASES: [Case; 7] = [
    Case {
        source: RIGHT,
        plan: OWN,
        requests: 9,
        known: Known {
            passes: true,
            ends_well: true,
        },
    },
    Case {
        source: UNCLEANED,
        plan: OWN,
        requests: 6,
        known: Known {
            passes: false,
            ends_well: false,
        },
    },
    Case {
        source: FENCED_EARLY,
        plan: OWN,
        requests: 7,
        known: Known {
            passes: false,
            ends_well: false,
        },
    },
    Case {
        source: OVERLAPPED,
        plan: ONE,
        requests: 9,
        known: Known {
            passes: false,
            ends_well: false,
        },
    },
    Case {
        source: HANDED_OVER,
        plan: OWN,
        requests: 7,
        known: Known {
            passes: true,
            ends_well: false,
        },
    },
    Case {
        source: HANDED_EARLY,
        plan: OWN,
        requests: 7,
        known: Known {
            passes: false,
            ends_well: false,
        },
    },
    Case {
        source: LOCKED,
        plan: ONE,
        requests: 8,
        known: Known {
            passes: true,
            ends_well: true,
        },
    },
];

/// Makes the steps of a hart up to its next request, and that; false where it stops before. None where that isn't within its steps.
pub(crate) fn take_turn(machine: &mut Machine, schedule: &mut Schedule, hart: u32) -> Option<bool> {
    for _step in 0..STEPS {
        if hart >= machine.harts() || machine.hart(hart).status != Status::Running {
            return Some(false);
        }
        let is_request = matches!(machine.need(hart), Need::Ask(_));
        machine.step(Step::Hart(hart)).ok()?;
        schedule.push_step(hart).ok()?;
        if is_request {
            return Some(true);
        }
    }
    None
}

/// Lets two harts take their turns in an order, up to one without a request. Whether no lower order has the same turns.
fn take_turns(machine: &mut Machine, schedule: &mut Schedule, order: Order) -> Option<bool> {
    for turn in 0..order.turns.min(31) {
        let left = order.bits >> turn;
        if !take_turn(machine, schedule, left & 1)? {
            return Some(left == 0);
        }
    }
    Some(true)
}

/// The schedule by which two harts take their turns in an order, and go on to their ends; empty where a lower order has the same turns.
fn schedule_of(alloc: Global, setup: Setup, order: Order) -> Option<String> {
    let mut machine = Machine::new(
        alloc,
        setup.program,
        setup.medium,
        setup.harts,
        setup.capacity,
    )
    .ok()?;
    let mut schedule = Schedule::new(alloc);
    if !take_turns(&mut machine, &mut schedule, order)? {
        return Some(String::new(alloc));
    }
    let turns = schedule.write(alloc).ok()?;
    format!(in alloc; "{turns} h0*{STEPS} h1*{STEPS}").ok()
}

/// What is known of the run by a schedule.
fn known_by<T: Threads + Sync>(
    rt: &T,
    alloc: Global,
    plan: &Plan,
    routine: Routine,
    schedule: &str,
) -> Option<Known> {
    let run = routine.run(alloc, schedule)?;
    let passes = matches!(verdict_on(rt, alloc, plan, &run), Ok(Verdict::Pass { .. }));
    let ends_well = passes && has_ended(&run);
    Some(Known { passes, ends_well })
}

/// Whether each hart has exited with 0.
fn has_ended(run: &Run) -> bool {
    run.harts()
        .iter()
        .all(|hart| hart.status == Status::Exited(0))
}

/// What is known of the runs in all orders of so many turns.
fn known_in_all<T: Threads + Sync>(
    rt: &T,
    alloc: Global,
    plan: &Plan,
    routine: Routine,
    turns: u32,
) -> Option<Known> {
    let mut known = Known {
        passes: true,
        ends_well: true,
    };
    for bits in 0..1 << turns.min(31) {
        let setup = routine.setup(alloc)?;
        let schedule = schedule_of(alloc, setup, Order { bits, turns })?;
        if !schedule.is_empty() {
            let one = known_by(rt, alloc, plan, routine, schedule.as_str())?;
            known = known.and(one);
        }
    }
    Some(known)
}

/// Whether all schedules of a routine pass.
fn passes<T: Threads + Sync>(
    rt: &T,
    alloc: Global,
    plan: &Plan,
    routine: Routine,
    any_end: bool,
) -> Option<bool> {
    let limits = Limits {
        states: 1_000,
        any_end,
        workers: 1,
    };
    let outcome = routine.outcome(rt, alloc, plan, limits)?;
    Some(matches!(outcome, Outcome::Pass { .. }))
}

/// What is known of all schedules of a case, if a look at each says the same.
fn agreed<T: Threads + Sync>(rt: &T, alloc: Global, case: &Case) -> Option<Known> {
    let routine = Routine {
        source: case.source,
        plan: case.plan,
        harts: 2,
    };
    let plan = routine.plan(alloc)?;
    let known = Known {
        passes: passes(rt, alloc, &plan, routine, true)?,
        ends_well: passes(rt, alloc, &plan, routine, false)?,
    };
    if known_in_all(rt, alloc, &plan, routine, case.requests)? == known {
        Some(known)
    } else {
        None
    }
}

#[test]
fn schedules_are_judged_as_one_by_one(rt: HostRuntime) {
    for case in &CASES {
        let found = agreed(&rt, rt.alloc(), case);
        assert!(rt; found == Some(case.known), "{found:?} {:?}", case.known);
    }
}
