//! What is found out about every schedule of a routine. The numbers of states and of moments are those of a search by a program of its
//! own; so is the first moment that fails.

use crate::calls::starts::loaded;
use crash_test::{Work, check_program, record_run};
use every_schedule::{Bound, Finding, Limits, Outcome, Unwatched, check_all};
use image_check::{Cause, CheckFault, OpFault, Verdict};
use machine::{Run, Schedule, Setup};
use nova_log::VolumeFault;
use plan::Plan;
use std::alloc::Global;
use std::thread::Threads;
use text::ImageName;
use unfinished::{Unfinished, find_unfinished};

/// Each hart appends to an inode of its own.
pub(crate) const OWN: &str =
    "inodes 3\npages 3\njournals 1\nop 1 append 0 70\nop 2 append 1 71\nop 3 append 2 72\n";

/// All harts append to one inode.
const ONE: &str =
    "inodes 1\npages 1\njournals 1\nop 1 append 0 70\nop 2 append 0 71\nop 3 append 0 72\n";

/// Hart h appends to the log of inode h.
pub(crate) const OWN_LOGS: &str =
    "li a7, 2001\naddi a0, a0, 1\necall\nslli t4, a0, 6\nadd t4, t4, a1\nld t0, 8(t4)\nadd t1, a1, t0\nli t2, 1\n\
    sd t2, 0(t1)\nsd a0, 8(t1)\naddi t3, a0, 69\nsd t3, 16(t1)\ncbo.clean (t1)\nfence w, w\naddi t0, t0, 64\n\
    sd t0, 8(t4)\ncbo.clean (t4)\nfence w, w\nli a7, 2002\necall\nli a7, 93\nli a0, 0\necall\n";

/// Harts append to the log of inode 0 under a spin lock in data memory.
const SPIN_LOCK: &str =
    "lui s4, 256\naddi s1, a0, 1\nlock: li t0, 1\namoswap.w.aq t1, t0, (s4)\nbnez t1, lock\nli a7, 2001\nmv a0, s1\n\
    ecall\nld t0, 72(a1)\nadd t1, a1, t0\nli t2, 1\nsd t2, 0(t1)\nsd s1, 8(t1)\naddi t3, s1, 69\nsd t3, 16(t1)\n\
    cbo.clean (t1)\nfence w, w\naddi t0, t0, 64\nsd t0, 72(a1)\naddi t4, a1, 64\ncbo.clean (t4)\nfence w, w\n\
    li a7, 2002\necall\namoswap.w.rl x0, x0, (s4)\nli a7, 93\nli a0, 0\necall\n";

/// The same with the lock in persistent memory: a hart that spins stores to it again and again.
const LASTING_LOCK: &str =
    "addi s4, a1, 128\naddi s1, a0, 1\nlock: li t0, 1\namoswap.w.aq t1, t0, (s4)\nbnez t1, lock\nli a7, 2001\nmv a0, s1\n\
    ecall\nld t0, 72(a1)\nadd t1, a1, t0\nli t2, 1\nsd t2, 0(t1)\nsd s1, 8(t1)\naddi t3, s1, 69\nsd t3, 16(t1)\n\
    cbo.clean (t1)\nfence w, w\naddi t0, t0, 64\nsd t0, 72(a1)\naddi t4, a1, 64\ncbo.clean (t4)\nfence w, w\n\
    li a7, 2002\necall\namoswap.w.rl x0, x0, (s4)\nli a7, 93\nli a0, 0\necall\n";

/// The same under a ticket lock.
const TICKETS: &str =
    "lui s4, 256\naddi s1, a0, 1\nli t0, 1\namoadd.w t1, t0, (s4)\nwait: lw t2, 64(s4)\nbne t1, t2, wait\nli a7, 2001\n\
    mv a0, s1\necall\nld t0, 72(a1)\nadd t1, a1, t0\nli t2, 1\nsd t2, 0(t1)\nsd s1, 8(t1)\naddi t3, s1, 69\n\
    sd t3, 16(t1)\ncbo.clean (t1)\nfence w, w\naddi t0, t0, 64\nsd t0, 72(a1)\naddi t4, a1, 64\ncbo.clean (t4)\n\
    fence w, w\nli a7, 2002\necall\nlw t2, 64(s4)\naddi t2, t2, 1\nsw t2, 64(s4)\nli a7, 93\nli a0, 0\necall\n";

/// The same without a lock: an operation begins while another one adds to its inode.
const LOCKLESS: &str =
    "addi s1, a0, 1\nli a7, 2001\nmv a0, s1\necall\nld t0, 72(a1)\nadd t1, a1, t0\nli t2, 1\nsd t2, 0(t1)\nsd s1, 8(t1)\n\
    addi t3, s1, 69\nsd t3, 16(t1)\ncbo.clean (t1)\nfence w, w\naddi t0, t0, 64\nsd t0, 72(a1)\naddi t4, a1, 64\n\
    cbo.clean (t4)\nfence w, w\nli a7, 2002\necall\nli a7, 93\nli a0, 0\necall\n";

/// Hart h appends to the log of inode h, and doesn't clean the entry.
const UNCLEANED: &str =
    "li a7, 2001\naddi a0, a0, 1\necall\nslli t4, a0, 6\nadd t4, t4, a1\nld t0, 8(t4)\nadd t1, a1, t0\nli t2, 1\n\
    sd t2, 0(t1)\nsd a0, 8(t1)\naddi t3, a0, 69\nsd t3, 16(t1)\naddi t0, t0, 64\n\
    sd t0, 8(t4)\ncbo.clean (t4)\nfence w, w\nli a7, 2002\necall\nli a7, 93\nli a0, 0\necall\n";

/// Sets a flag, and then makes steps for ever that ask for nothing.
const ENDLESS: &str = "sd a0, 0(a1)\nturn: addi t0, t0, 1\nj turn\n";

/// Hart h exits with h, and asks for nothing before.
const NUMBERED: &str = "li a7, 93\necall\n";

/// A routine, the plan by which it is judged, and how many harts run it.
#[derive(Clone, Copy)]
pub(crate) struct Routine {
    pub(crate) source: &'static str,
    pub(crate) plan: &'static str,
    pub(crate) harts: u32,
}

/// What is known of all schedules of a routine.
#[derive(Clone, Copy, Debug, PartialEq, Eq)]
enum Known {
    /// These are good.
    Pass { states: usize, moments: usize },
    /// The first run that is bad fails at this moment.
    Fail { moment: u32, cause: Cause },
    /// A mark of an operation is wrong.
    Refused(OpFault),
    /// A run isn't whole, for so many causes.
    NotWhole(usize),
    /// From where a run leads no schedule goes on to an end.
    NoWayOut,
    TooMany(Bound),
}

struct Case {
    routine: Routine,
    limits: Limits,
    known: Known,
}

static CASES: [Case; 14] = [
    Case {
        routine: Routine {
            source: OWN_LOGS,
            plan: OWN,
            harts: 1,
        },
        limits: Limits {
            states: 1_000,
            any_end: false,
            workers: 1,
        },
        known: Known::Pass {
            states: 5,
            moments: 5,
        },
    },
    Case {
        routine: Routine {
            source: OWN_LOGS,
            plan: OWN,
            harts: 2,
        },
        limits: Limits {
            states: 1_000,
            any_end: false,
            workers: 1,
        },
        known: Known::Pass {
            states: 25,
            moments: 25,
        },
    },
    Case {
        routine: Routine {
            source: OWN_LOGS,
            plan: OWN,
            harts: 3,
        },
        limits: Limits {
            states: 125,
            any_end: false,
            workers: 1,
        },
        known: Known::Pass {
            states: 125,
            moments: 125,
        },
    },
    Case {
        routine: Routine {
            source: OWN_LOGS,
            plan: OWN,
            harts: 3,
        },
        limits: Limits {
            states: 124,
            any_end: false,
            workers: 1,
        },
        known: Known::TooMany(Bound::States),
    },
    Case {
        routine: Routine {
            source: SPIN_LOCK,
            plan: ONE,
            harts: 2,
        },
        limits: Limits {
            states: 79,
            any_end: false,
            workers: 1,
        },
        known: Known::Pass {
            states: 79,
            moments: 41,
        },
    },
    Case {
        routine: Routine {
            source: SPIN_LOCK,
            plan: ONE,
            harts: 3,
        },
        limits: Limits {
            states: 1_000,
            any_end: false,
            workers: 1,
        },
        known: Known::Pass {
            states: 391,
            moments: 151,
        },
    },
    Case {
        routine: Routine {
            source: SPIN_LOCK,
            plan: ONE,
            harts: 2,
        },
        limits: Limits {
            states: 0,
            any_end: false,
            workers: 1,
        },
        known: Known::TooMany(Bound::States),
    },
    Case {
        routine: Routine {
            source: LASTING_LOCK,
            plan: ONE,
            harts: 2,
        },
        limits: Limits {
            states: 1_000,
            any_end: false,
            workers: 1,
        },
        known: Known::Pass {
            states: 79,
            moments: 46,
        },
    },
    Case {
        routine: Routine {
            source: TICKETS,
            plan: ONE,
            harts: 3,
        },
        limits: Limits {
            states: 1_000,
            any_end: false,
            workers: 1,
        },
        known: Known::Pass {
            states: 568,
            moments: 151,
        },
    },
    Case {
        routine: Routine {
            source: LOCKLESS,
            plan: ONE,
            harts: 2,
        },
        limits: Limits {
            states: 1_000,
            any_end: false,
            workers: 1,
        },
        known: Known::Refused(OpFault::SharesInode),
    },
    Case {
        routine: Routine {
            source: UNCLEANED,
            plan: OWN,
            harts: 2,
        },
        limits: Limits {
            states: 1_000,
            any_end: false,
            workers: 1,
        },
        known: Known::Fail {
            moment: 5,
            cause: Cause::Fault(VolumeFault::Kind),
        },
    },
    Case {
        routine: Routine {
            source: ENDLESS,
            plan: ONE,
            harts: 1,
        },
        limits: Limits {
            states: 1_000,
            any_end: false,
            workers: 1,
        },
        known: Known::TooMany(Bound::Steps),
    },
    // hart 1 exits with 1, and none of three operations begins
    Case {
        routine: Routine {
            source: NUMBERED,
            plan: ONE,
            harts: 2,
        },
        limits: Limits {
            states: 1_000,
            any_end: false,
            workers: 1,
        },
        known: Known::NotWhole(4),
    },
    Case {
        routine: Routine {
            source: NUMBERED,
            plan: ONE,
            harts: 2,
        },
        limits: Limits {
            states: 1,
            any_end: true,
            workers: 1,
        },
        known: Known::Pass {
            states: 1,
            moments: 1,
        },
    },
];

impl Routine {
    /// What its runs start from: it, and a new volume of 512 lines for its plan.
    pub(crate) fn setup(self, alloc: Global) -> Option<Setup> {
        let (program, medium) = loaded(alloc, Some(self.plan), &[self.source])?;
        Some(Setup::with_room(program, medium, self.harts))
    }

    /// Its plan.
    pub(crate) fn plan(self, alloc: Global) -> Option<Plan> {
        Plan::read(alloc, self.plan.as_bytes()).ok()
    }

    /// Its run by the text of a schedule.
    pub(crate) fn run(self, alloc: Global, schedule: &str) -> Option<Run> {
        let schedule = Schedule::read(alloc, schedule.as_bytes()).ok()?;
        let setup = self.setup(alloc)?;
        record_run(alloc, setup, &schedule).ok()
    }

    /// What is found out about its schedules.
    pub(crate) fn outcome<T: Threads + Sync>(
        self,
        rt: &T,
        alloc: Global,
        plan: &Plan,
        limits: Limits,
    ) -> Option<Outcome<Cause, OpFault>> {
        let setup = self.setup(alloc)?;
        if setup.harts > 8 {
            return None;
        }
        check_all(rt, alloc, plan, setup, limits, &mut Unwatched).ok()
    }
}

/// The verdict on the whole of a run.
pub(crate) fn verdict_on<T: Threads + Sync>(
    rt: &T,
    alloc: Global,
    plan: &Plan,
    run: &Run,
) -> Result<Verdict<Cause>, CheckFault> {
    let work = Work {
        first: 0,
        last: None,
        workers: 1,
        goes_on: false,
    };
    check_program(rt, alloc, plan, run, work, &mut crash_test::Unwatched)
}

/// What is found out in a case; None where a run that shows it doesn't do so by itself.
fn found_in<T: Threads + Sync>(rt: &T, alloc: Global, case: &Case) -> Option<Known> {
    let plan = case.routine.plan(alloc)?;
    match case.routine.outcome(rt, alloc, &plan, case.limits)? {
        Outcome::Pass { states, moments } => Some(Known::Pass { states, moments }),
        Outcome::Found { run, finding } => {
            let again = made_again(alloc, case.routine, &run)?;
            shown_by(rt, alloc, &plan, &again, &finding)
        }
        Outcome::TooMany(bound) => Some(Known::TooMany(bound)),
    }
}

/// The run of a routine by the schedule of another run, as it is printed.
fn made_again(alloc: Global, routine: Routine, run: &Run) -> Option<Run> {
    let schedule = run.recorded().schedule().write(alloc).ok()?;
    routine.run(alloc, schedule.as_str())
}

/// What a finding says, if the run by itself shows it.
fn shown_by<T: Threads + Sync>(
    rt: &T,
    alloc: Global,
    plan: &Plan,
    run: &Run,
    finding: &Finding<Cause, OpFault>,
) -> Option<Known> {
    match finding {
        Finding::NotWhole(causes) => unfinished_by(alloc, plan, run, causes),
        Finding::NoWayOut => Some(Known::NoWayOut),
        Finding::Verdict(verdict) => match verdict_on(rt, alloc, plan, run) {
            Ok(other) => failed_by(alloc, verdict, &other),
            Err(_) => None,
        },
        Finding::Refused(fault) => match verdict_on(rt, alloc, plan, run) {
            Err(CheckFault::Operation(other)) if other == *fault => Some(Known::Refused(other)),
            _ => None,
        },
    }
}

/// That the run isn't whole, if it is so for these causes.
fn unfinished_by(alloc: Global, plan: &Plan, run: &Run, causes: &[Unfinished]) -> Option<Known> {
    let events = run.trace().events();
    let others = find_unfinished(alloc, run.harts(), events, plan.operations()).ok()?;
    if others.as_slice() == causes {
        Some(Known::NotWhole(causes.len()))
    } else {
        None
    }
}

/// The failure of a verdict, if the other verdict is the same.
fn failed_by(alloc: Global, verdict: &Verdict<Cause>, other: &Verdict<Cause>) -> Option<Known> {
    let (moment, image, cause) = failure_of(verdict)?;
    let (other_moment, other_image, other_cause) = failure_of(other)?;
    if moment == other_moment && cause == other_cause && is_one_name(alloc, image, other_image) {
        Some(Known::Fail { moment, cause })
    } else {
        None
    }
}

fn failure_of(verdict: &Verdict<Cause>) -> Option<(u32, &ImageName, Cause)> {
    match verdict {
        Verdict::Fail {
            moment,
            image,
            cause,
            ..
        } => Some((*moment, image, *cause)),
        _ => None,
    }
}

fn is_one_name(alloc: Global, one: &ImageName, other: &ImageName) -> bool {
    match (format!(in alloc; "{one}"), format!(in alloc; "{other}")) {
        (Ok(one), Ok(other)) => one.as_str() == other.as_str(),
        _ => false,
    }
}

#[test]
fn schedules_are_judged_as_by_a_plain_search(rt: HostRuntime) {
    for case in &CASES {
        let found = found_in(&rt, rt.alloc(), case);
        assert!(rt; found == Some(case.known), "{found:?} {:?}", case.known);
    }
}
