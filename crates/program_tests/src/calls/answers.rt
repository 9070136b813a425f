//! What is found out about every schedule of a program by its recovery routine and its sequential runs. The numbers of states and of moments
//! are those of a search by a program of its own. Words, answers and what is wrong are worked out by hand.

ghost use Rattle.every_schedule.specs.Sequential.{AreAllNoted, program_of};
ghost use Rattle.routine_judge.specs.Rules.{AreNotedFor};
ghost use Rattle.routine_judge.specs.declared.rule.Rule.TheVariants.{Atomic};
ghost use Rattle.std.specs.Prelude.{◌≡◌, ◌≤◌, IfSome};

use crate::calls::starts::loaded;
use crash_test::{Judgement, Work, judge_program, record_run};
use every_schedule::{
    Bound, Finding, Limits, Outcome, Recovery, Sequential, Unwatched, judge_all, sequential_runs,
};
use machine::{Run, Schedule, Setup};
use program::Program;
use routine_judge::{
    Cause, JudgeFault, MarkFault, Operation, ProgramRuns, Rule, SequentialRun, Verdict,
};
use std::alloc::Global;
use std::thread::Threads;

/// Hart h pushes a node with the value 70 + h onto a list, as operation h + 1. The node is durable before it is linked.
const PUSH: &str =
    "addi t0, a0, 1\naddi t1, a0, 70\nslli t2, t0, 6\nadd t3, a1, t2\nli a7, 2001\nmv a0, t0\necall\nsd t1, 0(t3)\n\
    again: ld t4, 0(a1)\nsd t4, 8(t3)\ncbo.clean (t3)\nfence w, w\nlr.d t5, (a1)\nbne t5, t4, again\n\
    sc.d t6, t2, (a1)\nbnez t6, again\ncbo.clean (a1)\nfence w, w\nli a7, 2002\necall\nli a7, 93\nli a0, 0\necall\n";

/// The same, but the node may be linked before it is durable.
const UNFENCED: &str =
    "addi t0, a0, 1\naddi t1, a0, 70\nslli t2, t0, 6\nadd t3, a1, t2\nli a7, 2001\nmv a0, t0\necall\nsd t1, 0(t3)\n\
    again: ld t4, 0(a1)\nsd t4, 8(t3)\ncbo.clean (t3)\nlr.d t5, (a1)\nbne t5, t4, again\n\
    sc.d t6, t2, (a1)\nbnez t6, again\ncbo.clean (a1)\nfence w, w\nli a7, 2002\necall\nli a7, 93\nli a0, 0\necall\n";

/// Recovery of the list: its values, from the node that was linked last.
const WALK: &str =
    "lui s0, 256\nmv s1, s0\nld t0, 0(a1)\nwalk: beqz t0, done\nadd t0, a1, t0\nld t1, 0(t0)\nsd t1, 0(s1)\n\
    addi s1, s1, 8\nld t0, 8(t0)\nj walk\ndone: mv a1, s0\nsub a2, s1, s0\nli a7, 93\nli a0, 0\necall\n";

/// Operation 2 begins while operation 1 of the same hart is pending.
const TWICE: &str = "li a7, 2001\nli a0, 1\necall\nli a0, 2\necall\nli a7, 93\nli a0, 0\necall\n";

/// Hart h exits with h, and begins no operation.
const NUMBERED: &str = "li a7, 93\necall\n";

/// Begins an operation, and then makes steps for ever that ask for nothing.
const ENDLESS: &str = "li a7, 2001\nli a0, 1\necall\nturn: addi t0, t0, 1\nj turn\n";

/// How many steps recovery makes at most on an image.
const STEPS: u32 = 1_000;

/// A program on so many harts, which the list's recovery follows.
#[derive(Clone, Copy)]
struct Source {
    text: &'static str,
    harts: u32,
}

/// What is known of all schedules of a program.
#[derive(Clone, Copy, Debug, PartialEq, Eq)]
enum Known {
    /// These are good.
    Pass { states: usize, moments: usize },
    /// The first run that is bad fails at this moment.
    Fail { moment: u32, cause: Cause },
    /// A mark of an operation is wrong, or there is none.
    Refused(MarkFault),
    /// A run isn't whole, for so many causes.
    NotWhole(usize),
    /// From where a run leads no schedule goes on to an end.
    NoWayOut,
    TooMany(Bound),
}

struct Case {
    source: Source,
    limits: Limits,
    known: Known,
}

static CASES: [Case; 10] = [
    Case {
        source: Source {
            text: PUSH,
            harts: 1,
        },
        limits: Limits {
            states: 1_000,
            any_end: false,
            workers: 1,
        },
        known: Known::Pass {
            states: 7,
            moments: 6,
        },
    },
    // 45 states of sequential runs, and 205 of all
    Case {
        source: Source {
            text: PUSH,
            harts: 2,
        },
        limits: Limits {
            states: 250,
            any_end: false,
            workers: 1,
        },
        known: Known::Pass {
            states: 205,
            moments: 114,
        },
    },
    Case {
        source: Source {
            text: PUSH,
            harts: 2,
        },
        limits: Limits {
            states: 100,
            any_end: false,
            workers: 1,
        },
        known: Known::TooMany(Bound::States),
    },
    Case {
        source: Source {
            text: PUSH,
            harts: 2,
        },
        limits: Limits {
            states: 44,
            any_end: false,
            workers: 1,
        },
        known: Known::TooMany(Bound::Sequential),
    },
    Case {
        source: Source {
            text: UNFENCED,
            harts: 2,
        },
        limits: Limits {
            states: 1_000,
            any_end: false,
            workers: 1,
        },
        known: Known::Fail {
            moment: 5,
            cause: Cause::Different,
        },
    },
    Case {
        source: Source {
            text: TWICE,
            harts: 1,
        },
        limits: Limits {
            states: 1_000,
            any_end: false,
            workers: 1,
        },
        known: Known::Refused(MarkFault::Overlaps),
    },
    Case {
        source: Source {
            text: NUMBERED,
            harts: 1,
        },
        limits: Limits {
            states: 1_000,
            any_end: false,
            workers: 1,
        },
        known: Known::Refused(MarkFault::NoOperation),
    },
    // hart 1 exits with 1
    Case {
        source: Source {
            text: NUMBERED,
            harts: 2,
        },
        limits: Limits {
            states: 1_000,
            any_end: false,
            workers: 1,
        },
        known: Known::NotWhole(1),
    },
    Case {
        source: Source {
            text: NUMBERED,
            harts: 2,
        },
        limits: Limits {
            states: 1_000,
            any_end: true,
            workers: 1,
        },
        known: Known::Refused(MarkFault::NoOperation),
    },
    Case {
        source: Source {
            text: ENDLESS,
            harts: 1,
        },
        limits: Limits {
            states: 1_000,
            any_end: false,
            workers: 1,
        },
        known: Known::TooMany(Bound::Steps),
    },
];

const FIRST: Operation = Operation { op: 1, hart: 0 };

const SECOND: Operation = Operation { op: 2, hart: 1 };

/// The words of two pushes, each with the values that recovery then finds.
static WORDS: [(&[Operation], &[u8]); 5] = [
    (&[], &[]),
    (&[FIRST], &[70, 0, 0, 0, 0, 0, 0, 0]),
    (&[SECOND], &[71, 0, 0, 0, 0, 0, 0, 0]),
    (
        &[FIRST, SECOND],
        &[71, 0, 0, 0, 0, 0, 0, 0, 70, 0, 0, 0, 0, 0, 0, 0],
    ),
    (
        &[SECOND, FIRST],
        &[70, 0, 0, 0, 0, 0, 0, 0, 71, 0, 0, 0, 0, 0, 0, 0],
    ),
];

impl Source {
    /// What its runs start from: it, and 512 lines of zeros.
    fn setup(self, alloc: Global) -> Option<Setup> {
        let (program, medium) = loaded(alloc, None, &[self.text])?;
        Some(Setup::with_room(program, medium, self.harts))
    }
}

fn recovery(alloc: Global) -> Option<Program> {
    let (program, _medium) = loaded(alloc, None, &[WALK])?;
    Some(program)
}

/// What is found out in a case; None where a run that shows it doesn't do so by itself.
fn found_in<T: Threads + Sync>(rt: &T, alloc: Global, case: &Case) -> Option<Known> {
    let setup = case.source.setup(alloc)?;
    if setup.harts > 8 {
        return None;
    }
    let program = recovery(alloc)?;
    let recovery = Recovery {
        program: &program,
        steps: STEPS,
    };
    match judge_all(rt, alloc, recovery, setup, case.limits, &mut Unwatched).ok()? {
        Outcome::Pass { states, moments } => Some(Known::Pass { states, moments }),
        Outcome::Found { run, finding } => shown_by(rt, alloc, case.source, &run, &finding),
        Outcome::TooMany(bound) => Some(Known::TooMany(bound)),
    }
}

/// What a finding says, if the run by its schedule, as it is printed, is judged so by itself.
fn shown_by<T: Threads + Sync>(
    rt: &T,
    alloc: Global,
    source: Source,
    run: &Run,
    finding: &Finding<Cause, MarkFault>,
) -> Option<Known> {
    let schedule = run.recorded().schedule().write(alloc).ok()?;
    let known = match finding {
        Finding::NotWhole(causes) => return Some(Known::NotWhole(causes.len())),
        Finding::NoWayOut => return Some(Known::NoWayOut),
        Finding::Verdict(verdict) => failure_of(verdict)?,
        Finding::Refused(fault) => Known::Refused(*fault),
    };
    match judged_alone(rt, alloc, source, schedule.as_str())? {
        Ok(verdict) => failure_of(&verdict).filter(|other| *other == known),
        Err(JudgeFault::Marks(other)) => Some(Known::Refused(other)).filter(|other| *other
            == known),
        Err(_) => None,
    }
}

fn failure_of(verdict: &Verdict<Cause>) -> Option<Known> {
    match verdict {
        Verdict::Fail { moment, cause, .. } => Some(Known::Fail {
            moment: *moment,
            cause: *cause,
        }),
        _ => None,
    }
}

/// The sequential runs of a setup's program, as far as so many states at most tell.
fn sequential<T: Threads + Sync>(
    rt: &T,
    alloc: Global,
    setup: &Setup,
    program: &Program,
    most: u32,
) -> Option<Sequential>
    requires { setup.now.harts ≤ 8 }
    ensures { IfSome result (AreAllNoted (program_of setup.now program.now 1000)) }
{
    let recovery = Recovery {
        program,
        steps: STEPS,
    };
    sequential_runs(rt, alloc, setup, recovery, most).ok()
}

/// The verdict on one run of a program by a schedule, by its sequential runs. None where it has no such run.
fn judged_alone<T: Threads + Sync>(
    rt: &T,
    alloc: Global,
    source: Source,
    schedule: &str,
) -> Option<Result<Verdict<Cause>, JudgeFault>> {
    let setup = source.setup(alloc)?;
    if setup.harts > 8 {
        return None;
    }
    let program = recovery(alloc)?;
    let Sequential::All { runs, .. } = sequential(rt, alloc, &setup, &program, 1_000)? else {
        return None;
    };
    let run = run_of(alloc, &setup, schedule)?;
    let runs = ProgramRuns {
        program: &setup.program,
        harts: setup.harts,
        runs: &runs,
    };
    Some(verdict_by(rt, alloc, &run, &program, runs))
}

/// The verdict on a run by sequential runs of its program.
fn verdict_by<T: Threads + Sync>(
    rt: &T,
    alloc: Global,
    run: &Run,
    recovery: &Program,
    runs: ProgramRuns<'_>,
) -> Result<Verdict<Cause>, JudgeFault>
    requires { AreNotedFor run.now.setup.medium recovery.now 1000 (Atomic runs) }
{
    let judgement = Judgement {
        recovery,
        steps: STEPS,
        rule: Rule::Atomic(runs),
    };
    let work = Work {
        first: 0,
        last: None,
        workers: 1,
        goes_on: false,
    };
    judge_program(rt, alloc, run, judgement, work, &mut crash_test::Unwatched)
}

/// The run of a setup by the text of a schedule.
fn run_of(alloc: Global, setup: &Setup, schedule: &str) -> Option<Run>
    ensures { IfSome result (λ run. run.setup ≡ setup.now) }
{
    let schedule = Schedule::read(alloc, schedule.as_bytes()).ok()?;
    let copy = Setup {
        program: setup.program.copy(alloc).ok()?,
        medium: setup.medium.copy(alloc).ok()?,
        harts: setup.harts,
        capacity: setup.capacity,
    };
    record_run(alloc, copy, &schedule).ok()
}

/// How many sequential runs of two pushes are noted, if each of the words is, with its answer.
fn words_noted<T: Threads + Sync>(rt: &T, alloc: Global) -> Option<usize> {
    let source = Source {
        text: PUSH,
        harts: 2,
    };
    let setup = source.setup(alloc)?;
    if setup.harts > 8 {
        return None;
    }
    let program = recovery(alloc)?;
    let Sequential::All { runs, states } = sequential(rt, alloc, &setup, &program, 45)? else {
        return None;
    };
    let notes = runs.as_slice();
    if states == 45
        && WORDS
            .iter()
            .all(|(word, answer)| is_noted(notes, word, answer))
    {
        Some(notes.len())
    } else {
        None
    }
}

/// Whether a run of this word is noted, behind which recovery gives this answer.
fn is_noted(notes: &[SequentialRun], word: &[Operation], answer: &[u8]) -> bool {
    notes.iter().any(|note| match &note.found {
        Ok(found) => note.word.operations() == word && found.bytes() == answer,
        Err(_) => false,
    })
}

/// How many moments of the run of a program by a schedule pass, if all of them do.
fn passing_moments<T: Threads + Sync>(
    rt: &T,
    alloc: Global,
    source: Source,
    schedule: &str,
) -> Option<u64> {
    match judged_alone(rt, alloc, source, schedule)? {
        Ok(Verdict::Pass { moments, .. }) => Some(moments),
        _ => None,
    }
}

#[test]
fn schedules_are_judged_by_their_answers(rt: HostRuntime) {
    for case in &CASES {
        let found = found_in(&rt, rt.alloc(), case);
        assert!(rt; found == Some(case.known), "{found:?} {:?}", case.known);
    }
}

#[test]
fn two_pushes_have_five_sequential_runs(rt: HostRuntime) {
    let noted = words_noted(&rt, rt.alloc());
    assert!(rt; noted == Some(5), "{noted:?}");
}

/// The first of two pushes makes nine events. The second tries twice, and makes twelve. All moments behind the first Begin are judged.
#[test]
fn a_run_is_judged_by_sequential_runs(rt: HostRuntime) {
    let source = Source {
        text: PUSH,
        harts: 2,
    };
    let moments = passing_moments(&rt, rt.alloc(), source, "h0*9 h1*9 h0*14 h1*40");
    assert!(rt; moments == Some(21), "{moments:?}");
}
