//! Runs that are judged, and what is said of them.

ghost use Rattle.program.specs.Sections.{Sections};
ghost use Rattle.routine_judge.specs.Rules.{AreNotedFor};
ghost use Rattle.std.specs.Prelude.{◌<◌, ◌≤◌, ℕ, List, IfSome};

use crate::judging::sources::{READ, REPLACED};
use crash_test::{
    Judgement, Unwatched, Work, default_medium, judge_program, load_program, record_run,
};
use line_memory::Medium;
use machine::{Schedule, Setup};
use program::Program;
use routine_judge::{Cause, ImageName, JudgeFault, Rule, Verdict};
use std::alloc::Global;
use std::thread::Threads;
use verdict::{LineContents, OpenMoments};

/// A verdict that is wanted, the bad image by its name's text.
#[derive(Clone, Copy)]
pub(crate) enum Wanted {
    Pass {
        moments: u64,
        images: Option<u64>,
    },
    Fail {
        moment: u32,
        image: &'static str,
        cause: Cause,
    },
    TooMany {
        moment: u32,
        lines: &'static [LineContents],
    },
    Open {
        moments: u64,
        images: Option<u64>,
        open: OpenMoments,
    },
}

/// A source and a recovery routine, both of several pieces, how the source is run and how its moments are judged, from one to another
/// or to the last one, and whether judging goes on behind those with too many branches; and the verdict.
#[derive(Clone, Copy)]
pub(crate) struct Case {
    pub(crate) source: &'static [&'static str],
    pub(crate) schedule: &'static str,
    pub(crate) harts: u32,
    pub(crate) recovery: &'static [&'static str],
    pub(crate) steps: u32,
    pub(crate) overlapping: bool,
    pub(crate) first: u32,
    pub(crate) last: Option<u32>,
    pub(crate) goes_on: bool,
    pub(crate) verdict: Result<Wanted, JudgeFault>,
}

/// All moments of the record that is replaced.
pub(crate) const CASE: Case = Case {
    source: REPLACED,
    schedule: "h0*27",
    harts: 1,
    recovery: READ,
    steps: 1_000_000,
    overlapping: false,
    first: 0,
    last: None,
    goes_on: false,
    verdict: Ok(Wanted::Pass {
        moments: 9,
        images: Some(16),
    }),
};

/// The program of a source.
pub(crate) fn program_of(alloc: Global, pieces: &[&str]) -> Option<Program> {
    let mut source = Vec::new(alloc);
    for piece in pieces {
        source.extend_from_slice(piece.as_bytes()).ok()?;
    }
    load_program(alloc, &source).ok()
}

/// The verdict of so many workers. None where there is no such program or schedule.
pub(crate) fn verdict_of<R: Threads + Sync + AllocGlobal>(
    rt: &R,
    case: &Case,
    workers: u32,
) -> Option<Result<Verdict<Cause>, JudgeFault>>
    requires { (0 < workers) × (workers ≤ 8) }
{
    let recovery = program_of(rt.alloc(), case.recovery)?;
    verdict_by(rt, case, &recovery, workers)
}

fn verdict_by<R: Threads + Sync + AllocGlobal>(
    rt: &R,
    case: &Case,
    recovery: &Program,
    workers: u32,
) -> Option<Result<Verdict<Cause>, JudgeFault>>
    requires { (0 < workers) × (workers ≤ 8) }
{
    let medium = default_medium(rt.alloc()).ok()?;
    verdict_over(rt, case, recovery, medium, workers)
}

/// How the answers of a run whose operations may overlap or not are judged.
fn rule(overlapping: bool) -> Rule<'static>
    ensures { (medium : List (List ℕ)) (routine : Sections) (steps : ℕ) → AreNotedFor medium routine steps result }
{
    if overlapping {
        Rule::Overlapping
    } else {
        Rule::InTurn
    }
}

fn verdict_over<R: Threads + Sync + AllocGlobal>(
    rt: &R,
    case: &Case,
    recovery: &Program,
    medium: Medium,
    workers: u32,
) -> Option<Result<Verdict<Cause>, JudgeFault>>
    requires { (0 < workers) × (workers ≤ 8) }
{
    let alloc = rt.alloc();
    let schedule = Schedule::read(alloc, case.schedule.as_bytes()).ok()?;
    let program = program_of(alloc, case.source)?;
    let judgement = Judgement {
        recovery,
        steps: case.steps,
        rule: rule(case.overlapping),
    };
    let setup = Setup::with_room(program, medium, case.harts);
    let run = record_run(alloc, setup, &schedule).ok()?;
    let work = Work {
        first: case.first,
        last: case.last.filter(|last| case.first <= *last),
        workers,
        goes_on: case.goes_on,
    };
    Some(judge_program(rt, alloc, &run, judgement, work, &mut Unwatched))
}

fn is_named_so(alloc: Global, image: &ImageName, text: &str) -> bool {
    match format!(in alloc; "{image}") {
        Ok(name) => name.as_str() == text,
        Err(_) => false,
    }
}

fn is_verdict(alloc: Global, verdict: &Verdict<Cause>, wanted: Wanted) -> bool {
    match (verdict, wanted) {
        (
            Verdict::Pass { moments, images },
            Wanted::Pass {
                moments: m,
                images: i,
            },
        ) => { *moments == m && *images == i }
        (
            Verdict::Fail {
                moment,
                image,
                cause,
                of_too_many: false,
            },
            Wanted::Fail {
                moment: m,
                image: i,
                cause: c,
            },
        ) => *moment == m && *cause == c && is_named_so(alloc, image, i),
        (
            Verdict::TooMany {
                moment,
                lines: Some(widest),
            },
            Wanted::TooMany { moment: m, lines },
        ) => *moment == m && widest.lines() == lines,
        (
            Verdict::Open {
                moments,
                images,
                open,
            },
            Wanted::Open {
                moments: m,
                images: i,
                open: o,
            },
        ) => *moments == m && *images == i && *open == o,
        _ => false,
    }
}

fn is_judged_so<R: Threads + Sync + AllocGlobal>(rt: &R, case: &Case, workers: u32) -> bool
    requires { (0 < workers) × (workers ≤ 8) }
{
    match (verdict_of(rt, case, workers), case.verdict) {
        (Some(Ok(verdict)), Ok(wanted)) => is_verdict(rt.alloc(), &verdict, wanted),
        (Some(Err(fault)), Err(wanted)) => fault == wanted,
        _ => false,
    }
}

/// The first case whose verdict is another one.
fn differing<R: Threads + Sync + AllocGlobal>(rt: &R, cases: &[Case], workers: u32) -> Option<usize>
    requires { (0 < workers) × (workers ≤ 8) }
{
    for (place, case) in cases.iter().enumerate() {
        if !is_judged_so(rt, case, workers) {
            return Some(place);
        }
    }
    None
}

/// The first case whose verdict is another one, for one worker, for two and for eight.
pub(crate) fn differing_for_any<R: Threads + Sync + AllocGlobal>(
    rt: &R,
    cases: &[Case],
) -> [Option<usize>; 3] {
    [
        differing(rt, cases, 1),
        differing(rt, cases, 2),
        differing(rt, cases, 8),
    ]
}
