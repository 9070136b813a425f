//! Appends that are checked. More of them stand in the transcripts of `transcripts`.

ghost use Rattle.std.specs.Prelude.{◌<◌, ◌≤◌, IfSome};

use crate::calls::starts::{END, ENTRY, FENCE, NO_TAIL, ONE_APPEND, STRAYS, TAIL, UNKNOWN, run_of};
use crash_test::{Unwatched, Work, check_program};
use image_check::{Cause, CheckFault, OpFault, Verdict};
use nova_log::VolumeFault;
use plan::Plan;
use std::alloc::Global;
use std::thread::Threads;
use text::ImageName;

/// A verdict that is wanted, the bad image by its name's text.
#[derive(Clone, Copy)]
enum Wanted {
    Pass {
        moments: u64,
        images: Option<u64>,
    },
    Fail {
        moment: u32,
        image: &'static str,
        cause: Cause,
    },
}

/// A source of several pieces and its schedule, and the verdict on it.
struct Checked {
    pieces: &'static [&'static str],
    schedule: &'static str,
    verdict: Result<Wanted, CheckFault>,
}

static CHECKED: [Checked; 4] = [
    Checked {
        pieces: &[ENTRY, FENCE, TAIL, FENCE, END],
        schedule: "h0*22",
        verdict: Ok(Wanted::Pass {
            moments: 11,
            images: Some(22),
        }),
    },
    // without its first fence
    Checked {
        pieces: &[ENTRY, TAIL, FENCE, END],
        schedule: "h0*21",
        verdict: Ok(Wanted::Fail {
            moment: 6,
            image: "4",
            cause: Cause::Fault(VolumeFault::Kind),
        }),
    },
    // the same, and then a tail without its entry
    Checked {
        pieces: &[STRAYS, NO_TAIL],
        schedule: "h0*73",
        verdict: Ok(Wanted::Fail {
            moment: 18,
            image: "l1:1",
            cause: Cause::Fault(VolumeFault::TailNotReached),
        }),
    },
    Checked {
        pieces: &[UNKNOWN],
        schedule: "h0*3",
        verdict: Err(CheckFault::Operation(OpFault::Unknown)),
    },
];

/// The verdict on a source over a new volume of 512 lines, by so many workers.
fn verdict_of<R: Threads + Sync + AllocGlobal>(
    rt: &R,
    checked: &Checked,
    workers: u32,
) -> Option<Result<Verdict<Cause>, CheckFault>>
    requires { (0 < workers) × (workers ≤ 8) }
{
    let alloc = rt.alloc();
    let plan = Plan::read(alloc, ONE_APPEND.as_bytes()).ok()?;
    let run = run_of(alloc, Some(ONE_APPEND), checked.pieces, checked.schedule)?.ok()?;
    let work = Work {
        first: 0,
        last: None,
        workers,
        goes_on: false,
    };
    Some(check_program(rt, alloc, &plan, &run, work, &mut Unwatched))
}

fn is_named_so(alloc: Global, image: &ImageName, text: &str) -> bool {
    match format!(in alloc; "{image}") {
        Ok(name) => name.as_str() == text,
        Err(_) => false,
    }
}

fn is_verdict(alloc: Global, verdict: &Verdict<Cause>, wanted: Wanted) -> bool {
    match (verdict, wanted) {
        (
            Verdict::Pass { moments, images },
            Wanted::Pass {
                moments: m,
                images: i,
            },
        ) => { *moments == m && *images == i }
        (
            Verdict::Fail {
                moment,
                image,
                cause,
                of_too_many: false,
            },
            Wanted::Fail {
                moment: m,
                image: i,
                cause: c,
            },
        ) => *moment == m && *cause == c && is_named_so(alloc, image, i),
        _ => false,
    }
}

fn is_checked_so<R: Threads + Sync + AllocGlobal>(rt: &R, checked: &Checked, workers: u32) -> bool
    requires { (0 < workers) × (workers ≤ 8) }
{
    match (verdict_of(rt, checked, workers), checked.verdict) {
        (Some(Ok(verdict)), Ok(wanted)) => is_verdict(rt.alloc(), &verdict, wanted),
        (Some(Err(fault)), Err(wanted)) => fault == wanted,
        _ => false,
    }
}

#[test]
fn runs_are_checked(rt: HostRuntime) {
    for checked in &CHECKED {
        for workers in 1..=8 {
            assert!(rt;
                is_checked_so(&rt, checked, workers),
                "{} {workers}",
                checked.schedule
            );
        }
    }
}

/// A source of several pieces and its schedule, moments of its run, from one to another or to the last, and the verdict on them.
struct Part {
    pieces: &'static [&'static str],
    schedule: &'static str,
    first: u32,
    last: Option<u32>,
    verdict: Result<Wanted, CheckFault>,
}

const APPEND: &[&str] = &[ENTRY, FENCE, TAIL, FENCE, END];

const NO_FIRST_FENCE: &[&str] = &[ENTRY, TAIL, FENCE, END];

/// Moments of an append, which has eleven, and of one without its first fence.
static PARTS: [Part; 4] = [
    Part {
        pieces: APPEND,
        schedule: "h0*22",
        first: 5,
        last: None,
        verdict: Ok(Wanted::Pass {
            moments: 6,
            images: Some(11),
        }),
    },
    Part {
        pieces: APPEND,
        schedule: "h0*22",
        first: 11,
        last: Some(99),
        verdict: Err(CheckFault::NoSuchMoment),
    },
    Part {
        pieces: NO_FIRST_FENCE,
        schedule: "h0*21",
        first: 7,
        last: Some(9),
        verdict: Ok(Wanted::Fail {
            moment: 7,
            image: "4",
            cause: Cause::Fault(VolumeFault::Kind),
        }),
    },
    // a wrong mark comes before a moment that isn't there
    Part {
        pieces: &[UNKNOWN],
        schedule: "h0*3",
        first: 99,
        last: None,
        verdict: Err(CheckFault::Operation(OpFault::Unknown)),
    },
];

fn verdict_on_part<R: Threads + Sync + AllocGlobal>(
    rt: &R,
    part: &Part,
    workers: u32,
) -> Option<Result<Verdict<Cause>, CheckFault>>
    requires { (0 < workers) × (workers ≤ 8) }
{
    let alloc = rt.alloc();
    let plan = Plan::read(alloc, ONE_APPEND.as_bytes()).ok()?;
    let run = run_of(alloc, Some(ONE_APPEND), part.pieces, part.schedule)?.ok()?;
    let work = Work {
        first: part.first,
        last: last_of(part),
        workers,
        goes_on: false,
    };
    Some(check_program(rt, alloc, &plan, &run, work, &mut Unwatched))
}

/// The last moment of a part that has one behind its first.
fn last_of(part: &Part) -> Option<u32>
    ensures { IfSome result (λ last. part.now.first ≤ last) }
{
    match part.last {
        Some(last) if part.first <= last => Some(last),
        _ => None,
    }
}

fn is_judged_so<R: Threads + Sync + AllocGlobal>(rt: &R, part: &Part, workers: u32) -> bool
    requires { (0 < workers) × (workers ≤ 8) }
{
    match (verdict_on_part(rt, part, workers), part.verdict) {
        (Some(Ok(verdict)), Ok(wanted)) => is_verdict(rt.alloc(), &verdict, wanted),
        (Some(Err(fault)), Err(wanted)) => fault == wanted,
        _ => false,
    }
}

#[test]
fn moments_are_checked_in_parts(rt: HostRuntime) {
    for (place, part) in PARTS.iter().enumerate() {
        for workers in 1..=8 {
            assert!(rt; is_judged_so(&rt, part, workers), "{place} {workers}");
        }
    }
}
