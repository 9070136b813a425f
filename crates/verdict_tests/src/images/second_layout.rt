//! Routines over a volume of the second layout: traces made by hand, and their verdicts.
//!
//! Plans, media and traces stay in functions that give back plain data, as in `verdicts`.

ghost use Rattle.crash_image.specs.View.{HasLines};

use crate::images::events::{Made, Parts, trace_of};
use crash_image::has_lines;
use image_check::{Cause, CheckFault, ImageName, Verdict, check_run};
use line_memory::Medium;
use nova_log::{VolumeFault, mkfs};
use plan::Plan;
use std::alloc::Global;
use std::process::Abort;
use std::test::Fail;
use std::thread::Threads;
use store_trace::Trace;

/// What is to be found of a run from a new volume.
#[derive(Clone, Copy)]
enum Claim {
    /// It passes, with so many moments and images.
    Passes(u64, u64),
    /// It passes.
    PassesSomehow,
    /// It fails at this moment, with the image of this number, for this cause.
    Fails(u32, u32, Cause),
    /// It fails for this cause.
    FailsFor(Cause),
}

const ONE_APPEND: &[u8] = b"layout 2\ninodes 1\npages 1\njournals 1\nop 1 append 0 77\n";

/// An append whose entry is cleaned and fenced, up to the inode's tail.
const ENTRY: &[Made] = &[
    Made::Begin(1),
    Made::Store(256, 0, 1),
    Made::Store(256, 8, 1),
    Made::Store(256, 16, 77),
    Made::Clean(256),
    Made::Fence,
];

/// A tail that moves by an entry of the first layout, and by one of the second.
const TAIL_BY_64: &[Made] = &[Made::Store(1, 8, 16_448)];

const TAIL_BY_128: &[Made] = &[Made::Store(1, 8, 16_512)];

const APPEND_END: &[Made] = &[Made::Clean(1), Made::Fence, Made::End(1)];

/// The rename of a name of 48 letters.
const LONG_RENAME: &[u8] =
    b"layout 2\ninodes 2\npages 2\njournals 1\nop 1 rename 0 1 aaaaaaaabbbbbbbbccccccccddddddddeeeeeeeeffffffff 9\n";

/// Both entries, each with its second line.
const LONG_ENTRIES: &[Made] = &[
    Made::Begin(1),
    Made::Store(256, 0, 0x3003),
    Made::Store(256, 8, 1),
    Made::Store(256, 16, 9),
    Made::Store(256, 24, 0x6161_6161_6161_6161),
    Made::Store(256, 32, 0x6262_6262_6262_6262),
    Made::Store(256, 40, 0x6363_6363_6363_6363),
    Made::Store(256, 48, 0x6464_6464_6464_6464),
    Made::Store(256, 56, 0x6565_6565_6565_6565),
    Made::Store(257, 0, 0x6666_6666_6666_6666),
    Made::Store(320, 0, 0x3002),
    Made::Store(320, 8, 1),
    Made::Store(320, 16, 9),
    Made::Store(320, 24, 0x6161_6161_6161_6161),
    Made::Store(320, 32, 0x6262_6262_6262_6262),
    Made::Store(320, 40, 0x6363_6363_6363_6363),
    Made::Store(320, 48, 0x6464_6464_6464_6464),
    Made::Store(320, 56, 0x6565_6565_6565_6565),
    Made::Store(321, 0, 0x6666_6666_6666_6666),
    Made::Clean(256),
    Made::Clean(320),
];

const SECOND_LINES: &[Made] = &[Made::Clean(257), Made::Clean(321)];

/// The journal's two records, then both tails, then the journal's end.
const LONG_COMMIT: &[Made] = &[
    Made::Fence,
    Made::Store(129, 0, 0),
    Made::Store(129, 8, 16_384),
    Made::Store(130, 0, 1),
    Made::Store(130, 8, 20_480),
    Made::Clean(129),
    Made::Clean(130),
    Made::Fence,
    Made::Store(128, 8, 2),
    Made::Clean(128),
    Made::Fence,
    Made::Store(1, 8, 16_512),
    Made::Store(2, 8, 20_608),
    Made::Clean(1),
    Made::Clean(2),
    Made::Fence,
    Made::Store(128, 0, 2),
    Made::Clean(128),
    Made::Fence,
    Made::End(1),
];

static RUNS: [(&[u8], Parts, Claim); 4] = [
    (
        ONE_APPEND,
        &[(0, ENTRY), (0, TAIL_BY_64), (0, APPEND_END)],
        Claim::Fails(7, 1, Cause::Fault(VolumeFault::TailNotReached)),
    ),
    (
        ONE_APPEND,
        &[(0, ENTRY), (0, TAIL_BY_128), (0, APPEND_END)],
        Claim::Passes(11, 22),
    ),
    (
        LONG_RENAME,
        &[(0, LONG_ENTRIES), (0, LONG_COMMIT)],
        Claim::FailsFor(Cause::Illegal),
    ),
    (
        LONG_RENAME,
        &[(0, LONG_ENTRIES), (0, SECOND_LINES), (0, LONG_COMMIT)],
        Claim::PassesSomehow,
    ),
];

/// Whether a claim holds of the run with these events, from a new volume of the plan's own counts on 512 lines.
fn holds(
    rt: &(impl AllocGlobal + Abort + Threads + Sync),
    text: &[u8],
    events: Parts,
    claim: Claim,
) -> Result<bool, Fail> {
    let plan = Plan::read(rt.alloc(), text)?;
    let medium = fresh(rt.alloc(), &plan)?;
    let trace = trace_of(rt, events)?;
    Ok(holds_of(rt, rt.alloc(), &plan, &medium, &trace, claim))
}

fn holds_of<R: Threads + Sync>(
    rt: &R,
    alloc: Global,
    plan: &Plan,
    medium: &Medium,
    trace: &Trace,
    claim: Claim,
) -> bool {
    if !has_lines(medium, trace) {
        return false;
    }
    is_so(judge(rt, alloc, plan, medium, trace), claim)
}

fn fresh(alloc: Global, plan: &Plan) -> Result<Medium, VolumeFault> {
    mkfs(
        alloc,
        plan.layout(),
        plan.inodes(),
        plan.pages(),
        plan.journals(),
        512,
    )
}

/// The verdict on a run, asked for again where memory was refused.
fn judge<R: Threads + Sync>(
    rt: &R,
    alloc: Global,
    plan: &Plan,
    medium: &Medium,
    trace: &Trace,
) -> Result<Verdict<Cause>, CheckFault>
    requires { HasLines medium.now trace.now.events }
{
    match check_run(rt, alloc, plan, medium, trace) {
        Err(CheckFault::Memory) => check_run(rt, alloc, plan, medium, trace),
        verdict => verdict,
    }
}

fn is_so(judged: Result<Verdict<Cause>, CheckFault>, claim: Claim) -> bool {
    match judged {
        Ok(Verdict::Pass { moments, images }) => is_pass(moments, images, claim),
        Ok(
            Verdict::Fail {
                moment,
                image,
                cause,
                of_too_many: false,
            },
        ) => is_failure(moment, &image, cause, claim),
        _ => false,
    }
}

fn is_pass(moments: u64, images: Option<u64>, claim: Claim) -> bool {
    match claim {
        Claim::Passes(all, sum) => moments == all && images == Some(sum),
        Claim::PassesSomehow => true,
        _ => false,
    }
}

fn is_failure(moment: u32, image: &ImageName, cause: Cause, claim: Claim) -> bool {
    match claim {
        Claim::Fails(least, number, why) => {
            moment == least && is_number(image, number) && cause == why
        }
        Claim::FailsFor(why) => cause == why,
        _ => false,
    }
}

fn is_number(image: &ImageName, number: u32) -> bool {
    match image {
        ImageName::Number(found) => *found == number,
        ImageName::Cut(_) => false,
    }
}

/// The place of the first run of which the claim doesn't hold.
fn first_wrong(rt: &(impl AllocGlobal + Abort + Threads + Sync)) -> Result<Option<usize>, Fail> {
    for (place, (text, events, claim)) in RUNS.iter().enumerate() {
        if !holds(rt, *text, *events, *claim)? {
            return Ok(Some(place));
        }
    }
    Ok(None)
}

#[test]
fn routines_over_the_second_layout(rt: HostRuntime) -> Result<(), Fail> {
    assert_eq!(rt; first_wrong(&rt)?, None);
    Ok(())
}
