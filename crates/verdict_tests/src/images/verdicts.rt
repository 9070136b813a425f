//! Traces made by hand, event by event as small routines make them, and their verdicts.
//!
//! Plans, media and traces stay in functions that give back plain data: a test that holds one proves at each of its exits that it
//! is let go whole.

ghost use Rattle.crash_image.specs.View.{HasLines};

use crate::images::events::{Made, Parts, trace_of};
use crate::images::plain_check::{MomentByImages, RunByImages, check_run_by_images};
use crash_image::{Cuts, has_lines};
use image_check::{
    Cause, CheckFault, ImageName, MomentVerdict, OpFault, Verdict, check_moment, check_run,
    check_trace,
};
use line_memory::Medium;
use nova_log::{Layout, VolumeFault, mkfs};
use plan::Plan;
use std::alloc::{AllocError, Global};
use std::process::Abort;
use std::test::Fail;
use std::thread::Threads;
use store_trace::Trace;

/// What is to be found of a run.
#[derive(Clone, Copy)]
enum Claim {
    /// Its verdict, which the plain check gives too.
    Verdict(RunByImages),
    /// It passes with so many moments, and this one has too many images to be counted.
    PassOver(u64, u32),
    /// It fails at this moment, whose least bad image is named by these lines, for this cause; the moment given last has too many images to
    /// be counted.
    FailOver(u32, &'static [(u32, u32)], Cause, u32),
    /// The number of images of a moment, None where they aren't counted, and the moment's verdict.
    Moment(u32, Option<u32>, Result<MomentByImages, CheckFault>),
    /// Its marks are right.
    RightMarks,
    /// Its marks have this fault, which also refuses a verdict.
    WrongMarks(OpFault),
}

/// Runs by a plan, each with a claim, from a new volume of so many inodes; from zeros where that is 0.
struct Family {
    name: &'static str,
    plan: &'static [u8],
    inodes: u32,
    runs: &'static [(Parts, Claim)],
}

impl Family {
    /// The place of the first run of which the claim doesn't hold.
    fn first_wrong(
        &self,
        rt: &(impl AllocGlobal + Abort + Threads + Sync),
    ) -> Result<Option<usize>, Fail> {
        for (place, (events, claim)) in self.runs.iter().enumerate() {
            if !self.holds(rt, events, *claim)? {
                return Ok(Some(place));
            }
        }
        Ok(None)
    }

    fn holds(
        &self,
        rt: &(impl AllocGlobal + Abort + Threads + Sync),
        events: Parts,
        claim: Claim,
    ) -> Result<bool, Fail> {
        let plan = Plan::read(rt.alloc(), self.plan)?;
        let medium = start_of(rt.alloc(), self.inodes)?;
        let trace = trace_of(rt, events)?;
        Ok(holds_of(rt, rt.alloc(), &plan, &medium, &trace, claim))
    }
}

/// A new volume of so many inodes and pages; zeros where that is 0.
fn start_of(alloc: Global, inodes: u32) -> Result<Medium, VolumeFault> {
    if inodes == 0 {
        return Medium::zero(alloc, 512).map_err(|_| VolumeFault::Memory);
    }
    mkfs(alloc, Layout::One, inodes, inodes, 1, lines_for(inodes))
}

/// The lines of a medium with so many pages, and at least 512.
fn lines_for(pages: u32) -> u32 {
    if pages > 4 && pages < 64 {
        256 + 64 * pages
    } else {
        512
    }
}

fn holds_of<R: Threads + Sync>(
    rt: &R,
    alloc: Global,
    plan: &Plan,
    medium: &Medium,
    trace: &Trace,
    claim: Claim,
) -> bool {
    if !has_lines(medium, trace) {
        return false;
    }
    match claim {
        Claim::Verdict(verdict) => are_both(rt, alloc, plan, medium, trace, Ok(verdict)),
        Claim::PassOver(moments, over) => {
            passes_over(rt, alloc, plan, medium, trace, moments)
                && count_of(alloc, medium, trace, over).is_none()
        }
        Claim::FailOver(moment, lines, cause, over) => {
            fails_over(rt, alloc, plan, medium, trace, moment, lines, cause)
                && count_of(alloc, medium, trace, over).is_none()
        }
        Claim::Moment(moment, count, verdict) => {
            count_of(alloc, medium, trace, moment) == count
                && plain_moment(check_moment(rt, alloc, plan, medium, trace, moment))
                    == Some(verdict)
        }
        Claim::RightMarks => check_trace(plan, trace) == Ok(()),
        Claim::WrongMarks(fault) => {
            check_trace(plan, trace) == Err(fault)
                && are_both(
                    rt,
                    alloc,
                    plan,
                    medium,
                    trace,
                    Err(CheckFault::Operation(fault)),
                )
        }
    }
}

/// Whether this is what the check by branches says, and the plain one.
fn are_both<R: Threads + Sync>(
    rt: &R,
    alloc: Global,
    plan: &Plan,
    medium: &Medium,
    trace: &Trace,
    expected: Result<RunByImages, CheckFault>,
) -> bool
    requires { HasLines medium.now trace.now.events }
{
    plain_verdict(judge(rt, alloc, plan, medium, trace)) == Some(expected)
        && is_plain(alloc, plan, medium, trace, expected)
}

/// Whether this is what the plain check says.
fn is_plain(
    alloc: Global,
    plan: &Plan,
    medium: &Medium,
    trace: &Trace,
    expected: Result<RunByImages, CheckFault>,
) -> bool
    requires { HasLines medium.now trace.now.events }
{
    check_run_by_images(alloc, plan, medium, trace) == expected
}

/// A verdict as the plain check tells it. None where it has a moment with over 65,536 images.
fn plain_verdict(
    judged: Result<Verdict<Cause>, CheckFault>,
) -> Option<Result<RunByImages, CheckFault>> {
    match judged {
        Ok(Verdict::Pass { moments, images }) => Some(Ok(RunByImages::Pass {
            moments,
            images: images?,
        })),
        Ok(
            Verdict::Fail {
                moment,
                image: ImageName::Number(image),
                cause,
                of_too_many: false,
            },
        ) => Some(Ok(RunByImages::Fail {
            moment,
            image,
            cause,
        })),
        Ok(Verdict::Fail { .. }) => None,
        Ok(
            Verdict::TooMany {
                moment,
                lines: None,
            },
        ) => Some(Ok(RunByImages::TooMany { moment })),
        Ok(Verdict::Open { .. } | Verdict::TooMany { .. } | Verdict::TooLong { .. }) => None,
        Err(fault) => Some(Err(fault)),
    }
}

/// A verdict on a moment as the plain check tells it. None where its image is named by lines.
fn plain_moment(
    judged: Result<MomentVerdict<Cause>, CheckFault>,
) -> Option<Result<MomentByImages, CheckFault>> {
    match judged {
        Ok(MomentVerdict::Pass) => Some(Ok(MomentByImages::Pass)),
        Ok(
            MomentVerdict::Fail {
                image: ImageName::Number(image),
                cause,
                of_too_many: false,
            },
        ) => Some(Ok(MomentByImages::Fail { image, cause })),
        Ok(MomentVerdict::Fail { .. }) => None,
        Ok(MomentVerdict::TooMany { lines: None }) => Some(Ok(MomentByImages::TooMany)),
        Ok(MomentVerdict::TooMany { .. } | MomentVerdict::TooLong) => None,
        Err(fault) => Some(Err(fault)),
    }
}

/// Whether the run passes with so many moments, of which one has over 65,536 images.
fn passes_over<R: Threads + Sync>(
    rt: &R,
    alloc: Global,
    plan: &Plan,
    medium: &Medium,
    trace: &Trace,
    expected: u64,
) -> bool
    requires { HasLines medium.now trace.now.events }
{
    match judge(rt, alloc, plan, medium, trace) {
        Ok(
            Verdict::Pass {
                moments,
                images: None,
            },
        ) => moments == expected,
        _ => false,
    }
}

/// Whether the run fails at this moment, by an image that these lines name, for this cause.
fn fails_over<R: Threads + Sync>(
    rt: &R,
    alloc: Global,
    plan: &Plan,
    medium: &Medium,
    trace: &Trace,
    expected: u32,
    lines: &[(u32, u32)],
    code: Cause,
) -> bool
    requires { HasLines medium.now trace.now.events }
{
    match judge(rt, alloc, plan, medium, trace) {
        Ok(verdict) => is_failure(&verdict, expected, lines, code),
        Err(_) => false,
    }
}

/// Whether the verdict is a failure of this moment, by an image that these lines name, for this cause.
fn is_failure(verdict: &Verdict<Cause>, expected: u32, lines: &[(u32, u32)], code: Cause) -> bool {
    match verdict {
        Verdict::Fail {
            moment,
            image,
            cause,
            of_too_many: false,
        } => *moment == expected && *cause == code && is_named(image, lines),
        _ => false,
    }
}

/// Whether the image is named by these lines.
fn is_named(image: &ImageName, lines: &[(u32, u32)]) -> bool {
    match image {
        ImageName::Cut(cut) => cut.entries() == lines,
        ImageName::Number(_) => false,
    }
}

/// The verdict on a run, asked for again where memory was refused.
fn judge<R: Threads + Sync>(
    rt: &R,
    alloc: Global,
    plan: &Plan,
    medium: &Medium,
    trace: &Trace,
) -> Result<Verdict<Cause>, CheckFault>
    requires { HasLines medium.now trace.now.events }
{
    match check_run(rt, alloc, plan, medium, trace) {
        Err(CheckFault::Memory) => check_run(rt, alloc, plan, medium, trace),
        verdict => verdict,
    }
}

/// The number of images of a moment, None where they aren't counted.
fn count_of(alloc: Global, medium: &Medium, trace: &Trace, moment: u32) -> Option<u32>
    requires { HasLines medium.now trace.now.events }
{
    match Cuts::at(alloc, medium, trace, moment) {
        Ok(cuts) => cuts.count(),
        Err(_) => None,
    }
}

const ONE_APPEND: &[u8] = b"inodes 1\npages 1\njournals 1\nop 1 append 0 77\n";

/// The entry of an append, not yet fenced.
const ENTRY: &[Made] = &[
    Made::Begin(1),
    Made::Store(256, 0, 1),
    Made::Store(256, 8, 1),
    Made::Store(256, 16, 77),
    Made::Clean(256),
];

/// The inode's tail, not yet fenced.
const TAIL: &[Made] = &[Made::Store(1, 8, 16_448), Made::Clean(1)];

const FENCE: &[Made] = &[Made::Fence];

const END: &[Made] = &[Made::End(1)];

/// The append of an entry: its line is cleaned and fenced, and then the inode's tail is.
const APPEND: Parts = &[(0, ENTRY), (0, FENCE), (0, TAIL), (0, FENCE), (0, END)];

/// The entries of a rename, durable and not yet in a log.
const RENAME_ENTRIES: &[Made] = &[
    Made::Begin(1),
    Made::Store(256, 0, 0x103),
    Made::Store(256, 8, 1),
    Made::Store(256, 16, 9),
    Made::Store(256, 24, 0x61),
    Made::Store(320, 0, 0x102),
    Made::Store(320, 8, 1),
    Made::Store(320, 16, 9),
    Made::Store(320, 24, 0x61),
    Made::Clean(256),
    Made::Clean(320),
    Made::Fence,
];

/// The journal's two records, then both tails, then the journal's end.
const RENAME_COMMIT: &[Made] = &[
    Made::Store(129, 0, 0),
    Made::Store(129, 8, 16_384),
    Made::Store(130, 0, 1),
    Made::Store(130, 8, 20_480),
    Made::Clean(129),
    Made::Clean(130),
    Made::Fence,
    Made::Store(128, 8, 2),
    Made::Clean(128),
    Made::Fence,
    Made::Store(1, 8, 16_448),
    Made::Store(2, 8, 20_544),
    Made::Clean(1),
    Made::Clean(2),
    Made::Fence,
    Made::Store(128, 0, 2),
    Made::Clean(128),
    Made::Fence,
    Made::End(1),
];

/// The append of a value by the second of two operations, on the second inode.
const SECOND_APPEND: &[Made] = &[
    Made::Begin(2),
    Made::Store(320, 0, 1),
    Made::Store(320, 8, 2),
    Made::Store(320, 16, 71),
    Made::Clean(320),
    Made::Fence,
    Made::Store(2, 8, 20_544),
    Made::Clean(2),
    Made::Fence,
    Made::End(2),
];

const FIRST_APPEND: &[Made] = &[
    Made::Begin(1),
    Made::Store(256, 0, 1),
    Made::Store(256, 8, 1),
    Made::Store(256, 16, 70),
    Made::Clean(256),
    Made::Fence,
    Made::Store(1, 8, 16_448),
    Made::Clean(1),
    Made::Fence,
    Made::End(1),
];

/// Stores in seventeen lines.
const SEVENTEEN: &[Made] = &[
    Made::Store(300, 0, 1),
    Made::Store(301, 0, 1),
    Made::Store(302, 0, 1),
    Made::Store(303, 0, 1),
    Made::Store(304, 0, 1),
    Made::Store(305, 0, 1),
    Made::Store(306, 0, 1),
    Made::Store(307, 0, 1),
    Made::Store(308, 0, 1),
    Made::Store(309, 0, 1),
    Made::Store(310, 0, 1),
    Made::Store(311, 0, 1),
    Made::Store(312, 0, 1),
    Made::Store(313, 0, 1),
    Made::Store(314, 0, 1),
    Made::Store(315, 0, 1),
    Made::Store(316, 0, 1),
];

/// A tail that the log doesn't reach.
const NO_TAIL: &[Made] = &[Made::Store(1, 8, 0)];

/// A store to a line that recovery doesn't read.
const UNREAD: &[Made] = &[Made::Store(300, 0, 1)];

/// The tails of sixteen inodes of a new volume, as they stand, and that of the seventeenth.
const SIXTEEN_TAILS: &[Made] = &[
    Made::Store(1, 8, 16_384),
    Made::Store(2, 8, 20_480),
    Made::Store(3, 8, 24_576),
    Made::Store(4, 8, 28_672),
    Made::Store(5, 8, 32_768),
    Made::Store(6, 8, 36_864),
    Made::Store(7, 8, 40_960),
    Made::Store(8, 8, 45_056),
    Made::Store(9, 8, 49_152),
    Made::Store(10, 8, 53_248),
    Made::Store(11, 8, 57_344),
    Made::Store(12, 8, 61_440),
    Made::Store(13, 8, 65_536),
    Made::Store(14, 8, 69_632),
    Made::Store(15, 8, 73_728),
    Made::Store(16, 8, 77_824),
];

const LAST_TAIL: &[Made] = &[Made::Store(17, 8, 81_920)];

const NO_OPERATIONS: &[u8] = b"inodes 1\npages 1\njournals 1\n";

const PASS: Result<MomentByImages, CheckFault> = Ok(MomentByImages::Pass);

static FAMILIES: [Family; 8] = [
    Family {
        name: "an append, also without the fence of its entry or of its tail",
        plan: ONE_APPEND,
        inodes: 1,
        runs: &[
            (
                APPEND,
                Claim::Verdict(RunByImages::Pass {
                    moments: 11,
                    images: 22,
                }),
            ),
            (
                &[(0, ENTRY), (0, TAIL), (0, FENCE), (0, END)],
                Claim::Verdict(RunByImages::Fail {
                    moment: 6,
                    image: 4,
                    cause: Cause::Fault(VolumeFault::Kind),
                }),
            ),
            (
                &[(0, ENTRY), (0, FENCE), (0, TAIL), (0, END)],
                Claim::Verdict(RunByImages::Fail {
                    moment: 9,
                    image: 0,
                    cause: Cause::Illegal,
                }),
            ),
            (
                &[
                    (0, ENTRY),
                    (0, FENCE),
                    (0, TAIL),
                    (0, FENCE),
                    (0, END),
                    (0, &[Made::Store(256, 0, 9)]),
                ],
                Claim::Verdict(RunByImages::Fail {
                    moment: 11,
                    image: 1,
                    cause: Cause::Fault(VolumeFault::Kind),
                }),
            ),
            (APPEND, Claim::Moment(0, Some(1), PASS)),
            (APPEND, Claim::Moment(1, Some(1), PASS)),
            (APPEND, Claim::Moment(2, Some(2), PASS)),
            (APPEND, Claim::Moment(3, Some(3), PASS)),
            (APPEND, Claim::Moment(4, Some(4), PASS)),
            (APPEND, Claim::Moment(5, Some(4), PASS)),
            (APPEND, Claim::Moment(6, Some(1), PASS)),
            (APPEND, Claim::Moment(7, Some(2), PASS)),
            (APPEND, Claim::Moment(8, Some(2), PASS)),
            (APPEND, Claim::Moment(9, Some(1), PASS)),
            (APPEND, Claim::Moment(10, Some(1), PASS)),
            (
                APPEND,
                Claim::Moment(11, None, Err(CheckFault::NoSuchMoment)),
            ),
        ],
    },
    Family {
        name: "two appends",
        plan: b"inodes 2\npages 2\njournals 1\nop 1 append 0 70\nop 2 append 1 71\n",
        inodes: 2,
        runs: &[(
            &[(0, FIRST_APPEND), (1, SECOND_APPEND)],
            Claim::Verdict(RunByImages::Pass {
                moments: 21,
                images: 43,
            }),
        )],
    },
    Family {
        name: "a rename with its journal, and without one its first tail alone",
        plan: b"inodes 2\npages 2\njournals 1\nop 1 rename 0 1 a 9\n",
        inodes: 2,
        runs: &[
            (
                &[(0, RENAME_ENTRIES), (0, RENAME_COMMIT)],
                Claim::Verdict(RunByImages::Pass {
                    moments: 32,
                    images: 202,
                }),
            ),
            (
                &[(0, RENAME_ENTRIES), (0, &[Made::Store(1, 8, 16_448)])],
                Claim::Verdict(RunByImages::Fail {
                    moment: 13,
                    image: 1,
                    cause: Cause::Illegal,
                }),
            ),
        ],
    },
    Family {
        name: "seventeen lines that recovery doesn't read, and a tail that the log doesn't reach",
        plan: NO_OPERATIONS,
        inodes: 1,
        runs: &[
            (&[(0, SEVENTEEN)], Claim::Moment(17, None, PASS)),
            (&[(0, SEVENTEEN)], Claim::PassOver(18, 17)),
            (
                &[(0, SEVENTEEN), (0, NO_TAIL)],
                Claim::FailOver(18, &[(1, 1)], Cause::Fault(VolumeFault::TailNotReached), 17),
            ),
        ],
    },
    Family {
        name: "a moment behind one that is left out, of which recovery doesn't read the store",
        plan: NO_OPERATIONS,
        inodes: 1,
        runs: &[
            (
                &[(0, UNREAD)],
                Claim::Verdict(RunByImages::Pass {
                    moments: 2,
                    images: 3,
                }),
            ),
            (
                &[(0, UNREAD), (0, TAIL)],
                Claim::Verdict(RunByImages::Fail {
                    moment: 2,
                    image: 2,
                    cause: Cause::Fault(VolumeFault::Kind),
                }),
            ),
        ],
    },
    Family {
        name: "zeros, which are no volume",
        plan: ONE_APPEND,
        inodes: 0,
        runs: &[(
            &[],
            Claim::Verdict(RunByImages::Fail {
                moment: 0,
                image: 0,
                cause: Cause::Fault(VolumeFault::Magic),
            }),
        )],
    },
    Family {
        name: "an operation on an inode that the volume lacks, under way and ended",
        plan: b"inodes 2\npages 2\njournals 1\nop 1 append 1 5\n",
        inodes: 1,
        runs: &[
            (
                &[(0, &[Made::Begin(1)])],
                Claim::Verdict(RunByImages::Pass {
                    moments: 2,
                    images: 2,
                }),
            ),
            (
                &[(0, &[Made::Begin(1), Made::End(1)])],
                Claim::Verdict(RunByImages::Fail {
                    moment: 2,
                    image: 0,
                    cause: Cause::Illegal,
                }),
            ),
        ],
    },
    Family {
        name: "marks of two operations on one inode",
        plan: b"inodes 2\npages 2\njournals 1\nop 7 append 0 1\nop 8 rename 1 0 a 2\n",
        inodes: 2,
        runs: MARKS,
    },
];

/// Branches up to the limit and over it.
static MANY_BRANCHES: [Family; 1] = [Family {
    name: "tails stored as they stand, which recovery reads",
    plan: b"inodes 17\npages 17\njournals 1\n",
    inodes: 17,
    runs: &[
        (&[(0, SIXTEEN_TAILS)], Claim::Moment(16, Some(65_536), PASS)),
        (
            &[(0, SIXTEEN_TAILS), (0, LAST_TAIL)],
            Claim::Moment(17, None, Ok(MomentByImages::TooMany)),
        ),
    ],
}];

/// Marks of operations 7 and 8, and of one that isn't in the plan.
const MARKS: &[(Parts, Claim)] = &[
    (
        &[(0, &[Made::Fence, Made::Fence, Made::Begin(9)])],
        Claim::WrongMarks(OpFault::Unknown),
    ),
    (
        &[(0, &[Made::Begin(7), Made::End(9), Made::Fence])],
        Claim::WrongMarks(OpFault::Unknown),
    ),
    (
        &[(0, &[Made::Begin(7), Made::End(7), Made::Begin(7)])],
        Claim::WrongMarks(OpFault::BegunTwice),
    ),
    (
        &[(0, &[Made::Begin(7), Made::Begin(7), Made::Begin(9)])],
        Claim::WrongMarks(OpFault::BegunTwice),
    ),
    (
        &[(0, &[Made::Begin(7), Made::End(8), Made::Begin(7)])],
        Claim::WrongMarks(OpFault::NotPending),
    ),
    (
        &[(0, &[Made::Begin(7), Made::End(7), Made::End(7)])],
        Claim::WrongMarks(OpFault::NotPending),
    ),
    (
        &[(0, &[Made::Fence, Made::Begin(7), Made::Begin(8)])],
        Claim::WrongMarks(OpFault::SharesInode),
    ),
    (
        &[(0, &[Made::Begin(7)]), (1, &[Made::End(7)])],
        Claim::WrongMarks(OpFault::NotPending),
    ),
    (
        &[(
            0,
            &[Made::Begin(7), Made::End(7), Made::Begin(8), Made::End(8)],
        )],
        Claim::RightMarks,
    ),
];

/// The first family of which a claim doesn't hold, by its name, and the place of the claim.
fn first_wrong(
    rt: &(impl AllocGlobal + Abort + Threads + Sync),
    families: &[Family],
) -> Result<Option<(&'static str, usize)>, Fail> {
    for family in families {
        if let Some(place) = family.first_wrong(rt)? {
            return Ok(Some((family.name, place)));
        }
    }
    Ok(None)
}

#[test]
fn verdicts(rt: HostRuntime) -> Result<(), Fail> {
    assert_eq!(rt; first_wrong(&rt, &FAMILIES)?, None);
    Ok(())
}

#[test]
fn verdicts_on_many_branches(rt: HostRuntime) -> Result<(), Fail> {
    assert_eq!(rt; first_wrong(&rt, &MANY_BRANCHES)?, None);
    Ok(())
}

/// Why an image is bad, and the codes that stand for it.
static CAUSE_CODES: [(Cause, &str); 3] = [
    (Cause::Illegal, "illegal"),
    (Cause::Fault(VolumeFault::TailNotReached), "N6"),
    (Cause::Fault(VolumeFault::Kind), "N8"),
];

/// Why there is no verdict, and the codes that stand for it.
static FAULT_CODES: [(CheckFault, &str); 6] = [
    (CheckFault::Operation(OpFault::Unknown), "O1"),
    (CheckFault::Operation(OpFault::BegunTwice), "O2"),
    (CheckFault::Operation(OpFault::NotPending), "O3"),
    (CheckFault::Operation(OpFault::SharesInode), "O4"),
    (CheckFault::NoSuchMoment, "C1"),
    (CheckFault::Memory, "C3"),
];

fn cause_text(alloc: Global, cause: Cause) -> Result<String, AllocError> {
    format!(in alloc; "{cause}")
}

fn fault_text(alloc: Global, fault: CheckFault) -> Result<String, AllocError> {
    format!(in alloc; "{fault}")
}

fn is_text(made: Result<String, AllocError>, code: &str) -> bool {
    match made {
        Ok(text) => text.as_str() == code,
        Err(_) => false,
    }
}

#[test]
fn causes_and_faults_print_their_codes(rt: HostRuntime) {
    let cause = CAUSE_CODES.iter().position(|(cause, code)| !is_text(
        cause_text(rt.alloc(), *cause),
        *code,
    ));
    assert_eq!(rt; cause, None);
    let fault = FAULT_CODES.iter().position(|(fault, code)| !is_text(
        fault_text(rt.alloc(), *fault),
        *code,
    ));
    assert_eq!(rt; fault, None);
}
