//! Runs made by hand, event by event as small routines make them, and their verdicts by one, two and eight workers.
//!
//! Plans, media and traces stay in functions that give back plain data: a test that holds one proves at each of its exits that it
//! is let go whole.

ghost use Rattle.std.specs.Prelude.{◌≡◌, ◌<◌, ◌≤◌};

use crate::checks::events::{Made, Parts, trace_of};
use crash_image::has_lines;
use image_check::{Cause, CheckFault, ImageName, OpFault, Verdict, check_parallel};
use line_memory::Medium;
use nova_log::{Layout, VolumeFault, mkfs};
use plan::Plan;
use std::alloc::Global;
use std::process::Abort;
use std::test::Fail;
use std::thread::Threads;
use workers::{Gate, Open};

/// A verdict whose image has a number.
#[derive(Clone, Copy, PartialEq, Eq)]
pub(crate) enum Plain {
    Pass {
        moments: u64,
        images: Option<u64>,
    },
    Fail {
        moment: u32,
        image: u32,
        cause: Cause,
    },
    TooMany {
        moment: u32,
    },
    Refused(CheckFault),
}

/// A run by a plan from a new volume of so many inodes, and its verdict.
pub(crate) struct Run {
    pub(crate) plan: &'static [u8],
    pub(crate) inodes: u32,
    pub(crate) events: Parts,
    pub(crate) verdict: Plain,
}

impl Run {
    /// Whether this is the verdict by so many workers.
    pub(crate) fn is_judged<G: Gate, R: Threads + Sync + AllocGlobal + Abort>(
        &self,
        rt: &R,
        workers: u32,
        gate: &G,
    ) -> Result<bool, Fail>
        requires { (0 < workers) × (workers ≤ 8) }
    {
        let plan = Plan::read(rt.alloc(), self.plan)?;
        let medium = mkfs(
            rt.alloc(),
            Layout::One,
            self.inodes,
            self.inodes,
            1,
            lines_for(self.inodes),
        )?;
        let trace = trace_of(rt, self.events)?;
        assert!(rt; has_lines(&medium, &trace), "the lines of the trace");
        let verdict = check_parallel(rt, rt.alloc(), &plan, &medium, &trace, workers, gate);
        Ok(plain_verdict(verdict) == Some(self.verdict))
    }
}

/// The lines of a medium with so many pages, and at least 512.
fn lines_for(pages: u32) -> u32 {
    if pages > 4 && pages < 64 {
        256 + 64 * pages
    } else {
        512
    }
}

/// None where the image has no number.
fn plain_verdict(verdict: Result<Verdict<Cause>, CheckFault>) -> Option<Plain> {
    match verdict {
        Ok(Verdict::Pass { moments, images }) => Some(Plain::Pass { moments, images }),
        Ok(
            Verdict::Fail {
                moment,
                image: ImageName::Number(image),
                cause,
                of_too_many: false,
            },
        ) => Some(Plain::Fail {
            moment,
            image,
            cause,
        }),
        Ok(Verdict::Fail { .. }) => None,
        Ok(
            Verdict::TooMany {
                moment,
                lines: None,
            },
        ) => Some(Plain::TooMany { moment }),
        Ok(Verdict::Open { .. } | Verdict::TooMany { .. } | Verdict::TooLong { .. }) => None,
        Err(fault) => Some(Plain::Refused(fault)),
    }
}

const ONE_APPEND: &[u8] = b"inodes 1\npages 1\njournals 1\nop 1 append 0 77\n";

/// The entry of an append, not yet fenced.
const ENTRY: &[Made] = &[
    Made::Begin(1),
    Made::Store(256, 0, 1),
    Made::Store(256, 8, 1),
    Made::Store(256, 16, 77),
    Made::Clean(256),
];

/// The inode's tail, not yet fenced.
const TAIL: &[Made] = &[Made::Store(1, 8, 16_448), Made::Clean(1)];

const FENCE: &[Made] = &[Made::Fence];

const END: &[Made] = &[Made::End(1)];

/// So many fences that two workers share the moments.
const FENCES: &[Made] = &[Made::Fence; 64];

/// The append of an entry: its line is cleaned and fenced, and then the inode's tail is. The fences behind it change nothing.
const APPEND: Parts = &[
    (0, ENTRY),
    (0, FENCE),
    (0, TAIL),
    (0, FENCE),
    (0, END),
    (0, FENCES),
];

/// The entries of a rename, durable and not yet in a log.
const RENAME_ENTRIES: &[Made] = &[
    Made::Begin(1),
    Made::Store(256, 0, 0x103),
    Made::Store(256, 8, 1),
    Made::Store(256, 16, 9),
    Made::Store(256, 24, 0x61),
    Made::Store(320, 0, 0x102),
    Made::Store(320, 8, 1),
    Made::Store(320, 16, 9),
    Made::Store(320, 24, 0x61),
    Made::Clean(256),
    Made::Clean(320),
    Made::Fence,
];

/// The journal's two records, then both tails, then the journal's end.
const RENAME_COMMIT: &[Made] = &[
    Made::Store(129, 0, 0),
    Made::Store(129, 8, 16_384),
    Made::Store(130, 0, 1),
    Made::Store(130, 8, 20_480),
    Made::Clean(129),
    Made::Clean(130),
    Made::Fence,
    Made::Store(128, 8, 2),
    Made::Clean(128),
    Made::Fence,
    Made::Store(1, 8, 16_448),
    Made::Store(2, 8, 20_544),
    Made::Clean(1),
    Made::Clean(2),
    Made::Fence,
    Made::Store(128, 0, 2),
    Made::Clean(128),
    Made::Fence,
    Made::End(1),
];

/// The append of a value by the second of two operations, on the second inode.
const SECOND_APPEND: &[Made] = &[
    Made::Begin(2),
    Made::Store(320, 0, 1),
    Made::Store(320, 8, 2),
    Made::Store(320, 16, 71),
    Made::Clean(320),
    Made::Fence,
    Made::Store(2, 8, 20_544),
    Made::Clean(2),
    Made::Fence,
    Made::End(2),
];

const FIRST_APPEND: &[Made] = &[
    Made::Begin(1),
    Made::Store(256, 0, 1),
    Made::Store(256, 8, 1),
    Made::Store(256, 16, 70),
    Made::Clean(256),
    Made::Fence,
    Made::Store(1, 8, 16_448),
    Made::Clean(1),
    Made::Fence,
    Made::End(1),
];

/// Stores in seventeen lines.
const SEVENTEEN: &[Made] = &[
    Made::Store(300, 0, 1),
    Made::Store(301, 0, 1),
    Made::Store(302, 0, 1),
    Made::Store(303, 0, 1),
    Made::Store(304, 0, 1),
    Made::Store(305, 0, 1),
    Made::Store(306, 0, 1),
    Made::Store(307, 0, 1),
    Made::Store(308, 0, 1),
    Made::Store(309, 0, 1),
    Made::Store(310, 0, 1),
    Made::Store(311, 0, 1),
    Made::Store(312, 0, 1),
    Made::Store(313, 0, 1),
    Made::Store(314, 0, 1),
    Made::Store(315, 0, 1),
    Made::Store(316, 0, 1),
];

/// Four entries, durable and not yet in a log.
const FOUR_ENTRIES: &[Made] = &[
    Made::Store(256, 0, 1),
    Made::Store(256, 8, 1),
    Made::Store(256, 16, 70),
    Made::Store(257, 0, 1),
    Made::Store(257, 8, 2),
    Made::Store(257, 16, 71),
    Made::Store(258, 0, 1),
    Made::Store(258, 8, 3),
    Made::Store(258, 16, 72),
    Made::Store(259, 0, 1),
    Made::Store(259, 8, 4),
    Made::Store(259, 16, 73),
    Made::Clean(256),
    Made::Clean(257),
    Made::Clean(258),
    Made::Clean(259),
    Made::Fence,
];

/// Fifteen stores of the first entry's value as it stands.
const FIRST_AGAIN: &[Made] = &[Made::Store(256, 16, 70); 15];

const SECOND_AGAIN: &[Made] = &[Made::Store(257, 16, 71); 15];

const THIRD_AGAIN: &[Made] = &[Made::Store(258, 16, 72); 15];

const FOURTH_AGAIN: &[Made] = &[Made::Store(259, 16, 73); 15];

/// The tail that takes the four entries into the log.
const TAIL_OF_FOUR: &[Made] = &[Made::Store(1, 8, 16_640)];

const NO_OPERATIONS: &[u8] = b"inodes 1\npages 1\njournals 1\n";

/// An append that passes.
pub(crate) static APPEND_PASSES: Run = Run {
    plan: ONE_APPEND,
    inodes: 1,
    events: APPEND,
    verdict: Plain::Pass {
        moments: 75,
        images: Some(86),
    },
};

/// The append without the fence of its entry, and without that of its tail; a rename; two appends by two harts; stores in
/// seventeen lines that recovery doesn't read; an operation that begins twice.
static RUNS: [Run; 6] = [
    Run {
        plan: ONE_APPEND,
        inodes: 1,
        events: &[(0, ENTRY), (0, TAIL), (0, FENCE), (0, END)],
        verdict: Plain::Fail {
            moment: 6,
            image: 4,
            cause: Cause::Fault(VolumeFault::Kind),
        },
    },
    Run {
        plan: ONE_APPEND,
        inodes: 1,
        events: &[(0, ENTRY), (0, FENCE), (0, TAIL), (0, END)],
        verdict: Plain::Fail {
            moment: 9,
            image: 0,
            cause: Cause::Illegal,
        },
    },
    Run {
        plan: b"inodes 2\npages 2\njournals 1\nop 1 rename 0 1 a 9\n",
        inodes: 2,
        events: &[(0, RENAME_ENTRIES), (0, RENAME_COMMIT)],
        verdict: Plain::Pass {
            moments: 32,
            images: Some(202),
        },
    },
    Run {
        plan: b"inodes 2\npages 2\njournals 1\nop 1 append 0 70\nop 2 append 1 71\n",
        inodes: 2,
        events: &[(0, FIRST_APPEND), (1, SECOND_APPEND)],
        verdict: Plain::Pass {
            moments: 21,
            images: Some(43),
        },
    },
    Run {
        plan: NO_OPERATIONS,
        inodes: 1,
        events: &[(0, SEVENTEEN)],
        verdict: Plain::Pass {
            moments: 18,
            images: None,
        },
    },
    Run {
        plan: ONE_APPEND,
        inodes: 1,
        events: &[(0, &[Made::Begin(1), Made::Begin(1)])],
        verdict: Plain::Refused(CheckFault::Operation(OpFault::BegunTwice)),
    },
];

/// Entries, and at last their tail: without it recovery reads none of their lines, and with it four lines of sixteen cuts each, so
/// that the last moment has 1 + 65,536 branches, and each before it has one.
static TAIL_LAST: Run = Run {
    plan: NO_OPERATIONS,
    inodes: 1,
    events: &[
        (0, FOUR_ENTRIES),
        (0, FIRST_AGAIN),
        (0, SECOND_AGAIN),
        (0, THIRD_AGAIN),
        (0, FOURTH_AGAIN),
        (0, TAIL_OF_FOUR),
    ],
    verdict: Plain::TooMany { moment: 78 },
};

/// The tails of eleven inodes, all but the first of twelve, as they stand in a new volume.
const ELEVEN_TAILS: &[Made] = &[
    Made::Store(2, 8, 20_480),
    Made::Store(3, 8, 24_576),
    Made::Store(4, 8, 28_672),
    Made::Store(5, 8, 32_768),
    Made::Store(6, 8, 36_864),
    Made::Store(7, 8, 40_960),
    Made::Store(8, 8, 45_056),
    Made::Store(9, 8, 49_152),
    Made::Store(10, 8, 53_248),
    Made::Store(11, 8, 57_344),
    Made::Store(12, 8, 61_440),
];

const TWELVE_INODES: &[u8] = b"inodes 12\npages 12\njournals 1\n";

/// Twelve tails that stand free, so that the last moment has 4,096 branches, enough for rounds in several threads. The last store is
/// that of the first inode's tail: as it stands; and behind an entry that isn't there, which is then in the half of the images with
/// that store.
static MANY_BRANCHES: [Run; 2] = [
    Run {
        plan: TWELVE_INODES,
        inodes: 12,
        events: &[(0, ELEVEN_TAILS), (0, &[Made::Store(1, 8, 16_384)])],
        verdict: Plain::Pass {
            moments: 13,
            images: Some(8_191),
        },
    },
    Run {
        plan: TWELVE_INODES,
        inodes: 12,
        events: &[(0, ELEVEN_TAILS), (0, &[Made::Store(1, 8, 16_448)])],
        verdict: Plain::Fail {
            moment: 12,
            image: 2_048,
            cause: Cause::Fault(VolumeFault::Kind),
        },
    },
];

/// The place of the first run that so many workers judge otherwise.
fn first_wrong(
    rt: &(impl Threads + Sync + AllocGlobal + Abort),
    workers: u32,
) -> Result<Option<usize>, Fail>
    requires { (0 < workers) × (workers ≤ 8) }
{
    for (place, run) in RUNS.iter().enumerate() {
        if !run.is_judged(rt, workers, &Open)? {
            return Ok(Some(place));
        }
    }
    Ok(None)
}

#[test]
fn verdicts_by_one_two_and_eight_workers(rt: HostRuntime) -> Result<(), Fail> {
    for workers in [1, 2, 8] {
        assert!(rt; APPEND_PASSES.is_judged(&rt, workers, &Open)?);
        assert_eq!(rt; first_wrong(&rt, workers)?, None);
    }
    Ok(())
}

#[test]
fn many_branches_by_one_and_two_workers(rt: HostRuntime) -> Result<(), Fail> {
    for workers in [1, 2] {
        assert!(rt; MANY_BRANCHES[0].is_judged(&rt, workers, &Open)?);
        assert!(rt; MANY_BRANCHES[1].is_judged(&rt, workers, &Open)?);
    }
    Ok(())
}

#[test]
fn too_many_branches_by_two_workers(rt: HostRuntime) -> Result<(), Fail> {
    assert!(rt; TAIL_LAST.is_judged(&rt, 2, &Open)?);
    Ok(())
}
