//! Images that no trace has, judged by a plan: each line is of one medium or of another.

ghost use Rattle.line_memory.specs.Lines.{IsMedium};
ghost use Rattle.std.specs.Prelude.{◌≡◌, length};

use image_check::{Cause, ImagesVerdict, ImagesWorkspace, PlanState, judge_images};
use line_memory::Medium;
use nova_log::{VolumeFault, mkfs, recover};
use plan::Plan;
use std::alloc::{AllocError, Global};
use std::process::Abort;
use std::test::Fail;
use std::thread::Threads;
use store_trace::Event;
use verdict::Images;

/// Each line is of the first medium, by number 0, or of the second, by number 1.
#[derive(Drop)]
pub(crate) struct EitherMedium<'a> {
    pub(crate) first: &'a Medium,
    pub(crate) second: &'a Medium,
    ghost size: { length second.now ≡ length first.now },
    ghost first_whole: { IsMedium first.now },
    ghost second_whole: { IsMedium second.now },
}

impl Images for EitherMedium<'_> {
    ghost use Rattle.verdict_tests.specs.Mixed.{mixed, mixed_decides, mixed_length, mixed_whole};
    ghost use Rattle.std.proofs.Common.{rules};
    ghost use Rattle.std.specs.Prelude.{length};

    ghost lines = { λ s. length s.first.now };

    ghost low = { λ s l. 0 };

    ghost high = { λ s l. 1 };

    ghost image = { λ s cut. mixed s.first.now s.second.now cut };

    fn lines(&self) -> u32 {
        self.first.lines()
    }

    fn lowest(&self, _line: u32) -> u32 {
        0
    }

    fn highest(&self, _line: u32) -> u32 {
        1
    }

    fn line(&self, line: u32, number: u32) -> &[u8; 64] {
        if number == 0 {
            self.first.read_line(line)
        } else {
            self.second.read_line(line)
        }
    }

    ghost ordered = { λ s l. Prim.search rules };

    ghost whole = { λ s cut. mixed_whole s.first.now s.second.now cut s.size s.first_whole s.second_whole };

    ghost count = { λ s cut. mixed_length s.first.now s.second.now cut };

    ghost by_line = { λ s cut other l same. mixed_decides s.first.now s.second.now cut other l s.size same };
}

const ONE_APPEND: &[u8] = b"layout 2\ninodes 1\npages 1\njournals 1\nop 1 append 0 77\n";

/// The entry of the append: a line, an offset in it, and eight bytes.
const ENTRY: &[(u32, u32, u64)] = &[(256, 0, 1), (256, 8, 1), (256, 16, 77)];

/// The inode's tail behind it.
const TAIL: &[(u32, u32, u64)] = &[(1, 8, 16_512)];

/// What the images of two media came to.
#[derive(Clone, Copy, Debug, PartialEq, Eq)]
enum Found {
    Pass,
    /// The numbers of the tail's line and of the entry's in the least bad cut, and whether its volume is illegal.
    Bad(u32, u32, bool),
    TooMany,
    /// The media have other numbers of lines.
    Unlike,
}

/// What the images come to that have each line of one medium or of the other, in a state of a run.
fn found_of<R: Threads + Sync>(
    rt: &R,
    alloc: Global,
    plan: &Plan,
    first: &Medium,
    second: &Medium,
    state: &PlanState,
) -> Result<Found, AllocError> {
    if first.lines() != second.lines() {
        return Ok(Found::Unlike);
    }
    let mut workspace = ImagesWorkspace::new(alloc, first.lines())?;
    let images = EitherMedium { first, second };
    match judge_images(rt, alloc, &images, plan, state, &mut workspace)? {
        ImagesVerdict::Pass => Ok(Found::Pass),
        ImagesVerdict::Bad {
            numbers,
            cause,
            of_too_many: _,
        } => Ok(Found::Bad(
            number_in(&numbers, 1),
            number_in(&numbers, 256),
            cause == Cause::Illegal,
        )),
        ImagesVerdict::TooMany => Ok(Found::TooMany),
    }
}

pub(crate) fn number_in(numbers: &[u32], line: usize) -> u32 {
    match numbers.get(line) {
        Some(number) => *number,
        None => 0,
    }
}

/// A new volume of the plan's counts on 512 lines, with these stores.
fn stored(
    rt: &(impl AllocGlobal + Abort),
    plan: &Plan,
    stores: &[(u32, u32, u64)],
) -> Result<Medium, VolumeFault> {
    let mut medium = mkfs(
        rt.alloc(),
        plan.layout(),
        plan.inodes(),
        plan.pages(),
        plan.journals(),
        512,
    )?;
    for (line, offset, value) in stores {
        put(rt, &mut medium, *line, *offset, *value);
    }
    Ok(medium)
}

fn put(rt: &impl Abort, medium: &mut Medium, line: u32, offset: u32, value: u64) {
    assert!(rt;
        line < medium.lines() && offset % 8 == 0 && offset < 64,
        "a store in the medium"
    );
    medium.store(64 * line + offset, 8, value);
}

/// What the images between a volume with the first stores and one with all of them come to, while the append is pending or not.
fn between(
    rt: &(impl AllocGlobal + Abort + Threads + Sync),
    before: &[(u32, u32, u64)],
    after: &[(u32, u32, u64)],
    pending: bool,
) -> Result<Found, Fail> {
    let alloc = rt.alloc();
    let plan = Plan::read(alloc, ONE_APPEND)?;
    let first = stored(rt, &plan, before)?;
    let second = stored(rt, &plan, after)?;
    let mut state = PlanState::first(alloc, Some(recover(alloc, &first)?));
    if pending {
        state = state.after(alloc, &plan, Event::Begin { hart: 0, op: 1 })?;
    }
    Ok(found_of(rt, alloc, &plan, &first, &second, &state)?)
}

#[test]
fn tail_without_its_entry(rt: HostRuntime) -> Result<(), Fail> {
    let after = [ENTRY[0], ENTRY[1], ENTRY[2], TAIL[0]];
    assert_eq!(rt; between(&rt, &[], &after, true)?, Found::Bad(1, 0, false));
    Ok(())
}

#[test]
fn tail_behind_its_entry(rt: HostRuntime) -> Result<(), Fail> {
    let after = [ENTRY[0], ENTRY[1], ENTRY[2], TAIL[0]];
    assert_eq!(rt; between(&rt, ENTRY, &after, true)?, Found::Pass);
    Ok(())
}

#[test]
fn append_that_never_began(rt: HostRuntime) -> Result<(), Fail> {
    let after = [ENTRY[0], ENTRY[1], ENTRY[2], TAIL[0]];
    assert_eq!(rt; between(&rt, ENTRY, &after, false)?, Found::Bad(1, 0, true));
    Ok(())
}
