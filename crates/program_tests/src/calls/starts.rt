//! Short sources, and what the calls take of them.

use crash_test::{default_medium, load_program, make_volume, record_run};
use line_memory::Medium;
use machine::{Run, Schedule, Setup, StepFault};
use plan::Plan;
use program::Program;
use std::alloc::Global;

pub(crate) const FIRST_RUN: &str =
    "addi x5, x0, 7\nlui x6, 0x40000\nsd x5, 0(x6)\ncbo.clean (x6)\nfence w, w\n\
    addi x17, x0, 93\naddi x10, x0, 0\necall\n";

/// Three stores in line 5, the last of them after its clean, and a fence.
pub(crate) const TWO_IMAGES: &str =
    "addi x5, x0, 1\naddi x6, x11, 320\nsd x5, 0(x6)\naddi x5, x5, 1\nsd x5, 0(x6)\n\
    cbo.clean (x6)\naddi x5, x5, 1\nsd x5, 0(x6)\nfence w, w\n";

/// Operation 1 begins and appends an entry with the value 77 to inode 0's log; its line is cleaned.
pub(crate) const ENTRY: &str =
    "li a7, 2001\nli a0, 1\necall\nld t0, 72(a1)\nadd t1, a1, t0\nli t2, 1\nsd t2, 0(t1)\nsd t2, 8(t1)\n\
    li t3, 77\nsd t3, 16(t1)\ncbo.clean (t1)\n";

/// The inode's tail moves past the entry, and its line is cleaned.
pub(crate) const TAIL: &str = "addi t0, t0, 64\nsd t0, 72(a1)\naddi t4, a1, 64\ncbo.clean (t4)\n";

/// One store to each of seventeen lines, from line 300, which no log of a new volume reaches.
pub(crate) const STRAYS: &str =
    "li t0, 17\nli t1, 19200\nadd t1, t1, a1\nloop: sd t0, 0(t1)\naddi t1, t1, 64\naddi t0, t0, -1\n\
    bnez t0, loop\n";

/// The inode's tail is set to 0.
pub(crate) const NO_TAIL: &str = "sd zero, 72(a1)\n";

pub(crate) const FENCE: &str = "fence w, w\n";

/// Operation 1 ends, and so does the hart.
pub(crate) const END: &str = "li a7, 2002\necall\nli a7, 93\nli a0, 0\necall\n";

/// Operation 3, which no plan here has, begins.
pub(crate) const UNKNOWN: &str = "li a7, 2001\nli a0, 3\necall\n";

pub(crate) const ONE_APPEND: &str = "inodes 1\npages 1\njournals 1\nop 1 append 0 77\n";

/// A program, the medium that it starts from, and a schedule.
#[derive(Drop)]
pub(crate) struct Start {
    pub(crate) program: Program,
    pub(crate) medium: Medium,
    pub(crate) schedule: Schedule,
}

/// A source of several pieces, on a new volume of 512 lines for a plan, or on as many lines of zeros.
pub(crate) fn start_of(
    alloc: Global,
    plan: Option<&str>,
    pieces: &[&str],
    schedule: &str,
) -> Option<Start> {
    let (program, medium) = loaded(alloc, plan, pieces)?;
    match Schedule::read(alloc, schedule.as_bytes()) {
        Ok(schedule) => Some(Start {
            program,
            medium,
            schedule,
        }),
        Err(_) => None,
    }
}

/// The run of a source of one hart by a schedule, or why it is refused. None where there is no such source or schedule.
pub(crate) fn run_of(
    alloc: Global,
    plan: Option<&str>,
    pieces: &[&str],
    schedule: &str,
) -> Option<Result<Run, StepFault>> {
    let schedule = Schedule::read(alloc, schedule.as_bytes()).ok()?;
    let (program, medium) = loaded(alloc, plan, pieces)?;
    Some(record_run(alloc, Setup::with_room(program, medium, 1), &schedule))
}

pub(crate) fn loaded(
    alloc: Global,
    plan: Option<&str>,
    pieces: &[&str],
) -> Option<(Program, Medium)> {
    let source = joined(alloc, pieces)?;
    let program = load_program(alloc, &source).ok()?;
    Some((program, medium_of(alloc, plan)?))
}

fn joined(alloc: Global, pieces: &[&str]) -> Option<Vec<u8>> {
    let mut source = Vec::new(alloc);
    for piece in pieces {
        source.extend_from_slice(piece.as_bytes()).ok()?;
    }
    Some(source)
}

fn medium_of(alloc: Global, plan: Option<&str>) -> Option<Medium> {
    match plan {
        None => default_medium(alloc).ok(),
        Some(text) => volume_of(alloc, text),
    }
}

fn volume_of(alloc: Global, plan: &str) -> Option<Medium> {
    let plan = Plan::read(alloc, plan.as_bytes()).ok()?;
    make_volume(alloc, &plan, 512).ok()
}

pub(crate) fn is_written_so(alloc: Global, schedule: &Schedule, text: &str) -> bool {
    match schedule.write(alloc) {
        Ok(written) => written.as_str() == text,
        Err(_) => false,
    }
}
