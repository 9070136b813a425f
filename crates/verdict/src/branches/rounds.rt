//! Opening many branches at once, in rounds.

ghost use Rattle.std.specs.Prelude.{◌<◌, All, IfOk, IfSome, OnOk};
ghost use Rattle.verdict.specs.Lanes.{AreLanes, AreTools, HasOpened};
ghost use Rattle.verdict.specs.Pieces.{AreCuts, IsPiece};

use crate::branches::Recovery;
use crate::branches::lanes::{Lane, Part, open_part, take_opened};
use crate::branches::pieces::Piece;
use crate::branches::queue::Entry;
use rayon::current_num_threads;
use std::alloc::{AllocError, Global};
use std::thread;
use std::thread::Threads;

/// How few open branches are worth a round: fewer take less time than the threads take to start (docs/BENCHMARKS.md).
const LEAST_OF_ROUND: usize = 256;

/// The most branches of a round: where it turns out that there are too many branches, at most so many were opened in vain.
const MOST_OF_ROUND: usize = 16_384;

/// The most pieces of a round. Pieces don't go by the number of processors: where there are too many branches, the same ones are opened on
/// each machine, so that it names the same image.
const MOST_PIECES: usize = 32;

/// How few branches are worth a piece of their own.
const LEAST_OF_PIECE: usize = 64;

/// Runs recovery at branches of the queue from place `first` on, in threads of their own where these can be started: at as many as a
/// round has, and at none where there are few. The lanes are those of the rounds before, for images of the same moment.
pub fn open_round<R: Recovery + Sync, T: Threads + Sync>(
    rt: &T,
    alloc: Global,
    recovery: &R,
    queue: &[Entry],
    first: usize,
    lanes: &mut Vec<Lane<R::Workspace, R::Cause>>,
) -> Result<Vec<Piece<R::Cause>>, AllocError>
    requires cuts { AreCuts (R.low recovery.now) (R.high recovery.now) (R.lines recovery.now) queue.now }
    requires workspace { (other : R.Workspace) × R.fits recovery.now other }
    requires lanes { AreLanes (R.fits recovery.now) (R.lines recovery.now) lanes.old.items }
    ensures lanes { OnOk result (AreLanes (R.fits recovery.now) (R.lines recovery.now) lanes.new.items) }
    ensures pieces { IfOk result (λ pieces. All (IsPiece (R.asks recovery.now) (R.judged recovery.now) (R.alike recovery.now) (R.low recovery.now) (R.high recovery.now)
        (R.lines recovery.now) queue.now) pieces.items) }
{
    let open = queue.len().saturating_sub(first).min(MOST_OF_ROUND);
    if open < LEAST_OF_ROUND {
        return Ok(Vec::new(alloc));
    }
    let size = open.div_ceil(MOST_PIECES).max(LEAST_OF_PIECE);
    let pieces = Part {
        start: 0,
        end: open.div_ceil(size),
        first,
        size,
    };
    let threads = current_num_threads(rt).min(pieces.end);
    add_lanes(alloc, recovery, threads, lanes)?;
    open_parts(rt, alloc, recovery, queue, pieces, lanes);
    take_all(alloc, recovery, queue, lanes)
}

/// Adds lanes without tools where there are fewer than so many.
fn add_lanes<R: Recovery>(
    alloc: Global,
    recovery: &R,
    count: usize,
    lanes: &mut Vec<Lane<R::Workspace, R::Cause>>,
) -> Result<(), AllocError>
    requires { AreLanes (R.fits recovery.now) (R.lines recovery.now) lanes.old.items }
    ensures { OnOk result (AreLanes (R.fits recovery.now) (R.lines recovery.now) lanes.new.items) }
{
    for _ in lanes.len()..count {
        lanes.push(Lane {
            tools: None,
            opened: Ok(Vec::new(alloc)),
        })?;
    }
    Ok(())
}

/// Shares the pieces of a round among the lanes, each of which has a thread of its own where it can be started.
fn open_parts<R: Recovery + Sync, T: Threads + Sync>(
    rt: &T,
    alloc: Global,
    recovery: &R,
    queue: &[Entry],
    pieces: Part,
    lanes: &mut [Lane<R::Workspace, R::Cause>],
)
    requires cuts { AreCuts (R.low recovery.now) (R.high recovery.now) (R.lines recovery.now) queue.now }
    requires workspace { (other : R.Workspace) × R.fits recovery.now other }
    requires lanes { AreLanes (R.fits recovery.now) (R.lines recovery.now) lanes.old }
    ensures lanes { AreLanes (R.fits recovery.now) (R.lines recovery.now) lanes.new }
    ensures opened { All (HasOpened (IsPiece (R.asks recovery.now) (R.judged recovery.now) (R.alike recovery.now) (R.low recovery.now) (R.high recovery.now) (R.lines recovery.now) queue.now)) lanes.new }
{
    let count = lanes.len().max(1);
    thread::for_each_mut(
        rt,
        lanes,
        count,
        &|number: usize, lane: &mut Lane<R::Workspace, R::Cause>|
            requires { AreCuts (R.low recovery.now) (R.high recovery.now) (R.lines recovery.now) queue.now × ((other : R.Workspace) × R.fits recovery.now other)
                × IfSome lane.old.tools (AreTools (R.fits recovery.now) (R.lines recovery.now)) × (0 < count) }
            ensures tools { IfSome lane.new.tools (AreTools (R.fits recovery.entry.now) (R.lines recovery.entry.now)) }
            ensures opened { HasOpened (IsPiece (R.asks recovery.entry.now) (R.judged recovery.entry.now) (R.alike recovery.entry.now) (R.low recovery.entry.now) (R.high recovery.entry.now) (R.lines recovery.entry.now) queue.entry.now) lane.new }
        {
            let part = part_of(pieces, number, count);
            open_part(alloc, recovery, lane, queue, part);
        },
    );
}

/// The part of a lane, of so many lanes.
fn part_of(pieces: Part, number: usize, count: usize) -> Part
    requires { 0 < count }
{
    let each = pieces.end.div_ceil(count);
    let start = each.saturating_mul(number);
    Part {
        start,
        end: start.saturating_add(each).min(pieces.end),
        ..pieces
    }
}

/// What the lanes opened, in order. Err where memory was refused to one of them.
fn take_all<R: Recovery>(
    alloc: Global,
    recovery: &R,
    queue: &[Entry],
    lanes: &mut [Lane<R::Workspace, R::Cause>],
) -> Result<Vec<Piece<R::Cause>>, AllocError>
    requires lanes { AreLanes (R.fits recovery.now) (R.lines recovery.now) lanes.old }
    requires opened { All (HasOpened (IsPiece (R.asks recovery.now) (R.judged recovery.now) (R.alike recovery.now) (R.low recovery.now) (R.high recovery.now) (R.lines recovery.now) queue.now)) lanes.old }
    ensures lanes { OnOk result (AreLanes (R.fits recovery.now) (R.lines recovery.now) lanes.new) }
    ensures pieces { IfOk result (λ pieces. All (IsPiece (R.asks recovery.now) (R.judged recovery.now) (R.alike recovery.now) (R.low recovery.now) (R.high recovery.now) (R.lines recovery.now) queue.now) pieces.items) }
{
    let mut pieces = Vec::new(alloc);
    for lane in lanes {
        take_opened(lane, &mut pieces)?;
    }
    Ok(pieces)
}
