//! What recovery comes to at branches that follow each other in the queue.

ghost use Rattle.std.specs.Prelude.{◌≡◌, ◌+◌, ◌<◌, ◌≤◌, length, IfOk, OnOk};
ghost use Rattle.verdict.specs.Lanes.{AreTools};
ghost use Rattle.verdict.specs.Pieces.{AreCuts, IsPiece};

use crate::branches::Recovery;
use crate::branches::findings::Findings;
use crate::branches::queue::Entry;
use crate::branches::tools::Tools;
use std::alloc::{AllocError, Global};

/// A piece that found more branches than this ends early, so that a round takes little memory.
const MUCH: usize = 65_536;

/// What recovery came to at branches that follow each other in the queue.
#[derive(Drop)]
pub struct Piece<Cause> {
    /// The place of the first of them.
    pub first: usize,
    /// How many they are.
    pub count: usize,
    pub findings: Findings,
    /// Why the least bad cut of them is bad, if one is.
    pub cause: Option<Cause>,
}

/// Runs recovery at so many branches of the queue from place `first` on, or at fewer where the queue ends or much is found.
pub fn open_piece<R: Recovery>(
    alloc: Global,
    recovery: &R,
    tools: &mut Tools<R::Workspace>,
    queue: &[Entry],
    first: usize,
    count: usize,
) -> Result<Piece<R::Cause>, AllocError>
    requires cuts { AreCuts (R.low recovery.now) (R.high recovery.now) (R.lines recovery.now) queue.now }
    requires tools { AreTools (R.fits recovery.now) (R.lines recovery.now) tools.old }
    ensures tools { AreTools (R.fits recovery.now) (R.lines recovery.now) tools.new }
    ensures piece { IfOk result (IsPiece (R.asks recovery.now) (R.judged recovery.now) (R.alike recovery.now) (R.low recovery.now) (R.high recovery.now) (R.lines recovery.now) queue.now) }
{
    let mut piece = Piece {
        first,
        count: 0,
        findings: Findings::without_room(alloc, recovery.lines())?,
        cause: None,
    };
    let end = first.saturating_add(count).min(queue.len());
    open_each(alloc, recovery, tools, queue, end, &mut piece)?;
    Ok(piece)
}

/// Runs recovery at the branches of a piece that counts none yet, up to place `end`, or at fewer where much is found.
fn open_each<R: Recovery>(
    alloc: Global,
    recovery: &R,
    tools: &mut Tools<R::Workspace>,
    queue: &[Entry],
    end: usize,
    piece: &mut Piece<R::Cause>,
) -> Result<(), AllocError>
    requires none { piece.old.count ≡ 0 }
    requires end { end ≤ length queue.now }
    requires tools { AreTools (R.fits recovery.now) (R.lines recovery.now) tools.old }
    requires cuts { AreCuts (R.low recovery.now) (R.high recovery.now) (R.lines recovery.now) queue.now }
    requires piece { IsPiece (R.asks recovery.now) (R.judged recovery.now) (R.alike recovery.now) (R.low recovery.now) (R.high recovery.now) (R.lines recovery.now) queue.now piece.old }
    ensures tools { AreTools (R.fits recovery.now) (R.lines recovery.now) tools.new }
    ensures piece { OnOk result (IsPiece (R.asks recovery.now) (R.judged recovery.now) (R.alike recovery.now) (R.low recovery.now) (R.high recovery.now) (R.lines recovery.now) queue.now piece.new) }
{
    for place in piece.first..end {
        if piece.findings.found.len() > MUCH {
            break;
        }
        open_at(alloc, recovery, tools, queue, place, piece)?;
    }
    Ok(())
}

/// Runs recovery at the branch at this place of the queue, which is the next one of the piece.
fn open_at<R: Recovery>(
    alloc: Global,
    recovery: &R,
    tools: &mut Tools<R::Workspace>,
    queue: &[Entry],
    place: usize,
    piece: &mut Piece<R::Cause>,
) -> Result<(), AllocError>
    requires there { place < length queue.now }
    requires next { place ≡ piece.old.first + piece.old.count }
    requires cuts { AreCuts (R.low recovery.now) (R.high recovery.now) (R.lines recovery.now) queue.now }
    requires tools { AreTools (R.fits recovery.now) (R.lines recovery.now) tools.old }
    requires piece { IsPiece (R.asks recovery.now) (R.judged recovery.now) (R.alike recovery.now) (R.low recovery.now) (R.high recovery.now) (R.lines recovery.now) queue.now piece.old }
    ensures piece { OnOk result (IsPiece (R.asks recovery.now) (R.judged recovery.now) (R.alike recovery.now) (R.low recovery.now) (R.high recovery.now) (R.lines recovery.now) queue.now piece.new) }
    ensures first { piece.new.first ≡ piece.old.first }
    ensures count { OnOk result (piece.new.count ≡ piece.old.count + 1) }
    ensures tools { AreTools (R.fits recovery.now) (R.lines recovery.now) tools.new }
{
    let Tools { workspace, run } = tools;
    let judged = run.open(alloc, recovery, workspace, queue, place)?;
    piece.findings.asked.insert_asked(&run.asked)?;
    piece.cause = piece.findings.add_with_room(
        alloc,
        recovery.lines(),
        &mut run.numbers,
        judged,
        &run.found,
        piece.cause,
    )?;
    piece.count += 1;
    Ok(())
}
