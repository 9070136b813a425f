//! What each thread of a round does: it opens pieces that follow each other.

ghost use Rattle.std.specs.Prelude.{◌≡◌, ◌++◌, All, IfOk, IfSome, Ok, OnOk};
ghost use Rattle.std.specs.declared.vec.Vec.{Vec as AVec};
ghost use Rattle.verdict.specs.Lanes.{AreTools, HasOpened};
ghost use Rattle.verdict.specs.Pieces.{AreCuts, IsPiece};

use crate::branches::Recovery;
use crate::branches::pieces::{Piece, open_piece};
use crate::branches::queue::Entry;
use crate::branches::tools::{Tools, new_tools};
use std::alloc::{AllocError, Global};

/// What a thread keeps from round to round. Its tools are made in its first round, since a workspace may take long to make.
#[derive(Drop)]
pub struct Lane<Workspace, Cause> {
    pub tools: Option<Tools<Workspace>>,
    /// The pieces of its part of the last round, until they are taken, or that memory was refused there.
    pub opened: Result<Vec<Piece<Cause>>, AllocError>,
}

/// Pieces of a round that follow each other: those of number `start` on that are below `end`.
#[derive(Clone, Copy)]
pub struct Part {
    pub start: usize,
    pub end: usize,
    /// The place in the queue at which piece 0 begins.
    pub first: usize,
    /// How many branches a piece has.
    pub size: usize,
}

/// Opens the pieces of a part of a round, which the lane then has.
pub fn open_part<R: Recovery>(
    alloc: Global,
    recovery: &R,
    lane: &mut Lane<R::Workspace, R::Cause>,
    queue: &[Entry],
    part: Part,
)
    requires cuts { AreCuts (R.low recovery.now) (R.high recovery.now) (R.lines recovery.now) queue.now }
    requires workspace { (other : R.Workspace) × R.fits recovery.now other }
    requires tools { IfSome lane.old.tools (AreTools (R.fits recovery.now) (R.lines recovery.now)) }
    ensures tools { IfSome lane.new.tools (AreTools (R.fits recovery.now) (R.lines recovery.now)) }
    ensures opened { HasOpened (IsPiece (R.asks recovery.now) (R.judged recovery.now) (R.alike recovery.now) (R.low recovery.now) (R.high recovery.now) (R.lines recovery.now) queue.now) lane.new }
{
    lane.opened = open_with(alloc, recovery, &mut lane.tools, queue, part);
}

/// Opens the pieces of a part of a round with these tools, which are made where there are none.
fn open_with<R: Recovery>(
    alloc: Global,
    recovery: &R,
    tools: &mut Option<Tools<R::Workspace>>,
    queue: &[Entry],
    part: Part,
) -> Result<Vec<Piece<R::Cause>>, AllocError>
    requires cuts { AreCuts (R.low recovery.now) (R.high recovery.now) (R.lines recovery.now) queue.now }
    requires workspace { (other : R.Workspace) × R.fits recovery.now other }
    requires tools { IfSome tools.old (AreTools (R.fits recovery.now) (R.lines recovery.now)) }
    ensures tools { IfSome tools.new (AreTools (R.fits recovery.now) (R.lines recovery.now)) }
    ensures pieces { IfOk result (λ pieces. All (IsPiece (R.asks recovery.now) (R.judged recovery.now) (R.alike recovery.now) (R.low recovery.now) (R.high recovery.now) (R.lines recovery.now) queue.now) pieces.items) }
{
    let mut own = match tools.take() {
        Some(own) => own,
        None => new_tools(alloc, recovery)?,
    };
    let pieces = open_pieces(alloc, recovery, &mut own, queue, part);
    *tools = Some(own);
    pieces
}

/// Opens the pieces of a part of a round with these tools.
fn open_pieces<R: Recovery>(
    alloc: Global,
    recovery: &R,
    tools: &mut Tools<R::Workspace>,
    queue: &[Entry],
    part: Part,
) -> Result<Vec<Piece<R::Cause>>, AllocError>
    requires cuts { AreCuts (R.low recovery.now) (R.high recovery.now) (R.lines recovery.now) queue.now }
    requires tools { AreTools (R.fits recovery.now) (R.lines recovery.now) tools.old }
    ensures tools { AreTools (R.fits recovery.now) (R.lines recovery.now) tools.new }
    ensures pieces { IfOk result (λ pieces. All (IsPiece (R.asks recovery.now) (R.judged recovery.now) (R.alike recovery.now) (R.low recovery.now) (R.high recovery.now) (R.lines recovery.now) queue.now) pieces.items) }
{
    let mut pieces = Vec::new(alloc);
    for number in part.start..part.end {
        let place = part.first.saturating_add(part.size.saturating_mul(number));
        let piece = open_piece(alloc, recovery, tools, queue, place, part.size)?;
        pieces.push(piece)?;
    }
    Ok(pieces)
}

/// Adds the pieces that the lane opened. Err where memory was refused to it.
pub fn take_opened<Workspace, Cause>(
    lane: &mut Lane<Workspace, Cause>,
    pieces: &mut Vec<Piece<Cause>>,
) -> Result<(), AllocError>
    ensures pieces { OnOk result ((theirs : AVec (Piece Cause) Global) × (lane.old.opened ≡ Ok theirs) × (pieces.new.items ≡ pieces.old.items ++ theirs.items)) }
    ensures tools { lane.new.tools ≡ lane.old.tools }
{
    match &mut lane.opened {
        Ok(theirs) => pieces.append(theirs),
        Err(error) => Err(*error),
    }
}
