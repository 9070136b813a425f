//! What comes of a state by a request of one of its harts.

ghost use Rattle.std.specs.Prelude.{◌≡◌, ◌==◌, ◌<◌, ◌≤◌, ℕ, All, true, false, Some, filter, length, slice_get, IfOk};
ghost use Rattle.hart.specs.Requests.{IsRequest};
ghost use Rattle.schedule_states.specs.HeldLines.{AreBelow, is_low, number_of};
ghost use Rattle.schedule_states.specs.States.{AreGrown};
ghost use Rattle.schedule_states.specs.Successors.{AreHartsAfter, HasLists, IfState, IsOtherAfter, IsSuccessor};

use crate::held_lines::HeldLine;
use crate::program_state::{HartPart, ProgramState};
use crate::reserving::reserved_after;
use hart::{Reply, Request};
use std::alloc::{AllocError, Global};
use store_trace::Event;

/// What comes of a state by a request of one of its harts.
#[derive(Drop)]
pub enum Successor {
    /// This state, and the mark of an operation that the request set.
    State(ProgramState, Option<Event>),
    /// Nothing: the hart has stopped.
    Stopped,
    /// Unknown: the hart makes too many steps, or requests that are its own affair, up to a further request.
    TooLong,
    /// Unknown: the request breaks what is claimed of this line.
    Claimed(u64),
}

/// The parts of the harts after a request of one, whose own part is given.
pub(crate) fn harts_after(
    alloc: Global,
    harts: &[HartPart],
    hart: u32,
    own: &HartPart,
    request: Request,
    reply: Reply,
) -> Result<Vec<HartPart>, AllocError>
    requires request { IsRequest request }
    requires there { hart < length harts.now }
    ensures { IfOk result (λ after. AreHartsAfter hart own.now request reply harts.now after.items) }
{
    let mut after = Vec::from_slice(alloc, harts)?;
    for at in 0..harts.len() {
        give_up(&mut after[at], request, reply);
    }
    after[hart as usize] = *own;
    Ok(after)
}

/// What another hart reserves no more after a request.
fn give_up(part: &mut HartPart, request: Request, reply: Reply)
    requires { IsRequest request }
    ensures { IsOtherAfter request reply part.old part.new }
{
    part.reserved = reserved_after(part.reserved, false, request, reply);
}

/// Those of the lines that lie in the text region, or below it.
#[tactic(auto, using(crate::proofs::Held::below_filtered, crate::proofs::Held::number_low))]
pub(crate) fn text_lines(alloc: Global, lines: &[HeldLine]) -> Result<Vec<HeldLine>, AllocError>
    ensures found { IfOk result (λ low. (l : ℕ) → l < 2048 → number_of low.items l ≡ number_of lines.now l) }
    ensures below { IfOk result (λ low. (count : ℕ) → AreBelow count lines.now → AreBelow count low.items) }
{
    let mut low = Vec::from_slice(alloc, lines)?;
    retain_low(&mut low);
    Ok(low)
}

fn retain_low(lines: &mut Vec<HeldLine>)
    ensures { lines.new.items ≡ filter is_low lines.old.items }
{
    lines.retain(|one| one.line < 2_048);
}
