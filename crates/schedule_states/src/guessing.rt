//! Guesses of what may be claimed of lines: by what the harts touch that run to their ends one behind the other.

ghost use Rattle.std.specs.Prelude.{◌<◌, ◌≤◌, ◌≡◌, length, IfOk};
ghost use Rattle.schedule_states.specs.Successors.{HasLists};

use crate::claims::{Claim, ClaimedLine, line_of};
use crate::exploring::Start;
use crate::origin::Origin;
use crate::parts::Parts;
use crate::program_state::ProgramState;
use crate::successor::Successor;
use hart::Request;
use std::alloc::{AllocError, Global};

/// How many requests a hart makes at most for a guess.
const MOST_REQUESTS: u32 = 2_000;

/// A line that was touched: by which hart first, whether by others too, and whether it was written to.
#[derive(Clone, Copy, Debug, PartialEq, Eq)]
struct TouchedLine {
    line: u64,
    hart: u32,
    by_others: bool,
    is_written: bool,
}

/// What is claimed of lines. Nothing follows from a guess: a search checks it.
pub(crate) fn guess(alloc: Global, start: Start<'_>) -> Result<Vec<ClaimedLine>, AllocError> {
    let mut touched = Vec::new(alloc);
    touch_in_turn(alloc, start, &mut touched)?;
    claims_of(alloc, &touched)
}

/// Notes what the harts touch, one behind the other.
fn touch_in_turn(
    alloc: Global,
    start: Start<'_>,
    touched: &mut Vec<TouchedLine>,
) -> Result<(), AllocError> {
    let origin = Origin::new(alloc, start.program, start.medium)?;
    let mut parts = Parts::new(alloc, &origin, &[])?;
    let Ok(mut state) = parts.start(alloc, start.harts)? else {
        return Ok(());
    };
    for hart in 0..start.harts {
        state = touch_by(alloc, &mut parts, state, hart, touched)?;
    }
    Ok(())
}

/// Notes what a hart touches from a state on, and gives the state behind that.
fn touch_by(
    alloc: Global,
    parts: &mut Parts<'_>,
    state: ProgramState,
    hart: u32,
    touched: &mut Vec<TouchedLine>,
) -> Result<ProgramState, AllocError>
    requires there { hart < length state.harts.items }
    requires few { length state.harts.items ≤ 8 }
    requires lists { HasLists parts.old state }
    ensures lists { IfOk result (HasLists parts.new) }
    ensures count { IfOk result (λ next. length next.harts.items ≡ length state.harts.items) }
{
    let mut at = state;
    for _made in 0..MOST_REQUESTS {
        let Some(request) = parts.request_of(&at, hart) else {
            return Ok(at);
        };
        note(touched, hart, request)?;
        let Successor::State(next, _mark) = parts.after_request(alloc, &at, hart)? else {
            return Ok(at);
        };
        at = next;
    }
    Ok(at)
}

/// Notes the line that a request of a hart touches.
fn note(touched: &mut Vec<TouchedLine>, hart: u32, request: Request) -> Result<(), AllocError> {
    let Some(line) = line_of(request) else {
        return Ok(());
    };
    let is_written = writes(request);
    for one in touched.iter_mut() {
        if one.line == line {
            one.by_others = one.by_others || one.hart != hart;
            one.is_written = one.is_written || is_written;
            return Ok(());
        }
    }
    touched.push(TouchedLine {
        line,
        hart,
        by_others: false,
        is_written,
    })?;
    Ok(())
}

/// Whether a request may write.
fn writes(request: Request) -> bool {
    match request {
        Request::Store { .. } | Request::Sc { .. } | Request::Amo { .. } => true,
        _ => false,
    }
}

/// A line to which nobody has written is claimed to be unwritten, another one that one hart alone has touched to be the hart's own.
fn claims_of(alloc: Global, touched: &[TouchedLine]) -> Result<Vec<ClaimedLine>, AllocError> {
    let mut claims = Vec::new(alloc);
    for one in touched {
        if let Some(claim) = claim_by(*one) {
            claims.push(ClaimedLine {
                line: one.line,
                claim,
            })?;
        }
    }
    Ok(claims)
}

fn claim_by(touched: TouchedLine) -> Option<Claim> {
    if !touched.is_written {
        return Some(Claim::Unwritten);
    }
    if touched.by_others {
        return None;
    }
    Some(Claim::Alone(touched.hart))
}
