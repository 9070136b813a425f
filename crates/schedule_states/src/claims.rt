//! Claims of lines of the address space: that one hart alone touches a line, or that nobody writes to it. A search checks them.
//!
//! Source: Clarke, Grumberg, Peled, Model Checking, 1999, chapter 10: steps that commute with those of other harts needn't be tried in each order.

ghost use Rattle.std.specs.Prelude.{◌≡◌, ◌≢◌, ◌≤◌, ◌+◌, ◌*◌, ◌/◌, ℕ, Some, None, IfNone, IfSome, true};
ghost use Rattle.line_memory.specs.declared.TheConstants.{TEXT_BASE, TEXT_SIZE};
ghost use Rattle.schedule_states.specs.Claims.{IsLocal, IsOwn, KeepsClaims, MayTouch, MayWrite, Touches, claim_in};

use hart::Request;
use line_memory::{LINE_SIZE, TEXT_BASE, TEXT_SIZE};

/// What is claimed of a line.
#[derive(Clone, Copy, Debug, PartialEq, Eq)]
pub enum Claim {
    /// This hart alone touches it.
    Alone(u32),
    /// No hart writes to it.
    Unwritten,
}

/// A line of the address space, and what is claimed of it.
#[derive(Clone, Copy, Debug, PartialEq, Eq)]
pub struct ClaimedLine {
    pub line: u64,
    pub claim: Claim,
}

/// What is claimed of a line, None where nothing is.
fn claim_of(claims: &[ClaimedLine], line: u64) -> Option<Claim>
    ensures { result ≡ claim_in claims.now line }
{
    for claimed in claims {
        if claimed.line == line {
            return Some(claimed.claim);
        }
    }
    None
}

/// The hart that is claimed to be alone at a line. Of lines of the text, and below it, that isn't claimed.
fn owner_of(claims: &[ClaimedLine], line: u64) -> Option<u32>
    ensures own { IfSome result (λ owner. IsOwn (claim_in claims.now) owner line) }
    ensures only { IfSome result (λ owner. (hart : ℕ) → IsOwn (claim_in claims.now) hart line → hart ≡ owner) }
    ensures none { IfNone result ((hart : ℕ) → ¬ IsOwn (claim_in claims.now) hart line) }
{
    if line < (TEXT_BASE + TEXT_SIZE) / LINE_SIZE as u64 {
        return None;
    }
    match claim_of(claims, line) {
        Some(Claim::Alone(hart)) => Some(hart),
        _ => None,
    }
}

/// Whether a hart touches a line without breaking a claim.
fn may_touch(claims: &[ClaimedLine], hart: u32, line: u64) -> bool
    ensures { result ≡ true → MayTouch (claim_in claims.now) hart line }
{
    match owner_of(claims, line) {
        Some(owner) => owner == hart,
        None => true,
    }
}

/// Whether it writes to the line without breaking one.
fn may_write(claims: &[ClaimedLine], hart: u32, line: u64) -> bool
    ensures { result ≡ true → MayWrite (claim_in claims.now) hart line }
{
    may_touch(claims, hart, line) && claim_of(claims, line) != Some(Claim::Unwritten)
}

/// Whether a request of a hart keeps to the claims.
pub fn keeps(claims: &[ClaimedLine], hart: u32, request: Request) -> bool
    ensures { result ≡ true → KeepsClaims (claim_in claims.now) hart request }
{
    match request {
        Request::Load { address, .. } | Request::Lr { address, .. } => {
            may_touch(claims, hart, address / LINE_SIZE as u64)
        }
        Request::Cbo { address, .. } => may_touch(claims, hart, address / LINE_SIZE as u64),
        Request::Store { address, .. } | Request::Sc { address, .. } => {
            may_write(claims, hart, address / LINE_SIZE as u64)
        }
        Request::Amo { address, .. } => may_write(claims, hart, address / LINE_SIZE as u64),
        Request::Fence | Request::FenceI | Request::Begin { .. } | Request::End { .. } => true,
    }
}

/// Whether a request is its hart's own affair: it touches a line at which the hart is alone, or loads from one to which nobody writes.
pub fn is_local(claims: &[ClaimedLine], hart: u32, request: Request) -> bool
    ensures { result ≡ true → IsLocal (claim_in claims.now) hart request }
{
    match request {
        Request::Load { address, .. } => {
            let line = address / LINE_SIZE as u64;
            claim_of(claims, line) == Some(Claim::Unwritten) || owner_of(claims, line) == Some(hart)
        }
        Request::Store { address, .. } => {
            owner_of(claims, address / LINE_SIZE as u64) == Some(hart)
        }
        Request::Cbo { address, .. } => owner_of(claims, address / LINE_SIZE as u64) == Some(hart),
        _ => false,
    }
}

/// The line that a request touches; None where it touches none.
pub(crate) fn line_of(request: Request) -> Option<u64>
    ensures touched { IfSome result (Touches request) }
    ensures none { IfNone result ((line : ℕ) → ¬ Touches request line) }
{
    match request {
        Request::Load { address, .. }
        | Request::Lr { address, .. }
        | Request::Store { address, .. }
        | Request::Sc { address, .. }
        | Request::Amo { address, .. }
        | Request::Cbo { address, .. } => Some(address / LINE_SIZE as u64),
        Request::Fence | Request::FenceI | Request::Begin { .. } | Request::End { .. } => None,
    }
}
