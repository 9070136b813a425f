//! Which requests make an event.

ghost use Rattle.std.specs.Prelude.{◌≡◌, ℕ, [], MatchBool, length};
ghost use Rattle.machine.specs.Replies.{events_of};

use hart::{Reply, Request};
use line_memory::PERSISTENT_BASE;

/// Whether a request that was answered so made an event: a write to persistent memory, a cache-block operation on it, a
/// fence, or a mark. One that met a fault made none.
#[tactic(auto, using(crate::proofs::EventMade::none_for_fault))]
pub(crate) fn makes_event(request: Request, reply: Reply) -> bool
    ensures { (h : ℕ) → MatchBool result (length (events_of h request reply) ≡ 1) (events_of h request reply ≡ []) }
{
    match reply {
        Reply::Done => makes_event_done(request),
        Reply::Value(value) => makes_event_with(request, value),
        Reply::Fault(_) => false,
    }
}

/// The same of one that was answered that it is done.
#[tactic(auto, using(crate::proofs::EventMade::store_decided, crate::proofs::EventMade::clean_decided))]
fn makes_event_done(request: Request) -> bool
    ensures { (h : ℕ) → MatchBool result (length (events_of h request Reply.Done) ≡ 1) (events_of h request Reply.Done ≡ []) }
{
    match request {
        Request::Store { address, .. } => address >= PERSISTENT_BASE,
        Request::Cbo { address, .. } => address >= PERSISTENT_BASE,
        Request::Fence | Request::Begin { .. } | Request::End { .. } => true,
        Request::Load { .. }
        | Request::Lr { .. }
        | Request::Sc { .. }
        | Request::Amo { .. }
        | Request::FenceI => false,
    }
}

/// The same of one that was answered with a value.
#[tactic(auto, using(crate::proofs::EventMade::taken_decided, crate::proofs::EventMade::not_taken, crate::proofs::EventMade::combined_decided))]
fn makes_event_with(request: Request, value: u64) -> bool
    ensures { (h : ℕ) → MatchBool result (length (events_of h request (Reply.Value value)) ≡ 1) (events_of h request (Reply.Value value) ≡ []) }
{
    match request {
        Request::Sc { address, .. } => value == 0 && address >= PERSISTENT_BASE,
        Request::Amo { address, .. } => address >= PERSISTENT_BASE,
        Request::Load { .. }
        | Request::Store { .. }
        | Request::Lr { .. }
        | Request::Cbo { .. }
        | Request::Fence
        | Request::FenceI
        | Request::Begin { .. }
        | Request::End { .. } => false,
    }
}
