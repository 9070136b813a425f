//! What a request does to reservations.

ghost use Rattle.std.specs.Prelude.{◌≡◌, ◌==◌, ◌++◌, ℕ, List};
ghost use Rattle.hart.specs.Requests.{IsRequest};
ghost use Rattle.machine.specs.Histories.{calls_of};
ghost use Rattle.machine.specs.declared.shared_memory.history.Entry.TheVariants.{Asked};
ghost use Rattle.reservation.specs.Reserved.{Call, is_reserved as is_reserved_by};
ghost use Rattle.schedule_states.specs.Requests.{is_reserved};

use crate::request::written;
use hart::{Reply, Request};
use line_memory::LINE_SIZE;

/// The line that a hart has reserved after a request, which is its own or another hart's, with the reply to it.
pub fn reserved_after(
    reserved: Option<u64>,
    is_own: bool,
    request: Request,
    reply: Reply,
) -> Option<u64>
    requires { IsRequest request }
    ensures { (h g : ℕ) (calls : List Call) → is_own ≡ (h == g) → ((l : ℕ) → is_reserved reserved l ≡ is_reserved_by g l calls) →
        (l : ℕ) → is_reserved result l ≡ is_reserved_by g l (calls_of (Asked h request reply) ++ calls) }
{
    if is_own {
        return own_after(reserved, request, reply);
    }
    match (reserved, written(request, reply)) {
        (Some(line), Some(write)) if line == write.address / LINE_SIZE as u64 => None,
        _ => reserved,
    }
}

/// The same after a request of its own.
fn own_after(reserved: Option<u64>, request: Request, reply: Reply) -> Option<u64>
    requires { IsRequest request }
    ensures { (h : ℕ) (calls : List Call) → ((l : ℕ) → is_reserved reserved l ≡ is_reserved_by h l calls) →
        (l : ℕ) → is_reserved result l ≡ is_reserved_by h l (calls_of (Asked h request reply) ++ calls) }
{
    match (request, reply) {
        (Request::Lr { address, .. }, Reply::Value(_)) => Some(address / LINE_SIZE as u64),
        (Request::Sc { .. }, Reply::Value(_)) => None,
        _ => reserved,
    }
}
