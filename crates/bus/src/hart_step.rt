//! One instruction of a hart, by its copy of the text.

ghost use Rattle.std.specs.Prelude.{◌≡◌, ◌||◌, true, false, MatchBool, length};
ghost use Rattle.hart.specs.Needs.{IsSpelledBy};
ghost use Rattle.hart.specs.Requests.{IsRequest};
ghost use Rattle.hart.specs.declared.need.Request.{Request};
ghost use Rattle.line_memory.specs.declared.TheConstants.{TEXT_SIZE};
ghost use Rattle.machine.specs.Run.{fetched};
ghost use Rattle.machine.specs.Represents.{text_bytes};
ghost use Rattle.machine.specs.Histories.{is_renewing};
ghost use Rattle.bus.specs.Alone.{Asks, IsAsking, StepsAlone};

use hart::{Advance, HartState, Request, Status, advance};
use isa_table::Instr;
use machine::TextCopy;

/// Makes the next instruction of a running hart where it needs no request, and says whether it did.
#[tactic(auto, using(crate::proofs::Seating::goes_on, crate::proofs::Seating::traps, crate::proofs::Seating::asks))]
#[inline(always)]
pub(crate) fn go_alone(state: &mut HartState, copy: &TextCopy) -> bool
    requires { state.old.status ≡ Status.Running }
    ensures { MatchBool result (StepsAlone (text_bytes copy.now) state.old state.new)
        ((state.new ≡ state.old) × ((request : Request) × Asks (text_bytes copy.now) state.old request)) }
{
    let instr = match copy.instruction(state.pc) {
        Ok(instr) => instr,
        Err(trap) => {
            state.status = Status::Trapped(trap);
            return true;
        }
    };
    match advance(state, instr) {
        Advance::Done => true,
        Advance::Stop(trap) => {
            state.status = Status::Trapped(trap);
            true
        }
        Advance::Ask(_) => false,
    }
}

/// The instruction and the request of a hart that asks.
#[tactic(auto, using(crate::proofs::Seating::asks_again, crate::proofs::Seating::not_trapped, crate::proofs::Seating::not_done, crate::proofs::Seating::not_stopped))]
pub(crate) fn request_of(state: &mut HartState, copy: &TextCopy) -> (Instr, Request)
    requires { IsAsking (text_bytes copy.now) state.old }
    ensures same { state.new ≡ state.old }
    ensures asks { Asks (text_bytes copy.now) state.old result.1 }
    ensures spelled { IsSpelledBy (fetched (text_bytes copy.now) state.old.pc) result.0 }
    ensures request { IsRequest result.1 }
{
    let instr = match copy.instruction(state.pc) {
        Ok(instr) => instr,
        Err(_trap) => unreachable!(),
    };
    match advance(state, instr) {
        Advance::Ask(request) => (instr, request),
        Advance::Done => unreachable!(),
        Advance::Stop(_trap) => unreachable!(),
    }
}

/// A FENCE.I makes the copy equal to the text as it stands.
pub(crate) fn renew_after(copy: &mut TextCopy, request: Request, text: &[u8])
    requires { length text.now ≡ TEXT_SIZE }
    ensures renewed { is_renewing request ≡ true → copy.new ≡ text.now }
    ensures kept { is_renewing request ≡ false → copy.new ≡ copy.old }
{
    if let Request::FenceI = request {
        copy.renew(text);
    }
}

/// Whether a hart's copy of the text has been renewed after a request, where it had or hadn't been before.
pub(crate) fn is_renewed_after(renewed: bool, request: Request) -> bool
    ensures { result ≡ (renewed || is_renewing request) }
{
    renewed || is_fence_i(request)
}

fn is_fence_i(request: Request) -> bool
    ensures { result ≡ is_renewing request }
{
    matches!(request, Request::FenceI)
}
