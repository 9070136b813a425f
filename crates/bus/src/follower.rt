//! Harts that are run once more.

ghost use Rattle.std.specs.Prelude.{◌≡◌, ◌≢◌, ◌<◌, ◌+◌, ◌^◌, ◌∷◌, [], IfErr, IfOk, MatchBool, OnOk, Some, reverse, slice_get};
ghost use Rattle.hart.specs.Needs.{IsSpelledBy};
ghost use Rattle.hart.specs.Requests.{IsRequest};
ghost use Rattle.hart.specs.declared.state.HartState.{HartState};
ghost use Rattle.machine.specs.Run.{fetched};
ghost use Rattle.machine.specs.Represents.{text_bytes};
ghost use Rattle.machine.specs.Histories.{replayed, text_of};
ghost use Rattle.machine.specs.Replies.{reply_after, starting_memory};
ghost use Rattle.machine.specs.declared.shared_memory.history.Entry.{Entry};
ghost use Rattle.bus.specs.Alone.{Asks, GoesAlone, IsAsking, StepsAlone};
ghost use Rattle.bus.specs.Following.{ArePaired, CannotFollow, CannotMake, GoesNot, IfForeign, IsFollowed, IsNotNext, MakesAgain};
ghost use Rattle.bus.specs.Replays.{AreBelow, common_of};

use crate::exchange::Exchange;
use crate::finish_fault::FinishFault;
use crate::hart_step::{go_alone, renew_after, request_of};
use crate::locked::{Core, serve_evict};
use crate::sameness::{is_same_reply, is_same_request};
use crate::seat::Seat;
use hart::{HartState, Reply, Request, Status, resume};
use isa_table::Instr;
use machine::{Entry, TextCopy};

/// A hart that is run once more beside its seat.
#[derive(Drop)]
pub(crate) struct Follower {
    /// How many of the seat's exchanges it has made.
    pub(crate) next: usize,
    pub(crate) state: HartState,
    pub(crate) copy: TextCopy,
}

/// Makes a step that needs no request, where the next one is such, and says whether it did.
#[tactic(auto, using(crate::proofs::Following::stopped_stays, crate::proofs::Following::asking_stays))]
fn step_alone(state: &mut HartState, copy: &TextCopy) -> bool
    ensures { MatchBool result (StepsAlone (text_bytes copy.now) state.old state.new)
        ((t : HartState) → StepsAlone (text_bytes copy.now) state.old t → ⊥) }
{
    match state.status {
        Status::Running => go_alone(state, copy),
        Status::Exited(_) | Status::Trapped(_) => false,
    }
}

/// Makes so many steps without a request.
#[tactic(auto, using(crate::proofs::Agreeing::goes_more))]
pub(crate) fn go_on(state: &mut HartState, copy: &TextCopy, steps: u32) -> Result<(), FinishFault>
    ensures alone { OnOk result (GoesAlone (text_bytes copy.now) steps state.old state.new) }
    ensures err { IfErr result (IfForeign (GoesNot (text_bytes copy.now) steps state.old)) }
{
    for _done in 0..steps {
        if !step_alone(state, copy) {
            return Err(FinishFault::Foreign);
        }
    }
    Ok(())
}

/// Whether the next step of a hart is a request.
fn is_asking(state: &HartState, copy: &TextCopy) -> bool
    ensures { MatchBool result (IsAsking (text_bytes copy.now) state.now)
        (IsAsking (text_bytes copy.now) state.now → ⊥) }
{
    match state.status {
        Status::Running => {
            let mut trial = *state;
            !go_alone(&mut trial, copy)
        }
        Status::Exited(_) | Status::Trapped(_) => false,
    }
}

/// The instruction of a hart whose next step is this request.
#[tactic(auto, using(crate::proofs::Foreign::asks_nothing, crate::proofs::Foreign::asks_other))]
fn asked(state: &mut HartState, copy: &TextCopy, request: Request) -> Result<Instr, FinishFault>
    ensures same { OnOk result (state.new ≡ state.old) }
    ensures asks { OnOk result (Asks (text_bytes copy.now) state.old request) }
    ensures spelled { IfOk result (IsSpelledBy (fetched (text_bytes copy.now) state.old.pc)) }
    ensures width { OnOk result (IsRequest request) }
    ensures err { IfErr result (IfForeign (Asks (text_bytes copy.now) state.old request → ⊥)) }
{
    if !is_asking(state, copy) {
        return Err(FinishFault::Foreign);
    }
    let (instr, asked) = request_of(state, copy);
    if !is_same_request(asked, request) {
        return Err(FinishFault::Foreign);
    }
    Ok(instr)
}

/// Has the core answer a request as it was answered before.
#[tactic(auto, using(crate::proofs::Foreign::other_answer))]
fn answer_again(
    core: &mut Core<'_>,
    hart: u32,
    request: Request,
    reply: Reply,
) -> Result<(), FinishFault>
    requires hart { hart < core.old.harts }
    requires width { IsRequest request }
    ensures core { OnOk result (core.new ≡ record core.old {
      shared = core.new.shared;
      history = Entry.Asked hart request reply ∷ core.old.history;
    }) }
    ensures text { OnOk result (text_bytes core.new.shared.ram.text
        ≡ text_of (replayed (starting_memory core.old.program core.old.start) core.new.history)) }
    ensures err { IfErr result (IfForeign (reply ≢ reply_after (common_of core.old) hart request)) }
{
    let answer = match core.ask(hart, request) {
        Ok(answer) => answer,
        Err(_) => return Err(FinishFault::Memory),
    };
    if !is_same_reply(answer, reply) {
        return Err(FinishFault::Foreign);
    }
    Ok(())
}

/// The next of a seat's exchanges, which is to be this request with this reply.
pub(crate) fn next_exchange(
    seat: &Seat<'_>,
    next: usize,
    request: Request,
    reply: Reply,
) -> Result<Exchange, FinishFault>
    ensures room { OnOk result (next + 1 < 2 ^ 64) }
    ensures there { IfOk result (λ exchange. slice_get (reverse seat.now.exchanges) next ≡ Some exchange) }
    ensures asked { IfOk result (λ exchange. exchange.request ≡ request) }
    ensures told { IfOk result (λ exchange. exchange.reply ≡ reply) }
    ensures err { IfErr result (IfForeign (IsNotNext seat.now.exchanges next request reply)) }
{
    let exchanges = seat.exchanges();
    if next >= exchanges.len() {
        return Err(FinishFault::Foreign);
    }
    let exchange = exchanges[next];
    if !is_same_request(exchange.request, request) {
        return Err(FinishFault::Foreign);
    }
    if !is_same_reply(exchange.reply, reply) {
        return Err(FinishFault::Foreign);
    }
    Ok(exchange)
}

/// Makes the next of a seat's exchanges again, which is to be this request with this reply.
pub(crate) fn make_again(
    core: &mut Core<'_>,
    seat: &Seat<'_>,
    follower: &mut Follower,
    request: Request,
    reply: Reply,
) -> Result<(), FinishFault>
    requires { seat.now.hart < core.old.harts }
    ensures ok { OnOk result (MakesAgain core.old core.new seat.now follower.old follower.new request reply) }
    ensures err { IfErr result (IfForeign (CannotMake core.old seat.now follower.old request reply)) }
{
    let exchange = next_exchange(seat, follower.next, request, reply)?;
    go_on(&mut follower.state, &follower.copy, exchange.steps)?;
    let instr = asked(&mut follower.state, &follower.copy, request)?;
    answer_again(core, seat.hart(), request, reply)?;
    resume(&mut follower.state, instr, reply);
    renew_after(&mut follower.copy, request, core.text());
    follower.next += 1;
    Ok(())
}

/// Makes an entry of a core's history again: a request by the seat of its hart.
pub(crate) fn follow(
    core: &mut Core<'_>,
    seats: &[Seat<'_>],
    followers: &mut [Follower],
    entry: Entry,
) -> Result<(), FinishFault>
    requires paired { ArePaired core.old.harts seats.now followers.old }
    requires below { AreBelow core.old.harts (entry ∷ []) }
    ensures ok { OnOk result (IsFollowed core.old core.new seats.now followers.old followers.new entry) }
    ensures err { IfErr result (IfForeign (CannotFollow core.old seats.now followers.old entry)) }
{
    match entry {
        Entry::Asked {
            hart,
            request,
            reply,
        } => {
            let place = hart as usize;
            make_again(core, &seats[place], &mut followers[place], request, reply)
        }
        Entry::Evicted { line } => follow_eviction(core, line),
    }
}

/// Evicts a line again.
fn follow_eviction(core: &mut Core<'_>, line: u32) -> Result<(), FinishFault>
    ensures ok { OnOk result (core.new ≡ record core.old {
      shared = core.new.shared;
      history = Entry.Evicted line ∷ core.old.history;
    }) }
    ensures err { IfErr result (λ fault. fault ≡ FinishFault.Memory) }
{
    match serve_evict(core, line) {
        Ok(()) => Ok(()),
        Err(_) => Err(FinishFault::Memory),
    }
}
