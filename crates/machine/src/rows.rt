//! Steps of one hart in a row, up to the first that makes an event.

ghost use Rattle.std.specs.Prelude.{◌≡◌, ◌<◌, ◌≤◌, None, Some, false, replicate};
ghost use Rattle.hart.specs.Requests.{IsRequest};
ghost use Rattle.machine.specs.Histories.{is_renewing};
ghost use Rattle.machine.specs.Represents.{RunsBoth, text_bytes};
ghost use Rattle.machine.specs.Rows.{IsAnswer, IsRow, IsRowOf, RunsBeforeEach};

use crate::machine::Machine;
use crate::schedule::Step;
use crate::shared_memory::Shared;
use crate::text_copy::TextCopy;
use hart::{Advance, HartState, Request, Status, advance, resume};
use isa_table::Instr;
use line_memory::PERSISTENT_BASE;

/// Steps of a hart in a row, of which the last one alone may have made an event.
#[derive(Clone, Copy)]
pub(crate) struct Row {
    /// How many they are.
    pub(crate) steps: u32,
    /// The pc that the hart had before the last one, where that has made an event.
    pub(crate) event_pc: Option<u64>,
}

/// Whether a request was answered.
#[derive(Clone, Copy)]
enum Answered {
    /// It was not, and nothing changed.
    Not,
    /// It was, without an event.
    Quietly,
    WithEvent,
}

impl Machine {
    /// Makes the next instructions of a hart in a row: up to and with the first that makes an event, and up to the first that traps by
    /// itself, is a FENCE.I or is refused, but so many at most. A hart that isn't there or has stopped makes none.
    pub(crate) fn make_row(&mut self, hart: u32, most: u32) -> Row
        ensures most { result.steps ≤ most }
        ensures runs { RunsBoth self.old self.new (replicate result.steps (Step.Hart hart)) }
        ensures running { RunsBeforeEach self.old hart result.steps }
        ensures row { IsRowOf self.old hart result.steps result.event_pc self.new }
    {
        if hart >= self.harts() || self.has_stopped(hart) {
            return Row::quiet(0);
        }
        let copy = &self.copies[hart as usize];
        let harts = &mut self.harts;
        let state = &mut harts[hart as usize];
        go_on(state, copy, &mut self.shared, hart, most)
    }

    /// Makes the next instructions of a hart up to the first that traps by itself, is a FENCE.I or is refused, but so many at most,
    /// and says how many they are. A hart that isn't there or has stopped makes none.
    pub(crate) fn make_rows(&mut self, hart: u32, most: u32) -> u32
        ensures most { result ≤ most }
        ensures runs { RunsBoth self.old self.new (replicate result (Step.Hart hart)) }
    {
        let mut made = 0;
        while made < most {
            let row = self.make_row(hart, most - made);
            made += row.steps;
            if row.event_pc.is_none() {
                return made;
            }
        }
        made
    }
}

impl Row {
    /// So many steps, none of which has made an event.
    pub(crate) fn quiet(steps: u32) -> Row
        ensures { result ≡ record { steps = steps; event_pc = None } }
    {
        Row {
            steps,
            event_pc: None,
        }
    }

    /// So many steps, of which the last one has made an event.
    fn ending_at(steps: u32, pc: u64) -> Row
        ensures { result ≡ record { steps = steps; event_pc = Some pc } }
    {
        Row {
            steps,
            event_pc: Some(pc),
        }
    }
}

/// Makes a row of steps of a running hart, so many at most.
#[inline(always)]
fn go_on(state: &mut HartState, copy: &TextCopy, shared: &mut Shared, hart: u32, most: u32) -> Row
    requires running { state.old.status ≡ Status.Running }
    requires few { hart < 8 }
    ensures most { result.steps ≤ most }
    ensures row { IsRow (text_bytes copy.now) hart result.steps result.event_pc state.old state.new shared.old shared.new }
{
    for made in 0..most {
        let pc = state.pc;
        let Ok(instr) = copy.instruction(pc) else {
            return Row::quiet(made);
        };
        match advance(state, instr) {
            Advance::Done => {}
            Advance::Stop(_) => return Row::quiet(made),
            Advance::Ask(request) => match answer(state, shared, hart, instr, request) {
                Answered::Not => return Row::quiet(made),
                Answered::Quietly => {}
                Answered::WithEvent => return Row::ending_at(made + 1, pc),
            },
        }
        match state.status {
            Status::Running => {}
            Status::Exited(_) | Status::Trapped(_) => return Row::quiet(made + 1),
        }
    }
    Row::quiet(most)
}

/// Serves the request of an instruction and tells the hart the reply, unless it is a FENCE.I or is refused. Loads and stores go by the
/// shortest way.
#[inline(always)]
fn answer(
    state: &mut HartState,
    shared: &mut Shared,
    hart: u32,
    instr: Instr,
    request: Request,
) -> Answered
    requires few { hart < 8 }
    requires width { IsRequest request }
    ensures { IsAnswer result hart state.old state.new shared.old shared.new instr request }
{
    let reply = match request {
        Request::Load { address, width } => shared.load(hart, address, width),
        Request::Store {
            address,
            width,
            value,
        } => {
            if address >= PERSISTENT_BASE {
                return serve(state, shared, hart, instr, request);
            }
            shared.store_below(hart, address, width, value)
        }
        _ => return answer_any(state, shared, hart, instr, request),
    };
    resume(state, instr, reply);
    Answered::Quietly
}

/// The same for any request.
fn answer_any(
    state: &mut HartState,
    shared: &mut Shared,
    hart: u32,
    instr: Instr,
    request: Request,
) -> Answered
    requires few { hart < 8 }
    requires width { IsRequest request }
    ensures { IsAnswer result hart state.old state.new shared.old shared.new instr request }
{
    if let Request::FenceI = request {
        return Answered::Not;
    }
    serve(state, shared, hart, instr, request)
}

/// The same for one that is no FENCE.I.
#[inline(always)]
fn serve(
    state: &mut HartState,
    shared: &mut Shared,
    hart: u32,
    instr: Instr,
    request: Request,
) -> Answered
    requires few { hart < 8 }
    requires width { IsRequest request }
    requires kept { is_renewing request ≡ false }
    ensures { IsAnswer result hart state.old state.new shared.old shared.new instr request }
{
    let before = shared.events().len();
    let Ok(reply) = shared.request(hart, request) else {
        return Answered::Not;
    };
    resume(state, instr, reply);
    if shared.events().len() == before {
        Answered::Quietly
    } else {
        Answered::WithEvent
    }
}
