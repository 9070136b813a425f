//! A hart runs ahead: through the steps of its registers alone, up to its next request or to where it stops.

ghost use Rattle.std.specs.Prelude.{◌≡◌, IfNone, IfSome};
ghost use Rattle.bus.specs.Alone.{StepsAlone};
ghost use Rattle.schedule_states.specs.Ahead.{ComesAlone, IsNext};

use hart::{Advance, HartState, Request, Status, Trap, advance};
use isa_table::Instr;
use machine::TextCopy;

/// How many steps a hart makes at most without a request.
pub const MOST_STEPS: u32 = 100_000;

/// A text, from which a hart fetches.
pub trait Text {
    ghost use Rattle.hart.specs.Needs.{IsInstruction};
    ghost use Rattle.line_memory.specs.Memory.{Memory};
    ghost use Rattle.machine.specs.Run.{fetched};

    /// Its bytes, by their addresses.
    ghost bytes: { Self → Memory };

    /// The instruction that the word at `pc` spells, or the trap where there is none.
    fn instruction(&self, pc: u64) -> Result<Instr, Trap>
        ensures { IsInstruction (fetched (bytes self.now) pc) result };
}

impl Text for TextCopy {
    ghost use Rattle.machine.specs.Represents.{text_bytes};

    ghost bytes = { λ t. text_bytes t };

    fn instruction(&self, pc: u64) -> Result<Instr, Trap> {
        TextCopy::instruction(self, pc)
    }
}

/// What is next of a hart.
#[derive(Clone, Copy, Debug, PartialEq, Eq)]
pub enum Next {
    /// Its instruction makes a request.
    Asks(Instr, Request),
    /// Nothing: it has exited or trapped.
    Stopped,
    /// It has made so many steps without a request, and runs.
    TooLong,
}

/// Runs a hart on by the text that it fetches, up to what is next of it.
#[tactic(auto, using(bus::proofs::Agreeing::goes_more))]
pub fn run_ahead<T: Text>(text: &T, hart: &mut HartState) -> Next
    ensures alone { ComesAlone (T.bytes text.now) hart.old hart.new }
    ensures next { IsNext (T.bytes text.now) hart.new result }
{
    for _done in 0..MOST_STEPS {
        if let Some(next) = step_ahead(text, hart) {
            return next;
        }
    }
    Next::TooLong
}

/// What is next of a hart; None where it is a step of its registers alone.
pub fn next_of<T: Text>(text: &T, hart: HartState) -> Option<Next>
    ensures { IfSome result (IsNext (T.bytes text.now) hart) }
{
    let mut trial = hart;
    step_ahead(text, &mut trial)
}

/// Makes a step of the registers alone, and answers None; or what is next, where the hart stays.
#[tactic(auto, using(bus::proofs::Seating::goes_on, bus::proofs::Seating::traps, bus::proofs::Seating::asks))]
fn step_ahead<T: Text>(text: &T, hart: &mut HartState) -> Option<Next>
    ensures made { IfNone result (StepsAlone (T.bytes text.now) hart.old hart.new) }
    ensures same { IfSome result (λ next. hart.new ≡ hart.old) }
    ensures next { IfSome result (λ next. IsNext (T.bytes text.now) hart.new next) }
{
    match hart.status {
        Status::Running => {}
        Status::Exited(_) | Status::Trapped(_) => return Some(Next::Stopped),
    }
    let instr = match text.instruction(hart.pc) {
        Ok(instr) => instr,
        Err(trap) => {
            hart.status = Status::Trapped(trap);
            return None;
        }
    };
    match advance(hart, instr) {
        Advance::Done => None,
        Advance::Ask(request) => Some(Next::Asks(instr, request)),
        Advance::Stop(trap) => {
            hart.status = Status::Trapped(trap);
            None
        }
    }
}
