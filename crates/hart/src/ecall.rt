//! ECALL and EBREAK.
//!
//! Source: RISC-V Unprivileged ISA 20191213, chapter 2, "Environment Call and Breakpoints"; the numbers of the calls
//! are this project's, but for that of `exit`, which is Linux's.

ghost use Rattle.std.specs.Prelude.{◌≡◌, ◌%◌};
ghost use Rattle.hart.specs.Effect.{calls, effect, next_pc};
ghost use Rattle.hart.specs.InPlace.{IsKept, need_after};
ghost use Rattle.hart.specs.Requests.{AsksRequest};

use crate::addresses::go_on;
use crate::need::{Advance, Request};
use crate::state::{HartState, Status, Trap};
use isa_table::{Instr, Reg, SystemOp};

const CALL_EXIT: u64 = 93;

const CALL_BEGIN: u64 = 2001;

const CALL_END: u64 = 2002;

/// Register a0, in which a call has its argument.
const ARGUMENT: Reg = Reg { number: 10 };

/// Register a7, in which a call has its number.
const CALL_NUMBER: Reg = Reg { number: 17 };

pub(crate) fn system(state: &mut HartState, op: SystemOp) -> Advance
    ensures effect { need_after state.new result ≡ effect state.old (Instr.System op) }
    ensures request { AsksRequest (need_after state.new result) }
    ensures kept { IsKept result state.old state.new }
{
    let argument = state.registers.get(ARGUMENT);
    let number = state.registers.get(CALL_NUMBER);
    match op {
        SystemOp::Ecall => call(state, number, argument),
        SystemOp::Ebreak => Advance::Stop(Trap::Breakpoint),
    }
}

fn call(state: &mut HartState, number: u64, argument: u64) -> Advance
    ensures effect { need_after state.new result ≡ calls state.old number argument }
    ensures request { AsksRequest (need_after state.new result) }
    ensures kept { IsKept result state.old state.new }
{
    match number {
        CALL_EXIT => exit(state, argument),
        CALL_BEGIN => Advance::Ask(Request::Begin { op: argument }),
        CALL_END => Advance::Ask(Request::End { op: argument }),
        _ => Advance::Stop(Trap::UnknownCall),
    }
}

fn exit(state: &mut HartState, argument: u64) -> Advance
    ensures effect { state.new
        ≡ record state.old { pc = next_pc state.old; status = Status.Exited (argument % 256) } }
    ensures done { result ≡ Advance.Done }
{
    let code = (argument % 256) as u8;
    go_on(state);
    state.status = Status::Exited(code);
    Advance::Done
}
