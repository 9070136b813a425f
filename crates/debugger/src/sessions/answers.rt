//! The text that answers a command.

ghost use Rattle.std.specs.Prelude.{◌≡◌, ◌<◌, ◌++◌, IfOk, OnOk, codes, string_bytes};
ghost use Rattle.debugger.specs.Answers.{answer_text, bytes_text, changed_register, changed_text, fault_text, further_text, hart_place, hart_text, hart_where, line_of, machine_where, parted_byte, register_line, state_text, stop_place, stop_text, told_text};

use crate::code::plain_place;
use crate::sessions::effects::{Answer, byte_at};
use crate::sessions::help::help_text;
use crate::sessions::lines_at_risk::lines_text;
use crate::{Cause, Code, DebugFault, Debugger};
use hart::{HartLine, HartState};
use isa_table::Reg;
use std::alloc::{AllocError, Global};
use std::fmt::Write;

/// The lines that answer a command which was carried out.
pub(crate) fn answer_text<C: Code>(
    alloc: Global,
    code: &C,
    debugger: &Debugger,
    answer: Answer,
) -> Result<String, AllocError>
    ensures { IfOk result (λ text. string_bytes text ≡ answer_text (C.known code.now) debugger.now.machine answer) }
{
    match answer {
        Answer::Done => String::from_str(alloc, "ok\n"),
        Answer::Hart { hart, after, .. } => hart_text(alloc, hart, after),
        Answer::Stop(cause) => stop_text(alloc, code, cause),
        Answer::Registers(state) => state_text(alloc, &state),
        Answer::Where { hart, pc } => where_text(alloc, code, hart, pc),
        Answer::Bytes { address, count } => bytes_text(alloc, debugger, address, count),
        Answer::Lines => lines_text(alloc, debugger.events()),
        Answer::Help => help_text(alloc),
        Answer::Quit => Ok(String::new(alloc)),
    }
}

/// An answer, with `verbose on` with what is said behind it.
pub(crate) fn told_text<C: Code>(
    alloc: Global,
    code: &C,
    debugger: &Debugger,
    verbose: bool,
    answer: Answer,
) -> Result<String, AllocError>
    ensures { IfOk result (λ text. string_bytes text ≡ told_text verbose (C.known code.now) debugger.now.machine answer) }
{
    let mut text = answer_text(alloc, code, debugger, answer)?;
    if verbose {
        text.push_str(further_text(alloc, code, debugger, answer)?.as_str())?;
    }
    Ok(text)
}

/// Where the hart of a step or of a stop is, and what the step has changed.
fn further_text<C: Code>(
    alloc: Global,
    code: &C,
    debugger: &Debugger,
    answer: Answer,
) -> Result<String, AllocError>
    ensures { IfOk result (λ text. string_bytes text ≡ further_text (C.known code.now) debugger.now.machine answer) }
{
    match answer {
        Answer::Hart {
            hart,
            before,
            after,
        } => step_text(alloc, code, hart, &before, &after),
        Answer::Stop(Cause::Break { hart, .. } | Cause::Watch { hart, .. }) => {
            machine_where(alloc, code, debugger, hart)
        }
        _ => Ok(String::new(alloc)),
    }
}

/// Where a hart of the machine is.
fn machine_where<C: Code>(
    alloc: Global,
    code: &C,
    debugger: &Debugger,
    hart: u32,
) -> Result<String, AllocError>
    ensures { IfOk result (λ text. string_bytes text ≡ machine_where (C.known code.now) debugger.now.machine hart) }
{
    match debugger.regs(hart) {
        Ok(state) => where_text(alloc, code, hart, state.pc),
        Err(_) => Ok(String::new(alloc)),
    }
}

/// Where a hart is after a step, and the registers that the step has changed.
fn step_text<C: Code>(
    alloc: Global,
    code: &C,
    hart: u32,
    before: &HartState,
    after: &HartState,
) -> Result<String, AllocError>
    ensures { IfOk result (λ text. string_bytes text
        ≡ hart_where (C.known code.now) hart after.now ++ changed_text before.now after.now 32) }
{
    let mut text = where_text(alloc, code, hart, after.pc)?;
    for number in 0..32 {
        push_changed(&mut text, before, after, number)?;
    }
    Ok(text)
}

/// Adds a register where it has changed.
fn push_changed(
    text: &mut String,
    before: &HartState,
    after: &HartState,
    number: u8,
) -> Result<(), AllocError>
    requires { number < 32 }
    ensures { OnOk result (string_bytes text.new ≡ string_bytes text.old ++ changed_register before.now after.now number) }
{
    let value = after.registers.get(Reg { number });
    if before.registers.get(Reg { number }) == value {
        return Ok(());
    }
    push_register(text, number, value)
}

/// `fault CODE`.
pub(crate) fn fault_text(alloc: Global, fault: DebugFault) -> Result<String, AllocError>
    ensures { IfOk result (λ text. string_bytes text ≡ fault_text fault) }
{
    format!(in alloc; "fault {}\n", fault.code())
}

#[tactic(auto, unfolding(crate::specs::Answers::hart_text))]
fn hart_text(alloc: Global, hart: u32, state: HartState) -> Result<String, AllocError>
    ensures { IfOk result (λ text. string_bytes text ≡ hart_text hart state) }
{
    format!(in alloc; "{}\n", HartLine { hart, state })
}

fn stop_text<C: Code>(alloc: Global, code: &C, cause: Cause) -> Result<String, AllocError>
    ensures { IfOk result (λ text. string_bytes text ≡ stop_text (C.known code.now) cause) }
{
    match cause {
        Cause::Break { hart, pc } => break_text(alloc, code, hart, pc),
        Cause::Watch { hart, line } => format!(in alloc; "watch h{hart} line=0x{line:x}\n"),
        Cause::End => String::from_str(alloc, "end\n"),
    }
}

/// `break` and where it is.
fn break_text<C: Code>(alloc: Global, code: &C, hart: u32, pc: u64) -> Result<String, AllocError>
    ensures { IfOk result (λ text. string_bytes text ≡ line_of (codes "break " ++ hart_place hart (stop_place (C.known code.now) pc))) }
{
    let place = stop_place(alloc, code, pc)?;
    format!(in alloc; "break h{hart}{place}\n")
}

/// The pc of a stop, with what is known of it where stops are told so.
fn stop_place<C: Code>(alloc: Global, code: &C, pc: u64) -> Result<String, AllocError>
    ensures { IfOk result (λ text. string_bytes text ≡ stop_place (C.known code.now) pc) }
{
    if code.is_placed() {
        code.place_of(alloc, pc)
    } else {
        plain_place(alloc, pc)
    }
}

/// `hN`, and where it is.
fn where_text<C: Code>(alloc: Global, code: &C, hart: u32, pc: u64) -> Result<String, AllocError>
    ensures { IfOk result (λ text. string_bytes text ≡ line_of (hart_place hart ((C.known code.now).place pc))) }
{
    let place = code.place_of(alloc, pc)?;
    format!(in alloc; "h{hart}{place}\n")
}

/// `pc=0xH`, and a line `xN=0xH` for each register.
#[tactic(auto, unfolding(crate::specs::Answers::state_text), using(crate::proofs::Texts::registers_more))]
fn state_text(alloc: Global, state: &HartState) -> Result<String, AllocError>
    ensures { IfOk result (λ text. string_bytes text ≡ state_text state.now) }
{
    let mut text = format!(in alloc; "pc=0x{:x}\n", state.pc)?;
    for number in 0..32 {
        push_register(&mut text, number, state.registers.get(Reg { number }))?;
    }
    Ok(text)
}

fn push_register(text: &mut String, number: u8, value: u64) -> Result<(), AllocError>
    ensures { OnOk result (string_bytes text.new ≡ string_bytes text.old ++ register_line number value) }
{
    write!(text, "x{number}=0x{value:x}\n")
}

/// Bytes as two hexadecimal digits each, with one space between them.
#[tactic(auto, using(crate::proofs::Texts::bytes_more))]
fn bytes_text(
    alloc: Global,
    debugger: &Debugger,
    address: u64,
    count: u64,
) -> Result<String, AllocError>
    ensures { IfOk result (λ text. string_bytes text ≡ bytes_text debugger.now.machine address count) }
{
    let mut text = String::new(alloc);
    for place in 0..count {
        push_byte(&mut text, place, byte_at(debugger, address, place))?;
    }
    text.push('\n')?;
    Ok(text)
}

/// Adds a byte that is there, after a space where it isn't the first.
fn push_byte(text: &mut String, place: u64, byte: Option<u8>) -> Result<(), AllocError>
    ensures { OnOk result (string_bytes text.new ≡ string_bytes text.old ++ parted_byte place byte) }
{
    if place > 0 {
        text.push(' ')?;
    }
    match byte {
        Some(byte) => write!(text, "{:x}{:x}", byte / 16, byte % 16),
        None => Ok(()),
    }
}
