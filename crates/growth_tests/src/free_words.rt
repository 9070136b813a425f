//! Calls on words, instructions and harts, which take no memory.

use crate::ending::{Refused, ended};
use decode::decode;
use hart::{HartState, Need, Reply, answer, next};
use isa_table::{FieldFault, Instr, encode};
use reservation::Reservations;
use word_bits::{field, replace_bytes, sign_extend};

/// Whether a word's parts are those of `addi x1, x0, 5`, and bytes are written over others.
fn are_parts() -> bool {
    let mut bytes = *b"novacrash";
    replace_bytes(&mut bytes, 4, b"CR");
    field(0x0050_0093, 7, 5) == 1 && sign_extend(0xfff, 12) == u64::MAX && bytes == *b"novaCRash"
}

#[test]
fn word_bits_without_memory(rt: HostRuntime) -> Result<(), Refused> {
    ended(&rt, Ok(are_parts()))
}

/// Whether an instruction's operands fit, and its word is this one.
fn is_encoded(instr: Instr, word: u32) -> bool {
    match instr.check() {
        Ok(checked) => encode(checked) == word,
        Err(_) => false,
    }
}

/// Whether an immediate that is too large is told.
fn is_out_of_range(instr: Instr) -> bool {
    let Instr::Immediate { op, rd, rs1, .. } = instr else {
        return false;
    };
    let beyond = Instr::Immediate {
        op,
        rd,
        rs1,
        immediate: 2_048,
    };
    beyond.check() == Err(FieldFault::ImmediateOutOfRange)
}

fn is_decoded(word: u32) -> bool {
    match decode(word) {
        Some(instr) => is_encoded(instr, word) && is_out_of_range(instr),
        None => false,
    }
}

#[test]
fn instructions_without_memory(rt: HostRuntime) -> Result<(), Refused> {
    ended(&rt, Ok(is_decoded(0x0050_0093)))
}

/// Whether `addi x1, x0, 5` needs nothing, and `ld x5, 0(x11)` goes on with the reply to its request.
fn are_stepped() -> bool {
    let state = HartState::start(0);
    let is_done = match next(&state, Some(0x0050_0093)) {
        Need::Local(after) => after.pc == 0x1_0004,
        _ => false,
    };
    let is_asked = matches!(next(&state, Some(0x0005_b283)), Need::Ask(_));
    let is_answered = match decode(0x0005_b283) {
        Some(load) => answer(&state, load, Reply::Value(7)).pc == 0x1_0004,
        None => false,
    };
    is_done && is_asked && is_answered
}

#[test]
fn harts_without_memory(rt: HostRuntime) -> Result<(), Refused> {
    ended(&rt, Ok(are_stepped()))
}

/// Whether a reservation is there until another hart stores to its line, or it is taken.
fn are_reserved() -> bool {
    let mut reservations = Reservations::new();
    reservations.reserve(0, 3);
    reservations.reserve(1, 3);
    reservations.stored(1, 3);
    let is_first = reservations.take(0, 3);
    let is_second = reservations.take(1, 3);
    !is_first && is_second && !reservations.take(1, 3)
}

#[test]
fn reservations_without_memory(rt: HostRuntime) -> Result<(), Refused> {
    ended(&rt, Ok(are_reserved()))
}
