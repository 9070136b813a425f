//! Programs of a few words, and machines that run them over 512 lines of zeros.

use line_memory::Medium;
use machine::{Machine, Schedule, StepFault};
use program::{Object, Program, load};
use std::alloc::{AllocError, Global};
use store_trace::Trace;

/// `addi x5, x0, 7`; `lui x6, 0x40000`; `sd x5, 0(x6)`; `cbo.clean (x6)`; `fence w, w`; `addi x17, x0, 93`;
/// `addi x10, x0, 0`; `ecall`.
pub(crate) const FIRST_RUN: [u32; 8] = [
    0x00700293, 0x40000337, 0x00533023, 0x0013200f, 0x0110000f, 0x05d00893, 0x00000513, 0x00000073,
];

/// `addi x5, x0, 1`; `addi x6, x11, 320`; `sd x5, 0(x6)`; `addi x5, x5, 1`; `sd x5, 0(x6)`; `cbo.clean (x6)`;
/// `addi x5, x5, 1`; `sd x5, 0(x6)`; `fence w, w`.
pub(crate) const TWO_IMAGES: [u32; 9] = [
    0x00100293, 0x14058313, 0x00533023, 0x00128293, 0x00533023, 0x0013200f, 0x00128293, 0x00533023,
    FENCE,
];

/// Stores of 1 and 2 to line 0 and of 3 and 4 to line 1, in turn, and loads of both: `addi x5, x0, 1`; `sd x5, 0(x11)`;
/// `addi x5, x0, 3`; `sd x5, 64(x11)`; `addi x5, x0, 2`; `sd x5, 0(x11)`; `addi x5, x0, 4`; `sd x5, 64(x11)`;
/// `ld x6, 0(x11)`; `ld x7, 64(x11)`.
pub(crate) const TWO_LINES: [u32; 10] = [
    0x00100293, 0x0055b023, 0x00300293, 0x0455b023, 0x00200293, 0x0055b023, 0x00400293, 0x0455b023,
    0x0005b303, 0x0405b383,
];

/// An entry of three stores to line 5, and a store of its log's tail to line 1: `addi x5, x0, 7`; `addi x6, x11, 320`;
/// `addi x7, x11, 64`; `sd x5, 0(x6)`; `sd x5, 8(x6)`; `sd x5, 16(x6)`; `cbo.clean (x6)`; `fence w, w`;
/// `addi x5, x5, 1`; `sd x5, 0(x7)`; `cbo.clean (x7)`; `fence w, w`.
pub(crate) const ENTRY_AND_TAIL: [u32; 12] = [
    0x00700293, 0x14058313, 0x04058393, 0x00533023, 0x00533423, 0x00533823, 0x0013200f, FENCE,
    0x00128293, 0x0053b023, 0x0013a00f, FENCE,
];

/// `fence w, w`; `jal x0, .-4`.
pub(crate) const FENCES: [u32; 2] = [FENCE, 0xffdff06f];

pub(crate) const FENCE: u32 = 0x0110_000f;

/// The bytes of words, the least significant of each first.
fn bytes_of(alloc: Global, words: &[u32]) -> Result<Vec<u8>, AllocError> {
    let mut bytes = Vec::new(alloc);
    for word in words {
        bytes.extend_from_slice(&word.to_le_bytes())?;
    }
    Ok(bytes)
}

pub(crate) fn program_of(alloc: Global, words: &[u32]) -> Option<Program> {
    let text = bytes_of(alloc, words).ok()?;
    if text.len() % 4 == 0 && text.len() <= 65_536 {
        load(Object::new(text, Vec::new(alloc))).ok()
    } else {
        None
    }
}

/// A program, and 512 lines of zeros for it.
pub(crate) fn start_of(alloc: Global, words: &[u32]) -> Option<(Program, Medium)> {
    let program = program_of(alloc, words)?;
    let medium = Medium::zero(alloc, 512).ok()?;
    Some((program, medium))
}

pub(crate) fn machine_of(
    alloc: Global,
    words: &[u32],
    harts: u32,
    capacity: u32,
) -> Result<Machine, StepFault> {
    match start_of(alloc, words) {
        Some((program, medium)) => Machine::new(alloc, program, medium, harts, capacity),
        None => Err(StepFault::Memory),
    }
}

/// What a power cut leaves of a run, beside its trace; None where a step is refused.
pub(crate) fn left_by(
    alloc: Global,
    words: &[u32],
    harts: u32,
    capacity: u32,
    schedule: &Schedule,
) -> Option<(Medium, Trace)> {
    let mut machine = machine_of(alloc, words, harts, capacity).ok()?;
    machine.run(schedule).ok()?;
    Some(machine.power_cut())
}

/// The first doubleword of a line; None where there is no such line.
pub(crate) fn first_of_line(medium: &Medium, line: u32) -> Option<u64> {
    if line < medium.lines() {
        Some(medium.load(64 * line, 8))
    } else {
        None
    }
}

pub(crate) fn is_written_so(alloc: Global, schedule: &Schedule, text: &str) -> bool {
    match schedule.write(alloc) {
        Ok(written) => written.as_str() == text,
        Err(_) => false,
    }
}
