//! Programs of a few words, and buses over them and 512 lines of zeros.

ghost use Rattle.std.specs.Prelude.{◌≡◌, IfSome, length};

use bus::{Bus, Seat};
use line_memory::Medium;
use program::{Object, Program, load};
use std::alloc::{AllocError, Global};

/// `addi x5, x0, 7`; `lui x6, 0x40000`; `sd x5, 0(x6)`; `cbo.clean (x6)`; `fence w, w`; `addi x17, x0, 93`;
/// `addi x10, x0, 0`; `ecall`.
pub(crate) const FIRST_RUN: [u32; 8] = [
    0x00700293, 0x40000337, 0x00533023, 0x0013200f, 0x0110000f, 0x05d00893, 0x00000513, 0x00000073,
];

/// `addi x6, x0, 1`; `amoadd.d x5, x6, (x11)`.
pub(crate) const COUNT_ONCE: [u32; 2] = [0x00100313, 0x0065b2af];

/// `addi x5, x0, 1000`; `addi x6, x0, 1`; `amoadd.d x0, x6, (x11)`; `addi x5, x5, -1`; `bne x5, x0, -8`;
/// `addi x17, x0, 93`; `addi x10, x0, 0`; `ecall`.
pub(crate) const COUNT_1000: [u32; 8] = [
    0x3e800293, 0x00100313, 0x0065b02f, 0xfff28293, 0xfe029ce3, 0x05d00893, 0x00000513, 0x00000073,
];

/// `auipc x5, 0`; `addi x5, x5, 28`; `auipc x6, 0`; `addi x6, x6, 32`; `lw x7, 0(x6)`; `sw x7, 0(x5)`; `fence.i`;
/// `addi x10, x0, 1`; `addi x17, x0, 93`; `ecall`; and the word of `addi x10, x0, 2`, which is stored over the one behind
/// the FENCE.I.
pub(crate) const REWRITTEN: [u32; 11] = [
    0x00000297, 0x01c28293, 0x00000317, 0x02030313, 0x00032383, 0x0072a023, 0x0000100f, 0x00100513,
    0x05d00893, 0x00000073, 0x00200513,
];

/// The most steps of a seat's budget.
pub(crate) const BUDGET: u32 = 500_000_000;

/// The bytes of words, the least significant of each first.
fn bytes_of(alloc: Global, words: &[u32]) -> Result<Vec<u8>, AllocError> {
    let mut bytes = Vec::new(alloc);
    for word in words {
        bytes.extend_from_slice(&word.to_le_bytes())?;
    }
    Ok(bytes)
}

pub(crate) fn program_of(alloc: Global, words: &[u32]) -> Option<Program> {
    let text = bytes_of(alloc, words).ok()?;
    if text.len() % 4 == 0 && text.len() <= 65_536 {
        load(Object::new(text, Vec::new(alloc))).ok()
    } else {
        None
    }
}

/// 512 lines of zeros.
pub(crate) fn zeros(alloc: Global) -> Option<Medium> {
    Medium::zero(alloc, 512).ok()
}

/// A bus of so many harts over a program and 512 lines of zeros, and its seats. (What takes it apart borrows it, since each value
/// with a drop that lives over a `?` costs in the proof.)
pub(crate) fn bus_of<'p>(
    alloc: Global,
    program: &'p Program,
    harts: u32,
    budget: u32,
) -> Option<(Bus<'p>, Vec<Seat<'p>>)>
    ensures { IfSome result (λ made. length made.1.items ≡ harts) }
{
    Bus::new(alloc, program, zeros(alloc)?, harts, 512, budget).ok()
}

/// The seats of another such bus.
pub(crate) fn seats_of<'p>(
    alloc: Global,
    program: &'p Program,
    harts: u32,
    budget: u32,
) -> Option<Vec<Seat<'p>>>
    ensures { IfSome result (λ seats. length seats.items ≡ harts) }
{
    let (_bus, seats) = bus_of(alloc, program, harts, budget)?;
    Some(seats)
}

/// A program, and 512 lines of zeros for it.
pub(crate) fn start_of(alloc: Global, words: &[u32]) -> Option<(Program, Medium)> {
    let program = program_of(alloc, words)?;
    Some((program, zeros(alloc)?))
}
