//! Machines at their start, under a debugger.

use debugger::{Debugger, Machine};
use line_memory::Medium;
use program::{Object, Program, load};
use std::alloc::Global;
use std::test::Fail;

/// `addi x5, x0, 7`; `lui x6, 0x40000`; `sd x5, 0(x6)`; `cbo.clean (x6)`; `fence w, w`; `addi x17, x0, 93`;
/// `addi x10, x0, 0`; `ecall`.
pub(crate) const FIRST_RUN: &[u32] = &[
    0x00700293, 0x40000337, 0x00533023, 0x0013200f, 0x0110000f, 0x05d00893, 0x00000513, 0x00000073,
];

/// A debugger of so many harts that run these words, over a medium of 512 lines of zeros.
pub(crate) fn debugger_of(alloc: Global, words: &[u32], harts: u32) -> Result<Debugger, Fail> {
    let program = program_of(alloc, words)?;
    let medium = Medium::zero(alloc, 512)?;
    let machine = Machine::new(alloc, program, medium, harts, 512)?;
    Ok(Debugger::new(machine))
}

/// The program of an object's file, which has these words and no data.
fn program_of(alloc: Global, words: &[u32]) -> Result<Program, Fail> {
    let mut text = Vec::new(alloc);
    for word in words {
        text.extend_from_slice(&word.to_le_bytes())?;
    }
    let mut file = b"RVXPROG1".to_vec(alloc)?;
    file.extend_from_slice(&u32::try_from(text.len())?.to_le_bytes())?;
    file.extend_from_slice(&[0; 4])?;
    file.extend_from_slice(&text)?;
    Ok(load(Object::read(alloc, &file)?)?)
}
