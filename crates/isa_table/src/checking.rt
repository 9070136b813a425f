//! The check of an instruction's operands.

ghost use Rattle.isa_table.specs.Ranges.{FitsBits, HasEvenDistance, HasShiftInRange, IsChecked, IsEven, IsInRange};
ghost use Rattle.std.specs.Prelude.{◌≡◌, ◌↔◌, ◌≤◌, ◌<◌, IfOk, IsOk, IsTrue};

use crate::fault::FieldFault;
use crate::instruction::Instr;

impl Instr {
    /// The instruction, where its word can hold its operands; else the first fault that it has, of
    /// the range of an immediate, an odd distance, and the range of a shift.
    pub fn check(self) -> Result<Instr, FieldFault>
        ensures value { IfOk result (λ i. i ≡ self) }
        ensures ok { IsOk result ↔ IsChecked self }
        ensures range { (result ≡ Err FieldFault.ImmediateOutOfRange) ↔ (¬ IsInRange self) }
        ensures odd { (result ≡ Err FieldFault.OddOffset) ↔ (IsInRange self × ¬ HasEvenDistance self) }
        ensures shift { (result ≡ Err FieldFault.ShiftOutOfRange)
            ↔ (IsInRange self × HasEvenDistance self × ¬ HasShiftInRange self) }
    {
        if !is_in_range(self) {
            return Err(FieldFault::ImmediateOutOfRange);
        }
        if !has_even_distance(self) {
            return Err(FieldFault::OddOffset);
        }
        if !has_shift_in_range(self) {
            return Err(FieldFault::ShiftOutOfRange);
        }
        Ok(self)
    }
}

fn is_in_range(instr: Instr) -> bool
    ensures { IsTrue result ↔ IsInRange instr }
{
    match instr {
        Instr::Upper { immediate, .. } => immediate < 1 << 20,
        Instr::Jump { distance, .. } => fits_bits(distance, 21),
        Instr::Branch { distance, .. } => fits_bits(distance, 13),
        Instr::JumpRegister { offset, .. } => fits_bits(offset, 12),
        Instr::Load { offset, .. } => fits_bits(offset, 12),
        Instr::Store { offset, .. } => fits_bits(offset, 12),
        Instr::Immediate { immediate, .. } => fits_bits(immediate, 12),
        _ => true,
    }
}

fn fits_bits(z: i32, n: u32) -> bool
    requires { (1 ≤ n) × (n < 32) }
    ensures { IsTrue result ↔ FitsBits n z }
{
    let half: u32 = 1 << (n - 1);
    if z < 0 {
        z.unsigned_abs() <= half
    } else {
        (z as u32) < half
    }
}

fn has_even_distance(instr: Instr) -> bool
    ensures { IsTrue result ↔ HasEvenDistance instr }
{
    match instr {
        Instr::Jump { distance, .. } => is_even(distance),
        Instr::Branch { distance, .. } => is_even(distance),
        _ => true,
    }
}

fn is_even(z: i32) -> bool
    ensures { IsTrue result ↔ IsEven z }
{
    z.unsigned_abs() % 2 == 0
}

fn has_shift_in_range(instr: Instr) -> bool
    ensures { IsTrue result ↔ HasShiftInRange instr }
{
    match instr {
        Instr::Shift { op, amount, .. } => amount < op.bits_shifted(),
        _ => true,
    }
}
