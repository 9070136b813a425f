//! A hart at its next instruction, and the addresses that an instruction names.

ghost use Rattle.std.specs.Prelude.{◌≡◌, pos, ◌+ℤ◌};
ghost use Rattle.word_bits.specs.Numbers.{wrap};
ghost use Rattle.hart.specs.Effect.{address_of, goes_on, next_pc, place_of, writes};

use crate::state::HartState;
use isa_table::Reg;

/// The address of the instruction after this one.
#[inline(always)]
pub(crate) fn next_pc(state: &HartState) -> u64
    ensures { result ≡ next_pc state.now }
{
    state.pc.wrapping_add(4)
}

/// Goes on to the instruction after this one.
#[inline(always)]
pub(crate) fn go_on(state: &mut HartState)
    ensures { state.new ≡ goes_on state.old }
{
    state.pc = next_pc(state);
}

/// Writes a register and goes on.
#[inline(always)]
pub(crate) fn write_to(state: &mut HartState, reg: Reg, value: u64)
    ensures { state.new ≡ writes state.old reg.number value }
{
    state.registers.set(reg, value);
    go_on(state);
}

/// The address at an offset from the value of a register.
#[inline(always)]
pub(crate) fn address_at(state: &HartState, base: Reg, offset: i32) -> u64
    ensures { result ≡ address_of state.now base offset }
{
    plus(state.registers.get(base), offset)
}

/// The place at a distance from the instruction.
#[inline(always)]
pub(crate) fn place_at(state: &HartState, distance: i32) -> u64
    ensures { result ≡ place_of state.now distance }
{
    plus(state.pc, distance)
}

/// The sum as a register holds it.
#[inline(always)]
pub(crate) fn plus(value: u64, offset: i32) -> u64
    ensures { result ≡ wrap (pos value +ℤ offset) }
{
    value.wrapping_add_signed(i64::from(offset))
}
