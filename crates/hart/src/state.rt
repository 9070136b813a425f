//! What a hart holds between two instructions: its registers, its pc and its status.

ghost use Rattle.std.specs.Prelude.{◌≡◌, ◌<◌};
ghost use Rattle.hart.specs.Registers.{register, written};

use isa_table::Reg;
use std::marker::Model;

/// Why a hart trapped.
#[derive(Clone, Copy, Debug, PartialEq, Eq)]
pub enum Trap {
    /// T1: the word at pc spells no instruction.
    NoInstruction,
    /// T2: pc is outside the text region.
    OutsideText,
    /// T3: a jump, or a branch that is taken, goes to an address that is no multiple of four.
    MisalignedTarget,
    /// T4: the address of an access is no multiple of its width.
    MisalignedAccess,
    /// T5: the address of an access is in no region.
    OutsideMemory,
    /// T6: an ECALL with a number that names no call.
    UnknownCall,
    /// T7: an EBREAK.
    Breakpoint,
}

/// Whether a hart runs, and else why it stopped.
#[derive(Clone, Copy, Debug, PartialEq, Eq)]
pub enum Status {
    Running,
    /// It exited with this code.
    Exited(u8),
    Trapped(Trap),
}

/// The integer registers x0 to x31.
#[derive(Clone, Copy, Debug, PartialEq, Eq)]
pub struct Registers {
    values: [u64; 32],
}

impl Model for Registers {
    ghost use Rattle.std.specs.Prelude.{◌≡◌, ℕ, List, length};

    ghost Value = { List ℕ };

    ghost view = { λ r. r.values };

    ghost invariant = { λ r. length r.values ≡ 32 };

    ghost inverse = { λ values. record { values = values } };
}

impl Registers {
    ghost use Rattle.hart.specs.Registers.{start_registers};

    /// The registers with which hart `hart` begins: x2, the stack pointer, is 0x20_0000 less 4,096 for each
    /// lower hart, x10 is the hart's number and x11 the base of persistent memory; the others are zero.
    pub fn start(hart: u32) -> Registers
        requires { hart < 8 }
        ensures { result ≡ start_registers hart }
    {
        let mut values = [0; 32];
        values[2] = 0x20_0000 - 4096 * u64::from(hart);
        values[10] = u64::from(hart);
        values[11] = 0x4000_0000;
        Registers { values }
    }

    /// The value of a register; x0 is zero.
    #[inline(always)]
    pub fn get(&self, reg: Reg) -> u64
        ensures { result ≡ register self.now reg.number }
    {
        if reg.number == 0 {
            0
        } else {
            self.values[usize::from(reg.number)]
        }
    }

    /// Writes a register; a write to x0 is dropped.
    #[inline(always)]
    pub fn set(&mut self, reg: Reg, value: u64)
        ensures { self.new ≡ written self.old reg.number value }
    {
        if reg.number != 0 {
            self.values[usize::from(reg.number)] = value;
        }
    }
}

/// A hart's pc, registers and status.
#[derive(Clone, Copy, Debug, PartialEq, Eq)]
pub struct HartState {
    pub pc: u64,
    pub registers: Registers,
    pub status: Status,
}

impl HartState {
    ghost use Rattle.hart.specs.Effect.{start};

    /// The state in which hart `hart`, from 0 to 7, begins: its pc is the base of the text region.
    pub fn start(hart: u32) -> HartState
        requires { hart < 8 }
        ensures { result ≡ start hart }
    {
        HartState {
            pc: 0x1_0000,
            registers: Registers::start(hart),
            status: Status::Running,
        }
    }
}
