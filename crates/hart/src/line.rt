//! The line that shows a hart.

ghost use Rattle.std.specs.Prelude.{◌≡◌};
ghost use Rattle.hart.specs.HartLines.{trap_number};

use crate::state::{HartState, Registers, Status, Trap};
use isa_table::Reg;
use std::fmt;

impl Trap {
    /// The number that a trap is known by, 1 to 7.
    pub fn number(self) -> u8
        ensures { result ≡ trap_number self }
    {
        match self {
            Trap::NoInstruction => 1,
            Trap::OutsideText => 2,
            Trap::MisalignedTarget => 3,
            Trap::MisalignedAccess => 4,
            Trap::OutsideMemory => 5,
            Trap::UnknownCall => 6,
            Trap::Breakpoint => 7,
        }
    }
}

/// A hart's number and state, shown as `hN STATUS pc=0xH` and then ` xR=0xH` for each register from x1
/// to x31 that isn't zero. STATUS is `running`, `exit C`, or `trap T1` to `trap T7`.
#[derive(Clone, Copy)]
pub struct HartLine {
    pub hart: u32,
    pub state: HartState,
}

impl fmt::Display for HartLine {
    ghost use Rattle.std.specs.Prelude.{Some};
    ghost use Rattle.hart.specs.HartLines.{hart_line};

    ghost output = { λ line. Some (hart_line line.hart line.state) };

    fn fmt<W: fmt::Write>(&self, f: &mut fmt::Formatter<W>) -> fmt::Result {
        let HartLine { hart, state } = *self;
        let HartState {
            registers,
            pc,
            status,
        } = state;
        write!(f, "h{hart} {status} pc=0x{pc:x}{registers}")
    }
}

/// `running`, `exit C`, or `trap T1` to `trap T7`.
impl fmt::Display for Status {
    ghost use Rattle.std.specs.Prelude.{Some};
    ghost use Rattle.hart.specs.HartLines.{status_text};

    ghost output = { λ status. Some (status_text status) };

    fn fmt<W: fmt::Write>(&self, f: &mut fmt::Formatter<W>) -> fmt::Result {
        match self {
            Status::Running => write!(f, "running"),
            Status::Exited(code) => write!(f, "exit {code}"),
            Status::Trapped(trap) => write!(f, "trap T{}", trap.number()),
        }
    }
}

/// ` xR=0xH` for each register from x1 to x31 that isn't zero.
impl fmt::Display for Registers {
    ghost use Rattle.std.specs.Prelude.{Some};
    ghost use Rattle.hart.specs.HartLines.{registers_text};

    ghost output = { λ registers. Some (registers_text registers) };

    #[tactic(auto, using(crate::proofs::RegisterTexts::registers_more))]
    fn fmt<W: fmt::Write>(&self, f: &mut fmt::Formatter<W>) -> fmt::Result {
        for number in 1..32 {
            let value = self.get(Reg { number });
            let register = ShownRegister { number, value };
            write!(f, "{register}")?;
        }
        Ok(())
    }
}

/// One register, as a hart's line shows it.
#[derive(Clone, Copy)]
struct ShownRegister {
    number: u8,
    value: u64,
}

impl fmt::Display for ShownRegister {
    ghost use Rattle.std.specs.Prelude.{Some};
    ghost use Rattle.hart.specs.HartLines.{register_text};

    ghost output = { λ shown. Some (register_text shown.number shown.value) };

    fn fmt<W: fmt::Write>(&self, f: &mut fmt::Formatter<W>) -> fmt::Result {
        if self.value == 0 {
            return Ok(());
        }
        write!(f, " x{}=0x{:x}", self.number, self.value)
    }
}
