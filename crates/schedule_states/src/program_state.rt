//! States of a program.

ghost use Rattle.std.specs.Prelude.{◌≡◌, ◌+◌, ◌*◌};
ghost use Rattle.std.specs.Cmp.Rules.{hashing};
ghost use Rattle.std.proofs.Common.{rules};
ghost use Rattle.schedule_states.specs.Fed.{with_registers};

use crate::mixing::mixed;
use hart::{HartState, Registers};
use isa_table::Reg;
use std::hash::{Hash, Hasher};

/// What a state has of one hart.
#[derive(Clone, Copy, Debug, PartialEq, Eq)]
pub struct HartPart {
    /// The hart, at its next request, or stopped.
    pub state: HartState,
    /// The line of the address space that it has reserved.
    pub reserved: Option<u64>,
    /// The list of held lines that was the memory's when the hart last renewed its copy of the text.
    pub text: u32,
}

/// By its pc, its text and its registers, joined to one word.
impl Hash for HartPart {
    ghost use Rattle.schedule_states.specs.Fed.{part, part_fed};

    ghost hash_input = { part };

    ghost respects_eq = { λ one other same.
        let registers : one.state.registers ≡ other.state.registers = Prim.search (hashing, rules) in
        let pc : one.state.pc ≡ other.state.pc = Prim.search (hashing, rules) in
        let text : one.text ≡ other.text = Prim.search (hashing, rules) in
        λ i. part_fed (registers i) (pc i) (text i) };

    fn hash<H: Hasher>(&self, state: &mut H) {
        let first = mixed(self.state.pc, u64::from(self.text));
        state.write_u64(with_registers(first, &self.state.registers));
    }
}

/// A sum with the registers of a hart.
fn with_registers(sum: u64, registers: &Registers) -> u64
    ensures { result ≡ with_registers sum registers.now 32 }
{
    let mut joined = sum;
    for number in 0..32 {
        joined = mixed(joined, registers.get(Reg { number }));
    }
    joined
}

/// A state of a program, without its past.
#[derive(Drop)]
pub struct ProgramState {
    pub harts: Vec<HartPart>,
    /// The list of the lines that are held.
    pub memory: u32,
}

/// A state by the numbers of its parts.
#[derive(Clone, Copy, Debug, PartialEq, Eq)]
pub struct StateNumbers {
    /// Those of its harts, and zero behind them.
    pub harts: [u32; 8],
    pub memory: u32,
    /// Of what is kept of the operations.
    pub standing: u32,
}

/// By all of them, joined to one word.
impl Hash for StateNumbers {
    ghost use Rattle.schedule_states.specs.Fed.{numbers};

    ghost hash_input = { numbers };

    ghost respects_eq = { Prim.search (hashing, rules) };

    fn hash<H: Hasher>(&self, state: &mut H) {
        let harts = &self.harts;
        let first = mixed(pair(harts[0], harts[1]), pair(harts[2], harts[3]));
        let all = mixed(
            mixed(first, pair(harts[4], harts[5])),
            pair(harts[6], harts[7]),
        );
        state.write_u64(mixed(all, pair(self.memory, self.standing)));
    }
}

/// Two numbers as one.
fn pair(high: u32, low: u32) -> u64
    ensures { result ≡ 4294967296 * high + low }
{
    4_294_967_296 * u64::from(high) + u64::from(low)
}
