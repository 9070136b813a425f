//! What a look finds of the turns from a state.

ghost use Rattle.std.specs.Prelude.{◌<◌};

use crate::held_lines::HeldLine;
use crate::program_state::StateNumbers;
use crate::reached::{Turn, Turns};

/// What a look has found of the turns from a state.
#[derive(Drop)]
pub struct Looked {
    /// Those that lead to states of parts that have numbers.
    pub turns: Turns,
    pub listed: Vec<ListedTurn>,
}

/// The turn of a hart to a state of whose parts the list of held lines alone had no number.
#[derive(Drop)]
pub struct ListedTurn {
    pub hart: u32,
    /// Those of the other parts.
    pub numbers: StateNumbers,
    pub list: Vec<HeldLine>,
    ghost few: { hart < 8 },
}

/// What a look has found of the turn of a hart.
#[derive(Drop)]
pub enum FoundTurn {
    Known(Turn),
    Listed(ListedTurn),
}
