//! What a run starts from.

ghost use Rattle.machine.specs.RunValues.{with_room};
ghost use Rattle.std.specs.Prelude.{◌≡◌};

use line_memory::Medium;
use program::Program;

/// What a run starts from.
#[derive(Drop)]
pub struct Setup {
    pub program: Program,
    /// The lines of persistent memory.
    pub medium: Medium,
    /// How many harts there are, one to eight.
    pub harts: u32,
    /// How many lines the cache has room for, 1 to 16,384.
    pub capacity: u32,
}

impl Setup {
    /// With a cache that has room for each line of the medium.
    pub fn with_room(program: Program, medium: Medium, harts: u32) -> Setup
        ensures { result ≡ with_room program medium harts }
    {
        let capacity = medium.lines();
        Setup {
            program,
            medium,
            harts,
            capacity,
        }
    }
}
