//! What lists of held lines hold of the medium, each by its number.

ghost use Rattle.std.specs.Prelude.{◌≡◌, ◌<◌, ◌+◌, ◌^◌, Some, [], length, slice_get, IfOk, OnOk};
ghost use Rattle.schedule_states.specs.Media.{AreOnMedium, IsOnMedium};
ghost use Rattle.schedule_states.specs.Numbers.{AreKept};
ghost use Rattle.schedule_states.specs.Sizes.{media_bytes};

use crate::held_lines::{HeldLine, medium_lines};
use crate::memory_lists::MemoryLists;
use crate::parts::Parts;
use std::alloc::{AllocError, Global};
use std::marker::Model;

/// What lists of a search hold of the medium: each such list once, by its number.
#[derive(Drop)]
pub struct MediumLists {
    lists: MemoryLists<'static>,
    /// For each of the first lists of the search, the number of what it holds of the medium.
    numbers: Vec<u32>,
}

impl Model for MediumLists {
    ghost use Rattle.schedule_states.specs.Media.{MediaView};

    ghost Value = { MediaView };

    ghost view = { λ m. record { lists = m.lists; numbers = m.numbers.items } };
}

impl MediumLists {
    /// None.
    pub fn new(alloc: Global) -> MediumLists
        ensures { result ≡ record { lists = []; numbers = [] } }
    {
        MediumLists {
            lists: MemoryLists::new(alloc),
            numbers: Vec::new(alloc),
        }
    }

    /// The list of a number.
    pub fn list(&self, number: u32) -> &[HeldLine]
        requires { number < length self.now.lists }
        ensures { slice_get self.now.lists number ≡ Some result.now }
    {
        self.lists.list(number)
    }

    /// How many bytes they hold.
    pub fn bytes(&self) -> u128
        ensures bytes { result ≡ media_bytes self.now }
        ensures few { result < 2 ^ 73 }
    {
        self.lists.bytes() + 4 * self.numbers.len() as u128
    }

    /// The number of what the list of a number of the search holds of the medium.
    pub fn number_of(
        &mut self,
        alloc: Global,
        parts: &Parts<'_>,
        memory: u32,
    ) -> Result<u32, AllocError>
        requires there { memory < length parts.now.lists }
        requires known { AreOnMedium parts.now self.old }
        ensures known { AreOnMedium parts.now self.new }
        ensures kept { AreKept self.old.lists self.new.lists }
        ensures number { IfOk result (IsOnMedium parts.now self.new.lists memory) }
    {
        self.number_up_to(alloc, parts, memory)?;
        Ok(self.numbers[memory as usize])
    }

    /// Numbers what each list of the search up to this one holds of the medium.
    fn number_up_to(
        &mut self,
        alloc: Global,
        parts: &Parts<'_>,
        last: u32,
    ) -> Result<(), AllocError>
        requires there { last < length parts.now.lists }
        requires known { AreOnMedium parts.now self.old }
        ensures known { AreOnMedium parts.now self.new }
        ensures kept { AreKept self.old.lists self.new.lists }
        ensures there { OnOk result (last < length self.new.numbers) }
    {
        for next in self.numbers.len()..last as usize + 1 {
            self.number_next(alloc, parts, next as u32)?;
        }
        Ok(())
    }

    /// Numbers what the next list of the search holds of the medium.
    fn number_next(&mut self, alloc: Global, parts: &Parts<'_>, next: u32) -> Result<(), AllocError>
        requires next { length self.old.numbers ≡ next }
        requires there { next < length parts.now.lists }
        requires known { AreOnMedium parts.now self.old }
        ensures known { AreOnMedium parts.now self.new }
        ensures kept { AreKept self.old.lists self.new.lists }
        ensures next { OnOk result (length self.new.numbers ≡ next + 1) }
    {
        let lines = medium_lines(alloc, parts.held(next))?;
        let number = self.lists.number_of(lines)?;
        self.numbers.push(number)?;
        Ok(())
    }
}
