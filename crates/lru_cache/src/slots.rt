//! Which line stands in which slot of a cache: the few lines that have one, each its own.

ghost use Rattle.std.specs.Prelude.{◌≡◌, ◌+◌, ◌<◌, ◌≤◌, true, false, length, nat_lt, replicate, IfOk, IfSome, IfNone};
ghost use Rattle.lru_cache.specs.SlotMap.{IsSlotMap, slot_at, line_in, has_slot, no_slots, with_added, with_taken, with_released};

use std::alloc::{AllocError, Global};
use std::marker::Model;

/// Slots numbered from 0, of which each has a line or is free. None is there at first. Room for all is reserved and not
/// written, so that no later call takes memory. No call searches.
#[derive(Drop)]
pub struct Slots {
    most: u32,
    lines: u32,
    /// By line, its slot, or `most` where it has none.
    slot_of: Vec<u32>,
    /// By slot, its line, or `lines` where it is free.
    line_of: Vec<u32>,
    /// The free slots, as a stack.
    free: Vec<u32>,
}

impl Model for Slots {
    ghost use Rattle.lru_cache.specs.SlotMap.{SlotMap, IsTable};
    ghost use Rattle.std.specs.Prelude.{length, vec_capacity};

    ghost Value = { SlotMap };

    ghost view = { λ s. record { most = s.most; slots = s.slot_of.items; lines = s.line_of.items; free = length s.free.items } };

    ghost invariant = { λ s. IsTable s.lines (record { most = s.most; slots = s.slot_of.items; lines = s.line_of.items; free = length s.free.items }) s.free.items
        (vec_capacity s.line_of) (vec_capacity s.free) };
}

#[tactic(auto, using(crate::proofs::Tables::table_steps))]
impl Slots {
    /// No slots of so many lines yet, and room for `most` slots.
    pub fn new(alloc: Global, most: u32, lines: u32) -> Result<Slots, AllocError>
        ensures made { IfOk result (λ s. s ≡ no_slots most lines) }
        ensures sound { IfOk result (λ s. IsSlotMap s) }
    {
        let slot_of = repeated(alloc, most, lines)?;
        let line_of = Vec::with_capacity(alloc, most as usize)?;
        let free = Vec::with_capacity(alloc, most as usize)?;
        Ok(Slots {
            most,
            lines,
            slot_of,
            line_of,
            free,
        })
    }

    /// Whether a slot is free.
    #[inline(always)]
    pub fn has_free(&self) -> bool
        ensures { result ≡ nat_lt 0 self.now.free }
    {
        !self.free.is_empty()
    }

    /// Adds a slot, which is free.
    pub fn add(&mut self)
        requires { length self.old.lines < self.old.most }
        ensures changed { self.new ≡ with_added self.old }
        ensures sound { IsSlotMap self.new }
    {
        let added = self.line_of.len() as u32;
        self.line_of.push_reserved(self.lines);
        self.free.push_reserved(added);
    }

    /// The line's slot, or `None` where it has none.
    #[inline(always)]
    pub fn find(&self, line: u32) -> Option<u32>
        requires { line < length self.now.slots }
        ensures slot { IfSome result (λ slot. slot ≡ slot_at self.now line) }
        ensures held { IfSome result (λ _. has_slot self.now line ≡ true) }
        ensures none { IfNone result (has_slot self.now line ≡ false) }
    {
        let slot = self.slot_of[line as usize];
        if slot < self.most { Some(slot) } else { None }
    }

    /// The slot of a line that has one.
    #[inline(always)]
    pub fn slot_of(&self, line: u32) -> u32
        requires { has_slot self.now line ≡ true }
        ensures { result ≡ slot_at self.now line }
    {
        self.slot_of[line as usize]
    }

    /// The line in a slot, or the number of lines where the slot is free.
    #[inline(always)]
    pub fn line_of(&self, slot: u32) -> u32
        requires { slot < length self.now.lines }
        ensures { result ≡ line_in self.now slot }
    {
        self.line_of[slot as usize]
    }

    /// Gives a line that has no slot a free one, and says which.
    pub fn take(&mut self, line: u32) -> u32
        requires line { line < length self.old.slots }
        requires none { has_slot self.old line ≡ false }
        requires free { 0 < self.old.free }
        ensures below { result < length self.old.lines }
        ensures was_free { line_in self.old result ≡ length self.old.slots }
        ensures changed { self.new ≡ with_taken line result self.old }
        ensures sound { IsSlotMap self.new }
    {
        let Some(slot) = self.free.pop() else {
            unreachable!()
        };
        self.slot_of[line as usize] = slot;
        self.line_of[slot as usize] = line;
        slot
    }

    /// Frees the slot of a line.
    pub fn release(&mut self, line: u32)
        requires held { has_slot self.old line ≡ true }
        requires room { self.old.free + 1 ≤ length self.old.lines }
        ensures changed { self.new ≡ with_released line (slot_at self.old line) self.old }
        ensures sound { IsSlotMap self.new }
    {
        let slot = self.slot_of[line as usize];
        self.slot_of[line as usize] = self.most;
        self.line_of[slot as usize] = self.lines;
        self.free.push_reserved(slot);
    }
}

/// So many times the same number.
fn repeated(alloc: Global, number: u32, times: u32) -> Result<Vec<u32>, AllocError>
    ensures { IfOk result (λ numbers. numbers.items ≡ replicate times number) }
{
    let mut numbers = Vec::new(alloc);
    numbers.resize(times as usize, number)?;
    Ok(numbers)
}
