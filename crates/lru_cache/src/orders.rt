//! The orders in which the lines of a cache stand, in one arena: a line's node is the slot that it has.

ghost use Rattle.std.specs.Prelude.{◌≡◌, ℕ, ◌<◌, ◌≤◌, ◌+◌, if◌then◌else◌, List, [], Some, true, false, nat_le, slice_index_or, slice_set, IfOk, IfSome, IsSome};
ghost use Rattle.index_list.specs.Lists.{has, without, first, last, list_of, with_list, IsSound};
ghost use Rattle.lru_cache.specs.Order.{IsOrdered, recent_in, marked_in, list_with, empty_orders, order_after_store, order_after_write_back, order_after_mark};
ghost use Rattle.lru_cache.specs.InSlots.{with_used, with_dropped};

use index_list::Arena;
use std::alloc::{AllocError, Global};
use std::marker::Model;

/// How many sets there are: the lists from 0 on, by recency.
pub const SETS: u32 = 8;
/// The list of the dirty lines.
const DIRTY: usize = SETS as usize;
/// The first of the eight lists of marked lines.
const MARKED: usize = DIRTY + 1;
/// How many lists there are.
const LISTS: usize = MARKED + SETS as usize;

/// Slots by recency in each set, the most recently used first; those of the dirty lines by first store; eight lists of
/// those of marked lines.
#[derive(Drop)]
pub struct Orders {
    arena: Arena<LISTS>,
}

impl Model for Orders {
    ghost use Rattle.index_list.specs.Lists.{IsSound};
    ghost use Rattle.lru_cache.specs.Order.{LineOrders};
    ghost use Rattle.lru_cache.specs.Split.{orders_in};

    ghost Value = { LineOrders };

    ghost view = { λ o. orders_in o.arena };

    ghost invariant = { λ o. IsSound 17 o.arena };
}

#[tactic(auto, using(crate::proofs::Splits::split_steps))]
impl Orders {
    /// Orders of `slots` slots, of which none stands anywhere. All the memory is reserved here.
    pub fn new(alloc: Global, slots: u32) -> Result<Orders, AllocError>
        ensures made { IfOk result (λ o. o ≡ empty_orders slots) }
        ensures sound { IfOk result (λ o. IsOrdered o) }
    {
        let arena = Arena::new(alloc, slots)?;
        Ok(Orders { arena })
    }

    /// The least recently used slot of a set.
    pub fn oldest(&self, set: u32) -> Option<u32>
        requires { set < 8 }
        ensures value { result ≡ last (recent_in self.now set) }
        ensures sound { IsOrdered self.now }
    {
        self.arena.back(set as usize)
    }

    pub fn is_dirty(&self, slot: u32) -> bool
        requires { slot < self.now.lines }
        ensures value { result ≡ has slot self.now.dirty }
        ensures sound { IsOrdered self.now }
    {
        self.arena.contains(DIRTY, slot)
    }

    pub fn is_marked(&self, k: u32, slot: u32) -> bool
        requires list { k < 8 }
        requires slot { slot < self.now.lines }
        ensures value { result ≡ has slot (marked_in self.now k) }
        ensures sound { IsOrdered self.now }
    {
        self.arena.contains(MARKED + k as usize, slot)
    }

    /// The slot that has been marked in list `k` for longest.
    pub fn first_marked(&self, k: u32) -> Option<u32>
        requires { k < 8 }
        ensures value { result ≡ first (marked_in self.now k) }
        ensures member { IfSome result (λ slot. has slot (marked_in self.now k) ≡ true) }
        ensures sound { IsOrdered self.now }
    {
        self.arena.front(MARKED + k as usize)
    }

    /// The most recently used slot of a set.
    #[inline(always)]
    pub fn latest(&self, set: u32) -> Option<u32>
        requires { set < 8 }
        ensures value { result ≡ first (recent_in self.now set) }
        ensures member { IfSome result (λ slot. has slot (recent_in self.now set) ≡ true) }
        ensures below { IfSome result (λ slot. slot < self.now.lines) }
    {
        self.arena.front(set as usize)
    }

    /// The most recently used slot of a set that has one.
    #[inline(always)]
    pub fn latest_of(&self, set: u32) -> u32
        requires set { set < 8 }
        requires some { IsSome (first (recent_in self.now set)) }
        ensures value { Some result ≡ first (recent_in self.now set) }
        ensures member { has result (recent_in self.now set) ≡ true }
    {
        match self.latest(set) {
            Some(slot) => slot,
            None => unreachable!(),
        }
    }

    /// Makes the slot the most recently used of a set.
    #[inline(always)]
    pub fn note_use(&mut self, set: u32, slot: u32)
        requires set { set < 8 }
        requires slot { slot < self.old.lines }
        ensures changed { self.new ≡ with_used set slot self.old }
    {
        let list = set as usize;
        if self.arena.contains(list, slot) {
            self.arena.move_front(list, slot);
        } else {
            self.arena.push_front(list, slot);
        }
    }

    /// Takes the slot out of a set.
    pub fn note_drop(&mut self, set: u32, slot: u32)
        requires set { set < 8 }
        requires slot { has slot (recent_in self.old set) ≡ true }
        ensures changed { self.new ≡ with_dropped set slot self.old }
    {
        self.arena.unlink(set as usize, slot);
    }

    /// Puts the slot last of the dirty ones, unless it was there before.
    pub fn note_store(&mut self, slot: u32)
        requires { slot < self.old.lines }
        ensures changed { self.new ≡ order_after_store slot self.old }
        ensures sound { IsOrdered self.new }
    {
        put_in(&mut self.arena, DIRTY, slot);
    }

    /// Marks the slot in list `k`, the last there unless it was marked before.
    pub fn mark(&mut self, k: u32, slot: u32)
        requires list { k < 8 }
        requires slot { slot < self.old.lines }
        ensures changed { self.new ≡ order_after_mark k slot self.old }
        ensures sound { IsOrdered self.new }
    {
        put_in(&mut self.arena, MARKED + k as usize, slot);
    }

    /// Takes the slot out of the dirty ones and of all eight lists of marked ones.
    pub fn note_write_back(&mut self, slot: u32)
        requires { slot < self.old.lines }
        ensures changed { self.new ≡ order_after_write_back slot self.old }
        ensures sound { IsOrdered self.new }
    {
        take_out_from(&mut self.arena, DIRTY, slot);
    }
}

/// Puts the slot at the end of a list, unless it is there already.
#[tactic(auto, using(crate::proofs::Splits::split_steps))]
fn put_in(arena: &mut Arena<LISTS>, list: usize, slot: u32)
    requires list { list < 17 }
    requires slot { slot < arena.old.nodes }
    ensures changed { arena.new ≡ with_list arena.old list (list_with slot (list_of arena.old list)) }
    ensures was_sound { IsSound 17 arena.old }
    ensures sound { IsSound 17 arena.new }
{
    if !arena.contains(list, slot) {
        arena.push_back(list, slot);
    }
}

/// Takes the slot out of a list, if it is there.
#[tactic(auto, using(crate::proofs::Splits::split_steps))]
fn take_out(arena: &mut Arena<LISTS>, list: usize, slot: u32)
    requires list { list < 17 }
    requires slot { slot < arena.old.nodes }
    ensures changed { arena.new ≡ with_list arena.old list (without slot (list_of arena.old list)) }
    ensures was_sound { IsSound 17 arena.old }
    ensures sound { IsSound 17 arena.new }
{
    if arena.contains(list, slot) {
        arena.unlink(list, slot);
    }
}

/// Takes the slot out of each list from `first` on.
#[tactic(auto, using(crate::proofs::Splits::split_steps))]
fn take_out_from(arena: &mut Arena<LISTS>, first: usize, slot: u32)
    requires list { first < 17 }
    requires slot { slot < arena.old.nodes }
    requires sound { IsSound 17 arena.old }
    ensures nodes { arena.new.nodes ≡ arena.old.nodes }
    ensures changed { (k : ℕ) → list_of arena.new k ≡
        (if nat_le first k then without slot (list_of arena.old k) else list_of arena.old k) }
    ensures sound { IsSound 17 arena.new }
{
    for list in first..LISTS {
        take_out(arena, list, slot);
    }
}
