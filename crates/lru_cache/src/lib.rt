//! A write-back cache of lines of 64 bytes, which evicts by recency in eight sets.
//!
//! The medium is lent to each call, and it is the same one each time. Addresses count its bytes from the first line's start.
#![tactic(auto)]

ghost use Rattle.std.specs.Prelude.{◌≡◌, ◌↔◌, ℕ, ◌<◌, ◌≤◌, ◌+◌, ◌*◌, ◌/◌, ◌%◌, ◌==◌, if◌then◌else◌, vec_len, vec_capacity, List, Some, None, Option, true, false, length, slice_index, slice_index_or, slice_set, IfOk, IfErr, IfSome, IfNone};
ghost use Rattle.std.specs.Option.{option_or};
ghost use Rattle.index_list.specs.Lists.{first, last, has};
ghost use Rattle.word_bits.specs.Bytes.{loaded, stored};
ghost use Rattle.line_memory.specs.Lines.{line_at, line_bytes, IsMedium};
ghost use Rattle.line_memory.specs.Memory.{IsWidth, loaded_from, stored_to};
ghost use Rattle.lru_cache.specs.Order.{LineOrders, IsOrdered, marked_in, recent_in, resident_count, set_of, oldest_of_first};
ghost use Rattle.lru_cache.specs.InSlots.{cache_of, IsInSlots, IsBySlot};
ghost use Rattle.lru_cache.specs.SlotMap.{with_added};
ghost use Rattle.lru_cache.specs.Cache.{CacheView, IsCache, IsOver, shown, is_resident, is_dirty, is_marked, is_leaving, victim, empty_cache, after_write_back, after_drop, after_eviction, after_forced, after_use, after_load, after_change, after_mark, after_mark_leaving, written_back, written_by_forced};

use line_memory::{LINE_SIZE, Medium, MediumFault, load_bytes, store_bytes};
use orders::{Orders, SETS};
use slots::Slots;
use std::alloc::Global;
use std::marker::Model;

mod orders;
mod slots;

/// A cache of some lines of a medium. A resident line has a copy here, which loads and stores use in the place of the
/// medium's bytes; it is dirty from its first store until it is written back.
///
/// A line belongs to the set of its number modulo 8. A load or store of a line that isn't resident evicts, where the
/// cache is full, the least recently used line of the line's set, or, where that set has no resident line, of the lowest
/// set that has one. Loads and stores alone are uses.
///
/// After making, no call takes memory, and none searches a list.
#[derive(Drop)]
pub struct Cache {
    capacity: u32,
    resident: u32,
    /// Which slot a resident line has. Of a slot are kept the copy of its line, whether the line leaves, and its orders.
    slots: Slots,
    copies: Vec<[u8; LINE_SIZE]>,
    leaving: Vec<bool>,
    orders: Orders,
}

impl Model for Cache {
    ghost use Rattle.lru_cache.specs.Cache.{CacheView};
    ghost use Rattle.lru_cache.specs.InSlots.{cache_of, IsInSlots, IsBySlot};
    ghost use Rattle.std.specs.Prelude.{vec_len, vec_capacity};

    ghost Value = { CacheView };

    ghost view = { λ c. cache_of c.capacity c.slots c.copies.items c.leaving.items c.orders };

    ghost invariant = { λ c. IsInSlots c.capacity c.resident c.slots c.copies.items c.leaving.items c.orders
        × (IsBySlot c.slots (vec_len c.copies) (vec_capacity c.copies) × IsBySlot c.slots (vec_len c.leaving) (vec_capacity c.leaving)) };
}

impl Cache {
    /// A cache of at most `capacity` lines, one at least, for a medium of `lines` lines. None is resident.
    pub fn new(alloc: Global, capacity: u32, lines: u32) -> Result<Cache, MediumFault>
        requires { 1 ≤ capacity }
        ensures made { IfOk result (λ cache. cache ≡ empty_cache capacity lines) }
        ensures sound { IfOk result (λ cache. IsCache cache) }
        ensures over { IfOk result (λ cache. (medium : List (List ℕ)) → IsMedium medium → length medium ≡ lines → IsOver cache medium) }
        ensures err { IfErr result (λ fault. fault ≡ MediumFault.Memory) }
    {
        let most = capacity.min(lines);
        let slots = Slots::new(alloc, most, lines)?;
        let orders = Orders::new(alloc, most)?;
        let copies = Vec::with_capacity(alloc, most as usize)?;
        let leaving = Vec::with_capacity(alloc, most as usize)?;
        Ok(Cache {
            capacity,
            resident: 0,
            slots,
            copies,
            leaving,
            orders,
        })
    }

    /// The number of the `width` bytes at an address. Its line is resident afterwards, the most recently used of its set.
    #[inline(always)]
    pub fn load(&mut self, medium: &mut Medium, at: u32, width: u32) -> u64
        requires over { IsOver self.old medium.old }
        requires width { IsWidth width }
        requires aligned { at % width ≡ 0 }
        requires there { at < 64 * length medium.old }

        // the value is that of the memory that the cache shows, and the memory shown stays
        ensures line { result ≡ loaded (line_at (shown self.old medium.old) (at / 64)) (at % 64) width }
        ensures bytes { loaded_from (line_bytes (shown self.old medium.old)) at width ≡ Some result }
        ensures shown { shown self.new medium.new ≡ shown self.old medium.old }

        ensures changed { self.new ≡ after_load (at / 64) self.old medium.old }
        ensures medium { medium.new ≡ written_by_forced (victim self.old (at / 64)) self.old medium.old }
        ensures sound { IsCache self.new }
        ensures over { IsOver self.new medium.new }
    {
        let line = at / LINE_SIZE as u32;
        self.make_latest(medium, line);
        load_bytes(
            self.latest_copy(line),
            at as usize % LINE_SIZE,
            width as usize,
        )
    }

    /// Writes the low `width` bytes of `value` at an address, into the copy of its line: that is dirty afterwards, and the
    /// most recently used of its set.
    #[inline(always)]
    pub fn store(&mut self, medium: &mut Medium, at: u32, width: u32, value: u64)
        requires over { IsOver self.old medium.old }
        requires width { IsWidth width }
        requires aligned { at % width ≡ 0 }
        requires there { at < 64 * length medium.old }

        // the memory shown has the value
        ensures line { shown self.new medium.new ≡ slice_set (shown self.old medium.old) (at / 64)
            (stored (line_at (shown self.old medium.old) (at / 64)) (at % 64) width value) }
        ensures bytes { line_bytes (shown self.new medium.new)
            ≡ stored_to (line_bytes (shown self.old medium.old)) at width value }

        ensures changed { self.new ≡ after_change (at / 64)
            (stored (line_at (shown self.old medium.old) (at / 64)) (at % 64) width value)
            (after_load (at / 64) self.old medium.old) }
        ensures medium { medium.new ≡ written_by_forced (victim self.old (at / 64)) self.old medium.old }
        ensures sound { IsCache self.new }
        ensures over { IsOver self.new medium.new }
    {
        let line = at / LINE_SIZE as u32;
        self.make_latest(medium, line);
        self.change(line, at as usize % LINE_SIZE, width as usize, value);
    }

    /// Writes a dirty line's copy to the medium: it stays resident, and is neither dirty nor marked any more. Of another
    /// line nothing changes. This is no use of the line.
    pub fn write_back(&mut self, medium: &mut Medium, line: u32)
        requires over { IsOver self.old medium.old }
        requires there { line < length medium.old }
        ensures shown { shown self.new medium.new ≡ shown self.old medium.old }
        ensures changed { self.new ≡ after_write_back line self.old }
        ensures medium { medium.new ≡ written_back line self.old medium.old }
        ensures clean { is_dirty self.old line ≡ false → medium.new ≡ medium.old }
        ensures written { is_dirty self.new line ≡ false }
        ensures sound { IsCache self.new }
        ensures over { IsOver self.new medium.new }
    {
        if self.is_dirty(line) {
            self.write_dirty(medium, line);
        }
    }

    /// Writes a line back where it is dirty, and drops it. Nothing changes where it isn't resident.
    pub fn evict(&mut self, medium: &mut Medium, line: u32)
        requires over { IsOver self.old medium.old }
        requires there { line < length medium.old }
        ensures shown { shown self.new medium.new ≡ shown self.old medium.old }
        ensures changed { self.new ≡ after_eviction line self.old }
        ensures medium { medium.new ≡ written_back line self.old medium.old }
        ensures clean { is_dirty self.old line ≡ false → medium.new ≡ medium.old }
        ensures sound { IsCache self.new }
        ensures over { IsOver self.new medium.new }
    {
        self.write_back(medium, line);
        self.drop_clean(line);
    }

    /// Drops a line that isn't dirty, where it is resident.
    pub fn drop_clean(&mut self, line: u32)
        requires there { line < self.old.orders.lines }
        requires clean { is_dirty self.old line ≡ false }
        ensures changed { self.new ≡ after_drop line self.old }
        ensures sound { IsCache self.new }
        ensures over { (medium : List (List ℕ)) → IsOver self.old medium → IsOver self.new medium }
        ensures shown { (medium : List (List ℕ)) → IsOver self.old medium → shown self.new medium ≡ shown self.old medium }
    {
        if self.is_resident(line) {
            self.drop_resident(line);
        }
    }

    /// The byte at an address, as a load would find it. Nothing changes.
    pub fn peek(&self, medium: &Medium, at: u32) -> u8
        requires over { IsOver self.now medium.now }
        requires there { at < 64 * length medium.now }
        ensures line { result ≡ slice_index (line_at (shown self.now medium.now) (at / 64)) (at % 64) }
        ensures bytes { line_bytes (shown self.now medium.now) at ≡ Some result }
    {
        let line = at / LINE_SIZE as u32;
        self.shown_line(medium, line)[at as usize % LINE_SIZE]
    }

    /// Whether a line was stored to since it was last written back.
    pub fn is_dirty(&self, line: u32) -> bool
        requires { line < self.now.orders.lines }
        ensures value { result ≡ is_dirty self.now line }
        ensures sound { IsCache self.now }
    {
        match self.slots.find(line) {
            Some(slot) => self.orders.is_dirty(slot),
            None => false,
        }
    }

    /// Whether a line has a copy here.
    #[inline(always)]
    pub fn is_resident(&self, line: u32) -> bool
        requires { line < self.now.orders.lines }
        ensures value { result ≡ is_resident self.now line }
        ensures sound { IsCache self.now }
    {
        self.slots.find(line).is_some()
    }

    /// Marks a dirty line in list `k`, one of eight, until it is written back. A line that is marked there stays in its place.
    pub fn mark(&mut self, k: u32, line: u32)
        requires list { k < 8 }
        requires dirty { is_dirty self.old line ≡ true }
        ensures changed { self.new ≡ after_mark k line self.old }
        ensures sound { IsCache self.new }
        ensures over { (medium : List (List ℕ)) → IsOver self.old medium → IsOver self.new medium }
        ensures shown { (medium : List (List ℕ)) → shown self.new medium ≡ shown self.old medium }
    {
        let slot = self.slots.slot_of(line);
        self.orders.mark(k, slot);
    }

    /// Whether a line is marked in list `k`.
    pub fn is_marked(&self, k: u32, line: u32) -> bool
        requires list { k < 8 }
        requires line { line < self.now.orders.lines }
        ensures value { result ≡ is_marked self.now k line }
        ensures sound { IsCache self.now }
    {
        match self.slots.find(line) {
            Some(slot) => self.orders.is_marked(k, slot),
            None => false,
        }
    }

    /// The line that has been marked in list `k` for longest; `None` where none is.
    pub fn first_marked(&self, k: u32) -> Option<u32>
        requires { k < 8 }
        ensures value { result ≡ first (marked_in self.now.orders k) }
        ensures member { IfSome result (λ line. is_marked self.now k line ≡ true) }
        ensures there { IfSome result (λ line. line < self.now.orders.lines) }
        ensures sound { IsCache self.now }
    {
        match self.orders.first_marked(k) {
            Some(slot) => Some(self.slots.line_of(slot)),
            None => None,
        }
    }

    /// Notes that a dirty line is to leave with its write-back, which its caller makes. The note lasts until then.
    pub fn mark_leaving(&mut self, line: u32)
        requires { is_dirty self.old line ≡ true }
        ensures changed { self.new ≡ after_mark_leaving line self.old }
        ensures sound { IsCache self.new }
        ensures over { (medium : List (List ℕ)) → IsOver self.old medium → IsOver self.new medium }
        ensures shown { (medium : List (List ℕ)) → shown self.new medium ≡ shown self.old medium }
    {
        let slot = self.slots.slot_of(line);
        self.leaving[slot as usize] = true;
    }

    /// Whether that is noted of a line.
    pub fn is_leaving(&self, line: u32) -> bool
        requires { line < self.now.orders.lines }
        ensures value { result ≡ is_leaving self.now line }
        ensures sound { IsCache self.now }
    {
        match self.slots.find(line) {
            Some(slot) => self.leaving[slot as usize],
            None => false,
        }
    }

    /// Makes a line resident, and the most recently used of its set, and is done at once where it is that already.
    #[inline(always)]
    fn make_latest(&mut self, medium: &mut Medium, line: u32)
        requires over { IsOver self.old medium.old }
        requires there { line < length medium.old }
        ensures latest { first (recent_in self.new.orders (set_of line)) ≡ Some line }
        ensures resident { is_resident self.new line ≡ true }
        ensures shown { shown self.new medium.new ≡ shown self.old medium.old }
        ensures changed { self.new ≡ after_load line self.old medium.old }
        ensures medium { medium.new ≡ written_by_forced (victim self.old line) self.old medium.old }
        ensures sound { IsCache self.new }
        ensures over { IsOver self.new medium.new }
    {
        if !self.is_latest(line) {
            self.bring_in(medium, line);
        }
    }

    /// Whether a line is the most recently used of its set. It stands in the set's first slot then.
    #[inline(always)]
    fn is_latest(&self, line: u32) -> bool
        ensures latest { (result ≡ true) ↔ (first (recent_in self.now.orders (set_of line)) ≡ Some line) }
        ensures sound { IsCache self.now }
    {
        match self.orders.latest(line % SETS) {
            Some(slot) => self.slots.line_of(slot) == line,
            None => false,
        }
    }

    /// Makes a line resident, and the most recently used of its set.
    fn bring_in(&mut self, medium: &mut Medium, line: u32)
        requires over { IsOver self.old medium.old }
        requires there { line < length medium.old }
        ensures latest { first (recent_in self.new.orders (set_of line)) ≡ Some line }
        ensures resident { is_resident self.new line ≡ true }
        ensures shown { shown self.new medium.new ≡ shown self.old medium.old }
        ensures changed { self.new ≡ after_load line self.old medium.old }
        ensures medium { medium.new ≡ written_by_forced (victim self.old line) self.old medium.old }
        ensures sound { IsCache self.new }
        ensures over { IsOver self.new medium.new }
    {
        self.make_room(medium, line);
        self.take_in(medium, line);
    }

    /// Evicts the line that a use of `line` evicts, if there is one.
    fn make_room(&mut self, medium: &mut Medium, line: u32)
        requires over { IsOver self.old medium.old }
        requires there { line < length medium.old }
        ensures room { is_resident self.new line ≡ false → resident_count self.new.orders + 1 ≤ self.new.capacity }
        ensures shown { shown self.new medium.new ≡ shown self.old medium.old }
        ensures changed { self.new ≡ after_forced (victim self.old line) self.old }
        ensures medium { medium.new ≡ written_by_forced (victim self.old line) self.old medium.old }
        ensures sound { IsCache self.new }
        ensures over { IsOver self.new medium.new }
    {
        match self.victim(line) {
            Some(victim) => self.evict(medium, victim),
            None => {}
        }
    }

    /// The line that a use of `line` evicts.
    fn victim(&self, line: u32) -> Option<u32>
        requires { line < self.now.orders.lines }
        ensures value { result ≡ victim self.now line }
        ensures resident { IfSome result (λ victim. is_resident self.now victim ≡ true) }
        ensures there { IfSome result (λ victim. victim < self.now.orders.lines) }
        ensures room { IfNone result (is_resident self.now line ≡ false →
            resident_count self.now.orders + 1 ≤ self.now.capacity) }
        ensures sound { IsCache self.now }
    {
        if self.is_resident(line) || self.resident < self.capacity {
            return None;
        }
        match oldest_slot(&self.orders, line % SETS) {
            Some(slot) => Some(self.slots.line_of(slot)),
            None => None,
        }
    }

    /// Makes a line resident, where there is room, and the most recently used of its set.
    fn take_in(&mut self, medium: &Medium, line: u32)
        requires over { IsOver self.old medium.now }
        requires there { line < length medium.now }
        requires room { is_resident self.old line ≡ false → resident_count self.old.orders + 1 ≤ self.old.capacity }
        ensures latest { first (recent_in self.new.orders (set_of line)) ≡ Some line }
        ensures resident { is_resident self.new line ≡ true }
        ensures shown { shown self.new medium.now ≡ shown self.old medium.now }
        ensures changed { self.new ≡ after_use line (line_at (shown self.old medium.now) line) self.old }
        ensures sound { IsCache self.new }
        ensures over { IsOver self.new medium.now }
    {
        if self.is_resident(line) {
            self.note_use(line);
        } else {
            self.fill(line, *medium.read_line(line));
        }
    }

    /// The bytes of a line, as loads show them.
    #[inline(always)]
    fn shown_line<'a>(&'a self, medium: &'a Medium, line: u32) -> &'a [u8; LINE_SIZE]
        requires over { IsOver self.now medium.now }
        requires there { line < length medium.now }
        ensures value { result.now ≡ line_at (shown self.now medium.now) line }
        ensures whole { length result.now ≡ 64 }
        ensures sound { IsCache self.now }
    {
        match self.slots.find(line) {
            Some(slot) => &self.copies[slot as usize],
            None => medium.read_line(line),
        }
    }

    /// The copy of the line that is the most recently used of its set. No look by the line's number is needed.
    #[inline(always)]
    fn latest_copy(&self, line: u32) -> &[u8; LINE_SIZE]
        requires { first (recent_in self.now.orders (set_of line)) ≡ Some line }
        ensures value { slice_index_or self.now.copies line None ≡ Some result.now }
        ensures whole { length result.now ≡ 64 }
    {
        let slot = self.orders.latest_of(line % SETS);
        &self.copies[slot as usize]
    }

    /// Makes a resident line the most recently used of its set.
    fn note_use(&mut self, line: u32)
        requires { is_resident self.old line ≡ true }
        ensures changed { (bytes : List ℕ) → slice_index_or self.old.copies line None ≡ Some bytes →
            self.new ≡ after_use line bytes self.old }
        ensures sound { IsCache self.new }
    {
        let slot = self.slots.slot_of(line);
        self.orders.note_use(line % SETS, slot);
    }

    /// Gives a line that isn't resident a copy. There is room for it.
    fn fill(&mut self, line: u32, bytes: [u8; LINE_SIZE])
        requires there { line < self.old.orders.lines }
        requires absent { is_resident self.old line ≡ false }
        requires room { resident_count self.old.orders + 1 ≤ self.old.capacity }
        requires whole { length bytes ≡ 64 }
        ensures changed { self.new ≡ after_use line bytes self.old }
        ensures sound { IsCache self.new }
    {
        see_free(&mut self.slots, &mut self.copies, &mut self.leaving);
        let slot = self.slots.take(line);
        self.copies[slot as usize] = bytes;
        // the invariant says nothing of the flags of free slots
        self.leaving[slot as usize] = false;
        self.orders.note_use(line % SETS, slot);
        self.resident += 1;
    }

    /// Writes the low `width` bytes of `value` from a place on in the copy of the most recently used line of its set,
    /// which is dirty then.
    fn change(&mut self, line: u32, at: usize, width: usize, value: u64)
        requires latest { first (recent_in self.old.orders (set_of line)) ≡ Some line }
        requires fits { at + width ≤ 64 }
        requires few { width ≤ 8 }
        ensures changed { (bytes : List ℕ) → slice_index_or self.old.copies line None ≡ Some bytes →
            self.new ≡ after_change line (stored bytes at width value) self.old }
        ensures sound { IsCache self.new }
    {
        let slot = self.orders.latest_of(line % SETS);
        store_bytes(&mut self.copies[slot as usize], at, width, value);
        self.orders.note_store(slot);
    }

    /// Writes a dirty line back.
    fn write_dirty(&mut self, medium: &mut Medium, line: u32)
        requires over { IsOver self.old medium.old }
        requires there { line < length medium.old }
        requires dirty { is_dirty self.old line ≡ true }
        ensures shown { shown self.new medium.new ≡ shown self.old medium.old }
        ensures changed { self.new ≡ after_write_back line self.old }
        ensures medium { medium.new ≡ written_back line self.old medium.old }
        ensures written { is_dirty self.new line ≡ false }
        ensures sound { IsCache self.new }
        ensures over { IsOver self.new medium.new }
    {
        let bytes = *self.shown_line(medium, line);
        medium.write_line(line, &bytes);
        self.note_write_back(line);
    }

    /// Notes that a resident line was written back.
    fn note_write_back(&mut self, line: u32)
        requires { is_resident self.old line ≡ true }
        ensures changed { self.new ≡ after_write_back line self.old }
        ensures sound { IsCache self.new }
    {
        let slot = self.slots.slot_of(line);
        self.leaving[slot as usize] = false;
        self.orders.note_write_back(slot);
    }

    /// Drops a resident line that isn't dirty.
    fn drop_resident(&mut self, line: u32)
        requires clean { is_dirty self.old line ≡ false }
        requires resident { is_resident self.old line ≡ true }
        ensures changed { self.new ≡ after_drop line self.old }
        ensures sound { IsCache self.new }
    {
        let slot = self.slots.slot_of(line);
        self.orders.note_drop(line % SETS, slot);
        self.slots.release(line);
        self.resident -= 1;
    }
}

/// A cache that is large enough for every line in use evicts none: a law, with nothing to run.
#[tactic(auto, using(crate::proofs::Counts::no_victim))]
pub fn no_victim_with_room()
    ensures { (cache : CacheView) (used : List ℕ) (line : ℕ) → IsCache cache → length used ≤ cache.capacity →
        ((other : ℕ) → is_resident cache other ≡ true → has other used ≡ true) → has line used ≡ true →
        victim cache line ≡ None }
{}

/// The least recently used slot of a set, or, where that has none, of the lowest set that has one.
fn oldest_slot(orders: &Orders, set: u32) -> Option<u32>
    requires { set < 8 }
    ensures { result ≡ option_or (last (recent_in orders.now set)) (oldest_of_first orders.now.recency) }
{
    match orders.oldest(set) {
        Some(slot) => Some(slot),
        None => lowest_oldest(orders),
    }
}

/// The least recently used slot of the lowest set that has one.
#[tactic(auto, using(crate::proofs::Victims::oldest_steps))]
fn lowest_oldest(orders: &Orders) -> Option<u32>
    requires { IsOrdered orders.now }
    ensures { result ≡ oldest_of_first orders.now.recency }
{
    for set in 0..SETS {
        if let Some(slot) = orders.oldest(set) {
            return Some(slot);
        }
    }
    None
}

/// Makes sure that a slot is free. The cache stays what it is.
#[inline(always)]
fn see_free(slots: &mut Slots, copies: &mut Vec<[u8; LINE_SIZE]>, leaving: &mut Vec<bool>)
    requires room { slots.old.free ≡ 0 → length slots.old.lines < slots.old.most }
    requires copies { IsBySlot slots.old (vec_len copies.old) (vec_capacity copies.old) }
    requires flags { IsBySlot slots.old (vec_len leaving.old) (vec_capacity leaving.old) }
    ensures changed { slots.new ≡ (if slots.old.free == 0 then with_added slots.old else slots.old) }
    ensures tables { IsBySlot slots.new (vec_len copies.new) (vec_capacity copies.new) × IsBySlot slots.new (vec_len leaving.new) (vec_capacity leaving.new) }
    ensures stays { (capacity resident : ℕ) (orders : LineOrders) → IsInSlots capacity resident slots.old copies.old.items leaving.old.items orders →
        IsInSlots capacity resident slots.new copies.new.items leaving.new.items orders
        × (cache_of capacity slots.new copies.new.items leaving.new.items orders ≡ cache_of capacity slots.old copies.old.items leaving.old.items orders) }
{
    if !slots.has_free() {
        add_slot(slots, copies, leaving);
    }
}

/// Adds a slot, which is free. The cache stays what it is.
#[cold]
#[inline(never)]
fn add_slot(slots: &mut Slots, copies: &mut Vec<[u8; LINE_SIZE]>, leaving: &mut Vec<bool>)
    requires room { length slots.old.lines < slots.old.most }
    requires copies { IsBySlot slots.old (vec_len copies.old) (vec_capacity copies.old) }
    requires flags { IsBySlot slots.old (vec_len leaving.old) (vec_capacity leaving.old) }
    ensures changed { slots.new ≡ with_added slots.old }
    ensures tables { IsBySlot slots.new (vec_len copies.new) (vec_capacity copies.new) × IsBySlot slots.new (vec_len leaving.new) (vec_capacity leaving.new) }
    ensures stays { (capacity resident : ℕ) (orders : LineOrders) → IsInSlots capacity resident slots.old copies.old.items leaving.old.items orders →
        IsInSlots capacity resident slots.new copies.new.items leaving.new.items orders
        × (cache_of capacity slots.new copies.new.items leaving.new.items orders ≡ cache_of capacity slots.old copies.old.items leaving.old.items orders) }
{
    slots.add();
    copies.push_reserved([0; LINE_SIZE]);
    leaving.push_reserved(false);
}
