//! What the index keeps of one line: its stores, and the fences at which its floor rises.

ghost use Rattle.crash_image.specs.Lines.{AreBefore, FitsLine, IsPlace, bytes_before, floor_before, raise_event, raised_to, store_event, unstored, with_store};
ghost use Rattle.store_trace.specs.TraceView.{IsWidth};
ghost use Rattle.word_bits.specs.Bytes.{stored};
ghost use Rattle.std.specs.Prelude.{◌≡◌, ℕ, ◌<◌, ◌≤◌, ◌%◌, length, IfOk, IsTrue, OnOk};

use line_memory::store_bytes;
use std::alloc::{AllocError, Global};
use std::marker::Model;

/// One store of a line.
#[derive(Clone, Copy)]
pub struct StoredLine {
    /// The place of its event in the trace.
    pub event: u32,
    /// The bytes of the line after the store.
    pub bytes: [u8; 64],
}

/// A store of the low `width` bytes of `value`, by the event at this place of the trace.
#[derive(Clone, Copy)]
pub struct Stored {
    pub event: u32,
    pub offset: u8,
    pub width: u8,
    pub value: u64,
}

/// A fence that raised the floor of a line.
#[derive(Clone, Copy)]
pub struct Raise {
    /// The place of its event in the trace.
    pub event: u32,
    /// The floor after it.
    pub floor: u32,
}

/// The stores of a line, and the raises of its floor, the oldest first.
///
/// A contract sees the two lists.
#[derive(Drop)]
pub struct LineIndex {
    stores: Vec<StoredLine>,
    raises: Vec<Raise>,
    /// The place of the last of all their events, by which most moments need no search.
    last: u32,
    /// The floor behind it.
    floor: u32,
}

impl Model for LineIndex {
    ghost use Rattle.crash_image.specs.Lines.{AreBefore, LineView, last_floor};
    ghost use Rattle.std.specs.Prelude.{◌≡◌, ◌+◌};

    ghost Value = { LineView };

    ghost view = { λ i. record { stores = i.stores.items; raises = i.raises.items } };

    ghost invariant = { λ i. AreBefore (record { stores = i.stores.items; raises = i.raises.items }) (i.last + 1) × (i.floor ≡ last_floor i.raises.items) };
}

impl LineIndex {
    /// A line before the first event. Empty lists take no memory.
    pub fn new(alloc: Global) -> LineIndex
        ensures { result ≡ unstored }
    {
        LineIndex {
            stores: Vec::new(alloc),
            raises: Vec::new(alloc),
            last: 0,
            floor: 0,
        }
    }

    /// Adds a store. The line started with `start`.
    pub fn store(&mut self, start: &[u8; 64], store: Stored) -> Result<(), AllocError>
        requires { FitsLine store }
        ensures stores { OnOk result (self.new.stores ≡ with_store start.now self.old.stores store) }
        ensures raises { self.new.raises ≡ self.old.raises }
    {
        let mut bytes = *bytes_after(start, &self.stores, self.stores.len());
        store_in_line(&mut bytes, store.offset, store.width, store.value);
        let event = store.event;
        self.stores.push(StoredLine { event, bytes })?;
        self.last = self.last.max(event);
        Ok(())
    }

    /// Raises the floor to at least this one, by the fence of the event at this place.
    pub fn raise(&mut self, event: u32, floor: u32) -> Result<(), AllocError>
        ensures stores { self.new.stores ≡ self.old.stores }
        ensures raises { IfOk result (λ _. self.new.raises ≡ raised_to self.old.raises event floor) }
    {
        if floor > self.floor {
            self.raises.push(Raise { event, floor })?;
            self.last = self.last.max(event);
            self.floor = floor;
        }
        Ok(())
    }

    /// How many stores it has.
    pub fn count(&self) -> usize
        ensures { result ≡ length self.now.stores }
    {
        self.stores.len()
    }

    /// Whether all of them are of events before the moment, as mostly.
    #[inline(always)]
    fn are_before(&self, moment: u32) -> bool
        ensures { IsTrue result → AreBefore self.now moment }
    {
        self.last < moment
    }

    /// How many of the stores are of events before the moment.
    #[inline(always)]
    pub fn stores_at(&self, moment: u32) -> usize
        ensures within { result ≤ length self.now.stores }
        ensures place { (count : ℕ) → IsPlace store_event self.now.stores moment count → result ≡ count }
    {
        if self.are_before(moment) {
            self.stores.len()
        } else {
            stores_before(&self.stores, moment)
        }
    }

    /// The floor after those raises that are of events before the moment.
    #[inline(always)]
    pub fn floor_at(&self, moment: u32) -> u32
        ensures { (count : ℕ) → IsPlace raise_event self.now.raises moment count → result ≡ floor_before self.now.raises count }
    {
        if self.are_before(moment) {
            self.floor
        } else {
            floor_after(&self.raises, raises_before(&self.raises, moment))
        }
    }

    /// The bytes after the first `count` stores, of a line that started with `start`.
    #[inline(always)]
    pub fn bytes<'a>(&'a self, start: &'a [u8; 64], count: usize) -> &'a [u8; 64]
        requires { count ≤ length self.now.stores }
        ensures { result.now ≡ bytes_before start.now self.now.stores count }
    {
        bytes_after(start, &self.stores, count)
    }
}

/// Writes the low `width` bytes of `value` at the `offset` of a line's bytes.
#[tactic(auto, using(crate::proofs::Steps::aligned_fits))]
fn store_in_line(bytes: &mut [u8; 64], offset: u8, width: u8, value: u64)
    requires width { IsWidth width }
    requires aligned { offset % width ≡ 0 }
    requires offset { offset < 64 }
    ensures { bytes.new ≡ stored bytes.old offset width value }
{
    store_bytes(bytes, offset as usize, width as usize, value);
}

/// How many of the stores are of events before the moment.
#[inline(always)]
fn stores_before(stores: &[StoredLine], moment: u32) -> usize
    ensures within { result ≤ length stores.now }
    ensures place { (count : ℕ) → IsPlace store_event stores.now moment count → result ≡ count }
{
    stores.partition_point(|store| store.event < moment)
}

/// How many of the raises are of events before the moment.
#[inline(always)]
fn raises_before(raises: &[Raise], moment: u32) -> usize
    ensures within { result ≤ length raises.now }
    ensures place { (count : ℕ) → IsPlace raise_event raises.now moment count → result ≡ count }
{
    raises.partition_point(|raise| raise.event < moment)
}

/// The floor after the first `count` raises.
#[inline(always)]
fn floor_after(raises: &[Raise], count: usize) -> u32
    requires { count ≤ length raises.now }
    ensures { result ≡ floor_before raises.now count }
{
    if count == 0 {
        0
    } else {
        raises[count - 1].floor
    }
}

/// The bytes after the first `count` stores, of a line that started with `start`.
#[inline(always)]
fn bytes_after<'a>(start: &'a [u8; 64], stores: &'a [StoredLine], count: usize) -> &'a [u8; 64]
    requires { count ≤ length stores.now }
    ensures { result.now ≡ bytes_before start.now stores.now count }
{
    if count == 0 {
        start
    } else {
        &stores[count - 1].bytes
    }
}
