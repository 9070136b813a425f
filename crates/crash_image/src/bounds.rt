//! Between which numbers of stores each line may stand, by one pass over the events.
//!
//! The events are read from the newest back. The floor of a line is then the number of stores before the first
//! clean that is met of a hart whose fence was met before, so no list of pending cleans is kept.

ghost use Rattle.crash_image.specs.Bounds.{Allows, IsOrdered, numbers_of, product_of, stored_bounds};
ghost use Rattle.crash_image.specs.FloorScan.{AreTallies, IsFree, bounds_from, cleaned_by, stored};
ghost use Rattle.crash_image.specs.View.{NamesLine};
ghost use Rattle.store_trace.specs.declared.crash_model.step.PersistenceStep.{PersistenceStep};
ghost use Rattle.store_trace.specs.History.{history, steps_of};
ghost use Rattle.store_trace.specs.TraceView.{IsEvent};
ghost use Rattle.std.specs.Prelude.{◌≡◌, ℕ, ◌<◌, ◌≤◌, ◌+◌, ◌%◌, ◌^◌, ◌++◌, List, length, map, replicate, unwrap_or, slice_index_or, slice_set, ◌↔◌, All, IfOk, IfSome, IsNone, IsTrue};
ghost use Rattle.crash_image.specs.declared.bounds.Tally.{Tally as ATally};
ghost use Rattle.crash_image.specs.declared.bounds.LineBounds.{LineBounds as OneLine};

use std::alloc::{AllocError, Global};
use store_trace::{Event, MAX_CUTS, MAX_HARTS};

/// A stored line: at least its first `floor` stores are in the medium, and at most all its `stores`.
#[derive(Clone, Copy)]
pub struct LineBounds {
    pub line: u32,
    pub floor: u32,
    pub stores: u32,
}

impl LineBounds {
    /// Whether the entry is of this line, with a number within its bounds.
    pub fn allows(&self, entry: (u32, u32)) -> bool
        ensures { IsTrue result ↔ Allows self.now entry }
    {
        entry.0 == self.line && self.floor <= entry.1 && entry.1 <= self.stores
    }

    /// The line with one of its numbers: the one at `place`, counted round from the floor.
    pub fn entry(&self, place: u64) -> (u32, u32)
        requires { IsOrdered self.now }
        ensures { result ≡ (self.now.line, self.now.floor + place % numbers_of self.now) }
    {
        (self.line, self.floor + (place % self.numbers()) as u32)
    }

    /// At how many numbers of its stores the line can stand.
    pub fn numbers(&self) -> u64
        requires { IsOrdered self.now }
        ensures value { result ≡ numbers_of self.now }
        ensures some { 0 < result }
        ensures small { result ≤ 2 ^ 32 }
    {
        u64::from(self.stores - self.floor) + 1
    }
}

/// What is known of a line while the events are read from the newest back.
#[derive(Clone, Copy)]
struct Tally {
    /// The stores read so far.
    stores: u32,
    /// How many of them are newer than the newest clean that a fence completed, once it was read.
    free: Option<u32>,
}

impl Tally {
    fn stored(&mut self)
        requires { self.old.stores < 65536 }
        ensures { self.new ≡ stored self.old }
    {
        self.stores += 1;
    }

    fn cleaned(&mut self, fenced: bool)
        ensures { self.new ≡ cleaned_by fenced self.old }
    {
        if fenced {
            self.free = Some(self.free.unwrap_or(self.stores));
        }
    }
}

/// The bounds of the stored lines, upwards, among the first `lines` lines.
pub fn line_bounds(
    alloc: Global,
    events: &[Event],
    lines: u32,
) -> Result<Vec<LineBounds>, AllocError>
    requires events { All IsEvent events.now }
    requires named { All (NamesLine lines) events.now }
    requires limit { length events.now ≤ 65536 }
    ensures { IfOk result (λ found. found.items ≡ stored_bounds (history events.now)) }
{
    let mut tallies = no_tallies(alloc, lines)?;
    let mut fenced = [false; MAX_HARTS];
    for at in (0..events.len()).rev() {
        scan_back_over(&mut tallies, &mut fenced, events[at]);
    }
    stored_lines(alloc, &tallies)
}

fn no_tallies(alloc: Global, lines: u32) -> Result<Vec<Tally>, AllocError>
    ensures { IfOk result (λ made. made.items ≡ replicate lines (record { stores = 0; free = None })) }
{
    let mut tallies = Vec::new(alloc);
    let none = Tally {
        stores: 0,
        free: None,
    };
    tallies.resize(lines as usize, none)?;
    Ok(tallies)
}

/// Takes the tallies one event further back.
fn scan_back_over(tallies: &mut [Tally], fenced: &mut [bool; MAX_HARTS], event: Event)
    requires event { IsEvent event }
    requires named { NamesLine (length tallies.old) event }
    requires few { (l : ℕ) (d : ATally) → l < length tallies.old →
        (slice_index_or tallies.old l d).stores < 65536 }
    ensures { (whole rest : List PersistenceStep) (left : ℕ) →
        AreTallies whole (steps_of event ++ rest) (left + 1) fenced.old tallies.old →
        AreTallies whole rest left fenced.new tallies.new }
{
    match event {
        Event::Store { line, .. } => tallies[line as usize].stored(),
        Event::Clean { hart, line } => tallies[line as usize].cleaned(fenced[hart as usize]),
        Event::Fence { hart } => fenced[hart as usize] = true,
        Event::Begin { .. } | Event::End { .. } => {}
    }
}

/// The bounds of the lines with a store.
fn stored_lines(alloc: Global, tallies: &[Tally]) -> Result<Vec<LineBounds>, AllocError>
    requires few { length tallies.now < 2 ^ 32 }
    requires within { (l : ℕ) (d : ATally) → l < length tallies.now →
        unwrap_or (slice_index_or tallies.now l d).free (slice_index_or tallies.now l d).stores
        ≤ (slice_index_or tallies.now l d).stores }
    ensures { IfOk result (λ found. found.items ≡ bounds_from 0 tallies.now) }
{
    let mut found = Vec::new(alloc);
    for (line, tally) in tallies.iter().enumerate() {
        if tally.stores > 0 {
            found.push(LineBounds {
                line: line as u32,
                floor: tally.stores - tally.free.unwrap_or(tally.stores),
                stores: tally.stores,
            })?;
        }
    }
    Ok(found)
}

/// In how many ways the lines can stand together. None exactly above 65,536.
#[tactic(auto, using(crate::proofs::Counting::product_next, crate::proofs::Counting::product_above))]
pub fn product(bounds: &[LineBounds]) -> Option<u32>
    requires { All IsOrdered bounds.now }
    ensures some { IfSome result (λ count. (count ≡ product_of bounds.now) × (count ≤ 65536)) }
    ensures none { IsNone result ↔ (65536 < product_of bounds.now) }
{
    let mut count = 1;
    for line in bounds {
        count *= line.numbers();
        if count > MAX_CUTS {
            return None;
        }
    }
    Some(count as u32)
}

/// Each line with its floor.
pub fn floors(alloc: Global, bounds: &[LineBounds]) -> Result<Vec<(u32, u32)>, AllocError>
    ensures { IfOk result (λ found. found.items ≡ map (λ (b : OneLine). (b.line, b.floor)) bounds.now) }
{
    bounds
        .iter()
        .map(|line| (line.line, line.floor))
        .collect(alloc)
}
