//! The numbers of the crash model by a plain, slow program over a list of steps, the oldest first.
//!
//! Faster programs are compared with these in tests. Each call looks through the whole list, some once for
//! each step: they are meant for small inputs.

ghost use Rattle.store_trace.specs.Cut.{count_of, cut_count, stored_lines};
ghost use Rattle.store_trace.specs.Floor.{cleaned as cleaned_of, floor as floor_of};
ghost use Rattle.store_trace.specs.Image.{line_after};
ghost use Rattle.store_trace.specs.Stores.{IsInLine, stores as stores_of};
ghost use Rattle.store_trace.specs.WrittenBack.{written_back as written_back_of};
ghost use Rattle.std.specs.Prelude.{◌≡◌, ◌+◌, ◌*◌, ◌^◌, ◌<◌, ◌≤◌, ◌↔◌, length, reverse, take, All, IsNone, IfSome};
ghost use Rattle.word_bits.specs.Bytes.{stored};

use crate::crash_model::PersistenceStep;
use word_bits::replace_bytes;

/// The most cuts that are counted.
pub const MAX_CUTS: u64 = 65_536;

/// The number of stores of `line`.
#[tactic(auto, using(crate::proofs::Product::reverse_take_more))]
pub fn stores(steps: &[PersistenceStep], line: u32) -> u32
    requires { length steps.now < 2 ^ 32 }
    ensures value { result ≡ stores_of line (reverse steps.now) }
    ensures bound { result ≤ length steps.now }
{
    let mut count = 0;
    for step in steps {
        if let PersistenceStep::Store { line: stored, .. } = *step
            && stored == line
        {
            count += 1;
        }
    }
    count
}

/// The floor of `line`: the greatest number of its stores before a clean of a hart that a later fence of
/// the same hart completes, else 0.
#[tactic(auto, using(crate::proofs::Product::reverse_take_more))]
pub fn floor(steps: &[PersistenceStep], line: u32) -> u32
    requires { length steps.now < 2 ^ 32 }
    ensures { result ≡ floor_of line (reverse steps.now) }
{
    let mut floor = 0;
    for (at, step) in steps.iter().enumerate() {
        if let PersistenceStep::Fence { hart } = *step {
            floor = floor.max(cleaned(&steps[..at], line, hart));
        }
    }
    floor
}

/// The number of stores of `line` before the last clean of it by `hart`, else 0.
#[tactic(auto, using(crate::proofs::Product::reverse_take_more))]
fn cleaned(steps: &[PersistenceStep], line: u32, hart: u32) -> u32
    requires { length steps.now < 2 ^ 32 }
    ensures { result ≡ cleaned_of line hart (reverse steps.now) }
{
    let mut before = 0;
    for (at, step) in steps.iter().enumerate() {
        if let PersistenceStep::Clean {
            hart: by,
            line: cleaned,
        } = *step
            && by == hart
            && cleaned == line
        {
            before = stores(&steps[..at], line);
        }
    }
    before
}

/// How many of the first stores of `line` are written back: its stores before its last write-back, or 0.
#[tactic(auto, using(crate::proofs::Product::reverse_take_more))]
pub fn written_back(steps: &[PersistenceStep], line: u32) -> u32
    requires { length steps.now < 2 ^ 32 }
    ensures { result ≡ written_back_of line (reverse steps.now) }
{
    let mut back = 0;
    for (at, step) in steps.iter().enumerate() {
        let before = &steps[..at];
        let writes_back = match *step {
            PersistenceStep::Evict { line: evicted } => evicted == line,
            PersistenceStep::Fence { hart } => back < cleaned(before, line, hart),
            _ => false,
        };
        if writes_back {
            back = stores(before, line);
        }
    }
    back
}

/// The bytes of `line` after its first `count` stores, over its bytes at the start.
#[tactic(auto, using(crate::proofs::Product::reverse_take_more))]
pub fn line_image(start: &[u8; 64], steps: &[PersistenceStep], line: u32, count: u32) -> [u8; 64]
    requires few { length steps.now < 2 ^ 32 }
    requires lines { All IsInLine steps.now }
    ensures { result ≡ line_after start.now line count (reverse steps.now) }
{
    let mut bytes = *start;
    for (at, step) in steps.iter().enumerate() {
        if let PersistenceStep::Store {
            line: stored,
            offset,
            width,
            value,
        } = *step
            && stored == line
            && stores(&steps[..at], line) < count
        {
            write(&mut bytes, offset, width, value);
        }
    }
    bytes
}

#[tactic(auto, using(crate::proofs::Front::front_of_bytes))]
fn write(bytes: &mut [u8; 64], offset: u32, width: u32, value: u64)
    requires width { width ≤ 8 }
    requires place { offset + width ≤ 64 }
    ensures { bytes.new ≡ stored bytes.old offset width value }
{
    let all = value.to_le_bytes();
    replace_bytes(bytes, offset as usize, &all[..width as usize]);
}

/// How many cuts there are: the product of how many numbers each stored line can stand at. None exactly
/// above 65,536.
#[tactic(auto, using(crate::proofs::Product::count_below))]
pub fn count_cuts(steps: &[PersistenceStep]) -> Option<u32>
    requires { length steps.now < 2 ^ 32 }
    ensures some { IfSome result (λ count. (count ≡ cut_count (reverse steps.now)) × (count ≤ 65536)) }
    ensures none { IsNone result ↔ (65536 < cut_count (reverse steps.now)) }
{
    let mut count = 1;
    for at in 0..steps.len() {
        count *= numbers(steps, at);
        if count > MAX_CUTS {
            return None;
        }
    }
    Some(count as u32)
}

/// At the first store of a line: how many numbers the line can stand at. At another step 1.
#[tactic(auto, using(crate::proofs::Product::reverse_take_more, crate::proofs::Product::count_store, crate::proofs::Bounds::floor_le_stores))]
fn numbers(steps: &[PersistenceStep], at: usize) -> u64
    requires few { length steps.now < 2 ^ 32 }
    requires place { at < length steps.now }
    ensures product { count_of (reverse steps.now) (stored_lines (reverse (take (at + 1) steps.now))) ≡ result * count_of (reverse steps.now) (stored_lines (reverse (take at steps.now))) }
    ensures some { 0 < result }
    ensures fits { result ≤ 2 ^ 32 }
{
    match steps[at] {
        PersistenceStep::Store { line, .. } if stores(&steps[..at], line) == 0 => {
            u64::from(stores(steps, line) - floor(steps, line)) + 1
        }
        _ => 1,
    }
}
