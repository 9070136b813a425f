//! Whether an event is allowed, by the numbers that its line has.

ghost use Rattle.std.specs.Prelude.{◌≡◌, ◌+◌, ◌*◌, ◌^◌, ◌<◌, ◌≤◌, ℕ, IfNone, IfSome, MatchOption};
ghost use Rattle.store_trace.specs.TraceView.{IsWidth};
ghost use Rattle.store_trace.specs.declared.event.Event.TheVariants as kinds;
ghost use Rattle.text.specs.Numbers.{IsOf};
ghost use Rattle.trace_file.specs.Parts.{Fits, IsFitting, IsJudged, IsKept};

use crate::fault::TraceFileCode;
use store_trace::Event;
use text::Number;

/// The greatest number of a hart.
const LAST_HART: u32 = 7;

/// The greatest offset in a line.
const LAST_OFFSET: u32 = 63;

/// The number, where it is at most the greatest.
fn at_most(number: Number, greatest: u64) -> Option<u64>
    ensures none { IfNone result ((n : ℕ) → IsOf n number → greatest < n) }
    ensures some { IfSome result (IsKept number greatest) }
    ensures most { IfSome result (λ kept. kept ≤ greatest) }
{
    match number {
        Number::Small(kept) if kept <= greatest => Some(kept),
        _ => None,
    }
}

/// The same of 32 bits.
fn narrow(number: Number, greatest: u32) -> Option<u32>
    ensures none { IfNone result ((n : ℕ) → IsOf n number → greatest < n) }
    ensures some { IfSome result (IsKept number greatest) }
    ensures most { IfSome result (λ kept. kept ≤ greatest) }
{
    let kept = at_most(number, u64::from(greatest))?;
    Some(kept as u32)
}

/// A width in bytes, and the greatest value of so many.
#[derive(Clone, Copy)]
struct Width {
    bytes: u32,
    greatest: u64,
}

/// The width of a store that a number is.
fn width_of(number: Number) -> Option<Width>
    ensures none { IfNone result ((n : ℕ) → IsOf n number → ¬ IsWidth n) }
    ensures some { IfSome result (λ width. (n : ℕ) → IsOf n number → n ≡ width.bytes) }
    ensures width { IfSome result (λ width. IsWidth width.bytes × (width.greatest + 1 ≡ 2 ^ (8 * width.bytes))) }
{
    let Number::Small(bytes) = number else {
        return None;
    };
    let greatest = match bytes {
        1 => 0xff,
        2 => 0xffff,
        4 => 0xffff_ffff,
        8 => u64::MAX,
        _ => return None,
    };
    Some(Width {
        bytes: bytes as u32,
        greatest,
    })
}

/// The numbers of a store, as its line has them.
#[derive(Clone, Copy)]
pub(crate) struct StoreNumbers {
    pub line: Number,
    pub offset: Number,
    pub width: Number,
    pub value: Number,
}

/// What a store writes in its line, and where.
#[derive(Clone, Copy)]
struct Written {
    offset: u8,
    width: u8,
    value: u64,
}

/// What a store writes, where that fits its line.
#[tactic(auto, using(crate::proofs::JudgedLemmas::no_width, crate::proofs::JudgedLemmas::no_offset, crate::proofs::JudgedLemmas::no_value, crate::proofs::JudgedLemmas::no_multiple, crate::proofs::JudgedLemmas::fitting))]
fn fitting(store: StoreNumbers) -> Option<Written>
    ensures none { IfNone result ((o w v : ℕ) → IsOf o store.offset → IsOf w store.width → IsOf v store.value → ¬ Fits o w v) }
    ensures some { IfSome result (λ written. (o w v : ℕ) → IsOf o store.offset → IsOf w store.width → IsOf v store.value
        → IsFitting o w v written) }
{
    let width = width_of(store.width)?;
    let offset = narrow(store.offset, LAST_OFFSET)?;
    let value = at_most(store.value, width.greatest)?;
    if offset % width.bytes == 0 {
        Some(Written {
            offset: offset as u8,
            width: width.bytes as u8,
            value,
        })
    } else {
        None
    }
}

/// A hart's store, where it fits its line and is within limits.
#[tactic(auto, using(crate::proofs::JudgedLemmas::store_unfit, crate::proofs::JudgedLemmas::store_of_no_hart, crate::proofs::JudgedLemmas::store_of_no_line, crate::proofs::JudgedLemmas::store_allowed))]
pub(crate) fn judged_store(hart: Number, store: StoreNumbers) -> Result<Event, TraceFileCode>
    ensures { (h l o w v : ℕ) → IsOf h hart → IsOf l store.line → IsOf o store.offset → IsOf w store.width → IsOf v store.value
        → IsJudged (kinds.Store h l o w v) result }
{
    let Some(written) = fitting(store) else {
        return Err(TraceFileCode::Store);
    };
    let Some(hart) = narrow(hart, LAST_HART) else {
        return Err(TraceFileCode::Limit);
    };
    let Some(line) = narrow(store.line, u32::MAX) else {
        return Err(TraceFileCode::Limit);
    };
    Ok(Event::Store {
        hart,
        line,
        offset: written.offset,
        width: written.width,
        value: written.value,
    })
}

/// A hart's clean of a line, where it is within limits.
#[tactic(auto, using(crate::proofs::JudgedLemmas::clean_of_no_hart, crate::proofs::JudgedLemmas::clean_of_no_line, crate::proofs::JudgedLemmas::clean_kept))]
pub(crate) fn judged_clean(hart: Number, line: Number) -> Result<Event, TraceFileCode>
    ensures { (h l : ℕ) → IsOf h hart → IsOf l line → IsJudged (kinds.Clean h l) result }
{
    let Some(hart) = narrow(hart, LAST_HART) else {
        return Err(TraceFileCode::Limit);
    };
    let Some(line) = narrow(line, u32::MAX) else {
        return Err(TraceFileCode::Limit);
    };
    Ok(Event::Clean { hart, line })
}

/// A hart's fence, where it is within limits.
#[tactic(auto, using(crate::proofs::JudgedLemmas::fence_of_no_hart, crate::proofs::JudgedLemmas::fence_kept))]
pub(crate) fn judged_fence(hart: Number) -> Result<Event, TraceFileCode>
    ensures { (h : ℕ) → IsOf h hart → IsJudged (kinds.Fence h) result }
{
    match narrow(hart, LAST_HART) {
        Some(hart) => Ok(Event::Fence { hart }),
        None => Err(TraceFileCode::Limit),
    }
}

/// The hart and the operation of a mark, where they are within limits.
#[tactic(auto, using(crate::proofs::JudgedLemmas::no_mark_hart, crate::proofs::JudgedLemmas::no_mark_op, crate::proofs::JudgedLemmas::mark_kept))]
fn mark(hart: Number, op: Number) -> Option<(u32, u64)>
    ensures none { IfNone result ((h o : ℕ) → IsOf h hart → IsOf o op → ¬ ((h < 8) × (o < 2 ^ 64))) }
    ensures some { IfSome result (λ kept. (h o : ℕ) → IsOf h hart → IsOf o op → (h ≡ kept.0) × (o ≡ kept.1) × (h < 8) × (o < 2 ^ 64)) }
{
    let hart = narrow(hart, LAST_HART)?;
    let op = at_most(op, u64::MAX)?;
    Some((hart, op))
}

/// A hart's mark of an operation that begins, where it is within limits.
#[tactic(auto, using(crate::proofs::JudgedLemmas::begin_refused, crate::proofs::JudgedLemmas::begin_kept))]
pub(crate) fn judged_begin(hart: Number, op: Number) -> Result<Event, TraceFileCode>
    ensures { (h o : ℕ) → IsOf h hart → IsOf o op → IsJudged (kinds.Begin h o) result }
{
    match mark(hart, op) {
        Some((hart, op)) => Ok(Event::Begin { hart, op }),
        None => Err(TraceFileCode::Limit),
    }
}

/// The same of one that ends.
#[tactic(auto, using(crate::proofs::JudgedLemmas::end_refused, crate::proofs::JudgedLemmas::end_kept))]
pub(crate) fn judged_end(hart: Number, op: Number) -> Result<Event, TraceFileCode>
    ensures { (h o : ℕ) → IsOf h hart → IsOf o op → IsJudged (kinds.End h o) result }
{
    match mark(hart, op) {
        Some((hart, op)) => Ok(Event::End { hart, op }),
        None => Err(TraceFileCode::Limit),
    }
}
