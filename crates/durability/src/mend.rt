//! What would have made a lost store durable in time.

ghost use Rattle.durability.specs.Causes.{clean_of};
ghost use Rattle.durability.specs.Mends.{AreForKept, AreForLost, AreMends, IsAmong, IsCaused, IsDeadline, IsEventOf, IsFirstMark, IsKeptBehind, IsLastIfAny, IsMend, event_of, first_behind, is_clean_by, is_wanted, later_of, mark_by};
ghost use Rattle.durability.specs.Numbered.{event_at, IsFirstIfAny};
ghost use Rattle.durability.specs.Operations.{IsLast};
ghost use Rattle.std.specs.Prelude.{◌≡◌, ◌↔◌, ◌<◌, ◌≤◌, ℕ, Some, length, All, Contains, IfNone, IfOk, IfSome, IsTrue};

use crate::cause::Cause;
use crate::cut::{Kept, Lost, stores_line};
use std::alloc::{AllocError, Global};
use store_trace::Event;

/// The mark of an operation: the number of its event.
#[derive(Clone, Copy, Debug, PartialEq, Eq)]
pub struct Mark {
    pub event: u32,
    pub operation: u64,
}

/// The event before which a lost store had to be durable.
#[derive(Clone, Copy, Debug, PartialEq, Eq)]
pub enum Deadline {
    /// A store of another line, which is there.
    BeforeKept { store: u32 },
    /// The End of an operation.
    BeforeEnd { mark: Mark },
    /// The Begin of an operation.
    BeforeBegin { mark: Mark },
}

impl Deadline {
    /// The number of the event.
    pub fn event(self) -> u32
        ensures { result ≡ event_of self }
    {
        match self {
            Deadline::BeforeKept { store } => store,
            Deadline::BeforeEnd { mark } | Deadline::BeforeBegin { mark } => mark.event,
        }
    }
}

/// What would have made a lost store durable in time.
#[derive(Clone, Copy, Debug, PartialEq, Eq)]
pub enum Mend {
    /// A fence by the hart of this clean, behind it and before the deadline.
    Fence {
        behind: u32,
        deadline: Deadline,
    },
    /// A clean of the line behind this store, its last before the deadline, and a fence behind that, also before the deadline.
    CleanAndFence {
        line: u32,
        behind: u32,
        deadline: Deadline,
    },
    /// This store, which is there, comes too early or goes to a wrong place.
    Later {
        store: u32,
    },
    /// This store, which is lost, comes too late or goes to a wrong place.
    Earlier {
        store: u32,
    },
}

/// What would have made the lost stores of a cut of the moment durable in time, each thing once. Where none is lost, the last one of the
/// kept stores comes too early.
pub(crate) fn mends_of(
    alloc: Global,
    events: &[Event],
    moment: u32,
    lost: &[Lost],
    kept: &[Kept],
) -> Result<Vec<Mend>, AllocError>
    requires limit { length events.now ≤ 65536 }
    requires moment { moment ≤ length events.now }
    requires lost { All (IsCaused events.now moment) lost.now }
    requires kept { All (λ one. one.store ≤ moment) kept.now }
    ensures { IfOk result (λ mends. AreMends events.now moment lost.now kept.now mends.items) }
{
    if lost.is_empty() {
        mends_of_kept(alloc, kept)
    } else {
        mends_of_lost(alloc, events, moment, lost, kept)
    }
}

fn mends_of_kept(alloc: Global, kept: &[Kept]) -> Result<Vec<Mend>, AllocError>
    ensures { IfOk result (λ mends. AreForKept kept.now mends.items) }
{
    let mut mends = Vec::new(alloc);
    if let Some(store) = last_kept(kept) {
        mends.push(Mend::Later { store })?;
    }
    Ok(mends)
}

/// The last one of these stores.
fn last_kept(kept: &[Kept]) -> Option<u32>
    ensures { IsLastIfAny (IsAmong kept.now) result }
{
    let mut last = None;
    for one in kept {
        last = Some(later(last, one.store));
    }
    last
}

fn later(last: Option<u32>, store: u32) -> u32
    ensures { result ≡ later_of last store }
{
    match last {
        None => store,
        Some(last) => last.max(store),
    }
}

fn mends_of_lost(
    alloc: Global,
    events: &[Event],
    moment: u32,
    lost: &[Lost],
    kept: &[Kept],
) -> Result<Vec<Mend>, AllocError>
    requires limit { length events.now ≤ 65536 }
    requires moment { moment ≤ length events.now }
    requires lost { All (IsCaused events.now moment) lost.now }
    requires kept { All (λ one. one.store ≤ moment) kept.now }
    ensures { IfOk result (λ mends. AreForLost events.now moment lost.now kept.now mends.items) }
{
    let mut mends = Vec::new(alloc);
    for one in lost {
        let mend = mend_of(events, moment, *one, kept);
        if !has(&mends, mend) {
            mends.push(mend)?;
        }
    }
    Ok(mends)
}

/// Whether it is among these.
fn has(mends: &[Mend], mend: Mend) -> bool
    ensures { IsTrue result ↔ Contains mends.now mend }
{
    mends.iter().any(|one| *one == mend)
}

/// What would have made this store durable in time.
fn mend_of(events: &[Event], moment: u32, lost: Lost, kept: &[Kept]) -> Mend
    requires limit { length events.now ≤ 65536 }
    requires moment { moment ≤ length events.now }
    requires lost { IsCaused events.now moment lost }
    requires kept { All (λ one. one.store ≤ moment) kept.now }
    ensures { IsMend events.now moment kept.now lost result }
{
    let Some(deadline) = deadline_of(events, moment, lost.store, kept) else {
        return Mend::Earlier { store: lost.store };
    };
    let before = deadline.event();
    match clean_before(lost.cause, before) {
        Some(clean) => Mend::Fence {
            behind: last_clean(events, clean, before),
            deadline,
        },
        None => Mend::CleanAndFence {
            line: lost.line,
            behind: last_of(events, Wanted::StoreTo(lost.line), lost.store, before),
            deadline,
        },
    }
}

/// The first clean of the line after the store, where it comes before this event.
fn clean_before(cause: Cause, before: u32) -> Option<u32>
    ensures some { IfSome result (λ clean. (clean_of cause ≡ Some clean) × (clean < before)) }
    ensures none { IfNone result ((clean : ℕ) → clean_of cause ≡ Some clean → before ≤ clean) }
{
    match cause.clean() {
        Some(clean) if clean < before => Some(clean),
        _ => None,
    }
}

/// By when this store had to be durable.
fn deadline_of(events: &[Event], moment: u32, store: u32, kept: &[Kept]) -> Option<Deadline>
    requires limit { length events.now ≤ 65536 }
    requires moment { moment ≤ length events.now }
    ensures { IsDeadline events.now moment kept.now store result }
{
    if let Some(store) = first_kept(kept, store) {
        return Some(Deadline::BeforeKept { store });
    }
    if let Some(mark) = first_mark(events, false, store, moment) {
        return Some(Deadline::BeforeEnd { mark });
    }
    match first_mark(events, true, store, moment) {
        Some(mark) => Some(Deadline::BeforeBegin { mark }),
        None => None,
    }
}

/// The first one of these stores that comes after this one.
fn first_kept(kept: &[Kept], store: u32) -> Option<u32>
    ensures { IsFirstIfAny (IsKeptBehind kept.now store) result }
{
    let mut first = None;
    for one in kept {
        first = first_behind(store, first, one.store);
    }
    first
}

fn first_behind(behind: u32, first: Option<u32>, store: u32) -> Option<u32>
    ensures { result ≡ first_behind behind first store }
{
    match first {
        _ if store <= behind => first,
        Some(least) => Some(least.min(store)),
        None => Some(store),
    }
}

/// The first Begin, or the first End, behind this event and by the moment.
fn first_mark(events: &[Event], begins: bool, behind: u32, moment: u32) -> Option<Mark>
    requires limit { length events.now ≤ 65536 }
    requires moment { moment ≤ length events.now }
    ensures { IsFirstMark (mark_by begins) events.now behind moment result }
{
    for at in behind as usize..moment as usize {
        if let Some(operation) = mark_by(events[at], begins) {
            return Some(Mark {
                event: at as u32 + 1,
                operation,
            });
        }
    }
    None
}

fn mark_by(event: Event, begins: bool) -> Option<u64>
    ensures { result ≡ mark_by begins event }
{
    if begins { event.begun() } else { event.ended() }
}

/// What is looked for among events.
#[derive(Clone, Copy)]
pub enum Wanted {
    /// A clean by this hart.
    CleanBy(u32),
    /// A store to this line.
    StoreTo(u32),
}

/// Of the hart that made this clean, the last clean before this event.
fn last_clean(events: &[Event], clean: u32, before: u32) -> u32
    requires limit { length events.now ≤ 65536 }
    requires before { before ≤ length events.now }
    requires clean { clean < before }
    requires is { (hart : ℕ) × (line : ℕ) × (event_at events.now clean ≡ Some (Event.Clean hart line)) }
    ensures { (hart line : ℕ) → event_at events.now clean ≡ Some (Event.Clean hart line) →
        IsLast (λ n. (n < before) × IsEventOf (is_clean_by hart) events.now n) result }
{
    match events[clean as usize - 1] {
        Event::Clean { hart, .. } => last_of(events, Wanted::CleanBy(hart), clean, before),
        _ => unreachable!(),
    }
}

/// The last event before this one that is wanted, the first of which this is known to be one.
fn last_of(events: &[Event], wanted: Wanted, known: u32, before: u32) -> u32
    requires limit { length events.now ≤ 65536 }
    requires before { before ≤ length events.now }
    requires known { known < before }
    requires wanted { IsEventOf (is_wanted wanted) events.now known }
    ensures last { IsLast (λ n. (n < before) × IsEventOf (is_wanted wanted) events.now n) result }
    ensures after { known ≤ result }
{
    let mut last = known;
    for at in known as usize..before as usize - 1 {
        if is_wanted(events[at], wanted) {
            last = at as u32 + 1;
        }
    }
    last
}

fn is_wanted(event: Event, wanted: Wanted) -> bool
    ensures { result ≡ is_wanted wanted event }
{
    match wanted {
        Wanted::CleanBy(hart) => cleans_by(event, hart),
        Wanted::StoreTo(line) => stores_line(event, line),
    }
}

/// Whether the event is a clean by the hart.
fn cleans_by(event: Event, hart: u32) -> bool
    ensures { result ≡ is_clean_by hart event }
{
    match event {
        Event::Clean { hart: by, .. } => by == hart,
        _ => false,
    }
}
