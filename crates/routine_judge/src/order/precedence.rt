//! The operations of a run so far, and which of them had ended before which began.

ghost use Rattle.routine_judge.specs.Order.{AreInOrder, AreOperations, AreOrdered, HasHartFault, IsLowestHartFault, begins_in, begun_of, operations_in};
ghost use Rattle.routine_judge.specs.declared.history.fault.MarkFault.{MarkFault as AFault};
ghost use Rattle.std.specs.Prelude.{◌≡◌, ◌↔◌, ℕ, List, true, [], ◌∷◌, ◌++◌, Contains, IfErr, IfOk, IsPermutation, IsTrue, MatchOption, OnOk, map};
ghost use Rattle.store_trace.specs.Marks.{begun};
ghost use Rattle.store_trace.specs.declared.event.Event.{Event as AnEvent};

use crate::history::MarkFault;
use crate::order::entry::{Entry, copies, copies_with_end, ended_in, has_pending, place_of};
use std::alloc::{AllocError, Global};
use store_trace::Event;

/// Of the operations that have begun: the hart of each, whether it has ended, and those that had ended before it began.
///
/// Two are equal where these are the same, in whatever order the events came.
#[derive(Debug, PartialEq, Eq, Hash, Drop)]
pub struct Precedence {
    /// In the order of the operations' numbers.
    pub(crate) entries: Vec<Entry>,
}

impl Precedence {
    /// Of no events.
    pub fn none(alloc: Global) -> Precedence
        ensures { AreOrdered [] result }
    {
        Precedence {
            entries: Vec::new(alloc),
        }
    }

    /// Another that is the same.
    pub fn copied(&self, alloc: Global) -> Result<Precedence, AllocError>
        ensures { IfOk result (λ copy. ⟦<Precedence as PartialEq>⟧.eq copy self.now ≡ true) }
    {
        let entries = copies(alloc, &self.entries)?;
        Ok(Precedence { entries })
    }

    /// Whether no operation has begun.
    pub fn is_empty(&self) -> bool
        ensures { (events : List AnEvent) → AreOrdered events self.now → IsTrue result ↔ (begun events ≡ []) }
    {
        self.entries.is_empty()
    }

    /// The precedence after one event more, or the event's lowest fault: O2, O3, or O5 where an operation of the same hart is
    /// pending. A fault is reported before memory is asked for.
    pub fn after(
        &self,
        alloc: Global,
        mark: Event,
    ) -> Result<Result<Precedence, MarkFault>, AllocError>
        ensures ok { IfOk result (λ answer. IfOk answer (λ next. (events : List AnEvent) → AreOrdered events self.now → AreOrdered (events ++ mark ∷ []) next)) }
        ensures err { IfOk result (λ answer. IfErr answer (λ fault. (events : List AnEvent) → AreOrdered events self.now → IsLowestHartFault events mark fault)) }
        ensures memory { IfErr result (λ refused. (events : List AnEvent) (fault : AFault) → AreOrdered events self.now → ¬ HasHartFault events mark fault) }
    {
        if let Err(fault) = self.check(mark) {
            return Ok(Err(fault));
        }
        let entries = self.entries_after(alloc, mark)?;
        Ok(Ok(Precedence { entries }))
    }

    /// Whether the event has no fault. Else it answers the lowest.
    fn check(&self, mark: Event) -> Result<(), MarkFault>
        ensures ok { (events : List AnEvent) → AreOrdered events self.now → OnOk result ((fault : AFault) → ¬ HasHartFault events mark fault) }
        ensures err { (events : List AnEvent) → AreOrdered events self.now → IfErr result (IsLowestHartFault events mark) }
    {
        match mark {
            Event::Begin { hart, op } => self.check_begin(hart, op),
            Event::End { hart, op } => self.check_end(hart, op),
            Event::Store { .. } | Event::Clean { .. } | Event::Fence { .. } => Ok(()),
        }
    }

    fn check_begin(&self, hart: u32, op: u64) -> Result<(), MarkFault>
        ensures ok { (events : List AnEvent) → AreOrdered events self.now → OnOk result ((fault : AFault) → ¬ HasHartFault events (Event.Begin hart op) fault) }
        ensures err { (events : List AnEvent) → AreOrdered events self.now → IfErr result (IsLowestHartFault events (Event.Begin hart op)) }
    {
        if self.has_begun(op) {
            return Err(MarkFault::BegunTwice);
        }
        if has_pending(&self.entries, hart) {
            return Err(MarkFault::Overlaps);
        }
        Ok(())
    }

    fn check_end(&self, hart: u32, op: u64) -> Result<(), MarkFault>
        ensures ok { (events : List AnEvent) → AreOrdered events self.now → OnOk result ((fault : AFault) → ¬ HasHartFault events (Event.End hart op) fault) }
        ensures err { (events : List AnEvent) → AreOrdered events self.now → IfErr result (IsLowestHartFault events (Event.End hart op)) }
    {
        match self.entry_of(op) {
            Some(entry) if entry.hart == hart && !entry.ended => Ok(()),
            _ => Err(MarkFault::NotPending),
        }
    }

    fn has_begun(&self, op: u64) -> bool
        ensures { AreInOrder (operations_in self.now) → IsTrue result ↔ Contains (map (λ b. b.op) (operations_in self.now)) op }
    {
        self.entry_of(op).is_some()
    }

    /// The entry of the operation, if it has begun.
    pub(crate) fn entry_of(&self, op: u64) -> Option<&Entry>
        ensures { AreInOrder (operations_in self.now) → MatchOption result (¬ Contains (map (λ b. b.op) (operations_in self.now)) op)
            (λ entry. Contains (operations_in self.now) (begun_of entry.now) × (entry.now.op ≡ op)) }
    {
        match self.entries.get(place_of(&self.entries, op)) {
            Some(found) if found.op == op => Some(found),
            _ => None,
        }
    }

    /// The entries after one event more, which has no fault.
    fn entries_after(&self, alloc: Global, mark: Event) -> Result<Vec<Entry>, AllocError>
        ensures { IfOk result (λ entries. (events : List AnEvent) → AreOrdered events self.now → ((fault : AFault) → ¬ HasHartFault events mark fault) →
            AreOperations (events ++ mark ∷ []) (map begun_of entries.items)) }
    {
        match mark {
            Event::Begin { hart, op } => self.entries_with(alloc, hart, op),
            Event::End { op, .. } => copies_with_end(alloc, &self.entries, op),
            Event::Store { .. } | Event::Clean { .. } | Event::Fence { .. } => {
                copies(alloc, &self.entries)
            }
        }
    }

    /// The entries with one more, of an operation that begins.
    fn entries_with(&self, alloc: Global, hart: u32, op: u64) -> Result<Vec<Entry>, AllocError>
        ensures { IfOk result (λ entries. IsPermutation (begins_in (operations_in self.now) hart op ∷ operations_in self.now) (map begun_of entries.items)
            × (AreInOrder (operations_in self.now) → ¬ Contains (map (λ b. b.op) (operations_in self.now)) op → AreInOrder (map begun_of entries.items))) }
    {
        let earlier = ended_in(alloc, &self.entries)?;
        let mut entries = copies(alloc, &self.entries)?;
        let place = place_of(&entries, op);
        let entry = Entry {
            op,
            hart,
            ended: false,
            earlier,
        };
        entries.insert(place, entry)?;
        Ok(entries)
    }
}
