//! The operations that have begun, and those of them that are pending.

ghost use Rattle.store_trace.specs.Marks.{begun};
ghost use Rattle.image_check.specs.OrderFaults.{IsBegunTwice, IsNotPending};
ghost use Rattle.routine_judge.specs.MarkFaults.{HasFault, IsLowestFault, MayNotBegin};
ghost use Rattle.routine_judge.specs.Operations.{AreMarked};
ghost use Rattle.routine_judge.specs.declared.history.fault.MarkFault.{MarkFault as AFault};
ghost use Rattle.routine_judge.specs.declared.history.overlap.Overlap.{Overlap as AnOverlap};
ghost use Rattle.std.specs.BTreeMap.{IsOrdered, values};
ghost use Rattle.std.specs.List.{list_any};
ghost use Rattle.std.specs.Ordering.{nat_cmp};
ghost use Rattle.std.specs.Prelude.{◌≡◌, ◌↔◌, ◌==◌, ℕ, List, [], ◌∷◌, ◌++◌, Contains, IfErr, IsTrue, OnErr, OnOk};
ghost use Rattle.store_trace.specs.declared.event.Event.{Event as AnEvent};

use crate::history::{MarkFault, Overlap};
use std::alloc::{AllocError, Global};
use std::collections::{BTreeMap, BTreeSet};
use store_trace::Event;

/// The operations of the events so far.
#[derive(Drop)]
pub(crate) struct Operations {
    /// Those that have begun.
    begun: BTreeSet<u64>,
    /// Of each one that is pending, the hart that began it.
    pending: BTreeMap<u64, u32>,
}

impl Operations {
    /// None, as before the first event.
    pub(crate) fn none(alloc: Global) -> Operations
        ensures { AreMarked [] result }
    {
        Operations {
            begun: BTreeSet::new(alloc),
            pending: BTreeMap::new(alloc),
        }
    }

    /// Whether no operation has begun.
    pub(crate) fn none_began(&self) -> bool
        ensures { (before : List AnEvent) → AreMarked before self.now → IsTrue result ↔ (begun before ≡ []) }
    {
        self.begun.is_empty()
    }

    /// Whether the event that comes next has no fault. Else it answers the lowest.
    pub(crate) fn check(&self, event: Event, overlap: Overlap) -> Result<(), MarkFault>
        ensures ok { (before : List AnEvent) → AreMarked before self.now → OnOk result ((fault : AFault) → ¬ HasFault overlap before event fault) }
        ensures err { (before : List AnEvent) → AreMarked before self.now → IfErr result (IsLowestFault overlap before event) }
    {
        match event {
            Event::Begin { hart, op } => self.check_begin(hart, op, overlap),
            Event::End { hart, op } => self.check_end(hart, op),
            Event::Store { .. } | Event::Clean { .. } | Event::Fence { .. } => Ok(()),
        }
    }

    fn check_begin(&self, hart: u32, op: u64, overlap: Overlap) -> Result<(), MarkFault>
        ensures ok { (before : List AnEvent) → AreMarked before self.now → OnOk result ((fault : AFault) → ¬ HasFault overlap before (Event.Begin hart op) fault) }
        ensures err { (before : List AnEvent) → AreMarked before self.now → IfErr result (IsLowestFault overlap before (Event.Begin hart op)) }
    {
        if self.begun.contains(&op) {
            return Err(MarkFault::BegunTwice);
        }
        if self.is_pending_before(hart, overlap) {
            return Err(MarkFault::Overlaps);
        }
        Ok(())
    }

    /// Whether an operation is pending that one of the hart may not overlap.
    fn is_pending_before(&self, hart: u32, overlap: Overlap) -> bool
        ensures { (before : List AnEvent) → AreMarked before self.now → IsTrue result ↔ MayNotBegin overlap before hart }
    {
        match overlap {
            Overlap::Never => !self.pending.is_empty(),
            Overlap::BetweenHarts => self.has_pending(hart),
            Overlap::Always => false,
        }
    }

    /// Whether an operation of the hart is pending.
    fn has_pending(&self, hart: u32) -> bool
        ensures any { result ≡ list_any (λ beginner. beginner == hart) (values self.now.pending) }
        ensures ordered { IsOrdered nat_cmp self.now.pending }
    {
        self.pending.values().any(|beginner| *beginner == hart)
    }

    fn check_end(&self, hart: u32, op: u64) -> Result<(), MarkFault>
        ensures ok { (before : List AnEvent) → AreMarked before self.now → OnOk result ((overlap : AnOverlap) (fault : AFault) → ¬ HasFault overlap before (Event.End hart op) fault) }
        ensures err { (before : List AnEvent) → AreMarked before self.now → IfErr result (λ fault. (overlap : AnOverlap) → IsLowestFault overlap before (Event.End hart op) fault) }
    {
        match self.pending.get(&op) {
            Some(beginner) if *beginner == hart => Ok(()),
            _ => Err(MarkFault::NotPending),
        }
    }

    /// Takes in the event that comes next, which is no fault.
    pub(crate) fn note(&mut self, event: Event) -> Result<(), AllocError>
        ensures marked { (before : List AnEvent) → AreMarked before self.old → ¬ IsBegunTwice before event → ¬ IsNotPending before event → OnOk result (AreMarked (before ++ event ∷ []) self.new) }
        ensures grows { OnErr result ((hart op : ℕ) × (event ≡ Event.Begin hart op)) }
    {
        match event {
            Event::Begin { hart, op } => self.begin(hart, op),
            Event::End { op, .. } => {
                self.pending.remove(&op);
                Ok(())
            }
            Event::Store { .. } | Event::Clean { .. } | Event::Fence { .. } => Ok(()),
        }
    }

    fn begin(&mut self, hart: u32, op: u64) -> Result<(), AllocError>
        ensures { (before : List AnEvent) → AreMarked before self.old → ¬ Contains (begun before) op → OnOk result (AreMarked (before ++ Event.Begin hart op ∷ []) self.new) }
    {
        self.begun.insert(op)?;
        self.pending.insert(op, hart)?;
        Ok(())
    }
}
