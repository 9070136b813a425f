//! What a state of a run keeps of a plan's operations, without its past.

ghost use Rattle.image_check.specs.Growth.{AreInOrder, AreOutcomes};
ghost use Rattle.image_check.specs.Legal.{IsLegal};
ghost use Rattle.image_check.specs.OrderFaults.{HasFault, IsLowestFault};
ghost use Rattle.image_check.specs.PlanStates.{IsPlanState, IsRefusalAfter};
ghost use Rattle.image_check.specs.declared.fault.OpFault.{OpFault as AFault};
ghost use Rattle.store_trace.specs.Marks.{begun, begun_by, ended, ended_by};
ghost use Rattle.nova_log.specs.declared.fault.VolumeFault.{VolumeFault as AVolumeFault};
ghost use Rattle.nova_log.specs.declared.volume.entry.Entry.{Entry as AnEntry};
ghost use Rattle.plan.specs.declared.operation.Operation.{Operation as AnOperation};
ghost use Rattle.store_trace.specs.declared.event.Event.{Event as AnEvent};
ghost use Rattle.std.specs.List.{AllPairs, Contains};
ghost use Rattle.std.specs.Prelude.{◌≡◌, ◌↔◌, ◌⊎◌, ◌<◌, ℕ, List, [], ◌∷◌, ◌++◌, Option, Some, Result, IfErr, IfOk, IsPermutation, IsTrue, OnOk, map};
ghost use Rattle.std.specs.Result.{result_ok};

use crate::legal::Outcomes;
use crate::operations::find_operation;
use crate::{CheckFault, OpFault};
use nova_log::Volume;
use plan::Plan;
use std::alloc::{AllocError, Global};
use store_trace::Event;

/// What decides all that may come of a plan's operations: what the legal volumes are made of, and which operations have ended.
///
/// States whose operations began or ended in another order are equal, but for what the order of the Ends leaves in the logs.
#[derive(Drop, PartialEq, Eq, Hash)]
pub struct PlanState {
    pub(crate) outcomes: Outcomes,
    /// The operations that have ended, in the order of their numbers.
    ended: Vec<u64>,
}

impl PlanState {
    /// Before any event, over the starting volume, where there is one.
    pub fn first(alloc: Global, start: Option<Volume>) -> PlanState
        ensures { (plan : List AnOperation) → IsPlanState plan start [] result }
    {
        PlanState {
            outcomes: Outcomes::new(alloc, start),
            ended: Vec::new(alloc),
        }
    }

    /// The state after one event more. A wrong mark is reported before memory is asked for.
    #[tactic(auto, using(crate::proofs::Refusing::refused_after, crate::proofs::Refusing::refused_memory))]
    pub fn after(&self, alloc: Global, plan: &Plan, event: Event) -> Result<PlanState, CheckFault>
        ensures ok { IfOk result (λ next. (start : Option (List (List AnEntry))) (events : List AnEvent) →
            IsPlanState plan.now.operations start events self.now → IsPlanState plan.now.operations start (events ++ event ∷ []) next) }
        ensures err { IfErr result (λ fault. IsRefusalAfter plan.now.operations self.now event fault) }
    {
        if let Err(fault) = self.check_event(plan, event) {
            return Err(CheckFault::Operation(fault));
        }
        let mut next = self.copy(alloc)?;
        next.note(plan, event)?;
        Ok(next)
    }

    /// Whether the volume is legal in this state.
    pub fn allows(&self, alloc: Global, plan: &Plan, volume: &Volume) -> Result<bool, AllocError>
        ensures { IfOk result (λ legal. (start : Result (List (List AnEntry)) AVolumeFault) (events : List AnEvent) →
            IsPlanState plan.now.operations (result_ok start) events self.now →
            IsTrue legal ↔ IsLegal plan.now.operations start events volume.now) }
    {
        self.outcomes.has(alloc, plan, volume)
    }

    fn copy(&self, alloc: Global) -> Result<PlanState, AllocError>
        ensures settled { IfOk result (λ copy. copy.outcomes.settled ≡ self.now.outcomes.settled) }
        ensures under_way { IfOk result (λ copy. copy.outcomes.under_way.items ≡ self.now.outcomes.under_way.items) }
        ensures ended { IfOk result (λ copy. copy.ended.items ≡ self.now.ended.items) }
    {
        Ok(PlanState {
            outcomes: self.outcomes.copy(alloc)?,
            ended: Vec::from_slice(alloc, &self.ended)?,
        })
    }

    /// Takes in the event after those that led here.
    fn note(&mut self, plan: &Plan, event: Event) -> Result<(), AllocError>
        ensures outcomes { OnOk result ((start : Option (List (List AnEntry))) (before : List AnEvent) →
            AreOutcomes plan.now.operations start before self.old.outcomes.settled self.old.outcomes.under_way.items →
            ((op : ℕ) → begun_by event ≡ Some op → ¬ Contains (ended before) op) →
            AreOutcomes plan.now.operations start (before ++ event ∷ []) self.new.outcomes.settled self.new.outcomes.under_way.items) }
        ensures in_order { OnOk result (AreInOrder self.old.outcomes.under_way.items →
            ((op : ℕ) → begun_by event ≡ Some op → ¬ Contains (map (λ u. u.op) self.old.outcomes.under_way.items) op) →
            AreInOrder self.new.outcomes.under_way.items) }
        ensures ended { OnOk result ((op : ℕ) → Contains self.new.ended.items op ↔ (Contains self.old.ended.items op ⊎ (ended_by event ≡ Some op))) }
        ensures ended_in_order { OnOk result (AllPairs (λ x y. x < y) self.old.ended.items →
            ((op : ℕ) → ended_by event ≡ Some op → ¬ Contains self.old.ended.items op) → AllPairs (λ x y. x < y) self.new.ended.items) }
    {
        self.outcomes.note(plan, event)?;
        if let Some(op) = event.ended() {
            self.end(op)?;
        }
        Ok(())
    }

    fn end(&mut self, op: u64) -> Result<(), AllocError>
        ensures outcomes { self.new.outcomes ≡ self.old.outcomes }
        ensures ended { OnOk result (IsPermutation (op ∷ self.old.ended.items) self.new.ended.items) }
        ensures in_order { OnOk result (AllPairs (λ x y. x < y) self.old.ended.items → ¬ Contains self.old.ended.items op →
            AllPairs (λ x y. x < y) self.new.ended.items) }
    {
        let place = self.ended.partition_point(|other| *other < op);
        self.ended.insert(place, op)?;
        Ok(())
    }

    /// Whether the event fits the plan and the events that led here.
    fn check_event(&self, plan: &Plan, event: Event) -> Result<(), OpFault>
        ensures ok { OnOk result ((start : Option (List (List AnEntry))) (events : List AnEvent) (fault : AFault) →
            IsPlanState plan.now.operations start events self.now → ¬ HasFault plan.now.operations events event fault) }
        ensures err { IfErr result (λ fault. (start : Option (List (List AnEntry))) (events : List AnEvent) →
            IsPlanState plan.now.operations start events self.now → IsLowestFault plan.now.operations events event fault) }
    {
        match event {
            Event::Begin { op, .. } => self.check_begin(plan, op),
            Event::End { hart, op } => self.check_end(plan, hart, op),
            Event::Store { .. } | Event::Clean { .. } | Event::Fence { .. } => Ok(()),
        }
    }

    fn check_begin(&self, plan: &Plan, op: u64) -> Result<(), OpFault>
        ensures ok { OnOk result ((start : Option (List (List AnEntry))) (events : List AnEvent) (hart : ℕ) (fault : AFault) →
            IsPlanState plan.now.operations start events self.now → ¬ HasFault plan.now.operations events (Event.Begin hart op) fault) }
        ensures err { IfErr result (λ fault. (start : Option (List (List AnEntry))) (events : List AnEvent) (hart : ℕ) →
            IsPlanState plan.now.operations start events self.now → IsLowestFault plan.now.operations events (Event.Begin hart op) fault) }
    {
        let Some(operation) = find_operation(plan, op) else {
            return Err(OpFault::Unknown);
        };
        if self.has_begun(op) {
            return Err(OpFault::BegunTwice);
        }
        if self.outcomes.shares_inode(plan, op, &operation) {
            return Err(OpFault::SharesInode);
        }
        Ok(())
    }

    fn check_end(&self, plan: &Plan, hart: u32, op: u64) -> Result<(), OpFault>
        ensures ok { OnOk result ((start : Option (List (List AnEntry))) (events : List AnEvent) (fault : AFault) →
            IsPlanState plan.now.operations start events self.now → ¬ HasFault plan.now.operations events (Event.End hart op) fault) }
        ensures err { IfErr result (λ fault. (start : Option (List (List AnEntry))) (events : List AnEvent) →
            IsPlanState plan.now.operations start events self.now → IsLowestFault plan.now.operations events (Event.End hart op) fault) }
    {
        if find_operation(plan, op).is_none() {
            return Err(OpFault::Unknown);
        }
        if self.outcomes.hart_of(op) != Some(hart) {
            return Err(OpFault::NotPending);
        }
        Ok(())
    }

    /// Whether the operation has begun, even where it has ended.
    fn has_begun(&self, op: u64) -> bool
        ensures { (plan : List AnOperation) (start : Option (List (List AnEntry))) (events : List AnEvent) →
            IsPlanState plan start events self.now → IsTrue result ↔ Contains (begun events) op }
    {
        self.outcomes.hart_of(op).is_some() || self.ended.binary_search(&op).is_ok()
    }
}
