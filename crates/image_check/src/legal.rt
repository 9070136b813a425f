//! Which volumes are legal at a moment.

ghost use Rattle.image_check.specs.Growth.{AreApart, AreInOrder, AreOutcomes, begun_on, is_shown};
ghost use Rattle.image_check.specs.Legal.{IsLegal, with_entries};
ghost use Rattle.store_trace.specs.Marks.{begun_by, ended};
ghost use Rattle.image_check.specs.OrderFaults.{ShareInode};
ghost use Rattle.image_check.specs.Planned.{operation_of, planned};
ghost use Rattle.image_check.specs.SameOutcomes.{mark_input, outcomes_alike, outcomes_equivalent, same_outcomes, same_settled};
ghost use Rattle.nova_log.specs.declared.fault.VolumeFault.{VolumeFault as AFault};
ghost use Rattle.store_trace.specs.declared.event.Event.{Event as AnEvent};
ghost use Rattle.nova_log.specs.declared.volume.entry.Entry.{Entry as AnEntry};
ghost use Rattle.plan.specs.declared.operation.Operation.{Operation as AnOperation};
ghost use Rattle.std.specs.Cmp.{partial_equiv_from_equiv};
ghost use Rattle.std.specs.Hash as fed;
ghost use Rattle.std.specs.List.{Contains, flat_map};
ghost use Rattle.std.specs.List.Sorted.{IsPartitionPoint};
ghost use Rattle.std.specs.Prelude.{◌≡◌, ◌↔◌, ◌==◌, ◌<◌, ◌≤◌, ℕ, not, false, List, [], ◌∷◌, ◌++◌, Option, Some, Result, filter, length, map, option_and_then, IfOk, IsPermutation, IsTrue, OnOk, if◌then◌else◌};
ghost use Rattle.std.specs.Result.{result_ok};

use crate::operations::{append, find_operation, fits, shares_with, shows};
use nova_log::Volume;
use plan::{Operation, Plan};
use std::alloc::{AllocError, Global};
use std::hash::{Hash, Hasher};
use store_trace::Event;

/// A pending operation.
#[derive(Clone, Copy, Debug, PartialEq, Eq, Hash)]
pub struct UnderWay {
    pub op: u64,
    /// The hart that began it.
    pub hart: u32,
}

/// What the legal volumes of a moment are made of.
#[derive(Drop)]
pub struct Outcomes {
    /// The starting volume with the entries of the ended operations, where it has all their inodes.
    settled: Option<Volume>,
    /// The pending operations in the order of their numbers, each of which may be in a legal volume or not.
    under_way: Vec<UnderWay>,
}

impl PartialEq for Outcomes {
    ghost eq = { same_outcomes };

    ghost laws = { partial_equiv_from_equiv outcomes_equivalent };

    fn eq(&self, other: &Outcomes) -> bool {
        same_settled(&self.settled, &other.settled) && self.under_way == other.under_way
    }
}

impl Eq for Outcomes {
    ghost laws = { outcomes_equivalent };
}

/// By the pending operations: a hash need tell no more apart.
impl Hash for Outcomes {
    ghost hash_input = { λ o. fed.slice mark_input o.under_way.items };

    ghost respects_eq = { outcomes_alike.fed };

    fn hash<H: Hasher>(&self, state: &mut H) {
        self.under_way.hash(state);
    }
}

impl Outcomes {
    /// What the volumes may be over this starting volume, before any event.
    pub fn new(alloc: Global, start: Option<Volume>) -> Outcomes
        ensures { (plan : List AnOperation) → AreOutcomes plan start [] result.settled result.under_way.items }
    {
        Outcomes {
            settled: start,
            under_way: Vec::new(alloc),
        }
    }

    /// Takes in the event after those so far. An operation that begins in it hasn't ended.
    pub fn note(&mut self, plan: &Plan, event: Event) -> Result<(), AllocError>
        ensures outcomes { OnOk result ((start : Option (List (List AnEntry))) (before : List AnEvent) →
            AreOutcomes plan.now.operations start before self.old.settled self.old.under_way.items →
            ((op : ℕ) → begun_by event ≡ Some op → ¬ Contains (ended before) op) →
            AreOutcomes plan.now.operations start (before ++ event ∷ []) self.new.settled self.new.under_way.items) }
        ensures in_order { OnOk result (AreInOrder self.old.under_way.items →
            ((op : ℕ) → begun_by event ≡ Some op → ¬ Contains (map (λ u. u.op) self.old.under_way.items) op) →
            AreInOrder self.new.under_way.items) }
    {
        match event {
            Event::Begin { hart, op } => self.begin(hart, op),
            Event::End { op, .. } => self.end(plan, op),
            Event::Store { .. } | Event::Clean { .. } | Event::Fence { .. } => Ok(()),
        }
    }

    fn begin(&mut self, hart: u32, op: u64) -> Result<(), AllocError>
        ensures settled { self.new.settled ≡ self.old.settled }
        ensures under_way { OnOk result (IsPermutation (begun_on hart op ∷ self.old.under_way.items) self.new.under_way.items) }
        ensures in_order { OnOk result (AreInOrder self.old.under_way.items → ¬ Contains (map (λ u. u.op) self.old.under_way.items) op →
            AreInOrder self.new.under_way.items) }
    {
        let place = self.place_of(op);
        self.under_way.insert(place, UnderWay { op, hart })?;
        Ok(())
    }

    fn end(&mut self, plan: &Plan, op: u64) -> Result<(), AllocError>
        ensures settled { OnOk result (self.new.settled
            ≡ option_and_then (λ volume. with_entries volume (planned plan.now.operations op)) self.old.settled) }
        ensures under_way { self.new.under_way.items ≡ filter (λ other. not (op == other.op)) self.old.under_way.items }
    {
        remove(&mut self.under_way, op);
        if let Some(volume) = self.settled.take() {
            self.settled = settled(volume, plan, op)?;
        }
        Ok(())
    }

    /// Another that is the same.
    pub fn copy(&self, alloc: Global) -> Result<Outcomes, AllocError>
        ensures settled { IfOk result (λ copy. copy.settled ≡ self.now.settled) }
        ensures under_way { IfOk result (λ copy. copy.under_way.items ≡ self.now.under_way.items) }
    {
        Ok(Outcomes {
            settled: copy_of(alloc, &self.settled)?,
            under_way: Vec::from_slice(alloc, &self.under_way)?,
        })
    }

    /// The hart that began the operation, where it is pending.
    pub fn hart_of(&self, op: u64) -> Option<u32>
        ensures { AreInOrder self.now.under_way.items → (hart : ℕ) → (result ≡ Some hart) ↔ Contains self.now.under_way.items (begun_on hart op) }
    {
        match self.under_way.get(self.place_of(op)) {
            Some(found) if found.op == op => Some(found.hart),
            _ => None,
        }
    }

    /// Where the operation stands among the pending ones, or would stand.
    fn place_of(&self, op: u64) -> usize
        ensures bound { result ≤ length self.now.under_way.items }
        ensures place { AreInOrder self.now.under_way.items →
            IsPartitionPoint (λ u. u.op < op) (λ u. op ≤ u.op) self.now.under_way.items result }
    {
        self.under_way.partition_point(|other| other.op < op)
    }

    /// Whether a pending operation adds to an inode of this one, which the plan has.
    pub fn shares_inode(&self, plan: &Plan, op: u64, operation: &Operation) -> bool
        requires { operation_of plan.now.operations op ≡ Some operation.now }
        ensures { IsTrue result ↔ ((other : ℕ) × Contains (map (λ u. u.op) self.now.under_way.items) other × ShareInode plan.now.operations other op) }
    {
        one_shares(&self.under_way, plan, op, operation)
    }

    /// Whether the volume is legal. No two pending operations add to one inode, so the logs of its inodes tell of each
    /// whether it is in the volume.
    pub fn has(&self, alloc: Global, plan: &Plan, volume: &Volume) -> Result<bool, AllocError>
        ensures { IfOk result (λ legal. (start : Result (List (List AnEntry)) AFault) (events : List AnEvent) →
            AreOutcomes plan.now.operations (result_ok start) events self.now.settled self.now.under_way.items →
            AreApart plan.now.operations events →
            IsTrue legal ↔ IsLegal plan.now.operations start events volume.now) }
    {
        let Some(settled) = &self.settled else {
            return Ok(false);
        };
        let under_way = self.under_way.as_slice();
        if !any_shown(plan, settled, under_way, volume) {
            return Ok(settled.equals(volume));
        }
        let expected = as_shown(alloc, plan, settled, under_way, volume)?;
        Ok(expected.equals(volume))
    }
}

/// Whether both are the same volume, or neither is one.
fn same_settled(one: &Option<Volume>, other: &Option<Volume>) -> bool
    ensures { result ≡ same_settled one.now other.now }
{
    match (one, other) {
        (Some(one), Some(other)) => one.equals(other),
        (None, None) => true,
        _ => false,
    }
}

/// Another volume with the same logs, where there is one.
pub fn copy_of(alloc: Global, volume: &Option<Volume>) -> Result<Option<Volume>, AllocError>
    ensures { IfOk result (λ copy. copy ≡ volume.now) }
{
    match volume {
        Some(volume) => Ok(Some(volume.copy(alloc)?)),
        None => Ok(None),
    }
}

fn one_shares(under_way: &[UnderWay], plan: &Plan, op: u64, operation: &Operation) -> bool
    requires { operation_of plan.now.operations op ≡ Some operation.now }
    ensures { IsTrue result ↔ ((other : ℕ) × Contains (map (λ u. u.op) under_way.now) other × ShareInode plan.now.operations other op) }
{
    for other in under_way {
        if shares_with(plan, other.op, op, operation) {
            return true;
        }
    }
    false
}

fn remove(under_way: &mut Vec<UnderWay>, op: u64)
    ensures { under_way.new.items ≡ filter (λ other. not (op == other.op)) under_way.old.items }
{
    under_way.retain(|other| op != other.op);
}

/// The volume with the entries of the operation. None where it lacks one of its inodes.
#[tactic(auto, using(crate::proofs::Looping::settled_planned, crate::proofs::Looping::settled_unplanned, crate::proofs::Looping::settled_unfit))]
fn settled(mut volume: Volume, plan: &Plan, op: u64) -> Result<Option<Volume>, AllocError>
    ensures { IfOk result (λ settled. with_entries volume (planned plan.now.operations op) ≡ settled) }
{
    let Some(operation) = find_operation(plan, op) else {
        return Ok(Some(volume));
    };
    if !fits(&volume, &operation) {
        return Ok(None);
    }
    append(&mut volume, &operation)?;
    Ok(Some(volume))
}

/// Whether the volume shows one of the operations, over the settled one.
fn any_shown(plan: &Plan, settled: &Volume, under_way: &[UnderWay], shown: &Volume) -> bool
    ensures { result ≡ false → filter (λ op. is_shown settled.now shown.now (planned plan.now.operations op)) (map (λ u. u.op) under_way.now) ≡ [] }
{
    for operation in under_way {
        if shows_planned(plan, settled, operation.op, shown) {
            return true;
        }
    }
    false
}

/// Whether the volume shows the operation of this number, over the settled one.
#[tactic(auto, using(crate::proofs::Looping::shown_planned, crate::proofs::Looping::shown_unplanned))]
fn shows_planned(plan: &Plan, settled: &Volume, op: u64, shown: &Volume) -> bool
    ensures { result ≡ is_shown settled.now shown.now (planned plan.now.operations op) }
{
    match find_operation(plan, op) {
        Some(operation) => shows(settled, shown, &operation),
        None => false,
    }
}

/// The volume with the entries of those operations that the other volume shows.
#[tactic(auto, using(crate::proofs::Looping::same_inodes))]
fn as_shown(
    alloc: Global,
    plan: &Plan,
    settled: &Volume,
    under_way: &[UnderWay],
    shown: &Volume,
) -> Result<Volume, AllocError>
    ensures { IfOk result (λ expected. with_entries settled.now (flat_map (planned plan.now.operations)
        (filter (λ op. is_shown settled.now shown.now (planned plan.now.operations op)) (map (λ u. u.op) under_way.now))) ≡ Some expected) }
{
    let mut expected = settled.copy(alloc)?;
    for operation in under_way {
        add_shown(&mut expected, plan, settled, operation.op, shown)?;
    }
    Ok(expected)
}

/// Adds the entries of the operation, if the other volume shows it.
#[tactic(auto, using(crate::proofs::Looping::shown_fits, crate::proofs::Looping::added_shown, crate::proofs::Looping::added_hidden, crate::proofs::Looping::added_unplanned))]
fn add_shown(
    expected: &mut Volume,
    plan: &Plan,
    settled: &Volume,
    op: u64,
    shown: &Volume,
) -> Result<(), AllocError>
    requires { length expected.old ≡ length settled.now }
    ensures { OnOk result (with_entries expected.old
        (if is_shown settled.now shown.now (planned plan.now.operations op) then planned plan.now.operations op else [])
        ≡ Some expected.new) }
{
    let Some(operation) = find_operation(plan, op) else {
        return Ok(());
    };
    if shows(settled, shown, &operation) {
        append(expected, &operation)?;
    }
    Ok(())
}
