//! The marks of operations in a trace, looked at in turn.

ghost use Rattle.store_trace.specs.Marks.{begun, begun_by, ended, pending};
ghost use Rattle.image_check.specs.OrderFaults.{AreNoted, AreSettled, AreSound, HasFault, IsFirstFault, IsLowestFault, OpensSharer, ShareInode};
ghost use Rattle.image_check.specs.Planned.{operation_of};
ghost use Rattle.image_check.specs.declared.fault.OpFault.{OpFault as AFault};
ghost use Rattle.std.specs.List.{Contains};
ghost use Rattle.std.specs.Prelude.{◌≡◌, ◌↔◌, ℕ, ◌++◌, ◌∷◌, [], length, false, IfErr, IsTrue, OnOk};

use crate::OpFault;
use crate::marks::{has_begun, has_ended, last_begin};
use crate::operations::{find_operation, shares_with};
use plan::{Operation, Plan};
use store_trace::{Event, Trace};

/// Whether the marks of the trace fit the plan and each other. Else it answers the first event at fault by its lowest
/// fault. It takes no memory. It looks back no further than to the first operation that is pending, where operations begin in the
/// order of their numbers.
#[tactic(auto, using(crate::proofs::Faulting::first_fault, crate::proofs::Beginning::sound_front, crate::proofs::Settling::none_noted))]
pub fn check_trace(plan: &Plan, trace: &Trace) -> Result<(), OpFault>
    ensures ok { OnOk result (AreSound plan.now.operations trace.now.events (length trace.now.events)) }
    ensures err { IfErr result (λ fault. IsFirstFault plan.now.operations trace.now.events fault) }
{
    let events = trace.events();
    let mut noted = Noted {
        greatest: 0,
        settled: 0,
    };
    for at in 0..events.len() {
        noted.check_event(plan, &events[..at], events[at])?;
    }
    Ok(())
}

/// What is known of the operations that begin in the events so far.
#[derive(Drop)]
struct Noted {
    /// None has a greater number.
    greatest: u64,
    /// Each that begins before this place has ended.
    settled: usize,
}

impl Noted {
    /// Whether the event fits the plan and the events before it, which fit. If so it is noted.
    #[tactic(auto, using(crate::proofs::Faulting::store_faultless, crate::proofs::Faulting::clean_faultless, crate::proofs::Faulting::fence_faultless, crate::proofs::Settling::noted_still))]
    fn check_event(&mut self, plan: &Plan, before: &[Event], event: Event) -> Result<(), OpFault>
        requires sound { AreSound plan.now.operations before.now (length before.now) }
        requires noted { AreNoted before.now self.old }
        ensures ok { OnOk result ((fault : AFault) → ¬ HasFault plan.now.operations before.now event fault) }
        ensures err { IfErr result (λ fault. IsLowestFault plan.now.operations before.now event fault) }
        ensures noted { OnOk result (AreNoted (before.now ++ event ∷ []) self.new) }
    {
        match event {
            Event::Begin { op, .. } => self.check_begin(plan, before, op),
            Event::End { hart, op } => check_end(plan, before, hart, op),
            Event::Store { .. } | Event::Clean { .. } | Event::Fence { .. } => Ok(()),
        }
    }

    fn check_begin(&mut self, plan: &Plan, before: &[Event], op: u64) -> Result<(), OpFault>
        requires sound { AreSound plan.now.operations before.now (length before.now) }
        requires noted { AreNoted before.now self.old }
        ensures ok { OnOk result ((hart : ℕ) (fault : AFault) → ¬ HasFault plan.now.operations before.now (Event.Begin hart op) fault) }
        ensures err { IfErr result (λ fault. (hart : ℕ) → IsLowestFault plan.now.operations before.now (Event.Begin hart op) fault) }
        ensures noted { OnOk result ((hart : ℕ) → AreNoted (before.now ++ Event.Begin hart op ∷ []) self.new) }
    {
        let Some(operation) = find_operation(plan, op) else {
            return Err(OpFault::Unknown);
        };
        if self.begins_again(before, op) {
            return Err(OpFault::BegunTwice);
        }
        self.settled = first_pending(before, self.settled);
        if shares_pending(plan, before, self.settled, op, &operation) {
            return Err(OpFault::SharesInode);
        }
        self.greatest = self.greatest.max(op);
        Ok(())
    }

    /// Whether the operation begins in these events. Those of a greater number than any before need no search.
    fn begins_again(&self, before: &[Event], op: u64) -> bool
        requires { AreNoted before.now self.now }
        ensures { IsTrue result ↔ Contains (begun before.now) op }
    {
        op <= self.greatest && has_begun(before, op)
    }
}

fn check_end(plan: &Plan, before: &[Event], hart: u32, op: u64) -> Result<(), OpFault>
    requires sound { AreSound plan.now.operations before.now (length before.now) }
    ensures ok { OnOk result ((fault : AFault) → ¬ HasFault plan.now.operations before.now (Event.End hart op) fault) }
    ensures err { IfErr result (λ fault. IsLowestFault plan.now.operations before.now (Event.End hart op) fault) }
{
    if find_operation(plan, op).is_none() {
        return Err(OpFault::Unknown);
    }
    let Some(place) = last_begin(before, hart, op) else {
        return Err(OpFault::NotPending);
    };
    if has_ended(&before[place..], op) {
        return Err(OpFault::NotPending);
    }
    Ok(())
}

/// From this place on, before which each operation that begins has ended, the first place at which a pending one begins, or the end.
fn first_pending(events: &[Event], from: usize) -> usize
    requires { AreSettled events.now from }
    ensures { AreSettled events.now result }
{
    for place in from..events.len() {
        if begins_pending(&events[place..], events[place]) {
            return place;
        }
    }
    events.len()
}

/// Whether the event begins an operation that doesn't end in these events.
fn begins_pending(events: &[Event], event: Event) -> bool
    ensures { result ≡ false → (op : ℕ) → begun_by event ≡ Some op → Contains (ended events.now) op }
{
    match event.begun() {
        Some(op) => !has_ended(events, op),
        None => false,
    }
}

/// Whether an operation that is pending after the events, which fit, adds to an inode of this one. None that begins before place `from` is
/// pending. It ends after it begins.
fn shares_pending(
    plan: &Plan,
    before: &[Event],
    from: usize,
    op: u64,
    operation: &Operation,
) -> bool
    requires found { operation_of plan.now.operations op ≡ Some operation.now }
    requires sound { AreSound plan.now.operations before.now (length before.now) }
    requires settled { AreSettled before.now from }
    ensures { IsTrue result ↔ ((other : ℕ) × Contains (pending before.now) other × ShareInode plan.now.operations other op) }
{
    for index in from..before.len() {
        if opens_sharer(plan, &before[index..], before[index], op, operation) {
            return true;
        }
    }
    false
}

/// Whether the event begins an operation that doesn't end in these events, and that adds to an inode of this one.
#[tactic(auto, using(crate::proofs::Sharing::other_shares_not))]
fn opens_sharer(plan: &Plan, events: &[Event], event: Event, op: u64, operation: &Operation) -> bool
    requires { operation_of plan.now.operations op ≡ Some operation.now }
    ensures { IsTrue result ↔ OpensSharer plan.now.operations events.now event op }
{
    let Event::Begin { op: other, .. } = event else {
        return false;
    };
    if has_ended(events, other) {
        return false;
    }
    shares_with(plan, other, op, operation)
}
