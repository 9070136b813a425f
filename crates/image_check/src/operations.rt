//! The operations of a plan, and what they append.

ghost use Rattle.image_check.specs.Growth.{are_within, is_shown};
ghost use Rattle.image_check.specs.Legal.{with_entries};
ghost use Rattle.image_check.specs.OrderFaults.{ShareInode};
ghost use Rattle.image_check.specs.Planned.{operation_of};
ghost use Rattle.plan.specs.Entries.{entries_of};
ghost use Rattle.nova_log.specs.Logs.{log_of};
ghost use Rattle.std.specs.List.{Contains};
ghost use Rattle.std.specs.Prelude.{◌≡◌, ◌↔◌, ℕ, length, map, IsTrue, OnOk, Some};

use nova_log::Volume;
use plan::{Operation, Plan, PlannedEntries};
use std::alloc::AllocError;

/// The planned operation of this number. It is looked for where it stands if the numbers go on by one from the first.
#[tactic(auto, using(crate::proofs::Planning::found_at))]
pub fn find_operation(plan: &Plan, op: u64) -> Option<Operation>
    ensures { result ≡ operation_of plan.now.operations op }
{
    let operations = plan.operations();
    match operations.get(likely_place(operations, op)) {
        Some(operation) if operation.number == op => Some(*operation),
        _ => search(operations, op),
    }
}

fn likely_place(operations: &[Operation], op: u64) -> usize {
    match operations.first() {
        Some(first) => op.saturating_sub(first.number) as usize,
        None => 0,
    }
}

#[tactic(auto, using(crate::proofs::Planning::found_here, crate::proofs::Planning::found_later))]
fn search(operations: &[Operation], op: u64) -> Option<Operation>
    ensures { result ≡ operation_of operations.now op }
{
    for operation in operations {
        if operation.number == op {
            return Some(*operation);
        }
    }
    None
}

/// Whether two operations add to one inode.
#[tactic(auto, using(crate::proofs::Planning::share_one, crate::proofs::Planning::share_two))]
pub fn share_inode(one: &Operation, other: &Operation) -> bool
    ensures { IsTrue result ↔ ((inode : ℕ)
        × Contains (map (λ e. e.inode) (entries_of one.now)) inode
        × Contains (map (λ e. e.inode) (entries_of other.now)) inode) }
{
    let PlannedEntries { first, second } = one.entries();
    match second {
        Some(second) => adds_to(other, first.inode) || adds_to(other, second.inode),
        None => adds_to(other, first.inode),
    }
}

/// Whether the operation of this number adds to an inode of the other one, which the plan has.
pub fn shares_with(plan: &Plan, one: u64, other: u64, operation: &Operation) -> bool
    requires { operation_of plan.now.operations other ≡ Some operation.now }
    ensures { IsTrue result ↔ ShareInode plan.now.operations one other }
{
    match find_operation(plan, one) {
        Some(one) => share_inode(&one, operation),
        None => false,
    }
}

#[tactic(auto, using(crate::proofs::Planning::one_inode, crate::proofs::Planning::two_inodes))]
fn adds_to(operation: &Operation, inode: u32) -> bool
    ensures { IsTrue result ↔ Contains (map (λ e. e.inode) (entries_of operation.now)) inode }
{
    let PlannedEntries { first, second } = operation.entries();
    match second {
        Some(second) => first.inode == inode || second.inode == inode,
        None => first.inode == inode,
    }
}

/// Whether the volume has the inodes of the operation.
pub fn fits(volume: &Volume, operation: &Operation) -> bool
    ensures { result ≡ are_within (length volume.now) (entries_of operation.now) }
{
    let inodes = volume.inodes();
    let PlannedEntries { first, second } = operation.entries();
    match second {
        Some(second) => first.inode < inodes && second.inode < inodes,
        None => first.inode < inodes,
    }
}

/// Adds the entries of the operation. Where memory is refused, the first of them may have been added.
#[tactic(auto, using(crate::proofs::Growing::first_within, crate::proofs::Growing::second_within, crate::proofs::Growing::one_grown, crate::proofs::Growing::two_grown))]
pub fn append(volume: &mut Volume, operation: &Operation) -> Result<(), AllocError>
    requires { IsTrue (are_within (length volume.old) (entries_of operation.now)) }
    ensures { OnOk result (with_entries volume.old (entries_of operation.now) ≡ Some volume.new) }
{
    let PlannedEntries { first, second } = operation.entries();
    volume.append(first.inode, first.entry)?;
    match second {
        Some(second) => volume.append(second.inode, second.entry),
        None => Ok(()),
    }
}

/// Whether the second volume shows the operation: whether its first inode has more entries than in the first volume,
/// which has the operation's inodes.
#[tactic(auto, using(crate::proofs::Growing::shown_first))]
pub fn shows(before: &Volume, after: &Volume, operation: &Operation) -> bool
    ensures { result ≡ is_shown before.now after.now (entries_of operation.now) }
{
    let PlannedEntries { first, .. } = operation.entries();
    fits(before, operation) && log_length(before, first.inode) < log_length(after, first.inode)
}

/// How many entries the inode's log has, none where the volume lacks the inode.
fn log_length(volume: &Volume, inode: u32) -> usize
    ensures { result ≡ length (log_of volume.now inode) }
{
    if inode < volume.inodes() {
        volume.log(inode).len()
    } else {
        0
    }
}
