//! The cleans and fences of a run, by the instruction that made them.

ghost use Rattle.report.specs.Uses.{is_clean_or_fence, is_paid_in_vain, is_unfenced_by};
ghost use Rattle.report.specs.Tallies.{AreUses, with_use};
ghost use Rattle.std.specs.BTreeMap.{Updates, get};
ghost use Rattle.std.specs.Ordering.{nat_cmp};
ghost use Rattle.std.specs.Prelude.{◌≡◌, ◌<◌, ◌≤◌, ◌^◌, IfOk, OnOk, Some, length, All, IfSome, ℕ};
ghost use Rattle.std.specs.List.{zip};

use crate::hart_of;
use durability::Reason;
use machine::TracedEvent;
use std::alloc::{AllocError, Global};
use std::collections::BTreeMap;
use store_trace::Event;

/// The cleans and fences that one instruction made.
#[derive(Clone, Copy)]
pub(crate) struct Uses {
    /// The hart that made them, where one made them all.
    pub(crate) hart: Option<u32>,
    pub(crate) count: u64,
    /// How many of them are made in vain.
    pub(crate) vain: u64,
}

/// Whether an event is a clean or a fence.
pub(crate) fn is_clean_or_fence(event: Event) -> bool
    ensures { result ≡ is_clean_or_fence event }
{
    matches!(event, Event::Clean { .. } | Event::Fence { .. })
}

/// Whether an event is needless although it is fenced.
pub(crate) fn is_paid_in_vain(reason: Option<Reason>) -> bool
    ensures { result ≡ is_paid_in_vain reason }
{
    match reason {
        None | Some(Reason::NotFenced) => false,
        Some(_) => true,
    }
}

/// Whether an event is needless for want of a fence.
pub(crate) fn is_unfenced(reason: Option<Reason>) -> bool
    ensures { result ≡ is_unfenced_by reason }
{
    matches!(reason, Some(Reason::NotFenced))
}

/// The uses of each pc at which there is one.
pub(crate) fn uses_by_pc(
    alloc: Global,
    traced: &[TracedEvent],
    reasons: &[Option<Reason>],
) -> Result<BTreeMap<u64, Uses>, AllocError>
    requires { length reasons.now ≡ length traced.now }
    ensures { IfOk result (λ uses. AreUses (zip traced.now reasons.now) (get nat_cmp uses)) }
{
    let mut uses = BTreeMap::new(alloc);
    for at in 0..traced.len() {
        let told = traced[at];
        if is_clean_or_fence(told.event) {
            let is_vain = is_paid_in_vain(reasons[at]);
            add_use(&mut uses, told.pc, hart_of(told.event), is_vain)?;
        }
    }
    Ok(uses)
}

/// Adds a use by a hart to those of a pc.
fn add_use(
    uses: &mut BTreeMap<u64, Uses>,
    pc: u64,
    hart: u32,
    is_vain: bool,
) -> Result<(), AllocError>
    requires room { IfSome (get nat_cmp uses.old pc) (λ one. (one.count < 2 ^ 63) × (one.vain < 2 ^ 63)) }
    ensures { OnOk result (Updates nat_cmp uses.old uses.new pc (Some (with_use hart is_vain (get nat_cmp uses.old pc)))) }
{
    let before = uses.get(&pc).copied();
    uses.insert(pc, with_use(before, hart, is_vain))?;
    Ok(())
}

/// The uses of a pc with one more.
fn with_use(before: Option<Uses>, hart: u32, is_vain: bool) -> Uses
    requires room { IfSome before (λ one. (one.count < 2 ^ 63) × (one.vain < 2 ^ 63)) }
    ensures { result ≡ with_use hart is_vain before }
{
    let Some(uses) = before else {
        return Uses {
            hart: Some(hart),
            count: 1,
            vain: u64::from(is_vain),
        };
    };
    Uses {
        hart: uses.hart.filter(|first| *first == hart),
        count: uses.count + 1,
        vain: uses.vain + u64::from(is_vain),
    }
}
