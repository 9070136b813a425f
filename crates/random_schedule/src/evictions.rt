//! The evictions that are drawn.

ghost use Rattle.random_schedule.specs.Evictions.{BeginsAt, Draws, InTurn, stored_by};
ghost use Rattle.random_schedule.specs.SplitMix.{next_state};
ghost use Rattle.std.specs.List.Sorted.{IsNonDecreasingBy};
ghost use Rattle.std.specs.Prelude.{◌≡◌, ◌≤◌, ◌<◌, [], All, IfOk, length, map, ℕ};

use crate::numbers::Numbers;
use std::alloc::{AllocError, Global};

/// The eviction of a cache line, and the hart step that it comes right after, the first being hart step 1.
#[derive(Clone, Copy)]
pub struct Eviction {
    pub step: u32,
    pub line: u32,
}

/// The first store to a cache line, by the hart step that made it, the first being hart step 1.
#[derive(Clone, Copy)]
pub struct FirstStore {
    pub step: u32,
    pub line: u32,
}

/// Draws evictions for a run of so many hart steps from its first stores, in order: each at a step from the first store on,
/// and of a line stored by then. None where there is no store.
pub(crate) fn draw_evictions(
    alloc: Global,
    numbers: &mut Numbers,
    stores: &[FirstStore],
    steps: u32,
    count: u32,
) -> Result<Vec<Eviction>, AllocError>
    requires ascending { IsNonDecreasingBy (λ store. store.step) stores.now }
    requires within { All (λ store. store.step ≤ steps) stores.now }
    ensures none { stores.now ≡ [] → IfOk result (λ evictions. evictions.items ≡ []) }
    ensures drawn { IfOk result (λ evictions. (first : ℕ) → BeginsAt stores.now first →
        InTurn (Draws stores.now first steps) numbers.old evictions.items numbers.new × (length evictions.items ≡ count)) }
{
    let Some(first) = stores.first() else {
        return Ok(Vec::new(alloc));
    };
    draw_from(alloc, numbers, stores, first.step, steps, count)
}

fn draw_from(
    alloc: Global,
    numbers: &mut Numbers,
    stores: &[FirstStore],
    first: u32,
    steps: u32,
    count: u32,
) -> Result<Vec<Eviction>, AllocError>
    requires ascending { IsNonDecreasingBy (λ store. store.step) stores.now }
    requires begins { BeginsAt stores.now first }
    requires within { first ≤ steps }
    ensures drawn { IfOk result (λ evictions. InTurn (Draws stores.now first steps) numbers.old evictions.items numbers.new) }
    ensures count { IfOk result (λ evictions. length evictions.items ≡ count) }
{
    let mut evictions = Vec::new(alloc);
    for _done in 0..count {
        evictions.push(draw_eviction(numbers, stores, first, steps))?;
    }
    Ok(evictions)
}

/// Draws an eviction: its step from the first store's on, and then its line from those stored by then.
fn draw_eviction(numbers: &mut Numbers, stores: &[FirstStore], first: u32, steps: u32) -> Eviction
    requires ascending { IsNonDecreasingBy (λ store. store.step) stores.now }
    requires begins { BeginsAt stores.now first }
    requires within { first ≤ steps }
    ensures drawn { Draws stores.now first steps numbers.old result }
    ensures state { numbers.new ≡ next_state (next_state numbers.old) }
{
    let step = first + numbers.below(u64::from(steps - first) + 1) as u32;
    let stored = stores_by(stores, step);
    let place = numbers.below(stored.len() as u64) as usize;
    let line = stored[place].line;
    Eviction { step, line }
}

/// Of first stores in order those that were made by a step.
fn stores_by(stores: &[FirstStore], step: u32) -> &[FirstStore]
    requires { IsNonDecreasingBy (λ store. store.step) stores.now }
    ensures lines { map (λ store. store.line) result.now ≡ stored_by step stores.now }
    ensures some { (first : ℕ) → BeginsAt stores.now first → first ≤ step → 0 < length result.now }
{
    let count = stores.partition_point(|store| store.step <= step);
    let (made, _) = stores.split_at(count);
    made
}
