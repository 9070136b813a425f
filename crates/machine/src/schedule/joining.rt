//! The items of a schedule, with neighbouring steps of one hart as one item.

ghost use Rattle.std.specs.Prelude.{◌≡◌, ◌<◌, ◌^◌, [], MatchOption, not, position};
ghost use Rattle.machine.specs.Grammar.{hart_steps, steps_in};
ghost use Rattle.machine.specs.Joined.{joined};
ghost use Rattle.machine.specs.Runs.{IsFirstBusy, IsFirstJoined, IsRun, continues, is_idle};

use crate::schedule::items::Item;
use crate::schedule::limit::steps_in;

/// Whether an item neither makes a step nor evicts a line.
fn is_idle(item: &Item) -> bool
    ensures { result ≡ is_idle item.now }
{
    matches!(*item, Item::Steps { count: 0, .. })
}

/// Whether an item adds nothing to steps of this hart but further ones.
fn continues(hart: u32, item: &Item) -> bool
    ensures { result ≡ continues hart item.now }
{
    match *item {
        Item::Steps { hart: other, count } => other == hart || count == 0,
        Item::Evict { .. } => false,
    }
}

/// The place of the first item that isn't idle.
fn start(items: &[Item]) -> Option<usize>
    ensures { result ≡ position (λ item. not (is_idle item)) items.now }
{
    items.iter().position(|item| !is_idle(item))
}

/// The place of the first item that ends the steps of a hart.
fn end(hart: u32, items: &[Item]) -> Option<usize>
    ensures { result ≡ position (λ item. not (continues hart item)) items.now }
{
    items.iter().position(|item| !continues(hart, item))
}

/// How many steps the items have.
fn total(items: &[Item]) -> u32
    requires { hart_steps items.now < 2 ^ 32 }
    ensures { result ≡ hart_steps items.now }
{
    items.iter().map(steps_in).sum()
}

/// The first item that isn't idle, and the items after it.
#[tactic(auto, using(crate::proofs::RunLemmas::nothing_busy))]
fn first_busy(items: &[Item]) -> Option<(Item, &[Item])>
    ensures { MatchOption result (joined items.now ≡ [])
        (λ found. IsFirstBusy items.now found.0 found.1.now) }
{
    let start = start(items)?;
    Some((items[start], &items[start + 1..]))
}

/// The items that only add steps of a hart, from the front on, and the items after them.
fn run(hart: u32, items: &[Item]) -> (&[Item], &[Item])
    ensures { IsRun hart items.now result.0.now result.1.now }
{
    items.split_at(end(hart, items).unwrap_or(items.len()))
}

/// The first of the joined items, and the items after those that it joins.
#[tactic(auto, using(crate::proofs::RunLemmas::eviction_first, crate::proofs::RunLemmas::steps_first))]
pub(crate) fn first_joined(items: &[Item]) -> Option<(Item, &[Item])>
    requires { hart_steps items.now < 2 ^ 32 }
    ensures { MatchOption result (joined items.now ≡ [])
        (λ found. IsFirstJoined items.now found.0 found.1.now) }
{
    let (first, after) = first_busy(items)?;
    match first {
        Item::Evict { .. } => Some((first, after)),
        Item::Steps { hart, count } => {
            let (run, rest) = run(hart, after);
            let count = count + total(run);
            Some((Item::Steps { hart, count }, rest))
        }
    }
}
