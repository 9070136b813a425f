//! How many steps of harts a schedule may have.

ghost use Rattle.std.specs.Prelude.{◌≡◌, ◌<◌, ◌^◌, ◌↔◌, IsTrue};
ghost use Rattle.machine.specs.Grammar.{hart_steps, steps_in};

use crate::schedule::items::Item;

/// How many steps of harts an item has.
pub(crate) fn steps_in(item: &Item) -> u32
    ensures { result ≡ steps_in item.now }
{
    match *item {
        Item::Steps { count, .. } => count,
        Item::Evict { .. } => 0,
    }
}

/// Whether a text may say as many steps of harts as the items have.
#[tactic(auto, using(std::proofs::lemmas::List::Sums::sum_by_more, std::proofs::lemmas::List::Sums::sum_by_more_le))]
pub(crate) fn is_within_limit(items: &[Item]) -> bool
    ensures { IsTrue result ↔ (hart_steps items.now < 2 ^ 32) }
{
    let mut total = 0u32;
    for item in items {
        let Some(sum) = total.checked_add(steps_in(item)) else {
            return false;
        };
        total = sum;
    }
    true
}
