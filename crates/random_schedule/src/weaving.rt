//! Evictions among the steps of a schedule.

ghost use Rattle.random_schedule.specs.Weaving.{eviction_steps, those_after, with_evictions};
ghost use Rattle.machine.specs.Grammar.{hart_steps, steps_in};
ghost use Rattle.machine.specs.Steps.{all_steps, steps_of};
ghost use Rattle.std.specs.List.Sorted.{IsNonDecreasingBy};
ghost use Rattle.std.specs.Prelude.{◌≡◌, ◌+◌, ◌^◌, ◌<◌, ◌++◌, ℕ, IfOk, OnOk, replicate};

use crate::evictions::Eviction;
use machine::{Item, Schedule, Step};
use std::alloc::{AllocError, Global};

/// The steps of a schedule with evictions among them, those right after one hart step in the order of the list.
pub(crate) fn weave(
    alloc: Global,
    schedule: &Schedule,
    evictions: Vec<Eviction>,
) -> Result<Schedule, AllocError>
    requires { hart_steps schedule.now < 2 ^ 32 }
    ensures { IfOk result (λ woven. all_steps woven ≡ with_evictions 0 evictions.items (all_steps schedule.now)) }
{
    let mut evictions = evictions;
    sort(&mut evictions)?;
    weave_sorted(alloc, schedule, &evictions)
}

/// Sorts evictions by their hart steps. Those right after one hart step keep their order.
fn sort(evictions: &mut Vec<Eviction>) -> Result<(), AllocError>
    ensures sorted { OnOk result (IsNonDecreasingBy (λ eviction. eviction.step) evictions.new.items) }
    ensures stable { OnOk result ((step : ℕ) → those_after step evictions.new.items ≡ those_after step evictions.old.items) }
{
    evictions.sort_by_key(|eviction| eviction.step)
}

fn weave_sorted(
    alloc: Global,
    schedule: &Schedule,
    evictions: &[Eviction],
) -> Result<Schedule, AllocError>
    requires within { hart_steps schedule.now < 2 ^ 32 }
    requires sorted { IsNonDecreasingBy (λ eviction. eviction.step) evictions.now }
    ensures { IfOk result (λ woven. all_steps woven ≡ with_evictions 0 evictions.now (all_steps schedule.now)) }
{
    let mut woven = Schedule::new(alloc);
    let mut made = 0;
    for item in schedule.items() {
        made = weave_item(&mut woven, made, *item, evictions)?;
    }
    Ok(woven)
}

/// Adds an item, before which there are `made` hart steps, with the evictions right after its steps, and gives the number of
/// hart steps then.
fn weave_item(
    woven: &mut Schedule,
    made: u32,
    item: Item,
    evictions: &[Eviction],
) -> Result<u32, AllocError>
    requires within { made + steps_in item < 2 ^ 32 }
    requires sorted { IsNonDecreasingBy (λ eviction. eviction.step) evictions.now }
    ensures made { IfOk result (λ after. after ≡ made + steps_in item) }
    ensures woven { OnOk result (all_steps woven.new
        ≡ all_steps woven.old ++ with_evictions made evictions.now (steps_of item)) }
{
    match item {
        Item::Steps { hart, count } => {
            weave_hart(woven, made, hart, count, evictions)?;
            Ok(made + count)
        }
        Item::Evict { .. } => {
            woven.push(item)?;
            Ok(made)
        }
    }
}

/// Adds steps of a hart, before which there are `made` hart steps, with the evictions right after them.
fn weave_hart(
    woven: &mut Schedule,
    made: u32,
    hart: u32,
    count: u32,
    evictions: &[Eviction],
) -> Result<(), AllocError>
    requires within { made + count < 2 ^ 32 }
    requires sorted { IsNonDecreasingBy (λ eviction. eviction.step) evictions.now }
    ensures { OnOk result (all_steps woven.new
        ≡ all_steps woven.old ++ with_evictions made evictions.now (replicate count (Step.Hart hart))) }
{
    for done in 0..count {
        woven.push_step(hart)?;
        push_evictions(woven, evictions_after(evictions, made + done + 1))?;
    }
    Ok(())
}

/// Of evictions in the order of their hart steps those right after one hart step.
fn evictions_after(evictions: &[Eviction], step: u32) -> &[Eviction]
    requires { IsNonDecreasingBy (λ eviction. eviction.step) evictions.now }
    ensures { result.now ≡ those_after step evictions.now }
{
    let start = evictions.partition_point(|eviction| eviction.step < step);
    let (_, later) = evictions.split_at(start);
    let count = later.partition_point(|eviction| eviction.step <= step);
    let (here, _) = later.split_at(count);
    here
}

fn push_evictions(schedule: &mut Schedule, evictions: &[Eviction]) -> Result<(), AllocError>
    ensures { OnOk result (all_steps schedule.new ≡ all_steps schedule.old ++ eviction_steps evictions.now) }
{
    for eviction in evictions {
        schedule.push(Item::Evict {
            line: eviction.line,
        })?;
    }
    Ok(())
}
