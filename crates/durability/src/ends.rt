//! Stores that were not in the medium for certain when their operation ended.

ghost use Rattle.durability.specs.Causes.{AreFates};
ghost use Rattle.durability.specs.Firsts.{IsLossAt};
ghost use Rattle.durability.specs.Operations.{AreOpen, IsEndedBy};
ghost use Rattle.durability.specs.Stores.{AreLastStores};
ghost use Rattle.durability.specs.Unpersisted.{AreEndLosses, AreFirstLosses, IsUnpersisted, IsUnpersistedOutside};
ghost use Rattle.std.specs.Prelude.{◌≡◌, ◌+◌, ◌<◌, ◌≤◌, ◌++◌, length, map, All, IfOk, OnOk};
ghost use Rattle.store_trace.specs.TraceView.{IsEvent, NamesLine};

use crate::cause::Fate;
use crate::cut::{Lost, add};
use crate::fates::fates_of;
use crate::losses::{first_of_each_line, late_store};
use crate::operations::{Ended, OpenOperations};
use std::alloc::{AllocError, Global};
use store_trace::{Event, Trace};

/// The first store of a line, of those of an operation, that was past the line's floor when the operation ended.
#[derive(Clone, Copy, Debug, PartialEq, Eq)]
pub struct EndLoss {
    pub operation: u64,
    /// The number of the End.
    pub end: u32,
    pub lost: Lost,
}

/// The stores of a run that were not in the medium for certain in time.
#[derive(Debug, Drop)]
pub struct Unpersisted {
    /// For each End, in order, and each line, upwards, the first store of the operation that was past the line's floor then.
    pub ends: Vec<EndLoss>,
    /// For each line, upwards, the first store outside any operation of its hart that is past the line's floor at the last moment.
    pub outside: Vec<Lost>,
}

/// The stores of the run that were past their line's floor when their operation ended, and those outside operations that are so at
/// the last moment, each with its cause then. An End ends the last Begin of its operation by its hart that none has ended; an
/// End without one tells nothing, and an operation without an End neither. The events name lines below `lines`.
///
/// Time goes by the events, and for each End by the stores since its Begin, with the logarithm of how many of them it leaves. So
/// operations that follow one another, however many, and those that are open together and store little, take time by the events
/// alone; where thousands are open at once over thousands of stores, it is the product of the two, as the number of losses may be.
pub fn tell_unpersisted(alloc: Global, trace: &Trace, lines: u32) -> Result<Unpersisted, AllocError>
    requires { All (NamesLine lines) trace.now.events }
    ensures ends { IfOk result (λ told. AreEndLosses trace.now.events told.ends.items) }
    ensures outside { IfOk result (λ told.
        AreFirstLosses trace.now.events (length trace.now.events) (IsUnpersistedOutside trace.now.events) told.outside.items) }
{
    let events = trace.events();
    let fates = fates_of(alloc, events, lines)?;
    let ends = end_losses(alloc, events, &fates)?;
    let outside = outside_losses(alloc, events, &fates)?;
    Ok(Unpersisted { ends, outside })
}

fn end_losses(alloc: Global, events: &[Event], fates: &[Fate]) -> Result<Vec<EndLoss>, AllocError>
    requires each { All IsEvent events.now }
    requires limit { length events.now ≤ 65536 }
    requires fates { AreFates events.now 0 fates.now }
    ensures { IfOk result (λ told. AreEndLosses events.now told.items) }
{
    let stores = last_stores(alloc, events)?;
    let mut under_way = OpenOperations::none(alloc);
    let mut told = Vec::new(alloc);
    for at in 0..events.len() {
        if let Some(ended) = under_way.read(events, at)? {
            let lost = losses_of(alloc, events, fates, &stores, ended)?;
            add_losses(&mut told, ended, &lost)?;
        }
    }
    Ok(told)
}

/// For each number of first events, from none on, the number of the last store among them, and 0 where there is none.
fn last_stores(alloc: Global, events: &[Event]) -> Result<Vec<u32>, AllocError>
    requires limit { length events.now ≤ 65536 }
    ensures { IfOk result (λ stores. AreLastStores events.now (length events.now) stores.items) }
{
    let mut stores = Vec::new(alloc);
    let mut last = 0;
    stores.push(last)?;
    for at in 0..events.len() {
        if let Event::Store { .. } = events[at] {
            last = at as u32 + 1;
        }
        stores.push(last)?;
    }
    Ok(stores)
}

/// What the End of the operation leaves. It goes back from the End by the stores alone, since an operation may have tens of
/// thousands of other events beside it.
fn losses_of(
    alloc: Global,
    events: &[Event],
    fates: &[Fate],
    stores: &[u32],
    ended: Ended,
) -> Result<Vec<Lost>, AllocError>
    requires limit { length events.now ≤ 65536 }
    requires end { ended.end ≤ length events.now }
    requires fates { AreFates events.now 0 fates.now }
    requires stores { AreLastStores events.now (length events.now) stores.now }
    ensures { IfOk result (λ lost. AreFirstLosses events.now ended.end (IsUnpersisted events.now ended.end ended.hart ended.begin) lost.items) }
{
    let mut lost = Vec::new(alloc);
    let mut number = stores[ended.end as usize];
    while number > ended.begin {
        let at = number as usize - 1;
        add(
            &mut lost,
            late_store(events, fates, at, ended.hart, ended.end),
        )?;
        number = stores[at];
    }
    first_of_each_line(&mut lost);
    Ok(lost)
}

/// Adds what the End of the operation leaves.
fn add_losses(told: &mut Vec<EndLoss>, ended: Ended, lost: &[Lost]) -> Result<(), AllocError>
    ensures { OnOk result (told.new.items
        ≡ told.old.items ++ map (λ one. record { operation = ended.operation; end = ended.end; lost = one }) lost.now) }
{
    for one in lost {
        told.push(EndLoss {
            operation: ended.operation,
            end: ended.end,
            lost: *one,
        })?;
    }
    Ok(())
}

fn outside_losses(alloc: Global, events: &[Event], fates: &[Fate]) -> Result<Vec<Lost>, AllocError>
    requires each { All IsEvent events.now }
    requires limit { length events.now ≤ 65536 }
    requires fates { AreFates events.now 0 fates.now }
    ensures { IfOk result (λ lost. AreFirstLosses events.now (length events.now) (IsUnpersistedOutside events.now) lost.items) }
{
    let mut under_way = OpenOperations::none(alloc);
    let mut lost = Vec::new(alloc);
    for at in 0..events.len() {
        under_way.read(events, at)?;
        add(&mut lost, outside_store(events, fates, at, &under_way))?;
    }
    first_of_each_line(&mut lost);
    Ok(lost)
}

/// What is lost at the last moment of the event at this place, where it is a store past its line's floor then and its hart has no
/// operation among the open ones.
fn outside_store(
    events: &[Event],
    fates: &[Fate],
    at: usize,
    under_way: &OpenOperations,
) -> Option<Lost>
    requires each { All IsEvent events.now }
    requires limit { length events.now ≤ 65536 }
    requires there { at < length events.now }
    requires fates { AreFates events.now 0 fates.now }
    requires under_way { AreOpen events.now (at + 1) under_way.now }
    ensures { IsLossAt events.now (length events.now) (IsUnpersistedOutside events.now) (at + 1) result }
{
    let Event::Store { hart, .. } = events[at] else {
        return None;
    };
    if under_way.has(hart) {
        return None;
    }
    late_store(events, fates, at, hart, events.len() as u32)
}
