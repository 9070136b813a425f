//! The lines of a cut that lack a store, and those that have one that no fence made sure of.

ghost use Rattle.durability.specs.Causes.{AreFates};
ghost use Rattle.durability.specs.Cuts.{IsKeptOf, IsLostOf, IsStorePast, is_store_of};
ghost use Rattle.durability.specs.Given.{AreGiven};
ghost use Rattle.durability.specs.Mends.{AreMends};
ghost use Rattle.std.specs.Prelude.{◌≡◌, ◌≤◌, ◌++◌, length, option_to_list, All, IfOk};
ghost use Rattle.store_trace.specs.TraceView.{NamesLine};

use crate::cause::{Cause, Fate};
use crate::fates::fates_of;
use crate::mend::{Mend, mends_of};
use std::alloc::{AllocError, Global};
use store_trace::{Event, Trace};

/// A line of a cut, and how many of its first stores the cut has.
#[derive(Clone, Copy, Debug, PartialEq, Eq)]
pub struct CutLine {
    pub line: u32,
    pub number: u32,
}

/// The event of a store of the line that is lost, and why it can be.
#[derive(Clone, Copy, Debug, PartialEq, Eq)]
pub struct Lost {
    pub line: u32,
    pub store: u32,
    pub cause: Cause,
}

/// The event of a store of the line that is there by the cache's own choice alone.
#[derive(Clone, Copy, Debug, PartialEq, Eq)]
pub struct Kept {
    pub line: u32,
    pub store: u32,
}

/// The lost and the kept lines of a cut, and what would have made the lost stores durable in time.
#[derive(Debug, Drop)]
pub struct ToldCut {
    /// For each line that lacks a store, the first that it lacks.
    pub lost: Vec<Lost>,
    /// For each line above its floor, the last store that it has.
    pub kept: Vec<Kept>,
    /// For each lost store what would have made it durable in time, each thing once; where none is lost, the kept store that comes too
    /// early.
    pub mends: Vec<Mend>,
}

/// The lost and the kept ones of these lines of a cut of the moment, in the order in which they are given, and what would have made the
/// lost stores durable in time. The events name lines below `lines`.
pub fn tell_cut(
    alloc: Global,
    trace: &Trace,
    lines: u32,
    moment: u32,
    cut: &[CutLine],
) -> Result<ToldCut, AllocError>
    requires named { All (NamesLine lines) trace.now.events }
    requires moment { moment ≤ length trace.now.events }
    ensures lost { IfOk result (λ told. AreGiven (IsLostOf trace.now.events moment) cut.now told.lost.items) }
    ensures kept { IfOk result (λ told. AreGiven (IsKeptOf trace.now.events moment) cut.now told.kept.items) }
    ensures mends { IfOk result (λ told.
        AreMends trace.now.events moment told.lost.items told.kept.items told.mends.items) }
{
    let events = trace.events();
    let fates = fates_of(alloc, events, lines)?;
    let lost = lost_lines(alloc, events, &fates, moment, cut)?;
    let kept = kept_lines(alloc, events, &fates, moment, cut)?;
    let mends = mends_of(alloc, events, moment, &lost, &kept)?;
    Ok(ToldCut { lost, kept, mends })
}

fn lost_lines(
    alloc: Global,
    events: &[Event],
    fates: &[Fate],
    moment: u32,
    cut: &[CutLine],
) -> Result<Vec<Lost>, AllocError>
    requires limit { length events.now ≤ 65536 }
    requires moment { moment ≤ length events.now }
    requires fates { AreFates events.now 0 fates.now }
    ensures { IfOk result (λ told. AreGiven (IsLostOf events.now moment) cut.now told.items) }
{
    let mut told = Vec::new(alloc);
    for entry in cut {
        let lost = lost_of(events, fates, moment, *entry);
        add(&mut told, lost)?;
    }
    Ok(told)
}

fn kept_lines(
    alloc: Global,
    events: &[Event],
    fates: &[Fate],
    moment: u32,
    cut: &[CutLine],
) -> Result<Vec<Kept>, AllocError>
    requires limit { length events.now ≤ 65536 }
    requires moment { moment ≤ length events.now }
    requires fates { AreFates events.now 0 fates.now }
    ensures { IfOk result (λ told. AreGiven (IsKeptOf events.now moment) cut.now told.items) }
{
    let mut told = Vec::new(alloc);
    for entry in cut {
        let kept = kept_of(events, fates, moment, *entry);
        add(&mut told, kept)?;
    }
    Ok(told)
}

/// Adds what there is at the end.
pub(crate) fn add<T: Copy>(told: &mut Vec<T>, given: Option<T>) -> Result<(), AllocError>
    ensures { IfOk result (λ _. told.new.items ≡ told.old.items ++ option_to_list given) }
{
    match given {
        None => Ok(()),
        Some(one) => {
            told.push(one)?;
            Ok(())
        }
    }
}

/// The first store that the line of a cut lacks.
fn lost_of(events: &[Event], fates: &[Fate], moment: u32, entry: CutLine) -> Option<Lost>
    requires limit { length events.now ≤ 65536 }
    requires moment { moment ≤ length events.now }
    requires fates { AreFates events.now 0 fates.now }
    ensures { IsLostOf events.now moment entry result }
{
    match store_past(events, moment, entry.line, entry.number) {
        None => None,
        Some(store) => Some(Lost {
            line: entry.line,
            store,
            cause: fates[store as usize - 1].cause(moment),
        }),
    }
}

/// The last store that the line of a cut has, where it is past the line's floor.
fn kept_of(events: &[Event], fates: &[Fate], moment: u32, entry: CutLine) -> Option<Kept>
    requires limit { length events.now ≤ 65536 }
    requires moment { moment ≤ length events.now }
    requires fates { AreFates events.now 0 fates.now }
    ensures { IsKeptOf events.now moment entry result }
{
    if entry.number == 0 {
        return None;
    }
    match store_past(events, moment, entry.line, entry.number - 1) {
        None => None,
        Some(store) if fates[store as usize - 1].is_open(moment) => Some(Kept {
            line: entry.line,
            store,
        }),
        Some(_) => None,
    }
}

/// The event of the line's first store after its first `number` ones, where the moment has it.
fn store_past(events: &[Event], moment: u32, line: u32, number: u32) -> Option<u32>
    requires limit { length events.now ≤ 65536 }
    requires moment { moment ≤ length events.now }
    ensures { IsStorePast events.now moment line number result }
{
    let mut count = 0;
    for at in 0..moment as usize {
        if !stores_line(events[at], line) {
            continue;
        }
        if count == number {
            return Some(at as u32 + 1);
        }
        count += 1;
    }
    None
}

/// Whether the event is a store of the line.
pub(crate) fn stores_line(event: Event, line: u32) -> bool
    ensures { result ≡ is_store_of line event }
{
    match event {
        Event::Store { line: stored, .. } => stored == line,
        _ => false,
    }
}
