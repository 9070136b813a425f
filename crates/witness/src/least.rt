//! The schedule of a cut without an eviction that changes nothing.

ghost use Rattle.store_trace.specs.Cut.{IsCut, number_in};
ghost use Rattle.store_trace.specs.WrittenBack.{written_back};
ghost use Rattle.store_trace.specs.History.{at_moment, history};
ghost use Rattle.store_trace.specs.TraceView.{IsEvent};
ghost use Rattle.witness.specs.Least.{ExplainsLeast};
ghost use Rattle.witness.specs.Needed.{needed_entry};
ghost use Rattle.machine.specs.Grammar.{hart_steps};
ghost use Rattle.machine.specs.Joined.{HasSteps};
ghost use Rattle.machine.specs.Steps.{all_steps};
ghost use Rattle.std.specs.Prelude.{◌≡◌, ◌↔◌, ◌<◌, ◌≤◌, All, IfOk, IsErrOf, length, map};

use crate::explaining::{demand_cut, explained};
use crate::line_state::written_back;
use crash_image::{Cut, ImageFault};
use machine::{Recorded, Schedule};
use std::alloc::{AllocError, Global};
use store_trace::Event;

/// The schedule of [`explain`](crate::explain) without the evictions that change nothing: those of lines that stand at the
/// cut's number without any eviction. It leaves exactly the cut too, and no schedule with its hart steps does so without an
/// eviction of each line that this one evicts.
///
/// # Errors
/// Those of [`explain`](crate::explain).
pub fn explain_least(
    alloc: Global,
    recorded: &Recorded,
    moment: u32,
    cut: &Cut,
) -> Result<Schedule, ImageFault>
    ensures ok { IfOk result (λ schedule. ExplainsLeast recorded.now moment cut.now (all_steps schedule)) }
    ensures items { IfOk result (λ schedule. All HasSteps schedule) }
    ensures few { IfOk result (λ schedule. hart_steps schedule ≤ hart_steps recorded.now.items) }
    ensures moment { IsErrOf result ImageFault.NoSuchMoment ↔ (length recorded.now.trace < moment) }
    ensures cut { IsErrOf result ImageFault.NotACut → ¬ IsCut (at_moment recorded.now.trace moment) cut.now }
{
    demand_cut(alloc, recorded, moment, cut)?;
    let events = recorded.trace().events();
    let needed = needed_entries(alloc, &events[..moment as usize], cut.entries())?;
    Ok(explained(alloc, recorded, moment, &needed)?)
}

/// The entries, each with its number where its line has to be evicted to stand there, and else with 0.
fn needed_entries(
    alloc: Global,
    events: &[Event],
    entries: &[(u32, u32)],
) -> Result<Vec<(u32, u32)>, AllocError>
    requires each { All IsEvent events.now }
    requires few { length events.now ≤ 65536 }
    ensures { IfOk result (λ found. found.items ≡ map (needed_entry (history events.now)) entries.now) }
{
    entries
        .iter()
        .map(|entry| needed_entry(events, *entry))
        .collect(alloc)
}

fn needed_entry(events: &[Event], entry: (u32, u32)) -> (u32, u32)
    requires each { All IsEvent events.now }
    requires few { length events.now ≤ 65536 }
    ensures { result ≡ needed_entry (history events.now) entry }
{
    let (line, number) = entry;
    if written_back(events, line) == number {
        (line, 0)
    } else {
        entry
    }
}
