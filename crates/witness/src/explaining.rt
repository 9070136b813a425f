//! The schedule of a cut.

ghost use Rattle.store_trace.specs.Cut.{IsCut, number_in};
ghost use Rattle.store_trace.specs.declared.crash_model.step.PersistenceStep.{PersistenceStep};
ghost use Rattle.witness.specs.Explains.{Explains, steps_by};
ghost use Rattle.witness.specs.Walking.{AreDue, Follows, eviction_of, line_due};
ghost use Rattle.machine.specs.Grammar.{hart_steps};
ghost use Rattle.machine.specs.Joined.{HasSteps};
ghost use Rattle.machine.specs.Steps.{all_steps};
ghost use Rattle.store_trace.specs.History.{at_moment, steps_of};
ghost use Rattle.store_trace.specs.TraceView.{NamesLine};
ghost use Rattle.std.specs.Prelude.{◌≡◌, ◌↔◌, ◌<◌, ◌≤◌, ◌++◌, ℕ, List, All, IfOk, IsErrOf, OnOk, length};

use crate::recorded_steps::RecordedSteps;
use crash_image::{Cut, Cuts, ImageFault, numbers_of_lines};
use machine::{Item, Recorded, Schedule};
use std::alloc::{AllocError, Global};
use store_trace::Event;

/// A schedule that leaves exactly the cut of the state after the first `moment` events: it has the recorded hart steps
/// through the one that made the last of these events, those of a stopped hart among them, and none of the recorded
/// evictions. Each line whose number in the cut is at least 1 has one eviction, right after the hart step of its store of
/// that number. No item is without steps.
///
/// # Errors
/// NoSuchMoment exactly past the last event. NotACut where the cut isn't one of this moment. Memory where a growth is
/// refused, which may come before NotACut.
pub fn explain(
    alloc: Global,
    recorded: &Recorded,
    moment: u32,
    cut: &Cut,
) -> Result<Schedule, ImageFault>
    ensures ok { IfOk result (λ schedule. Explains recorded.now moment cut.now (all_steps schedule)) }
    ensures items { IfOk result (λ schedule. All HasSteps schedule) }
    ensures few { IfOk result (λ schedule. hart_steps schedule ≤ hart_steps recorded.now.items) }
    ensures moment { IsErrOf result ImageFault.NoSuchMoment ↔ (length recorded.now.trace < moment) }
    ensures cut { IsErrOf result ImageFault.NotACut → ¬ IsCut (at_moment recorded.now.trace moment) cut.now }
{
    demand_cut(alloc, recorded, moment, cut)?;
    Ok(explained(alloc, recorded, moment, cut.entries())?)
}

/// Demands that the moment is there, and that this is a cut of it.
pub(crate) fn demand_cut(
    alloc: Global,
    recorded: &Recorded,
    moment: u32,
    cut: &Cut,
) -> Result<(), ImageFault>
    ensures within { OnOk result (moment ≤ length recorded.now.trace) }
    ensures ok { OnOk result (IsCut (at_moment recorded.now.trace moment) cut.now) }
    ensures lines { OnOk result (All (λ entry. entry.0 < length recorded.now.start) cut.now) }
    ensures moment { IsErrOf result ImageFault.NoSuchMoment ↔ (length recorded.now.trace < moment) }
    ensures cut { IsErrOf result ImageFault.NotACut → ¬ IsCut (at_moment recorded.now.trace moment) cut.now }
{
    let cuts = Cuts::at(alloc, recorded.start(), recorded.trace(), moment)?;
    if !cuts.contains(cut) {
        return Err(ImageFault::NotACut);
    }
    Ok(())
}

/// The hart steps through those that made the first `moment` events, with one eviction for each line to which the entries
/// give a number of at least 1, right after the hart step of its store of that number. Each entry is of a line that is there.
#[tactic(auto, using(crate::proofs::Following::at_start))]
pub(crate) fn explained(
    alloc: Global,
    recorded: &Recorded,
    moment: u32,
    entries: &[(u32, u32)],
) -> Result<Schedule, AllocError>
    requires moment { moment ≤ length recorded.now.trace }
    requires entries { All (λ entry. entry.0 < length recorded.now.start) entries.now }
    ensures follows { IfOk result (λ schedule. Follows recorded.now (number_in entries.now) moment
        (steps_by recorded.now.steps moment) (all_steps schedule)) }
    ensures items { IfOk result (λ schedule. All HasSteps schedule) }
{
    let events = recorded.trace().events();
    let numbers = recorded.steps();
    let last = steps_by(numbers, moment);
    let mut due = numbers_of_lines(alloc, recorded.start().lines(), entries)?;
    let mut steps = RecordedSteps::of(recorded.schedule().items());
    let mut schedule = Schedule::new(alloc);
    for index in 0..moment as usize {
        // The numbers of a run go up, so none of them is past the last.
        steps.copy_through(numbers[index].min(last), &mut schedule)?;
        let line = line_due(&mut due, events[index]);
        push_eviction(&mut schedule, line)?;
    }
    Ok(schedule)
}

/// Adds the eviction of a line, if there is one.
fn push_eviction(schedule: &mut Schedule, line: Option<u32>) -> Result<(), AllocError>
    ensures steps { OnOk result (all_steps schedule.new ≡ all_steps schedule.old ++ eviction_of line) }
    ensures items { All HasSteps schedule.old → All HasSteps schedule.new }
{
    match line {
        Some(line) => schedule.push(Item::Evict { line }),
        None => Ok(()),
    }
}

/// How many hart steps are made by the moment: those through its last event.
fn steps_by(numbers: &[u32], moment: u32) -> u32
    requires { moment ≤ length numbers.now }
    ensures { result ≡ steps_by numbers.now moment }
{
    match moment.checked_sub(1) {
        Some(last) => numbers[last as usize],
        None => 0,
    }
}

/// The line of a store whose number is the cut's. `due` has for each line how many more stores make the cut's number, and
/// counts this one.
fn line_due(due: &mut [u32], event: Event) -> Option<u32>
    requires { NamesLine (length due.old) event }
    ensures line { (k : ℕ → ℕ) (p : List PersistenceStep) → AreDue k p due.old → result ≡ line_due k p event }
    ensures due { (k : ℕ → ℕ) (p : List PersistenceStep) → AreDue k p due.old → AreDue k (steps_of event ++ p) due.new }
{
    let Event::Store { line, .. } = event else {
        return None;
    };
    let due = &mut due[line as usize];
    let is_last = *due == 1;
    *due = due.saturating_sub(1);
    is_last.then_some(line)
}
