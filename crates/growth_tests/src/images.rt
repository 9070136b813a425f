//! The cuts of a moment, their images, and the schedules that leave them: those of a line that stands between 2 and 3.

ghost use Rattle.machine.specs.Grammar.{hart_steps};
ghost use Rattle.std.specs.Prelude.{◌^◌, ◌<◌};

use crate::ending::{Refused, ended, ready, refusal, repeated};
use crate::samples::{TWO_IMAGES, program_of, zeros};
use crash_image::{Cut, Cuts, ImageFault, has_lines};
use line_memory::Medium;
use machine::{Recorded, Schedule, record};
use std::alloc::Global;
use store_trace::Trace;
use witness::{explain, explain_least};

/// What a call comes to that an image refused.
fn refused_image(fault: ImageFault) -> Result<bool, Refused> {
    refusal(matches!(fault, ImageFault::Memory))
}

/// Which call is tested on the recorded run.
#[derive(Clone, Copy)]
enum Call {
    Cuts,
    Image,
    Explain,
    ExplainLeast,
}

/// A recorded run of nine steps, whose last moment has two images.
fn recorded_run(alloc: Global) -> Result<Recorded, Refused> {
    let Ok(schedule) = Schedule::read(alloc, b"h0*9") else {
        return Err(Refused::SetUp);
    };
    record_of(alloc, &schedule)
}

fn record_of(alloc: Global, schedule: &Schedule) -> Result<Recorded, Refused>
    requires { hart_steps schedule.now < 2 ^ 32 }
{
    let program = program_of(alloc, TWO_IMAGES)?;
    let medium = zeros(alloc)?;
    ready(record(alloc, program, medium, 1, 16, schedule))
}

/// Whether there are two images.
fn are_two(alloc: Global, medium: &Medium, trace: &Trace) -> Result<bool, Refused> {
    if !has_lines(medium, trace) {
        return Ok(false);
    }
    match Cuts::at(alloc, medium, trace, 5) {
        Ok(cuts) => Ok(cuts.count() == Some(2)),
        Err(fault) => refused_image(fault),
    }
}

/// Whether line 5 has the older number in image 0.
fn is_older(alloc: Global, cuts: &Cuts) -> Result<bool, Refused> {
    if cuts.count() != Some(2) {
        return Ok(false);
    }
    match cuts.image(alloc, 0) {
        Ok(image) => Ok(image.lines() > 5 && image.load(320, 8) == 2),
        Err(fault) => refused_image(fault),
    }
}

/// Makes image 0.
fn older_image(alloc: Global, medium: &Medium, trace: &Trace) -> Result<bool, Refused> {
    if !has_lines(medium, trace) {
        return Ok(false);
    }
    let cuts = ready(Cuts::at(alloc, medium, trace, 5))?;
    is_older(alloc, &cuts)
}

/// The cut of two stores to line 5.
fn cut_of_line_5(alloc: Global) -> Result<Cut, Refused> {
    let mut entries = Vec::new(alloc);
    ready(entries.push((5, 2)))?;
    Ok(Cut::from_entries(entries))
}

/// Whether the schedule's text is this one.
fn says(alloc: Global, schedule: &Schedule, text: &str) -> Result<bool, Refused> {
    let written = ready(schedule.write(alloc))?;
    Ok(written.as_str() == text)
}

/// Whether image 0 is explained.
fn is_explained(alloc: Global, recorded: &Recorded) -> Result<bool, Refused> {
    let cut = cut_of_line_5(alloc)?;
    match explain(alloc, recorded, 5, &cut) {
        Ok(schedule) => says(alloc, &schedule, "h0*5 e5 h0*4"),
        Err(fault) => refused_image(fault),
    }
}

/// Whether image 0 is explained by the needed evictions.
fn is_explained_least(alloc: Global, recorded: &Recorded) -> Result<bool, Refused> {
    let cut = cut_of_line_5(alloc)?;
    match explain_least(alloc, recorded, 5, &cut) {
        Ok(schedule) => says(alloc, &schedule, "h0*5 e5 h0*4"),
        Err(fault) => refused_image(fault),
    }
}

fn called(alloc: Global, recorded: &Recorded, call: Call) -> Result<bool, Refused> {
    match call {
        Call::Cuts => are_two(alloc, recorded.start(), recorded.trace()),
        Call::Image => older_image(alloc, recorded.start(), recorded.trace()),
        Call::Explain => is_explained(alloc, recorded),
        Call::ExplainLeast => is_explained_least(alloc, recorded),
    }
}

/// Makes a call on the recorded run, and again where it was refused.
fn on_recorded(alloc: Global, call: Call) -> Result<bool, Refused> {
    let recorded = recorded_run(alloc)?;
    match called(alloc, &recorded, call) {
        Err(Refused::Call) => repeated(called(alloc, &recorded, call)),
        answer => answer,
    }
}

#[test]
fn cuts_at_a_moment(rt: HostRuntime) -> Result<(), Refused> {
    ended(&rt, on_recorded(rt.alloc(), Call::Cuts))
}

#[test]
fn image_of_a_number(rt: HostRuntime) -> Result<(), Refused> {
    ended(&rt, on_recorded(rt.alloc(), Call::Image))
}

#[test]
fn explain_a_cut(rt: HostRuntime) -> Result<(), Refused> {
    ended(&rt, on_recorded(rt.alloc(), Call::Explain))
}

#[test]
fn explain_a_cut_by_needed_evictions(rt: HostRuntime) -> Result<(), Refused> {
    ended(&rt, on_recorded(rt.alloc(), Call::ExplainLeast))
}
