//! What is told of a failing image.

ghost use Rattle.command_line.specs.Reasons.{Explains, ExplainsOne, HasFewSteps, IsExplainedOf, IsToldWhy, image_losses, told_image, told_losses};
ghost use Rattle.command_line.specs.Traces.{HasPlaces, IsOpen, events_of};
ghost use Rattle.command_line.specs.Verdicts.{failing};
ghost use Rattle.crash_test.specs.Losses.{IsExplainedBy};
ghost use Rattle.crash_test.specs.Programs.{IsProgramOf};
ghost use Rattle.report.specs.Places.{origin_in};
ghost use Rattle.std.specs.Prelude.{◌≡◌, ◌++◌, ℕ, List, IfOk, IfSome, string_bytes};

use crate::events::OpenEvents;
use crate::failure::Failure;
use crate::made_run::MadeRun;
use crate::naming::known_schedule;
use crate::verdicts::failing;
use crash_test::{Events, ExplainedImage, Reader, explain_losses, places_of, tell_losses};
use machine::{Run, TracedEvent};
use report::{Places, why_json, why_text};
use std::alloc::{AllocError, Global};
use text::ImageName;
use verdict::Verdict;

/// `--why`: of a failing image of a run what it lacks and keeps of the lines that a recovery reads, and how it comes about.
pub(crate) fn why<C, R: Reader>(
    alloc: Global,
    asked: bool,
    run: &Run,
    verdict: &Verdict<C>,
    reader: &R,
) -> Result<Option<ExplainedImage>, Failure>
    ensures told { Explains (IsExplainedBy (R.reads reader.now) run.now) run.now.events (failing asked verdict.now) result }
    ensures few { IfOk result (λ why. IfSome why HasFewSteps) }
{
    match failing(asked, verdict) {
        Some((moment, image)) => Ok(Some(explained(alloc, run, moment, image, reader)?)),
        None => Ok(None),
    }
}

fn explained<R: Reader>(
    alloc: Global,
    run: &Run,
    moment: u32,
    image: &ImageName,
    reader: &R,
) -> Result<ExplainedImage, Failure>
    ensures told { ExplainsOne (IsExplainedBy (R.reads reader.now) run.now) run.now.events moment image.now result }
    ensures few { IfOk result HasFewSteps }
{
    Ok(explain_losses(alloc, run, moment, image, reader)?)
}

/// The same of events, of which those of a trace file have no schedule.
pub(crate) fn why_of<C, R: Reader>(
    alloc: Global,
    asked: bool,
    events: &OpenEvents,
    verdict: &Verdict<C>,
    reader: &R,
) -> Result<Option<ExplainedImage>, Failure>
    requires { IsOpen events.now }
    ensures told { Explains (IsExplainedOf (R.reads reader.now) events.now) (events_of events.now) (failing asked verdict.now) result }
    ensures few { IfOk result (λ why. IfSome why HasFewSteps) }
{
    match failing(asked, verdict) {
        Some((moment, image)) => Ok(Some(explained_of(alloc, events, moment, image, reader)?)),
        None => Ok(None),
    }
}

fn explained_of<R: Reader>(
    alloc: Global,
    events: &OpenEvents,
    moment: u32,
    image: &ImageName,
    reader: &R,
) -> Result<ExplainedImage, Failure>
    requires { IsOpen events.now }
    ensures told { ExplainsOne (IsExplainedOf (R.reads reader.now) events.now) (events_of events.now) moment image.now result }
    ensures few { IfOk result HasFewSteps }
{
    match events {
        OpenEvents::Run(made) => explained(alloc, &made.run, moment, image, reader),
        OpenEvents::Trace(open) => {
            let events = Events {
                medium: &open.medium,
                trace: &open.ranked.trace,
            };
            Ok(tell_losses(alloc, events, moment, image, reader)?)
        }
    }
}

/// What is told of it as text or as JSON, with where the events were made.
pub(crate) fn told_why(
    alloc: Global,
    events: &OpenEvents,
    why: &Option<ExplainedImage>,
    json: bool,
) -> Result<String, AllocError>
    requires places { HasPlaces events.now }
    requires few { IfSome why.now HasFewSteps }
    ensures { IfOk result (λ text. IsToldWhy json events.now why.now (string_bytes text)) }
{
    match why {
        Some(explained) => {
            let told = events.told(alloc)?;
            told_losses(alloc, told.traced.as_slice(), explained, &told.places, json)
        }
        None => Ok(String::new(alloc)),
    }
}

/// The same of a run that was found, whose own schedule is printed: the one that leaves the image is called `image`.
pub(crate) fn told_image(
    alloc: Global,
    made: &MadeRun,
    why: &Option<ExplainedImage>,
    json: bool,
) -> Result<String, AllocError>
    requires program { IsProgramOf made.now.file.items made.now.run.setup.program }
    requires few { IfSome why.now HasFewSteps }
    ensures { IfOk result (λ text. string_bytes text ≡ told_image json made.now why.now) }
{
    match why {
        Some(explained) => {
            let places = places_of(alloc, &made.file)?;
            let traced = made.run.traced(alloc)?;
            image_losses(alloc, &traced, explained, &places, json)
        }
        None => Ok(String::new(alloc)),
    }
}

/// The lines of `told_losses` with another word in the last one.
fn image_losses(
    alloc: Global,
    traced: &[TracedEvent],
    explained: &ExplainedImage,
    places: &Places<'_>,
    json: bool,
) -> Result<String, AllocError>
    requires few { HasFewSteps explained.now }
    ensures { IfOk result (λ text. string_bytes text ≡ image_losses json (origin_in places.now) traced.now explained.now) }
{
    let text = told_losses(alloc, traced, explained, places, json)?;
    let last = known_schedule(alloc, "schedule", &explained.schedule, json)?;
    let image = known_schedule(alloc, "image", &explained.schedule, json)?;
    with_end(alloc, text.as_str(), last.as_str(), image.as_str())
}

/// A text with another end in place of this one.
fn with_end(alloc: Global, text: &str, end: &str, other: &str) -> Result<String, AllocError>
    requires { (front : List ℕ) × (text.now ≡ front ++ end.now) }
    ensures { IfOk result (λ changed. (front : List ℕ) → text.now ≡ front ++ end.now → string_bytes changed ≡ front ++ other.now) }
{
    match text.strip_suffix(end) {
        Some(front) => joined(alloc, front, other),
        None => unreachable!(),
    }
}

fn joined(alloc: Global, front: &str, end: &str) -> Result<String, AllocError>
    ensures { IfOk result (λ text. string_bytes text ≡ front.now ++ end.now) }
{
    format!(in alloc; "{front}{end}")
}

/// What is told of an image, by the places of the program.
pub(crate) fn told_losses(
    alloc: Global,
    traced: &[TracedEvent],
    explained: &ExplainedImage,
    places: &Places<'_>,
    json: bool,
) -> Result<String, AllocError>
    requires few { HasFewSteps explained.now }
    ensures { IfOk result (λ text. string_bytes text ≡ told_losses json (origin_in places.now) traced.now explained.now) }
{
    let ExplainedImage { told, schedule } = explained;
    if json {
        why_json(alloc, &told.read, told.unread, schedule, traced, places)
    } else {
        why_text(alloc, &told.read, told.unread, schedule, traced, places)
    }
}
