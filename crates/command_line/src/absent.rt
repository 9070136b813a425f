//! What events have in place of a moment, or of an image, that isn't there.

ghost use Rattle.command_line.specs.Absent.{IsImageTold, SaysAbsent, SaysCounted, SaysMeaning, SaysOfRun, SaysOfSource, SaysOfTrace, images_text, moment_text, owner, plural};
ghost use Rattle.command_line.specs.Traces.{IsOpen, events_of};
ghost use Rattle.command_line.specs.Verdicts.{first_of};
ghost use Rattle.command_line.specs.declared.failure.Failure.TheVariants.{Memory};
ghost use Rattle.std.specs.Prelude.{◌≡◌, IfOk, MatchResult, option_map, string_bytes};
ghost use Rattle.std.specs.Result.{result_map_both};

use crate::events::{OpenEvents, open_scheduled, open_trace};
use crate::failure::{Failure, Refusal};
use crate::files::Files;
use crate::meanings::behind_colon;
use arguments::{Command, EventSource, Moments, ScheduledRun, TracedEvents, meaning_of};
use crash_image::ImageFault;
use crash_test::count_images;
use std::alloc::{AllocError, Global};
use text::ImageName;

/// What is told of a moment or an image that isn't there: how many events, or images, there are. The files of the events are read once more.
pub(crate) fn absent_text<F: Files>(
    alloc: Global,
    command: &Command,
    refusal: &Refusal,
    files: &mut F,
) -> Result<String, Failure>
    ensures { SaysAbsent F.read_gives refusal.now command.now files.old (result_map_both (λ text. string_bytes text) (λ failure. failure) result) files.new }
{
    match command {
        Command::Images(command) => of_source(
            alloc,
            &command.source,
            command.moment,
            None,
            refusal,
            files,
        ),
        Command::Image(command) => of_source(
            alloc,
            &command.source,
            command.moment,
            Some(&command.image),
            refusal,
            files,
        ),
        Command::Picture(command) => of_source(
            alloc,
            &command.source,
            command.moment,
            given(&command.image),
            refusal,
            files,
        ),
        Command::Explain(command) => of_run(
            alloc,
            &command.run,
            command.moment,
            Some(&command.image),
            refusal,
            files,
        ),
        Command::Check(command) => of_source(
            alloc,
            &command.judged.source,
            first_of(command.judged.moments),
            None,
            refusal,
            files,
        ),
        Command::Judge(command) => of_source(
            alloc,
            &command.judged.source,
            first_of(command.judged.moments),
            None,
            refusal,
            files,
        ),
        Command::Ask(command) => of_trace(
            alloc,
            &command.events,
            first_of(command.moments),
            None,
            refusal,
            files,
        ),
        _ => told_meaning(alloc, refusal, ""),
    }
}

/// The first of the moments that are to be judged.
fn first_of(moments: Option<Moments>) -> u32
    ensures { result ≡ first_of moments }
{
    match moments {
        Some(moments) => moments.first,
        None => 0,
    }
}

/// The name of an image that may be left out.
fn given(image: &Option<ImageName>) -> Option<&ImageName>
    ensures { option_map (λ given. given.now) result ≡ image.now }
{
    match image {
        Some(image) => Some(image),
        None => None,
    }
}

fn of_source<F: Files>(
    alloc: Global,
    source: &EventSource,
    moment: u32,
    image: Option<&ImageName>,
    refusal: &Refusal,
    files: &mut F,
) -> Result<String, Failure>
    ensures { SaysOfSource F.read_gives refusal.now moment (option_map (λ image. image.now) image.entry) source.now files.old (result_map_both (λ text. string_bytes text) (λ failure. failure) result) files.new }
{
    match source {
        EventSource::Run(run) => of_run(alloc, run, moment, image, refusal, files),
        EventSource::Trace(events) => of_trace(alloc, events, moment, image, refusal, files),
    }
}

fn of_run<F: Files>(
    alloc: Global,
    run: &ScheduledRun,
    moment: u32,
    image: Option<&ImageName>,
    refusal: &Refusal,
    files: &mut F,
) -> Result<String, Failure>
    ensures { SaysOfRun F.read_gives refusal.now moment (option_map (λ image. image.now) image.entry) run.now files.old (result_map_both (λ text. string_bytes text) (λ failure. failure) result) files.new }
{
    let opened = open_scheduled(alloc, run, files)?;
    counted_text(alloc, &opened, moment, image, refusal)
}

fn of_trace<F: Files>(
    alloc: Global,
    events: &TracedEvents,
    moment: u32,
    image: Option<&ImageName>,
    refusal: &Refusal,
    files: &mut F,
) -> Result<String, Failure>
    ensures { SaysOfTrace F.read_gives refusal.now moment (option_map (λ image. image.now) image.entry) events.now files.old (result_map_both (λ text. string_bytes text) (λ failure. failure) result) files.new }
{
    let opened = open_trace(alloc, events, files)?;
    counted_text(alloc, &opened, moment, image, refusal)
}

fn counted_text(
    alloc: Global,
    opened: &OpenEvents,
    moment: u32,
    image: Option<&ImageName>,
    refusal: &Refusal,
) -> Result<String, Failure>
    requires { IsOpen opened.now }
    ensures { SaysCounted refusal.now moment (option_map (λ image. image.now) image.entry) opened.now (result_map_both (λ text. string_bytes text) (λ failure. failure) result) }
{
    match (refusal, image) {
        (Refusal::Moment, _) => {
            let found = moment_text(alloc, opened, moment)?;
            told_meaning(alloc, refusal, found.as_str())
        }
        (Refusal::Image, Some(image)) => {
            let found = image_text(alloc, opened, moment, image)?;
            told_meaning(alloc, refusal, found.as_str())
        }
        _ => told_meaning(alloc, refusal, ""),
    }
}

/// `MEANING: TEXT`, or the meaning alone.
fn told_meaning(alloc: Global, refusal: &Refusal, found: &str) -> Result<String, Failure>
    ensures { SaysMeaning refusal.now found.now (result_map_both (λ text. string_bytes text) (λ failure. failure) result) }
{
    let Some(row) = meaning_of(refusal.code()) else {
        return Ok(String::new(alloc));
    };
    let found = behind_colon(alloc, found)?;
    let meaning = row.meaning;
    Ok(format!(in alloc; "{meaning}{found}\n")?)
}

/// The moment, and how many events there are.
fn moment_text(alloc: Global, opened: &OpenEvents, moment: u32) -> Result<String, AllocError>
    ensures { IfOk result (λ text. string_bytes text ≡ moment_text moment opened.now) }
{
    let owner = owner(opened);
    let events = opened.trace().events().len();
    let end = plural(events);
    format!(in alloc; "{moment} ({owner} has {events} event{end})")
}

/// What has the events, in words.
fn owner(opened: &OpenEvents) -> &'static str
    ensures { result.now ≡ owner opened.now }
{
    match opened {
        OpenEvents::Run(_) => "the run",
        OpenEvents::Trace(_) => "the trace",
    }
}

/// The image, and how many the moment has; nothing where there is no such moment.
fn image_text(
    alloc: Global,
    opened: &OpenEvents,
    moment: u32,
    image: &ImageName,
) -> Result<String, Failure>
    requires { IsOpen opened.now }
    ensures { MatchResult result (λ text. IsImageTold (events_of opened.now) moment image.now (string_bytes text)) (λ failure. failure ≡ Memory) }
{
    match count_images(alloc, opened.medium(), opened.trace(), moment) {
        Ok(count) => Ok(images_text(alloc, moment, image, count)?),
        Err(ImageFault::Memory) => Err(Failure::Memory),
        Err(_) => Ok(String::new(alloc)),
    }
}

fn images_text(
    alloc: Global,
    moment: u32,
    image: &ImageName,
    count: Option<u32>,
) -> Result<String, AllocError>
    ensures { IfOk result (λ text. string_bytes text ≡ images_text moment image.now count) }
{
    match count {
        Some(images) => {
            let end = plural(images as usize);
            format!(in alloc; "{image} (moment {moment} has {images} image{end})")
        }
        None => format!(in alloc;
            "{image} (moment {moment} has over 65536 images: lines name them)"
        ),
    }
}

/// The end of a noun of which there are so many.
fn plural(count: usize) -> &'static str
    ensures { result.now ≡ plural count }
{
    if count == 1 { "" } else { "s" }
}
