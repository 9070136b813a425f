//! The command that counts the crash images of a moment.

ghost use Rattle.command_line.specs.Imaging.{Counts, CountsFile, images_json, images_line, told_count};
ghost use Rattle.command_line.specs.Traces.{IsOpen, events_of};
ghost use Rattle.std.specs.Prelude.{◌≡◌, IfOk, string_bytes};

use crate::answer::Answer;
use crate::events::{OpenEvents, open_events};
use crate::failure::Failure;
use crate::files::Files;
use arguments::ImagesCommand;
use crash_test::count_images;
use std::alloc::{AllocError, Global};

/// `images`: reads the files of a program, a schedule and a medium, or a trace file, and counts the images that a power cut may
/// leave at a moment of the run or of the trace.
pub(crate) fn count_file<F: Files>(
    alloc: Global,
    command: &ImagesCommand,
    files: &mut F,
) -> Result<Answer, Failure>
    ensures { CountsFile F.read_gives command.now files.old result files.new }
{
    let opened = open_events(alloc, &command.source, files)?;
    let moment = command.moment;
    let count = count(alloc, &opened, moment)?;
    let text = told_count(alloc, moment, count, command.json)?;
    Ok(Answer::of(text, 0))
}

fn count(alloc: Global, opened: &OpenEvents, moment: u32) -> Result<Option<u32>, Failure>
    requires { IsOpen opened.now }
    ensures { Counts (events_of opened.now) moment result }
{
    let count = count_images(alloc, opened.medium(), opened.trace(), moment)?;
    Ok(count)
}

/// The images of a moment, as text or as JSON.
fn told_count(
    alloc: Global,
    moment: u32,
    count: Option<u32>,
    json: bool,
) -> Result<String, AllocError>
    ensures { IfOk result (λ text. string_bytes text ≡ told_count json moment count) }
{
    if json {
        images_json(alloc, moment, count)
    } else {
        images_line(alloc, moment, count)
    }
}

/// `moment M images N`, or `moment M images over 65536`.
fn images_line(alloc: Global, moment: u32, count: Option<u32>) -> Result<String, AllocError>
    ensures { IfOk result (λ text. string_bytes text ≡ images_line moment count) }
{
    match count {
        Some(images) => format!(in alloc; "moment {moment} images {images}\n"),
        None => format!(in alloc; "moment {moment} images over 65536\n"),
    }
}

/// `{"kind":"images","moment":M,"images":N}`, with `null` in place of more than 65,536.
fn images_json(alloc: Global, moment: u32, count: Option<u32>) -> Result<String, AllocError>
    ensures { IfOk result (λ text. string_bytes text ≡ images_json moment count) }
{
    match count {
        Some(images) => {
            format!(in alloc; "{{\"kind\":\"images\",\"moment\":{moment},\"images\":{images}}}\n")
        }
        None => format!(in alloc; "{{\"kind\":\"images\",\"moment\":{moment},\"images\":null}}\n"),
    }
}
