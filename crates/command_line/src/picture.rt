//! The command that draws events.

ghost use Rattle.command_line.specs.ImageFiles.{ranked_name};
ghost use Rattle.command_line.specs.Picturing.{DrawsPicture, HasImage, PicturesFile, ranked_if};
ghost use Rattle.command_line.specs.Steps.{Prints};
ghost use Rattle.command_line.specs.Traces.{HasPlaces, IsOpen, events_of};
ghost use Rattle.std.specs.Prelude.{◌≡◌, ◌≤◌, [], IfOk, OnOk, length, option_map, string_bytes};
ghost use Rattle.std.specs.Result.{result_map_both};

use crate::answer::Answer;
use crate::events::{OpenEvents, open_events};
use crate::failure::Failure;
use crate::files::Files;
use crate::image::ranked_name;
use crate::writing::write_file;
use arguments::PictureCommand;
use report::{ImageLine, image_stores, picture_at};
use std::alloc::{AllocError, Global};
use text::ImageName;

/// `picture`: reads the files of a program, a schedule and a medium, or a trace file, and writes the file of a picture of the events up
/// to a moment.
pub(crate) fn picture_file<F: Files>(
    alloc: Global,
    command: &PictureCommand,
    files: &mut F,
) -> Result<Answer, Failure>
    ensures { PicturesFile F.read_gives F.write_gives command.now files.old result files.new }
{
    let opened = open_events(alloc, &command.source, files)?;
    let picture = picture(alloc, &opened, command.moment, &command.image)?;
    write_file(command.picture.as_str(), picture.as_bytes(), files)?;
    silence(alloc)
}

fn picture(
    alloc: Global,
    opened: &OpenEvents,
    moment: u32,
    image: &Option<ImageName>,
) -> Result<String, Failure>
    requires open { IsOpen opened.now }
    requires places { HasPlaces opened.now }
    ensures { DrawsPicture (events_of opened.now) moment (ranked_if opened.now image.now) (result_map_both string_bytes (λ failure. failure) result) }
{
    let stores = stores_of(alloc, opened, moment, image)?;
    let shown = named_stores(alloc, opened, &stores)?;
    let told = opened.told(alloc)?;
    Ok(picture_at(alloc, &told, moment, &shown)?)
}

/// How many stores of each line an image has, where one is named. It is named by the lines of a trace file.
fn stores_of(
    alloc: Global,
    opened: &OpenEvents,
    moment: u32,
    image: &Option<ImageName>,
) -> Result<Option<Vec<ImageLine>>, Failure>
    requires open { IsOpen opened.now }
    requires places { HasPlaces opened.now }
    ensures has { HasImage (events_of opened.now) moment (ranked_if opened.now image.now) result }
    ensures moment { OnOk result (moment ≤ length (events_of opened.now)) }
{
    match opened {
        OpenEvents::Run(_) => {
            let stores = image_stores(alloc, opened.medium(), opened.trace(), moment, image)?;
            Ok(stores)
        }
        OpenEvents::Trace(open) => {
            let image = ranked_if(alloc, &open.ranked.names, image)?;
            let stores = image_stores(alloc, opened.medium(), opened.trace(), moment, &image)?;
            Ok(stores)
        }
    }
}

/// The name of an image with the ranks of lines in place of the lines.
fn ranked_if(
    alloc: Global,
    names: &[u32],
    image: &Option<ImageName>,
) -> Result<Option<ImageName>, AllocError>
    requires { length names.now ≤ 16384 }
    ensures { IfOk result (λ ranked. ranked ≡ option_map (ranked_name names.now) image.now) }
{
    match image {
        Some(image) => Ok(Some(ranked_name(alloc, names, image)?)),
        None => Ok(None),
    }
}

/// The stores of an image, where there is one, by the names of their lines.
fn named_stores(
    alloc: Global,
    opened: &OpenEvents,
    stores: &Option<Vec<ImageLine>>,
) -> Result<Option<Vec<ImageLine>>, AllocError> {
    let Some(stores) = stores else {
        return Ok(None);
    };
    let mut named = Vec::new(alloc);
    for entry in stores {
        named.push(ImageLine {
            line: opened.line_name(entry.line),
            stores: entry.stores,
        })?;
    }
    Ok(Some(named))
}

/// Nothing is printed of a file that was written.
pub(crate) fn silence(alloc: Global) -> Result<Answer, Failure>
    ensures { Prints [] 0 result }
{
    Ok(Answer {
        text: Vec::new(alloc),
        status: 0,
    })
}
