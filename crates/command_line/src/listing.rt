//! The command that lists a program.

ghost use Rattle.command_line.specs.Listing.{ListsFile, PrintsListing, SaysObject};
ghost use Rattle.crash_test.specs.Programs.{IsObjectOf, file_kind};

use crate::answer::Answer;
use crate::failure::Failure;
use crate::files::Files;
use crate::reading::read_file;
use arguments::ListingCommand;
use crash_test::{load_object, places_of};
use program::Object;
use report::listing_text;
use std::alloc::Global;

/// `listing`: reads the file of a program, and prints the words of its object's text, each with its instruction, and of a source
/// the line that begins there.
pub(crate) fn list_file<F: Files>(
    alloc: Global,
    command: &ListingCommand,
    files: &mut F,
) -> Result<Answer, Failure>
    ensures { ListsFile F.read_gives command.now files.old result files.new }
{
    let file = read_file(command.program.as_str(), files)?;
    let object = object_in(alloc, &file)?;
    listed(alloc, &file, &object)
}

/// The object of a program's file.
pub(crate) fn object_in(alloc: Global, file: &[u8]) -> Result<Object, Failure>
    ensures says { SaysObject file.now result }
{
    Ok(load_object(alloc, file)?)
}

fn listed(alloc: Global, file: &[u8], object: &Object) -> Result<Answer, Failure>
    requires { IsObjectOf (file_kind file.now) file.now object.now }
    ensures { PrintsListing file.now object.now.text result }
{
    let places = places_of(alloc, file)?;
    let text = listing_text(alloc, object.text_bytes(), file, &places)?;
    Ok(Answer { text, status: 0 })
}
