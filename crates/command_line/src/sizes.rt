//! The command that tells of a program's file.

ghost use Rattle.command_line.specs.Sizes.{PrintsSizes, SizesFile, executable_text, sizes_text};
ghost use Rattle.std.specs.Prelude.{◌≡◌, IfOk, string_bytes};

use crate::answer::Answer;
use crate::failure::Failure;
use crate::files::Files;
use crate::listing::object_in;
use crate::reading::read_file;
use arguments::ProgramCommand;
use elf_file::{Functions, LineTable, is_elf};
use program::Object;
use std::alloc::{AllocError, Global};

/// `program`: reads the file of a program, and prints how many bytes of text and data it has; of an executable also how many
/// functions, and of how many units of its line table the lines are read. Where these are fewer, lines may be missing.
pub(crate) fn size_file<F: Files>(
    alloc: Global,
    command: &ProgramCommand,
    files: &mut F,
) -> Result<Answer, Failure>
    ensures { SizesFile F.read_gives command.now files.old result files.new }
{
    let file = read_file(command.program.as_str(), files)?;
    let object = object_in(alloc, &file)?;
    sized(alloc, &file, &object)
}

fn sized(alloc: Global, file: &[u8], object: &Object) -> Result<Answer, Failure>
    ensures { PrintsSizes file.now object.now result }
{
    let text = sizes_text(alloc, file, object)?;
    Ok(Answer::of(text, 0))
}

fn sizes_text(alloc: Global, file: &[u8], object: &Object) -> Result<String, AllocError>
    ensures { IfOk result (λ text. string_bytes text ≡ sizes_text file.now object.now) }
{
    let text = object.text_bytes().len();
    let data = object.data_bytes().len();
    if is_elf(file) {
        executable_text(alloc, file, text, data)
    } else {
        format!(in alloc; "text {text} data {data}\n")
    }
}

/// The line of an executable with so many bytes of text and data.
fn executable_text(
    alloc: Global,
    file: &[u8],
    text: usize,
    static_data: usize,
) -> Result<String, AllocError>
    ensures { IfOk result (λ line. string_bytes line ≡ executable_text file.now text static_data) }
{
    let functions = Functions::read(alloc, file)?.count();
    let lines = LineTable::read(alloc, file)?;
    let units = lines.unit_count();
    let read = lines.read_count();
    format!(in alloc;
        "text {text} data {static_data} functions {functions} units {read} of {units}\n"
    )
}
