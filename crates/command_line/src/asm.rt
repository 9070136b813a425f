//! The command that assembles a source.

ghost use Rattle.std.specs.Result.{result_map_both};
ghost use Rattle.command_line.specs.Assembling.{AssemblesFile, AssemblesTo, GivesFile, sizes_line};
ghost use Rattle.command_line.specs.Steps.{Prints};

use crate::answer::Answer;
use crate::failure::Failure;
use crate::files::Files;
use crate::reading::read_file;
use crate::writing::write_file;
use arguments::AssembleCommand;
use assemble::assemble;
use program::Object;
use std::alloc::Global;

/// `asm`: reads the file of a source, and writes the file of its object.
pub(crate) fn assemble_file<F: Files>(
    alloc: Global,
    command: &AssembleCommand,
    files: &mut F,
) -> Result<Answer, Failure>
    ensures { AssemblesFile F.read_gives F.write_gives command.now files.old result files.new }
{
    let source = read_file(command.source.as_str(), files)?;
    let object = object_of(alloc, &source)?;
    let bytes = bytes_of(alloc, &object)?;
    write_file(command.object.as_str(), &bytes, files)?;
    sizes(alloc, &object)
}

fn object_of(alloc: Global, source: &[u8]) -> Result<Object, Failure>
    ensures { AssemblesTo source.now result }
{
    Ok(assemble(alloc, source)?)
}

fn bytes_of(alloc: Global, object: &Object) -> Result<Vec<u8>, Failure>
    ensures { GivesFile object.now (result_map_both (λ bytes. bytes.items) (λ failure. failure) result) }
{
    match object.to_bytes(alloc) {
        Ok(bytes) => Ok(bytes),
        // It's the only fault of writing an object.
        Err(_) => Err(Failure::Memory),
    }
}

/// `text N data M`.
fn sizes(alloc: Global, object: &Object) -> Result<Answer, Failure>
    ensures { Prints (sizes_line object.now) 0 result }
{
    let text = object.text_bytes().len();
    let data = object.data_bytes().len();
    let text = format!(in alloc; "text {text} data {data}\n")?;
    Ok(Answer::of(text, 0))
}
