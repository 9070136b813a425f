//! The files of a command that can't be read.

ghost use Rattle.command_line.specs.LostFiles.{FindsLost, TriesOne, lost_in};
ghost use Rattle.std.specs.Prelude.{map, option_map};

use crate::files::{FileFault, Files};

/// A file that can't be read, and why.
#[derive(Clone, Copy)]
pub(crate) struct LostFile<'a> {
    pub(crate) name: &'a str,
    pub(crate) fault: FileFault,
}

/// The first of these files that can't be read; None where each can, or memory is refused.
pub(crate) fn find_lost<'a, F: Files>(
    names: &[Option<&'a str>],
    files: &mut F,
) -> Option<LostFile<'a>>
    ensures { FindsLost F.read_gives (map (λ name. option_map (λ text. text.now) name) names.now) files.old (option_map lost_in result) files.new }
{
    let [name, rest @ ..] = names else {
        return None;
    };
    match lost(*name, files) {
        Some(lost) => Some(lost),
        None => find_lost(rest, files),
    }
}

/// The file of this name, where there is one that can't be read.
fn lost<'a, F: Files>(name: Option<&'a str>, files: &mut F) -> Option<LostFile<'a>>
    ensures { TriesOne F.read_gives (option_map (λ name. name.now) name.entry) files.old (option_map lost_in result) files.new }
{
    let name = name?;
    match files.read(name) {
        Err(FileFault::Memory) => None,
        Err(fault) => Some(LostFile { name, fault }),
        Ok(_) => None,
    }
}
