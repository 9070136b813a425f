//! The command that moves a volume to the second layout.

ghost use Rattle.command_line.specs.Upgrading.{MakesUpgrade, UpgradesFile};

use crate::answer::Answer;
use crate::failure::Failure;
use crate::files::Files;
use crate::mkfs::lines_line;
use crate::reading::read_named_medium;
use crate::writing::write_medium;
use arguments::UpgradeCommand;
use line_memory::Medium;
use nova_log::upgrade;
use std::alloc::Global;

/// `upgrade`: reads the file of a medium, and writes the file of a medium whose volume, of the second layout, has the same logs.
pub(crate) fn upgrade_file<F: Files>(
    alloc: Global,
    command: &UpgradeCommand,
    files: &mut F,
) -> Result<Answer, Failure>
    ensures { UpgradesFile F.read_gives F.write_gives command.now files.old result files.new }
{
    let medium = read_named_medium(alloc, command.medium.as_str(), files)?;
    let upgraded = upgraded(alloc, &medium, command.pages, command.lines)?;
    write_medium(alloc, command.upgraded.as_str(), &upgraded, files)?;
    lines_line(alloc, &upgraded)
}

fn upgraded(alloc: Global, medium: &Medium, pages: u32, lines: u32) -> Result<Medium, Failure>
    ensures { MakesUpgrade medium.now pages lines result }
{
    Ok(upgrade(alloc, medium, pages, lines)?)
}
