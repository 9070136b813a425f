//! The files that commands write.

ghost use Rattle.std.specs.Prelude.{◌<◌, ◌^◌, option_map, string_bytes};
ghost use Rattle.std.specs.Result.{result_map_both};
ghost use Rattle.machine.specs.Grammar.{hart_steps};
ghost use Rattle.command_line.specs.Steps.{WritesFile};
ghost use Rattle.command_line.specs.Writing.{GivesBytes, GivesLine, Leaves, Records, WritesMedium, WritesSchedule};

use crate::failure::Failure;
use crate::files::Files;
use crate::naming::items_text;
use line_memory::Medium;
use machine::Schedule;
use std::alloc::Global;

/// Writes the bytes of a file.
pub(crate) fn write_file<F: Files>(name: &str, bytes: &[u8], files: &mut F) -> Result<(), Failure>
    ensures { WritesFile F.write_gives name.now bytes.now files.old result files.new }
{
    Ok(files.write(name, bytes)?)
}

/// Writes the file of a medium.
pub(crate) fn write_medium<F: Files>(
    alloc: Global,
    name: &str,
    medium: &Medium,
    files: &mut F,
) -> Result<(), Failure>
    ensures { WritesMedium F.write_gives name.now medium.now files.old result files.new }
{
    let bytes = bytes_of(alloc, medium)?;
    write_file(name, &bytes, files)
}

fn bytes_of(alloc: Global, medium: &Medium) -> Result<Vec<u8>, Failure>
    ensures { GivesBytes medium.now (result_map_both (λ bytes. bytes.items) (λ failure. failure) result) }
{
    Ok(medium.to_bytes(alloc)?)
}

/// `--out`: writes the medium that a power cut leaves, where a file is named.
pub(crate) fn write_medium_file<F: Files>(
    alloc: Global,
    name: &Option<String>,
    left: &Medium,
    files: &mut F,
) -> Result<(), Failure>
    ensures { Leaves F.write_gives (option_map string_bytes name.now) left.now files.old result files.new }
{
    match name {
        Some(name) => write_medium(alloc, name.as_str(), left, files),
        None => Ok(()),
    }
}

/// `--record`: writes the line of a schedule, where a file is named.
pub(crate) fn write_schedule_file<F: Files>(
    alloc: Global,
    name: &Option<String>,
    schedule: &Schedule,
    files: &mut F,
) -> Result<(), Failure>
    requires { hart_steps schedule.now < 2 ^ 32 }
    ensures { Records F.write_gives (option_map string_bytes name.now) schedule.now files.old result files.new }
{
    match name {
        Some(name) => write_schedule(alloc, name.as_str(), schedule, files),
        None => Ok(()),
    }
}

fn write_schedule<F: Files>(
    alloc: Global,
    name: &str,
    schedule: &Schedule,
    files: &mut F,
) -> Result<(), Failure>
    requires { hart_steps schedule.now < 2 ^ 32 }
    ensures { WritesSchedule F.write_gives name.now schedule.now files.old result files.new }
{
    let line = schedule_line(alloc, schedule)?;
    write_file(name, line.as_bytes(), files)
}

/// The text of a schedule and a line end.
pub(crate) fn schedule_line(alloc: Global, schedule: &Schedule) -> Result<String, Failure>
    requires { hart_steps schedule.now < 2 ^ 32 }
    ensures { GivesLine schedule.now (result_map_both string_bytes (λ failure. failure) result) }
{
    let mut line = items_text(alloc, schedule)?;
    line.push('\n')?;
    Ok(line)
}
