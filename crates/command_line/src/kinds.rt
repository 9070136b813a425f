//! Files that stand in the place of one another.

ghost use Rattle.command_line.specs.Items.{IsScheduleText};
ghost use Rattle.command_line.specs.Kinds.{HasLoadFault, IsKindTold, IsProgramText, ToldIf, ends_as_c, is_c};
ghost use Rattle.std.specs.Prelude.{◌≡◌, IfOk, MatchBool, option_map};

use crate::failure::Refusal;
use crate::items::is_schedule;
use crash_test::{ProgramFault, load_program};
use std::alloc::{AllocError, Global};

/// What a refused file is in place of what a command takes it for, in words; nothing where that isn't known.
pub(crate) fn kind_told(
    alloc: Global,
    name: Option<&str>,
    refusal: &Refusal,
    file: &[u8],
) -> Result<&'static str, AllocError>
    ensures { IfOk result (λ told. IsKindTold (option_map (λ name. name.now) name.entry) refusal.now file.now told.now) }
{
    match refusal {
        Refusal::Assembly(_) if is_c(name) => Ok(
            "this is C: tools/c/novacrash-cc makes an executable of it",
        ),
        Refusal::Assembly(_) => told_of_schedule(
            alloc,
            file,
            "this is a schedule: were PROGRAM and SCHEDULE exchanged?",
        ),
        Refusal::RecoverySource(_) => told_of_schedule(
            alloc,
            file,
            "this is a schedule: were RECOVERY and SCHEDULE exchanged?",
        ),
        Refusal::ScheduleText => told_of_program(
            alloc,
            file,
            "this is a program: was SCHEDULE exchanged with another word?",
        ),
        Refusal::Plan(_) => told_of_program(
            alloc,
            file,
            "this is a program: were PLAN and PROGRAM exchanged?",
        ),
        _ => Ok(""),
    }
}

/// Whether a file is named as one of C.
fn is_c(name: Option<&str>) -> bool
    ensures { result ≡ is_c (option_map (λ name. name.now) name.entry) }
{
    match name {
        Some(name) => ends_as_c(name.as_bytes()),
        None => false,
    }
}

/// Whether a text ends with `.c`.
fn ends_as_c(text: &[u8]) -> bool
    ensures { result ≡ ends_as_c text.now }
{
    match text {
        [.., dot, letter] => *dot == b'.' && *letter == b'c',
        _ => false,
    }
}

/// The words, where the file is a schedule, and else nothing.
fn told_of_schedule(
    alloc: Global,
    file: &[u8],
    words: &'static str,
) -> Result<&'static str, AllocError>
    ensures { IfOk result (λ told. ToldIf (IsScheduleText file.now) (¬ IsScheduleText file.now) words.now told.now) }
{
    match is_schedule(alloc, file)? {
        true => Ok(words),
        false => Ok(""),
    }
}

/// The same, where it is a program.
fn told_of_program(
    alloc: Global,
    file: &[u8],
    words: &'static str,
) -> Result<&'static str, AllocError>
    ensures { IfOk result (λ told. ToldIf (IsProgramText file.now) (HasLoadFault file.now) words.now told.now) }
{
    match is_program(alloc, file)? {
        true => Ok(words),
        false => Ok(""),
    }
}

/// Whether a file is a program's.
fn is_program(alloc: Global, file: &[u8]) -> Result<bool, AllocError>
    ensures { IfOk result (λ yes. MatchBool yes (IsProgramText file.now) (HasLoadFault file.now)) }
{
    match load_program(alloc, file) {
        Ok(_) => Ok(true),
        Err(ProgramFault::Memory) => Err(AllocError),
        Err(_) => Ok(false),
    }
}
