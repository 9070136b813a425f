//! The commands of the program in groups, as help lists them.

use crate::grammar::{
    ASKING_OF_RUNS, DRAWING_OF_RUNS, JUDGING_OF_RUNS, JUDGING_PROGRAMS, MAKING, RUNNING, SHOWING,
    Subcommand, TELLING,
};
use std::alloc::{AllocError, Global};
use std::fmt::Write;

/// What a command is for.
#[derive(Clone, Copy, PartialEq, Eq)]
pub(crate) enum Group {
    Judge,
    Look,
    Make,
    /// The command stands in no group, and isn't listed.
    Unlisted,
}

/// The groups that are listed, in their order, each with its heading.
const GROUPS: [(Group, &str); 3] = [
    (Group::Judge, "Judge a run"),
    (Group::Look, "Look at a run"),
    (Group::Make, "Make inputs"),
];

const BEGINNING: &str =
    "A crash tester for persistent-memory routines\n\nUsage: novacrash <COMMAND>\n";

const END: &str =
    "\nOptions:\n  -h, --help     Print this list, as `novacrash help` does\n  -V, --version  Print the version\n      --explain  Before COMMAND: say behind a refusal where the fault is, what it means and what is wanted\n\n\
    `novacrash COMMAND --help` says what a command takes, with an example.\n";

/// What the program prints where its line asks for help on no command: each command in a line of its group.
pub(crate) fn overview(alloc: Global) -> Result<String, AllocError> {
    let mut text = String::from_str(alloc, BEGINNING)?;
    for (group, heading) in &GROUPS {
        write!(text, "\n{heading}:\n")?;
        push_commands(&mut text, *group, &JUDGING_OF_RUNS)?;
        push_commands(&mut text, *group, &JUDGING_PROGRAMS)?;
        push_commands(&mut text, *group, &RUNNING)?;
        push_commands(&mut text, *group, &ASKING_OF_RUNS)?;
        push_commands(&mut text, *group, &TELLING)?;
        push_commands(&mut text, *group, &MAKING)?;
        push_commands(&mut text, *group, &DRAWING_OF_RUNS)?;
        push_commands(&mut text, *group, &SHOWING)?;
    }
    text.push_str(END)?;
    Ok(text)
}

/// Adds a line for each of these subcommands that stands in the group.
fn push_commands(
    text: &mut String,
    group: Group,
    subcommands: &[Subcommand],
) -> Result<(), AllocError> {
    for subcommand in subcommands {
        if subcommand.group == group {
            writeln!(text, "  {:<13}{}", subcommand.name, subcommand.about)?;
        }
    }
    Ok(())
}
