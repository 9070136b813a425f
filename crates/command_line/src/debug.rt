//! The command that debugs a program: its machine, what is known of its code, and the session over the standard streams.

ghost use Rattle.std.specs.Prelude.{◌≡◌, IfErr, IfOk};
ghost use Rattle.std.specs.Result.{result_map_both};
ghost use Rattle.command_line.specs.Debugging.{DebugsFile, FailsBy, HoldsSession, IsOpen, OpensFile, Starts, known_code};
ghost use Rattle.command_line.specs.Failures.{failure_of_session};
ghost use Rattle.command_line.specs.Reading.{machine_of};

use crate::failure::Failure;
use crate::files::Files;
use crate::opened::OpenDebug;
use crate::reading::{program_of, read_file, read_medium};
use crate::run::capacity;
use crate::streams::{StandardInput, StandardOutput};
use arguments::{DebugCommand, MachineOptions};
use crash_test::{places_of, start_program};
use debugger::{Code, DebugFault, Debugger, session_of};
use line_memory::Medium;
use machine::Machine;
use program::Program;
use report::Places;
use std::alloc::{AllocError, Global};
use std::io::{Read, Write};

/// `debug`: reads the files of a program and of a medium, and makes the machine of a session.
pub(crate) fn open_file<F: Files>(
    alloc: Global,
    command: &DebugCommand,
    files: &mut F,
) -> Result<OpenDebug, Failure>
    ensures opens { OpensFile F.read_gives command.now files.old result files.new }
    ensures ready { IfOk result IsOpen }
{
    let file = read_file(command.program.as_str(), files)?;
    let program = program_of(alloc, &file)?;
    let medium = read_medium(alloc, &command.machine.medium, files)?;
    let machine = start(alloc, &command.machine, program, medium)?;
    Ok(OpenDebug { file, machine })
}

/// The machine that the options ask for.
pub(crate) fn start(
    alloc: Global,
    options: &MachineOptions,
    program: Program,
    medium: Medium,
) -> Result<Machine, Failure>
    ensures { Starts (machine_of options.now program medium) result }
{
    let capacity = capacity(options, &medium);
    Ok(start_program(alloc, program, medium, options.harts, capacity)?)
}

/// What is known of the code of a program.
#[derive(Drop)]
struct ProgramCode<'a> {
    places: Places<'a>,
}

impl Code for ProgramCode<'_> {
    ghost known = { λ code. known_code code.places };

    fn is_named(&self, word: &[u8]) -> bool {
        self.places.have_name(word)
    }

    fn is_placed(&self) -> bool {
        self.places.are_of_executable()
    }

    fn address_of(&self, word: &[u8]) -> Option<u64> {
        self.places.address_of(word)
    }

    fn place_of(&self, alloc: Global, pc: u64) -> Result<String, AllocError> {
        format!(in alloc; "{}", self.places.at(pc))
    }
}

/// Holds a session on a program, and gives the status with which it ends: each command is answered on standard output
/// before the next is asked for on standard input.
pub(crate) fn hold_session<R: Read, W: Write>(
    alloc: Global,
    debug: OpenDebug,
    input: &mut R,
    output: &mut W,
) -> Result<u8, Failure>
    requires { IsOpen debug }
    ensures { DebugsFile debug (R.remaining input.old) (R.remaining input.new) (W.contents output.old) (W.contents output.new) result }
{
    let OpenDebug { file, machine } = debug;
    let places = places_of(alloc, &file)?;
    let code = ProgramCode { places };
    talk(alloc, &code, machine, input, output)
}

/// A session by what is known of the program's code.
fn talk<R: Read, W: Write>(
    alloc: Global,
    code: &ProgramCode<'_>,
    machine: Machine,
    input: &mut R,
    output: &mut W,
) -> Result<u8, Failure>
    ensures { HoldsSession (known_code code.now.places) machine (R.remaining input.old) (R.remaining input.new)
        (W.contents output.old) (W.contents output.new) result }
{
    let mut source = StandardInput { input, failures: 0 };
    let mut sink = StandardOutput {
        output,
        failures: 0,
    };
    converse(alloc, code, machine, &mut source, &mut sink)
}

/// A session over standard input and standard output, whose failures are counted.
fn converse<R: Read, W: Write>(
    alloc: Global,
    code: &ProgramCode<'_>,
    machine: Machine,
    source: &mut StandardInput<R>,
    sink: &mut StandardOutput<W>,
) -> Result<u8, Failure>
    ensures same { (source.new.input.ghost_name ≡ source.old.input.ghost_name) × (sink.new.output.ghost_name ≡ sink.old.output.ghost_name) }
    ensures holds { HoldsSession (known_code code.now.places) machine (R.remaining source.old.input.now) (R.remaining source.new.input.now)
        (W.contents sink.old.output.now) (W.contents sink.new.output.now) result }
    ensures counts { IfErr result (FailsBy source.old.failures source.new.failures sink.old.failures sink.new.failures) }
{
    let mut debugger = Debugger::new(machine);
    let held = session_of(alloc, code, &mut debugger, source, sink);
    status_of(held)
}

/// The status with which a session ends, or the failure of its fault.
fn status_of(held: Result<(), DebugFault>) -> Result<u8, Failure>
    ensures { result ≡ result_map_both (λ _. 0) failure_of_session held }
{
    held?;
    Ok(0)
}
