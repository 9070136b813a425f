//! Carrying out a command.

ghost use Rattle.std.specs.Prelude.{◌≡◌, ◌+◌};
ghost use Rattle.debugger.specs.CommandEffects.{Breaks, Clears, Does, Goes, GoesOnBy, MakesStep, ShowsBytes, ShowsHart, ShowsPlace, Watches, byte_at};
ghost use Rattle.debugger.specs.Running.{SomeRun};

use crate::sessions::command::Command;
use crate::{Cause, DebugFault, Debugger, Place, Schedule};
use hart::HartState;

/// A schedule, and the place in it where the next `go` begins.
#[derive(Drop)]
pub(crate) struct Progress {
    pub(crate) schedule: Schedule,
    pub(crate) place: Place,
}

/// What a session keeps from line to line, beside the debugger.
#[derive(Drop)]
pub(crate) struct Kept {
    /// The last schedule, where there is one.
    pub(crate) last: Option<Progress>,
    /// Whether a stop is answered with where its hart is, and a step with that and what it changed.
    pub(crate) verbose: bool,
}

/// What a command that was carried out is answered with.
#[derive(Clone, Copy)]
pub(crate) enum Answer {
    Done,
    /// The line of this hart, which a step has brought from one state to the other.
    Hart {
        hart: u32,
        before: HartState,
        after: HartState,
    },
    Stop(Cause),
    /// The pc and the registers of a hart in this state.
    Registers(HartState),
    /// Where this hart is.
    Where {
        hart: u32,
        pc: u64,
    },
    /// The bytes from this address on.
    Bytes {
        address: u64,
        count: u64,
    },
    /// The cache lines of which a power cut may lose stores.
    Lines,
    /// The list of commands.
    Help,
    /// Nothing: no further command is read.
    Quit,
}

/// Carries out a command.
#[tactic(auto, using(crate::proofs::Runs::command_run))]
pub(crate) fn carry_out(
    debugger: &mut Debugger,
    kept: &mut Kept,
    command: Command,
) -> Result<Answer, DebugFault>
    ensures runs { SomeRun debugger.old.machine debugger.new.machine }
    ensures does { Does (record { debugger = debugger.old; kept = kept.old })
        (record { debugger = debugger.new; kept = kept.new }) command result }
{
    match command {
        Command::Break(address) => break_at(debugger, address),
        Command::Watch(address) => watch_line(debugger, address),
        Command::Clear(address) => clear(debugger, address),
        Command::Step(hart) => step(debugger, hart),
        Command::Go(schedule) => {
            let place = Place::start();
            kept.last = Some(Progress { schedule, place });
            go_on(debugger, kept)
        }
        Command::GoOn => go_on(debugger, kept),
        Command::Registers(hart) => registers(debugger, hart),
        Command::Where(hart) => place(debugger, hart),
        Command::Peek { address, count } => peek(debugger, address, count),
        Command::Lines => Ok(Answer::Lines),
        Command::Verbose(on) => {
            kept.verbose = on;
            Ok(Answer::Done)
        }
        Command::Help => Ok(Answer::Help),
        Command::Quit => Ok(Answer::Quit),
    }
}

#[tactic(auto, using(crate::proofs::SessionPoints::break_set, crate::proofs::SessionPoints::break_refused))]
fn break_at(debugger: &mut Debugger, address: u64) -> Result<Answer, DebugFault>
    ensures { Breaks debugger.old debugger.new address result }
{
    match debugger.break_at(address) {
        Ok(()) => Ok(Answer::Done),
        Err(fault) => Err(fault),
    }
}

#[tactic(auto, using(crate::proofs::SessionPoints::watch_set, crate::proofs::SessionPoints::watch_refused))]
fn watch_line(debugger: &mut Debugger, address: u64) -> Result<Answer, DebugFault>
    ensures { Watches debugger.old debugger.new address result }
{
    match debugger.watch_line(address) {
        Ok(()) => Ok(Answer::Done),
        Err(fault) => Err(fault),
    }
}

#[tactic(auto, using(crate::proofs::SessionPoints::points_cleared, crate::proofs::SessionPoints::clear_refused))]
fn clear(debugger: &mut Debugger, address: u64) -> Result<Answer, DebugFault>
    ensures { Clears debugger.old debugger.new address result }
{
    match debugger.clear(address) {
        Ok(()) => Ok(Answer::Done),
        Err(fault) => Err(fault),
    }
}

fn step(debugger: &mut Debugger, hart: u32) -> Result<Answer, DebugFault>
    ensures { MakesStep debugger.old debugger.new hart result }
{
    let before = match debugger.regs(hart) {
        Ok(state) => *state,
        Err(fault) => return Err(fault),
    };
    if let Err(fault) = debugger.step(hart) {
        return Err(fault);
    }
    match debugger.regs(hart) {
        Ok(state) => Ok(Answer::Hart {
            hart,
            before,
            after: *state,
        }),
        // A step of a hart that isn't there is refused.
        Err(_) => unreachable!(),
    }
}

fn registers(debugger: &Debugger, hart: u32) -> Result<Answer, DebugFault>
    ensures { ShowsHart debugger.now.machine hart result }
{
    match debugger.regs(hart) {
        Ok(state) => Ok(Answer::Registers(*state)),
        Err(fault) => Err(fault),
    }
}

/// Where a hart is.
fn place(debugger: &Debugger, hart: u32) -> Result<Answer, DebugFault>
    ensures { ShowsPlace debugger.now.machine hart result }
{
    match debugger.regs(hart) {
        Ok(state) => Ok(Answer::Where { hart, pc: state.pc }),
        Err(fault) => Err(fault),
    }
}

/// Goes on by the last schedule, which keeps the place that is reached: a step that was refused is the next one.
fn go_on(debugger: &mut Debugger, kept: &mut Kept) -> Result<Answer, DebugFault>
    ensures { GoesOnBy (record { debugger = debugger.old; kept = kept.old })
        (record { debugger = debugger.new; kept = kept.new }) kept.old.last result }
{
    match &mut kept.last {
        Some(progress) => go_from(debugger, progress),
        None => Err(DebugFault::Command),
    }
}

fn go_from(debugger: &mut Debugger, progress: &mut Progress) -> Result<Answer, DebugFault>
    ensures progress { progress.new ≡ record progress.old { place = progress.new.place } }
    ensures goes { Goes debugger.old debugger.new progress.old.schedule progress.old.place progress.new.place result }
{
    match debugger.go(&progress.schedule, progress.place) {
        Ok(stop) => {
            progress.place = stop.place;
            Ok(Answer::Stop(stop.cause))
        }
        Err(fault) => {
            if let DebugFault::Stopped { place, .. } = fault {
                progress.place = place;
            }
            Err(fault)
        }
    }
}

/// The bytes from an address on, all of which must lie in regions.
fn peek(debugger: &Debugger, address: u64, count: u64) -> Result<Answer, DebugFault>
    ensures { ShowsBytes debugger.now.machine address count result }
{
    for place in 0..count {
        if byte_at(debugger, address, place).is_none() {
            return Err(DebugFault::Address);
        }
    }
    Ok(Answer::Bytes { address, count })
}

/// The byte at this place behind an address.
pub(crate) fn byte_at(debugger: &Debugger, address: u64, place: u64) -> Option<u8>
    ensures { result ≡ byte_at debugger.now.machine (address + place) }
{
    match address.checked_add(place) {
        Some(at) => debugger.peek(at),
        None => None,
    }
}
