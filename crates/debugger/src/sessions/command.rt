//! The command that a line says.

ghost use Rattle.std.specs.Prelude.{◌≡◌, ◌≢◌, ◌≤◌, [], ℕ, true, IfErr, IfOk, MatchOption, OnErr, OnOk, codes};
ghost use Rattle.debugger.specs.Grammar.{IsOneAddress, IsOneHart, IsOnePlace, IsRange, Names, OnAddress, OnAsked, OnHart, OnName, OnPlace, Says, SaysNamed, SaysPlain, meant};
ghost use Rattle.text.specs.Numbers.{Writes};
ghost use Rattle.text.specs.Words.{words};
ghost use Rattle.text.specs.declared.numbers.Number.{Number as ANumber};

use crate::points::can_break;
use crate::{Code, DebugFault, Schedule, StepFault};
use machine::ScheduleFault;
use std::alloc::Global;
use text::{Blanks, Number, first_word, is_blank, number_in, only_word, written_number};

/// The most bytes that one command shows.
const MAX_BYTES: u64 = 64;

/// The largest number of a hart that a schedule can name.
const MAX_HART: u64 = 4_294_967_295;

/// What a line asks of a debugger.
#[derive(Drop)]
pub(crate) enum Command {
    /// `break A`, `break NAME`: set a breakpoint.
    Break(u64),
    /// `watch A`: watch the line of an address.
    Watch(u64),
    /// `clear A`, `clear NAME`: take both away.
    Clear(u64),
    /// `step H`: make one step of a hart.
    Step(u32),
    /// `go ITEMS`: go by a schedule.
    Go(Schedule),
    /// `go`: go on by the last schedule.
    GoOn,
    /// `regs H`: show a hart's pc and registers.
    Registers(u32),
    /// `where H`: show a hart's pc, and where that is.
    Where(u32),
    /// `peek A N`: show from 1 to 64 bytes.
    Peek { address: u64, count: u64 },
    /// `lines`: show the cache lines of which a power cut may lose stores.
    Lines,
    /// `verbose on`, `verbose off`: say more of stops and steps, or no more.
    Verbose(bool),
    /// `help`: list the commands.
    Help,
    /// `quit`.
    Quit,
}

/// The command that a line says; None where it has no words.
///
/// # Errors
/// Command where it says none; Address where an address is past 64 bits, or a name is that of no instruction; NoSuchHart where the number of a hart is past 32
/// bits; Memory where it says `go` with a schedule, for which a growth is refused.
pub(crate) fn read_command<C: Code>(
    alloc: Global,
    code: &C,
    line: &[u8],
) -> Result<Option<Command>, DebugFault>
    ensures ok { IfOk result (λ found. MatchOption found (words line.now ≡ []) (λ command. Says (C.known code.now) line.now (meant command))) }
    ensures err { IfErr result (OnAsked (Says (C.known code.now) line.now)) }
    ensures filled { OnErr result (words line.now ≢ []) }
{
    let Some((name, rest)) = first_word(line, Blanks::Spaces) else {
        return Ok(None);
    };
    match named_command(alloc, code, name, rest) {
        Ok(command) => Ok(Some(command)),
        Err(fault) => Err(fault),
    }
}

/// The command of a name, with what follows the name.
#[tactic(auto, using(crate::proofs::Commands::plain_said, crate::proofs::Commands::plain_fault))]
fn named_command<C: Code>(
    alloc: Global,
    code: &C,
    name: &[u8],
    rest: &[u8],
) -> Result<Command, DebugFault>
    ensures ok { IfOk result (λ command. SaysNamed (C.known code.now) name.now rest.now (meant command)) }
    ensures err { IfErr result (OnAsked (SaysNamed (C.known code.now) name.now rest.now)) }
{
    if name == b"break".as_slice() {
        return break_command(code, rest);
    }
    if name == b"clear".as_slice() {
        return clear_command(code, rest);
    }
    match plain_command(alloc, name, rest) {
        Ok(command) => Ok(command),
        Err(fault) => Err(fault),
    }
}

/// That of a name other than `break` and `clear`, whose words mean the same whatever is known of the code.
#[tactic(auto, using(crate::proofs::Commands::no_name))]
fn plain_command(alloc: Global, name: &[u8], rest: &[u8]) -> Result<Command, DebugFault>
    ensures ok { IfOk result (λ command. SaysPlain name.now rest.now (meant command)) }
    ensures err { IfErr result (OnAsked (SaysPlain name.now rest.now)) }
{
    if name == b"watch".as_slice() {
        watch_command(rest)
    } else if name == b"step".as_slice() {
        step_command(rest)
    } else if name == b"regs".as_slice() {
        registers_command(rest)
    } else if name == b"where".as_slice() {
        where_command(rest)
    } else if name == b"peek".as_slice() {
        peek_command(rest)
    } else if name == b"go".as_slice() {
        go_command(alloc, rest)
    } else if name == b"lines".as_slice() {
        lines_command(rest)
    } else if name == b"verbose".as_slice() {
        verbose_command(rest)
    } else if name == b"help".as_slice() {
        help_command(rest)
    } else if name == b"quit".as_slice() {
        quit_command(rest)
    } else {
        Err(DebugFault::Command)
    }
}

#[tactic(auto, using(crate::proofs::Commands::break_fault))]
fn break_command<C: Code>(code: &C, rest: &[u8]) -> Result<Command, DebugFault>
    ensures ok { IfOk result (λ command. SaysNamed (C.known code.now) (codes "break") rest.now (meant command)) }
    ensures err { IfErr result (OnAsked (SaysNamed (C.known code.now) (codes "break") rest.now)) }
{
    match one_place(code, rest) {
        Ok(address) => Ok(Command::Break(address)),
        Err(fault) => Err(fault),
    }
}

#[tactic(auto, using(crate::proofs::Commands::watch_fault))]
fn watch_command(rest: &[u8]) -> Result<Command, DebugFault>
    ensures ok { IfOk result (λ command. SaysPlain (codes "watch") rest.now (meant command)) }
    ensures err { IfErr result (OnAsked (SaysPlain (codes "watch") rest.now)) }
{
    match one_address(rest) {
        Ok(address) => Ok(Command::Watch(address)),
        Err(fault) => Err(fault),
    }
}

#[tactic(auto, using(crate::proofs::Commands::clear_fault))]
fn clear_command<C: Code>(code: &C, rest: &[u8]) -> Result<Command, DebugFault>
    ensures ok { IfOk result (λ command. SaysNamed (C.known code.now) (codes "clear") rest.now (meant command)) }
    ensures err { IfErr result (OnAsked (SaysNamed (C.known code.now) (codes "clear") rest.now)) }
{
    match one_place(code, rest) {
        Ok(address) => Ok(Command::Clear(address)),
        Err(fault) => Err(fault),
    }
}

#[tactic(auto, using(crate::proofs::Commands::step_fault))]
fn step_command(rest: &[u8]) -> Result<Command, DebugFault>
    ensures ok { IfOk result (λ command. SaysPlain (codes "step") rest.now (meant command)) }
    ensures err { IfErr result (OnAsked (SaysPlain (codes "step") rest.now)) }
{
    match one_hart(rest) {
        Ok(hart) => Ok(Command::Step(hart)),
        Err(fault) => Err(fault),
    }
}

#[tactic(auto, using(crate::proofs::Commands::regs_fault))]
fn registers_command(rest: &[u8]) -> Result<Command, DebugFault>
    ensures ok { IfOk result (λ command. SaysPlain (codes "regs") rest.now (meant command)) }
    ensures err { IfErr result (OnAsked (SaysPlain (codes "regs") rest.now)) }
{
    match one_hart(rest) {
        Ok(hart) => Ok(Command::Registers(hart)),
        Err(fault) => Err(fault),
    }
}

#[tactic(auto, using(crate::proofs::Commands::where_fault))]
fn where_command(rest: &[u8]) -> Result<Command, DebugFault>
    ensures ok { IfOk result (λ command. SaysPlain (codes "where") rest.now (meant command)) }
    ensures err { IfErr result (OnAsked (SaysPlain (codes "where") rest.now)) }
{
    match one_hart(rest) {
        Ok(hart) => Ok(Command::Where(hart)),
        Err(fault) => Err(fault),
    }
}

/// A number of bytes that is wrong is told before an address that is too large.
#[tactic(auto, using(crate::proofs::Commands::range_fault))]
fn peek_command(rest: &[u8]) -> Result<Command, DebugFault>
    ensures ok { IfOk result (λ command. SaysPlain (codes "peek") rest.now (meant command)) }
    ensures err { IfErr result (OnAsked (SaysPlain (codes "peek") rest.now)) }
{
    match range(rest) {
        Some((Number::Small(address), count)) => Ok(Command::Peek { address, count }),
        Some((Number::Large, _)) => Err(DebugFault::Address),
        None => Err(DebugFault::Command),
    }
}

#[tactic(auto, using(crate::proofs::Commands::go_none, crate::proofs::Commands::go_wants))]
fn go_command(alloc: Global, rest: &[u8]) -> Result<Command, DebugFault>
    ensures ok { IfOk result (λ command. SaysPlain (codes "go") rest.now (meant command)) }
    ensures err { IfErr result (OnAsked (SaysPlain (codes "go") rest.now)) }
{
    if is_blank(rest) {
        return Ok(Command::GoOn);
    }
    match Schedule::read(alloc, rest) {
        Ok(schedule) => Ok(Command::Go(schedule)),
        Err(ScheduleFault::Text) => Err(DebugFault::Command),
        Err(ScheduleFault::Memory) => Err(DebugFault::Memory),
    }
}

#[tactic(auto, using(crate::proofs::Commands::lines_none))]
fn lines_command(rest: &[u8]) -> Result<Command, DebugFault>
    ensures ok { IfOk result (λ command. SaysPlain (codes "lines") rest.now (meant command)) }
    ensures err { IfErr result (OnAsked (SaysPlain (codes "lines") rest.now)) }
{
    if is_blank(rest) {
        Ok(Command::Lines)
    } else {
        Err(DebugFault::Command)
    }
}

#[tactic(auto, using(crate::proofs::Commands::no_switch_word, crate::proofs::Commands::no_switch, crate::proofs::Commands::verbose_none))]
fn verbose_command(rest: &[u8]) -> Result<Command, DebugFault>
    ensures ok { IfOk result (λ command. SaysPlain (codes "verbose") rest.now (meant command)) }
    ensures err { IfErr result (OnAsked (SaysPlain (codes "verbose") rest.now)) }
{
    let Some(word) = only_word(rest) else {
        return Err(DebugFault::Command);
    };
    if word == b"on".as_slice() {
        Ok(Command::Verbose(true))
    } else if word == b"off".as_slice() {
        Ok(Command::Verbose(false))
    } else {
        Err(DebugFault::Command)
    }
}

#[tactic(auto, using(crate::proofs::Commands::help_none))]
fn help_command(rest: &[u8]) -> Result<Command, DebugFault>
    ensures ok { IfOk result (λ command. SaysPlain (codes "help") rest.now (meant command)) }
    ensures err { IfErr result (OnAsked (SaysPlain (codes "help") rest.now)) }
{
    if is_blank(rest) {
        Ok(Command::Help)
    } else {
        Err(DebugFault::Command)
    }
}

#[tactic(auto, using(crate::proofs::Commands::quit_none))]
fn quit_command(rest: &[u8]) -> Result<Command, DebugFault>
    ensures ok { IfOk result (λ command. SaysPlain (codes "quit") rest.now (meant command)) }
    ensures err { IfErr result (OnAsked (SaysPlain (codes "quit") rest.now)) }
{
    if is_blank(rest) {
        Ok(Command::Quit)
    } else {
        Err(DebugFault::Command)
    }
}

/// The address that is a line's only word.
#[tactic(auto, using(crate::proofs::Commands::address_said, crate::proofs::Commands::no_address, crate::proofs::Commands::no_address_word))]
fn one_address(line: &[u8]) -> Result<u64, DebugFault>
    ensures ok { IfOk result (λ address. IsOneAddress (words line.now) (Number.Small address)) }
    ensures err { IfErr result (OnAddress (words line.now)) }
{
    let Some(word) = only_word(line) else {
        return Err(DebugFault::Command);
    };
    match written_number(word) {
        Some(Number::Small(address)) => Ok(address),
        Some(Number::Large) => Err(DebugFault::Address),
        None => Err(DebugFault::Command),
    }
}

/// The address of an instruction that a line's only word means: a number, or a word that the code takes for a name.
#[tactic(auto, using(crate::proofs::Commands::place_said, crate::proofs::Commands::no_place_word, crate::proofs::Commands::place_named, crate::proofs::Commands::name_fault))]
fn one_place<C: Code>(code: &C, line: &[u8]) -> Result<u64, DebugFault>
    ensures ok { IfOk result (λ address. IsOnePlace (C.known code.now) (words line.now) (Number.Small address)) }
    ensures err { IfErr result (OnPlace (C.known code.now) (words line.now)) }
{
    let Some(word) = only_word(line) else {
        return Err(DebugFault::Command);
    };
    match written_number(word) {
        Some(Number::Small(address)) => Ok(address),
        Some(Number::Large) => Err(DebugFault::Address),
        None => match named_place(code, word) {
            Ok(address) => Ok(address),
            Err(fault) => Err(fault),
        },
    }
}

/// The address of an instruction that a name stands for.
fn named_place<C: Code>(code: &C, word: &[u8]) -> Result<u64, DebugFault>
    ensures named { IfOk result (λ address. Names (C.known code.now) word.now (Number.Small address)) }
    ensures ok { OnOk result ((C.known code.now).named word.now ≡ true) }
    ensures err { IfErr result (OnName (C.known code.now) word.now) }
{
    if !code.is_named(word) {
        return Err(DebugFault::Command);
    }
    match code.address_of(word) {
        Some(address) if can_break(address) => Ok(address),
        _ => Err(DebugFault::Address),
    }
}

/// The number of a hart that is a line's only word.
#[tactic(auto, using(crate::proofs::Commands::hart_said, crate::proofs::Commands::hart_past, crate::proofs::Commands::hart_large, crate::proofs::Commands::no_hart, crate::proofs::Commands::no_hart_word))]
fn one_hart(line: &[u8]) -> Result<u32, DebugFault>
    ensures ok { IfOk result (λ hart. IsOneHart (words line.now) (Number.Small hart)) }
    ensures err { IfErr result (OnHart (words line.now)) }
{
    let Some(word) = only_word(line) else {
        return Err(DebugFault::Command);
    };
    match number_in(word, 10) {
        Some(Number::Small(number)) => {
            if number > MAX_HART {
                Err(DebugFault::Step(StepFault::NoSuchHart))
            } else {
                Ok(number as u32)
            }
        }
        Some(Number::Large) => Err(DebugFault::Step(StepFault::NoSuchHart)),
        None => Err(DebugFault::Command),
    }
}

/// An address and a number of bytes, from 1 to 64.
#[tactic(auto, using(crate::proofs::Commands::range_said, crate::proofs::Commands::no_range_word, crate::proofs::Commands::no_range_digits, crate::proofs::Commands::no_range_address, crate::proofs::Commands::no_range_count))]
fn range(line: &[u8]) -> Option<(Number, u64)>
    ensures { MatchOption result ((number : ANumber) (count : ℕ) → ¬ (IsRange (words line.now) number count))
        (λ found. IsRange (words line.now) found.0 found.1) }
{
    let (word, rest) = first_word(line, Blanks::Spaces)?;
    let Some(address) = written_number(word) else {
        return None;
    };
    let count = byte_count(only_word(rest)?)?;
    Some((address, count))
}

/// The number of bytes that a word writes, from 1 to 64.
fn byte_count(word: &[u8]) -> Option<u64>
    ensures { MatchOption result ((n : ℕ) → Writes 10 word.now (Number.Small n) → 1 ≤ n → n ≤ 64 → ⊥)
        (λ count. Writes 10 word.now (Number.Small count) × (1 ≤ count) × (count ≤ 64)) }
{
    match number_in(word, 10) {
        Some(Number::Small(count)) if (1..=MAX_BYTES).contains(&count) => Some(count),
        _ => None,
    }
}
