//! A whole run of commands.

ghost use Rattle.std.specs.Prelude.{◌≡◌, ℕ, List, true, IfErr, IfOk, MatchResult, OnErr, OnOk, string_bytes};
ghost use Rattle.std.specs.Io.KnownBytes.{Appends};
ghost use Rattle.debugger.specs.StreamFailures.{AppendsFront, EndsBy, FailsBy};
ghost use Rattle.debugger.specs.Code.{unknown_code};
ghost use Rattle.debugger.specs.Reading.{IsHeld};
ghost use Rattle.debugger.specs.Running.{SomeRun};
ghost use Rattle.debugger.specs.Sessions.{Fails, Session};
ghost use Rattle.debugger.specs.Dialogue.{ComesOut, IsAnswered, LacksAnswer};

use crate::sessions::answers::{fault_text, told_text};
use crate::sessions::command::read_command;
use crate::sessions::effects::{Answer, Kept, carry_out};
use crate::sessions::input::{Failed, Fit, Input, Sink, Source};
use crate::{Code, DebugFault, Debugger, UnknownCode};
use std::alloc::{AllocError, Global};

/// Reads commands line by line, up to `quit` or the end of the input, carries each out, and answers it before the next is
/// asked for. A line of more than 65,536 bytes is no command, and an input ends after 4,294,967,295 bytes at the latest.
///
/// Whatever is read, the debugger's machine is brought by steps of a schedule from where it stood to where it stands.
///
/// # Errors
/// Memory where a growth is refused, InputOutput where a read or a write failed; nothing is written of them. The machine
/// stands as after the last command that was carried out.
pub fn session<S: Source, K: Sink>(
    alloc: Global,
    debugger: &mut Debugger,
    source: &mut S,
    sink: &mut K,
) -> Result<(), DebugFault>
    ensures runs { SomeRun debugger.old.machine debugger.new.machine }
    ensures same { (S.name_of source.new ≡ S.name_of source.old) × (K.name_of sink.new ≡ K.name_of sink.old) }
    ensures session { OnOk result (Session unknown_code debugger.old debugger.new (S.remaining_of source.old) (S.remaining_of source.new)
        (K.contents_of sink.old) (K.contents_of sink.new)) }
    ensures fails { IfErr result (Fails unknown_code debugger.old debugger.new (S.remaining_of source.old) (S.remaining_of source.new)
        (K.contents_of sink.old) (K.contents_of sink.new) (K.failures_of sink.old) (K.failures_of sink.new)) }
    ensures source { OnOk result (S.failures_of source.new ≡ S.failures_of source.old) }
    ensures sink { OnOk result (K.failures_of sink.new ≡ K.failures_of sink.old) }
    ensures err { IfErr result (EndsBy (S.failures_of source.old) (S.failures_of source.new)
        (K.failures_of sink.old) (K.failures_of sink.new)) }
{
    session_of(alloc, &UnknownCode, debugger, source, sink)
}

/// The same of a machine of whose code something is known: words then stand for addresses, and places are told.
pub fn session_of<C: Code, S: Source, K: Sink>(
    alloc: Global,
    code: &C,
    debugger: &mut Debugger,
    source: &mut S,
    sink: &mut K,
) -> Result<(), DebugFault>
    ensures runs { SomeRun debugger.old.machine debugger.new.machine }
    ensures same { (S.name_of source.new ≡ S.name_of source.old) × (K.name_of sink.new ≡ K.name_of sink.old) }
    ensures session { OnOk result (Session (C.known code.now) debugger.old debugger.new (S.remaining_of source.old) (S.remaining_of source.new)
        (K.contents_of sink.old) (K.contents_of sink.new)) }
    ensures fails { IfErr result (Fails (C.known code.now) debugger.old debugger.new (S.remaining_of source.old) (S.remaining_of source.new)
        (K.contents_of sink.old) (K.contents_of sink.new) (K.failures_of sink.old) (K.failures_of sink.new)) }
    ensures source { OnOk result (S.failures_of source.new ≡ S.failures_of source.old) }
    ensures sink { OnOk result (K.failures_of sink.new ≡ K.failures_of sink.old) }
    ensures err { IfErr result (EndsBy (S.failures_of source.old) (S.failures_of source.new)
        (K.failures_of sink.old) (K.failures_of sink.new)) }
{
    let mut input = Input::new();
    let mut line = Vec::new(alloc);
    let mut kept = Kept {
        last: None,
        verbose: false,
    };
    'lines: loop {
        let read = match input.read_line(source, &mut line) {
            Ok(read) => read,
            Err(unread) => return Err(unread),
        };
        let held = HeldLine {
            fit: read.fit,
            bytes: &line,
        };
        match answer_line(alloc, code, debugger, &mut kept, held, sink) {
            Ok(goes_on) => {
                if !goes_on || read.is_last {
                    return Ok(());
                }
            }
            Err(fault) => return Err(fault),
        }
    }
}

/// A line, as far as its bytes are held.
#[derive(Clone, Copy)]
struct HeldLine<'a> {
    fit: Fit,
    bytes: &'a [u8],
}

/// Carries out the command of a line and answers it; false where no further line is to be read.
fn answer_line<C: Code, K: Sink>(
    alloc: Global,
    code: &C,
    debugger: &mut Debugger,
    kept: &mut Kept,
    line: HeldLine<'_>,
    sink: &mut K,
) -> Result<bool, DebugFault>
    ensures runs { SomeRun debugger.old.machine debugger.new.machine }
    ensures same { K.name_of sink.new ≡ K.name_of sink.old }
    ensures answered { IfOk result (λ goes_on. (whole : List ℕ) → IsHeld line.entry.fit line.entry.bytes.now whole
        → IsAnswered (C.known code.now) (record { debugger = debugger.old; kept = kept.old }) (record { debugger = debugger.new; kept = kept.new })
        whole goes_on (K.contents_of sink.old) (K.contents_of sink.new)) }
    ensures unanswered { IfErr result (λ fault. (whole : List ℕ) → IsHeld line.entry.fit line.entry.bytes.now whole
        → LacksAnswer (C.known code.now) (record { debugger = debugger.old; kept = kept.old }) (record { debugger = debugger.new; kept = kept.new })
        whole (K.contents_of sink.old) (K.contents_of sink.new) fault) }
    ensures ok { OnOk result (K.failures_of sink.new ≡ K.failures_of sink.old) }
    ensures err { IfErr result (FailsBy (K.failures_of sink.old) (K.failures_of sink.new)) }
{
    match carried(alloc, code, debugger, kept, line) {
        Ok(None) => Ok(true),
        Ok(Some(Answer::Quit)) => Ok(false),
        Ok(Some(answer)) => {
            write_answer(told_text(alloc, code, debugger, kept.verbose, answer), sink)
        },
        Err(DebugFault::Memory) => Err(DebugFault::Memory),
        Err(fault) => write_answer(fault_text(alloc, fault), sink),
    }
}

/// Carries out the command of a line; None where the line has no words.
fn carried<C: Code>(
    alloc: Global,
    code: &C,
    debugger: &mut Debugger,
    kept: &mut Kept,
    line: HeldLine<'_>,
) -> Result<Option<Answer>, DebugFault>
    ensures runs { SomeRun debugger.old.machine debugger.new.machine }
    ensures comes_out { (whole : List ℕ) → IsHeld line.entry.fit line.entry.bytes.now whole
        → ComesOut (C.known code.now) (record { debugger = debugger.old; kept = kept.old }) (record { debugger = debugger.new; kept = kept.new })
        whole result }
{
    match line.fit {
        Fit::TooLong => Err(DebugFault::Command),
        Fit::Whole => match read_command(alloc, code, line.bytes) {
            Ok(None) => Ok(None),
            Ok(Some(command)) => match carry_out(debugger, kept, command) {
                Ok(answer) => Ok(Some(answer)),
                Err(fault) => Err(fault),
            },
            Err(fault) => Err(fault),
        },
    }
}

/// Writes an answer, after which the session goes on.
fn write_answer<K: Sink>(text: Result<String, AllocError>, sink: &mut K) -> Result<bool, DebugFault>
    ensures same { K.name_of sink.new ≡ K.name_of sink.old }
    ensures goes_on { IfOk result (λ goes_on. goes_on ≡ true) }
    ensures written { OnOk result (MatchResult text
        (λ said. Appends (K.contents_of sink.old) (K.contents_of sink.new) (string_bytes said)) (λ _. ⊥)) }
    ensures unwritten { IfErr result (λ fault. fault ≡ DebugFault.Memory → K.contents_of sink.new ≡ K.contents_of sink.old) }
    ensures front { IfErr result (λ fault. fault ≡ DebugFault.InputOutput → MatchResult text
        (λ said. AppendsFront (K.contents_of sink.old) (K.contents_of sink.new) (string_bytes said)) (λ _. ⊥)) }
    ensures ok { OnOk result (K.failures_of sink.new ≡ K.failures_of sink.old) }
    ensures err { IfErr result (FailsBy (K.failures_of sink.old) (K.failures_of sink.new)) }
{
    let Ok(text) = text else {
        return Err(DebugFault::Memory);
    };
    match sink.write(text.as_bytes()) {
        Ok(()) => Ok(true),
        Err(Failed) => Err(DebugFault::InputOutput),
    }
}
