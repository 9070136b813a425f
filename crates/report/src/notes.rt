//! What is noted of a run: events at which a processor may lose or reorder stores, where this machine doesn't.

ghost use Rattle.machine.specs.Traced.{events_in};
ghost use Rattle.line_memory.specs.declared.TheConstants.{TEXT_SIZE};
ghost use Rattle.report.specs.Notes.{AreCleaned, AreNotes, IsThere, instr_at, is_inval, is_unwritten, lets_stores_pass, noted, notes_text, told_note};
ghost use Rattle.report.specs.Places.{known_place, origin_in};
ghost use Rattle.std.specs.Prelude.{◌≡◌, ◌++◌, ◌<◌, ◌≤◌, All, IfOk, List, OnOk, length, string_bytes};
ghost use Rattle.store_trace.specs.History.{at_moment, steps_of};
ghost use Rattle.store_trace.specs.TraceView.{IsEvent, NamesLine};
ghost use Rattle.store_trace.specs.declared.crash_model.step.PersistenceStep.{PersistenceStep};

use crate::disassembly::words::{TextWord, WORD_SIZE, words_of};
use crate::place::{Place, Places};
use crash_image::TraceIndex;
use isa_table::{CacheOp, Instr};
use line_memory::TEXT_BASE;
use machine::{Run, TracedEvent};
use std::alloc::{AllocError, Global};
use std::fmt;
use std::fmt::Write;
use store_trace::{Event, MAX_HARTS};

/// A line for each of a run's events at which a processor may lose or reorder stores, by the instruction that the program's text has
/// at the event's pc: a `cbo.inval` of a line with stores that aren't written back for certain, and a fence that completes cleans
/// without `w` among its successors.
///
/// ```text
/// note: l0 invalidated at 3 h0 pc=0x10010 line=6 with stores not written back: cbo.inval acts as cbo.flush here, where a processor may lose them
/// note: fence at 4 h0 pc=0x10014 line=7 has no w among its successors: a processor lets later stores pass it
/// ```
///
/// Sources: RISC-V CMO 1.0, chapter 2; RISC-V Unprivileged ISA 20191213, chapter 2, "Memory Ordering Instructions".
///
/// # Errors
/// AllocError where a growth is refused.
pub fn notes_text(
    alloc: Global,
    text: &[u8],
    run: &Run,
    places: &Places<'_>,
) -> Result<String, AllocError>
    requires { length text.now ≤ TEXT_SIZE }
    ensures { IfOk result (λ notes. AreNotes text.now (origin_in places.now) run.now.traced (string_bytes notes)) }
{
    let words = words_of(alloc, text)?;
    // That these are the run's events is what the answer is proved by.
    let _events = run.trace().events();
    let traced = run.traced(alloc)?;
    let index = TraceIndex::new(alloc, run.start(), run.trace())?;
    tell_notes(alloc, &words, &index, &traced, places)
}

fn tell_notes(
    alloc: Global,
    words: &[TextWord],
    index: &TraceIndex<'_>,
    traced: &[TracedEvent],
    places: &Places<'_>,
) -> Result<String, AllocError>
    requires events { events_in traced.now ≡ index.now.events }
    requires few { length traced.now ≤ 65536 }
    requires each { All (IsThere (length index.now.start)) traced.now }
    ensures { IfOk result (λ notes. string_bytes notes ≡ notes_text (origin_in places.now) words.now traced.now) }
{
    let mut notes = String::new(alloc);
    let mut cleaned = [false; MAX_HARTS];
    for at in 0..traced.len() {
        let told = traced[at];
        let instr = instr_at(words, told.pc);
        let note = note_of(instr, told.event, at as u32, index, &cleaned);
        tell_note(&mut notes, at as u64 + 1, places.place_of(&told), note)?;
        pass_event(told.event, &mut cleaned);
    }
    Ok(notes)
}

/// The instruction that a program's words have at a pc.
fn instr_at(words: &[TextWord], pc: u64) -> Option<Instr>
    ensures { result ≡ instr_at words.now pc }
{
    let offset = pc.saturating_sub(TEXT_BASE) as usize;
    match words.get(offset / WORD_SIZE) {
        Some(one) => one.instr,
        None => None,
    }
}

/// What is noted of an event.
#[derive(Clone, Copy, Debug, PartialEq, Eq)]
pub(crate) enum Note {
    /// The line is invalidated, and has stores that aren't written back for certain.
    Invalidated { line: u32 },
    /// The fence completes cleans, and lets later stores pass it.
    StoresPass,
}

/// What is noted of an event whose instruction this is. `at` events come before it, and `cleaned` says of each hart whether it has cleaned
/// a line since its last fence.
fn note_of(
    instr: Option<Instr>,
    event: Event,
    at: u32,
    index: &TraceIndex<'_>,
    cleaned: &[bool; MAX_HARTS],
) -> Option<Note>
    requires there { IsEvent event }
    requires named { NamesLine (length index.now.start) event }
    requires at { at ≤ length index.now.events }
    requires cleaned { AreCleaned (at_moment index.now.events at) cleaned.now }
    ensures { result ≡ noted instr (at_moment index.now.events at) event }
{
    match event {
        Event::Clean { line, .. } => {
            (is_inval(instr) && is_unwritten(index, line, at)).then_some(Note::Invalidated { line })
        }
        Event::Fence { hart } => {
            (lets_stores_pass(instr) && cleaned[hart as usize]).then_some(Note::StoresPass)
        }
        Event::Store { .. } | Event::Begin { .. } | Event::End { .. } => None,
    }
}

/// Whether an instruction is `cbo.inval`.
fn is_inval(instr: Option<Instr>) -> bool
    ensures { result ≡ is_inval instr }
{
    match instr {
        Some(Instr::Cache { op, .. }) => matches!(op, CacheOp::Inval),
        _ => false,
    }
}

/// Whether an instruction is a fence without `w` among its successors.
fn lets_stores_pass(instr: Option<Instr>) -> bool
    ensures { result ≡ lets_stores_pass instr }
{
    match instr {
        Some(Instr::Fence { successor, .. }) => !successor.memory_writes,
        _ => false,
    }
}

/// Whether a line has stores at a moment that aren't written back for certain.
fn is_unwritten(index: &TraceIndex<'_>, line: u32, moment: u32) -> bool
    requires line { line < length index.now.start }
    requires moment { moment ≤ length index.now.events }
    ensures { result ≡ is_unwritten line (at_moment index.now.events moment) }
{
    index.floor(line, moment) < index.stores(line, moment)
}

/// Goes one event on.
#[tactic(auto, using(crate::proofs::Noting::cleaned_now, crate::proofs::Noting::cleaned_none))]
fn pass_event(event: Event, cleaned: &mut [bool; MAX_HARTS])
    requires { IsEvent event }
    ensures { (steps : List PersistenceStep) → AreCleaned steps cleaned.old → AreCleaned (steps_of event ++ steps) cleaned.new }
{
    match event {
        Event::Clean { hart, .. } => cleaned[hart as usize] = true,
        Event::Fence { hart } => cleaned[hart as usize] = false,
        Event::Store { .. } | Event::Begin { .. } | Event::End { .. } => {}
    }
}

/// A note on the event of a number, from 1, as it is printed, with where the event was made.
#[derive(Clone, Copy)]
struct ShownNote<'a> {
    number: u64,
    place: Place<'a>,
    note: Note,
}

impl fmt::Display for ShownNote<'_> {
    ghost use Rattle.std.specs.Prelude.{Some};
    ghost use Rattle.report.specs.Notes.{note_text};
    ghost use Rattle.report.specs.Places.{known_place};

    ghost output = { λ shown. Some (note_text shown.number (known_place shown.place) shown.note) };

    fn fmt<W: fmt::Write>(&self, f: &mut fmt::Formatter<W>) -> fmt::Result {
        let ShownNote {
            number,
            place,
            note,
        } = *self;
        match note {
            Note::Invalidated { line } => write!(
                f,
                "note: l{line} invalidated at {number} {place} with stores not written back: cbo.inval acts as cbo.flush here, where a processor may lose them"
            ),
            Note::StoresPass => write!(
                f,
                "note: fence at {number} {place} has no w among its successors: a processor lets later stores pass it"
            ),
        }
    }
}

/// Adds the line of a note, where there is one.
fn tell_note(
    notes: &mut String,
    number: u64,
    place: Place<'_>,
    note: Option<Note>,
) -> Result<(), AllocError>
    ensures { OnOk result (string_bytes notes.new ≡ string_bytes notes.old ++ told_note number (known_place place.entry) note) }
{
    match note {
        Some(note) => {
            let shown = ShownNote {
                number,
                place,
                note,
            };
            writeln!(notes, "{shown}")
        }
        None => Ok(()),
    }
}
