//! The cache lines of which a power cut may lose stores.

ghost use Rattle.std.specs.Prelude.{◌≡◌, ◌+◌, ◌<◌, ◌≤◌, ◌==◌, ◌++◌, IfOk, List, OnOk, if◌then◌else◌, length, slice_index_or, string_bytes, ℕ};
ghost use Rattle.debugger.specs.LinesAtRisk.{IsTally, line_text, lines_text, or_none, tally_texts, waiting_text};
ghost use Rattle.store_trace.specs.History.{history, steps_of};
ghost use Rattle.store_trace.specs.declared.crash_model.step.PersistenceStep.{PersistenceStep};

use line_memory::MAX_LINES;
use std::alloc::{AllocError, Global};
use std::fmt::Write;
use store_trace::Event;

/// What the first events of a trace have done to a cache line.
#[derive(Drop)]
pub(crate) struct Tally {
    pub(crate) stores: u32,
    /// How many of the stores are durable.
    pub(crate) floor: u32,
    /// For each hart, by its number, how many stores there were at its last clean of the line. A hart past the end made none.
    pub(crate) cleaned: Vec<u32>,
}

/// A line for each cache line at risk, upwards, or `none`. It takes time by the events, for each of the 16,384 cache lines.
#[tactic(auto, using(crate::proofs::Tallies::no_lines, crate::proofs::Tallies::lines_more))]
pub(crate) fn lines_text(alloc: Global, events: &[Event]) -> Result<String, AllocError>
    requires { length events.now ≤ 65536 }
    ensures { IfOk result (λ text. string_bytes text ≡ lines_text events.now) }
{
    let mut text = String::new(alloc);
    for line in 0..MAX_LINES {
        push_line(alloc, &mut text, events, line)?;
    }
    or_none(text)
}

/// The text, or `none` in place of an empty one.
fn or_none(text: String) -> Result<String, AllocError>
    ensures { IfOk result (λ made. string_bytes made ≡ or_none (string_bytes text)) }
{
    if !text.is_empty() {
        return Ok(text);
    }
    let mut none = text;
    none.push_str("none\n")?;
    Ok(none)
}

/// Adds a cache line where it is at risk.
fn push_line(
    alloc: Global,
    text: &mut String,
    events: &[Event],
    line: u32,
) -> Result<(), AllocError>
    requires { length events.now ≤ 65536 }
    ensures { OnOk result (string_bytes text.new ≡ string_bytes text.old ++ line_text (history events.now) line) }
{
    let tally = tally_of(alloc, events, line)?;
    push_tally(text, line, &tally)
}

/// What the events have done to a line.
#[tactic(auto, using(crate::proofs::Tallies::tally_more))]
fn tally_of(alloc: Global, events: &[Event], line: u32) -> Result<Tally, AllocError>
    requires { length events.now ≤ 65536 }
    ensures { IfOk result (IsTally line (history events.now)) }
{
    let mut tally = Tally {
        stores: 0,
        floor: 0,
        cleaned: Vec::new(alloc),
    };
    for event in events {
        tally.note(line, *event)?;
    }
    Ok(tally)
}

impl Tally {
    /// Takes one more event.
    fn note(&mut self, line: u32, event: Event) -> Result<(), AllocError>
        requires { self.old.stores < 65536 }
        ensures few { OnOk result (self.new.stores ≤ self.old.stores + 1) }
        ensures tally { OnOk result ((p : List PersistenceStep) → IsTally line p self.old → IsTally line (steps_of event ++ p) self.new) }
    {
        match event {
            Event::Store { line: stored, .. } if stored == line => self.stores += 1,
            Event::Clean {
                hart,
                line: written,
            } if written == line => set(&mut self.cleaned, hart, self.stores)?,
            Event::Fence { hart } => self.floor = self.floor.max(self.cleaned_by(hart)),
            _ => {}
        }
        Ok(())
    }

    /// How many stores there were at a hart's last clean of the line.
    fn cleaned_by(&self, hart: u32) -> u32
        ensures { result ≡ slice_index_or self.now.cleaned.items hart 0 }
    {
        match self.cleaned.get(hart as usize) {
            Some(number) => *number,
            None => 0,
        }
    }
}

/// Writes a number at a place of a table, which holds 0 past its end.
#[tactic(auto, using(crate::proofs::Tallies::set_at_place))]
fn set(table: &mut Vec<u32>, place: u32, number: u32) -> Result<(), AllocError>
    ensures { OnOk result ((k : ℕ) → slice_index_or table.new.items k 0
        ≡ (if k == place then number else slice_index_or table.old.items k 0)) }
{
    lengthen(table, place)?;
    table[place as usize] = number;
    Ok(())
}

/// Makes a table long enough to hold a place.
fn lengthen(table: &mut Vec<u32>, place: u32) -> Result<(), AllocError>
    ensures same { OnOk result ((k : ℕ) → slice_index_or table.new.items k 0 ≡ slice_index_or table.old.items k 0) }
    ensures long { OnOk result (place < length table.new.items) }
{
    let place = place as usize;
    if place < table.len() {
        return Ok(());
    }
    table.resize(place + 1, 0)
}

/// Adds the line of a tally, where not all of its stores are durable.
#[tactic(auto, using(crate::proofs::Tallies::line_pushed, crate::proofs::Tallies::line_untold))]
fn push_tally(text: &mut String, line: u32, tally: &Tally) -> Result<(), AllocError>
    ensures { OnOk result ((p : List PersistenceStep) → IsTally line p tally.now
        → string_bytes text.new ≡ string_bytes text.old ++ line_text p line) }
{
    if tally.floor >= tally.stores {
        return Ok(());
    }
    write!(
        text,
        "l{line} stores={} floor={}",
        tally.stores, tally.floor
    )?;
    push_waiting_cleans(text, tally)?;
    text.push_str("\n")
}

/// Adds the cleans of the line that wait for a fence.
#[tactic(auto, using(crate::proofs::Tallies::none_waiting, crate::proofs::Tallies::waiting_more))]
fn push_waiting_cleans(text: &mut String, tally: &Tally) -> Result<(), AllocError>
    ensures { OnOk result (string_bytes text.new ≡ string_bytes text.old ++ tally_texts tally.now 8) }
{
    for hart in 0..8 {
        push_waiting(text, hart, tally)?;
    }
    Ok(())
}

/// Adds a hart's last clean of the line, where a fence of the hart would make stores durable by it.
fn push_waiting(text: &mut String, hart: u32, tally: &Tally) -> Result<(), AllocError>
    ensures { OnOk result (string_bytes text.new
        ≡ string_bytes text.old ++ waiting_text tally.now.floor hart (slice_index_or tally.now.cleaned.items hart 0)) }
{
    let number = tally.cleaned_by(hart);
    if tally.floor < number {
        write!(text, " cleaned=h{hart}:{number}")?;
    }
    Ok(())
}
