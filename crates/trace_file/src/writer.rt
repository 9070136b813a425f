//! Writing a trace file.

ghost use Rattle.std.specs.Prelude.{◌≡◌, ◌++◌, [], List, ℕ, All, OnOk, length};
ghost use Rattle.store_trace.specs.TraceView.{NamesLine};
ghost use Rattle.trace_file.specs.Entries.{hart_of, last_line, placed_line};
ghost use Rattle.trace_file.specs.Ranks.{file_lines, named, texts_of};

use std::alloc::{AllocError, Global};
use std::fmt;
use store_trace::Event;

/// The hart that made an event.
fn hart_of(event: Event) -> u32
    ensures { result ≡ hart_of event }
{
    match event {
        Event::Store { hart, .. }
        | Event::Clean { hart, .. }
        | Event::Fence { hart }
        | Event::Begin { hart, .. }
        | Event::End { hart, .. } => hart,
    }
}

/// What an event did, as its line says it, with the line's end.
#[derive(Clone, Copy)]
struct ActText {
    event: Event,
}

impl fmt::Display for ActText {
    ghost use Rattle.std.specs.Prelude.{Some};
    ghost use Rattle.trace_file.specs.Printed.{act_printed};

    ghost output = { λ act. Some (act_printed act.event) };

    fn fmt<W: fmt::Write>(&self, f: &mut fmt::Formatter<W>) -> fmt::Result {
        match self.event {
            Event::Store {
                line,
                offset,
                width,
                value,
                ..
            } => write!(f, "store l{line}+{offset} w{width} 0x{value:x}\n"),
            Event::Clean { line, .. } => write!(f, "clean l{line}\n"),
            Event::Fence { .. } => write!(f, "fence\n"),
            Event::Begin { op, .. } => write!(f, "begin {op}\n"),
            Event::End { op, .. } => write!(f, "end {op}\n"),
        }
    }
}

/// An event with the name of its line in place of the line's rank, whose names go by rank.
pub fn with_name(names: &[u32], event: Event) -> Event
    requires { NamesLine (length names.now) event }
    ensures { result ≡ named names.now event }
{
    match event {
        Event::Store {
            hart,
            line,
            offset,
            width,
            value,
        } => Event::Store {
            hart,
            line: names[line as usize],
            offset,
            width,
            value,
        },
        Event::Clean { hart, line } => Event::Clean {
            hart,
            line: names[line as usize],
        },
        Event::Fence { hart } => Event::Fence { hart },
        Event::Begin { hart, op } => Event::Begin { hart, op },
        Event::End { hart, op } => Event::End { hart, op },
    }
}

/// Adds the line of an event to a text.
#[tactic(auto, using(crate::proofs::Printing::line_is_printed))]
fn push_line(
    alloc: Global,
    text: &mut Vec<u8>,
    number: u64,
    place: &[u8],
    event: Event,
) -> Result<(), AllocError>
    ensures { OnOk result ((rest : List ℕ) → text.new.items ++ rest ≡ text.old.items ++ placed_line number place.now event rest) }
{
    let front = format!(in alloc; "{number} h{} ", hart_of(event))?;
    let act = format!(in alloc; "{}", ActText { event })?;
    text.extend_from_slice(front.as_bytes())?;
    text.extend_from_slice(place)?;
    text.extend_from_slice(act.as_bytes())?;
    Ok(())
}

/// Adds the lines of events to a text, each with the name of its line.
#[tactic(auto, using(crate::proofs::Writing::nothing_pushed, crate::proofs::Writing::all_pushed))]
pub(crate) fn push_lines(
    alloc: Global,
    text: &mut Vec<u8>,
    names: &[u32],
    events: &[Event],
    places: &[&[u8]],
) -> Result<(), AllocError>
    requires lines { All (NamesLine (length names.now)) events.now }
    requires places { length places.now ≡ length events.now }
    ensures { OnOk result ((rest : List ℕ) → text.new.items ++ rest
        ≡ text.old.items ++ file_lines 1 names.now events.now (texts_of places.now) rest) }
{
    for (index, event) in events.iter().enumerate() {
        let event = with_name(names, *event);
        push_line(alloc, text, index as u64 + 1, places[index], event)?;
    }
    Ok(())
}

/// Adds the last line to a text, with the number of events.
#[tactic(auto, using(crate::proofs::Printing::last_is_printed))]
pub(crate) fn push_end(alloc: Global, text: &mut Vec<u8>, total: usize) -> Result<(), AllocError>
    ensures { OnOk result (text.new.items ≡ text.old.items ++ last_line total []) }
{
    let line = format!(in alloc; "events {total}\n")?;
    text.extend_from_slice(line.as_bytes())?;
    Ok(())
}
