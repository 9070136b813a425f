//! What is printed of a run's events.

ghost use Rattle.report.specs.Events.{hart_of, trace_text};
ghost use Rattle.report.specs.Places.{origin_in};
ghost use Rattle.std.specs.Prelude.{◌≡◌, ◌%◌, ◌^◌, ◌*◌, IfOk, string_bytes};

use crate::origin::Origin;
use crate::place::{CodePlace, Places};
use machine::TracedEvent;
use std::alloc::{AllocError, Global};
use std::fmt;
use std::fmt::Write;
use store_trace::Event;
use word_bits::low_bits;

/// A line for each event, with the number of the moment after it, and then `events N`, N being the number of events:
///
/// `2 h0 step=9 pc=0x10020 line=9 store l256+0 w8 0x1`
///
/// A line of the medium is `lN`, `+O` the offset in it, `wW` the width in bytes, and the value that was stored is that of
/// these bytes. In the place of ` line=N` stands ` at=FILE:LINE in=NAME+0xOFF` of an executable, and nothing where nothing is known of
/// the pc.
#[tactic(auto, using(crate::proofs::Lines::lines_all))]
pub fn trace_text(
    alloc: Global,
    traced: &[TracedEvent],
    places: &Places<'_>,
) -> Result<String, AllocError>
    ensures { IfOk result (λ text. string_bytes text ≡ trace_text (origin_in places.now) traced.now) }
{
    let mut text = String::new(alloc);
    for (index, told) in traced.iter().enumerate() {
        let number = index as u64 + 1;
        let placed = places.placed(told);
        writeln!(text, "{number} {placed}")?;
    }
    writeln!(text, "events {}", traced.len())?;
    Ok(text)
}

/// An event of a run, and where its instruction stands, as they are printed: `h0 step=9 pc=0x10020 line=9 store l256+0 w8 0x1`.
/// Of a trace file place words stand in place of the step and the pc.
#[derive(Clone, Copy)]
pub struct PlacedEvent<'a> {
    /// How many hart steps there are up to and with the one that made it.
    pub step: u32,
    pub at: CodePlace<'a>,
    pub event: Event,
}

impl fmt::Display for PlacedEvent<'_> {
    ghost use Rattle.std.specs.Prelude.{Some};
    ghost use Rattle.report.specs.Events.{known_event, placed_text};

    ghost output = { λ placed. Some (placed_text (known_event placed)) };

    fn fmt<W: fmt::Write>(&self, f: &mut fmt::Formatter<W>) -> fmt::Result {
        let PlacedEvent { step, at, event } = *self;
        let hart = hart_of(event);
        let origin = at.origin;
        let step = StepText { step, origin };
        let kind = EventKind { event };
        let act = ActText { event };
        write!(f, "h{hart}{step}{at} {kind}{act}")
    }
}

/// The hart step that made an event, behind a blank: ` step=9`. Of a trace file nothing: its place words say it.
#[derive(Clone, Copy)]
struct StepText<'a> {
    step: u32,
    origin: Origin<'a>,
}

impl fmt::Display for StepText<'_> {
    ghost use Rattle.std.specs.Prelude.{Some};
    ghost use Rattle.report.specs.Events.{step_text};
    ghost use Rattle.report.specs.Places.{known_origin};

    ghost output = { λ shown. Some (step_text shown.step (known_origin shown.origin)) };

    fn fmt<W: fmt::Write>(&self, f: &mut fmt::Formatter<W>) -> fmt::Result {
        match self.origin {
            Origin::Words(_) => Ok(()),
            Origin::Unknown | Origin::Line(_) | Origin::Executable(_) => {
                write!(f, " step={}", self.step)
            }
        }
    }
}

/// The hart that made an event.
pub fn hart_of(event: Event) -> u32
    ensures { result ≡ hart_of event }
{
    match event {
        Event::Store { hart, .. }
        | Event::Clean { hart, .. }
        | Event::Fence { hart }
        | Event::Begin { hart, .. }
        | Event::End { hart, .. } => hart,
    }
}

/// The kind of an event in a word.
#[derive(Clone, Copy)]
pub(crate) struct EventKind {
    pub(crate) event: Event,
}

impl fmt::Display for EventKind {
    ghost use Rattle.std.specs.Prelude.{Some};
    ghost use Rattle.report.specs.Events.{kind_of};

    ghost output = { λ kind. Some (kind_of kind.event) };

    fn fmt<W: fmt::Write>(&self, f: &mut fmt::Formatter<W>) -> fmt::Result {
        match self.event {
            Event::Store { .. } => write!(f, "store"),
            Event::Clean { .. } => write!(f, "clean"),
            Event::Fence { .. } => write!(f, "fence"),
            Event::Begin { .. } => write!(f, "begin"),
            Event::End { .. } => write!(f, "end"),
        }
    }
}

/// What an event did, as it is printed behind its kind.
#[derive(Clone, Copy)]
pub(crate) struct ActText {
    pub(crate) event: Event,
}

impl fmt::Display for ActText {
    ghost use Rattle.std.specs.Prelude.{Some};
    ghost use Rattle.report.specs.Events.{act_text};

    ghost output = { λ act. Some (act_text act.event) };

    fn fmt<W: fmt::Write>(&self, f: &mut fmt::Formatter<W>) -> fmt::Result {
        match self.event {
            Event::Store {
                line,
                offset,
                width,
                value,
                ..
            } => {
                let value = stored(value, u32::from(width));
                write!(f, " l{line}+{offset} w{width} 0x{value:x}")
            }
            Event::Clean { line, .. } => write!(f, " l{line}"),
            Event::Fence { .. } => Ok(()),
            Event::Begin { op, .. } | Event::End { op, .. } => write!(f, " {op}"),
        }
    }
}

/// The number of the low `width` bytes of a value.
#[tactic(auto, using(crate::proofs::Stored::whole_value))]
pub(crate) fn stored(value: u64, width: u32) -> u64
    ensures { result ≡ value % 2 ^ (8 * width) }
{
    if width < 8 {
        low_bits(value, 8 * width)
    } else {
        value
    }
}
