//! What is printed of a run's events as JSON (RFC 8259): an object a line.

ghost use Rattle.report.specs.Json.{trace_json};
ghost use Rattle.report.specs.Places.{origin_in};
ghost use Rattle.std.specs.Prelude.{◌≡◌, IfOk, string_bytes};

use crate::events::{EventKind, PlacedEvent, hart_of, stored};
use crate::origin::{Origin, OriginMembers};
use crate::place::{CodePlace, Places};
use machine::TracedEvent;
use std::alloc::{AllocError, Global};
use std::fmt;
use std::fmt::Write;
use store_trace::Event;

/// An object for each event, with the number of the moment after it, and then one with the number of events, each on a line of its own,
/// as JSON of RFC 8259:
///
/// ```text
/// {"kind":"store","event":2,"hart":0,"step":9,"pc":"0x10020","source_line":9,"cache_line":256,"offset":0,"width":8,"value":"0x1"}
/// {"kind":"fence","event":3,"hart":0,"step":10,"pc":"0x10024","source_line":null}
/// {"kind":"events","events":2}
/// ```
///
/// What may have 64 bits is a string, since a reader of JSON may keep 53 bits of a number: a pc and a stored value in hex, an operation's
/// number in decimal. A line of the source that isn't known is `null`. Of an executable `source_file`, `function` and `function_offset`, how many
/// bytes behind the function's first one the pc is, follow the line.
pub fn trace_json(
    alloc: Global,
    traced: &[TracedEvent],
    places: &Places<'_>,
) -> Result<String, AllocError>
    ensures { IfOk result (λ text. string_bytes text ≡ trace_json (origin_in places.now) traced.now) }
{
    let mut text = String::new(alloc);
    for (index, told) in traced.iter().enumerate() {
        let members = EventMembers {
            number: index as u64 + 1,
            placed: places.placed(told),
        };
        writeln!(text, "{{{members}}}")?;
    }
    let events = traced.len();
    writeln!(text, "{{\"kind\":\"events\",\"events\":{events}}}")?;
    Ok(text)
}

/// The members of an event's object: `"kind":"clean","event":3,"hart":0,"step":10,"pc":"0x10024","source_line":10,"cache_line":256`.
#[derive(Clone, Copy)]
pub(crate) struct EventMembers<'a> {
    pub(crate) number: u64,
    pub(crate) placed: PlacedEvent<'a>,
}

impl fmt::Display for EventMembers<'_> {
    ghost use Rattle.std.specs.Prelude.{Some};
    ghost use Rattle.report.specs.Events.{known_event};
    ghost use Rattle.report.specs.Json.{event_members};

    ghost output = { λ members. Some (event_members members.number (known_event members.placed)) };

    fn fmt<W: fmt::Write>(&self, f: &mut fmt::Formatter<W>) -> fmt::Result {
        let EventMembers { number, placed } = *self;
        let PlacedEvent { step, at, event } = placed;
        let hart = hart_of(event);
        let origin = at.origin;
        let step = StepMember { step, origin };
        let place = PcMembers { at };
        let kind = EventKind { event };
        let act = ActMembers { event };
        write!(
            f,
            "\"kind\":\"{kind}\",\"event\":{number},\"hart\":{hart},{step}{place}{act}"
        )
    }
}

/// The hart step that made an event as a member in front of others: `"step":10,`. Of a trace file nothing: its place words say it.
#[derive(Clone, Copy)]
struct StepMember<'a> {
    step: u32,
    origin: Origin<'a>,
}

impl fmt::Display for StepMember<'_> {
    ghost use Rattle.std.specs.Prelude.{Some};
    ghost use Rattle.report.specs.Json.{step_member};
    ghost use Rattle.report.specs.Places.{known_origin};

    ghost output = { λ shown. Some (step_member shown.step (known_origin shown.origin)) };

    fn fmt<W: fmt::Write>(&self, f: &mut fmt::Formatter<W>) -> fmt::Result {
        match self.origin {
            Origin::Words(_) => Ok(()),
            Origin::Unknown | Origin::Line(_) | Origin::Executable(_) => {
                write!(f, "\"step\":{},", self.step)
            }
        }
    }
}

/// What an event did, as members that follow others: `,"cache_line":256`.
#[derive(Clone, Copy)]
struct ActMembers {
    event: Event,
}

impl fmt::Display for ActMembers {
    ghost use Rattle.std.specs.Prelude.{Some};
    ghost use Rattle.report.specs.Json.{act_members};

    ghost output = { λ act. Some (act_members act.event) };

    fn fmt<W: fmt::Write>(&self, f: &mut fmt::Formatter<W>) -> fmt::Result {
        match self.event {
            Event::Store {
                line,
                offset,
                width,
                value,
                ..
            } => {
                let value = stored(value, u32::from(width));
                write!(
                    f,
                    ",\"cache_line\":{line},\"offset\":{offset},\"width\":{width},\"value\":\"0x{value:x}\""
                )
            }
            Event::Clean { line, .. } => write!(f, ",\"cache_line\":{line}"),
            Event::Fence { .. } => Ok(()),
            Event::Begin { op, .. } | Event::End { op, .. } => {
                write!(f, ",\"operation\":\"{op}\"")
            }
        }
    }
}

/// A pc and what is known of it as members of an object: `"pc":"0x10020","source_line":9`; of a trace file `"at":"WORDS"`.
#[derive(Clone, Copy)]
pub(crate) struct PcMembers<'a> {
    pub(crate) at: CodePlace<'a>,
}

impl fmt::Display for PcMembers<'_> {
    ghost use Rattle.std.specs.Prelude.{Some};
    ghost use Rattle.report.specs.Json.{pc_members};
    ghost use Rattle.report.specs.Places.{known_code};

    ghost output = { λ members. Some (pc_members (known_code members.at)) };

    fn fmt<W: fmt::Write>(&self, f: &mut fmt::Formatter<W>) -> fmt::Result {
        let CodePlace { pc, origin } = self.at;
        let members = OriginMembers { origin };
        match origin {
            Origin::Words(_) => write!(f, "{members}"),
            Origin::Unknown | Origin::Line(_) | Origin::Executable(_) => {
                write!(f, "\"pc\":\"0x{pc:x}\",{members}")
            }
        }
    }
}

/// A number, and `null` where there is none.
#[derive(Clone, Copy)]
pub(crate) struct NumberOrNull {
    pub(crate) number: Option<u32>,
}

impl fmt::Display for NumberOrNull {
    ghost use Rattle.std.specs.Prelude.{Some};
    ghost use Rattle.report.specs.Json.{number_or_null};

    ghost output = { λ shown. Some (number_or_null shown.number) };

    fn fmt<W: fmt::Write>(&self, f: &mut fmt::Formatter<W>) -> fmt::Result {
        match self.number {
            Some(number) => write!(f, "{number}"),
            None => write!(f, "null"),
        }
    }
}
