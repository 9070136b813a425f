//! What would have made a lost store durable in time, as it is printed.

ghost use Rattle.report.specs.LossesEvents.{event_text};
ghost use Rattle.report.specs.LossesJson.{event_object};
ghost use Rattle.report.specs.Mends.{deadline_text, mend_text};
ghost use Rattle.report.specs.MendsJson.{deadline_members, mend_members};
ghost use Rattle.report.specs.Named.{named_deadline_members, named_deadline_text, named_mend_members, named_mend_text};
ghost use Rattle.report.specs.Places.{origin_in};
ghost use Rattle.std.specs.Prelude.{◌≡◌};

use crate::Places;
use crate::losses::event::{NamedEvent, named_event};
use crate::losses::objects::EventObject;
use durability::{Deadline, Mend};
use machine::TracedEvent;
use std::fmt;

/// The event before which a lost store had to be durable, and what that is: `7 h0 pc=0x10030 line=47 (end 1)`.
#[derive(Clone, Copy)]
pub(crate) enum NamedDeadline<'a> {
    Kept {
        event: NamedEvent<'a>,
    },
    End {
        event: NamedEvent<'a>,
        operation: u64,
    },
    Begin {
        event: NamedEvent<'a>,
        operation: u64,
    },
}

impl fmt::Display for NamedDeadline<'_> {
    ghost use Rattle.report.specs.Named.{named_deadline_text};
    ghost use Rattle.std.specs.Prelude.{Some};

    ghost output = { λ deadline. Some (named_deadline_text deadline) };

    fn fmt<W: fmt::Write>(&self, f: &mut fmt::Formatter<W>) -> fmt::Result {
        match *self {
            NamedDeadline::Kept { event } => write!(f, "{event} (kept)"),
            NamedDeadline::End { event, operation } => write!(f, "{event} (end {operation})"),
            NamedDeadline::Begin { event, operation } => write!(f, "{event} (begin {operation})"),
        }
    }
}

/// What would have made a lost store durable in time, with the places of its events.
#[derive(Clone, Copy)]
pub(crate) enum NamedMend<'a> {
    Fence {
        behind: NamedEvent<'a>,
        deadline: NamedDeadline<'a>,
    },
    CleanAndFence {
        line: u32,
        behind: NamedEvent<'a>,
        deadline: NamedDeadline<'a>,
    },
    Later {
        store: NamedEvent<'a>,
    },
    Earlier {
        store: NamedEvent<'a>,
    },
}

impl fmt::Display for NamedMend<'_> {
    ghost use Rattle.report.specs.Named.{named_mend_text};
    ghost use Rattle.std.specs.Prelude.{Some};

    ghost output = { λ mend. Some (named_mend_text mend) };

    fn fmt<W: fmt::Write>(&self, f: &mut fmt::Formatter<W>) -> fmt::Result {
        match *self {
            NamedMend::Fence { behind, deadline } => {
                write!(f, "a fence behind {behind} and before {deadline}")
            }
            NamedMend::CleanAndFence {
                line,
                behind,
                deadline,
            } => write!(
                f,
                "a clean of l{line} behind {behind} and a fence behind it, before {deadline}"
            ),
            NamedMend::Later { store } => {
                write!(f, "store {store} comes too early or to a wrong place")
            }
            NamedMend::Earlier { store } => {
                write!(f, "store {store} comes too late or to a wrong place")
            }
        }
    }
}

/// A deadline as members of an object: `"before":E,"deadline":"end","operation":"1"`, E being the object of an event.
#[derive(Clone, Copy)]
struct DeadlineMembers<'a> {
    deadline: NamedDeadline<'a>,
}

impl fmt::Display for DeadlineMembers<'_> {
    ghost use Rattle.report.specs.Named.{named_deadline_members};
    ghost use Rattle.std.specs.Prelude.{Some};

    ghost output = { λ members. Some (named_deadline_members members.deadline) };

    fn fmt<W: fmt::Write>(&self, f: &mut fmt::Formatter<W>) -> fmt::Result {
        match self.deadline {
            NamedDeadline::Kept { event } => write!(
                f,
                "\"before\":{},\"deadline\":\"kept\",\"operation\":null",
                EventObject { event }
            ),
            NamedDeadline::End { event, operation } => write!(
                f,
                "\"before\":{},\"deadline\":\"end\",\"operation\":\"{operation}\"",
                EventObject { event }
            ),
            NamedDeadline::Begin { event, operation } => write!(
                f,
                "\"before\":{},\"deadline\":\"begin\",\"operation\":\"{operation}\"",
                EventObject { event }
            ),
        }
    }
}

/// A mend as members of an object: `"mend":"fence","cache_line":null,"behind":E`, its deadline, and the store that is to be moved.
#[derive(Clone, Copy)]
pub(crate) struct MendMembers<'a> {
    pub(crate) mend: NamedMend<'a>,
}

impl fmt::Display for MendMembers<'_> {
    ghost use Rattle.report.specs.Named.{named_mend_members};
    ghost use Rattle.std.specs.Prelude.{Some};

    ghost output = { λ members. Some (named_mend_members members.mend) };

    fn fmt<W: fmt::Write>(&self, f: &mut fmt::Formatter<W>) -> fmt::Result {
        match self.mend {
            NamedMend::Fence { behind, deadline } => write!(
                f,
                "\"mend\":\"fence\",\"cache_line\":null,\"behind\":{},{},\"store\":null",
                EventObject { event: behind },
                DeadlineMembers { deadline }
            ),
            NamedMend::CleanAndFence {
                line,
                behind,
                deadline,
            } => write!(
                f,
                "\"mend\":\"clean and fence\",\"cache_line\":{line},\"behind\":{},{},\"store\":null",
                EventObject { event: behind },
                DeadlineMembers { deadline }
            ),
            NamedMend::Later { store } => write!(
                f,
                "\"mend\":\"store later\",\"cache_line\":null,\"behind\":null,\"before\":null,\"deadline\":null,\"operation\":null,\"store\":{}",
                EventObject { event: store }
            ),
            NamedMend::Earlier { store } => write!(
                f,
                "\"mend\":\"store earlier\",\"cache_line\":null,\"behind\":null,\"before\":null,\"deadline\":null,\"operation\":null,\"store\":{}",
                EventObject { event: store }
            ),
        }
    }
}

/// The deadline, with the place of its event.
fn named_deadline<'a>(
    deadline: Deadline,
    traced: &[TracedEvent],
    places: &'a Places<'_>,
) -> NamedDeadline<'a>
    ensures text { named_deadline_text result ≡ deadline_text (event_text (origin_in places.now) traced.now) deadline }
    ensures json { named_deadline_members result ≡ deadline_members (event_object (origin_in places.now) traced.now) deadline }
{
    match deadline {
        Deadline::BeforeKept { store } => NamedDeadline::Kept {
            event: named_event(store, traced, places),
        },
        Deadline::BeforeEnd { mark } => NamedDeadline::End {
            event: named_event(mark.event, traced, places),
            operation: mark.operation,
        },
        Deadline::BeforeBegin { mark } => NamedDeadline::Begin {
            event: named_event(mark.event, traced, places),
            operation: mark.operation,
        },
    }
}

/// The mend, with the places of its events.
pub(crate) fn named_mend<'a>(
    mend: Mend,
    traced: &[TracedEvent],
    places: &'a Places<'_>,
) -> NamedMend<'a>
    ensures text { named_mend_text result ≡ mend_text (event_text (origin_in places.now) traced.now) mend }
    ensures json { named_mend_members result ≡ mend_members (event_object (origin_in places.now) traced.now) mend }
{
    match mend {
        Mend::Fence { behind, deadline } => NamedMend::Fence {
            behind: named_event(behind, traced, places),
            deadline: named_deadline(deadline, traced, places),
        },
        Mend::CleanAndFence {
            line,
            behind,
            deadline,
        } => NamedMend::CleanAndFence {
            line,
            behind: named_event(behind, traced, places),
            deadline: named_deadline(deadline, traced, places),
        },
        Mend::Later { store } => NamedMend::Later {
            store: named_event(store, traced, places),
        },
        Mend::Earlier { store } => NamedMend::Earlier {
            store: named_event(store, traced, places),
        },
    }
}
