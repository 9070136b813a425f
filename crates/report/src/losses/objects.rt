//! Events and losses as objects of JSON (RFC 8259).

use crate::json::PcMembers;
use crate::losses::cause::NamedCause;
use crate::losses::event::NamedEvent;
use crate::losses::loss::NamedLoss;
use crate::place::Place;
use std::fmt;

/// An event of a run: `{"event":2,"hart":0,"pc":"0x10018","source_line":7}`.
#[derive(Clone, Copy)]
pub(crate) struct EventObject<'a> {
    pub(crate) event: NamedEvent<'a>,
}

impl fmt::Display for EventObject<'_> {
    ghost use Rattle.report.specs.Named.{named_event_object};
    ghost use Rattle.std.specs.Prelude.{Some};

    ghost output = { λ object. Some (named_event_object object.event) };

    fn fmt<W: fmt::Write>(&self, f: &mut fmt::Formatter<W>) -> fmt::Result {
        let NamedEvent { number, place } = self.event;
        match place {
            Some(Place { hart, at }) => {
                let at = PcMembers { at };
                write!(f, "{{\"event\":{number},\"hart\":{hart},{at}}}")
            }
            None => write!(
                f,
                "{{\"event\":{number},\"hart\":null,\"pc\":null,\"source_line\":null}}"
            ),
        }
    }
}

/// A cause as members of an object: `"cause":"never fenced","clean":E,"completed":null,"fence":null`, E being the object of an event.
#[derive(Clone, Copy)]
struct CauseMembers<'a> {
    cause: NamedCause<'a>,
}

impl fmt::Display for CauseMembers<'_> {
    ghost use Rattle.report.specs.Named.{named_cause_members};
    ghost use Rattle.std.specs.Prelude.{Some};

    ghost output = { λ members. Some (named_cause_members members.cause) };

    fn fmt<W: fmt::Write>(&self, f: &mut fmt::Formatter<W>) -> fmt::Result {
        match self.cause {
            NamedCause::NeverCleaned => write!(
                f,
                "\"cause\":\"never cleaned\",\"clean\":null,\"completed\":null,\"fence\":null"
            ),
            NamedCause::CleanedTooLate { clean } => write!(
                f,
                "\"cause\":\"cleaned too late\",\"clean\":{},\"completed\":null,\"fence\":null",
                EventObject { event: clean }
            ),
            NamedCause::NeverFenced { clean } => write!(
                f,
                "\"cause\":\"never fenced\",\"clean\":{},\"completed\":null,\"fence\":null",
                EventObject { event: clean }
            ),
            NamedCause::FencedTooLate { clean, fence } => write!(
                f,
                "\"cause\":\"fenced too late\",\"clean\":{},\"completed\":null,\"fence\":{}",
                EventObject { event: clean },
                EventObject { event: fence }
            ),
            NamedCause::FencedByAnother {
                clean,
                completed,
                fence,
                ..
            } => write!(
                f,
                "\"cause\":\"fenced too late\",\"clean\":{},\"completed\":{},\"fence\":{}",
                EventObject { event: clean },
                EventObject { event: completed },
                EventObject { event: fence }
            ),
        }
    }
}

/// A loss as members of an object: `"cache_line":256,"store":E` and its cause.
#[derive(Clone, Copy)]
pub(crate) struct LossMembers<'a> {
    pub(crate) loss: NamedLoss<'a>,
}

impl fmt::Display for LossMembers<'_> {
    ghost use Rattle.report.specs.Named.{named_loss_members};
    ghost use Rattle.std.specs.Prelude.{Some};

    ghost output = { λ members. Some (named_loss_members members.loss) };

    fn fmt<W: fmt::Write>(&self, f: &mut fmt::Formatter<W>) -> fmt::Result {
        let NamedLoss { line, store, cause } = self.loss;
        let store = EventObject { event: store };
        let cause = CauseMembers { cause };
        write!(f, "\"cache_line\":{line},\"store\":{store},{cause}")
    }
}

/// When a lost store had to be durable.
#[derive(Clone, Copy)]
pub(crate) enum Due {
    AtTheCut,
    /// When its operation ended, and the event of that end.
    AtEnd { operation: u64, end: u32 },
    /// At the end of the run, as a store outside operations.
    AtRunEnd,
}

/// The members in front of those of a loss: `"operation":"1","end":9,`; none at a cut.
impl fmt::Display for Due {
    ghost use Rattle.report.specs.Named.{due_members};
    ghost use Rattle.std.specs.Prelude.{Some};

    ghost output = { λ due. Some (due_members due) };

    fn fmt<W: fmt::Write>(&self, f: &mut fmt::Formatter<W>) -> fmt::Result {
        match *self {
            Due::AtTheCut => Ok(()),
            Due::AtEnd { operation, end } => {
                write!(f, "\"operation\":\"{operation}\",\"end\":{end},")
            }
            Due::AtRunEnd => write!(f, "\"operation\":null,\"end\":null,"),
        }
    }
}
