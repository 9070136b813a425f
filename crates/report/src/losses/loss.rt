//! A store that can be lost, as it is printed.

ghost use Rattle.report.specs.LossesCauses.{loss_text};
ghost use Rattle.report.specs.LossesEvents.{event_text};
ghost use Rattle.report.specs.LossesJson.{event_object, loss_members};
ghost use Rattle.report.specs.Named.{named_loss_members, named_loss_text};
ghost use Rattle.report.specs.Places.{origin_in};
ghost use Rattle.std.specs.Prelude.{◌≡◌};

use crate::Places;
use crate::losses::cause::{NamedCause, named_cause};
use crate::losses::event::{NamedEvent, named_event};
use durability::Lost;
use machine::TracedEvent;
use std::fmt;

/// A store of a line that can be lost, and why: `lost lL store N hH pc=0xP line=L: CAUSE`.
#[derive(Clone, Copy)]
pub(crate) struct NamedLoss<'a> {
    pub(crate) line: u32,
    pub(crate) store: NamedEvent<'a>,
    pub(crate) cause: NamedCause<'a>,
}

impl fmt::Display for NamedLoss<'_> {
    ghost use Rattle.report.specs.Named.{named_loss_text};
    ghost use Rattle.std.specs.Prelude.{Some};

    ghost output = { λ loss. Some (named_loss_text loss) };

    fn fmt<W: fmt::Write>(&self, f: &mut fmt::Formatter<W>) -> fmt::Result {
        let NamedLoss { line, store, cause } = *self;
        write!(f, "lost l{line} store {store}: {cause}")
    }
}

/// The loss, with the places of its events.
pub(crate) fn named_loss<'a>(
    lost: Lost,
    traced: &[TracedEvent],
    places: &'a Places<'_>,
) -> NamedLoss<'a>
    ensures text { named_loss_text result ≡ loss_text (event_text (origin_in places.now) traced.now) lost }
    ensures json { named_loss_members result ≡ loss_members (event_object (origin_in places.now) traced.now) lost }
{
    NamedLoss {
        line: lost.line,
        store: named_event(lost.store, traced, places),
        cause: named_cause(lost.cause, traced, places),
    }
}
