//! Why a store can be lost, as it is printed.

ghost use Rattle.report.specs.LossesCauses.{cause_text};
ghost use Rattle.report.specs.LossesEvents.{event_text};
ghost use Rattle.report.specs.LossesJson.{cause_members, event_object};
ghost use Rattle.report.specs.Named.{named_cause_members, named_cause_text};
ghost use Rattle.report.specs.Places.{origin_in};
ghost use Rattle.std.specs.Prelude.{◌≡◌};

use crate::Places;
use crate::losses::event::{NamedEvent, named_event};
use durability::Cause;
use machine::TracedEvent;
use std::fmt;

/// Why a store can be lost, by the events that are too late or that nothing follows.
#[derive(Clone, Copy)]
pub(crate) enum NamedCause<'a> {
    NeverCleaned,
    CleanedTooLate {
        clean: NamedEvent<'a>,
    },
    NeverFenced {
        clean: NamedEvent<'a>,
    },
    FencedTooLate {
        clean: NamedEvent<'a>,
        fence: NamedEvent<'a>,
    },
    FencedByAnother {
        clean: NamedEvent<'a>,
        hart: u32,
        completed: NamedEvent<'a>,
        fence: NamedEvent<'a>,
    },
}

impl fmt::Display for NamedCause<'_> {
    ghost use Rattle.report.specs.Named.{named_cause_text};
    ghost use Rattle.std.specs.Prelude.{Some};

    ghost output = { λ cause. Some (named_cause_text cause) };

    fn fmt<W: fmt::Write>(&self, f: &mut fmt::Formatter<W>) -> fmt::Result {
        match *self {
            NamedCause::NeverCleaned => write!(f, "never cleaned"),
            NamedCause::CleanedTooLate { clean } => write!(f, "cleaned {clean}, too late"),
            NamedCause::NeverFenced { clean } => write!(f, "cleaned {clean}, never fenced"),
            NamedCause::FencedTooLate { clean, fence } => {
                write!(f, "cleaned {clean}, fenced {fence}, too late")
            }
            NamedCause::FencedByAnother {
                clean,
                hart,
                completed,
                fence,
            } => write!(
                f,
                "cleaned {clean}, not fenced by h{hart}; cleaned {completed}, fenced {fence}, too late"
            ),
        }
    }
}

/// The cause, with the places of its events.
pub(crate) fn named_cause<'a>(
    cause: Cause,
    traced: &[TracedEvent],
    places: &'a Places<'_>,
) -> NamedCause<'a>
    ensures text { named_cause_text result ≡ cause_text (event_text (origin_in places.now) traced.now) cause }
    ensures json { named_cause_members result ≡ cause_members (event_object (origin_in places.now) traced.now) cause }
{
    match cause {
        Cause::NeverCleaned => NamedCause::NeverCleaned,
        Cause::CleanedTooLate { clean } => NamedCause::CleanedTooLate {
            clean: named_event(clean, traced, places),
        },
        Cause::NeverFenced { clean } => NamedCause::NeverFenced {
            clean: named_event(clean, traced, places),
        },
        Cause::FencedTooLate { clean, fence } => NamedCause::FencedTooLate {
            clean: named_event(clean, traced, places),
            fence: named_event(fence, traced, places),
        },
        Cause::FencedByAnother {
            clean,
            hart,
            completed,
            fence,
        } => NamedCause::FencedByAnother {
            clean: named_event(clean, traced, places),
            hart,
            completed: named_event(completed, traced, places),
            fence: named_event(fence, traced, places),
        },
    }
}
