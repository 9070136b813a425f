//! A seat without the text that it borrows.

ghost use Rattle.std.specs.Prelude.{◌≡◌, ◌≤◌, []};

use crate::exchange::Exchange;
use crate::seat::Seat;
use hart::HartState;
use machine::TextCopy;
use std::marker::Model;

/// A seat without its text. It names no lifetime, so that a thread's promise can speak of it.
#[derive(Drop)]
pub(crate) struct LooseSeat {
    hart: u32,
    budget: u32,
    made: u32,
    state: HartState,
    copy: TextCopy,
    exchanges: Vec<Exchange>,
    since: u32,
    renewed: bool,
}

impl Model for LooseSeat {
    ghost use Rattle.bus.specs.Leading.{IsLed};
    ghost use Rattle.bus.specs.Seats.{AreCounted, SeatView};
    ghost use Rattle.std.specs.Prelude.{◌≡◌, [], false, reverse};

    ghost Value = { SeatView };

    ghost view = { λ s. record {
      hart = s.hart;
      text = [];
      budget = s.budget;
      made = s.made;
      state = s.state;
      copy = s.copy;
      exchanges = reverse s.exchanges.items;
      since = s.since;
    } };

    ghost invariant = { λ s. AreCounted s.made s.budget s.since (reverse s.exchanges.items)
        × (s.renewed ≡ false → IsLed s.hart s.copy (reverse s.exchanges.items) s.since s.state) };
}

impl LooseSeat {
    /// The number of its hart.
    pub(crate) fn hart(&self) -> u32
        ensures { result ≡ self.now.hart }
    {
        self.hart
    }

    /// A seat without its text.
    pub(crate) fn of(seat: Seat<'_>) -> LooseSeat
        ensures rest { result ≡ record seat.entry { text = [] } }
        ensures within { result.made ≤ result.budget }
    {
        let Seat {
            hart,
            text: _,
            budget,
            made,
            state,
            copy,
            exchanges,
            since,
            renewed,
        } = seat;
        LooseSeat {
            hart,
            budget,
            made,
            state,
            copy,
            exchanges,
            since,
            renewed,
        }
    }

    /// The seat with this text.
    pub(crate) fn with_text(self, text: &[u8]) -> Seat<'_>
        ensures { result ≡ record self { text = text.now } }
    {
        let LooseSeat {
            hart,
            budget,
            made,
            state,
            copy,
            exchanges,
            since,
            renewed,
        } = self;
        Seat {
            hart,
            text,
            budget,
            made,
            state,
            copy,
            exchanges,
            since,
            renewed,
        }
    }
}
