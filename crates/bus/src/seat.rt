//! A seat: one hart with its copy of the text, and the list of what it asked.

ghost use Rattle.std.specs.Prelude.{◌≡◌, ◌≤◌, IfNone, IfSome, false, length, reverse, true};
ghost use Rattle.line_memory.specs.declared.TheConstants.{TEXT_SIZE};
ghost use Rattle.bus.specs.Agreeing.{Agrees};
ghost use Rattle.bus.specs.Leading.{IsLed};
ghost use Rattle.bus.specs.Replays.{CoreView};
ghost use Rattle.bus.specs.Seating.{AsksNext, IsLocalStep};
ghost use Rattle.bus.specs.Seats.{AreCounted};
ghost use Rattle.bus.specs.Together.{IsLeft};

use crate::exchange::Exchange;
use crate::hart_step::go_alone;
use crate::outcome::{Outcome, outcome_of};
use hart::{HartState, Status};
use machine::TextCopy;
use std::marker::Model;

/// One hart, the text that it fetches, and its requests with their replies. It makes as many steps as its budget says.
#[derive(Drop)]
pub struct Seat<'p> {
    pub(crate) hart: u32,
    /// The program's text as it was loaded.
    pub(crate) text: &'p [u8],
    pub(crate) budget: u32,
    /// How many steps of the budget it has made.
    pub(crate) made: u32,
    pub(crate) state: HartState,
    pub(crate) copy: TextCopy,
    /// The oldest first.
    pub(crate) exchanges: Vec<Exchange>,
    /// How many register steps it has made since the last of its exchanges.
    pub(crate) since: u32,
    /// Whether a FENCE.I has renewed the copy.
    pub(crate) renewed: bool,
}

impl<'p> Model for Seat<'p> {
    ghost use Rattle.bus.specs.Leading.{IsLed};
    ghost use Rattle.bus.specs.Seats.{AreCounted, SeatView};
    ghost use Rattle.std.specs.Prelude.{◌≡◌, false, reverse};

    ghost Value = { SeatView };

    ghost view = { λ s. record {
      hart = s.hart;
      text = s.text.now;
      budget = s.budget;
      made = s.made;
      state = s.state;
      copy = s.copy;
      exchanges = reverse s.exchanges.items;
      since = s.since;
    } };

    ghost invariant = { λ s. AreCounted s.made s.budget s.since (reverse s.exchanges.items)
        × (s.renewed ≡ false → IsLed s.hart s.copy (reverse s.exchanges.items) s.since s.state) };
}

impl<'p> Seat<'p> {
    /// The number of its hart.
    pub fn hart(&self) -> u32
        ensures { result ≡ self.now.hart }
    {
        self.hart
    }

    /// The program's text, as it was loaded.
    pub fn text(&self) -> &'p [u8]
        ensures { result.now ≡ self.now.text }
    {
        self.text
    }

    /// How many steps it may make.
    pub fn budget(&self) -> u32
        ensures { result ≡ self.now.budget }
    {
        self.budget
    }

    /// How many of them it has made.
    #[tactic(auto, using(crate::proofs::Counting::made_within))]
    pub fn made(&self) -> u32
        ensures value { result ≡ self.now.made }
        ensures limit { result ≤ self.now.budget }
        ensures count { AreCounted self.now.made self.now.budget self.now.since self.now.exchanges }
    {
        self.made
    }

    /// Whether its hart runs and has steps left.
    pub(crate) fn is_left(&self) -> bool
        ensures { result ≡ true → IsLeft self.now }
    {
        match self.state.status {
            Status::Running => self.made < self.budget,
            Status::Exited(_) | Status::Trapped(_) => false,
        }
    }

    /// The state of its hart.
    pub fn state(&self) -> &HartState
        ensures { result.now ≡ self.now.state }
    {
        &self.state
    }

    /// The bytes of the text region as its hart fetches them.
    pub fn copy(&self) -> &[u8]
        ensures value { result.now ≡ self.now.copy }
        ensures whole { length self.now.copy ≡ TEXT_SIZE }
    {
        self.copy.bytes()
    }

    /// Its requests with their replies, the oldest first.
    pub fn exchanges(&self) -> &[Exchange]
        ensures { reverse result.now ≡ self.now.exchanges }
    {
        &self.exchanges
    }

    /// How many register steps it has made since the last of its exchanges.
    #[tactic(auto, using(crate::proofs::Counting::since_within))]
    pub fn since(&self) -> u32
        ensures value { result ≡ self.now.since }
        ensures limit { result ≤ self.now.made }
    {
        self.since
    }

    /// Whether a FENCE.I has renewed its hart's copy of the text. Where none has, its exchanges and the steps since lead its hart
    /// by that text from the start to where it is.
    pub(crate) fn is_renewed(&self) -> bool
        ensures { result ≡ false → IsLed self.now.hart self.now.copy self.now.exchanges self.now.since self.now.state }
    {
        self.renewed
    }

    /// Makes the next step where it needs no request, without lock or memory. None says that the next step is a request, and
    /// then nothing has changed.
    #[tactic(auto, using(crate::proofs::Agreeing::local_agrees, crate::proofs::Counting::since_fits, crate::proofs::Counting::counted_step, crate::proofs::Leading::led_step_if))]
    #[inline(always)]
    pub fn step_local(&mut self) -> Option<Outcome>
        ensures none { IfNone result ((self.new ≡ self.old) × AsksNext self.old) }
        ensures some { IfSome result (IsLocalStep self.old self.new) }
        ensures agrees { (core : CoreView) → Agrees core self.old → Agrees core self.new }
    {
        match self.state.status {
            Status::Running => {}
            Status::Exited(_) | Status::Trapped(_) => return Some(Outcome::Stopped),
        }
        if self.made >= self.budget {
            return Some(Outcome::Spent);
        }
        if !go_alone(&mut self.state, &self.copy) {
            return None;
        }
        self.made += 1;
        self.since += 1;
        Some(outcome_of(self.state.status))
    }
}
