//! The stop word and its seats.

ghost use Rattle.workers.specs.StopWordRule.{Gathers, newcomer};
ghost use Rattle.workers.specs.Stops.{HasSeen, all_found, fresh};
ghost use Rattle.std.specs.List.{Contains, list_any};
ghost use Rattle.std.specs.Prelude.{◌≡◌, ◌<◌, [], ◌∷◌, ◌++◌, true, All, replicate, vec_len, IfOk};

use crate::stop_word::rule::{Look, OneSeat, Raise, StopRule, StopSize, StopView};
use atomic_table::{Seat, Table};
use std::alloc::{AllocError, Global};
use std::marker::Model;

/// The place of the one word.
const WORD: usize = 0;

/// What the word holds from the first raise on. Before it holds 0.
const RAISED: u64 = 1;

/// Tells threads that one of them asked all to end.
#[derive(Drop)]
pub struct StopWord {
    table: Table<u8, StopView, StopSize, StopRule, Global>,
    seats: u32,
}

impl Model for StopWord {
    ghost use Rattle.workers.specs.Stops.{Word};
    ghost use Rattle.std.specs.Prelude.{◌≡◌, ◌<◌};

    ghost Value = { Word };

    ghost view = { λ w. record { table = w.table.shared.table_id; seats = w.seats } };

    ghost invariant = { λ w. (w.table.shared.key.seats ≡ w.seats)
        × (w.table.shared.table_id.words ≡ 1)
        × (w.table.shared.table_id.slots ≡ 0)
        × (0 < w.seats) };
}

/// A thread's place at a stop word.
#[derive(Drop)]
pub struct StopSeat {
    seat: Seat<u8, StopView>,
}

impl Model for StopSeat {
    ghost use Rattle.workers.specs.Stops.{Sitting};
    ghost use Rattle.std.specs.Prelude.{◌≡◌, []};

    ghost Value = { Sitting };

    ghost view = { λ s. record {
      table = s.seat.table_id;
      raised = s.seat.me.0.raised;
      found = s.seat.me.0.found;
    } };

    ghost invariant = { λ s. (s.seat.me.1 ≡ []) × (s.seat.me.0.parts ≡ 1) };
}

impl StopWord {
    /// A word that isn't raised, with a seat for each of one or more threads. Err where memory was refused.
    pub fn new(alloc: Global, seats: u32) -> Result<(StopWord, Vec<StopSeat>), AllocError>
        requires { 0 < seats }
        ensures word { IfOk result (λ made. made.0.seats ≡ seats) }
        ensures seats { IfOk result (λ made. made.1.items ≡ replicate seats (fresh made.0.table)) }
    {
        let (table, first) = Table::of_words(alloc, &[0], &StopSize { seats })?;
        let word = StopWord { table, seats };
        let seats = word.cut(alloc, first)?;
        Ok((word, seats))
    }

    /// A seat for each thread. The table's first seat, which stands for all of them, becomes the last.
    fn cut(&self, alloc: Global, mut first: Seat<u8, StopView>) -> Result<Vec<StopSeat>, AllocError>
        requires table { first.table_id ≡ self.now.table }
        requires view { first.me ≡ (newcomer self.now.seats, []) }
        ensures { IfOk result (λ seats. seats.items ≡ replicate self.now.seats (fresh self.now.table)) }
    {
        let mut seats = Vec::new(alloc);
        for _ in 1..self.seats {
            let seat = self.table.shared.split_seat::<OneSeat>(&mut first);
            seats.push(StopSeat::new(seat))?;
        }
        seats.push(StopSeat::new(first))?;
        Ok(seats)
    }

    /// Raises the word, for good.
    pub fn raise(&self, seat: &mut StopSeat)
        requires { seat.old.table ≡ self.now.table }
        ensures { seat.new ≡ record seat.old { raised = true } }
    {
        self.table
            .shared
            .fetch_or::<Raise>(&mut seat.seat, WORD, RAISED);
    }

    /// Whether the word is raised. It is where this seat raised it or saw it raised before.
    pub fn look(&self, seat: &mut StopSeat) -> bool
        requires { seat.old.table ≡ self.now.table }
        ensures found { seat.new ≡ record seat.old { found = seat.old.found ++ result ∷ [] } }
        ensures stays { HasSeen seat.old → result ≡ true }
    {
        self.table.shared.load::<Look>(&mut seat.seat, WORD) == RAISED
    }

    /// Whether one of the seats raised the word, where these are all the seats that `new` made.
    pub fn close(self, seats: Vec<StopSeat>) -> bool
        requires all { vec_len seats ≡ self.seats }
        requires word { All (λ s. s.table ≡ self.table) seats.items }
        ensures raised { result ≡ list_any (λ s. s.raised) seats.items }
        ensures seen { Contains (all_found seats.items) true → result ≡ true }
    {
        let all = self.gather(seats);
        self.settle(all)
    }

    /// The seat that stands for all of these.
    fn gather(&self, mut seats: Vec<StopSeat>) -> Seat<u8, StopView>
        requires some { 0 < vec_len seats }
        requires word { All (λ s. s.table ≡ self.now.table) seats.items }
        ensures table { (result.table_id ≡ self.now.table) × (result.me.1 ≡ []) }
        ensures view { Gathers seats.items result.me.0 }
    {
        let first = seats.remove(0);
        self.join(first, seats)
    }

    /// The seat that stands for the first and the others.
    fn join(&self, first: StopSeat, others: Vec<StopSeat>) -> Seat<u8, StopView>
        requires first { first.table ≡ self.now.table }
        requires others { All (λ s. s.table ≡ self.now.table) others.items }
        ensures table { (result.table_id ≡ self.now.table) × (result.me.1 ≡ []) }
        ensures view { Gathers (first ∷ others.items) result.me.0 }
    {
        let StopSeat { seat: mut all } = first;
        for seat in others {
            let StopSeat { seat: theirs } = seat;
            self.table.shared.join_seat::<OneSeat>(&mut all, theirs);
        }
        all
    }

    /// Whether the word is raised at the end, as the seat that stands for all knows it.
    fn settle(self, all: Seat<u8, StopView>) -> bool
        requires table { all.table_id ≡ self.table }
        requires parts { all.me.0.parts ≡ self.seats }
        ensures raised { result ≡ all.me.0.raised }
        ensures seen { Contains all.me.0.found true → result ≡ true }
    {
        let closed = self.table.close_with(all);
        let word = closed.word(WORD);
        closed.free();
        word == RAISED
    }
}

impl StopSeat {
    /// A thread's place that has done nothing.
    fn new(seat: Seat<u8, StopView>) -> StopSeat
        requires { seat.me ≡ (newcomer 1, []) }
        ensures { result ≡ fresh seat.table_id }
    {
        StopSeat { seat }
    }
}
