//! The desk and its seats.

ghost use Rattle.workers.specs.Counts.{HasEachOnce};
ghost use Rattle.workers.specs.Desks.{all_bad, all_claimed, all_found, ended_count, fresh, last_moment, word_of, IsLeastOf, moment_of};
ghost use Rattle.workers.specs.Rule.{Closes, Gathers, newcomer};
ghost use Rattle.std.specs.List.{Contains};
ghost use Rattle.std.specs.Prelude.{◌≡◌, ◌⊎◌, ℕ, ◌^◌, ◌<◌, ◌≤◌, [], ◌∷◌, ◌++◌, true, false, All, length, min, replicate, vec_len, IfNone, IfOk, IfSome, MatchBool};

use crate::rule::{Claim, DeskRule, DeskSize, DeskView, Look, OneSeat, Report};
use atomic_table::{Seat, Table};
use std::alloc::{AllocError, Global};
use std::marker::Model;

/// The place of the claim word, which counts the claims.
const CLAIMS: usize = 0;

/// The place of the least word, which holds the least moment that was reported bad.
const LEAST: usize = 1;

/// What the least word holds where no moment was reported bad.
const NOTHING: u64 = u64::MAX;

/// Gives the moments of a run to up to eight workers, each once, and keeps the least that was reported bad.
#[derive(Drop)]
pub struct CheckDesk {
    table: Table<u8, DeskView, DeskSize, DeskRule, Global>,
    moments: u32,
    workers: u32,
}

impl Model for CheckDesk {
    ghost use Rattle.workers.specs.Desks.{Desk};
    ghost use Rattle.std.specs.Prelude.{◌≡◌, ◌<◌, ◌≤◌, ◌^◌};

    ghost Value = { Desk };

    ghost view = { λ d. record { name = record { table = d.table.shared.table_id; moments = d.moments }; workers = d.workers } };

    ghost invariant = { λ d. (d.table.shared.key.moments ≡ d.moments)
        × (d.table.shared.key.workers ≡ d.workers)
        × (d.table.shared.table_id.words ≡ 2)
        × (d.table.shared.table_id.slots ≡ 0)
        × (d.moments < 2 ^ 32)
        × (0 < d.workers)
        × (d.workers ≤ 8) };
}

/// A worker's place at the desk.
#[derive(Drop)]
pub struct DeskSeat {
    seat: Seat<u8, DeskView>,
    moments: u32,
    /// The worker's number, from 0.
    worker: u32,
    /// Whether a claim has answered None.
    ended: bool,
    seen: Option<u32>,
}

impl Model for DeskSeat {
    ghost use Rattle.workers.specs.Desks.{Sitting, last_moment};
    ghost use Rattle.std.specs.Prelude.{◌≡◌, [], MatchBool};

    ghost Value = { Sitting };

    ghost view = { λ s. record {
      desk = record { table = s.seat.table_id; moments = s.moments };
      claimed = s.seat.me.0.claimed;
      ended = s.ended;
      bad = s.seat.me.0.bad;
      found = s.seat.me.0.found;
    } };

    ghost invariant = { λ s. (s.seat.me.1 ≡ [])
        × (s.seat.me.0.parts ≡ 1)
        × (s.seat.me.0.moments ≡ s.moments)
        × MatchBool s.ended (s.seat.me.0.ended ≡ 1) (s.seat.me.0.ended ≡ 0)
        × (s.seen ≡ last_moment s.seat.me.0.found) };
}

/// What all the seats of a desk did in the end.
#[derive(Clone, Copy, Debug, PartialEq, Eq)]
pub struct DeskResult {
    /// How many moments were given out: the moments below this number.
    pub given: u32,
    /// The least moment that was reported bad; None where none was.
    pub least_bad: Option<u32>,
}

impl CheckDesk {
    /// A desk of the moments below `moments`, with a seat for each of one to eight workers. Err where memory was refused.
    pub fn new(
        alloc: Global,
        moments: u32,
        workers: u32,
    ) -> Result<(CheckDesk, Vec<DeskSeat>), AllocError>
        requires { (0 < workers) × (workers ≤ 8) }
        ensures desk { IfOk result (λ made. (made.0.name.moments ≡ moments) × (made.0.workers ≡ workers)) }
        ensures seats { IfOk result (λ made. made.1.items ≡ replicate workers (fresh made.0.name)) }
    {
        let size = DeskSize { moments, workers };
        let (table, first) = Table::of_words(alloc, &[0, NOTHING], &size)?;
        let desk = CheckDesk {
            table,
            moments,
            workers,
        };
        let seats = desk.cut(alloc, first)?;
        Ok((desk, seats))
    }

    /// A seat for each worker. The table's first seat, which stands for all of them, becomes the last.
    fn cut(&self, alloc: Global, mut first: Seat<u8, DeskView>) -> Result<Vec<DeskSeat>, AllocError>
        requires table { first.table_id ≡ self.now.name.table }
        requires view { first.me ≡ (newcomer self.now.workers self.now.name.moments, []) }
        ensures { IfOk result (λ seats. seats.items ≡ replicate self.now.workers (fresh self.now.name)) }
    {
        let mut seats = Vec::new(alloc);
        for worker in 1..self.workers {
            let seat = self.table.shared.split_seat::<OneSeat>(&mut first);
            seats.push(DeskSeat::new(seat, self.moments, worker))?;
        }
        seats.push(DeskSeat::new(first, self.moments, 0))?;
        Ok(seats)
    }

    /// The next moment, counted from 0, that no seat has claimed. None where there is none left, and from then on
    /// None without a step.
    pub fn claim(&self, seat: &mut DeskSeat) -> Option<u32>
        requires { seat.old.desk ≡ self.now.name }
        ensures same { (seat.new.desk ≡ seat.old.desk) × (seat.new.bad ≡ seat.old.bad) }
        ensures some { IfSome result (λ moment. (seat.old.ended ≡ false)
            × (length seat.old.claimed ≤ moment)
            × (moment < self.now.name.moments)
            × (seat.new.claimed ≡ seat.old.claimed ++ moment ∷ [])) }
        ensures none { IfNone result (seat.new.claimed ≡ seat.old.claimed) }
        ensures going { IfSome result (λ moment. seat.new.ended ≡ false) }
        ensures ended { IfNone result (seat.new.ended ≡ true) }
        ensures found { MatchBool seat.old.ended (seat.new ≡ seat.old) ((word : ℕ) × (seat.new.found ≡ seat.old.found ++ word ∷ [])) }
    {
        if seat.ended {
            return None;
        }
        let number = self
            .table
            .shared
            .fetch_add::<Claim>(&mut seat.seat, CLAIMS, 1);
        let word = self.table.shared.load::<Look>(&mut seat.seat, LEAST);
        seat.seen = moment_in(word);
        if number < u64::from(self.moments) {
            Some(number as u32)
        } else {
            seat.ended = true;
            None
        }
    }

    /// Tells whether a moment that this seat has claimed is bad.
    pub fn report(&self, seat: &mut DeskSeat, moment: u32, bad: bool)
        requires desk { seat.old.desk ≡ self.now.name }
        requires claimed { Contains seat.old.claimed moment }
        ensures same { (seat.new.desk ≡ seat.old.desk)
            × (seat.new.claimed ≡ seat.old.claimed)
            × (seat.new.ended ≡ seat.old.ended)
            × (seat.new.found ≡ seat.old.found) }
        ensures bad { MatchBool bad (seat.new.bad ≡ seat.old.bad ++ moment ∷ []) (seat.new.bad ≡ seat.old.bad) }
    {
        if bad {
            self.table
                .shared
                .fetch_min::<Report>(&mut seat.seat, LEAST, u64::from(moment));
        }
    }

    /// How many moments were given out, and the least bad one, where these are all the seats that `new` made.
    #[tactic(auto, using(crate::proofs::Closing::once_of, crate::proofs::Closing::full_of, crate::proofs::Closing::least_of, crate::proofs::Closing::found_of, crate::proofs::Closing::word_small))]
    pub fn close(self, seats: Vec<DeskSeat>) -> DeskResult
        requires all { vec_len seats ≡ self.workers }
        requires desk { All (λ s. s.desk ≡ self.name) seats.items }
        ensures given { result.given ≤ self.name.moments }
        ensures once { HasEachOnce (all_claimed seats.items) result.given }
        ensures full { 0 < ended_count seats.items → result.given ≡ self.name.moments }
        ensures least { IsLeastOf (all_bad seats.items) result.least_bad }
        ensures found { All (λ word. word_of result.least_bad ≤ word) (all_found seats.items) }
    {
        let moments = self.moments;
        let all = self.gather(seats);
        let (claims, word) = self.settle(all);
        DeskResult {
            given: lesser(claims, moments),
            least_bad: moment_in(word),
        }
    }

    /// The seat that stands for all of these.
    fn gather(&self, mut seats: Vec<DeskSeat>) -> Seat<u8, DeskView>
        requires some { 0 < vec_len seats }
        requires desk { All (λ s. s.desk ≡ self.now.name) seats.items }
        ensures table { (result.table_id ≡ self.now.name.table) × (result.me.1 ≡ []) }
        ensures view { Gathers seats.items result.me.0 }
    {
        let first = seats.remove(0);
        self.join(first, seats)
    }

    /// The seat that stands for the first and the others.
    fn join(&self, first: DeskSeat, others: Vec<DeskSeat>) -> Seat<u8, DeskView>
        requires first { first.desk ≡ self.now.name }
        requires others { All (λ s. s.desk ≡ self.now.name) others.items }
        ensures table { (result.table_id ≡ self.now.name.table) × (result.me.1 ≡ []) }
        ensures view { Gathers (first ∷ others.items) result.me.0 }
    {
        let DeskSeat { seat: mut all, .. } = first;
        for seat in others {
            let DeskSeat { seat: theirs, .. } = seat;
            self.table.shared.join_seat::<OneSeat>(&mut all, theirs);
        }
        all
    }

    /// The claim word and the least word at the end, as the seat that stands for all knows them.
    fn settle(self, all: Seat<u8, DeskView>) -> (u64, u64)
        requires table { all.table_id ≡ self.name.table }
        requires parts { all.me.0.parts ≡ self.workers }
        ensures { Closes self.name.moments all.me.0 result.0 result.1 }
    {
        let closed = self.table.close_with(all);
        let claims = closed.word(CLAIMS);
        let word = closed.word(LEAST);
        closed.free();
        (claims, word)
    }
}

impl DeskSeat {
    /// A worker's place that has had nothing.
    fn new(seat: Seat<u8, DeskView>, moments: u32, worker: u32) -> DeskSeat
        requires { seat.me ≡ (newcomer 1 moments, []) }
        ensures { result ≡ fresh (record { table = seat.table_id; moments = moments }) }
    {
        DeskSeat {
            seat,
            moments,
            worker,
            ended: false,
            seen: None,
        }
    }

    /// The worker's number, as a gate is told it.
    pub(crate) fn worker(&self) -> u32 {
        self.worker
    }

    /// The least bad moment that the last claim saw. None where no moment was reported bad yet, and before a claim.
    pub fn seen(&self) -> Option<u32>
        ensures { result ≡ last_moment self.now.found }
    {
        self.seen
    }
}

/// The lesser of the number of claims and that of the moments.
fn lesser(claims: u64, moments: u32) -> u32
    ensures { result ≡ min claims moments }
{
    if claims < u64::from(moments) {
        claims as u32
    } else {
        moments
    }
}

/// The moment that a value of the least word names.
fn moment_in(word: u64) -> Option<u32>
    requires { (word ≡ 18446744073709551615) ⊎ (word < 2 ^ 32) }
    ensures { result ≡ moment_of word }
{
    if word == NOTHING {
        None
    } else {
        Some(word as u32)
    }
}
