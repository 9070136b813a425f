//! A sweep over the moments of a run by several workers, whose answer is that of one worker who takes them in turn.

ghost use Rattle.workers.specs.Desks.{all_bad, all_claimed, all_found, ended_count, fresh};
ghost use Rattle.workers.specs.Sweeps.{IsSwept, IsTally, best_of, better};
ghost use Rattle.workers.specs.Works.{IsWorked};
ghost use Rattle.std.specs.Thread.{IsSync};
ghost use Rattle.std.specs.Prelude.{◌≡◌, ℕ, ◌^◌, ◌<◌, ◌≤◌, [], ◌∷◌, ◌++◌, Some, None, true, false, All, length, vec_len, IfOk, IsTrue, MatchBool, OnOk};

use crate::desk::{CheckDesk, DeskSeat};
use crate::gate::Gate;
use std::alloc::{AllocError, Global};
use std::thread;
use std::thread::Threads;

/// What a moment was found to be.
#[derive(Drop)]
pub enum Judged<B> {
    Passed,
    Bad(B),
}

/// Judges the moments of a run, each by itself. `S` is what a worker keeps from one of its moments to the next.
pub trait Judge<B, S> {
    ghost use Rattle.std.specs.Prelude.{◌≡◌, ℕ, ◌<◌, IfOk};
    ghost use Rattle.std.specs.Thread.{IsSync};
    ghost use Rattle.workers.specs.declared.sweep.Judged.TheVariants.{Passed, Bad};

    ghost moments: { Self → ℕ };

    ghost passes: { Self → ℕ → Type 0 };

    ghost fails: { Self → ℕ → B → Type 0 };

    ghost keeps: { Self → S → Type 0 };

    /// What a worker begins with. Err where memory was refused.
    fn begin(&self) -> Result<S, AllocError>
        ensures { IfOk result (λ state. keeps self.now state) };

    /// Judges one moment, if need be in further threads. Err where memory was refused.
    fn judge<T: Threads + Sync>(
        &self,
        rt: &T,
        state: &mut S,
        moment: u32,
    ) -> Result<Judged<B>, AllocError>
        requires sync { IsSync T.row }
        requires moment { moment < moments self.now }
        requires state { keeps self.now state.old }
        ensures state { IfOk result (λ _. keeps self.now state.new) }
        ensures passed { result ≡ Ok Passed → passes self.now moment }
        ensures bad { (bad : B) → result ≡ Ok (Bad bad) → fails self.now moment bad };
}

/// Takes in a bad moment: keeps the lesser one.
fn note<B: Drop>(best: &mut Option<(u32, B)>, moment: u32, bad: B)
    ensures { best.new ≡ better best.old moment bad }
{
    let keeps = match best {
        Some(found) => found.0 <= moment,
        None => false,
    };
    if !keeps {
        *best = Some((moment, bad));
    }
}

/// Takes in the least bad moment of another worker, if it has one.
fn merge<B: Drop>(best: &mut Option<(u32, B)>, other: Option<(u32, B)>)
    ensures { best.new ≡ best_of best.old other }
{
    if let Some((moment, bad)) = other {
        note(best, moment, bad);
    }
}

/// What a worker hands back.
#[derive(Drop)]
pub struct Worked<B> {
    pub seat: DeskSeat,
    /// Whether it went on until no moment was left; else memory was refused.
    pub whole: bool,
    /// The least bad moment that it judged, and what it was found to be.
    pub best: Option<(u32, B)>,
}

/// Judges all moments below `moments` by one to eight workers, in threads of their own where they can be started.
/// The gate is entered before each claim of a worker, and left after the judging. A worker skips a moment above the
/// least bad one that it has seen. Err where memory was refused to any of them.
pub fn judge_all<B: Drop + Send, S: Drop + Send, J: Judge<B, S> + Sync, G: Gate, R: Threads + Sync>(
    rt: &R,
    alloc: Global,
    moments: u32,
    workers: u32,
    job: &J,
    gate: &G,
) -> Result<Option<(u32, B)>, AllocError>
    requires workers { (0 < workers) × (workers ≤ 8) }
    requires job { J.moments job.now ≡ moments }
    ensures { IfOk result (λ best. IsSwept (J.passes job.now) (J.fails job.now) moments best) }
{
    let (desk, seats) = CheckDesk::new(alloc, moments, workers)?;
    let shared = &desk;
    let worked = thread::map_vec(
        rt,
        seats,
        &|seat: DeskSeat| -> Worked<B>
            requires { IsSync R.row × (J.moments job.now ≡ shared.now.name.moments) × (shared.now.name.moments < 2 ^ 32) × (seat ≡ fresh shared.now.name) }
            ensures { IsWorked (J.passes job.entry.now) (J.fails job.entry.now) shared.entry.now.name result }
        { work(rt, shared, job, gate, seat) },
    )?;
    gather(alloc, desk, job, worked)
}

/// What one worker does.
fn work<B: Drop, S: Drop, J: Judge<B, S>, G: Gate, R: Threads + Sync>(
    rt: &R,
    desk: &CheckDesk,
    job: &J,
    gate: &G,
    mut seat: DeskSeat,
) -> Worked<B>
    requires seat { seat ≡ fresh desk.now.name }
    requires small { desk.now.name.moments < 2 ^ 32 }
    requires job { J.moments job.now ≡ desk.now.name.moments }
    ensures { IsWorked (J.passes job.now) (J.fails job.now) desk.now.name result }
{
    let mut best = None;
    let whole = take_all(rt, desk, job, gate, &mut seat, &mut best).is_ok();
    Worked { seat, whole, best }
}

/// Takes moments until none is left.
fn take_all<B: Drop, S: Drop, J: Judge<B, S>, G: Gate, R: Threads + Sync>(
    rt: &R,
    desk: &CheckDesk,
    job: &J,
    gate: &G,
    seat: &mut DeskSeat,
    best: &mut Option<(u32, B)>,
) -> Result<(), AllocError>
    requires desk { seat.old.desk ≡ desk.now.name }
    requires none { seat.old.claimed ≡ [] }
    requires small { desk.now.name.moments < 2 ^ 32 }
    requires job { J.moments job.now ≡ desk.now.name.moments }
    requires best { IsTally (J.passes job.now) (J.fails job.now) desk.now.name.moments
        seat.old.claimed seat.old.bad seat.old.found best.old }
    ensures desk { seat.new.desk ≡ seat.old.desk }
    ensures all { OnOk result ((seat.new.ended ≡ true)
        × IsTally (J.passes job.now) (J.fails job.now) desk.now.name.moments
        seat.new.claimed seat.new.bad seat.new.found best.new) }
{
    let mut state = job.begin()?;
    take_each(rt, desk, job, gate, &mut state, seat, best)
}

/// Takes them with what the worker keeps from one to the next.
fn take_each<B: Drop, S, J: Judge<B, S>, G: Gate, R: Threads + Sync>(
    rt: &R,
    desk: &CheckDesk,
    job: &J,
    gate: &G,
    state: &mut S,
    seat: &mut DeskSeat,
    best: &mut Option<(u32, B)>,
) -> Result<(), AllocError>
    requires desk { seat.old.desk ≡ desk.now.name }
    requires none { seat.old.claimed ≡ [] }
    requires small { desk.now.name.moments < 2 ^ 32 }
    requires job { J.moments job.now ≡ desk.now.name.moments }
    requires state { J.keeps job.now state.old }
    requires best { IsTally (J.passes job.now) (J.fails job.now) desk.now.name.moments
        seat.old.claimed seat.old.bad seat.old.found best.old }
    ensures desk { seat.new.desk ≡ seat.old.desk }
    ensures all { OnOk result ((seat.new.ended ≡ true)
        × IsTally (J.passes job.now) (J.fails job.now) desk.now.name.moments
        seat.new.claimed seat.new.bad seat.new.found best.new) }
{
    let worker = seat.worker();
    loop {
        gate.enter(worker);
        let more = take_one(rt, desk, job, state, seat, best);
        gate.leave(worker);
        if !more? {
            return Ok(());
        }
    }
}

/// Claims a moment, and judges it unless the seat has seen a lesser bad one. False where there is none left.
fn take_one<B: Drop, S, J: Judge<B, S>, R: Threads + Sync>(
    rt: &R,
    desk: &CheckDesk,
    job: &J,
    state: &mut S,
    seat: &mut DeskSeat,
    best: &mut Option<(u32, B)>,
) -> Result<bool, AllocError>
    requires desk { seat.old.desk ≡ desk.now.name }
    requires job { J.moments job.now ≡ desk.now.name.moments }
    requires state { J.keeps job.now state.old }
    requires best { IsTally (J.passes job.now) (J.fails job.now) desk.now.name.moments
        seat.old.claimed seat.old.bad seat.old.found best.old }
    ensures desk { seat.new.desk ≡ seat.old.desk }
    ensures state { OnOk result (J.keeps job.now state.new) }
    ensures best { OnOk result (IsTally (J.passes job.now) (J.fails job.now) desk.now.name.moments
        seat.new.claimed seat.new.bad seat.new.found best.new) }
    ensures more { IfOk result (λ more. MatchBool more
        ((length seat.old.claimed < length seat.new.claimed) × (length seat.new.claimed ≤ desk.now.name.moments))
        ((seat.new.ended ≡ true) × (seat.new.claimed ≡ seat.old.claimed))) }
{
    let Some(moment) = desk.claim(seat) else {
        return Ok(false);
    };
    if is_below(seat.seen(), moment) {
        return Ok(true);
    }
    match job.judge(rt, state, moment)? {
        Judged::Passed => {}
        Judged::Bad(bad) => {
            desk.report(seat, moment, true);
            note(best, moment, bad);
        }
    }
    Ok(true)
}

/// Whether a bad moment was seen that is below this one.
fn is_below(seen: Option<u32>, moment: u32) -> bool
    ensures { IsTrue result → (x : ℕ) × (seen ≡ Some x) × (x < moment) }
{
    match seen {
        Some(bad) => bad < moment,
        None => false,
    }
}

/// What all workers found.
fn gather<B: Drop, S, J: Judge<B, S>>(
    alloc: Global,
    desk: CheckDesk,
    job: &J,
    worked: Vec<Worked<B>>,
) -> Result<Option<(u32, B)>, AllocError>
    requires workers { (0 < desk.workers) × (desk.workers ≤ 8) }
    requires all { vec_len worked ≡ desk.workers }
    requires small { desk.name.moments < 2 ^ 32 }
    requires each { All (IsWorked (J.passes job.now) (J.fails job.now) desk.name) worked.items }
    ensures { IfOk result (λ best. IsSwept (J.passes job.now) (J.fails job.now) desk.name.moments best) }
{
    let mut seats = Vec::with_capacity(alloc, worked.len())?;
    let mut best = None;
    take_in(&desk, job, worked, &mut seats, &mut best)?;
    desk.close(seats);
    Ok(best)
}

/// Takes in what the workers found, one after the other.
fn take_in<B: Drop, S, J: Judge<B, S>>(
    desk: &CheckDesk,
    job: &J,
    worked: Vec<Worked<B>>,
    seats: &mut Vec<DeskSeat>,
    best: &mut Option<(u32, B)>,
) -> Result<(), AllocError>
    requires seats { seats.old.items ≡ [] }
    requires none { best.old ≡ None }
    requires each { All (IsWorked (J.passes job.now) (J.fails job.now) desk.now.name) worked.items }
    ensures desk { OnOk result (All (λ s. s.desk ≡ desk.now.name) seats.new.items) }
    ensures all { OnOk result (vec_len seats.new ≡ vec_len worked) }
    ensures ended { OnOk result (ended_count seats.new.items ≡ vec_len worked) }
    ensures best { OnOk result (IsTally (J.passes job.now) (J.fails job.now) desk.now.name.moments
        (all_claimed seats.new.items) (all_bad seats.new.items) (all_found seats.new.items) best.new) }
{
    for one in worked {
        add(one, seats, best)?;
    }
    Ok(())
}

/// Takes in what one worker found. Err where memory was refused to it.
fn add<B: Drop>(
    one: Worked<B>,
    seats: &mut Vec<DeskSeat>,
    best: &mut Option<(u32, B)>,
) -> Result<(), AllocError>
    ensures whole { OnOk result (one.whole ≡ true) }
    ensures seats { OnOk result (seats.new.items ≡ seats.old.items ++ one.seat ∷ []) }
    ensures best { OnOk result (best.new ≡ best_of best.old one.best) }
{
    let Worked {
        seat,
        whole,
        best: its,
    } = one;
    if !whole {
        return Err(AllocError);
    }
    merge(best, its);
    seats.push(seat)?;
    Ok(())
}
