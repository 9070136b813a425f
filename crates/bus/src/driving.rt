//! What one thread does with its seat.

ghost use Rattle.std.specs.Prelude.{◌≡◌, ◌≤◌, [], false};
ghost use Rattle.bus.specs.Driving.{IsDriven, IsRound, badge, is_last, round_after};
ghost use Rattle.bus.specs.Seating.{AsksNext};
ghost use Rattle.bus.specs.Seats.{SeatView};

use crate::lock::Bus;
use crate::loose_seat::LooseSeat;
use crate::outcome::Outcome;
use crate::seat::Seat;
use machine::StepFault;
use std::snapshot::Snapshot;
use std::sync::Wait;
use std::thread::Promise;
use workers::{Gate, StopSeat, StopWord};

/// What a round of a thread comes to.
#[derive(Clone, Copy, Drop)]
pub(crate) enum Round {
    GoesOn,
    /// The hart has stopped, its budget is used up, or another thread has raised the stop word.
    Ends,
    Refused(StepFault),
}

/// What a thread hands back.
#[derive(Drop)]
pub(crate) struct Driven {
    pub(crate) seat: LooseSeat,
    pub(crate) stop: StopSeat,
    /// The refusal that ended it.
    pub(crate) refused: Option<StepFault>,
}

/// What a thread begins with: the number of its hart, how many steps it may make, and its place at the stop word. It promises
/// a result that belongs to these.
#[derive(Drop)]
pub(crate) struct Began {
    pub(crate) hart: u32,
    pub(crate) budget: u32,
    pub(crate) place: Snapshot<StopSeat>,
}

impl Promise<Driven> for Began {
    ghost use Rattle.bus.specs.Driving.{IsDriven};

    ghost kept_by = { λ began driven. IsDriven (began.hart, began.budget) began.place.value driven.seat driven.stop driven.refused };
}

/// What is called round each step: a gate, without what is said of its threads.
pub(crate) trait Turns: Drop {
    fn enter(&self, worker: u32);

    fn leave(&self, worker: u32);
}

/// The turns of a gate.
#[derive(Drop)]
pub(crate) struct Through<'a, G: Gate>(pub(crate) &'a G);

impl<'a, G: Gate> Turns for Through<'a, G> {
    fn enter(&self, worker: u32) {
        self.0.enter(worker);
    }

    fn leave(&self, worker: u32) {
        self.0.leave(worker);
    }
}

/// Whether a seat makes no further step after this outcome.
fn is_last(outcome: Outcome) -> bool
    ensures { result ≡ is_last outcome }
{
    match outcome {
        Outcome::Done => false,
        Outcome::Exited(_) | Outcome::Trapped(_) | Outcome::Stopped | Outcome::Spent => true,
    }
}

/// How many steps that need no request a thread makes at most between two looks at the stop word.
const MOST_ALONE: u32 = 4_096;

/// Makes the steps of a seat up to its next request, and that one unless the stop word is raised then; or so many steps
/// without a request, after which it looks at the word. Those take neither the lock nor a look, which is a load.
fn make_round<'p, T: Turns, R: Wait>(
    rt: &R,
    bus: &Bus<'p>,
    gate: &T,
    word: &StopWord,
    seat: &mut Seat<'p>,
    stop: &mut StopSeat,
) -> Round
    requires { stop.old.table ≡ word.now.table }
    ensures same { badge seat.new ≡ badge seat.old }
    ensures word { stop.new.table ≡ stop.old.table }
    ensures round { IsRound seat.new stop.old stop.new result }
{
    let worker = seat.hart();
    for _alone in 0..MOST_ALONE {
        gate.enter(worker);
        match seat.step_local() {
            Some(outcome) => {
                gate.leave(worker);
                if is_last(outcome) {
                    return Round::Ends;
                }
            }
            None => {
                let round = ask_next(rt, bus, word, seat, stop);
                gate.leave(worker);
                return round;
            }
        }
    }
    round_at_look(word, stop)
}

/// Has the request of a seat's next step served, unless the stop word is raised; a refusal raises it.
fn ask_next<'p, R: Wait>(
    rt: &R,
    bus: &Bus<'p>,
    word: &StopWord,
    seat: &mut Seat<'p>,
    stop: &mut StopSeat,
) -> Round
    requires asks { AsksNext seat.old }
    requires word { stop.old.table ≡ word.now.table }
    ensures same { badge seat.new ≡ badge seat.old }
    ensures word { stop.new.table ≡ stop.old.table }
    ensures round { IsRound seat.new stop.old stop.new result }
{
    if word.look(stop) {
        return Round::Ends;
    }
    match seat.ask(rt, bus) {
        Ok(outcome) => round_after(outcome),
        Err(fault) => {
            word.raise(stop);
            Round::Refused(fault)
        }
    }
}

/// What a round comes to that ends with a look at the stop word.
fn round_at_look(word: &StopWord, stop: &mut StopSeat) -> Round
    requires { stop.old.table ≡ word.now.table }
    ensures word { stop.new.table ≡ stop.old.table }
    ensures round { (seat : SeatView) → IsRound seat stop.old stop.new result }
{
    let raised = word.look(stop);
    if raised { Round::Ends } else { Round::GoesOn }
}

/// What a round comes to whose step wasn't refused.
fn round_after(outcome: Outcome) -> Round
    ensures { result ≡ round_after outcome }
{
    if is_last(outcome) {
        Round::Ends
    } else {
        Round::GoesOn
    }
}

/// Makes the steps of a seat until it has stopped, has used up its budget, is refused a step, or sees the stop word raised.
pub(crate) fn drive<'p, T: Turns, R: Wait>(
    rt: &R,
    bus: &Bus<'p>,
    gate: &T,
    word: &StopWord,
    seat: Seat<'p>,
    stop: StopSeat,
) -> Driven
    requires word { stop.table ≡ word.now.table }
    requires quiet { stop.raised ≡ false }
    ensures { IsDriven (badge seat.entry) stop result.seat result.stop result.refused }
{
    let mut seat = seat;
    let mut stop = stop;
    let refused = drive_on(rt, bus, gate, word, &mut seat, &mut stop);
    Driven {
        seat: LooseSeat::of(seat),
        stop,
        refused,
    }
}

/// The same of a seat that is lent: what refused its last step, if anything did.
fn drive_on<'p, T: Turns, R: Wait>(
    rt: &R,
    bus: &Bus<'p>,
    gate: &T,
    word: &StopWord,
    seat: &mut Seat<'p>,
    stop: &mut StopSeat,
) -> Option<StepFault>
    requires word { stop.old.table ≡ word.now.table }
    requires quiet { stop.old.raised ≡ false }
    ensures { (loose : SeatView) → loose ≡ record seat.new { text = [] } → loose.made ≤ loose.budget
        → IsDriven (badge seat.old) stop.old loose stop.new result }
{
    for _ in rt.forever() {
        match make_round(rt, bus, gate, word, seat, stop) {
            Round::GoesOn => {}
            Round::Ends => return None,
            Round::Refused(fault) => return Some(fault),
        }
    }
    unreachable!()
}

/// What a thread is given to do. It stands behind a type parameter, since a closure that holds a lifetime promises nothing.
pub(crate) trait Job {
    ghost use Rattle.bus.specs.Crews.{BeganView, badge_of};
    ghost use Rattle.bus.specs.Driving.{IsDriven};

    ghost begins: { Self → BeganView };

    ghost is_ready: { Self → Type 0 };

    fn run(self) -> Driven
        requires { is_ready self }
        ensures { IsDriven (badge_of (begins self)) (begins self).place result.seat result.stop result.refused };
}

/// To drive a seat.
#[derive(Drop)]
pub(crate) struct SeatJob<'a, 'p, T: Turns, R: Wait> {
    pub(crate) rt: &'a R,
    pub(crate) bus: &'a Bus<'p>,
    pub(crate) gate: T,
    pub(crate) word: &'a StopWord,
    pub(crate) seat: Seat<'p>,
    pub(crate) stop: StopSeat,
}

impl<'a, 'p, T: Turns, R: Wait> Job for SeatJob<'a, 'p, T, R> {
    ghost use Rattle.std.specs.Prelude.{◌≡◌};
    ghost use Rattle.workers.specs.Stops.{fresh};

    ghost begins = { λ d. record { hart = d.seat.hart; budget = d.seat.budget; place = d.stop } };

    ghost is_ready = { λ d. d.stop ≡ fresh d.word.now.table };

    fn run(self) -> Driven {
        let SeatJob {
            rt,
            bus,
            gate,
            word,
            seat,
            stop,
        } = self;
        drive(rt, bus, &gate, word, seat, stop)
    }
}
