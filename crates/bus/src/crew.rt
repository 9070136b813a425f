//! The threads of a run: how they are started, and what they come to.

ghost use Rattle.std.specs.Prelude.{◌≡◌, ◌⊎◌, ◌∷◌, ◌++◌, [], All, Bool, List, MatchBool, None, IfOk, IfSome, true, false};
ghost use Rattle.atomic_table.specs.Seated.{TableId};
ghost use Rattle.bus.specs.Crews.{AreJoined, AreRefusals, BeganView, HasKept, IsCrew, badge_of, lower_of, noted};
ghost use Rattle.bus.specs.Driving.{IsDriven, badge};
ghost use Rattle.bus.specs.Seats.{SeatView};
ghost use Rattle.workers.specs.Stops.{fresh};

use crate::driving::{Began, Driven, Job, SeatJob, Through};
use crate::lock::Bus;
use crate::loose_seat::LooseSeat;
use crate::seat::Seat;
use machine::StepFault;
use std::alloc::{AllocError, Global};
use std::marker::Model;
use std::snapshot::Snapshot;
use std::sync::Wait;
use std::thread::{PromisedHandle, Scope, Threads};
use workers::{Gate, StopSeat, StopWord};

/// A refusal of a step of a hart.
#[derive(Clone, Copy, Drop)]
pub(crate) struct Refusal {
    pub(crate) hart: u32,
    pub(crate) fault: StepFault,
}

/// A thread that was started.
#[derive(Drop)]
pub(crate) struct Child {
    handle: PromisedHandle<Driven, Began>,
}

impl Model for Child {
    ghost use Rattle.bus.specs.Crews.{BeganView};

    ghost Value = { BeganView };

    ghost view = { λ c. record {
      hart = c.handle.promise.hart;
      budget = c.handle.promise.budget;
      place = c.handle.promise.place.value;
    } };
}

impl Child {
    /// Starts a thread for a job. None where it can't be started.
    fn start<'s, E, J: Job + Send + Drop + 's>(
        scope: &Scope<'s, E>,
        began: Began,
        job: J,
    ) -> Option<Child>
        requires ready { J.is_ready job }
        requires began { (record { hart = began.hart; budget = began.budget; place = began.place.value }) ≡ J.begins job }
        ensures { IfSome result (λ child. child ≡ J.begins job) }
    {
        match scope.spawn_with(
            began,
            move || -> Driven
                requires { J.is_ready job }
                ensures { IsDriven (badge_of (J.begins job)) (J.begins job).place result.seat result.stop result.refused }
            { job.run() },
        ) {
            Ok(handle) => Some(Child { handle }),
            Err(_) => None,
        }
    }

    fn join<R: Threads>(self, rt: &R) -> Driven
        ensures { IsDriven (badge_of self) self.place result.seat result.stop result.refused }
    {
        let Child { handle } = self;
        handle.join(rt)
    }
}

/// Starts the thread of a seat with the next place at the stop word. None where it can't be started.
fn start_next<'s, 'p: 's, E, G: Gate, R: Wait + Sync>(
    scope: &Scope<'s, E>,
    rt: &'s R,
    bus: &'s Bus<'p>,
    gate: &'s G,
    word: &'s StopWord,
    seat: Seat<'p>,
    stops: &mut Vec<StopSeat>,
) -> Option<Child>
    requires { All (λ s. s ≡ fresh word.now.table) stops.old.items }
    ensures stops { All (λ s. s ≡ fresh word.now.table) stops.new.items }
    ensures child { IfSome result (λ child. (badge_of child ≡ badge seat.entry) × (child.place.table ≡ word.now.table)) }
{
    let stop = stops.pop()?;
    let began = Began {
        hart: seat.hart(),
        budget: seat.budget(),
        place: Snapshot::of(&stop),
    };
    let job = SeatJob {
        rt,
        bus,
        gate: Through(gate),
        word,
        seat,
        stop,
    };
    Child::start(scope, began, job)
}

/// Takes in a refusal: of two the one of the lower hart stays.
fn note(lowest: &mut Option<Refusal>, hart: u32, fault: StepFault)
    ensures { lowest.new ≡ lower_of lowest.old hart fault }
{
    let stays = match lowest {
        Some(refusal) => refusal.hart <= hart,
        None => false,
    };
    if !stays {
        *lowest = Some(Refusal { hart, fault });
    }
}

/// Takes in what refused a hart, if anything did.
fn note_any(lowest: &mut Option<Refusal>, hart: u32, refused: Option<StepFault>)
    ensures { lowest.new ≡ noted lowest.old hart refused }
{
    if let Some(fault) = refused {
        note(lowest, hart, fault);
    }
}

/// Keeps a seat. False where there is no room.
fn keep_seat(seats: &mut Vec<LooseSeat>, seat: LooseSeat) -> bool
    ensures { result ≡ true → seats.new.items ≡ seats.old.items ++ seat ∷ [] }
{
    match seats.push(seat) {
        Ok(()) => true,
        Err(_) => false,
    }
}

/// Keeps a place at the stop word. False where there is no room.
fn keep_stop(stops: &mut Vec<StopSeat>, stop: StopSeat) -> bool
    ensures { result ≡ true → stops.new.items ≡ stops.old.items ++ stop ∷ [] }
{
    match stops.push(stop) {
        Ok(()) => true,
        Err(_) => false,
    }
}

/// Keeps a thread that was started. False where it wasn't, or there is no room.
fn keep_child(children: &mut Vec<Child>, child: Option<Child>) -> bool
    ensures { HasKept children.old.items child result children.new.items }
{
    match child {
        Some(child) => match children.push(child) {
            Ok(()) => true,
            Err(_) => false,
        },
        None => false,
    }
}

/// Raises the stop word unless a thread was kept.
fn raise_unless(word: &StopWord, stop: &mut StopSeat, is_kept: bool)
    requires { stop.old.table ≡ word.now.table }
    ensures table { stop.new.table ≡ stop.old.table }
    ensures quiet { is_kept ≡ true → stop.new ≡ stop.old }
    ensures raised { is_kept ≡ false → stop.new.raised ≡ true }
{
    if !is_kept {
        word.raise(stop);
    }
}

fn are_both(one: bool, other: bool) -> bool
    ensures { MatchBool result ((one ≡ true) × (other ≡ true)) ((one ≡ false) ⊎ (other ≡ false)) }
{
    one && other
}

/// The threads of a run. Its lists have room for all of them before the first is started.
#[derive(Drop)]
pub(crate) struct Crew {
    pub(crate) children: Vec<Child>,
    pub(crate) ran: Ran,
}

/// What threads come to.
#[derive(Drop)]
pub(crate) struct Ran {
    pub(crate) seats: Vec<LooseSeat>,
    pub(crate) stops: Vec<StopSeat>,
    /// The place at the stop word of the thread that starts the others.
    pub(crate) mine: StopSeat,
    /// The refusal of the lowest hart that was refused a step.
    pub(crate) lowest: Option<Refusal>,
    /// Whether every thread was started, and kept with its seat and its place.
    pub(crate) is_whole: bool,
}

impl Crew {
    /// Room for the threads of so many seats.
    pub(crate) fn new(alloc: Global, count: usize, mine: StopSeat) -> Result<Crew, AllocError>
        ensures { IfOk result (λ crew. (crew.children.items ≡ []) × (crew.ran.seats.items ≡ []) × (crew.ran.stops.items ≡ [])
            × (crew.ran.mine ≡ mine) × (crew.ran.lowest ≡ None) × (crew.ran.is_whole ≡ true)) }
    {
        let children = Vec::with_capacity(alloc, count)?;
        let seats = Vec::with_capacity(alloc, count)?;
        let stops = Vec::with_capacity(alloc, count)?;
        Ok(Crew {
            children,
            ran: Ran {
                seats,
                stops,
                mine,
                lowest: None,
                is_whole: true,
            },
        })
    }

    /// Starts a thread for each seat, and raises the stop word where one can't be started.
    pub(crate) fn start_all<'s, 'p: 's, E, G: Gate, R: Wait + Sync>(
        &mut self,
        scope: &Scope<'s, E>,
        rt: &'s R,
        bus: &'s Bus<'p>,
        gate: &'s G,
        word: &'s StopWord,
        seats: Vec<Seat<'p>>,
        stops: Vec<StopSeat>,
    )
        requires stops { All (λ s. s ≡ fresh word.now.table) stops.items }
        requires crew { IsCrew word.now.table [] self.old.children.items self.old.ran.mine self.old.ran.is_whole }
        ensures crew { IsCrew word.now.table seats.entry.items self.new.children.items self.new.ran.mine self.new.ran.is_whole }
        ensures seats { self.new.ran.seats.items ≡ self.old.ran.seats.items }
        ensures stops { self.new.ran.stops.items ≡ self.old.ran.stops.items }
        ensures lowest { self.new.ran.lowest ≡ self.old.ran.lowest }
    {
        let mut stops = stops;
        for seat in seats {
            let child = start_next(scope, rt, bus, gate, word, seat, &mut stops);
            self.add(word, child);
        }
    }

    /// Takes in the thread of a seat; None is one that couldn't be started.
    fn add(&mut self, word: &StopWord, child: Option<Child>)
        requires { self.old.ran.mine.table ≡ word.now.table }
        ensures crew { (given : List SeatView) (seat : SeatView)
            → IsCrew word.now.table given self.old.children.items self.old.ran.mine self.old.ran.is_whole
            → ((c : BeganView) → child ≡ Some c → (badge_of c ≡ badge seat) × (c.place.table ≡ word.now.table))
            → IsCrew word.now.table (given ++ seat ∷ []) self.new.children.items self.new.ran.mine self.new.ran.is_whole }
        ensures seats { self.new.ran.seats.items ≡ self.old.ran.seats.items }
        ensures stops { self.new.ran.stops.items ≡ self.old.ran.stops.items }
        ensures lowest { self.new.ran.lowest ≡ self.old.ran.lowest }
    {
        let is_kept = keep_child(&mut self.children, child);
        raise_unless(word, &mut self.ran.mine, is_kept);
        self.ran.is_whole = are_both(self.ran.is_whole, is_kept);
    }

    /// Joins every thread.
    pub(crate) fn join_all<R: Threads>(self, rt: &R) -> Ran
        requires seats { self.ran.seats.items ≡ [] }
        requires stops { self.ran.stops.items ≡ [] }
        requires cause { AreRefusals self.ran.lowest }
        ensures joined { (table : TableId) → (self.ran.is_whole ≡ true → All (λ b. b.place.table ≡ table) self.children.items)
            → AreJoined table self.children.items self.ran.is_whole result.seats.items result.stops.items result.lowest result.is_whole }
        ensures mine { result.mine ≡ self.ran.mine }
    {
        let Crew { children, ran } = self;
        let mut ran = ran;
        for child in children {
            let driven = child.join(rt);
            ran.add(driven);
        }
        ran
    }
}

impl Ran {
    /// Takes in what a thread came to.
    #[tactic(auto, using(crate::proofs::Crews::joined_more))]
    fn add(&mut self, driven: Driven)
        ensures joined { (table : TableId) (begun : List BeganView) (first : Bool) (b : BeganView)
            → AreJoined table begun first self.old.seats.items self.old.stops.items self.old.lowest self.old.is_whole
            → IsDriven (badge_of b) b.place driven.seat driven.stop driven.refused
            → (first ≡ true → b.place.table ≡ table)
            → AreJoined table (begun ++ b ∷ []) first self.new.seats.items self.new.stops.items self.new.lowest self.new.is_whole }
        ensures mine { self.new.mine ≡ self.old.mine }
    {
        let Driven {
            seat,
            stop,
            refused,
        } = driven;
        note_any(&mut self.lowest, seat.hart(), refused);
        let is_kept = keep_seat(&mut self.seats, seat);
        let is_placed = keep_stop(&mut self.stops, stop);
        self.is_whole = are_both(self.is_whole, are_both(is_kept, is_placed));
    }
}
