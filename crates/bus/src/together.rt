//! Harts that run together, each in a thread of its own.

ghost use Rattle.std.specs.Prelude.{◌≡◌, ◌+◌, ◌^◌, ◌<◌, ◌≤◌, All, Contains, IfErr, IfOk, IsErrOf, List, None, OnOk, false, length, map, option_map, true};
ghost use Rattle.std.specs.List.{list_any};
ghost use Rattle.bus.specs.Crews.{AreDone, HaveEnded, IsIdle};
ghost use Rattle.bus.specs.Driving.{HasEnded, badge};
ghost use Rattle.bus.specs.Ending.{HasTooLarge};
ghost use Rattle.bus.specs.Seats.{SeatView};
ghost use Rattle.bus.specs.Stepping.{BusView, IsStepRefusal};
ghost use Rattle.workers.specs.Stops.{all_found, fresh};
ghost use Rattle.bus.specs.declared.crew.Refusal.{Refusal};
ghost use Rattle.bus.specs.Together.{HasLeft, HaveRun, IsFinished, IsFullOr, RefusesFinish, RefusesRun};
ghost use Rattle.machine.specs.Grammar.{hart_steps};

use crate::by_number::has_too_large;
use crate::crew::{Crew, Ran, Refusal};
use crate::finish_fault::FinishFault;
use crate::limits::MOST_HARTS;
use crate::lock::Bus;
use crate::loose_seat::LooseSeat;
use crate::seat::Seat;
use machine::{Recorded, StepFault};
use std::alloc::{AllocError, Global};
use std::sync::Wait;
use std::thread;
use std::thread::Threads;
use thiserror::Error;
use workers::{Gate, StopSeat, StopWord};

/// Why harts haven't run together to their end.
#[derive(Clone, Copy, Debug, PartialEq, Eq, Error)]
pub enum RunFault {
    /// A seat is that of no hart, a step was refused, or memory or a thread was.
    #[error("{0}")]
    Step(StepFault),
    /// What the seats have made isn't gathered, or isn't what a step was refused for.
    #[error("{0}")]
    Finish(FinishFault),
}

/// The seats of threads that have ended, in order, and with what the lowest hart that was refused a step was refused it.
type Ended<'p> = (Vec<Seat<'p>>, Option<StepFault>);

/// Runs the hart of each of one to eight seats in a thread of its own, until it has stopped, has made as many steps as its
/// seat may, or another hart was refused a step; and gathers what they have made. The gate is entered before each step of a
/// worker, which has its hart's number, and left after it.
///
/// # Errors
/// NoSuchHart, before any step, where a seat is that of no hart of the bus. TraceFull where the lowest hart that was refused a
/// step found the trace full, and what all have made, which is gathered then too, fills it. Memory where a growth or a thread
/// is refused. Else why the seats aren't gathered, which is Foreign also where nothing else explains a step's refusal.
#[tactic(auto, using(crate::proofs::Joined::done_ok, crate::proofs::Joined::done_err))]
pub fn run_harts<'p, G: Gate, R: Threads + Wait + Sync>(
    rt: &R,
    alloc: Global,
    bus: Bus<'p>,
    seats: Vec<Seat<'p>>,
    gate: &G,
) -> Result<Recorded, RunFault>
    requires some { 1 ≤ length seats.items }
    requires few { length seats.items ≤ 8 }
    ensures ok { IfOk result (HaveRun bus.entry seats.entry.items) }
    ensures few { IfOk result (λ recorded. hart_steps recorded.items < 2 ^ 32) }
    ensures err { IfErr result (RefusesRun bus.entry seats.entry.items) }
    ensures number { HasTooLarge bus.entry.harts seats.entry.items → IsErrOf result (RunFault.Step StepFault.NoSuchHart) }
{
    if has_too_large(&seats, bus.harts()) {
        return Err(RunFault::Step(StepFault::NoSuchHart));
    }
    match run_seats(rt, alloc, &bus, seats, gate) {
        Ok((seats, refused)) => gather_ended(alloc, bus, seats, refused),
        Err(_) => Err(RunFault::Step(StepFault::Memory)),
    }
}

/// Gathers what seats have made whose threads have ended, or reports why one of them was refused a step.
fn gather_ended<'p>(
    alloc: Global,
    bus: Bus<'p>,
    seats: Vec<Seat<'p>>,
    refused: Option<StepFault>,
) -> Result<Recorded, RunFault>
    requires { (given : List SeatView) × AreDone given seats.items refused }
    ensures ok { IfOk result (λ recorded. (given : List SeatView) → AreDone given seats.entry.items refused → HaveRun bus.entry given recorded) }
    ensures few { IfOk result (λ recorded. hart_steps recorded.items < 2 ^ 32) }
    ensures err { IfErr result (λ fault. (given : List SeatView) → AreDone given seats.entry.items refused → RefusesRun bus.entry given fault) }
{
    match refused {
        Some(fault) => Err(refusal_of(alloc, bus, seats, fault)),
        None => match bus.finish(alloc, seats) {
            Ok(recorded) => Ok(recorded),
            Err(fault) => Err(RunFault::Finish(fault)),
        },
    }
}

/// Why harts haven't run to their end, one of which was refused a step.
fn refusal_of<'p>(alloc: Global, bus: Bus<'p>, seats: Vec<Seat<'p>>, fault: StepFault) -> RunFault
    requires { IsStepRefusal fault }
    ensures { (given : List SeatView) → map badge seats.entry.items ≡ map badge given → RefusesRun bus.entry given result }
{
    match fault {
        StepFault::TraceFull => full_trace(has_left(&seats), bus.finish(alloc, seats)),
        StepFault::Memory => RunFault::Step(StepFault::Memory),
        // A core that lacks a hart of the bus isn't the bus's.
        StepFault::NoSuchHart => RunFault::Finish(FinishFault::Foreign),
        StepFault::NoSuchLine | StepFault::OutOfLimits => unreachable!(),
    }
}

/// What is reported of a trace that a hart found full: by what the harts have made, and whether one of them has steps left.
fn full_trace(is_left: bool, gathered: Result<Recorded, FinishFault>) -> RunFault
    ensures { (bus : BusView) (given seats : List SeatView) → map badge seats ≡ map badge given → (is_left ≡ true → HasLeft seats)
        → IfOk gathered (IsFinished bus seats) → IfErr gathered (RefusesFinish bus.harts seats) → RefusesRun bus given result }
{
    match gathered {
        Ok(recorded) => fault_of_trace(is_left, recorded.trace().is_full()),
        Err(fault) => RunFault::Finish(fault),
    }
}

/// Nothing but a full trace, and a hart that goes on, explains that there was no room for an event.
fn fault_of_trace(is_left: bool, is_full: bool) -> RunFault
    ensures { IsFullOr is_left is_full result }
{
    if is_left && is_full {
        RunFault::Step(StepFault::TraceFull)
    } else {
        RunFault::Finish(FinishFault::Foreign)
    }
}

/// Whether the hart of a seat runs and has steps left.
#[tactic(auto, using(crate::proofs::Joined::left_at))]
fn has_left(seats: &[Seat<'_>]) -> bool
    ensures { result ≡ true → HasLeft seats.now }
{
    for at in 0..seats.len() {
        if seats[at].is_left() {
            return true;
        }
    }
    false
}

/// Runs the hart of each seat in a thread of its own, and gives the seats back, in their order, once all have ended, with the
/// refusal of the lowest hart that was refused a step.
///
/// # Errors
/// A growth or a thread was refused.
fn run_seats<'p, G: Gate, R: Threads + Wait + Sync>(
    rt: &R,
    alloc: Global,
    bus: &Bus<'p>,
    seats: Vec<Seat<'p>>,
    gate: &G,
) -> Result<Ended<'p>, AllocError>
    requires { length seats.items ≤ 8 }
    ensures { IfOk result (λ ended. AreDone seats.entry.items ended.0.items ended.1) }
{
    let (word, stops, crew) = begin(alloc, seats.len())?;
    let texts = texts_of(&seats);
    let ran = run_threads(rt, bus, gate, &word, seats, stops, crew);
    settle(alloc, word, &texts, ran)
}

/// A stop word with a place for each of so many threads, and a crew for them with one more for the thread that starts them.
fn begin(alloc: Global, count: usize) -> Result<(StopWord, Vec<StopSeat>, Crew), AllocError>
    requires { count ≤ 8 }
    ensures word { IfOk result (λ made. made.0.seats ≡ count + 1) }
    ensures stops { IfOk result (λ made. All (λ s. s ≡ fresh made.0.table) made.1.items) }
    ensures crew { IfOk result (λ made. IsIdle made.0.table made.2.children.items made.2.ran.seats.items made.2.ran.stops.items
        made.2.ran.mine made.2.ran.lowest made.2.ran.is_whole) }
{
    let (word, mut stops) = StopWord::new(alloc, count as u32 + 1)?;
    let Some(mine) = stops.pop() else {
        return Err(AllocError);
    };
    let crew = Crew::new(alloc, count, mine)?;
    Ok((word, stops, crew))
}

/// The texts of seats. They stay behind when the seats go to their threads.
fn texts_of<'p>(seats: &[Seat<'p>]) -> [&'p [u8]; MOST_HARTS] {
    let mut texts: [&'p [u8]; MOST_HARTS] = [&[]; MOST_HARTS];
    for (text, seat) in texts.iter_mut().zip(seats.iter()) {
        *text = seat.text();
    }
    texts
}

/// Runs the thread of each seat, and joins them all.
fn run_threads<'p, G: Gate, R: Threads + Wait + Sync>(
    rt: &R,
    bus: &Bus<'p>,
    gate: &G,
    word: &StopWord,
    seats: Vec<Seat<'p>>,
    stops: Vec<StopSeat>,
    crew: Crew,
) -> Ran
    requires stops { All (λ s. s ≡ fresh word.now.table) stops.items }
    requires crew { IsIdle word.now.table crew.children.items crew.ran.seats.items crew.ran.stops.items crew.ran.mine
        crew.ran.lowest crew.ran.is_whole }
    ensures { HaveEnded word.now.table seats.entry.items result.seats.items result.stops.items result.mine result.lowest
        result.is_whole }
{
    thread::scope(
        thread::scope_env(),
        rt,
        move |scope| -> Ran
            requires stops { All (λ s. s ≡ fresh word.now.table) stops.items }
            requires crew { IsIdle word.now.table crew.children.items crew.ran.seats.items crew.ran.stops.items crew.ran.mine
                crew.ran.lowest crew.ran.is_whole }
            ensures { HaveEnded word.entry.now.table seats.entry.items result.seats.items result.stops.items result.mine
                result.lowest result.is_whole }
        {
            let mut crew = crew;
            crew.start_all(scope, rt, bus, gate, word, seats, stops);
            crew.join_all(rt)
        },
    )
}

/// The seats of threads that have ended, with the refusal of the lowest hart that was refused a step.
///
/// # Errors
/// A growth or a thread was refused.
#[tactic(auto, using(crate::proofs::Crews::settled))]
fn settle<'p>(
    alloc: Global,
    word: StopWord,
    texts: &[&'p [u8]],
    ran: Ran,
) -> Result<Ended<'p>, AllocError>
    requires { (given : List SeatView) × (word.seats ≡ length given + 1)
        × HaveEnded word.table given ran.seats.items ran.stops.items ran.mine ran.lowest ran.is_whole }
    ensures { IfOk result (λ ended. (given : List SeatView)
        → HaveEnded word.table given ran.seats.items ran.stops.items ran.mine ran.lowest ran.is_whole
        → AreDone given ended.0.items ended.1) }
{
    let Ran {
        seats,
        stops,
        mine,
        lowest,
        is_whole,
    } = ran;
    if !is_whole {
        return Err(AllocError);
    }
    close_word(word, stops, mine)?;
    let seats = seats_of(alloc, texts, seats)?;
    Ok((seats, fault_of(lowest)))
}

/// With what a hart was refused a step, if one was.
fn fault_of(lowest: Option<Refusal>) -> Option<StepFault>
    ensures { result ≡ option_map (λ (r : Refusal). r.fault) lowest }
{
    match lowest {
        Some(refusal) => Some(refusal.fault),
        None => None,
    }
}

/// Closes the stop word. Where none of its places raised it, none saw it raised.
fn close_word(word: StopWord, stops: Vec<StopSeat>, mine: StopSeat) -> Result<(), AllocError>
    requires all { length stops.items + 1 ≡ word.seats }
    requires word { All (λ s. s.table ≡ word.table) stops.items }
    requires mine { mine.table ≡ word.table }
    ensures { OnOk result (list_any (λ s. s.raised) stops.items ≡ false → mine.raised ≡ false
        → Contains (all_found stops.items) true → ⊥) }
{
    let mut stops = stops;
    match stops.push(mine) {
        Ok(()) => {}
        Err(_) => return Err(AllocError),
    }
    word.close(stops);
    Ok(())
}

/// Seats with their texts.
fn seats_of<'p>(
    alloc: Global,
    texts: &[&'p [u8]],
    loose: Vec<LooseSeat>,
) -> Result<Vec<Seat<'p>>, AllocError>
    ensures same { IfOk result (λ seats. map badge seats.items ≡ map badge loose.items) }
    ensures ended { IfOk result (λ seats. All HasEnded loose.items → All HasEnded seats.items) }
{
    let mut seats = Vec::new(alloc);
    let mut texts = texts.iter();
    for seat in loose {
        let text = match texts.next() {
            Some(text) => *text,
            None => &[],
        };
        match seats.push(seat.with_text(text)) {
            Ok(()) => {}
            Err(_) => return Err(AllocError),
        }
    }
    Ok(seats)
}
