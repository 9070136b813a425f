//! A core and its seats without the lock.

ghost use Rattle.bus.specs.Seating.{AsksNext};

use crate::harts::programs::{FIRST_RUN, REWRITTEN, program_of, zeros};
use bus::{Core, Exchange, Outcome, Seat, StepFault, serve, serve_evict};
use hart::{Reply, Request};
use program::Program;
use std::alloc::Global;

/// The next step of a seat, served where it is a request.
fn step(core: &mut Core<'_>, seat: &mut Seat<'_>) -> Result<Outcome, StepFault> {
    match seat.step_local() {
        Some(outcome) => Ok(outcome),
        None => serve(core, seat),
    }
}

/// What so many steps of the first seat of a core of two harts come to, the last of them.
fn last_outcome(core: &mut Core<'_>, seat: &mut Seat<'_>, count: u32) -> Option<Outcome> {
    let mut last = None;
    for _ in 0..count {
        last = step(core, seat).ok();
    }
    last
}

/// Whether these bytes stand behind the FENCE.I in each seat's copy of the text.
fn stand_behind(seats: &[Seat<'_>], wanted: &[[u8; 4]]) -> bool {
    seats.len() == wanted.len()
        && seats.iter().zip(wanted.iter()).all(|(seat, bytes)| seat.copy().get(28..32)
            == Some(bytes.as_slice()))
}

/// What the first hart comes to after ten steps, and whether its copy is renewed then, and the second hart's isn't.
fn renewal(core: &mut Core<'_>, seats: &mut [Seat<'_>]) -> (Option<Outcome>, bool) {
    let outcome = match seats.first_mut() {
        Some(seat) => last_outcome(core, seat, 10),
        None => None,
    };
    (
        outcome,
        stand_behind(seats, &[[0x13, 0x05, 0x20, 0], [0x13, 0x05, 0x10, 0]]),
    )
}

/// The same of a new core over a program.
fn renewal_by(alloc: Global, program: &Program) -> Option<(Option<Outcome>, bool)> {
    match Core::new(alloc, program, zeros(alloc)?, 2, 512, 10) {
        Ok((mut core, mut seats)) => Some(renewal(&mut core, &mut seats)),
        Err(_) => None,
    }
}

/// The same over the program that writes a word over itself.
fn renewal_by_fence_i(alloc: Global) -> Option<(Option<Outcome>, bool)> {
    let program = program_of(alloc, &REWRITTEN)?;
    renewal_by(alloc, &program)
}

#[test]
fn own_copy_is_renewed(rt: HostRuntime) {
    let renewal = renewal_by_fence_i(rt.alloc());
    assert!(rt; renewal == Some((Some(Outcome::Exited(2)), true)));
}

/// What is seen of a seat: an exchange, the steps since it, and what a step came to.
type Seen = (Option<Exchange>, u32, Option<Outcome>);

/// The first exchange of a seat after three steps, the steps since it, and what a fourth comes to.
fn exchange_after(core: &mut Core<'_>, seat: &mut Seat<'_>) -> Seen {
    let _ = last_outcome(core, seat, 3);
    let spent = last_outcome(core, seat, 1);
    (seat.exchanges().first().copied(), seat.since(), spent)
}

/// The same of the first seat, and whether the last line is evicted then, as the second entry of the core's history.
fn exchange_of(core: &mut Core<'_>, seats: &mut [Seat<'_>]) -> Option<(Seen, bool)> {
    let seen = exchange_after(core, seats.first_mut()?);
    let is_evicted = serve_evict(core, 511).is_ok() && core.history().len() == 2;
    Some((seen, is_evicted))
}

/// The same of a new core over a program.
fn exchange_by(alloc: Global, program: &Program) -> Option<(Seen, bool)> {
    match Core::new(alloc, program, zeros(alloc)?, 1, 1, 3) {
        Ok((mut core, mut seats)) => exchange_of(&mut core, &mut seats),
        Err(_) => None,
    }
}

/// The same over the program of the first run.
fn exchange_and_eviction(alloc: Global) -> Option<(Seen, bool)> {
    let program = program_of(alloc, &FIRST_RUN)?;
    exchange_by(alloc, &program)
}

#[test]
fn a_store_is_exchanged(rt: HostRuntime) {
    let exchange = Exchange {
        steps: 2,
        request: Request::Store {
            address: 0x4000_0000,
            width: 8,
            value: 7,
        },
        reply: Reply::Done,
    };
    let found = exchange_and_eviction(rt.alloc());
    assert!(rt; found == Some(((Some(exchange), 0, Some(Outcome::Spent)), true)));
}
