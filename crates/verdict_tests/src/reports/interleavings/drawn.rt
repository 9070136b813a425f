//! Schedules that are drawn.

use crate::reports::sources::{ENDLESS, FENCES, STORES, machine_of};
use random_schedule::{InterleaveFault, interleave};
use std::alloc::Global;
use std::test::Fail;

/// What a schedule is drawn for: a source and the number of its harts, the seed, the most steps, and the evictions.
#[derive(Clone, Copy)]
struct Draw(&'static [u8], u32, u64, u32, u32);

/// Draws with their schedules, by a program of another language that draws as splitmix64.c does.
static DRAWN: [(Draw, &str); 10] = [
    (Draw(STORES, 1, 1, 1_000_000, 0), "h0*25"),
    (Draw(STORES, 2, 0, 1_000_000, 0), "h1*25 h0*25"),
    (
        Draw(STORES, 3, 1_234_567, 1_000_000, 4),
        "h0*22 h2*4 e2 h2*3 h0*3 h1*2 e0 h1*6 e0 h1*3 h2*2 h1*14 h2*12 e1 h2*4",
    ),
    (
        Draw(STORES, 2, u64::MAX, 30, 2),
        "h0*10 e0 h1*3 h0*4 h1*5 h0*6 e1 h0*2",
    ),
    (
        Draw(STORES, 8, 5, 1_000_000, 1),
        "h2*9 h7*6 h5*5 h1*12 h0*4 h7*13 h3*14 h7*6 h5*12 h4*21 h1*13 h4*4 h3*2 h5*4 e7 h5*4 h6*21 h3*9 h6*4 h0*3 h2*16 h0*18",
    ),
    (Draw(STORES, 2, 9, 2, 3), "h0*2"),
    (
        Draw(STORES, 2, 7, 1_000_000, 9),
        "h1*8 e1 h1*1 e1 h1*4 h0*19 e0 h0*1 e1 h0*1 e0 e0 h0*1 e0 h0*3 h1*4 e2 h1*3 e1 h1*5",
    ),
    (Draw(STORES, 2, 3, 0, 5), ""),
    (Draw(ENDLESS, 1, 2, 7, 5), "h0*7"),
    (
        Draw(ENDLESS, 3, 2, 100, 5),
        "h1*3 h0*5 h1*4 h2*4 h0*13 h2*23 h1*10 h2*25 h0*7 h1*4 h0*2",
    ),
];

/// The text of the schedule that is drawn.
fn text_of(alloc: Global, draw: &Draw) -> Result<String, InterleaveFault> {
    let Draw(source, harts, seed, steps, evictions) = *draw;
    let Some(machine) = machine_of(alloc, source, harts) else {
        return Err(InterleaveFault::Memory);
    };
    let schedule = interleave(alloc, machine, seed, steps, evictions)?;
    match schedule.write(alloc) {
        Ok(text) => Ok(text),
        Err(_) => Err(InterleaveFault::Memory),
    }
}

fn is_drawn(alloc: Global, draw: &Draw, expected: &str) -> bool {
    match text_of(alloc, draw) {
        Ok(text) => text.as_str() == expected,
        Err(_) => false,
    }
}

#[test]
fn schedules_are_those_of_their_seeds(rt: HostRuntime) -> Result<(), Fail> {
    let differing = DRAWN
        .iter()
        .position(|(draw, expected)| !is_drawn(rt.alloc(), draw, expected));
    assert_eq!(rt; differing, None);
    Ok(())
}

/// Why there is no schedule of fences by one hart with so many steps.
fn fault_of_fences(alloc: Global, steps: u32) -> Option<InterleaveFault> {
    text_of(alloc, &Draw(FENCES, 1, 0, steps, 0)).err()
}

#[test]
fn full_traces_are_told(rt: HostRuntime) {
    let none = fault_of_fences(rt.alloc(), 131_072);
    assert_eq!(rt; none, None);
    let full = fault_of_fences(rt.alloc(), 131_073);
    assert_eq!(rt; full, Some(InterleaveFault::TraceFull));
}

#[test]
fn faults_are_told_by_their_codes(rt: HostRuntime) -> Result<(), Fail> {
    let full = format!(in rt.alloc(); "{}", InterleaveFault::TraceFull)?;
    assert_eq!(rt; full.as_str(), "G4");
    let memory = format!(in rt.alloc(); "{}", InterleaveFault::Memory)?;
    assert_eq!(rt; memory.as_str(), "G5");
    Ok(())
}
