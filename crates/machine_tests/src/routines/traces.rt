//! The events of a routine's run, where they are kept.

ghost use Rattle.std.specs.Prelude.{◌≡◌, length};

use crate::routines::samples::{image_of, routine_of};
use line_memory::Medium;
use recovery::Routine;
use std::alloc::{AllocError, Global};
use std::test::Fail;
use store_trace::Event;

/// Stores a word to the second line and two bytes to the first one, which it cleans and fences between; a store to data makes no event.
const STORES: &[u8] =
    b"ld t1, 0(a1)\naddi t1, t1, 1\nsd t1, 72(a1)\ncbo.clean (a1)\nfence\nsh t1, 6(a1)\nlui t0, 256\nsd t1, 0(t0)\nli a7, 93\nli a0, 0\necall\n";

/// Its events over an image that has 8 at 0.
static EVENTS: [Event; 4] = [
    Event::Store {
        hart: 0,
        line: 1,
        offset: 8,
        width: 8,
        value: 9,
    },
    Event::Clean { hart: 0, line: 0 },
    Event::Fence { hart: 0 },
    Event::Store {
        hart: 0,
        line: 0,
        offset: 6,
        width: 2,
        value: 9,
    },
];

fn traces_stores(alloc: Global) -> Option<bool> {
    let mut routine = routine_of(alloc, STORES)?;
    traces_over_eight(alloc, &mut routine)
}

fn traces_over_eight(alloc: Global, routine: &mut Routine) -> Option<bool>
    requires { routine.old.lines ≡ 512 }
{
    let image = image_of(alloc, &[(0, 8)])?;
    traces_twice(alloc, routine, &image).ok()
}

/// Whether a run that is cut short makes the first of the events, and a whole run then all.
fn traces_twice(alloc: Global, routine: &mut Routine, image: &Medium) -> Result<bool, AllocError>
    requires routine { routine.old.lines ≡ 512 }
    requires image { length image.now ≡ 512 }
{
    let short = has_made(alloc, routine, image, 3, 1)?;
    let whole = has_made(alloc, routine, image, 99, EVENTS.len())?;
    Ok(short && whole)
}

/// Whether a run of so many steps makes so many of the events.
fn has_made(
    alloc: Global,
    routine: &mut Routine,
    image: &Medium,
    steps: u32,
    count: usize,
) -> Result<bool, AllocError>
    requires routine { routine.old.lines ≡ 512 }
    requires image { length image.now ≡ 512 }
    ensures { routine.new.lines ≡ 512 }
{
    let run = routine.run_traced(alloc, image, steps)?;
    let events = run.trace.events();
    Ok(
        events.len() == count
            && events
                .iter()
                .zip(&EVENTS)
                .all(|(made, expected)| made == expected),
    )
}

#[test]
fn events_are_kept(rt: HostRuntime) -> Result<(), Fail> {
    assert_eq!(rt; traces_stores(rt.alloc()), Some(true));
    Ok(())
}
