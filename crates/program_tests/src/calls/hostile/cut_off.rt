//! Routines whose power is cut after each number of steps, over caches of one line, of two and of many: what is left is an
//! image of the moment of the events made so far.

use crash_image::Cuts;
use crash_test::load_program;
use line_memory::Medium;
use machine::{Item, Recorded, Schedule, record};
use nova_log::{Layout, mkfs};
use program::Program;
use std::alloc::Global;

/// A routine on a new volume of 512 lines with so many inodes and pages, its steps up to its exit, and how many events it makes.
struct Routine {
    source: &'static str,
    inodes: u32,
    steps: u32,
    events: usize,
}

/// The append of one entry to one log, and the rename from one log to another, as the program has them as files.
static ROUTINES: [Routine; 2] = [
    Routine {
        source: "li a7, 2001\nli a0, 1\necall\nld t0, 72(a1)\nadd t1, a1, t0\nli t2, 1\nsd t2, 0(t1)\nsd t2, 8(t1)\n\
            li t3, 77\nsd t3, 16(t1)\ncbo.clean (t1)\nfence w, w\naddi t0, t0, 64\nsd t0, 72(a1)\naddi t4, a1, 64\ncbo.clean (t4)\n\
            fence w, w\nli a7, 2002\necall\nli a7, 93\nli a0, 0\necall\n",
        inodes: 1,
        steps: 22,
        events: 10,
    },
    Routine {
        source: "li a7, 2001\nli a0, 1\necall\nld t0, 72(a1)\nld t1, 136(a1)\nadd t2, a1, t0\nadd t3, a1, t1\nli t4, 1\n\
            li t5, 9\nli t6, 97\nli a2, 0x103\nsd a2, 0(t2)\nsd t4, 8(t2)\nsd t5, 16(t2)\nsd t6, 24(t2)\nli a2, 0x102\nsd a2, 0(t3)\n\
            sd t4, 8(t3)\nsd t5, 16(t3)\nsd t6, 24(t3)\ncbo.clean (t2)\ncbo.clean (t3)\nfence w, w\nlui a3, 2\nadd a3, a3, a1\n\
            addi a4, a3, 64\naddi a5, a3, 128\nsd zero, 0(a4)\nsd t0, 8(a4)\nsd t4, 0(a5)\nsd t1, 8(a5)\ncbo.clean (a4)\ncbo.clean (a5)\n\
            fence w, w\nli a2, 2\nsd a2, 8(a3)\ncbo.clean (a3)\nfence w, w\naddi t0, t0, 64\naddi t1, t1, 64\nsd t0, 72(a1)\n\
            sd t1, 136(a1)\naddi a4, a1, 64\naddi a5, a1, 128\ncbo.clean (a4)\ncbo.clean (a5)\nfence w, w\nsd a2, 0(a3)\ncbo.clean (a3)\n\
            fence w, w\nli a7, 2002\necall\nli a7, 93\nli a0, 0\necall\n",
        inodes: 2,
        steps: 55,
        events: 31,
    },
];

fn loaded(alloc: Global, routine: &Routine) -> Option<(Program, Medium)> {
    let program = load_program(alloc, routine.source.as_bytes()).ok()?;
    let medium = mkfs(alloc, Layout::One, routine.inodes, routine.inodes, 1, 512).ok()?;
    Some((program, medium))
}

/// The run of so many steps, with what a power cut leaves behind them.
fn cut_off(alloc: Global, routine: &Routine, capacity: u32, steps: u32) -> Option<Recorded> {
    let (program, medium) = loaded(alloc, routine)?;
    let mut schedule = Schedule::new(alloc);
    if steps > 0 {
        schedule
            .push(Item::Steps {
                hart: 0,
                count: steps,
            })
            .ok()?;
    }
    record(alloc, program, medium, 1, capacity, &schedule).ok()
}

/// Whether what is left is an image of the moment of all events.
fn leaves_an_image(alloc: Global, recorded: &Recorded) -> bool {
    let moment = recorded.trace().events().len() as u32;
    match Cuts::at(alloc, recorded.start(), recorded.trace(), moment) {
        Ok(cuts) => matches!(cuts.find(alloc, recorded.left()), Ok(Some(_))),
        Err(_) => false,
    }
}

/// The first number of steps after which something else than an image is left.
fn first_other(alloc: Global, routine: &Routine, capacity: u32) -> Option<u32> {
    (0..routine.steps.saturating_add(1)).find(|steps| {
        match cut_off(alloc, routine, capacity, *steps) {
            Some(recorded) => !leaves_an_image(alloc, &recorded),
            None => true,
        }
    })
}

/// How many events the whole run makes.
fn events_of(alloc: Global, routine: &Routine) -> Option<usize> {
    let recorded = cut_off(alloc, routine, 512, routine.steps)?;
    Some(recorded.trace().events().len())
}

#[test]
fn every_step_leaves_an_image(rt: HostRuntime) {
    for routine in &ROUTINES {
        let others = [1, 2, 512].map(|capacity| first_other(rt.alloc(), routine, capacity));
        let events = events_of(rt.alloc(), routine);
        assert!(rt;
            others == [None; 3] && events == Some(routine.events),
            "{others:?} {events:?}"
        );
    }
}
