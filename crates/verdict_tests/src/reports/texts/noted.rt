//! The notes on a run of two harts.

use assemble::{assemble, line_numbers, source_labels};
use line_memory::Medium;
use machine::{Run, Schedule, Setup};
use program::load;
use report::{Places, notes_text};
use std::alloc::Global;

/// Each hart stores to a line of its own, invalidates it, makes a fence without `w` among its successors, and invalidates the line again.
/// A fence with `w` completes that, and one without it nothing.
const SOURCE: &[u8] = b"slli t0, a0, 6\nadd t0, t0, a1\nsd a0, 0(t0)\ncbo.inval (t0)\nfence w, r\n\
    cbo.inval (t0)\nfence w, w\nfence w, ir\n";

const SCHEDULE: &[u8] = b"h0*4 h1*5 h0*4 h1*3";

const NOTES: &str = "\
note: l0 invalidated at 2 h0 pc=0x1000c line=4 with stores not written back: cbo.inval acts as cbo.flush here, where a processor may lose them\n\
note: l1 invalidated at 4 h1 pc=0x1000c line=4 with stores not written back: cbo.inval acts as cbo.flush here, where a processor may lose them\n\
note: fence at 5 h1 pc=0x10010 line=5 has no w among its successors: a processor lets later stores pass it\n\
note: fence at 6 h0 pc=0x10010 line=5 has no w among its successors: a processor lets later stores pass it\n";

fn run_of(alloc: Global) -> Option<Run> {
    let object = assemble(alloc, SOURCE).ok()?;
    let schedule = Schedule::read(alloc, SCHEDULE).ok()?;
    let setup = Setup {
        program: load(object).ok()?,
        medium: Medium::zero(alloc, 512).ok()?,
        harts: 2,
        capacity: 512,
    };
    Run::record(alloc, setup, &schedule).ok()
}

fn notes_of(alloc: Global) -> Option<String> {
    let object = assemble(alloc, SOURCE).ok()?;
    let places = Places::Source {
        numbers: line_numbers(alloc, SOURCE).ok()?,
        labels: source_labels(alloc, SOURCE).ok()?,
    };
    let run = run_of(alloc)?;
    notes_text(alloc, object.text_bytes(), &run, &places).ok()
}

#[test]
fn invalidates_and_weak_fences_are_noted(rt: HostRuntime) {
    let is_so = match notes_of(rt.alloc()) {
        Some(notes) => notes.as_str() == NOTES,
        None => false,
    };
    assert!(rt; is_so);
}
