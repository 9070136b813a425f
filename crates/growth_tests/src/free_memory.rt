//! Memory by lines and bytes, and a trace with a place in reserve, whose calls take no memory once they are made.

use crate::ending::{Refused, ended, ready};
use crate::samples::zeros;
use line_memory::{Medium, MemFault, Ram};
use std::alloc::Global;
use store_trace::{Event, Trace};

/// Whether a line that is written is read again.
fn is_written(medium: &mut Medium) -> bool {
    if medium.lines() < 512 {
        return false;
    }
    medium.write_line(7, &[5; 64]);
    medium.store(8, 8, 77);
    medium.read_line(7) == &[5; 64] && medium.load(8, 8) == 77 && medium.peek(448) == 5
}

fn written(alloc: Global) -> Result<bool, Refused> {
    let mut medium = zeros(alloc)?;
    Ok(is_written(&mut medium))
}

#[test]
fn medium_without_memory(rt: HostRuntime) -> Result<(), Refused> {
    ended(&rt, written(rt.alloc()))
}

/// Whether bytes of data memory are found again, and an address outside is refused.
fn is_stored(ram: &mut Ram) -> bool {
    ram.store(0x10_0008, 8, 77).is_ok()
        && ram.load(0x10_0008, 8) == Ok(77)
        && ram.peek(0x10_0008) == Some(77)
        && ram.load(0x10_0001, 8) == Err(MemFault::Misaligned)
        && ram.peek(0) == None
}

fn stored(alloc: Global) -> Result<bool, Refused> {
    let mut ram = ready(Ram::from_bytes(alloc, b"text", b"data"))?;
    Ok(is_stored(&mut ram))
}

#[test]
fn ram_without_memory(rt: HostRuntime) -> Result<(), Refused> {
    ended(&rt, stored(rt.alloc()))
}

/// Adds nine events, each with a place in reserve.
fn added(alloc: Global) -> Result<bool, Refused> {
    let mut trace = Trace::new(alloc);
    for op in 0..9 {
        ready(trace.reserve_one())?;
        if trace.push(Event::Begin { hart: 0, op }).is_err() {
            return Ok(false);
        }
    }
    Ok(trace.events().len() == 9)
}

#[test]
fn reserved_events_without_memory(rt: HostRuntime) -> Result<(), Refused> {
    ended(&rt, added(rt.alloc()))
}
