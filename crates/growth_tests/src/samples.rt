//! Programs, media and traces, which the tests hand to the calls.

use crate::ending::{Refused, ready};
use assemble::assemble;
use bus::{Bus, Seat};
use line_memory::Medium;
use machine::{Machine, StepFault};
use nova_log::{Layout, mkfs};
use program::{Object, Program, load};
use std::alloc::Global;
use store_trace::{Event, Trace};

/// The file of `addi x1, x0, 5`.
pub(crate) const FIVE: &[u8] = b"RVXPROG1\x04\0\0\0\0\0\0\0\x93\0\x50\0";

/// The file of `ld x5, 0(x11)`; `add x6, x5, x6`; `sd x6, -8(x2)`; `jal x0, .-12`: no step makes an event.
pub(crate) const LOADS: &[u8] =
    b"RVXPROG1\x10\0\0\0\0\0\0\0\x83\xb2\x05\0\x33\x83\x62\0\x23\x3c\x61\xfe\x6f\xf0\x5f\xff";

/// The file of `addi x5, x0, 1`; `addi x6, x11, 320`; `sd x5, 0(x6)`; `addi x5, x5, 1`; `sd x5, 0(x6)`; `cbo.clean (x6)`;
/// `addi x5, x5, 1`; `sd x5, 0(x6)`; `fence w, w`.
pub(crate) const TWO_IMAGES: &[u8] =
    b"RVXPROG1\x24\0\0\0\0\0\0\0\x93\x02\x10\0\x13\x83\x05\x14\x23\x30\x53\0\x93\x82\x12\0\x23\x30\x53\0\
    \x0f\x20\x13\0\x93\x82\x12\0\x23\x30\x53\0\x0f\0\x10\x01";

/// The file of `amoadd.d x5, x6, (x11)`; `jal x0, .-4`: every other step is a request, with an event.
pub(crate) const COUNTS: &[u8] = b"RVXPROG1\x08\0\0\0\0\0\0\0\xaf\xb2\x65\0\x6f\xf0\xdf\xff";

/// The file of `addi x5, x5, 1`; `jal x0, .-4`: no step is a request.
pub(crate) const REGISTERS: &[u8] = b"RVXPROG1\x08\0\0\0\0\0\0\0\x93\x82\x12\0\x6f\xf0\xdf\xff";

/// Appends value 77 to the log of inode 0 as operation 1, in 22 steps.
pub(crate) const APPENDS: &[u8] =
    b"li a7, 2001\nli a0, 1\necall\nld t0, 72(a1)\nadd t1, a1, t0\nli t2, 1\nsd t2, 0(t1)\nsd t2, 8(t1)\n\
    li t3, 77\nsd t3, 16(t1)\ncbo.clean (t1)\nfence w, w\naddi t0, t0, 64\nsd t0, 72(a1)\naddi t4, a1, 64\ncbo.clean (t4)\n\
    fence w, w\nli a7, 2002\necall\nli a7, 93\nli a0, 0\necall\n";

/// A thousand additions to one doubleword by each hart, which makes 3,005 steps.
pub(crate) const COUNTER: &[u8] =
    b"li t0, 1000\nli t1, 1\nloop: amoadd.d zero, t1, (a1)\naddi t0, t0, -1\nbnez t0, loop\n\
    li a7, 93\nli a0, 0\necall\n";

/// The program of an object's file.
pub(crate) fn program_of(alloc: Global, file: &[u8]) -> Result<Program, Refused> {
    let object = ready(Object::read(alloc, file))?;
    ready(load(object))
}

/// The program of a source.
pub(crate) fn assembled(alloc: Global, source: &[u8]) -> Result<Program, Refused> {
    let object = ready(assemble(alloc, source))?;
    ready(load(object))
}

/// 512 lines of zeros.
pub(crate) fn zeros(alloc: Global) -> Result<Medium, Refused> {
    ready(Medium::zero(alloc, 512))
}

/// A new volume of one inode with one page.
pub(crate) fn new_volume(alloc: Global) -> Result<Medium, Refused> {
    ready(mkfs(alloc, Layout::One, 1, 1, 1, 512))
}

/// Makes a machine over a medium. Only the growths of making the machine itself are those of a call.
pub(crate) fn machine_of(
    alloc: Global,
    program: Program,
    medium: Medium,
    harts: u32,
) -> Result<Machine, Refused> {
    match Machine::new(alloc, program, medium, harts, 16) {
        Ok(machine) => Ok(machine),
        Err(StepFault::Memory) => Err(Refused::Call),
        Err(_) => Err(Refused::SetUp),
    }
}

/// A bus of two harts over zeros, each of which may make this many steps, with their seats.
pub(crate) fn bus_of(
    alloc: Global,
    program: &Program,
    budget: u32,
) -> Result<(Bus<'_>, Vec<Seat<'_>>), Refused> {
    let medium = zeros(alloc)?;
    ready(Bus::new(alloc, program, medium, 2, 16, budget))
}

/// An event of hart 0. A store writes eight bytes at an offset of a line.
#[derive(Clone, Copy)]
enum Made {
    Store(u32, u8, u64),
    Clean(u32),
    Fence,
    Begin(u64),
    End(u64),
}

/// The events of the run that appends.
const APPEND: [Made; 10] = [
    Made::Begin(1),
    Made::Store(256, 0, 1),
    Made::Store(256, 8, 1),
    Made::Store(256, 16, 77),
    Made::Clean(256),
    Made::Fence,
    Made::Store(1, 8, 16_448),
    Made::Clean(1),
    Made::Fence,
    Made::End(1),
];

/// The trace of the run that appends.
pub(crate) fn append_trace(alloc: Global) -> Result<Trace, Refused> {
    let mut trace = Trace::new(alloc);
    for made in &APPEND {
        let event = match *made {
            Made::Store(line, offset, value) if offset % 8 == 0 && offset < 64 => Event::Store {
                hart: 0,
                line,
                offset,
                width: 8,
                value,
            },
            Made::Store(..) => return Err(Refused::SetUp),
            Made::Clean(line) => Event::Clean { hart: 0, line },
            Made::Fence => Event::Fence { hart: 0 },
            Made::Begin(op) => Event::Begin { hart: 0, op },
            Made::End(op) => Event::End { hart: 0, op },
        };
        ready(trace.push(event))?;
    }
    Ok(trace)
}
