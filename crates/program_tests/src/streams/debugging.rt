//! Sessions of the debugger over standard input and output that fail.

use crate::streams::folder::{Folder, status_of};
use crate::streams::screen::Screen;
use std::alloc::AllocError;
use std::io;
use std::io::Read;
use std::sync::Wait;
use std::test::Fail;
use std::thread::Threads;
use std::time::Clock;

/// The line of hart 0 after its first step, and those after each of two.
const ONE_STEP: &str = "h0 running pc=0x10004 x2=0x200000 x5=0x7 x11=0x40000000\n";

const TWO_STEPS: &str = "h0 running pc=0x10004 x2=0x200000 x5=0x7 x11=0x40000000\n\
    h0 running pc=0x10008 x2=0x200000 x5=0x7 x6=0x40000000 x11=0x40000000\n";

/// A reader that gives so many bytes at a time, is interrupted before each read, and fails at the read of this number.
#[derive(Drop)]
struct Keyboard<'a> {
    text: &'a [u8],
    at_once: usize,
    left: usize,
    is_interrupted: bool,
}

impl Read for Keyboard<'_> {
    fn read(&mut self, buf: &mut [u8]) -> io::Result<usize> {
        self.is_interrupted = !self.is_interrupted;
        if self.is_interrupted {
            return Err(io::Error::from(io::ErrorKind::Interrupted));
        }
        if self.left == 0 {
            return Err(io::Error::from(io::ErrorKind::TimedOut));
        }
        self.left -= 1;
        let count = self.at_once.min(self.text.len()).min(buf.len());
        let (front, rest) = self.text.split_at(count);
        buf[..count].copy_from_slice(front);
        self.text = rest;
        Ok(count)
    }
}

/// The ways in which the standard streams of a session fail: how many reads, bytes of writes and flushes go well.
#[derive(Clone, Copy)]
struct Going {
    line: &'static str,
    reads: usize,
    room: usize,
    flushes: usize,
}

/// How a session of two steps ends: its status, how many of their bytes are held and how many shown, by how many flushes, and
/// whether standard error says `file`.
#[derive(Clone, Copy, Debug, PartialEq, Eq)]
struct Ended {
    status: u8,
    held: usize,
    shown: usize,
    flushes: usize,
    is_told: bool,
}

/// The end of a session whose standard input gives a line at each read; None where its standard output doesn't hold the front of what
/// is expected.
fn end_of<R: Threads + Wait + Sync + Clock + AllocGlobal>(
    rt: &R,
    going: Going,
) -> Result<Option<Ended>, AllocError> {
    let alloc = rt.alloc();
    let mut input = Keyboard {
        text: b"step 0\nstep 0\n",
        at_once: 7,
        left: going.reads,
        is_interrupted: false,
    };
    let mut output = Screen::new(alloc, going.room, 5, going.flushes);
    let mut errors = Vec::new(alloc);
    let mut folder = Folder::new(alloc);
    let status = status_of(
        rt,
        &mut folder,
        going.line,
        &mut input,
        &mut output,
        &mut errors,
    )?;
    if !TWO_STEPS.as_bytes().starts_with(&output.held) {
        return Ok(None);
    }
    Ok(Some(Ended {
        status,
        held: output.held.len(),
        shown: output.shown,
        flushes: output.flushes,
        is_told: errors.as_slice() == b"file\n".as_slice(),
    }))
}

#[test]
fn failing_streams_end_a_session(rt: HostRuntime) -> Result<(), Fail> {
    let (one, two) = (ONE_STEP.len(), TWO_STEPS.len());
    // How many reads, bytes and flushes go well; the status, the bytes held and shown, the flushes, and what is told.
    let sessions = [
        ((0, two, 9), (5, 0, 0, 0, true)),
        ((1, two, 9), (5, one, one, 1, true)),
        ((2, two, 9), (5, two, two, 2, true)),
        ((3, two, 9), (0, two, two, 2, false)),
        ((3, two - 1, 9), (5, two - 1, one, 1, true)),
        ((3, one + 1, 9), (5, one + 1, one, 1, true)),
        ((3, 0, 9), (5, 0, 0, 0, true)),
        ((3, two, 0), (5, one, 0, 0, true)),
        ((3, two, 1), (5, two, one, 1, true)),
        ((3, two, 2), (0, two, two, 2, false)),
    ];
    for ((reads, room, flushes), (status, held, shown, flushed, is_told)) in sessions {
        let going = Going {
            line: "novacrash debug first.s",
            reads,
            room,
            flushes,
        };
        let expected = Ended {
            status,
            held,
            shown,
            flushes: flushed,
            is_told,
        };
        assert_eq!(rt;
            end_of(&rt, going)?,
            Some(expected),
            "{reads} {room} {flushes}"
        );
    }
    Ok(())
}

/// A program that is refused begins no session.
#[test]
fn a_refused_program_has_no_session(rt: HostRuntime) -> Result<(), Fail> {
    let going = Going {
        line: "novacrash debug fault.s",
        reads: 0,
        room: 0,
        flushes: 0,
    };
    let expected = Ended {
        status: 2,
        held: 0,
        shown: 0,
        flushes: 0,
        is_told: false,
    };
    assert_eq!(rt; end_of(&rt, going)?, Some(expected));
    Ok(())
}
