//! Standard output and standard error that can't be written.

use crate::streams::folder::{Folder, status_of};
use crate::streams::screen::Screen;
use std::alloc::AllocError;
use std::io;
use std::io::{ErrorKind, Write};
use std::sync::Wait;
use std::test::Fail;
use std::thread::Threads;
use std::time::Clock;

const EMPTY_REPORT: &str = "h0 trap T1 pc=0x10000 x2=0x200000 x11=0x40000000\nevents 0\n";

/// How the run of an empty program ends, whose standard output has room for so many bytes, one at a time, and can be flushed so
/// many times: the status, how many bytes of its report are held and how many shown, and whether standard error says `file`; None
/// where what is held is no front of the report.
fn ends_after<R: Threads + Wait + Sync + Clock + AllocGlobal>(
    rt: &R,
    room: usize,
    flushes: usize,
) -> Result<Option<(u8, usize, usize, bool)>, AllocError> {
    let alloc = rt.alloc();
    let mut folder = Folder::new(alloc);
    let mut output = Screen::new(alloc, room, 1, flushes);
    let mut errors = Vec::new(alloc);
    let line = "novacrash run empty.s";
    let input = &mut io::empty();
    let status = status_of(rt, &mut folder, line, input, &mut output, &mut errors)?;
    if !EMPTY_REPORT.as_bytes().starts_with(&output.held) {
        return Ok(None);
    }
    let is_told = errors.as_slice() == b"file\n".as_slice();
    Ok(Some((status, output.held.len(), output.shown, is_told)))
}

/// Each write is interrupted before it is made.
#[test]
fn failing_output_is_a_file_fault(rt: HostRuntime) -> Result<(), Fail> {
    let whole = EMPTY_REPORT.len();
    for room in 0..whole {
        assert_eq!(rt;
            ends_after(&rt, room, 1)?,
            Some((5, room, 0, true)),
            "{room} bytes"
        );
    }
    assert_eq!(rt; ends_after(&rt, whole, 1)?, Some((0, whole, whole, false)));
    assert_eq!(rt; ends_after(&rt, whole, 0)?, Some((5, whole, 0, true)));
    Ok(())
}

/// A writer that can't be written.
#[derive(Drop)]
struct Failing;

impl Write for Failing {
    fn write(&mut self, _buf: &[u8]) -> io::Result<usize> {
        Err(io::Error::from(ErrorKind::StorageFull))
    }

    fn flush(&mut self) -> io::Result<()> {
        Ok(())
    }
}

#[test]
fn failing_errors_leave_the_status(rt: HostRuntime) -> Result<(), Fail> {
    let mut folder = Folder::new(rt.alloc());
    let mut output = Vec::new(rt.alloc());
    let line = "novacrash run fault.s";
    let input = &mut io::empty();
    let status = status_of(&rt, &mut folder, line, input, &mut output, &mut Failing)?;
    assert_eq!(rt; (status, output.len()), (2, 0));
    Ok(())
}
