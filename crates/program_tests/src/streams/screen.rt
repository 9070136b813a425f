//! A standard output that fails.

use std::alloc::Global;
use std::io;
use std::io::{ErrorKind, Write};

/// A writer that has room for so many bytes and takes at most so many at once, is interrupted before each write, and shows what
/// it holds once it is flushed, which it can be so many times.
#[derive(Drop)]
pub(crate) struct Screen {
    pub(crate) held: Vec<u8>,
    pub(crate) shown: usize,
    pub(crate) flushes: usize,
    room: usize,
    at_once: usize,
    flushes_left: usize,
    is_interrupted: bool,
}

impl Screen {
    pub(crate) fn new(alloc: Global, room: usize, at_once: usize, flushes_left: usize) -> Screen {
        Screen {
            held: Vec::new(alloc),
            shown: 0,
            flushes: 0,
            room,
            at_once,
            flushes_left,
            is_interrupted: false,
        }
    }
}

impl Write for Screen {
    fn write(&mut self, buf: &[u8]) -> io::Result<usize> {
        self.is_interrupted = !self.is_interrupted;
        if self.is_interrupted {
            return Err(io::Error::from(ErrorKind::Interrupted));
        }
        let count = self.room.min(self.at_once).min(buf.len());
        self.room -= count;
        match self.held.extend_from_slice(&buf[..count]) {
            Ok(()) => Ok(count),
            Err(_) => Err(io::Error::from(ErrorKind::OutOfMemory)),
        }
    }

    fn flush(&mut self) -> io::Result<()> {
        if self.flushes_left == 0 {
            return Err(io::Error::from(ErrorKind::StorageFull));
        }
        self.flushes_left -= 1;
        self.shown = self.held.len();
        self.flushes = self.flushes.saturating_add(1);
        Ok(())
    }
}
