//! Checks that tell on standard error how far they have come, where it can't be written, under a clock that goes on by a second at
//! each look.

use crate::streams::folder::{Folder, status_of};
use crate::streams::screen::Screen;
use std::alloc::{AllocError, Global};
use std::io;
use std::sync::Wait;
use std::sync::atomic::{AtomicU32, Ordering};
use std::test::Fail;
use std::thread::Threads;
use std::time::{Clock, Duration};

/// A runtime with such a clock.
#[derive(Drop)]
struct Hurried<'a, R> {
    rt: &'a R,
    looks: AtomicU32,
}

impl<R: Threads> Threads for Hurried<'_, R> {}

impl<R: Wait> Wait for Hurried<'_, R> {}

impl<R: AllocGlobal> Alloc for Hurried<'_, R> {
    type A = Global;

    fn alloc(&self) -> Global {
        self.rt.alloc()
    }
}

impl<R> Clock for Hurried<'_, R> {
    fn monotonic(&self) -> io::Result<Duration> {
        let looks = self.looks.fetch_add(1, Ordering::SeqCst);
        Ok(Duration::from_secs(u64::from(looks)))
    }

    fn since_1970(&self) -> io::Result<Duration> {
        self.monotonic()
    }
}

/// How the check of the append ends, where standard error has room for so many bytes: its status, how many bytes it prints, and how many of
/// those that it tells are held.
fn ends_with_room<R: Threads + Wait + Sync + Clock + AllocGlobal>(
    rt: &R,
    room: usize,
) -> Result<(u8, usize, usize), AllocError> {
    let alloc = rt.alloc();
    let mut folder = Folder::new(alloc);
    let mut output = Vec::new(alloc);
    let mut errors = Screen::new(alloc, room, 7, 100);
    let line = "novacrash mkfs append.plan 512 m";
    let input = &mut io::empty();
    status_of(rt, &mut folder, line, input, &mut output, &mut errors)?;
    output.clear();
    let line = "novacrash check append.plan append.s append.schedule --medium m --progress";
    let status = status_of(rt, &mut folder, line, input, &mut output, &mut errors)?;
    Ok((status, output.len(), errors.held.len()))
}

/// The lines have 284 bytes.
#[test]
fn failing_errors_leave_the_verdict(rt: HostRuntime) -> Result<(), Fail> {
    let hurried = Hurried {
        rt: &rt,
        looks: AtomicU32::new(0),
    };
    for room in [0, 1, 25, 30, 283, 284, 300] {
        assert_eq!(rt;
            ends_with_room(&hurried, room)?,
            (0, 26, room.min(284)),
            "{room} bytes"
        );
    }
    Ok(())
}
