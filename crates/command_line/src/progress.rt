//! Standard error, which gets on the way how far a verdict has come.

ghost use Rattle.command_line.specs.Progress.{WritesLine, progress_line, states_line};
ghost use Rattle.std.specs.Prelude.{◌≡◌, ◌<◌, ℕ, List, IfOk, string_bytes};
ghost use Rattle.std.specs.Result.{is_ok};

use crate::streams::print;
use crash_test::Progress;
use debugger::Failed;
use every_schedule::Watcher;
use std::alloc::{AllocError, Global};
use std::io::Write;
use std::time::{Clock, Duration, Instant};

/// Standard error, which gets a line now and then where lines are wanted.
#[derive(Drop)]
pub(crate) struct Reporter<'a, C, E> {
    alloc: Global,
    clock: &'a C,
    pub(crate) errors: &'a mut E,
    /// Lines are asked for, and none has failed.
    pub(crate) is_wanted: bool,
    pace: Pace,
}

impl<'a, C: Clock, E: Write> Reporter<'a, C, E> {
    /// With so many workers, each of whom judges a moment at least before the clock is looked at.
    pub(crate) fn new(
        alloc: Global,
        clock: &'a C,
        errors: &'a mut E,
        is_wanted: bool,
        workers: u32,
    ) -> Reporter<'a, C, E>
        requires { 0 < workers }
        ensures same { result.errors.ghost_name ≡ errors.entry.ghost_name }
        ensures errors { result.errors.now ≡ errors.old }
        ensures wanted { result.is_wanted ≡ is_wanted }
    {
        Reporter {
            alloc,
            clock,
            errors,
            is_wanted,
            pace: Pace::new(clock, workers),
        }
    }
}

impl<C: Clock, E: Write> Progress for Reporter<'_, C, E> {
    ghost use Rattle.command_line.specs.Progress.{WritesIf, progress_line};
    ghost use Rattle.std.specs.Prelude.{◌≡◌};

    ghost hears = { λ before moment moments images after. (after.errors.ghost_name ≡ before.errors.ghost_name)
        × WritesIf E.contents (progress_line moment moments images) before.is_wanted before.errors.now after.is_wanted after.errors.now };

    fn stride(&self) -> u32 {
        if self.is_wanted {
            self.pace.stride
        } else {
            u32::MAX
        }
    }

    fn hear(&mut self, moment: u32, moments: u32, images: Option<u64>) {
        if self.is_wanted && self.pace.is_due(self.clock) {
            let line = progress_line(self.alloc, moment, moments, images);
            self.is_wanted = tell(line, self.errors).is_ok();
        }
    }
}

impl<C: Clock, E: Write> Watcher for Reporter<'_, C, E> {
    ghost use Rattle.command_line.specs.Progress.{WritesIf, states_line};
    ghost use Rattle.std.specs.Prelude.{◌≡◌};

    ghost hears = { λ before met waiting bytes after. (after.errors.ghost_name ≡ before.errors.ghost_name)
        × WritesIf E.contents (states_line met waiting bytes) before.is_wanted before.errors.now after.is_wanted after.errors.now };

    fn hear(&mut self, met: usize, waiting: usize, bytes: u128) {
        if self.is_wanted && self.pace.is_due_in_its_stride(self.clock) {
            let line = states_line(self.alloc, met, waiting, bytes);
            self.is_wanted = tell(line, self.errors).is_ok();
        }
    }
}

/// Writes a line. Where memory for it was refused nothing is written.
fn tell<E: Write>(line: Result<String, AllocError>, errors: &mut E) -> Result<(), Failed>
    ensures { (text : List ℕ) → IfOk line (λ line. string_bytes line ≡ text) → WritesLine text (E.contents errors.old) (E.contents errors.new) (is_ok result) }
{
    match line {
        Ok(line) => print(line.as_bytes(), errors),
        Err(_) => Ok(()),
    }
}

/// `moment M of N, images I`, or `images over` where a moment has over 65,536.
fn progress_line(
    alloc: Global,
    moment: u32,
    moments: u32,
    images: Option<u64>,
) -> Result<String, AllocError>
    ensures { IfOk result (λ line. string_bytes line ≡ progress_line moment moments images) }
{
    match images {
        Some(images) => format!(in alloc; "moment {moment} of {moments}, images {images}\n"),
        None => format!(in alloc; "moment {moment} of {moments}, images over\n"),
    }
}

/// `states N, waiting N, bytes N`: how many were met, how many of those the search hasn't come to yet, and how many bytes its tables hold.
fn states_line(alloc: Global, met: usize, waiting: usize, bytes: u128) -> Result<String, AllocError>
    ensures { IfOk result (λ line. string_bytes line ≡ states_line met waiting bytes) }
{
    format!(in alloc; "states {met}, waiting {waiting}, bytes {bytes}\n")
}

/// The least time from a line to the next, in milliseconds.
const PAUSE: u128 = 500;

/// Where moments or states take longer than that, fewer of them are judged before the clock is looked at again, and else more: in milliseconds.
const LONG: u128 = 100;

/// The most moments or states that are judged before the clock is looked at.
const LONGEST_STRIDE: u32 = 65_536;

/// When the next line is due, and how many moments or states are judged before the clock is looked at.
#[derive(Clone, Copy)]
struct Pace {
    /// The time of the last line, or that of the beginning; None where the clock failed, and then no line is ever due.
    told: Option<Instant>,
    /// The time of the last look.
    looked: Option<Instant>,
    stride: u32,
    /// How many states were judged since then.
    judged: u32,
    /// The number of workers: with fewer moments at once one of them would have none.
    workers: u32,
    ghost some: { 0 < stride },
    ghost busy: { 0 < workers },
}

impl Pace {
    /// That of so many workers, who judge at least one moment each before the clock is looked at.
    fn new<T: Clock>(clock: &T, workers: u32) -> Pace
        requires { 0 < workers }
    {
        let now = Instant::now(clock).ok();
        Pace {
            told: now,
            looked: now,
            stride: workers,
            judged: 0,
            workers,
        }
    }

    /// Counts a state that was judged, and looks at the clock where a stride of them is made.
    fn is_due_in_its_stride<T: Clock>(&mut self, clock: &T) -> bool {
        self.judged = self.judged.saturating_add(1);
        if self.judged < self.stride {
            return false;
        }
        self.judged = 0;
        self.is_due(clock)
    }

    /// Looks at the clock.
    fn is_due<T: Clock>(&mut self, clock: &T) -> bool {
        let now = Instant::now(clock).ok();
        let is_long = matches!(since(self.looked, now), Some(time) if time.as_millis() >= LONG);
        self.stride = if is_long {
            (self.stride / 2).max(self.workers)
        } else {
            self.stride.saturating_mul(2).min(LONGEST_STRIDE)
        };
        self.looked = now;
        let is_due = matches!(since(self.told, now), Some(time) if time.as_millis() >= PAUSE);
        if is_due {
            self.told = now;
        }
        is_due
    }
}

/// The time between two looks at the clock.
fn since(earlier: Option<Instant>, now: Option<Instant>) -> Option<Duration> {
    Some(now?.duration_since(earlier?))
}
