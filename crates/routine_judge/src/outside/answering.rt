//! Who gives the answers of an outside recovery.

ghost use Rattle.line_memory.specs.Lines.{line_at};
ghost use Rattle.routine_judge.specs.OutsideViews.{known_image};
ghost use Rattle.std.specs.Prelude.{◌≡◌, ◌<◌, length, slice_index};
ghost use Rattle.store_trace.specs.Floor.{floor};
ghost use Rattle.store_trace.specs.History.{at_moment};

use crate::outside::reply::Reply;
use crash_image::TraceIndex;
use line_memory::Medium;
use std::marker::Model;

/// An image of a moment that is asked for: each line stands after a number of its first stores.
///
/// A contract sees the lines that the events started from, the events, the moment, and the numbers, one for each line.
#[derive(Drop)]
pub struct Wanted<'a, 'b> {
    pub(crate) medium: &'a Medium,
    pub(crate) index: &'a TraceIndex<'b>,
    pub(crate) moment: u32,
    pub(crate) numbers: &'a [u32],
}

impl<'a, 'b> Model for Wanted<'a, 'b> {
    ghost use Rattle.routine_judge.specs.OutsideViews.{AreNumbersAt, WantedView};
    ghost use Rattle.std.specs.Prelude.{◌≡◌, ◌≤◌, length};

    ghost Value = { WantedView };

    ghost view = { λ w. record { start = w.medium.now; events = w.index.now.events; moment = w.moment; numbers = w.numbers.now } };

    ghost invariant = { λ w. (w.index.now.start ≡ w.medium.now)
        × (w.moment ≤ length w.index.now.events)
        × AreNumbersAt w.medium.now w.index.now.events w.moment w.numbers.now };
}

impl<'a, 'b> Wanted<'a, 'b> {
    /// The number of lines.
    pub fn lines(&self) -> u32
        ensures { result ≡ length self.now.start }
    {
        self.index.lines()
    }

    /// How many of a line's stores are in the image.
    pub fn number(&self, line: u32) -> u32
        requires { line < length self.now.start }
        ensures { result ≡ slice_index self.now.numbers line }
    {
        self.numbers[line as usize]
    }

    /// How many of a line's stores are in each image of the moment.
    pub fn floor(&self, line: u32) -> u32
        requires { line < length self.now.start }
        ensures { result ≡ floor line (at_moment self.now.events self.now.moment) }
    {
        self.index.floor(line, self.moment)
    }

    /// The bytes of a line in the image.
    pub fn line(&self, line: u32) -> &[u8; 64]
        requires { line < length self.now.start }
        ensures { result.now ≡ line_at (known_image self.now.start self.now.events self.now.numbers) line }
    {
        self.index.line(line, self.number(line))
    }

    /// The bytes of a line at the start.
    pub fn started(&self, line: u32) -> &[u8; 64]
        requires { line < length self.now.start }
        ensures { result.now ≡ line_at self.now.start line }
    {
        self.medium.read_line(line)
    }
}

/// Who gives the answers of an outside recovery.
pub trait Answering {
    ghost use Rattle.routine_judge.specs.OutsideViews.{ReplyView, WantedView};
    ghost use Rattle.std.specs.Prelude.{◌<◌, ℕ, Contains, IfErr, IfOk, length};

    /// Why there is no reply.
    type Fault: Drop;

    /// What becomes of it when it is asked for an image and gives this reply,
    ghost gives: { Self → WantedView → ReplyView → Self → Type 0 };

    /// and where it gives none, for this fault.
    ghost fails: { Self → WantedView → Self.Fault → Self → Type 0 };

    /// The reply on an image, whose lines it names.
    fn answer(&mut self, wanted: &Wanted<'_, '_>) -> Result<Reply, Self::Fault>
        ensures ok { IfOk result (λ reply. gives self.old wanted.now reply self.new) }
        ensures there { IfOk result (λ reply. (line : ℕ) → Contains reply.lines line → line < length wanted.now.start) }
        ensures err { IfErr result (λ fault. fails self.old wanted.now fault self.new) };
}
