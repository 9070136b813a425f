//! The index of a whole trace.

ghost use Rattle.store_trace.specs.Floor.{floor};
ghost use Rattle.store_trace.specs.Image.{line_after};
ghost use Rattle.store_trace.specs.Stores.{stores};
ghost use Rattle.line_memory.specs.Lines.{IsMedium, line_at};
ghost use Rattle.store_trace.specs.History.{at_moment, history};
ghost use Rattle.store_trace.specs.TraceView.{NamesLine};
ghost use Rattle.std.specs.Prelude.{◌≡◌, ℕ, ◌<◌, ◌≤◌, length, All, IfOk};

use crate::trace_index::build::lines_of;
use crate::trace_index::table::LineTable;
use line_memory::Medium;
use std::alloc::{AllocError, Global};
use std::marker::Model;
use store_trace::{Event, Trace};

/// For each line of the medium that a trace started from, its stores, floors and bytes at every moment.
/// Moment m is the one after the first m events.
///
/// A contract sees the starting lines, and the events, the oldest first.
#[derive(Drop)]
pub struct TraceIndex<'a> {
    medium: &'a Medium,
    events: &'a [Event],
    lines: LineTable,
}

impl<'a> Model for TraceIndex<'a> {
    ghost use Rattle.std.specs.Prelude.{◌≤◌, length};
    ghost use Rattle.store_trace.specs.History.{at_moment};
    ghost use Rattle.crash_image.specs.Lines.{AreLines};
    ghost use Rattle.crash_image.specs.TraceIndexView.{IndexView};

    ghost Value = { IndexView };

    ghost view = { λ i. record { start = i.medium.now; events = i.events.now } };

    ghost invariant = { λ i. (length i.events.now ≤ 65536)
        × AreLines i.medium.now (at_moment i.events.now) (length i.events.now) i.lines };
}

impl<'a> TraceIndex<'a> {
    /// The index of the trace, which started from the medium, by one pass over the events. For a store it takes
    /// the 64 bytes of its line and a number, for a fence at most two numbers for each line that its hart cleaned,
    /// and a fixed size for each 64 lines of which one is stored to or cleaned.
    pub fn new(
        alloc: Global,
        medium: &'a Medium,
        trace: &'a Trace,
    ) -> Result<TraceIndex<'a>, AllocError>
        requires { All (NamesLine (length medium.now)) trace.now.events }
        ensures start { IfOk result (λ index. index.start ≡ medium.now) }
        ensures events { IfOk result (λ index. index.events ≡ trace.now.events) }
    {
        let events = trace.events();
        let lines = lines_of(alloc, medium, events)?;
        Ok(TraceIndex {
            medium,
            events,
            lines,
        })
    }

    /// The number of lines, from 512 to 16,384.
    pub fn lines(&self) -> u32
        ensures count { result ≡ length self.now.start }
        ensures whole { IsMedium self.now.start }
    {
        self.medium.lines()
    }

    /// How many stores the line has at the moment.
    #[inline(always)]
    pub fn stores(&self, line: u32, moment: u32) -> u32
        requires line { line < length self.now.start }
        requires moment { moment ≤ length self.now.events }
        ensures { result ≡ stores line (at_moment self.now.events moment) }
    {
        match self.lines.line(line) {
            Some(index) => index.stores_at(moment) as u32,
            None => 0,
        }
    }

    /// How many of the line's first stores are in the medium for certain at the moment.
    #[inline(always)]
    pub fn floor(&self, line: u32, moment: u32) -> u32
        requires line { line < length self.now.start }
        requires moment { moment ≤ length self.now.events }
        ensures { result ≡ floor line (at_moment self.now.events moment) }
    {
        match self.lines.line(line) {
            Some(index) => index.floor_at(moment),
            None => 0,
        }
    }

    /// The bytes of the line after its first `number` stores, at each moment that has them.
    #[inline(always)]
    pub fn line(&self, line: u32, number: u32) -> &[u8; 64]
        requires line { line < length self.now.start }
        requires number { number ≤ stores line (history self.now.events) }
        ensures whole { result.now ≡ line_after (line_at self.now.start line) line number (history self.now.events) }
        ensures at { (moment : ℕ) → moment ≤ length self.now.events →
            number ≤ stores line (at_moment self.now.events moment) →
            result.now ≡ line_after (line_at self.now.start line) line number (at_moment self.now.events moment) }
    {
        let start = self.medium.read_line(line);
        match self.lines.line(line) {
            Some(index) => index.bytes(start, number as usize),
            None => start,
        }
    }
}
