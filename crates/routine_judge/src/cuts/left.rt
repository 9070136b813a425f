//! What power cuts leave of the images of a box: a box again.

ghost use Rattle.crash_image.specs.View.{HasLines};
ghost use Rattle.recovery.specs.Boxes.{LiesWithin, left_of, left_of_line};
ghost use Rattle.routine_judge.specs.LeftContents.{HaveSame, IsLineAfter, IsReadTo, IsUnion, after_all, is_store_of, left_now};
ghost use Rattle.std.specs.Prelude.{◌≡◌, ◌+◌, ◌<◌, ◌≤◌, ◌++◌, ℕ, List, All, length, take, IfOk, OnOk};
ghost use Rattle.store_trace.specs.Cut.{numbered, stored_lines};
ghost use Rattle.store_trace.specs.Floor.{floor};
ghost use Rattle.store_trace.specs.History.{at_moment, history, steps_of};
ghost use Rattle.store_trace.specs.TraceView.{IsEvent, NamesLine};
ghost use Rattle.store_trace.specs.declared.crash_model.step.PersistenceStep.{PersistenceStep};

use crate::cuts::contents::Contents;
use crate::cuts::image_box::ImageBox;
use crash_image::{Cut, Cuts};
use line_memory::{LINE_SIZE, Medium, store_bytes};
use std::alloc::{AllocError, Global};
use store_trace::{Event, Trace};

/// What cuts leave of the images of a box at a moment of a run over them that made these events: of each line each of its contents after each
/// number of its stores, from its floor to all of them. Equal ones count once.
pub fn left_at<'a>(
    alloc: Global,
    images: &ImageBox<'a>,
    trace: &Trace,
    moment: u32,
) -> Result<ImageBox<'a>, AllocError>
    requires lines { All (NamesLine (length images.now)) trace.now.events }
    requires there { moment ≤ length trace.now.events }
    ensures within { IfOk result (λ left. LiesWithin left (left_of (at_moment trace.now.events moment) images.now)) }
    ensures all { IfOk result (λ left. LiesWithin (left_of (at_moment trace.now.events moment) images.now) left) }
{
    let floors = floors_at(alloc, images.medium(), trace, moment)?;
    let events = events_before(trace, moment);
    let mut left = images.copy(alloc)?;
    for entry in floors.entries() {
        let (line, low) = *entry;
        let contents = contents_left(alloc, images.contents(line), line, low, events)?;
        left.put(line, contents);
    }
    Ok(left)
}

/// Each line that has a store at a moment, with its floor.
pub fn floors_at(
    alloc: Global,
    medium: &Medium,
    trace: &Trace,
    moment: u32,
) -> Result<Cut, AllocError>
    requires lines { HasLines medium.now trace.now.events }
    requires there { moment ≤ length trace.now.events }
    ensures value { IfOk result (λ floors. floors ≡ numbered (λ l. floor l (at_moment trace.now.events moment)) (stored_lines (at_moment trace.now.events moment))) }
    ensures below { IfOk result (λ floors. All (λ entry. entry.0 < length medium.now) floors) }
{
    let Ok(cuts) = Cuts::at(alloc, medium, trace, moment) else {
        return Err(AllocError);
    };
    match cuts.cut_over(alloc, &[]) {
        Ok(floors) => Ok(floors),
        Err(_refused) => Err(AllocError),
    }
}

/// The events before a moment.
pub fn events_before(trace: &Trace, moment: u32) -> &[Event]
    requires { moment ≤ length trace.now.events }
    ensures value { result.now ≡ take moment trace.now.events }
    ensures each { All IsEvent result.now }
    ensures limit { length result.now ≤ 65536 }
{
    let events = trace.events();
    &events[..moment as usize]
}

/// What cuts leave of these contents of a line with this floor.
fn contents_left(
    alloc: Global,
    contents: &[[u8; LINE_SIZE]],
    line: u32,
    low: u32,
    events: &[Event],
) -> Result<Contents, AllocError>
    requires each { All IsEvent events.now }
    requires limit { length events.now ≤ 65536 }
    requires low { low ≡ floor line (history events.now) }
    ensures { IfOk result (λ left. HaveSame left (left_of_line line (history events.now) contents.now)) }
{
    let mut left = Contents::none(alloc);
    for start in contents {
        add_left(&mut left, start, line, low, events)?;
    }
    Ok(left)
}

/// Adds the bytes of a line, which started with these, after each number of its stores, from `low` to all of them.
fn add_left(
    left: &mut Contents,
    start: &[u8; LINE_SIZE],
    line: u32,
    low: u32,
    events: &[Event],
) -> Result<(), AllocError>
    requires each { All IsEvent events.now }
    requires limit { length events.now ≤ 65536 }
    ensures { OnOk result (IsUnion left.old (after_all start.now line (history events.now) low) left.new) }
{
    let mut so_far = LineSoFar {
        line,
        low,
        stores: 0,
        bytes: *start,
    };
    so_far.add_to(left)?;
    for event in events {
        so_far.read_on(left, *event)?;
    }
    Ok(())
}

/// A line while the events are read, the oldest first.
#[derive(Clone, Copy)]
pub struct LineSoFar {
    pub line: u32,
    /// From how many of its stores on cuts leave what it has.
    pub low: u32,
    /// Its stores so far.
    pub stores: u32,
    /// Its bytes after them.
    pub bytes: [u8; LINE_SIZE],
}

impl LineSoFar {
    /// Reads an event, and adds what the line has after it, where that is a store of the line after which cuts leave it.
    fn read_on(&mut self, left: &mut Contents, event: Event) -> Result<(), AllocError>
        requires event { IsEvent event }
        requires few { self.old.stores < 65536 }
        ensures ok { OnOk result ((start : List ℕ) (p : List PersistenceStep) (before : List (List ℕ)) →
            IsReadTo start p before self.old left.old → IsReadTo start (steps_of event ++ p) before self.new left.new) }
        ensures line { self.new.line ≡ self.old.line }
        ensures low { self.new.low ≡ self.old.low }
        ensures more { self.new.stores ≤ self.old.stores + 1 }
    {
        if !self.read(event) {
            return Ok(());
        }
        self.add_to(left)
    }

    /// Makes the event's store, where it is one of the line. Returns whether it is.
    #[tactic(auto, using(crash_image::proofs::Imaged::aligned_fits))]
    pub fn read(&mut self, event: Event) -> bool
        requires event { IsEvent event }
        requires few { self.old.stores < 65536 }
        ensures is { result ≡ is_store_of self.old.line event }
        ensures made { (start : List ℕ) (p : List PersistenceStep) → IsLineAfter start p self.old → IsLineAfter start (steps_of event ++ p) self.new }
        ensures line { self.new.line ≡ self.old.line }
        ensures low { self.new.low ≡ self.old.low }
        ensures more { self.new.stores ≤ self.old.stores + 1 }
    {
        let Event::Store {
            line,
            offset,
            width,
            value,
            ..
        } = event
        else {
            return false;
        };
        if line != self.line {
            return false;
        }
        self.stores += 1;
        store_bytes(&mut self.bytes, offset as usize, width as usize, value);
        true
    }

    /// Adds what the line has, where it has had enough stores.
    fn add_to(&self, left: &mut Contents) -> Result<(), AllocError>
        ensures { OnOk result (IsUnion left.old (left_now self.now) left.new) }
    {
        if self.low <= self.stores {
            left.add(&self.bytes)?;
        }
        Ok(())
    }
}
