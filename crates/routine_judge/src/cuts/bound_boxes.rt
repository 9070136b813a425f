//! Lists of boxes with bounds.

ghost use Rattle.recovery.specs.Boxes.{IsNoFence, left_of};
ghost use Rattle.recovery.specs.Closed as closed;
ghost use Rattle.routine_judge.specs.Closing.{AreCovered, GrowsAfter, GrowsWith, IsAsShown, IsMomentCovered};
ghost use Rattle.std.specs.Prelude.{◌≡◌, ◌<◌, ◌≤◌, ℕ, List, [], ◌∷◌, All, IfOk, IsTrue, OnOk, length, slice_index_or};
ghost use Rattle.store_trace.specs.History.{at_moment};
ghost use Rattle.store_trace.specs.TraceView.{NamesLine};

use crate::cuts::bound_box::{Bound, BoundBox};
use crate::cuts::image_box::ImageBox;
use crate::cuts::judging::shown_again;
use crate::cuts::left::left_at;
use crate::held::HeldAnswer;
use recovery::TracedRun;
use std::alloc::{AllocError, Global};
use std::marker::Model;
use store_trace::{Event, Trace};

/// Boxes with bounds, of images of so many lines, in the order in which they were found.
#[derive(Drop)]
pub struct BoundBoxes<'a> {
    lines: u32,
    boxes: Vec<BoundBox<'a>>,
}

impl<'a> Model for BoundBoxes<'a> {
    ghost use Rattle.routine_judge.specs.BoundBoxViews.{BoxesView};
    ghost use Rattle.std.specs.Prelude.{◌≡◌, All, length};

    ghost Value = { BoxesView };

    ghost view = { λ b. record { lines = b.lines; boxes = b.boxes.items } };

    ghost invariant = { λ b. All (λ box. length box.images ≡ b.lines) b.boxes.items };
}

impl<'a> BoundBoxes<'a> {
    /// One box, of images of a first cut, before which this was shown.
    pub fn of(
        alloc: Global,
        images: ImageBox<'a>,
        shown: Option<HeldAnswer>,
    ) -> Result<BoundBoxes<'a>, AllocError>
        ensures lines { IfOk result (λ made. made.lines ≡ length images.entry) }
        ensures boxes { IfOk result (λ made. made.boxes ≡ record { images = images.entry; shown = shown; cuts = 0 } ∷ []) }
    {
        let lines = images.lines();
        let mut boxes = Vec::new(alloc);
        let bound = Bound { shown, cuts: 0 };
        boxes.push(BoundBox::new(images, bound))?;
        Ok(BoundBoxes { lines, boxes })
    }

    /// How many there are.
    pub fn len(&self) -> usize
        ensures { result ≡ length self.now.boxes }
    {
        self.boxes.len()
    }

    /// The box at a place.
    pub fn at(&self, place: usize) -> &BoundBox<'a>
        requires { place < length self.now.boxes }
        ensures value { (d : closed.BoundBox) → result.now ≡ slice_index_or self.now.boxes place d }
        ensures lines { length result.now.images ≡ self.now.lines }
    {
        &self.boxes[place]
    }

    /// Whether one of them covers images with this bound.
    fn have(&self, images: &ImageBox<'_>, bound: &Bound) -> bool
        requires { length images.now ≡ self.now.lines }
        ensures { IsTrue result → AreCovered self.now.boxes bound.now.cuts images.now bound.now.shown }
    {
        for place in 0..self.len() {
            if self.at(place).covers(images, bound) {
                return true;
            }
        }
        false
    }

    /// Adds images with this bound, unless a box covers them.
    fn cover(
        &mut self,
        alloc: Global,
        images: ImageBox<'a>,
        bound: &Bound,
    ) -> Result<(), AllocError>
        requires { length images ≡ self.old.lines }
        ensures covered { OnOk result (AreCovered self.new.boxes bound.now.cuts images.entry bound.now.shown) }
        ensures grows { OnOk result (GrowsWith self.old.boxes self.new.boxes bound.now.cuts images.entry bound.now.shown) }
        ensures lines { self.new.lines ≡ self.old.lines }
    {
        if self.have(&images, bound) {
            return Ok(());
        }
        let bound = Bound {
            shown: shown_again(alloc, &bound.shown)?,
            cuts: bound.cuts,
        };
        self.boxes.push(BoundBox::new(images, bound))?;
        Ok(())
    }

    /// Adds what cuts leave of the images of a part at a moment of a run on them, with this bound, unless a box covers it.
    fn cover_moment(
        &mut self,
        alloc: Global,
        part: &ImageBox<'a>,
        trace: &Trace,
        moment: u32,
        bound: &Bound,
    ) -> Result<(), AllocError>
        requires lines { length part.now ≡ self.old.lines }
        requires named { All (NamesLine (length part.now)) trace.now.events }
        requires there { moment ≤ length trace.now.events }
        ensures covered { OnOk result (AreCovered self.new.boxes bound.now.cuts (left_of (at_moment trace.now.events moment) part.now) bound.now.shown) }
        ensures grows { OnOk result (GrowsWith self.old.boxes self.new.boxes bound.now.cuts (left_of (at_moment trace.now.events moment) part.now) bound.now.shown) }
        ensures lines { self.new.lines ≡ self.old.lines }
    {
        let left = left_at(alloc, part, trace, moment)?;
        self.cover(alloc, left, bound)
    }

    /// Adds what cuts leave of the images of a part while a routine runs on them, or after it has ended, unless a box covers it. The bound is that of
    /// what is left before the end. Moments right before a fence and the last one alone are looked at: what is left at the others is left there too.
    pub fn cover_left(
        &mut self,
        alloc: Global,
        part: &ImageBox<'a>,
        run: &TracedRun,
        bound: &Bound,
    ) -> Result<(), AllocError>
        requires lines { length part.now ≡ self.old.lines }
        requires named { All (NamesLine (length part.now)) run.now.trace.events }
        requires found { IsAsShown bound.now.shown run.now.found }
        ensures covered { OnOk result ((moment : ℕ) → moment ≤ length run.now.trace.events →
            IsMomentCovered self.new.boxes bound.now.cuts part.now run.now.trace.events run.now.found bound.now.shown moment) }
        ensures grows { OnOk result (GrowsAfter self.old.boxes self.new.boxes bound.now.cuts part.now run.now.trace.events run.now.found bound.now.shown) }
        ensures lines { self.new.lines ≡ self.old.lines }
    {
        let Ok(answer) = &run.found else {
            return Ok(());
        };
        let events = run.trace.events();
        for moment in 0..events.len() {
            if is_fence(events[moment]) {
                self.cover_moment(alloc, part, &run.trace, moment as u32, bound)?;
            }
        }
        let last = Bound {
            shown: Some(HeldAnswer::copied(alloc, answer)?),
            cuts: bound.cuts,
        };
        self.cover_moment(alloc, part, &run.trace, events.len() as u32, &last)
    }
}

fn is_fence(event: Event) -> bool
    ensures { (¬ IsTrue result) → IsNoFence event }
{
    matches!(event, Event::Fence { .. })
}
