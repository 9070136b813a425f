//! Closing a box: the routine's answers on its images are judged, and what a further cut leaves of them is covered.

ghost use Rattle.recovery.specs.Closed as closed;
ghost use Rattle.routine_judge.specs.Closing.{AreOfLines, GrowsBy, GrowsFrom, IsBy, IsClosedVerdict, IsPartMade, IsSame};
ghost use Rattle.std.specs.Prelude.{◌≡◌, ◌+◌, ◌<◌, ◌∷◌, [], IfOk, OnOk, length, slice_index_or};

use crate::cuts::bound_box::Bound;
use crate::cuts::bound_boxes::BoundBoxes;
use crate::cuts::image_box::ImageBox;
use crate::cuts::judging::{CutCause, judge_again, shown_again};
use crate::cuts::opening::open_box;
use crate::cuts::rule::{CutRule, is_past};
use recovery::Routine;
use std::alloc::{AllocError, Global};

/// After how many cuts what further ones leave isn't looked at, where any number of them is.
const MAX_CUTS: u32 = 64;

/// How many boxes of images are opened at most, one more than there may be runs.
const MAX_PARTS: u32 = 65_537;

/// What came of a box.
#[derive(Clone, Copy, Debug, PartialEq, Eq)]
pub enum BoxVerdict {
    /// All is well in it, and what a further cut leaves of its images is covered.
    Closed,
    /// One of its images is bad.
    Bad(CutCause),
    /// It would take too many runs.
    TooMany,
}

/// By what a box is closed: the rule, and the bound of what a further cut leaves before the end of a run.
#[derive(Drop)]
pub struct Closing<'r> {
    pub rule: CutRule<'r>,
    pub bound: Bound,
}

impl<'a> BoundBoxes<'a> {
    /// Closes the box at a place, where it isn't left by more cuts than are looked at, by one run of the routine for each part of it: what is left
    /// of its images is added, where no box covers it. So many runs may still be made.
    ///
    /// # Errors
    /// A growth was refused. The routine can be used again then too; the boxes are of no use.
    pub fn close(
        &mut self,
        alloc: Global,
        routine: &mut Routine,
        rule: CutRule<'_>,
        place: usize,
        runs: &mut u32,
    ) -> Result<BoxVerdict, AllocError>
        requires there { place < length self.old.boxes }
        requires lines { routine.old.lines ≡ self.old.lines }
        ensures ok { IfOk result (λ verdict. (d : closed.BoundBox) →
            IsClosedVerdict routine.old.program rule.entry.steps rule.entry.right.now rule.entry.most self.new.boxes (slice_index_or self.old.boxes place d) verdict) }
        ensures grows { OnOk result (GrowsBy routine.old.program rule.entry.steps self.old.boxes self.new.boxes) }
        ensures size { self.new.lines ≡ self.old.lines }
        ensures routine { IsSame routine.old routine.new }
    {
        let cuts = self.at(place).bound().cuts;
        if is_past(rule.most, cuts) {
            return Ok(BoxVerdict::Closed);
        }
        if cuts > MAX_CUTS {
            return Ok(BoxVerdict::TooMany);
        }
        let closing = self.closing(alloc, rule, place)?;
        let mut pending = self.pending(alloc, place)?;
        for _ in 0..MAX_PARTS {
            let Some(images) = pending.pop() else {
                return Ok(BoxVerdict::Closed);
            };
            if *runs == 0 {
                return Ok(BoxVerdict::TooMany);
            }
            *runs -= 1;
            let found = self.close_part(alloc, routine, &closing, images, &mut pending)?;
            if let Some(cause) = found {
                return Ok(BoxVerdict::Bad(cause));
            }
        }
        Ok(BoxVerdict::TooMany)
    }

    /// By what the box at a place is closed.
    fn closing<'r>(
        &self,
        alloc: Global,
        rule: CutRule<'r>,
        place: usize,
    ) -> Result<Closing<'r>, AllocError>
        requires there { place < length self.now.boxes }
        requires few { (d : closed.BoundBox) → (slice_index_or self.now.boxes place d).cuts < 65536 }
        ensures rule { IfOk result (IsBy rule.entry) }
        ensures shown { IfOk result (λ closing. (d : closed.BoundBox) → closing.bound.shown ≡ (slice_index_or self.now.boxes place d).shown) }
        ensures cuts { IfOk result (λ closing. (d : closed.BoundBox) → closing.bound.cuts ≡ (slice_index_or self.now.boxes place d).cuts + 1) }
    {
        let bound = self.at(place).bound();
        Ok(Closing {
            rule,
            bound: Bound {
                shown: shown_again(alloc, &bound.shown)?,
                cuts: bound.cuts + 1,
            },
        })
    }

    /// The images of the box at a place, alone in a list.
    fn pending(&self, alloc: Global, place: usize) -> Result<Vec<ImageBox<'a>>, AllocError>
        requires { place < length self.now.boxes }
        ensures images { IfOk result (λ pending. (d : closed.BoundBox) → pending.items ≡ (slice_index_or self.now.boxes place d).images ∷ []) }
        ensures lines { IfOk result (λ pending. AreOfLines self.now.lines pending.items) }
    {
        let mut pending = Vec::new(alloc);
        pending.push(self.at(place).images().copy(alloc)?)?;
        Ok(pending)
    }

    /// Opens a box of images by the routine, judges its answer on the part, and covers what a further cut leaves of that, where it is looked at. The
    /// other images go to the list of those that are pending. Why the answer is bad, where it is.
    fn close_part(
        &mut self,
        alloc: Global,
        routine: &mut Routine,
        closing: &Closing<'_>,
        images: ImageBox<'a>,
        pending: &mut Vec<ImageBox<'a>>,
    ) -> Result<Option<CutCause>, AllocError>
        requires sizes { AreOfLines self.old.lines (images ∷ pending.old.items) }
        requires lines { routine.old.lines ≡ self.old.lines }
        ensures ok { IfOk result (IsPartMade routine.old.program closing.now self.old.lines self.new.boxes images.entry pending.old.items pending.new.items) }
        ensures grows { OnOk result (GrowsFrom routine.old.program closing.now.rule.steps self.old.boxes self.new.boxes
            closing.now.bound.cuts images.entry closing.now.bound.shown) }
        ensures size { self.new.lines ≡ self.old.lines }
        ensures routine { IsSame routine.old routine.new }
    {
        let mut part = images;
        let run = open_box(alloc, routine, &mut part, closing.rule.steps, pending)?;
        if let Some(cause) = judge_again(closing.rule.right, &closing.bound.shown, &run.found) {
            return Ok(Some(cause));
        }
        if is_past(closing.rule.most, closing.bound.cuts) {
            return Ok(None);
        }
        self.cover_left(alloc, &part, &run, &closing.bound)?;
        Ok(None)
    }
}
