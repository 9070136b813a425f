//! The least image of a moment from which power cuts in recovery leave a bad one: line by line, upwards, the least number of its stores.

ghost use Rattle.routine_judge.specs.Closing.{IsSame};
ghost use Rattle.routine_judge.specs.CutMoments.{IsThere};
ghost use Rattle.routine_judge.specs.CutVerdicts.{IsImageAt};
ghost use Rattle.std.specs.Prelude.{◌≡◌, ◌<◌, length, IfOk, IfSome};

use crate::cuts::bound_boxes::BoundBoxes;
use crate::cuts::closing::BoxVerdict;
use crate::cuts::contents::Contents;
use crate::cuts::image_box::ImageBox;
use crate::cuts::judging::shown_again;
use crate::cuts::left::{LineSoFar, events_before, floors_at};
use crate::cuts::moment::{CutMoment, image_of_cut, images_at};
use crate::cuts::rule::CutRule;
use crate::held::HeldAnswer;
use crash_image::{Cut, ImageName};
use line_memory::{LINE_SIZE, Medium};
use recovery::Routine;
use std::alloc::{AllocError, Global};

/// By what images are asked whether cuts in recovery leave a bad one of them, before which this was shown.
#[derive(Clone, Copy)]
pub struct CutQuestion<'q> {
    pub rule: CutRule<'q>,
    pub shown: &'q Option<HeldAnswer>,
}

/// The least image of a moment from which cuts in recovery leave a bad one, with its name. None where the search for it takes too many runs.
pub fn least_image(
    alloc: Global,
    routine: &mut Routine,
    question: CutQuestion<'_>,
    at: CutMoment<'_>,
) -> Result<Option<(ImageName, Medium)>, AllocError>
    requires lines { routine.old.lines ≡ length at.medium.now }
    requires there { IsThere at }
    ensures image { IfOk result (λ found. IfSome found (λ left.
        IsImageAt at.entry.medium.now at.entry.trace.now.events at.entry.moment left.0 left.1)) }
    ensures routine { IsSame routine.old routine.new }
{
    match least_cut(alloc, routine, question, at)? {
        Some(cut) => image_of_cut(alloc, at, &cut),
        None => Ok(None),
    }
}

/// Whether cuts in recovery leave a bad one of these images. Not where that takes too many runs.
pub fn is_bad(
    alloc: Global,
    routine: &mut Routine,
    question: CutQuestion<'_>,
    images: ImageBox<'_>,
) -> Result<bool, AllocError>
    requires { routine.old.lines ≡ length images }
    ensures { IsSame routine.old routine.new }
{
    let shown = shown_again(alloc, question.shown)?;
    let mut boxes = BoundBoxes::of(alloc, images, shown)?;
    let verdict = boxes.close_all(alloc, routine, question.rule)?;
    Ok(matches!(verdict, BoxVerdict::Bad(_)))
}

/// The cut of that image.
fn least_cut(
    alloc: Global,
    routine: &mut Routine,
    question: CutQuestion<'_>,
    at: CutMoment<'_>,
) -> Result<Option<Cut>, AllocError>
    requires lines { routine.old.lines ≡ length at.medium.now }
    requires there { IsThere at }
    ensures { IsSame routine.old routine.new }
{
    let floors = floors_at(alloc, at.medium, at.trace, at.moment)?;
    let mut images = images_at(alloc, at)?;
    let mut numbers = Vec::new(alloc);
    for entry in floors.entries() {
        let (line, low) = *entry;
        let found = least_number(alloc, routine, question, at, &mut images, (line, low))?;
        let Some(number) = found else {
            return Ok(None);
        };
        numbers.push((line, number))?;
    }
    Ok(Some(Cut::from_entries(numbers)))
}

/// The least number of a line, from this one on, with which it is so; the line has the content of that number alone then. A line with one content
/// isn't asked about.
fn least_number<'m>(
    alloc: Global,
    routine: &mut Routine,
    question: CutQuestion<'_>,
    at: CutMoment<'m>,
    images: &mut ImageBox<'m>,
    entry: (u32, u32),
) -> Result<Option<u32>, AllocError>
    requires lines { routine.old.lines ≡ length images.old }
    requires medium { length at.medium.now ≡ length images.old }
    requires there { IsThere at }
    requires below { entry.0 < length images.old }
    ensures size { length images.new ≡ length images.old }
    ensures routine { IsSame routine.old routine.new }
{
    let (line, low) = entry;
    if images.contents(line).len() == 1 {
        return Ok(Some(low));
    }
    let candidates = numbered_contents(alloc, at, line, low)?;
    for candidate in &candidates {
        let (number, bytes) = *candidate;
        if is_kept(alloc, routine, question, images, line, bytes)? {
            return Ok(Some(number));
        }
    }
    Ok(None)
}

/// What a line has after each number of its stores, from this one on.
fn numbered_contents(
    alloc: Global,
    at: CutMoment<'_>,
    line: u32,
    low: u32,
) -> Result<Vec<(u32, [u8; LINE_SIZE])>, AllocError>
    requires there { IsThere at }
    requires below { line < length at.medium.now }
{
    let mut so_far = LineSoFar {
        line,
        low,
        stores: 0,
        bytes: *at.medium.read_line(line),
    };
    let mut contents = Vec::new(alloc);
    if low == 0 {
        contents.push((0, so_far.bytes))?;
    }
    for event in events_before(at.trace, at.moment) {
        let is_store = so_far.read(*event);
        if is_store && low <= so_far.stores {
            contents.push((so_far.stores, so_far.bytes))?;
        }
    }
    Ok(contents)
}

/// Whether it is so where a line has these bytes alone. It has them alone then.
fn is_kept<'m>(
    alloc: Global,
    routine: &mut Routine,
    question: CutQuestion<'_>,
    images: &mut ImageBox<'m>,
    line: u32,
    bytes: [u8; LINE_SIZE],
) -> Result<bool, AllocError>
    requires lines { routine.old.lines ≡ length images.old }
    requires below { line < length images.old }
    ensures size { length images.new ≡ length images.old }
    ensures routine { IsSame routine.old routine.new }
{
    let mut contents = Contents::none(alloc);
    contents.push(bytes)?;
    let mut narrower = images.copy(alloc)?;
    narrower.put(line, contents);
    let asked = narrower.copy(alloc)?;
    if !is_bad(alloc, routine, question, asked)? {
        return Ok(false);
    }
    *images = narrower;
    Ok(true)
}
