//! Images that are counted and explained. More of them stand in the transcripts of `transcripts`.

use crate::calls::starts::{
    END, ENTRY, FENCE, FIRST_RUN, ONE_APPEND, STRAYS, TAIL, TWO_IMAGES, is_written_so, run_of,
};
use crash_image::ImageFault;
use crash_test::{count_images, explain_image, explain_image_least, image_lines};
use machine::Schedule;
use std::alloc::Global;
use text::ImageName;

/// What isn't there.
#[derive(Clone, Copy, PartialEq, Eq)]
enum Lacking {
    Moment,
    Image,
    Memory,
}

fn missing(fault: ImageFault) -> Lacking {
    match fault {
        ImageFault::NoSuchMoment => Lacking::Moment,
        ImageFault::NotACut => Lacking::Image,
        ImageFault::Memory => Lacking::Memory,
    }
}

static COUNTS: [(&str, u32, Result<Option<u32>, Lacking>); 2] = [
    ("h0*8", 2, Ok(Some(2))),
    ("h0*8", 4, Err(Lacking::Moment)),
];

/// How many images a moment of the first program has.
fn counted(alloc: Global, schedule: &str, moment: u32) -> Option<Result<Option<u32>, Lacking>> {
    let run = run_of(alloc, None, &[FIRST_RUN], schedule)?.ok()?;
    Some(count_images(alloc, run.start(), run.trace(), moment).map_err(missing))
}

#[test]
fn images_are_counted(rt: HostRuntime) {
    let differing = COUNTS.iter().position(|(schedule, moment, wanted)| counted(
        rt.alloc(),
        schedule,
        *moment,
    ) != Some(*wanted));
    assert_eq!(rt; differing, None);
}

/// The one line of an image of the first program behind its store, with the first byte that it has there.
fn stored_byte(alloc: Global, image: u32) -> Option<(usize, u32, u8)> {
    let run = run_of(alloc, None, &[FIRST_RUN], "h0*8")?.ok()?;
    let name = ImageName::Number(image);
    let lines = image_lines(alloc, run.start(), run.trace(), 1, &name).ok()?;
    match lines.as_slice() {
        [only, ..] => Some((lines.len(), only.line, only.bytes[0])),
        [] => None,
    }
}

#[test]
fn lines_of_an_image_are_found(rt: HostRuntime) {
    assert_eq!(rt; stored_byte(rt.alloc(), 0), Some((1, 0, 0)));
    assert_eq!(rt; stored_byte(rt.alloc(), 1), Some((1, 0, 7)));
    assert_eq!(rt; stored_byte(rt.alloc(), 2), None);
}

/// A run, the name of an image of one of its moments, and the schedule that leaves it.
struct Explanation {
    plan: Option<&'static str>,
    pieces: &'static [&'static str],
    schedule: &'static str,
    moment: u32,
    image: &'static str,
    explained: Result<&'static str, Lacking>,
    /// The same by the needed evictions alone.
    least: Result<&'static str, Lacking>,
}

static EXPLANATIONS: [Explanation; 5] = [
    // all stores
    Explanation {
        plan: None,
        pieces: &[TWO_IMAGES],
        schedule: "h0*4 e5 h0*5",
        moment: 5,
        image: "1",
        explained: Ok("h0*8 e5 h0*1"),
        least: Ok("h0*9"),
    },
    // a tail without its entry
    Explanation {
        plan: Some(ONE_APPEND),
        pieces: &[ENTRY, TAIL, FENCE, END],
        schedule: "h0*21",
        moment: 6,
        image: "4",
        explained: Ok("h0*13 e1"),
        least: Ok("h0*13 e1"),
    },
    // a line among over 65,536 images
    Explanation {
        plan: Some(ONE_APPEND),
        pieces: &[STRAYS],
        schedule: "h0*72",
        moment: 17,
        image: "l300:1",
        explained: Ok("h0*5 e300 h0*64"),
        least: Ok("h0*5 e300 h0*64"),
    },
    Explanation {
        plan: None,
        pieces: &[TWO_IMAGES],
        schedule: "h0*9",
        moment: 5,
        image: "2",
        explained: Err(Lacking::Image),
        least: Err(Lacking::Image),
    },
    Explanation {
        plan: None,
        pieces: &[TWO_IMAGES],
        schedule: "h0*9",
        moment: 6,
        image: "0",
        explained: Err(Lacking::Moment),
        least: Err(Lacking::Moment),
    },
];

fn is_so(alloc: Global, found: &Result<Schedule, Lacking>, wanted: Result<&str, Lacking>) -> bool {
    match (found, wanted) {
        (Ok(schedule), Ok(text)) => is_written_so(alloc, schedule, text),
        (Err(fault), Err(wanted)) => *fault == wanted,
        _ => false,
    }
}

fn explained(alloc: Global, of: &Explanation) -> Option<Result<Schedule, Lacking>> {
    let run = run_of(alloc, of.plan, of.pieces, of.schedule)?.ok()?;
    let image = ImageName::read(alloc, of.image).ok()??;
    Some(explain_image(alloc, &run, of.moment, &image).map_err(missing))
}

fn explained_least(alloc: Global, of: &Explanation) -> Option<Result<Schedule, Lacking>> {
    let run = run_of(alloc, of.plan, of.pieces, of.schedule)?.ok()?;
    let image = ImageName::read(alloc, of.image).ok()??;
    Some(explain_image_least(alloc, &run, of.moment, &image).map_err(missing))
}

fn is_explained_so(alloc: Global, of: &Explanation) -> bool {
    match (explained(alloc, of), explained_least(alloc, of)) {
        (Some(found), Some(least)) => {
            is_so(alloc, &found, of.explained) && is_so(alloc, &least, of.least)
        }
        _ => false,
    }
}

#[test]
fn images_are_explained(rt: HostRuntime) {
    let differing = EXPLANATIONS
        .iter()
        .position(|explanation| !is_explained_so(rt.alloc(), explanation));
    assert_eq!(rt; differing, None);
}
