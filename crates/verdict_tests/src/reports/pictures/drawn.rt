//! Pictures.

use crate::reports::pictures::samples::{EVENTS, IMAGE};
use report::{CodePlace, Origin, PlacedEvent, picture_text};
use std::alloc::{AllocError, Global};
use std::test::Fail;
use store_trace::Event;

/// What the picture of `EVENTS` with `IMAGE` tells: how the stores fare, of each event where it was made, of each row its floor, its
/// stores and those of the image. A store that a power cut may lose is hollow, and any other in the colour of its hart. Over a hollow
/// one lies a cross where the image lacks it, and a full half where the image has it.
const TOLD: [&str; 16] = [
    ">power cut at moment 7: stores lost 1, kept 1, durable 1</text>",
    "l10 12m0 -12l-10 12\" fill=\"none\" stroke=\"#2ca02c\"",
    "m0 6h10v6h-10z\" fill=\"#d62728\"",
    ">2 line=7</text>",
    ">power cut</text>",
    "<title>h1 step=3 pc=0x10008 line=3 begin 7</title>",
    "fill=\"#d62728\" stroke=\"#d62728\"><title>h1 step=7 pc=0x10018 line=7 store l256+0 w8 0x4d</title>",
    "<title>h1 step=8 pc=0x1001c clean l256</title>",
    "fill=\"#ffffff\" stroke=\"#2ca02c\"><title>h2 step=9 pc=0x10018 line=7 store l256+8 w2 0x3456</title>",
    "<title>h1 step=10 pc=0x10020 line=9 fence</title>",
    "fill=\"#ffffff\" stroke=\"#d62728\"><title>h1 step=11 pc=0x10024 line=10 store l1+8 w8 0x1</title>",
    "<title>h1 step=13 pc=0x1002c line=12 end 7</title>",
    ">l1</text>",
    ">floor 0 of 1, image 1</text>",
    ">l256</text>",
    ">floor 1 of 2, image 1</text>",
];

/// The first of these that a text lacks.
fn first_untold(text: &str) -> Option<&'static str> {
    for told in TOLD {
        if !text.contains(told) {
            return Some(told);
        }
    }
    None
}

#[test]
fn events_are_drawn(rt: HostRuntime) -> Result<(), Fail> {
    let text = picture_text(rt.alloc(), &EVENTS, Some(&IMAGE))?;
    let picture = text.as_str();
    let is_whole = picture.starts_with("<svg ") && picture.ends_with("</svg>\n");
    assert!(rt; is_whole);
    assert_eq!(rt; first_untold(picture), None);
    Ok(())
}

/// How many lines of a text begin so.
fn lines_with(text: &str, start: &str) -> usize {
    let mut count = 0usize;
    for line in text.lines() {
        if line.starts_with(start) {
            count = count.saturating_add(1);
        }
    }
    count
}

fn made(event: Event) -> PlacedEvent<'static> {
    PlacedEvent {
        event,
        step: 1,
        at: CodePlace {
            pc: 0x1_0000,
            origin: Origin::Unknown,
        },
    }
}

fn store_to(line: u32) -> PlacedEvent<'static> {
    made(Event::Store {
        hart: 0,
        line,
        offset: 0,
        width: 8,
        value: 1,
    })
}

/// A store to each of so many cache lines, the first of which is made durable.
fn stores(alloc: Global, lines: u32) -> Result<Vec<PlacedEvent<'static>>, AllocError> {
    let mut events = Vec::new(alloc);
    for line in 0..lines {
        events.push(store_to(line))?;
    }
    events.push(made(Event::Clean { hart: 0, line: 0 }))?;
    events.push(made(Event::Fence { hart: 0 }))?;
    Ok(events)
}

/// How many rows the picture of such stores has.
fn rows_of(alloc: Global, lines: u32) -> Result<usize, AllocError> {
    let events = stores(alloc, lines)?;
    let text = picture_text(alloc, &events, None)?;
    Ok(lines_with(text.as_str(), "<text x=\"8\""))
}

#[test]
fn of_many_lines_those_at_risk_are_drawn(rt: HostRuntime) -> Result<(), Fail> {
    let few = rows_of(rt.alloc(), 40)?;
    assert_eq!(rt; few, 40);
    let many = rows_of(rt.alloc(), 42)?;
    assert_eq!(rt; many, 41);
    Ok(())
}

/// How many stores are drawn of so many to one line.
fn stores_of(alloc: Global, count: usize) -> Result<usize, AllocError> {
    let events = vec![in alloc; store_to(3); count]?;
    let text = picture_text(alloc, &events, None)?;
    Ok(lines_with(text.as_str(), "<rect x="))
}

#[test]
fn of_many_events_the_last_are_drawn(rt: HostRuntime) -> Result<(), Fail> {
    let all = stores_of(rt.alloc(), 200)?;
    assert_eq!(rt; all, 200);
    let last = stores_of(rt.alloc(), 250)?;
    assert_eq!(rt; last, 200);
    let none = stores_of(rt.alloc(), 0)?;
    assert_eq!(rt; none, 0);
    Ok(())
}
