//! Small traces: their counts by hand and beside the plain program of the crash model, their cuts and images.
//!
//! Media, traces and cuts stay in functions that give back plain data: a test that holds one proves at each of its exits that
//! it is let go whole.

use crate::images::events::{FENCED, Made, Parts, trace_of};
use crash_image::{Cut, Cuts, ImageFault, ImageName, has_lines, images_between};
use line_memory::Medium;
use std::alloc::Global;
use std::process::Abort;
use std::test::Fail;
use store_trace::{Event, PersistenceStep, Trace, TraceFault, count_cuts};

/// The entries of a cut: lines with their numbers of stores.
type Entries = &'static [(u32, u32)];

/// The name of an image: the number of its cut, or its lines above their floor.
#[derive(Clone, Copy)]
enum Name {
    Number(u32),
    Lines(Entries),
}

/// What is to hold of the crash images of a moment. Of an image the first doublewords of lines 3, 5 and 7 are told.
#[derive(Clone, Copy)]
enum Claim {
    /// There are so many cuts.
    Count(u32),
    /// There are too many cuts.
    TooMany,
    /// The trace has fewer events.
    NoSuchMoment,
    /// The medium lacks a line that the trace names.
    NoSuchLine,
    /// The cut of this number, which is found for its image too.
    Numbered(u32, Entries, [u64; 3]),
    /// A cut and its image.
    Image(Entries, [u64; 3]),
    NotACut(Entries),
    /// Lines 3, 5 and 7 of the image of a cut: their first doublewords, and the byte that the rest of each is of.
    Lines(Entries, [(u64, u8); 3]),
    /// The cut that is found of a medium of so many lines, which are zeros but for this number in this line.
    Found(u32, (u32, u64), Option<Entries>),
    /// A cut, and the name that it has and that gives it back.
    Named(Entries, Name),
    /// A further name that gives this cut.
    Accepted(Name, Entries),
    /// A name of no cut.
    Refused(Name),
}

/// A claim on the crash images of a trace at a moment.
type Example = (Parts, u32, Claim);

const TWO_LINES: Parts = &[(
    0,
    &[
        Made::Store(3, 0, 1),
        Made::Store(7, 0, 1),
        Made::Store(7, 0, 2),
        Made::Store(3, 0, 2),
        Made::Store(7, 0, 3),
    ],
)];

/// Sixteen lines of one store each, which have 65,536 cuts.
const SIXTEEN: &[Made] = &[
    Made::Store(0, 0, 1),
    Made::Store(1, 0, 1),
    Made::Store(2, 0, 1),
    Made::Store(3, 0, 1),
    Made::Store(4, 0, 1),
    Made::Store(5, 0, 1),
    Made::Store(6, 0, 1),
    Made::Store(7, 0, 1),
    Made::Store(8, 0, 1),
    Made::Store(9, 0, 1),
    Made::Store(10, 0, 1),
    Made::Store(11, 0, 1),
    Made::Store(12, 0, 1),
    Made::Store(13, 0, 1),
    Made::Store(14, 0, 1),
    Made::Store(15, 0, 1),
];

const FREE_LINES: Parts = &[(0, SIXTEEN), (0, &[Made::Store(511, 0, 1)])];

const FIRST_RUN: Parts = &[(0, &[Made::Store(0, 0, 7), Made::Clean(0), Made::Fence])];

const LAST_LINE: Parts = &[(0, &[Made::Store(511, 0, 7)])];

const ONE_VALUE_TWICE: Parts = &[(0, &[Made::Store(4, 0, 7), Made::Store(4, 0, 7)])];

/// A store that is fenced, and one after it.
const FLOOR: Parts = &[(
    1,
    &[
        Made::Store(5, 0, 7),
        Made::Clean(5),
        Made::Store(5, 0, 8),
        Made::Fence,
    ],
)];

/// Images of a medium of zeros.
static OVER_ZEROS: [Example; 23] = [
    (FENCED, 5, Claim::Count(4)),
    (FENCED, 6, Claim::Count(2)),
    (TWO_LINES, 5, Claim::Count(12)),
    (&[], 0, Claim::Count(1)),
    (FREE_LINES, 16, Claim::Count(65_536)),
    (FREE_LINES, 17, Claim::TooMany),
    (FIRST_RUN, 0, Claim::Count(1)),
    (FIRST_RUN, 1, Claim::Count(2)),
    (FIRST_RUN, 2, Claim::Count(2)),
    (FIRST_RUN, 3, Claim::Count(1)),
    (LAST_LINE, 1, Claim::Count(2)),
    (LAST_LINE, 2, Claim::NoSuchMoment),
    (&[(0, &[Made::Clean(512)])], 0, Claim::NoSuchLine),
    (
        TWO_LINES,
        5,
        Claim::Numbered(0, &[(3, 0), (7, 0)], [0, 0, 0]),
    ),
    (
        TWO_LINES,
        5,
        Claim::Numbered(5, &[(3, 1), (7, 1)], [1, 0, 1]),
    ),
    (
        TWO_LINES,
        5,
        Claim::Numbered(7, &[(3, 1), (7, 3)], [1, 0, 3]),
    ),
    (
        TWO_LINES,
        5,
        Claim::Numbered(11, &[(3, 2), (7, 3)], [2, 0, 3]),
    ),
    (FLOOR, 4, Claim::Found(512, (5, 0), None)),
    (ONE_VALUE_TWICE, 2, Claim::Count(3)),
    (
        ONE_VALUE_TWICE,
        2,
        Claim::Found(512, (4, 0), Some(&[(4, 0)])),
    ),
    (
        ONE_VALUE_TWICE,
        2,
        Claim::Found(512, (4, 7), Some(&[(4, 1)])),
    ),
    (ONE_VALUE_TWICE, 2, Claim::Found(512, (4, 8), None)),
    (ONE_VALUE_TWICE, 2, Claim::Found(513, (4, 0), None)),
];

const NINES: u64 = 0x0909_0909_0909_0909;

/// Images of a medium of zeros but for line 7, which is nines.
static OVER_NINES: [Example; 10] = [
    (TWO_LINES, 5, Claim::Image(&[(3, 2), (7, 0)], [2, 0, NINES])),
    (TWO_LINES, 5, Claim::Image(&[(3, 0), (7, 2)], [0, 0, 2])),
    (TWO_LINES, 5, Claim::NotACut(&[(3, 2), (7, 4)])),
    (TWO_LINES, 5, Claim::NotACut(&[(3, 2)])),
    (TWO_LINES, 5, Claim::NotACut(&[(7, 0), (3, 2)])),
    (TWO_LINES, 5, Claim::NotACut(&[(3, 2), (8, 0)])),
    (TWO_LINES, 5, Claim::NotACut(&[(3, 2), (7, 0), (8, 0)])),
    (
        TWO_LINES,
        5,
        Claim::Lines(&[(3, 1), (7, 2)], [(1, 0), (0, 0), (2, 9)]),
    ),
    (FLOOR, 4, Claim::NotACut(&[(5, 0)])),
    (FLOOR, 4, Claim::Image(&[(5, 1)], [0, 7, NINES])),
];

/// Cuts and their names, by their number up to 65,536 cuts, and else by the lines above their floor.
static NAMES: [Example; 18] = [
    (
        TWO_LINES,
        5,
        Claim::Named(&[(3, 1), (7, 1)], Name::Number(5)),
    ),
    (
        TWO_LINES,
        5,
        Claim::Named(&[(3, 1), (7, 3)], Name::Number(7)),
    ),
    (TWO_LINES, 5, Claim::Refused(Name::Number(12))),
    (
        TWO_LINES,
        5,
        Claim::Accepted(Name::Lines(&[(7, 3)]), &[(3, 0), (7, 3)]),
    ),
    (TWO_LINES, 5, Claim::Refused(Name::Lines(&[(4, 0)]))),
    (TWO_LINES, 5, Claim::Refused(Name::Lines(&[(3, 3)]))),
    (TWO_LINES, 5, Claim::Refused(Name::Lines(&[(3, 1), (7, 4)]))),
    (FLOOR, 4, Claim::Named(&[(5, 2)], Name::Number(1))),
    (FLOOR, 4, Claim::Accepted(Name::Lines(&[(5, 1)]), &[(5, 1)])),
    (FLOOR, 4, Claim::Refused(Name::Lines(&[(5, 0)]))),
    (
        FREE_LINES,
        16,
        Claim::Named(SIXTEEN_AT_ZERO, Name::Number(0)),
    ),
    (
        FREE_LINES,
        16,
        Claim::Named(SIXTEEN_AT_ONE, Name::Number(65_535)),
    ),
    (FREE_LINES, 16, Claim::Refused(Name::Number(65_536))),
    (
        FREE_LINES,
        17,
        Claim::Named(SEVENTEEN_AT_ZERO, Name::Lines(&[])),
    ),
    (
        FREE_LINES,
        17,
        Claim::Named(LAST_AT_ONE, Name::Lines(&[(511, 1)])),
    ),
    (
        FREE_LINES,
        17,
        Claim::Accepted(Name::Lines(&[(4, 0)]), SEVENTEEN_AT_ZERO),
    ),
    (FREE_LINES, 17, Claim::Refused(Name::Number(0))),
    (FREE_LINES, 17, Claim::Refused(Name::Lines(&[(511, 2)]))),
];

const SIXTEEN_AT_ZERO: Entries = &[
    (0, 0),
    (1, 0),
    (2, 0),
    (3, 0),
    (4, 0),
    (5, 0),
    (6, 0),
    (7, 0),
    (8, 0),
    (9, 0),
    (10, 0),
    (11, 0),
    (12, 0),
    (13, 0),
    (14, 0),
    (15, 0),
];

const SIXTEEN_AT_ONE: Entries = &[
    (0, 1),
    (1, 1),
    (2, 1),
    (3, 1),
    (4, 1),
    (5, 1),
    (6, 1),
    (7, 1),
    (8, 1),
    (9, 1),
    (10, 1),
    (11, 1),
    (12, 1),
    (13, 1),
    (14, 1),
    (15, 1),
];

const SEVENTEEN_AT_ZERO: Entries = &[
    (0, 0),
    (1, 0),
    (2, 0),
    (3, 0),
    (4, 0),
    (5, 0),
    (6, 0),
    (7, 0),
    (8, 0),
    (9, 0),
    (10, 0),
    (11, 0),
    (12, 0),
    (13, 0),
    (14, 0),
    (15, 0),
    (511, 0),
];

const LAST_AT_ONE: Entries = &[
    (0, 0),
    (1, 0),
    (2, 0),
    (3, 0),
    (4, 0),
    (5, 0),
    (6, 0),
    (7, 0),
    (8, 0),
    (9, 0),
    (10, 0),
    (11, 0),
    (12, 0),
    (13, 0),
    (14, 0),
    (15, 0),
    (511, 1),
];

/// Moments of traces, from one on and below another, and how many images they have together, where none has over 65,536.
static TOTALS: [(Parts, u32, u32, Option<u64>); 10] = [
    (&[], 0, 1, Some(1)),
    (&[], 0, 0, Some(0)),
    // 1, 2, 3, 3, 4, 4 and 2
    (FENCED, 0, 7, Some(19)),
    (FENCED, 2, 5, Some(10)),
    (FENCED, 6, 7, Some(2)),
    (FENCED, 5, 3, Some(0)),
    // 2^0 up to 2^16, and then 2^17
    (&[(0, SIXTEEN)], 0, 17, Some(131_071)),
    (FREE_LINES, 0, 17, Some(131_071)),
    (FREE_LINES, 0, 18, None),
    (FREE_LINES, 17, 18, None),
];

/// The images of these moments of a trace together.
fn total_of(
    rt: &(impl AllocGlobal + Abort),
    events: Parts,
    first: u32,
    end: u32,
) -> Result<Option<u64>, Fail> {
    let trace = trace_of(rt, events)?;
    assert!(rt; end as usize <= trace.events().len() + 1);
    Ok(images_between(rt.alloc(), &trace, first, end)?)
}

/// The place of the first example that doesn't hold of a medium of zeros but for the bytes of line 7.
fn first_wrong(
    rt: &(impl AllocGlobal + Abort),
    bytes: u8,
    examples: &[Example],
) -> Result<Option<usize>, Fail> {
    for (place, (events, moment, claim)) in examples.iter().enumerate() {
        if !holds(rt, bytes, events, *moment, *claim)? {
            return Ok(Some(place));
        }
    }
    Ok(None)
}

/// Whether a claim holds of a moment of a trace on such a medium.
fn holds(
    rt: &(impl AllocGlobal + Abort),
    bytes: u8,
    events: Parts,
    moment: u32,
    claim: Claim,
) -> Result<bool, Fail> {
    let mut medium = Medium::zero(rt.alloc(), 512)?;
    medium.write_line(7, &[bytes; 64]);
    let trace = trace_of(rt, events)?;
    Ok(holds_at(rt.alloc(), &medium, &trace, moment, claim)?)
}

fn holds_at(
    alloc: Global,
    medium: &Medium,
    trace: &Trace,
    moment: u32,
    claim: Claim,
) -> Result<bool, ImageFault> {
    if !has_lines(medium, trace) {
        return Ok(matches!(claim, Claim::NoSuchLine));
    }
    match Cuts::at(alloc, medium, trace, moment) {
        Ok(cuts) => holds_of(alloc, &cuts, claim),
        Err(ImageFault::NoSuchMoment) => Ok(matches!(claim, Claim::NoSuchMoment)),
        Err(fault) => Err(fault),
    }
}

fn holds_of(alloc: Global, cuts: &Cuts<'_>, claim: Claim) -> Result<bool, ImageFault> {
    match claim {
        Claim::Count(count) => Ok(cuts.count() == Some(count)),
        Claim::TooMany => Ok(cuts.count().is_none()),
        Claim::NoSuchMoment | Claim::NoSuchLine => Ok(false),
        Claim::Numbered(n, entries, words) => is_numbered(alloc, cuts, n, entries, words),
        Claim::Image(entries, words) => is_image(alloc, cuts, entries, Some(words)),
        Claim::NotACut(entries) => is_image(alloc, cuts, entries, None),
        Claim::Lines(entries, lines) => are_lines(alloc, cuts, entries, lines),
        Claim::Found(lines, stored, entries) => is_found(alloc, cuts, lines, stored, entries),
        Claim::Named(entries, name) => Ok(
            is_name(alloc, cuts, entries, name)? && gives(alloc, cuts, name, Some(entries))?,
        ),
        Claim::Accepted(name, entries) => gives(alloc, cuts, name, Some(entries)),
        Claim::Refused(name) => gives(alloc, cuts, name, None),
    }
}

/// Whether lines 3, 5 and 7 begin with these doublewords.
fn has_words(medium: &Medium, words: [u64; 3]) -> bool {
    medium.lines() == 512
        && [
            medium.load(192, 8),
            medium.load(320, 8),
            medium.load(448, 8),
        ] == words
}

/// Whether the cut of a number and its image are these, and the cut is found for the image.
fn is_numbered(
    alloc: Global,
    cuts: &Cuts<'_>,
    n: u32,
    entries: Entries,
    words: [u64; 3],
) -> Result<bool, ImageFault> {
    if !matches!(cuts.count(), Some(count) if n < count) {
        return Ok(false);
    }
    let is_cut = cuts.cut(alloc, n)?.entries() == entries;
    let image = cuts.image(alloc, n)?;
    Ok(is_cut && has_words(&image, words) && finds(alloc, cuts, &image, Some(entries))?)
}

/// Whether this cut is found for a medium.
fn finds(
    alloc: Global,
    cuts: &Cuts<'_>,
    medium: &Medium,
    entries: Option<Entries>,
) -> Result<bool, ImageFault> {
    match cuts.find(alloc, medium)? {
        Some(cut) => Ok(entries == Some(cut.into_entries().as_slice())),
        None => Ok(entries.is_none()),
    }
}

/// Whether the cut of these entries has an image with these doublewords; where there are none, whether they are no cut.
fn is_image(
    alloc: Global,
    cuts: &Cuts<'_>,
    entries: Entries,
    words: Option<[u64; 3]>,
) -> Result<bool, ImageFault> {
    let cut = Cut::from_entries(entries.to_vec(alloc)?);
    match cuts.image_of(alloc, &cut) {
        Ok(image) => match words {
            Some(words) => Ok(cuts.contains(&cut) && has_words(&image, words)),
            None => Ok(false),
        },
        Err(ImageFault::NotACut) => Ok(!cuts.contains(&cut) && words.is_none()),
        Err(fault) => Err(fault),
    }
}

/// Whether lines 3, 5 and 7 of the image of a cut have these first doublewords and then these bytes.
fn are_lines(
    alloc: Global,
    cuts: &Cuts<'_>,
    entries: Entries,
    [first, unstored, last]: [(u64, u8); 3],
) -> Result<bool, ImageFault> {
    let cut = Cut::from_entries(entries.to_vec(alloc)?);
    if !cuts.contains(&cut) || cuts.lines() != 512 {
        return Ok(false);
    }
    Ok(
        cuts.line(&cut, 3) == filled(first)
            && cuts.line(&cut, 5) == filled(unstored)
            && cuts.line(&cut, 7) == filled(last),
    )
}

/// A line of a first doubleword and a byte.
fn filled((word, byte): (u64, u8)) -> [u8; 64] {
    let mut line = [byte; 64];
    line[..8].copy_from_slice(&word.to_le_bytes());
    line
}

/// Whether this cut is found of a medium of so many lines, of zeros but for this number in this line.
fn is_found(
    alloc: Global,
    cuts: &Cuts<'_>,
    lines: u32,
    (line, value): (u32, u64),
    entries: Option<Entries>,
) -> Result<bool, ImageFault> {
    let Ok(mut wanted) = Medium::zero(alloc, lines) else {
        return Err(ImageFault::Memory);
    };
    if line >= wanted.lines() {
        return Ok(false);
    }
    wanted.store(64 * line, 8, value);
    finds(alloc, cuts, &wanted, entries)
}

/// Whether the cut of these entries has this name.
fn is_name(
    alloc: Global,
    cuts: &Cuts<'_>,
    entries: Entries,
    name: Name,
) -> Result<bool, ImageFault> {
    let cut = Cut::from_entries(entries.to_vec(alloc)?);
    if !cuts.contains(&cut) {
        return Ok(false);
    }
    match (cuts.name(alloc, &cut)?, name) {
        (ImageName::Number(number), Name::Number(expected)) => Ok(number == expected),
        (ImageName::Cut(lines), Name::Lines(expected)) => Ok(lines.entries() == expected),
        _ => Ok(false),
    }
}

/// Whether the name gives the cut of these entries; where there are none, whether it is that of no cut.
fn gives(
    alloc: Global,
    cuts: &Cuts<'_>,
    name: Name,
    entries: Option<Entries>,
) -> Result<bool, ImageFault> {
    let name = match name {
        Name::Number(number) => ImageName::Number(number),
        Name::Lines(lines) => ImageName::Cut(Cut::from_entries(lines.to_vec(alloc)?)),
    };
    match cuts.named(alloc, &name) {
        Ok(cut) => Ok(entries == Some(cut.entries())),
        Err(ImageFault::NotACut) => Ok(entries.is_none()),
        Err(fault) => Err(fault),
    }
}

#[test]
fn counts_cuts_and_images(rt: HostRuntime) -> Result<(), Fail> {
    assert_eq!(rt; first_wrong(&rt, 0, &OVER_ZEROS)?, None);
    assert_eq!(rt; first_wrong(&rt, 9, &OVER_NINES)?, None);
    Ok(())
}

#[test]
fn names_and_their_cuts(rt: HostRuntime) -> Result<(), Fail> {
    assert_eq!(rt; first_wrong(&rt, 0, &NAMES)?, None);
    Ok(())
}

#[test]
fn totals_of_traces(rt: HostRuntime) -> Result<(), Fail> {
    for (place, (events, first, end, total)) in TOTALS.iter().enumerate() {
        assert_eq!(rt;
            total_of(&rt, events, *first, *end)?,
            *total,
            "trace {place}"
        );
    }
    Ok(())
}

/// Events of four harts on three lines.
const MANY: Parts = &[
    (0, &[Made::Store(1, 0, 1)]),
    (2, &[Made::Clean(1)]),
    (0, &[Made::Store(0, 0, 1), Made::Begin(1)]),
    (2, &[Made::Clean(0)]),
    (0, &[Made::Store(1, 0, 2)]),
    (2, &[Made::Fence]),
    (0, &[Made::Store(0, 0, 2)]),
    (7, &[Made::Clean(1)]),
    (0, &[Made::Store(2, 0, 1), Made::Clean(0)]),
    (7, &[Made::Fence]),
    (0, &[Made::Store(1, 0, 3)]),
    (2, &[Made::Fence]),
    (0, &[Made::Fence]),
];

/// The step of an event. The eviction that stands for a mark changes no count.
fn step_of(event: Event) -> PersistenceStep {
    match event {
        Event::Store {
            line,
            offset,
            width,
            value,
            ..
        } => PersistenceStep::Store {
            line,
            offset: u32::from(offset),
            width: u32::from(width),
            value,
        },
        Event::Clean { hart, line } => PersistenceStep::Clean { hart, line },
        Event::Fence { hart } => PersistenceStep::Fence { hart },
        Event::Begin { .. } | Event::End { .. } => PersistenceStep::Evict { line: 0 },
    }
}

/// The steps of these events.
fn plain_steps(rt: &(impl AllocGlobal + Abort)) -> Result<[PersistenceStep; 15], TraceFault> {
    let trace = trace_of(rt, MANY)?;
    let mut steps = [PersistenceStep::Evict { line: 0 }; 15];
    for (place, event) in trace.events().iter().enumerate() {
        if place < 15 {
            steps[place] = step_of(*event);
        }
    }
    Ok(steps)
}

#[test]
fn as_the_plain_program(rt: HostRuntime) -> Result<(), Fail> {
    let steps = plain_steps(&rt)?;
    for moment in 0..16 {
        let claim = match count_cuts(&steps[..moment]) {
            Some(count) => Claim::Count(count),
            None => Claim::TooMany,
        };
        assert!(rt;
            holds(&rt, 0, MANY, moment as u32, claim)?,
            "moment {moment}"
        );
    }
    Ok(())
}
