//! How the events of a picture are drawn.

use crate::events::{PlacedEvent, hart_of};
use crate::picture::colours::Palette;
use crate::picture::rows::Row;
use crate::picture::svg::ImageLine;
use crate::picture::title::Title;
use std::alloc::AllocError;
use std::fmt;
use std::fmt::Write;
use store_trace::Event;

/// Where the first column and the first row begin, and how far apart they are, in pixels.
const LEFT: u64 = 90;

const TOP: u64 = 96;

const COLUMN: u64 = 14;

const ROW: u64 = 20;

/// The upper edge of the marks that belong to no row.
pub(crate) const MARKS_TOP: u64 = 70;

/// The left edge of a column.
pub(crate) fn left_of(column: usize) -> u64 {
    (column as u64).saturating_mul(COLUMN).saturating_add(LEFT)
}

/// The upper edge of a row.
pub(crate) fn top_of(row: usize) -> u64 {
    (row as u64).saturating_mul(ROW).saturating_add(TOP)
}

/// What the power cut does to a store.
#[derive(Clone, Copy, PartialEq, Eq)]
pub(crate) enum Fate {
    /// It is on the medium for certain.
    Durable,
    /// It may be lost, and no image is shown.
    AtRisk,
    /// It may be lost, and the image has it.
    Kept,
    /// The image lacks it.
    Lost,
}

/// The fate of a row's store of this number, from 1.
pub(crate) fn fate_of(number: u32, row: &Row, image: Option<u32>) -> Fate {
    if number <= row.floor {
        return Fate::Durable;
    }
    match image {
        None => Fate::AtRisk,
        Some(stores) if number <= stores => Fate::Kept,
        Some(_) => Fate::Lost,
    }
}

/// What is drawn of an event.
#[derive(Clone, Copy)]
pub(crate) enum Shape {
    /// A square: full, hollow, half full or crossed.
    Store(Fate),
    /// A disc.
    Clean,
    /// A bar.
    Fence,
    /// A triangle that points to the right.
    Begin,
    /// A triangle that points to the left.
    End,
}

/// The shape of an event; of a store, by its fate.
fn shape_of(event: Event, fate: Fate) -> Shape {
    match event {
        Event::Store { .. } => Shape::Store(fate),
        Event::Clean { .. } => Shape::Clean,
        Event::Fence { .. } => Shape::Fence,
        Event::Begin { .. } => Shape::Begin,
        Event::End { .. } => Shape::End,
    }
}

/// A shape at a place, of 10 by 12 pixels.
#[derive(Clone, Copy)]
pub(crate) struct Outline {
    pub(crate) shape: Shape,
    pub(crate) left: u64,
    pub(crate) top: u64,
    pub(crate) colour: &'static str,
}

impl Outline {
    /// The name of its element.
    pub(crate) fn element(self) -> &'static str {
        match self.shape {
            Shape::Store(_) => "rect",
            Shape::Clean => "ellipse",
            Shape::Fence | Shape::Begin | Shape::End => "path",
        }
    }
}

/// The start of its element, which is still open.
impl fmt::Display for Outline {
    fn fmt<W: fmt::Write>(&self, f: &mut fmt::Formatter<W>) -> fmt::Result {
        let Outline {
            shape,
            left,
            top,
            colour,
        } = *self;
        match shape {
            Shape::Store(fate) => {
                let fill = if fate == Fate::Durable {
                    colour
                } else {
                    "#ffffff"
                };
                write!(
                    f,
                    "<rect x=\"{left}\" y=\"{top}\" width=\"10\" height=\"12\" fill=\"{fill}\" stroke=\"{colour}\""
                )
            }
            Shape::Clean => write!(
                f,
                "<ellipse cx=\"{left}\" cy=\"{top}\" rx=\"5\" ry=\"5\" fill=\"{colour}\" transform=\"translate(5 6)\""
            ),
            Shape::Fence => write!(
                f,
                "<path d=\"M{left} {top}v12\" stroke=\"{colour}\" stroke-width=\"3\" transform=\"translate(5 0)\""
            ),
            Shape::Begin => write!(f, "<path d=\"M{left} {top}l10 6l-10 6z\" fill=\"{colour}\""),
            Shape::End => write!(
                f,
                "<path d=\"M{left} {top}m10 0l-10 6l10 6z\" fill=\"{colour}\""
            ),
        }
    }
}

/// What is drawn over a store: a half of it that is full, or a cross. The mouse goes through it.
#[derive(Clone, Copy)]
pub(crate) struct Overlay {
    pub(crate) outline: Outline,
}

impl fmt::Display for Overlay {
    fn fmt<W: fmt::Write>(&self, f: &mut fmt::Formatter<W>) -> fmt::Result {
        let Outline {
            shape,
            left,
            top,
            colour,
        } = self.outline;
        match shape {
            Shape::Store(Fate::Kept) => write!(
                f,
                "<path d=\"M{left} {top}m0 6h10v6h-10z\" fill=\"{colour}\" pointer-events=\"none\"/>"
            ),
            Shape::Store(Fate::Lost) => write!(
                f,
                "<path d=\"M{left} {top}l10 12m0 -12l-10 12\" fill=\"none\" stroke=\"{colour}\" stroke-width=\"2\" pointer-events=\"none\"/>"
            ),
            _ => Ok(()),
        }
    }
}

/// The mark of an event, with a title that tells where it was made.
#[derive(Clone, Copy)]
struct Mark<'a> {
    told: PlacedEvent<'a>,
    outline: Outline,
}

impl fmt::Display for Mark<'_> {
    fn fmt<W: fmt::Write>(&self, f: &mut fmt::Formatter<W>) -> fmt::Result {
        let title = Title { told: self.told };
        let outline = self.outline;
        let element = outline.element();
        let overlay = Overlay { outline };
        write!(f, "{outline}><title>{title}</title></{element}>{overlay}")
    }
}

/// A row of a picture, and how many of its stores the image has, where one is shown.
#[derive(Clone, Copy)]
pub(crate) struct DrawnRow<'a> {
    pub(crate) row: &'a Row,
    pub(crate) image: Option<u32>,
    pub(crate) top: u64,
}

/// Adds the marks of the events in a row: of its stores, the first of which has the number after `before`, and of its cleans.
pub(crate) fn push_row_marks(
    text: &mut String,
    events: &[PlacedEvent<'_>],
    drawn: DrawnRow<'_>,
    before: u32,
    palette: Palette,
) -> Result<(), AllocError> {
    let mut stores = before;
    for (column, told) in events.iter().enumerate() {
        if !is_in_row(told.event, drawn.row.line) {
            continue;
        }
        if matches!(told.event, Event::Store { .. }) {
            stores = stores.saturating_add(1);
        }
        let fate = fate_of(stores, drawn.row, drawn.image);
        let outline = Outline {
            shape: shape_of(told.event, fate),
            left: left_of(column),
            top: drawn.top,
            colour: palette.colour(hart_of(told.event)),
        };
        let told = *told;
        writeln!(text, "{}", Mark { told, outline })?;
    }
    Ok(())
}

/// Whether an event is a store to a line or a clean of it.
pub(crate) fn is_in_row(event: Event, line: u32) -> bool {
    match event {
        Event::Store { line: other, .. } | Event::Clean { line: other, .. } => other == line,
        Event::Fence { .. } | Event::Begin { .. } | Event::End { .. } => false,
    }
}

/// Adds the marks of the events that belong to no row, above the rows.
pub(crate) fn push_other_marks(
    text: &mut String,
    events: &[PlacedEvent<'_>],
    palette: Palette,
) -> Result<(), AllocError> {
    for (column, told) in events.iter().enumerate() {
        if matches!(
            told.event,
            Event::Fence { .. } | Event::Begin { .. } | Event::End { .. }
        ) {
            let outline = Outline {
                shape: shape_of(told.event, Fate::Durable),
                left: left_of(column),
                top: MARKS_TOP,
                colour: palette.colour(hart_of(told.event)),
            };
            let told = *told;
            writeln!(text, "{}", Mark { told, outline })?;
        }
    }
    Ok(())
}

/// How many stores of a line the image has, where one is shown that tells it.
pub(crate) fn number_in(image: Option<&[ImageLine]>, line: u32) -> Option<u32> {
    let entry = image?.iter().find(|entry| entry.line == line)?;
    Some(entry.stores)
}
