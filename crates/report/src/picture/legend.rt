//! What stands above the rows of a picture: how the stores fare, and what the shapes mean.

use crate::events::PlacedEvent;
use crate::picture::colours::{DARK, Palette};
use crate::picture::marks::{Fate, Outline, Overlay, Shape, fate_of, number_in};
use crate::picture::rows::Row;
use crate::picture::svg::ImageLine;
use std::alloc::AllocError;
use std::fmt;
use std::fmt::Write;

/// Where the legend begins, and how wide its columns are, in pixels.
const LEFT: u64 = 12;

const COLUMN: u64 = 118;

/// The upper edges of its two rows.
const STORES_TOP: u64 = 26;

const EVENTS_TOP: u64 = 44;

/// How wide a picture is at least, so that the legend fits.
pub(crate) const LEAST_WIDTH: u64 = 560;

/// How many stores of some rows have each fate.
#[derive(Clone, Copy)]
struct Fates {
    durable: u32,
    at_risk: u32,
    kept: u32,
    lost: u32,
}

impl Fates {
    fn of(rows: &[Row], image: Option<&[ImageLine]>) -> Fates {
        let mut fates = Fates {
            durable: 0,
            at_risk: 0,
            kept: 0,
            lost: 0,
        };
        for row in rows {
            fates.add(row, number_in(image, row.line));
        }
        fates
    }

    fn add(&mut self, row: &Row, image: Option<u32>) {
        for number in 0..row.stores {
            match fate_of(number.saturating_add(1), row, image) {
                Fate::Durable => self.durable = self.durable.saturating_add(1),
                Fate::AtRisk => self.at_risk = self.at_risk.saturating_add(1),
                Fate::Kept => self.kept = self.kept.saturating_add(1),
                Fate::Lost => self.lost = self.lost.saturating_add(1),
            }
        }
    }
}

/// Adds the title: the moment, and how its stores fare, all of them by these rows.
pub(crate) fn push_title(
    text: &mut String,
    events: &[PlacedEvent<'_>],
    rows: &[Row],
    image: Option<&[ImageLine]>,
) -> Result<(), AllocError> {
    let left = LEFT;
    let moment = events.len();
    let Fates {
        durable,
        at_risk,
        kept,
        lost,
    } = Fates::of(rows, image);
    write!(
        text,
        "<text x=\"{left}\" y=\"16\" font-size=\"13\" font-weight=\"bold\">power cut at moment {moment}: stores "
    )?;
    match image {
        Some(_) => write!(text, "lost {lost}, kept {kept}")?,
        None => write!(text, "at risk {at_risk}")?,
    }
    writeln!(text, ", durable {durable}</text>")
}

/// A shape of the legend with what it means.
#[derive(Clone, Copy)]
struct Entry {
    shape: Shape,
    column: u64,
    top: u64,
    meaning: &'static str,
}

impl fmt::Display for Entry {
    fn fmt<W: fmt::Write>(&self, f: &mut fmt::Formatter<W>) -> fmt::Result {
        let left = self.column.saturating_mul(COLUMN).saturating_add(LEFT);
        let outline = Outline {
            shape: self.shape,
            left,
            top: self.top,
            colour: DARK,
        };
        let overlay = Overlay { outline };
        let behind = left.saturating_add(16);
        let base = self.top.saturating_add(10);
        let meaning = self.meaning;
        write!(
            f,
            "<text x=\"{behind}\" y=\"{base}\">{meaning}</text>{outline}/>{overlay}"
        )
    }
}

/// Adds what the shapes mean, and the names of the harts where there are several.
pub(crate) fn push_legend(
    text: &mut String,
    has_image: bool,
    palette: Palette,
) -> Result<(), AllocError> {
    push_entry(
        text,
        Shape::Store(Fate::Durable),
        (0, STORES_TOP),
        "durable store",
    )?;
    if has_image {
        push_entry(
            text,
            Shape::Store(Fate::Kept),
            (1, STORES_TOP),
            "kept store",
        )?;
        push_entry(
            text,
            Shape::Store(Fate::Lost),
            (2, STORES_TOP),
            "lost store",
        )?;
    } else {
        push_entry(
            text,
            Shape::Store(Fate::AtRisk),
            (1, STORES_TOP),
            "store at risk",
        )?;
    }
    push_entry(text, Shape::Clean, (0, EVENTS_TOP), "clean")?;
    push_entry(text, Shape::Fence, (1, EVENTS_TOP), "fence")?;
    push_entry(text, Shape::Begin, (2, EVENTS_TOP), "begin")?;
    push_entry(text, Shape::End, (3, EVENTS_TOP), "end")?;
    let left = COLUMN.saturating_mul(3).saturating_add(LEFT);
    palette.push_names(text, left, STORES_TOP.saturating_add(10))
}

/// Adds an entry at a column and an upper edge.
fn push_entry(
    text: &mut String,
    shape: Shape,
    place: (u64, u64),
    meaning: &'static str,
) -> Result<(), AllocError> {
    let (column, top) = place;
    let entry = Entry {
        shape,
        column,
        top,
        meaning,
    };
    writeln!(text, "{entry}")
}
