//! The whole picture.

use crate::events::PlacedEvent;
use crate::picture::colours::Palette;
use crate::picture::labels::{height_of, labels_of, push_labels};
use crate::picture::legend::{LEAST_WIDTH, push_legend};
use crate::picture::marks::{
    DrawnRow, MARKS_TOP, left_of, number_in, push_other_marks, push_row_marks, top_of,
};
use crate::picture::rows::Row;
use crate::picture::svg::ImageLine;
use std::alloc::{AllocError, Global};
use std::fmt;
use std::fmt::Write;
use store_trace::Event;

/// How wide what stands behind a row is, in pixels.
const BEHIND: u64 = 230;

/// Events, which are the last ones before the power cut, with how many stand before them, and the rows that are drawn of them.
#[derive(Clone, Copy)]
pub(crate) struct Drawing<'a, 'b> {
    pub(crate) events: &'a [PlacedEvent<'b>],
    pub(crate) before: usize,
    pub(crate) rows: &'a [Row],
    pub(crate) image: Option<&'a [ImageLine]>,
}

/// Draws rows over the columns of events, below a title.
pub(crate) fn draw(
    alloc: Global,
    title: &str,
    drawing: Drawing<'_, '_>,
) -> Result<String, AllocError> {
    let labels = labels_of(alloc, drawing.events, drawing.before)?;
    let palette = Palette::of(drawing.events);
    let right = left_of(drawing.events.len());
    let bottom = top_of(drawing.rows.len());
    let width = right.saturating_add(BEHIND).max(LEAST_WIDTH);
    let mut text = String::new(alloc);
    push_head(&mut text, width, bottom.saturating_add(height_of(&labels)))?;
    text.push_str(title)?;
    push_legend(&mut text, drawing.image.is_some(), palette)?;
    push_cut(&mut text, right, bottom)?;
    push_other_marks(&mut text, drawing.events, palette)?;
    push_rows(&mut text, drawing, palette)?;
    push_labels(&mut text, &labels, bottom)?;
    writeln!(text, "</svg>")?;
    Ok(text)
}

fn push_head(text: &mut String, width: u64, height: u64) -> Result<(), AllocError> {
    writeln!(
        text,
        "<svg xmlns=\"http://www.w3.org/2000/svg\" width=\"{width}\" height=\"{height}\" font-family=\"monospace\" font-size=\"11\">"
    )?;
    writeln!(
        text,
        "<rect width=\"100%\" height=\"100%\" fill=\"#ffffff\"/>"
    )
}

/// Adds the power cut, a line behind the last column.
fn push_cut(text: &mut String, left: u64, bottom: u64) -> Result<(), AllocError> {
    let behind = left.saturating_add(6);
    let top = MARKS_TOP;
    let base = top.saturating_add(10);
    writeln!(
        text,
        "<line x1=\"{left}\" y1=\"{top}\" x2=\"{left}\" y2=\"{bottom}\" stroke=\"#d62728\" stroke-dasharray=\"4 3\"/>"
    )?;
    writeln!(
        text,
        "<text x=\"{behind}\" y=\"{base}\" fill=\"#d62728\">power cut</text>"
    )
}

/// Adds the rows, each with its name before it and its marks.
fn push_rows(
    text: &mut String,
    drawing: Drawing<'_, '_>,
    palette: Palette,
) -> Result<(), AllocError> {
    let right = left_of(drawing.events.len());
    for (number, row) in drawing.rows.iter().enumerate() {
        let drawn = DrawnRow {
            row,
            image: number_in(drawing.image, row.line),
            top: top_of(number),
        };
        writeln!(text, "{}", Label { drawn, right })?;
        let before = stores_before(drawing.events, row);
        push_row_marks(text, drawing.events, drawn, before, palette)?;
    }
    Ok(())
}

/// How many stores of a row come before these events.
fn stores_before(events: &[PlacedEvent<'_>], row: &Row) -> u32 {
    let mut before = row.stores;
    for told in events {
        if is_store_to(told.event, row.line) {
            before = before.saturating_sub(1);
        }
    }
    before
}

fn is_store_to(event: Event, line: u32) -> bool {
    matches!(event, Event::Store { line: other, .. } if other == line)
}

/// The name of a row before it, a thin line along it, and behind it how many of its stores stay.
#[derive(Clone, Copy)]
struct Label<'a> {
    drawn: DrawnRow<'a>,
    right: u64,
}

impl fmt::Display for Label<'_> {
    fn fmt<W: fmt::Write>(&self, f: &mut fmt::Formatter<W>) -> fmt::Result {
        let Row {
            line,
            stores,
            floor,
            ..
        } = *self.drawn.row;
        let base = self.drawn.top.saturating_add(10);
        let middle = self.drawn.top.saturating_add(6);
        let right = self.right;
        let behind = right.saturating_add(6);
        write!(f, "<text x=\"8\" y=\"{base}\">l{line}</text>")?;
        write!(
            f,
            "<line x1=\"84\" y1=\"{middle}\" x2=\"{right}\" y2=\"{middle}\" stroke=\"#dddddd\"/>"
        )?;
        write!(
            f,
            "<text x=\"{behind}\" y=\"{base}\">floor {floor} of {stores}"
        )?;
        if let Some(number) = self.drawn.image {
            write!(f, ", image {number}")?;
        }
        write!(f, "</text>")
    }
}
