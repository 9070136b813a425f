//! What is known of each cache line.

ghost use Rattle.std.specs.Prelude.{◌<◌};

use crate::events::PlacedEvent;
use std::alloc::{AllocError, Global};
use store_trace::Event;

/// A cache line with its stores, how many of them are on the medium for certain, and how many each hart's last clean has met.
#[derive(Clone, Copy)]
pub struct Row {
    pub(crate) line: u32,
    pub(crate) stores: u32,
    pub(crate) floor: u32,
    cleaned: [u32; 8],
}

impl Row {
    fn new(line: u32) -> Row {
        Row {
            line,
            stores: 1,
            floor: 0,
            cleaned: [0; 8],
        }
    }

    /// Whether a power cut may lose a store.
    pub(crate) fn may_lose(&self) -> bool {
        self.floor < self.stores
    }

    fn clean(&mut self, hart: u32) {
        self.cleaned[place_of(hart)] = self.stores;
    }

    fn fence(&mut self, hart: u32) {
        let cleaned = self.cleaned[place_of(hart)];
        if self.floor < cleaned {
            self.floor = cleaned;
        }
    }
}

/// The place of a hart in a table of eight.
pub(crate) fn place_of(hart: u32) -> usize
    ensures { result < 8 }
{
    hart as usize % 8
}

/// The rows of the cache lines that events store to, upwards.
pub(crate) fn rows_of(alloc: Global, events: &[PlacedEvent<'_>]) -> Result<Vec<Row>, AllocError> {
    let mut rows = Vec::new(alloc);
    for told in events {
        note(&mut rows, told.event)?;
    }
    Ok(rows)
}

fn note(rows: &mut Vec<Row>, event: Event) -> Result<(), AllocError> {
    match event {
        Event::Store { line, .. } => store(rows, line),
        Event::Clean { hart, line } => {
            clean(rows, hart, line);
            Ok(())
        }
        Event::Fence { hart } => {
            fence(rows, hart);
            Ok(())
        }
        Event::Begin { .. } | Event::End { .. } => Ok(()),
    }
}

fn store(rows: &mut Vec<Row>, line: u32) -> Result<(), AllocError> {
    let place = rows.partition_point(|row| row.line < line);
    if place < rows.len() && rows[place].line == line {
        let row = &mut rows[place];
        row.stores = row.stores.saturating_add(1);
        return Ok(());
    }
    rows.insert(place, Row::new(line))?;
    Ok(())
}

fn clean(rows: &mut Vec<Row>, hart: u32, line: u32) {
    let place = rows.partition_point(|row| row.line < line);
    if place < rows.len() && rows[place].line == line {
        rows[place].clean(hart);
    }
}

fn fence(rows: &mut Vec<Row>, hart: u32) {
    for row in rows.iter_mut() {
        row.fence(hart);
    }
}
