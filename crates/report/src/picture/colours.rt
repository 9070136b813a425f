//! The colours of harts.

use crate::events::{PlacedEvent, hart_of};
use crate::picture::rows::place_of;
use std::alloc::AllocError;
use std::fmt::Write;

/// A colour for each hart.
static COLOURS: [&str; 8] = [
    "#1f77b4", "#d62728", "#2ca02c", "#9467bd", "#ff7f0e", "#8c564b", "#e377c2", "#17becf",
];

/// The colour where there is one hart.
pub(crate) const DARK: &str = "#333333";

/// The harts that a picture has, by their numbers.
#[derive(Clone, Copy)]
pub(crate) struct Palette {
    harts: [bool; 8],
}

impl Palette {
    /// That of the harts of these events.
    pub(crate) fn of(events: &[PlacedEvent<'_>]) -> Palette {
        let mut harts = [false; 8];
        for told in events {
            harts[place_of(hart_of(told.event))] = true;
        }
        Palette { harts }
    }

    /// Whether there are several harts.
    fn has_several(&self) -> bool {
        let mut count = 0u32;
        for is_there in &self.harts {
            if *is_there {
                count = count.saturating_add(1);
            }
        }
        count > 1
    }

    /// The colour of a hart, where there are several.
    pub(crate) fn colour(&self, hart: u32) -> &'static str {
        if self.has_several() {
            COLOURS[place_of(hart)]
        } else {
            DARK
        }
    }

    /// Adds the name of each hart in its colour, where there are several.
    pub(crate) fn push_names(
        &self,
        text: &mut String,
        left: u64,
        base: u64,
    ) -> Result<(), AllocError> {
        if !self.has_several() {
            return Ok(());
        }
        write!(text, "<text x=\"{left}\" y=\"{base}\">")?;
        for hart in 0..8usize {
            if self.harts[hart] {
                let colour = COLOURS[hart];
                write!(text, "<tspan dx=\"6\" fill=\"{colour}\">h{hart}</tspan>")?;
            }
        }
        writeln!(text, "</text>")
    }
}
