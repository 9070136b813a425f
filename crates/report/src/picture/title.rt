//! The title of an event in a picture.

use crate::events::{ActText, EventKind, PlacedEvent, hart_of};
use crate::form::Form;
use crate::origin::{ExecutablePlace, FileLine, FunctionPlace, Origin};
use crate::printed_name::PrintedByte;
use crate::printed_words::WordByte;
use std::fmt;

/// An event and where it was made, as `trace` prints it.
#[derive(Clone, Copy)]
pub(crate) struct Title<'a> {
    pub(crate) told: PlacedEvent<'a>,
}

impl fmt::Display for Title<'_> {
    fn fmt<W: fmt::Write>(&self, f: &mut fmt::Formatter<W>) -> fmt::Result {
        let PlacedEvent { step, at, event } = self.told;
        let hart = hart_of(event);
        let pc = at.pc;
        let kind = EventKind { event };
        let act = ActText { event };
        match at.origin {
            Origin::Executable(place) => {
                let place = XmlPlace { place };
                write!(f, "h{hart} step={step} pc=0x{pc:x}{place} {kind}{act}")
            }
            Origin::Words(words) => {
                let words = XmlWords { words };
                write!(f, "h{hart}{words} {kind}{act}")
            }
            Origin::Unknown | Origin::Line(_) => write!(f, "{}", self.told),
        }
    }
}

/// The place of an executable, each thing behind a blank, with names whose markup is escaped.
#[derive(Clone, Copy)]
struct XmlPlace<'a> {
    place: ExecutablePlace<'a>,
}

impl fmt::Display for XmlPlace<'_> {
    fn fmt<W: fmt::Write>(&self, f: &mut fmt::Formatter<W>) -> fmt::Result {
        if let Some(FileLine { name, line }) = self.place.line {
            let name = XmlName { name };
            write!(f, " at={name}:{line}")?;
        }
        if let Some(FunctionPlace { name, offset }) = self.place.function {
            let name = XmlName { name };
            write!(f, " in={name}+0x{offset:x}")?;
        }
        Ok(())
    }
}

/// A name whose markup is escaped (XML 1.0, section 2.4).
#[derive(Clone, Copy)]
pub(crate) struct XmlName<'a> {
    pub(crate) name: &'a [u8],
}

impl fmt::Display for XmlName<'_> {
    fn fmt<W: fmt::Write>(&self, f: &mut fmt::Formatter<W>) -> fmt::Result {
        for byte in self.name {
            match *byte {
                b'<' => write!(f, "&lt;")?,
                b'>' => write!(f, "&gt;")?,
                b'&' => write!(f, "&amp;")?,
                byte => {
                    let form = Form::Text;
                    write!(f, "{}", PrintedByte { byte, form })?;
                }
            }
        }
        Ok(())
    }
}

/// Place words whose markup is escaped.
#[derive(Clone, Copy)]
pub(crate) struct XmlWords<'a> {
    pub(crate) words: &'a [u8],
}

impl fmt::Display for XmlWords<'_> {
    fn fmt<W: fmt::Write>(&self, f: &mut fmt::Formatter<W>) -> fmt::Result {
        for byte in self.words {
            match *byte {
                b'<' => write!(f, "&lt;")?,
                b'>' => write!(f, "&gt;")?,
                b'&' => write!(f, "&amp;")?,
                byte => {
                    let form = Form::Text;
                    write!(f, "{}", WordByte { byte, form })?;
                }
            }
        }
        Ok(())
    }
}
