//! What stands below the columns of a picture: the number of each event, and where it comes from.

use crate::events::PlacedEvent;
use crate::origin::Origin;
use crate::picture::marks::left_of;
use crate::picture::title::{XmlName, XmlWords};
use std::alloc::{AllocError, Global};
use std::fmt;
use std::fmt::Write;
use text::{Blanks, first_word};

/// How many bytes of a file's name, or of a place word, are shown at most.
const MOST_BYTES: usize = 64;

/// How wide a byte of a label is at most, in pixels.
const WIDTH: u64 = 6;

/// The labels of events, the first of which has the number after `before`.
pub(crate) fn labels_of(
    alloc: Global,
    events: &[PlacedEvent<'_>],
    before: usize,
) -> Result<Vec<String>, AllocError> {
    let mut labels = Vec::new(alloc);
    let mut number = before;
    for told in events {
        number = number.saturating_add(1);
        let label = Label {
            number,
            origin: told.at.origin,
        };
        labels.push(format!(in alloc; "{label}")?)?;
    }
    Ok(labels)
}

/// How high the labels are, which stand upright.
pub(crate) fn height_of(labels: &[String]) -> u64 {
    let mut longest = 0;
    for label in labels {
        longest = label.len().max(longest);
    }
    (longest as u64).saturating_mul(WIDTH).saturating_add(16)
}

/// Adds the labels, downwards from an edge.
pub(crate) fn push_labels(
    text: &mut String,
    labels: &[String],
    top: u64,
) -> Result<(), AllocError> {
    for (column, label) in labels.iter().enumerate() {
        let left = left_of(column).saturating_add(2);
        let label = label.as_str();
        writeln!(
            text,
            "<text x=\"{left}\" y=\"{top}\" font-size=\"9\" transform=\"rotate(90 {left} {top})\">{label}</text>"
        )?;
    }
    Ok(())
}

/// The number of an event, and the line that it comes from.
#[derive(Clone, Copy)]
struct Label<'a> {
    number: usize,
    origin: Origin<'a>,
}

impl fmt::Display for Label<'_> {
    fn fmt<W: fmt::Write>(&self, f: &mut fmt::Formatter<W>) -> fmt::Result {
        write!(f, "{}", self.number)?;
        match self.origin {
            Origin::Unknown => Ok(()),
            Origin::Line(line) => write!(f, " line={line}"),
            Origin::Executable(place) => match place.line {
                Some(at) => {
                    let name = XmlName {
                        name: at_most(at.name, MOST_BYTES),
                    };
                    let line = at.line;
                    write!(f, " at={name}:{line}")
                }
                None => Ok(()),
            },
            Origin::Words(words) => match source_word(words) {
                Some(word) => {
                    let words = XmlWords {
                        words: at_most(word, MOST_BYTES),
                    };
                    write!(f, " {words}")
                }
                None => Ok(()),
            },
        }
    }
}

/// The first place word that names a line of a source.
fn source_word(words: &[u8]) -> Option<&[u8]> {
    let mut rest = words;
    while let Some((word, behind)) = first_word(rest, Blanks::Spaces) {
        if word.starts_with(b"line=") || word.starts_with(b"at=") {
            return Some(word);
        }
        rest = behind;
    }
    None
}

/// So many bytes, or all where there are fewer.
fn at_most(bytes: &[u8], most: usize) -> &[u8] {
    if bytes.len() > most {
        &bytes[..most]
    } else {
        bytes
    }
}
