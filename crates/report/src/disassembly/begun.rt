//! The lines of a source and the places of an executable, each at the first word that it gives.

ghost use Rattle.asm_lex.specs.Lines.{lines_of};
ghost use Rattle.report.specs.Begun.{begun_at, begun_text, entered_at, entered_text, goes_on, line_named, place_in, same_function, same_line, stays, unplaced};
ghost use Rattle.report.specs.Places.{known_executable, known_function, known_line, known_origin, origin_in};
ghost use Rattle.std.specs.Prelude.{◌≡◌, ◌++◌, ◌≤◌, IfOk, IfSome, OnOk, map, option_map};

use crate::disassembly::words::WORD_SIZE;
use crate::origin::FunctionBehind;
use crate::{ExecutablePlace, FileLine, FunctionPlace, Origin, Places};
use asm_lex::next_line;
use std::alloc::{AllocError, Global};
use std::fmt;

/// The lines of a source, without their ends.
#[tactic(auto, using(crate::proofs::SourceLines::lines_pushed, crate::proofs::SourceLines::lines_ended))]
pub(crate) fn lines_of(alloc: Global, source: &[u8]) -> Result<Vec<&[u8]>, AllocError>
    ensures { IfOk result (λ lines. map (λ line. line.now) lines.items ≡ lines_of source.now) }
{
    let mut lines = Vec::new(alloc);
    let mut rest = source;
    while let Some((line, after)) = next_line(rest) {
        lines.push(line)?;
        rest = after;
    }
    Ok(lines)
}

/// The number of the line whose first word stands at an address of text.
pub(crate) fn begun_at(places: &Places<'_>, address: u64) -> Option<u32>
    requires { 4 ≤ address }
    ensures begun { result ≡ begun_at (origin_in places.now) address }
    ensures from_one { IfSome result (λ number. 1 ≤ number) }
{
    let here = places.line_of(address)?;
    match places.line_of(address - WORD_SIZE as u64) {
        Some(before) if before == here => None,
        _ => Some(here),
    }
}

/// Adds the number of a line that begins, and the line, behind a tab.
pub(crate) fn tell_begun(
    alloc: Global,
    listing: &mut Vec<u8>,
    begun: Option<u32>,
    lines: &[&[u8]],
) -> Result<(), AllocError>
    requires { IfSome begun (λ number. 1 ≤ number) }
    ensures { OnOk result (listing.new.items ≡ listing.old.items ++ begun_text (map (λ line. line.now) lines.now) begun) }
{
    let Some(number) = begun else {
        return Ok(());
    };
    let shown = format!(in alloc; "\t{number} ")?;
    listing.extend_from_slice(shown.as_bytes())?;
    listing.extend_from_slice(line_named(lines, number))?;
    Ok(())
}

/// The place in an executable of the word at an address of text, where its line or its function isn't that of the word before.
pub(crate) fn entered_at<'a>(places: &'a Places<'_>, address: u64) -> ExecutablePlace<'a>
    requires { 4 ≤ address }
    ensures { known_executable result ≡ entered_at (origin_in places.now) address }
{
    let here = place_in(places.origin_at(address));
    let before = place_in(places.origin_at(address - WORD_SIZE as u64));
    if stays(before, here) {
        unplaced()
    } else {
        here
    }
}

/// The place in an executable; that of others says nothing.
fn place_in(origin: Origin<'_>) -> ExecutablePlace<'_>
    ensures { known_executable result ≡ place_in (known_origin origin.entry) }
{
    match origin {
        Origin::Executable(place) => place,
        Origin::Unknown | Origin::Line(_) | Origin::Words(_) => unplaced(),
    }
}

/// The place of which nothing is known.
fn unplaced<'a>() -> ExecutablePlace<'a>
    ensures { known_executable result ≡ unplaced }
{
    ExecutablePlace {
        line: None,
        function: None,
    }
}

/// Whether a word has the line and the function of the word before it.
fn stays(before: ExecutablePlace<'_>, here: ExecutablePlace<'_>) -> bool
    ensures { result ≡ stays (known_executable before.entry) (known_executable here.entry) }
{
    same_line(before.line, here.line) && same_function(before.function, here.function)
}

/// Whether a word comes from the line of the word before it.
fn same_line(before: Option<FileLine<'_>>, here: Option<FileLine<'_>>) -> bool
    ensures { result ≡ same_line (option_map known_line before.entry) (option_map known_line here.entry) }
{
    match (before, here) {
        (Some(before), Some(here)) => before.line == here.line && before.name == here.name,
        (None, None) => true,
        (None, Some(_)) | (Some(_), None) => false,
    }
}

/// Whether a word is in the function of the word before it.
fn same_function(before: Option<FunctionPlace<'_>>, here: Option<FunctionPlace<'_>>) -> bool
    ensures { result ≡ same_function (option_map known_function before.entry) (option_map known_function here.entry) }
{
    match (before, here) {
        (Some(before), Some(here)) => goes_on(before, here),
        (None, None) => true,
        (None, Some(_)) | (Some(_), None) => false,
    }
}

/// Whether a word of a function goes on where the word before it stood.
fn goes_on(before: FunctionPlace<'_>, here: FunctionPlace<'_>) -> bool
    ensures { result ≡ goes_on (known_function before.entry) (known_function here.entry) }
{
    here.offset >= WORD_SIZE as u64
        && here.offset - WORD_SIZE as u64 == before.offset
        && before.name == here.name
}

/// Adds the place in an executable that is entered, behind a tab.
pub(crate) fn tell_entered(
    alloc: Global,
    listing: &mut Vec<u8>,
    entered: ExecutablePlace<'_>,
) -> Result<(), AllocError>
    ensures { OnOk result (listing.new.items ≡ listing.old.items ++ entered_text (known_executable entered.entry)) }
{
    let place = TabbedPlace { place: entered };
    let shown = format!(in alloc; "{place}")?;
    listing.extend_from_slice(shown.as_bytes())
}

/// A place in an executable behind a tab: `at=FILE:LINE in=NAME+0xOFF`, or the one of the two that there is. Where neither is, nothing.
#[derive(Clone, Copy)]
struct TabbedPlace<'a> {
    place: ExecutablePlace<'a>,
}

impl fmt::Display for TabbedPlace<'_> {
    ghost use Rattle.std.specs.Prelude.{Some};
    ghost use Rattle.report.specs.Begun.{entered_text};
    ghost use Rattle.report.specs.Places.{known_executable};

    ghost output = { λ shown. Some (entered_text (known_executable shown.place)) };

    fn fmt<W: fmt::Write>(&self, f: &mut fmt::Formatter<W>) -> fmt::Result {
        match (self.place.line, self.place.function) {
            (None, None) => Ok(()),
            (None, Some(place)) => write!(f, "\t{place}"),
            (Some(line), place) => {
                let place = FunctionBehind { place };
                write!(f, "\t{line}{place}")
            }
        }
    }
}

/// The line of a number, from 1.
fn line_named<'a>(lines: &[&'a [u8]], number: u32) -> &'a [u8]
    requires { 1 ≤ number }
    ensures { result.now ≡ line_named (map (λ line. line.now) lines.now) number }
{
    match lines.get(number as usize - 1) {
        Some(line) => line,
        None => &[],
    }
}
