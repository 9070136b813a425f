//! The request for the answer of an outside recovery on an image.

ghost use Rattle.command_line.specs.Requests.{changed_below, changed_line, raised_below, raised_entry, request_text};
ghost use Rattle.command_line.specs.Traces.{name_in};
ghost use Rattle.std.specs.Prelude.{◌≡◌, ◌<◌, ◌++◌, IfOk, OnOk, length, string_bytes};

use crate::events::OpenEvents;
use routine_judge::Wanted;
use std::alloc::{AllocError, Global};
use std::fmt::Write;
use text::Cut;

/// `image CUT`, a line `lN` with its 64 bytes in hexadecimal digits for each line that isn't as at the start, and `end`.
pub(crate) fn request_text(
    alloc: Global,
    events: &OpenEvents,
    wanted: &Wanted<'_, '_>,
) -> Result<String, AllocError>
    ensures { IfOk result (λ text. string_bytes text ≡ request_text (name_in events.now) wanted.now) }
{
    let entries = raised(alloc, events, wanted)?;
    let cut = Cut::from_entries(entries);
    let lines = changed(alloc, events, wanted)?;
    format!(in alloc; "image {cut}\n{lines}end\n")
}

/// The lines of the image that stand above their floor, by their names, with their numbers.
#[tactic(auto, using(crate::proofs::Requests::raised_none, crate::proofs::Requests::raised_more))]
fn raised(
    alloc: Global,
    events: &OpenEvents,
    wanted: &Wanted<'_, '_>,
) -> Result<Vec<(u32, u32)>, AllocError>
    ensures { IfOk result (λ entries. entries.items ≡ raised_below (name_in events.now) wanted.now (length wanted.now.start)) }
{
    let mut entries = Vec::new(alloc);
    for line in 0..wanted.lines() {
        push_raised(&mut entries, events, wanted, line)?;
    }
    Ok(entries)
}

/// Adds a line with its number, where it stands above its floor.
fn push_raised(
    entries: &mut Vec<(u32, u32)>,
    events: &OpenEvents,
    wanted: &Wanted<'_, '_>,
    line: u32,
) -> Result<(), AllocError>
    requires { line < length wanted.now.start }
    ensures { OnOk result (entries.new.items ≡ entries.old.items ++ raised_entry (name_in events.now) wanted.now line) }
{
    let number = wanted.number(line);
    if wanted.floor(line) < number {
        entries.push((events.line_name(line), number))?;
    }
    Ok(())
}

/// The lines that aren't as at the start, with their bytes.
#[tactic(auto, using(crate::proofs::Requests::changed_none, crate::proofs::Requests::changed_more))]
fn changed(
    alloc: Global,
    events: &OpenEvents,
    wanted: &Wanted<'_, '_>,
) -> Result<String, AllocError>
    ensures { IfOk result (λ text. string_bytes text ≡ changed_below (name_in events.now) wanted.now (length wanted.now.start)) }
{
    let mut text = String::new(alloc);
    for line in 0..wanted.lines() {
        push_changed(alloc, &mut text, events, wanted, line)?;
    }
    Ok(text)
}

/// Adds a line with its bytes, where they aren't those at the start.
fn push_changed(
    alloc: Global,
    text: &mut String,
    events: &OpenEvents,
    wanted: &Wanted<'_, '_>,
    line: u32,
) -> Result<(), AllocError>
    requires { line < length wanted.now.start }
    ensures { OnOk result (string_bytes text.new ≡ string_bytes text.old ++ changed_line (name_in events.now) wanted.now line) }
{
    let bytes = wanted.line(line);
    if bytes == wanted.started(line) {
        return Ok(());
    }
    let digits = hex::encode(alloc, bytes.as_slice())?;
    write!(text, "l{} {digits}\n", events.line_name(line))
}
