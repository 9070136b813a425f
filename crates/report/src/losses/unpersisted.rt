//! What is printed of the stores that weren't durable in time.

ghost use Rattle.report.specs.LossesEvents.{event_text};
ghost use Rattle.report.specs.Unpersisted.{end_line, outside_line, unpersisted_text};
ghost use Rattle.report.specs.Places.{origin_in};
ghost use Rattle.std.specs.List.{flat_map};
ghost use Rattle.std.specs.Prelude.{◌≡◌, ◌+◌, ◌++◌, IfOk, OnOk, length, string_bytes};

use crate::Places;
use crate::losses::loss::named_loss;
use durability::{EndLoss, Lost, Unpersisted};
use machine::TracedEvent;
use std::alloc::{AllocError, Global};
use std::fmt::Write;

/// A line for each store that wasn't durable when its operation ended, then one for each that isn't at the end of the run, and then
/// how many these are:
///
/// ```text
/// operation 1 ends at 9: lost l1 store 7 h0 pc=0x10034 line=14: cleaned 8 h0 pc=0x1003c line=16, never fenced
/// unpersisted 1
/// ```
pub fn unpersisted_text(
    alloc: Global,
    told: &Unpersisted,
    traced: &[TracedEvent],
    places: &Places<'_>,
) -> Result<String, AllocError>
    ensures { IfOk result (λ text. string_bytes text ≡ unpersisted_text (event_text (origin_in places.now) traced.now) told.now) }
{
    let mut text = String::new(alloc);
    tell_ends(&mut text, &told.ends, traced, places)?;
    tell_outside(&mut text, &told.outside, traced, places)?;
    let count = count_of(&told.ends, &told.outside);
    writeln!(text, "unpersisted {count}")?;
    Ok(text)
}

#[tactic(auto, using(crate::proofs::LossesLines::lines_more, crate::proofs::LossesLines::lines_all))]
fn tell_ends(
    text: &mut String,
    ends: &[EndLoss],
    traced: &[TracedEvent],
    places: &Places<'_>,
) -> Result<(), AllocError>
    ensures { OnOk result (string_bytes text.new
        ≡ string_bytes text.old ++ flat_map (end_line (event_text (origin_in places.now) traced.now)) ends.now) }
{
    for end in ends {
        let loss = named_loss(end.lost, traced, places);
        writeln!(
            text,
            "operation {} ends at {}: {loss}",
            end.operation, end.end
        )?;
    }
    Ok(())
}

#[tactic(auto, using(crate::proofs::LossesLines::lines_more, crate::proofs::LossesLines::lines_all))]
fn tell_outside(
    text: &mut String,
    outside: &[Lost],
    traced: &[TracedEvent],
    places: &Places<'_>,
) -> Result<(), AllocError>
    ensures { OnOk result (string_bytes text.new
        ≡ string_bytes text.old ++ flat_map (outside_line (event_text (origin_in places.now) traced.now)) outside.now) }
{
    for lost in outside {
        let loss = named_loss(*lost, traced, places);
        writeln!(text, "at the end: {loss}")?;
    }
    Ok(())
}

/// How many stores these are.
pub(crate) fn count_of(ends: &[EndLoss], outside: &[Lost]) -> u64
    ensures { result ≡ length ends.now + length outside.now }
{
    ends.len() as u64 + outside.len() as u64
}
