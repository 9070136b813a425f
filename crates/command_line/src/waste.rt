//! The command that tells which cleans and fences are made in vain.

ghost use Rattle.command_line.specs.Traces.{HasPlaces, IsOpen, events_of};
ghost use Rattle.command_line.specs.Wasting.{FindsNeedless, IsTold, PrintsWaste, WasteFile};
ghost use Rattle.report.specs.Places.{origin_in};
ghost use Rattle.report.specs.Told.{events_in};
ghost use Rattle.std.specs.List.{zip};
ghost use Rattle.std.specs.Prelude.{◌≡◌, IfOk, length, string_bytes};
ghost use Rattle.std.specs.Result.{result_map_both};

use crate::answer::{Answer, NotedAnswer};
use crate::events::{OpenEvents, open_events};
use crate::failure::Failure;
use crate::files::Files;
use crate::noting::{are_wanted, notes_of};
use arguments::ReportCommand;
use durability::{Reason, needless_events};
use report::{ToldEvents, waste_json, waste_text};
use std::alloc::{AllocError, Global};

/// `waste`: reads the files of a program, a schedule and a medium, or a trace file, and prints the cleans and fences that are made in
/// vain, each with the reason, and the instructions or places that make none but such. With `--whole` it notes events of a run at which a
/// processor may lose or reorder stores.
pub(crate) fn waste_file<F: Files>(
    alloc: Global,
    command: &ReportCommand,
    files: &mut F,
) -> Result<NotedAnswer, Failure>
    ensures { WasteFile F.read_gives command.now files.old result files.new }
{
    let opened = open_events(alloc, &command.source, files)?;
    let notes = notes_of(alloc, &opened, are_wanted(&command.source, command.quiet))?;
    let reasons = found(alloc, &opened)?;
    let answer = waste_answer(alloc, &opened, &reasons, command.json)?;
    Ok(NotedAnswer { notes, answer })
}

/// Why each event is needless, where it is.
fn found(alloc: Global, opened: &OpenEvents) -> Result<Vec<Option<Reason>>, Failure>
    requires { IsOpen opened.now }
    ensures finds { FindsNeedless (events_of opened.now) (result_map_both (λ reasons. reasons.items) (λ failure. failure) result) }
    ensures size { IfOk result (λ reasons. length reasons.items ≡ length (events_of opened.now)) }
{
    let lines = opened.medium().lines();
    Ok(needless_events(alloc, opened.trace(), lines)?)
}

fn waste_answer(
    alloc: Global,
    opened: &OpenEvents,
    reasons: &[Option<Reason>],
    json: bool,
) -> Result<Answer, Failure>
    requires places { HasPlaces opened.now }
    requires size { length reasons.now ≡ length (events_of opened.now) }
    ensures { PrintsWaste json opened.now reasons.now result }
{
    let told = opened.told(alloc)?;
    let text = told_waste(alloc, &told, reasons, json)?;
    Ok(Answer::of(text, 0))
}

/// The needless events, as text or as JSON.
fn told_waste(
    alloc: Global,
    told: &ToldEvents<'_>,
    reasons: &[Option<Reason>],
    json: bool,
) -> Result<String, AllocError>
    requires { length reasons.now ≡ length (events_in told.now) }
    ensures { IfOk result (λ text. IsTold json (origin_in told.now.places) told.now.lines (zip (events_in told.now) reasons.now) (string_bytes text)) }
{
    let ToldEvents {
        traced,
        places,
        lines,
    } = told;
    let traced = traced.as_slice();
    if json {
        waste_json(alloc, traced, reasons, places, lines)
    } else {
        waste_text(alloc, traced, reasons, places, lines)
    }
}
