//! The command that tells which stores weren't durable in time.

ghost use Rattle.command_line.specs.Persisting.{AreNamed, Finds, PrintsStores, UnpersistedFile, named_end, named_loss, status_of, told_stores};
ghost use Rattle.command_line.specs.Traces.{HasPlaces, IsOpen, events_of, name_in};
ghost use Rattle.report.specs.Places.{origin_in};
ghost use Rattle.report.specs.Told.{events_in};
ghost use Rattle.std.specs.Prelude.{◌≡◌, IfOk, map, string_bytes};

use crate::answer::{Answer, NotedAnswer};
use crate::events::{OpenEvents, open_events};
use crate::failure::Failure;
use crate::files::Files;
use crate::noting::{are_wanted, notes_of};
use arguments::ReportCommand;
use durability::{EndLoss, Lost, Unpersisted, tell_unpersisted};
use report::{ToldEvents, unpersisted_json, unpersisted_text};
use std::alloc::{AllocError, Global};

/// `unpersisted`: reads the files of a program, a schedule and a medium, or a trace file, and prints the stores that weren't durable
/// when their operation ended, each with what it lacks. With `--whole` it notes events of a run at which a processor may lose or reorder stores.
pub(crate) fn unpersisted_file<F: Files>(
    alloc: Global,
    command: &ReportCommand,
    files: &mut F,
) -> Result<NotedAnswer, Failure>
    ensures { UnpersistedFile F.read_gives command.now files.old result files.new }
{
    let opened = open_events(alloc, &command.source, files)?;
    let notes = notes_of(alloc, &opened, are_wanted(&command.source, command.quiet))?;
    let found = found(alloc, &opened)?;
    let answer = stores_answer(alloc, &opened, &found, command.json)?;
    Ok(NotedAnswer { notes, answer })
}

/// The stores that weren't durable in time.
fn found(alloc: Global, opened: &OpenEvents) -> Result<Unpersisted, Failure>
    requires { IsOpen opened.now }
    ensures { Finds (events_of opened.now) result }
{
    let lines = opened.medium().lines();
    Ok(tell_unpersisted(alloc, opened.trace(), lines)?)
}

fn stores_answer(
    alloc: Global,
    opened: &OpenEvents,
    found: &Unpersisted,
    json: bool,
) -> Result<Answer, Failure>
    requires { HasPlaces opened.now }
    ensures { PrintsStores json opened.now found.now result }
{
    let told = opened.told(alloc)?;
    let named = named(alloc, opened, found)?;
    let text = told_stores(alloc, &told, &named, json)?;
    Ok(Answer::of(text, status_of(&named)))
}

/// The same by the names of their lines.
fn named(alloc: Global, opened: &OpenEvents, found: &Unpersisted) -> Result<Unpersisted, AllocError>
    ensures { IfOk result (AreNamed (name_in opened.now) found.now) }
{
    Ok(Unpersisted {
        ends: named_ends(alloc, opened, &found.ends)?,
        outside: named_losses(alloc, opened, &found.outside)?,
    })
}

fn named_ends(
    alloc: Global,
    opened: &OpenEvents,
    ends: &[EndLoss],
) -> Result<Vec<EndLoss>, AllocError>
    ensures { IfOk result (λ named. named.items ≡ map (named_end (name_in opened.now)) ends.now) }
{
    let mut named = Vec::new(alloc);
    for end in ends {
        named.push(EndLoss {
            operation: end.operation,
            end: end.end,
            lost: named_loss(opened, end.lost),
        })?;
    }
    Ok(named)
}

fn named_losses(
    alloc: Global,
    opened: &OpenEvents,
    losses: &[Lost],
) -> Result<Vec<Lost>, AllocError>
    ensures { IfOk result (λ named. named.items ≡ map (named_loss (name_in opened.now)) losses.now) }
{
    let mut named = Vec::new(alloc);
    for lost in losses {
        named.push(named_loss(opened, *lost))?;
    }
    Ok(named)
}

fn named_loss(opened: &OpenEvents, lost: Lost) -> Lost
    ensures { result ≡ named_loss (name_in opened.now) lost }
{
    Lost {
        line: opened.line_name(lost.line),
        store: lost.store,
        cause: lost.cause,
    }
}

/// The stores that weren't durable in time, as text or as JSON.
fn told_stores(
    alloc: Global,
    told: &ToldEvents<'_>,
    found: &Unpersisted,
    json: bool,
) -> Result<String, AllocError>
    ensures { IfOk result (λ text. string_bytes text ≡ told_stores json (origin_in told.now.places) (events_in told.now) found.now) }
{
    let traced = told.traced.as_slice();
    if json {
        unpersisted_json(alloc, found, traced, &told.places)
    } else {
        unpersisted_text(alloc, found, traced, &told.places)
    }
}

/// 0 where every store was durable in time, else 1.
fn status_of(told: &Unpersisted) -> u8
    ensures { result ≡ status_of told.now }
{
    if told.ends.is_empty() && told.outside.is_empty() {
        0
    } else {
        1
    }
}
