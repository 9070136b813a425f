//! Schedules that are printed behind a word.

ghost use Rattle.command_line.specs.Naming.{items_json, items_line, known_schedule, named_schedule};
ghost use Rattle.machine.specs.Grammar.{hart_steps};
ghost use Rattle.machine.specs.Joined.{joined, text_of};
ghost use Rattle.std.specs.Prelude.{◌≡◌, ◌^◌, ◌<◌, IfOk, IfSome, string_bytes};

use machine::{Schedule, ScheduleFault};
use std::alloc::{AllocError, Global};

/// The items of a schedule.
pub(crate) fn items_text(alloc: Global, schedule: &Schedule) -> Result<String, AllocError>
    requires { hart_steps schedule.now < 2 ^ 32 }
    ensures { IfOk result (λ text. string_bytes text ≡ text_of (joined schedule.now)) }
{
    match schedule.write(alloc) {
        Ok(items) => Ok(items),
        Err(ScheduleFault::Memory) => Err(AllocError),
        // Its steps are few enough for a text.
        Err(ScheduleFault::Text) => unreachable!(),
    }
}

/// The items of a schedule behind a word, as a line of text or of JSON.
pub(crate) fn named_schedule(
    alloc: Global,
    word: &str,
    schedule: &Schedule,
    json: bool,
) -> Result<String, AllocError>
    requires { hart_steps schedule.now < 2 ^ 32 }
    ensures { IfOk result (λ text. string_bytes text ≡ named_schedule json word.now schedule.now) }
{
    let items = items_text(alloc, schedule)?;
    if json {
        items_json(alloc, word, items.as_str())
    } else {
        items_line(alloc, word, items.as_str())
    }
}

/// The same where a schedule is known.
pub(crate) fn known_schedule(
    alloc: Global,
    word: &str,
    schedule: &Option<Schedule>,
    json: bool,
) -> Result<String, AllocError>
    requires { IfSome schedule.now (λ schedule. hart_steps schedule < 2 ^ 32) }
    ensures { IfOk result (λ text. string_bytes text ≡ known_schedule json word.now schedule.now) }
{
    match schedule {
        Some(schedule) => named_schedule(alloc, word, schedule, json),
        None => Ok(String::new(alloc)),
    }
}

/// `{"kind":"WORD","items":"ITEMS"}`.
fn items_json(alloc: Global, word: &str, items: &str) -> Result<String, AllocError>
    ensures { IfOk result (λ text. string_bytes text ≡ items_json word.now items.now) }
{
    format!(in alloc; "{{\"kind\":\"{word}\",\"items\":\"{items}\"}}\n")
}

/// `WORD ITEMS`, or the word alone where there is no item.
fn items_line(alloc: Global, word: &str, items: &str) -> Result<String, AllocError>
    ensures { IfOk result (λ text. string_bytes text ≡ items_line word.now items.now) }
{
    if items.is_empty() {
        format!(in alloc; "{word}\n")
    } else {
        format!(in alloc; "{word} {items}\n")
    }
}
