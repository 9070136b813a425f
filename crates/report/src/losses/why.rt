//! What is printed of a crash image that fails.

ghost use Rattle.report.specs.LossesCauses.{loss_text};
ghost use Rattle.report.specs.LossesEvents.{event_text};
ghost use Rattle.report.specs.Mends.{mend_line};
ghost use Rattle.report.specs.Why.{kept_line, lost_line, schedule_line, schedule_text, unread_line, why_text};
ghost use Rattle.report.specs.Places.{origin_in};
ghost use Rattle.machine.specs.Grammar.{hart_steps};
ghost use Rattle.machine.specs.Joined.{joined, text_of};
ghost use Rattle.std.specs.List.{flat_map};
ghost use Rattle.std.specs.Prelude.{◌≡◌, ◌++◌, ◌^◌, ◌<◌, IfOk, IfSome, OnOk, string_bytes};

use crate::Places;
use crate::losses::event::named_event;
use crate::losses::loss::named_loss;
use crate::losses::mend::named_mend;
use durability::{Kept, Lost, Mend, ToldCut};
use machine::{Schedule, ScheduleFault, TracedEvent};
use std::alloc::{AllocError, Global};
use std::fmt::Write;

/// A line for each lost store, for each kept one and for each mend, how many lines that recovery doesn't read lack a store where some do,
/// and the schedule that leaves the image, where there is one: that of a trace file has none.
///
/// ```text
/// lost l256 store 2 h0 pc=0x10018 line=7: cleaned 5 h0 pc=0x10028 line=11, fenced 8 h0 pc=0x1003c line=16, too late
/// kept l1 store 6 h0 pc=0x10030 line=13: if evicted
/// mend: a fence behind 5 h0 pc=0x10028 line=11 and before 6 h0 pc=0x10030 line=13 (kept)
/// schedule h0*13 e1
/// ```
pub fn why_text(
    alloc: Global,
    told: &ToldCut,
    unread: usize,
    schedule: &Option<Schedule>,
    traced: &[TracedEvent],
    places: &Places<'_>,
) -> Result<String, AllocError>
    requires { IfSome schedule.now (λ schedule. hart_steps schedule < 2 ^ 32) }
    ensures { IfOk result (λ text. string_bytes text
        ≡ why_text (event_text (origin_in places.now) traced.now) told.now unread schedule.now) }
{
    let mut text = String::new(alloc);
    tell_lost(&mut text, &told.lost, traced, places)?;
    tell_kept(&mut text, &told.kept, traced, places)?;
    tell_mends(&mut text, &told.mends, traced, places)?;
    tell_unread(&mut text, unread)?;
    tell_known_schedule(alloc, &mut text, schedule)?;
    Ok(text)
}

#[tactic(auto, using(crate::proofs::LossesLines::lines_more, crate::proofs::LossesLines::lines_all))]
fn tell_lost(
    text: &mut String,
    lost: &[Lost],
    traced: &[TracedEvent],
    places: &Places<'_>,
) -> Result<(), AllocError>
    ensures { OnOk result (string_bytes text.new
        ≡ string_bytes text.old ++ flat_map (lost_line (event_text (origin_in places.now) traced.now)) lost.now) }
{
    for one in lost {
        let loss = named_loss(*one, traced, places);
        writeln!(text, "{loss}")?;
    }
    Ok(())
}

#[tactic(auto, using(crate::proofs::LossesLines::lines_more, crate::proofs::LossesLines::lines_all))]
fn tell_kept(
    text: &mut String,
    kept: &[Kept],
    traced: &[TracedEvent],
    places: &Places<'_>,
) -> Result<(), AllocError>
    ensures { OnOk result (string_bytes text.new
        ≡ string_bytes text.old ++ flat_map (kept_line (event_text (origin_in places.now) traced.now)) kept.now) }
{
    for one in kept {
        let store = named_event(one.store, traced, places);
        writeln!(text, "kept l{} store {store}: if evicted", one.line)?;
    }
    Ok(())
}

#[tactic(auto, using(crate::proofs::LossesLines::lines_more, crate::proofs::LossesLines::lines_all))]
fn tell_mends(
    text: &mut String,
    mends: &[Mend],
    traced: &[TracedEvent],
    places: &Places<'_>,
) -> Result<(), AllocError>
    ensures { OnOk result (string_bytes text.new
        ≡ string_bytes text.old ++ flat_map (mend_line (event_text (origin_in places.now) traced.now)) mends.now) }
{
    for one in mends {
        let mend = named_mend(*one, traced, places);
        writeln!(text, "mend: {mend}")?;
    }
    Ok(())
}

fn tell_unread(text: &mut String, unread: usize) -> Result<(), AllocError>
    ensures { OnOk result (string_bytes text.new ≡ string_bytes text.old ++ unread_line unread) }
{
    if unread == 0 {
        return Ok(());
    }
    writeln!(text, "and {unread} lines that recovery doesn't read")?;
    Ok(())
}

fn tell_known_schedule(
    alloc: Global,
    text: &mut String,
    schedule: &Option<Schedule>,
) -> Result<(), AllocError>
    requires { IfSome schedule.now (λ schedule. hart_steps schedule < 2 ^ 32) }
    ensures { OnOk result (string_bytes text.new ≡ string_bytes text.old ++ schedule_text schedule.now) }
{
    match schedule {
        Some(schedule) => tell_schedule(alloc, text, schedule),
        None => Ok(()),
    }
}

fn tell_schedule(alloc: Global, text: &mut String, schedule: &Schedule) -> Result<(), AllocError>
    requires { hart_steps schedule.now < 2 ^ 32 }
    ensures { OnOk result (string_bytes text.new ≡ string_bytes text.old ++ schedule_line schedule.now) }
{
    let items = items_text(alloc, schedule)?;
    if items.is_empty() {
        writeln!(text, "schedule")?;
    } else {
        writeln!(text, "schedule {items}")?;
    }
    Ok(())
}

/// The items of a schedule.
pub(crate) fn items_text(alloc: Global, schedule: &Schedule) -> Result<String, AllocError>
    requires { hart_steps schedule.now < 2 ^ 32 }
    ensures { IfOk result (λ text. string_bytes text ≡ text_of (joined schedule.now)) }
{
    match schedule.write(alloc) {
        Ok(items) => Ok(items),
        Err(ScheduleFault::Memory) => Err(AllocError),
        // Its steps are few enough for a text.
        Err(ScheduleFault::Text) => unreachable!(),
    }
}
