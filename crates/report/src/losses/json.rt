//! What is printed of stores that a power cut may lose as JSON (RFC 8259): an object a line.

ghost use Rattle.report.specs.LossesJson.{end_object, event_object, kept_object, lost_object, schedule_json, schedule_object, unpersisted_json, unread_object, why_json};
ghost use Rattle.report.specs.MendsJson.{mend_object};
ghost use Rattle.report.specs.Named.{due_members};
ghost use Rattle.report.specs.Places.{origin_in};
ghost use Rattle.machine.specs.Grammar.{hart_steps};
ghost use Rattle.std.specs.List.{flat_map};
ghost use Rattle.std.specs.Prelude.{◌≡◌, ◌++◌, ◌^◌, ◌<◌, IfOk, IfSome, OnOk, string_bytes};

use crate::Places;
use crate::losses::event::named_event;
use crate::losses::loss::named_loss;
use crate::losses::mend::{MendMembers, named_mend};
use crate::losses::objects::{Due, EventObject, LossMembers};
use crate::losses::unpersisted::count_of;
use crate::losses::why::items_text;
use durability::{EndLoss, Kept, Lost, Mend, ToldCut, Unpersisted};
use machine::{Schedule, TracedEvent};
use std::alloc::{AllocError, Global};
use std::fmt::Write;

/// An object for each store that wasn't durable when its operation ended, then one for each that isn't at the end of the run, with
/// `null` for its operation, and then one with the number of these, each on a line of its own, as JSON of RFC 8259:
///
/// ```text
/// {"kind":"lost","operation":"1","end":9,"cache_line":1,"store":E,"cause":"never cleaned","clean":null,"completed":null,"fence":null}
/// {"kind":"unpersisted","stores":1}
/// ```
///
/// E is the object of an event, `{"event":7,"hart":0,"pc":"0x10034","source_line":14}`. What may have 64 bits is a string, since a reader
/// of JSON may keep 53 bits of a number.
pub fn unpersisted_json(
    alloc: Global,
    told: &Unpersisted,
    traced: &[TracedEvent],
    places: &Places<'_>,
) -> Result<String, AllocError>
    ensures { IfOk result (λ text. string_bytes text ≡ unpersisted_json (event_object (origin_in places.now) traced.now) told.now) }
{
    let mut text = String::new(alloc);
    tell_ends(&mut text, &told.ends, traced, places)?;
    tell_losses(&mut text, Due::AtRunEnd, &told.outside, traced, places)?;
    let count = count_of(&told.ends, &told.outside);
    writeln!(text, "{{\"kind\":\"unpersisted\",\"stores\":{count}}}")?;
    Ok(text)
}

/// An object for each lost store, for each kept one and for each mend, one with the number of lines that recovery doesn't read and that lack
/// a store where some do, and one with the schedule that leaves the image, where there is one, each on a line of its own, as JSON of
/// RFC 8259:
///
/// ```text
/// {"kind":"lost","cache_line":256,"store":E,"cause":"fenced too late","clean":E,"completed":null,"fence":E}
/// {"kind":"kept","cache_line":1,"store":E}
/// {"kind":"mend","mend":"fence","cache_line":null,"behind":E,"before":E,"deadline":"kept","operation":null,"store":null}
/// {"kind":"schedule","items":"h0*13 e1"}
/// ```
///
/// E is the object of an event, `{"event":2,"hart":0,"pc":"0x10018","source_line":7}`.
pub fn why_json(
    alloc: Global,
    told: &ToldCut,
    unread: usize,
    schedule: &Option<Schedule>,
    traced: &[TracedEvent],
    places: &Places<'_>,
) -> Result<String, AllocError>
    requires { IfSome schedule.now (λ schedule. hart_steps schedule < 2 ^ 32) }
    ensures { IfOk result (λ text. string_bytes text
        ≡ why_json (event_object (origin_in places.now) traced.now) told.now unread schedule.now) }
{
    let mut text = String::new(alloc);
    tell_losses(&mut text, Due::AtTheCut, &told.lost, traced, places)?;
    tell_kept(&mut text, &told.kept, traced, places)?;
    tell_mends(&mut text, &told.mends, traced, places)?;
    tell_unread(&mut text, unread)?;
    tell_known_schedule(alloc, &mut text, schedule)?;
    Ok(text)
}

#[tactic(auto, using(crate::proofs::LossesLines::lines_all))]
fn tell_ends(
    text: &mut String,
    ends: &[EndLoss],
    traced: &[TracedEvent],
    places: &Places<'_>,
) -> Result<(), AllocError>
    ensures { OnOk result (string_bytes text.new
        ≡ string_bytes text.old ++ flat_map (end_object (event_object (origin_in places.now) traced.now)) ends.now) }
{
    for loss in ends {
        let due = Due::AtEnd {
            operation: loss.operation,
            end: loss.end,
        };
        tell_lost(text, due, loss.lost, traced, places)?;
    }
    Ok(())
}

#[tactic(auto, using(crate::proofs::LossesLines::lines_all))]
fn tell_losses(
    text: &mut String,
    due: Due,
    losses: &[Lost],
    traced: &[TracedEvent],
    places: &Places<'_>,
) -> Result<(), AllocError>
    ensures { OnOk result (string_bytes text.new
        ≡ string_bytes text.old ++ flat_map (lost_object (due_members due) (event_object (origin_in places.now) traced.now)) losses.now) }
{
    for lost in losses {
        tell_lost(text, due, *lost, traced, places)?;
    }
    Ok(())
}

fn tell_lost(
    text: &mut String,
    due: Due,
    lost: Lost,
    traced: &[TracedEvent],
    places: &Places<'_>,
) -> Result<(), AllocError>
    ensures { OnOk result (string_bytes text.new
        ≡ string_bytes text.old ++ lost_object (due_members due) (event_object (origin_in places.now) traced.now) lost) }
{
    let loss = LossMembers {
        loss: named_loss(lost, traced, places),
    };
    writeln!(text, "{{\"kind\":\"lost\",{due}{loss}}}")
}

#[tactic(auto, using(crate::proofs::LossesLines::lines_all))]
fn tell_kept(
    text: &mut String,
    kept: &[Kept],
    traced: &[TracedEvent],
    places: &Places<'_>,
) -> Result<(), AllocError>
    ensures { OnOk result (string_bytes text.new
        ≡ string_bytes text.old ++ flat_map (kept_object (event_object (origin_in places.now) traced.now)) kept.now) }
{
    for one in kept {
        let line = one.line;
        let store = EventObject {
            event: named_event(one.store, traced, places),
        };
        writeln!(
            text,
            "{{\"kind\":\"kept\",\"cache_line\":{line},\"store\":{store}}}"
        )?;
    }
    Ok(())
}

#[tactic(auto, using(crate::proofs::LossesLines::lines_all))]
fn tell_mends(
    text: &mut String,
    mends: &[Mend],
    traced: &[TracedEvent],
    places: &Places<'_>,
) -> Result<(), AllocError>
    ensures { OnOk result (string_bytes text.new
        ≡ string_bytes text.old ++ flat_map (mend_object (event_object (origin_in places.now) traced.now)) mends.now) }
{
    for one in mends {
        let mend = MendMembers {
            mend: named_mend(*one, traced, places),
        };
        writeln!(text, "{{\"kind\":\"mend\",{mend}}}")?;
    }
    Ok(())
}

fn tell_unread(text: &mut String, unread: usize) -> Result<(), AllocError>
    ensures { OnOk result (string_bytes text.new ≡ string_bytes text.old ++ unread_object unread) }
{
    if unread == 0 {
        return Ok(());
    }
    writeln!(text, "{{\"kind\":\"unread\",\"cache_lines\":{unread}}}")
}

fn tell_known_schedule(
    alloc: Global,
    text: &mut String,
    schedule: &Option<Schedule>,
) -> Result<(), AllocError>
    requires { IfSome schedule.now (λ schedule. hart_steps schedule < 2 ^ 32) }
    ensures { OnOk result (string_bytes text.new ≡ string_bytes text.old ++ schedule_json schedule.now) }
{
    match schedule {
        Some(schedule) => tell_schedule(alloc, text, schedule),
        None => Ok(()),
    }
}

fn tell_schedule(alloc: Global, text: &mut String, schedule: &Schedule) -> Result<(), AllocError>
    requires { hart_steps schedule.now < 2 ^ 32 }
    ensures { OnOk result (string_bytes text.new ≡ string_bytes text.old ++ schedule_object schedule.now) }
{
    let items = items_text(alloc, schedule)?;
    writeln!(text, "{{\"kind\":\"schedule\",\"items\":\"{items}\"}}")
}
