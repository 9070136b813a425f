//! The text of a run's needless cleans and fences.

ghost use Rattle.report.specs.Events.{known_event, whole};
ghost use Rattle.report.specs.Forms.{always_form, needless_form, reason_form, summary_form};
ghost use Rattle.report.specs.Uses.{is_unfenced, is_use, is_vain};
ghost use Rattle.report.specs.Waste.{IsWaste, IsWasteText, judged_line};
ghost use Rattle.report.specs.Places.{origin_in};
ghost use Rattle.std.specs.List.{count_by, enumerate_from, flat_map, zip};
ghost use Rattle.std.specs.Prelude.{◌≡◌, ◌++◌, cond, IfOk, OnOk, length, string_bytes};

use crate::Places;
use crate::events::PlacedEvent;
use crate::form::Form;
use crate::json::EventMembers;
use crate::redundant::always::tell_always;
use crate::redundant::uses::{is_clean_or_fence, is_paid_in_vain, is_unfenced, uses_by_pc};
use crate::told::whole;
use durability::Reason;
use machine::TracedEvent;
use std::alloc::{AllocError, Global};
use std::fmt::Write;

/// A line for each needless event of a run with the reason, then one for each instruction all of whose cleans and fences are needless
/// although they are fenced, by its pc, and then how many of all cleans and fences are so, and how many are needless for want of a
/// fence:
///
/// ```text
/// 2 h0 step=2 pc=0x10004 line=2 clean l0: cleaned again
/// always h0 pc=0x10004 line=2, 1 of 1
/// needless 1 of 2, unfenced 0
/// ```
///
/// The hart is left out of the second where several made them. Of a trace file `lines` are the place words of each event, all of them: the
/// first ones have these, and the second are told for each different place.
pub fn waste_text(
    alloc: Global,
    traced: &[TracedEvent],
    reasons: &[Option<Reason>],
    places: &Places<'_>,
    lines: &Option<Vec<Vec<u8>>>,
) -> Result<String, AllocError>
    requires { length reasons.now ≡ length traced.now }
    ensures { IfOk result (λ text. IsWasteText (origin_in places.now) lines.now (zip traced.now reasons.now) (string_bytes text)) }
{
    waste_in(Form::Text, alloc, traced, reasons, places, lines)
}

/// What is printed of these events and instructions in one of the forms.
pub(crate) fn waste_in(
    form: Form,
    alloc: Global,
    traced: &[TracedEvent],
    reasons: &[Option<Reason>],
    places: &Places<'_>,
    lines: &Option<Vec<Vec<u8>>>,
) -> Result<String, AllocError>
    requires { length reasons.now ≡ length traced.now }
    ensures { IfOk result (λ text. IsWaste (reason_form form (whole (origin_in places.now) lines.now)) (always_form form (origin_in places.now))
        (summary_form form) (zip traced.now reasons.now) (string_bytes text)) }
{
    let mut text = String::new(alloc);
    tell_needless(&mut text, form, traced, reasons, places, lines)?;
    let uses = uses_by_pc(alloc, traced, reasons)?;
    tell_always(&mut text, form, uses, places)?;
    tell_sums(&mut text, form, traced, reasons)?;
    Ok(text)
}

fn tell_needless<'a>(
    text: &mut String,
    form: Form,
    traced: &[TracedEvent],
    reasons: &[Option<Reason>],
    places: &'a Places<'a>,
    lines: &'a Option<Vec<Vec<u8>>>,
) -> Result<(), AllocError>
    requires { length reasons.now ≡ length traced.now }
    ensures { OnOk result (string_bytes text.new ≡ string_bytes text.old
        ++ flat_map (judged_line (reason_form form (whole (origin_in places.now) lines.now))) (enumerate_from 1 (zip traced.now reasons.now))) }
{
    for at in 0..traced.len() {
        if let Some(reason) = reasons[at] {
            let number = at as u64 + 1;
            let placed = whole(places, lines, number, traced[at]);
            tell_event(text, form, number, placed, reason)?;
        }
    }
    Ok(())
}

fn tell_event(
    text: &mut String,
    form: Form,
    number: u64,
    placed: PlacedEvent<'_>,
    reason: Reason,
) -> Result<(), AllocError>
    ensures { OnOk result (string_bytes text.new ≡ string_bytes text.old ++ needless_form form number (known_event placed.entry) reason) }
{
    match form {
        Form::Text => writeln!(text, "{number} {placed}: {reason}"),
        Form::Json => {
            let members = EventMembers { number, placed };
            writeln!(text, "{{{members},\"reason\":\"{reason}\"}}")
        }
    }
}

/// How many of a run's cleans and fences there are of each kind.
#[derive(Clone, Copy)]
struct Sums {
    uses: u64,
    vain: u64,
    unfenced: u64,
}

fn tell_sums(
    text: &mut String,
    form: Form,
    traced: &[TracedEvent],
    reasons: &[Option<Reason>],
) -> Result<(), AllocError>
    requires { length reasons.now ≡ length traced.now }
    ensures { OnOk result (string_bytes text.new ≡ string_bytes text.old ++ summary_form form (zip traced.now reasons.now)) }
{
    let Sums {
        uses,
        vain,
        unfenced,
    } = sums_of(traced, reasons);
    match form {
        Form::Text => writeln!(text, "needless {vain} of {uses}, unfenced {unfenced}"),
        Form::Json => writeln!(
            text,
            "{{\"kind\":\"needless\",\"needless\":{vain},\"of\":{uses},\"unfenced\":{unfenced}}}"
        ),
    }
}

fn sums_of(traced: &[TracedEvent], reasons: &[Option<Reason>]) -> Sums
    requires { length reasons.now ≡ length traced.now }
    ensures uses { result.uses ≡ count_by is_use (zip traced.now reasons.now) }
    ensures vain { result.vain ≡ count_by is_vain (zip traced.now reasons.now) }
    ensures unfenced { result.unfenced ≡ count_by is_unfenced (zip traced.now reasons.now) }
{
    let mut sums = Sums {
        uses: 0,
        vain: 0,
        unfenced: 0,
    };
    for at in 0..traced.len() {
        if is_clean_or_fence(traced[at].event) {
            sums.uses += 1;
            sums.vain += one_where(is_paid_in_vain(reasons[at]));
            sums.unfenced += one_where(is_unfenced(reasons[at]));
        }
    }
    sums
}

fn one_where(is_so: bool) -> u64
    ensures { result ≡ cond is_so 1 0 }
{
    u64::from(is_so)
}
