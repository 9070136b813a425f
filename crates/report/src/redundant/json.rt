//! A run's needless cleans and fences as JSON (RFC 8259): an object a line.

ghost use Rattle.report.specs.RedundantJson.{IsWasteJson};
ghost use Rattle.report.specs.Places.{origin_in};
ghost use Rattle.std.specs.List.{zip};
ghost use Rattle.std.specs.Prelude.{◌≡◌, IfOk, length, string_bytes};

use crate::Places;
use crate::form::Form;
use crate::redundant::waste::waste_in;
use durability::Reason;
use machine::TracedEvent;
use std::alloc::{AllocError, Global};

/// An object for each needless event of a run with the reason, then one for each instruction all of whose cleans and fences are needless
/// although they are fenced, by its pc, and then one with how many of all cleans and fences are so, and how many are needless for want of
/// a fence, each on a line of its own, as JSON of RFC 8259:
///
/// ```text
/// {"kind":"fence","event":3,"hart":0,"step":4,"pc":"0x1000c","source_line":4,"reason":"nothing to complete"}
/// {"kind":"always","hart":0,"pc":"0x1000c","source_line":4,"count":1}
/// {"kind":"needless","needless":1,"of":2,"unfenced":0}
/// ```
///
/// The hart of the second is `null` where several made them, and so is a line of the source that isn't known. Of a trace file the place
/// words are `"at"`, and `lines` are those of each event, as for `waste_text`.
pub fn waste_json(
    alloc: Global,
    traced: &[TracedEvent],
    reasons: &[Option<Reason>],
    places: &Places<'_>,
    lines: &Option<Vec<Vec<u8>>>,
) -> Result<String, AllocError>
    requires { length reasons.now ≡ length traced.now }
    ensures { IfOk result (λ text. IsWasteJson (origin_in places.now) lines.now (zip traced.now reasons.now) (string_bytes text)) }
{
    waste_in(Form::Json, alloc, traced, reasons, places, lines)
}
