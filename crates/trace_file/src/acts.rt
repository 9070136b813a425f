//! What an event did, read from its line.

ghost use Rattle.std.specs.Prelude.{◌≡◌, ◌≢◌, ◌++◌, ℕ, List, IfNone, IfSome};
ghost use Rattle.store_trace.specs.declared.event.Event.{Event as AnEvent};
ghost use Rattle.text.specs.Numbers.{IsOf};
ghost use Rattle.trace_file.specs.Entries.{act_text, line_end};
ghost use Rattle.trace_file.specs.Numerals.{numeral};
ghost use Rattle.trace_file.specs.Parts.{HasAct, HasSize, HasStore, IsNumbered, size_text, store_text};

use crate::cutting::after;
use crate::fault::TraceFileCode;
use crate::judging::{
    StoreNumbers, judged_begin, judged_clean, judged_end, judged_fence, judged_store,
};
use crate::numbers::number_before;
use store_trace::Event;
use text::Number;

/// An event, or why it isn't allowed, and what follows its line.
#[derive(Clone, Copy)]
pub(crate) struct Act<'a> {
    pub judged: Result<Event, TraceFileCode>,
    pub rest: &'a [u8],
}

/// The number in a line that begins with a keyword, and what follows the line.
#[tactic(auto, using(crate::proofs::ActLemmas::numbered, crate::proofs::ActLemmas::no_keyword, crate::proofs::ActLemmas::no_number_behind))]
pub(crate) fn numbered<'a>(text: &'a [u8], keyword: &[u8]) -> Option<(Number, &'a [u8])>
    ensures some { IfSome result (λ found. IsNumbered keyword.now text.now found.0 found.1.now) }
    ensures none { IfNone result ((n : ℕ) (rest : List ℕ) → text.now ≢ keyword.now ++ (numeral 10 n ++ line_end rest)) }
{
    let behind = after(text, keyword)?;
    let (number, rest) = number_before(behind, 10, b'\n')?;
    Some((number, rest))
}

/// The width and the value of a store, and what follows its line.
#[tactic(auto, using(crate::proofs::ActLemmas::sized, crate::proofs::ActLemmas::no_width, crate::proofs::ActLemmas::no_prefix, crate::proofs::ActLemmas::no_value))]
fn size(text: &[u8]) -> Option<(Number, Number, &[u8])>
    ensures some { IfSome result (λ found. HasSize text.now found.0 found.1 found.2.now) }
    ensures none { IfNone result ((w v : ℕ) (rest : List ℕ) → text.now ≢ size_text w v rest) }
{
    let (width, behind) = number_before(text, 10, b' ')?;
    let digits = after(behind, b"0x")?;
    let (value, rest) = number_before(digits, 16, b'\n')?;
    Some((width, value, rest))
}

/// The numbers of a store, and what follows its line.
#[tactic(auto, using(crate::proofs::ActLemmas::stored, crate::proofs::ActLemmas::no_store, crate::proofs::ActLemmas::no_line, crate::proofs::ActLemmas::no_offset, crate::proofs::ActLemmas::no_letter, crate::proofs::ActLemmas::no_size))]
fn store(text: &[u8]) -> Option<(StoreNumbers, &[u8])>
    ensures some { IfSome result (λ found. HasStore text.now found.0 found.1.now) }
    ensures none { IfNone result ((l o w v : ℕ) (rest : List ℕ) → text.now ≢ store_text l o w v rest) }
{
    let behind = after(text, b"store l")?;
    let (line, behind) = number_before(behind, 10, b'+')?;
    let (offset, behind) = number_before(behind, 10, b' ')?;
    let digits = after(behind, b"w")?;
    let (width, value, rest) = size(digits)?;
    let store = StoreNumbers {
        line,
        offset,
        width,
        value,
    };
    Some((store, rest))
}

/// What an event of the hart did, where the text begins with that.
#[tactic(auto, using(crate::proofs::ActLemmas::is_store, crate::proofs::ActLemmas::is_clean, crate::proofs::ActLemmas::is_begin, crate::proofs::ActLemmas::is_end, crate::proofs::ActLemmas::is_fence, crate::proofs::ActLemmas::is_none))]
pub(crate) fn read_act(text: &[u8], hart: Number) -> Option<Act<'_>>
    ensures some { IfSome result (λ act. (h : ℕ) → IsOf h hart → HasAct text.now h act) }
    ensures none { IfNone result ((event : AnEvent) (rest : List ℕ) → text.now ≢ act_text event rest) }
{
    if let Some((store, rest)) = store(text) {
        let judged = judged_store(hart, store);
        return Some(Act { judged, rest });
    }
    if let Some((line, rest)) = numbered(text, b"clean l") {
        let judged = judged_clean(hart, line);
        return Some(Act { judged, rest });
    }
    if let Some((op, rest)) = numbered(text, b"begin ") {
        let judged = judged_begin(hart, op);
        return Some(Act { judged, rest });
    }
    if let Some((op, rest)) = numbered(text, b"end ") {
        let judged = judged_end(hart, op);
        return Some(Act { judged, rest });
    }
    let rest = after(text, b"fence\n")?;
    let judged = judged_fence(hart);
    Some(Act { judged, rest })
}
