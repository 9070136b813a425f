//! The moments that an option's value names.

ghost use Rattle.std.specs.Prelude.{◌≡◌, IfNone, IfOk, IfErr, IfSome, Option};
ghost use Rattle.clap.specs.Words.{first_of, found_of, rows_of};
ghost use Rattle.arguments.specs.Line.{OnFault};
ghost use Rattle.arguments.specs.Spans.{IsEnd, IsMoments, IsOptionalMoments, IsUpward};
ghost use Rattle.arguments.specs.declared.asked.Moments.{Moments as SomeMoments};

use crate::asked::{LineFault, Moments};
use crate::values::value;
use clap::ArgMatches;
use std::alloc::Global;
use text::decimal;

/// The moments that the value of an option names, which may be left out.
pub(crate) fn optional_moments(
    alloc: Global,
    found: &ArgMatches<'_>,
    name: &str,
) -> Result<Option<Moments>, LineFault>
    ensures ok { IfOk result (IsOptionalMoments (first_of name.now (rows_of (found_of found.now)))) }
    ensures upward { IfOk result (λ moments. IfSome moments IsUpward) }
    ensures err { IfErr result (OnFault ((moments : Option SomeMoments)
        → ¬ (IsOptionalMoments (first_of name.now (rows_of (found_of found.now))) moments))) }
{
    let Some(text) = value(found, name) else {
        return Ok(None);
    };
    match moments(text) {
        Some(moments) => Ok(Some(moments)),
        None => Err(LineFault::Fault(format!(in alloc;
            "error: --{name} takes A-B, A- or A, decimal numbers below 4294967296, A at most B\n"
        )?)),
    }
}

/// The moments that a text names.
fn moments(text: &str) -> Option<Moments>
    ensures some { IfSome result (λ found. IsMoments text.now found) }
    ensures upward { IfSome result IsUpward }
    ensures none { IfNone result ((other : SomeMoments) → ¬ IsMoments text.now other) }
{
    let Some((first, end)) = text.split_once('-') else {
        let moment = decimal(text.as_bytes())?;
        return Some(Moments {
            first: moment,
            last: Some(moment),
        });
    };
    let first = decimal(first.as_bytes())?;
    span(first, end)
}

/// The moments from one on, by what stands behind the dash.
fn span(first: u32, end: &str) -> Option<Moments>
    ensures some { IfSome result (λ found. (found.first ≡ first) × IsEnd end.now found) }
    ensures upward { IfSome result IsUpward }
    ensures none { IfNone result ((other : SomeMoments) → other.first ≡ first → ¬ IsEnd end.now other) }
{
    if end.is_empty() {
        return Some(Moments { first, last: None });
    }
    let last = decimal(end.as_bytes())?;
    if first <= last {
        Some(Moments {
            first,
            last: Some(last),
        })
    } else {
        None
    }
}
