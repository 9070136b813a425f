//! How many power cuts in recovery an option's value asks for.

ghost use Rattle.std.specs.Prelude.{ℕ, IfNone, IfOk, IfErr, IfSome, Option};
ghost use Rattle.clap.specs.Words.{first_of, found_of, rows_of};
ghost use Rattle.arguments.specs.Cuts.{AreFewCuts, IsMostCuts, IsOptionalCuts};
ghost use Rattle.arguments.specs.Line.{OnFault};
ghost use Rattle.arguments.specs.Values.{IsDecimal};
ghost use Rattle.arguments.specs.declared.asked.MostCuts.{MostCuts as SomeCuts};

use crate::asked::{LineFault, MostCuts};
use crate::values::value;
use clap::ArgMatches;
use std::alloc::Global;
use text::decimal_within;

/// How many power cuts in recovery the value of an option asks for, which may be left out.
pub(crate) fn optional_cuts(
    alloc: Global,
    found: &ArgMatches<'_>,
    name: &str,
) -> Result<Option<MostCuts>, LineFault>
    ensures ok { IfOk result (IsOptionalCuts (first_of name.now (rows_of (found_of found.now)))) }
    ensures few { IfOk result (λ cuts. IfSome cuts AreFewCuts) }
    ensures err { IfErr result (OnFault ((cuts : Option SomeCuts)
        → ¬ (IsOptionalCuts (first_of name.now (rows_of (found_of found.now))) cuts))) }
{
    let Some(text) = value(found, name) else {
        return Ok(None);
    };
    match most_cuts(text) {
        Some(cuts) => Ok(Some(cuts)),
        None => Err(LineFault::Fault(format!(in alloc;
            "error: --{name} takes a decimal number from 1 to 64, or any\n"
        )?)),
    }
}

/// How many power cuts in recovery a text asks for.
#[tactic(auto, using(crate::proofs::CutTexts::no_number))]
fn most_cuts(text: &str) -> Option<MostCuts>
    ensures some { IfSome result (IsMostCuts text.now) }
    ensures few { IfSome result AreFewCuts }
    ensures none { IfNone result ((other : SomeCuts) → ¬ IsMostCuts text.now other) }
{
    match text {
        "any" => Some(MostCuts::Any),
        _ => number_of_cuts(text),
    }
}

/// The number of cuts that a text writes.
fn number_of_cuts(text: &str) -> Option<MostCuts>
    ensures some { IfSome result (IsMostCuts text.now) }
    ensures few { IfSome result AreFewCuts }
    ensures none { IfNone result ((n : ℕ) → ¬ IsDecimal 1 64 text.now n) }
{
    let most = decimal_within(text.as_bytes(), 1, 64)?;
    Some(MostCuts::AtMost(most))
}
