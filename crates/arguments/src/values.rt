//! The values that clap found for a subcommand's words and options.

ghost use Rattle.std.specs.Prelude.{◌≡◌, ◌≤◌, ℕ, IfOk, IfSome, IfErr, MatchOption, Option, String as AString};
ghost use Rattle.std.specs.declared.alloc.Global.{Global as AGlobal};
ghost use Rattle.clap.specs.Words.{first_of, found_of, rows_of};
ghost use Rattle.arguments.specs.Line.{OnFault};
ghost use Rattle.arguments.specs.Values.{IsCodeWord, IsImageWord, IsNumber, IsNumberWord, IsOptional, IsOptionalImage, IsOptionalNumber, IsSeed, IsWord, is_set};
ghost use Rattle.arguments.specs.declared.codes.table.Meaning.{Meaning as AMeaning};
ghost use Rattle.text.specs.Texts.{IsProper};
ghost use Rattle.text.specs.declared.image_name.name.ImageName.{ImageName as AnImageName};

use crate::asked::LineFault;
use crate::codes::{Meaning, meaning_of};
use clap::ArgMatches;
use std::alloc::Global;
use text::{ImageName, decimal, decimal_within, wide_decimal};

/// The value of an option or a word, where the line has it.
#[tactic(auto, using(crate::proofs::Lines::value_found))]
pub(crate) fn value<'a>(found: &ArgMatches<'a>, name: &str) -> Option<&'a str>
    ensures { MatchOption result (first_of name.now (rows_of (found_of found.now)) ≡ None)
        (λ value. first_of name.now (rows_of (found_of found.now)) ≡ Some value.now) }
{
    found.get_str(name)
}

/// Whether the line has an option without a value.
pub(crate) fn flag(found: &ArgMatches<'_>, name: &str) -> bool
    ensures { result ≡ is_set (first_of name.now (rows_of (found_of found.now))) }
{
    match value(found, name) {
        Some(set) => set == "true",
        None => false,
    }
}

/// The value of a word that a command needs.
fn needed<'a>(alloc: Global, found: &ArgMatches<'a>, name: &str) -> Result<&'a str, LineFault>
    ensures ok { IfOk result (λ value. first_of name.now (rows_of (found_of found.now)) ≡ Some value.now) }
    ensures err { IfErr result (OnFault (first_of name.now (rows_of (found_of found.now)) ≡ None)) }
{
    match value(found, name) {
        Some(value) => Ok(value),
        None => Err(LineFault::Fault(format!(in alloc; "error: {name} is missing\n")?)),
    }
}

/// The word that a command needs.
pub(crate) fn word(alloc: Global, found: &ArgMatches<'_>, name: &str) -> Result<String, LineFault>
    ensures ok { IfOk result (IsWord name.now (rows_of (found_of found.now))) }
    ensures err { IfErr result (OnFault (first_of name.now (rows_of (found_of found.now)) ≡ None)) }
{
    let word = needed(alloc, found, name)?;
    Ok(String::from_str(alloc, word)?)
}

/// The name of a file, the value of an option that may be left out. It isn't empty and doesn't begin with `-`.
pub(crate) fn optional(
    alloc: Global,
    found: &ArgMatches<'_>,
    name: &str,
) -> Result<Option<String>, LineFault>
    ensures ok { IfOk result (IsOptional name.now (rows_of (found_of found.now))) }
    ensures err { IfErr result (OnFault ((value : Option (AString AGlobal))
        → ¬ (IsOptional name.now (rows_of (found_of found.now)) value))) }
{
    let Some(file) = value(found, name) else {
        return Ok(None);
    };
    match file.as_bytes() {
        [] | [b'-', ..] => Err(LineFault::Fault(format!(in alloc;
            "error: --{name} takes the name of a file\n"
        )?)),
        _ => Ok(Some(String::from_str(alloc, file)?)),
    }
}

/// The number, below 2^32, that a word which a command needs writes.
pub(crate) fn number_word(
    alloc: Global,
    found: &ArgMatches<'_>,
    name: &str,
) -> Result<u32, LineFault>
    ensures ok { IfOk result (IsNumberWord (first_of name.now (rows_of (found_of found.now)))) }
    ensures err { IfErr result (OnFault ((n : ℕ) → ¬ (IsNumberWord (first_of name.now (rows_of (found_of found.now))) n))) }
{
    let text = needed(alloc, found, name)?;
    match decimal(text.as_bytes()) {
        Some(number) => Ok(number),
        None => Err(LineFault::Fault(format!(in alloc;
            "error: {name} is a decimal number below 4294967296\n"
        )?)),
    }
}

/// The number, below 2^32, of a word that may be left out.
pub(crate) fn optional_number_word(
    alloc: Global,
    found: &ArgMatches<'_>,
    name: &str,
) -> Result<Option<u32>, LineFault>
    ensures ok { IfOk result (IsOptionalNumber (first_of name.now (rows_of (found_of found.now)))) }
    ensures err { IfErr result (OnFault ((number : Option ℕ)
        → ¬ (IsOptionalNumber (first_of name.now (rows_of (found_of found.now))) number))) }
{
    let Some(text) = value(found, name) else {
        return Ok(None);
    };
    match decimal(text.as_bytes()) {
        Some(number) => Ok(Some(number)),
        None => Err(LineFault::Fault(format!(in alloc;
            "error: {name} is a decimal number below 4294967296\n"
        )?)),
    }
}

/// The number, below 2^64, that the value of `--seed` writes, which has to be given.
pub(crate) fn seed(alloc: Global, found: &ArgMatches<'_>) -> Result<u64, LineFault>
    ensures ok { IfOk result (IsSeed (rows_of (found_of found.now))) }
    ensures err { IfErr result (OnFault ((n : ℕ) → ¬ (IsSeed (rows_of (found_of found.now)) n))) }
{
    let Some(text) = value(found, "seed") else {
        return Err(LineFault::Fault(format!(in alloc; "error: --seed is missing\n")?));
    };
    match wide_decimal(text.as_bytes()) {
        Some(number) => Ok(number),
        None => Err(LineFault::Fault(format!(in alloc;
            "error: --seed takes a decimal number below 18446744073709551616\n"
        )?)),
    }
}

/// The image that a word which a command needs names.
pub(crate) fn image_word(
    alloc: Global,
    found: &ArgMatches<'_>,
    name: &str,
) -> Result<ImageName, LineFault>
    ensures ok { IfOk result (IsImageWord (first_of name.now (rows_of (found_of found.now)))) }
    ensures proper { IfOk result IsProper }
    ensures err { IfErr result (OnFault ((image : AnImageName) → ¬ (IsImageWord (first_of name.now (rows_of (found_of found.now))) image))) }
{
    let text = needed(alloc, found, name)?;
    match ImageName::read(alloc, text)? {
        Some(image) => Ok(image),
        None => Err(LineFault::Fault(format!(in alloc;
            "error: {name} is a decimal number below 4294967296, or lines as in l1:1,l300:1, or floor\n"
        )?)),
    }
}

/// The image that the value of an option names, which may be left out.
pub(crate) fn optional_image(
    alloc: Global,
    found: &ArgMatches<'_>,
    name: &str,
) -> Result<Option<ImageName>, LineFault>
    ensures ok { IfOk result (IsOptionalImage (first_of name.now (rows_of (found_of found.now)))) }
    ensures proper { IfOk result (λ image. IfSome image IsProper) }
    ensures err { IfErr result (OnFault ((image : Option AnImageName)
        → ¬ (IsOptionalImage (first_of name.now (rows_of (found_of found.now))) image))) }
{
    let Some(text) = value(found, name) else {
        return Ok(None);
    };
    match ImageName::read(alloc, text)? {
        Some(image) => Ok(Some(image)),
        None => Err(LineFault::Fault(format!(in alloc;
            "error: --{name} takes a decimal number below 4294967296, or lines as in l1:1,l300:1, or floor\n"
        )?)),
    }
}

/// What the code of a word means, which may be left out.
pub(crate) fn code_word(
    alloc: Global,
    found: &ArgMatches<'_>,
    name: &str,
) -> Result<Option<Meaning>, LineFault>
    ensures ok { IfOk result (IsCodeWord (first_of name.now (rows_of (found_of found.now)))) }
    ensures err { IfErr result (OnFault ((meaning : Option AMeaning)
        → ¬ (IsCodeWord (first_of name.now (rows_of (found_of found.now))) meaning))) }
{
    let Some(text) = value(found, name) else {
        return Ok(None);
    };
    match meaning_of(text) {
        Some(meaning) => Ok(Some(meaning)),
        None => Err(LineFault::Fault(format!(in alloc;
            "error: there is no code {text}; `novacrash code` lists all\n"
        )?)),
    }
}

/// An option whose value is a number.
pub(crate) struct NumberOption {
    pub(crate) name: &'static str,
    pub(crate) default: u32,
    pub(crate) low: u32,
    pub(crate) high: u32,
}

/// The number that an option's value writes, where it is within the option's limits, and the default
/// where the line doesn't have the option.
pub(crate) fn number(
    alloc: Global,
    found: &ArgMatches<'_>,
    option: &NumberOption,
) -> Result<u32, LineFault>
    requires low { option.now.low ≤ option.now.default }
    requires high { option.now.default ≤ option.now.high }
    ensures ok { IfOk result (IsNumber option.now.default option.now.low option.now.high
        (first_of option.now.name.now (rows_of (found_of found.now)))) }
    ensures within { IfOk result (λ n. (option.now.low ≤ n) × (n ≤ option.now.high)) }
    ensures err { IfErr result (OnFault ((n : ℕ)
        → ¬ (IsNumber option.now.default option.now.low option.now.high
        (first_of option.now.name.now (rows_of (found_of found.now))) n))) }
{
    let NumberOption {
        name,
        default,
        low,
        high,
    } = *option;
    let Some(text) = value(found, name) else {
        return Ok(default);
    };
    match decimal_within(text.as_bytes(), low, high) {
        Some(number) => Ok(number),
        None => Err(LineFault::Fault(format!(in alloc;
            "error: --{name} takes a decimal number from {low} to {high}\n"
        )?)),
    }
}
