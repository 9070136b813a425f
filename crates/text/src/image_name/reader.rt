//! Reading the name of an image.

ghost use Rattle.std.specs.Prelude.{◌≡◌, ◌<◌, ◌↔◌, ℕ, List, IfNone, IfOk, IfSome, IsTrue, MatchOption};
ghost use Rattle.std.specs.List.{AllZip};
ghost use Rattle.text.specs.Grammar.{IsCutText, IsEntry, IsImageName, IsUpward, words};
ghost use Rattle.text.specs.Texts.{IsProper};
ghost use Rattle.text.specs.declared.image_name.name.ImageName.{ImageName as AnImageName};

use crate::decimal;
use crate::image_name::cut::Cut;
use crate::image_name::name::ImageName;
use std::alloc::{AllocError, Global};

/// The line and the number that a word says.
fn entry(word: &str) -> Option<(u32, u32)>
    ensures some { IfSome result (IsEntry word.now) }
    ensures none { IfNone result ((entry : ℕ × ℕ) → ¬ (IsEntry word.now entry)) }
{
    let (line, number) = word.strip_prefix('l')?.split_once(':')?;
    Some((decimal(line.as_bytes())?, decimal(number.as_bytes())?))
}

/// The entries that a text's words say.
fn entries(alloc: Global, text: &str) -> Result<Option<Vec<(u32, u32)>>, AllocError>
    ensures { IfOk result (λ found. MatchOption found
        ((entries : List (ℕ × ℕ)) → ¬ (AllZip IsEntry (words text.now) entries))
        (λ entries. AllZip IsEntry (words text.now) entries.items)) }
{
    let mut entries = Vec::new(alloc);
    for word in text.split(',') {
        let Some(entry) = entry(word) else {
            return Ok(None);
        };
        entries.push(entry)?;
    }
    Ok(Some(entries))
}

/// Whether the lines go strictly upwards.
fn is_upward(entries: &[(u32, u32)]) -> bool
    ensures { IsTrue result ↔ IsUpward entries.now }
{
    for at in 1..entries.len() {
        if entries[at].0 <= entries[at - 1].0 {
            return false;
        }
    }
    true
}

/// The cut that a text says.
#[tactic(auto, using(crate::proofs::OneReading::falls))]
fn cut(alloc: Global, text: &str) -> Result<Option<Cut>, AllocError>
    ensures { IfOk result (λ found. MatchOption found
        ((entries : List (ℕ × ℕ)) → ¬ (IsCutText text.now entries)) (IsCutText text.now)) }
{
    if text == "floor" {
        return Ok(Some(Cut::from_entries(Vec::new(alloc))));
    }
    let Some(entries) = entries(alloc, text)? else {
        return Ok(None);
    };
    if !is_upward(&entries) {
        return Ok(None);
    }
    Ok(Some(Cut::from_entries(entries)))
}

impl ImageName {
    /// The name that a text is, and None where it is none: a decimal number below 2^32; or `floor`; or words `lN:K` with a
    /// comma between each two, whose lines N go strictly upwards, N and K decimal numbers below 2^32. Leading zeros may
    /// stand in a number, and nothing but digits.
    ///
    /// # Errors
    /// AllocError where a growth is refused.
    #[tactic(auto, using(crate::proofs::OneReading::one_name, crate::proofs::OneReading::no_name, crate::proofs::Proper::proper_cut))]
    pub fn read(alloc: Global, text: &str) -> Result<Option<ImageName>, AllocError>
        ensures name { IfOk result (λ found. MatchOption found
            ((name : AnImageName) → ¬ (IsImageName text.now name)) (IsImageName text.now)) }
        ensures only { IfOk result (λ found. IfSome found (λ name. (other : AnImageName) → IsImageName text.now other
            → other ≡ name)) }
        ensures proper { IfOk result (λ found. IfSome found IsProper) }
    {
        if let Some(number) = decimal(text.as_bytes()) {
            return Ok(Some(ImageName::Number(number)));
        }
        match cut(alloc, text)? {
            Some(cut) => Ok(Some(ImageName::Cut(cut))),
            None => Ok(None),
        }
    }
}
