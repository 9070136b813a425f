//! The words that say where an event was made.

ghost use Rattle.std.specs.Prelude.{◌≡◌, ◌↔◌, ◌<◌, IfNone, IfSome, IsTrue, length};
ghost use Rattle.std.specs.List.{list_all};
ghost use Rattle.trace_file.specs.Entries.{IsPlaceWord, is_letter, is_place_byte};
ghost use Rattle.trace_file.specs.Parts.{BeginsWithPlace, HasPlaces, IsBehindPlace, IsFilledWith};

use crate::cutting::cut;

fn is_letter(byte: u8) -> bool
    ensures { result ≡ is_letter byte }
{
    matches!(byte, b'a'..=b'z')
}

fn is_place_byte(byte: u8) -> bool
    ensures { result ≡ is_place_byte byte }
{
    byte != b' ' && byte != b'\n'
}

fn has_letters(name: &[u8]) -> bool
    ensures { result ≡ list_all is_letter name.now }
{
    name.iter().all(|byte| is_letter(*byte))
}

fn has_place_bytes(value: &[u8]) -> bool
    ensures { result ≡ list_all is_place_byte value.now }
{
    value.iter().all(|byte| is_place_byte(*byte))
}

/// Whether bytes are letters, one or more.
fn is_name(name: &[u8]) -> bool
    ensures { IsTrue result ↔ IsFilledWith is_letter name.now }
{
    !name.is_empty() && has_letters(name)
}

/// Whether bytes may stand in a place, one or more.
fn is_value(value: &[u8]) -> bool
    ensures { IsTrue result ↔ IsFilledWith is_place_byte value.now }
{
    !value.is_empty() && has_place_bytes(value)
}

/// Whether a word is letters, `=` and bytes.
#[tactic(auto, using(crate::proofs::PlaceLemmas::no_equals, crate::proofs::PlaceLemmas::no_name, crate::proofs::PlaceLemmas::value_decides))]
fn is_place_word(word: &[u8]) -> bool
    ensures { IsTrue result ↔ IsPlaceWord word.now }
{
    let Some((name, value)) = cut(word, b'=') else {
        return false;
    };
    if is_name(name) {
        is_value(value)
    } else {
        false
    }
}

/// What follows a place word and the blank behind it, in a text that begins with these.
#[tactic(auto, using(crate::proofs::PlaceLemmas::place_stands, crate::proofs::PlaceLemmas::no_place_word, crate::proofs::PlaceLemmas::no_blank))]
fn behind_place_word(text: &[u8]) -> Option<&[u8]>
    ensures some { IfSome result (λ rest. IsBehindPlace text.now rest.now) }
    ensures none { IfNone result (¬ BeginsWithPlace text.now) }
    ensures shorter { IfSome result (λ rest. length rest.now < length text.now) }
{
    let (word, rest) = cut(text, b' ')?;
    if is_place_word(word) {
        Some(rest)
    } else {
        None
    }
}

/// The place words with which a text begins, each with the blank behind it, and what follows them.
#[tactic(auto, using(crate::proofs::PlaceLemmas::nothing_placed, crate::proofs::PlaceLemmas::one_more_placed, crate::proofs::PlaceLemmas::all_placed))]
pub(crate) fn places(text: &[u8]) -> (&[u8], &[u8])
    ensures { HasPlaces text.now result.0.now result.1.now }
{
    let mut rest = text;
    while let Some(behind) = behind_place_word(rest) {
        rest = behind;
    }
    (&text[..text.len() - rest.len()], rest)
}
