//! Place words as they are told, each behind a blank.

ghost use Rattle.std.specs.Prelude.{◌≡◌, ◌++◌, IfOk, OnOk};
ghost use Rattle.trace_file.specs.Spaced.{is_step_word, is_told, spaced_word, spaced_words};

use crate::cutting::cut;
use std::alloc::{AllocError, Global};

/// Whether a word says which step made an event.
fn is_step_word(word: &[u8]) -> bool
    ensures { result ≡ is_step_word word.now }
{
    word.starts_with(b"step=")
}

/// Whether a word is told.
fn is_told(word: &[u8], with_steps: bool) -> bool
    ensures { result ≡ is_told with_steps word.now }
{
    !word.is_empty() && (with_steps || !is_step_word(word))
}

/// Adds a word that is told, behind a blank.
fn push_word(words: &mut Vec<u8>, word: &[u8], with_steps: bool) -> Result<(), AllocError>
    ensures { OnOk result (words.new.items ≡ words.old.items ++ spaced_word with_steps word.now) }
{
    if is_told(word, with_steps) {
        words.push(b' ')?;
        words.extend_from_slice(word)?;
    }
    Ok(())
}

/// The place words of an event, whose text has a blank behind each word: each behind a blank, without those that begin with
/// `step=` unless these are asked for.
///
/// # Errors
/// AllocError where a growth is refused.
#[tactic(auto, using(crate::proofs::Spacing::one_more_spaced, crate::proofs::Spacing::all_spaced))]
pub fn spaced_words(alloc: Global, place: &[u8], with_steps: bool) -> Result<Vec<u8>, AllocError>
    ensures { IfOk result (λ words. words.items ≡ spaced_words with_steps place.now) }
{
    let mut words = Vec::new(alloc);
    let mut rest = place;
    'words: while let Some((word, behind)) = cut(rest, b' ') {
        push_word(&mut words, word, with_steps)?;
        rest = behind;
    }
    push_word(&mut words, rest, with_steps)?;
    Ok(words)
}
