//! What stands before a byte, and behind a beginning.

ghost use Rattle.std.specs.Prelude.{◌≡◌, ◌≢◌, ◌<◌, ◌++◌, ◌∷◌, ◌==◌, ℕ, List, IfNone, IfSome, MatchOption, length, position};
ghost use Rattle.trace_file.specs.Cuts.{IsCutAt};

/// The place of the first of a byte.
fn place(text: &[u8], stop: u8) -> Option<usize>
    ensures { result ≡ position (λ byte. byte == stop) text.now }
{
    text.iter().position(|byte| *byte == stop)
}

/// What stands before the first of a byte, and what behind it.
#[tactic(auto, using(crate::proofs::CutLemmas::cut_found, crate::proofs::CutLemmas::cut_missing))]
pub(crate) fn cut(text: &[u8], stop: u8) -> Option<(&[u8], &[u8])>
    ensures some { IfSome result (λ found. IsCutAt stop text.now found.0.now found.1.now) }
    ensures none { IfNone result ((front back : List ℕ) → text.now ≢ front ++ stop ∷ back) }
    ensures shorter { IfSome result (λ found. length found.1.now < length text.now) }
{
    match place(text, stop) {
        Some(place) => Some((&text[..place], &text[place + 1..])),
        None => None,
    }
}

/// What stands behind a beginning.
pub(crate) fn after<'a>(text: &'a [u8], beginning: &[u8]) -> Option<&'a [u8]>
    ensures { MatchOption result ((rest : List ℕ) → text.now ≢ beginning.now ++ rest) (λ rest. text.now ≡ beginning.now ++ rest.now) }
{
    if text.starts_with(beginning) {
        Some(&text[beginning.len()..])
    } else {
        None
    }
}
