//! The lines of a text.

ghost use Rattle.std.specs.Prelude.{◌≡◌, ◌<◌, [], ◌∷◌, IfSome, MatchOption, length, position};
ghost use Rattle.std.specs.List.{before_first};
ghost use Rattle.plan.specs.Lines.{is_hash, is_line_end, lines};

/// The place of the first line end.
#[tactic(auto, unfolding(crate::specs::Lines::is_line_end))]
fn line_end(text: &[u8]) -> Option<usize>
    ensures { result ≡ position is_line_end text.now }
{
    text.iter().position(|byte| *byte == b'\n')
}

/// The place of the first hash.
#[tactic(auto, unfolding(crate::specs::Lines::is_hash))]
fn hash(line: &[u8]) -> Option<usize>
    ensures { result ≡ position is_hash line.now }
{
    line.iter().position(|byte| *byte == b'#')
}

/// The first line of a text, and the text after its line end.
#[tactic(auto, using(crate::proofs::Lining::line_ends, crate::proofs::Lining::last_line))]
pub(crate) fn first_line(text: &[u8]) -> Option<(&[u8], &[u8])>
    ensures lines { MatchOption result (lines text.now ≡ [])
        (λ found. lines text.now ≡ found.0.now ∷ lines found.1.now) }
    ensures shorter { IfSome result (λ found. length found.1.now < length text.now) }
{
    if text.is_empty() {
        return None;
    }
    match line_end(text) {
        Some(end) => Some((&text[..end], &text[end + 1..])),
        None => Some((text, &text[text.len()..])),
    }
}

/// A line without its comment.
#[tactic(auto, using(text::proofs::Parting::ends_at))]
pub(crate) fn uncommented(line: &[u8]) -> &[u8]
    ensures { result.now ≡ before_first is_hash line.now }
{
    &line[..hash(line).unwrap_or(line.len())]
}
