//! Cutting a source into lines.

ghost use Rattle.asm_lex.specs.Lines.{lines_of};
ghost use Rattle.std.specs.List.{prefix_len};
ghost use Rattle.std.specs.Prelude.{◌≡◌, ◌==◌, ◌<◌, ◌≤◌, not, [], ◌∷◌, length, MatchOption};
ghost use Rattle.std.specs.Str.Lines.{strip_carriage_return};

/// How many bytes stand before the first LF.
fn line_len(source: &[u8]) -> usize
    ensures in_range { result ≤ length source.now }
    ensures value { result ≡ prefix_len (λ b. not (b == 10)) source.now }
{
    source.iter().take_while(|byte| **byte != b'\n').count()
}

/// A line without the one CR at its end, if it has one.
fn without_return(line: &[u8]) -> &[u8]
    ensures { result.now ≡ strip_carriage_return line.now }
{
    match line {
        [front @ .., last] if *last == b'\r' => front,
        _ => line,
    }
}

/// The first line of a source, without its end, and what follows that line; None where the source
/// is empty.
///
/// A line ends at LF, and exactly one CR right before that LF is dropped with it. The last line
/// may lack its LF, and then keeps a CR at its end. An LF at the very end begins no further line.
/// Called again on what follows, it gives all lines in order.
#[tactic(auto, using(crate::proofs::Cutting::last_line, crate::proofs::Cutting::ended_line))]
pub fn next_line(source: &[u8]) -> Option<(&[u8], &[u8])>
    ensures { MatchOption result (source.now ≡ []) (λ (line, rest).
        (lines_of source.now ≡ line.now ∷ lines_of rest.now)
        × (length rest.now < length source.now)) }
{
    if source.is_empty() {
        return None;
    }
    let (line, rest) = source.split_at(line_len(source));
    match rest {
        [] => Some((line, rest)),
        [_, after @ ..] => Some((without_return(line), after)),
    }
}
