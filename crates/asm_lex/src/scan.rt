//! Finding the pieces of a line, one after the other.

ghost use Rattle.asm_lex.specs.Pieces.{is_word, is_blank, pieces};
ghost use Rattle.asm_lex.specs.Scan.{begins_blank, BeginsWithPiece, IsNextPiece};
ghost use Rattle.std.specs.List.{prefix_len};
ghost use Rattle.std.specs.Prelude.{◌≡◌, ◌≤◌, [], false, length, drop, MatchOption};

use crate::kinds::is_word;

/// A space or a tab.
#[tactic(auto, unfolding(crate::specs::Pieces::is_blank))]
fn is_blank(byte: u8) -> bool
    ensures { result ≡ is_blank byte }
{
    byte == b' ' || byte == b'\t'
}

/// How many blanks the bytes begin with.
fn blank_len(bytes: &[u8]) -> usize
    ensures in_range { result ≤ length bytes.now }
    ensures value { result ≡ prefix_len is_blank bytes.now }
{
    bytes.iter().take_while(|byte| is_blank(**byte)).count()
}

/// How long the run is that the bytes begin with.
fn word_len(bytes: &[u8]) -> usize
    ensures in_range { result ≤ length bytes.now }
    ensures value { result ≡ prefix_len is_word bytes.now }
{
    bytes.iter().take_while(|byte| is_word(**byte)).count()
}

/// How long the piece is that the bytes begin with; None at a comment and at the end.
#[tactic(auto, using(crate::proofs::Cuts::nothing_found, crate::proofs::Cuts::comment_found, crate::proofs::Cuts::comma_found, crate::proofs::Cuts::run_found, crate::proofs::Cuts::mark_found))]
fn piece_len(bytes: &[u8]) -> Option<usize>
    requires { begins_blank bytes.now ≡ false }
    ensures { MatchOption result (pieces bytes.now ≡ []) (BeginsWithPiece bytes.now) }
{
    match bytes {
        [] | [b'#', ..] => None,
        // The usual mark.
        [b',', ..] => Some(1),
        [first, ..] if is_word(*first) => Some(word_len(bytes)),
        _ => Some(1),
    }
}

/// Where the line's next piece after a place begins and ends.
#[inline(always)]
#[tactic(auto, using(crate::proofs::Cuts::unblank_found, crate::proofs::Cuts::none_found))]
pub(crate) fn next_piece(line: &[u8], from: usize) -> Option<(usize, usize)>
    requires { from ≤ length line.now }
    ensures { MatchOption result (pieces (drop from line.now) ≡ []) (λ (start, end). IsNextPiece line.now from start end) }
{
    let (_, rest) = line.split_at(from);
    let start = blank_len(rest);
    let (_, unblank) = rest.split_at(start);
    let len = piece_len(unblank)?;
    Some((from + start, from + start + len))
}
