//! The words of a text.

ghost use Rattle.std.specs.Prelude.{◌≡◌, ◌≢◌, ◌<◌, ◌↔◌, [], ◌∷◌, ℕ, List, IfNone, IfSome, IsTrue, MatchOption, length, not, position};
ghost use Rattle.text.specs.Words.{behind_part, first_part, parting, parts, words};

/// What parts words.
#[derive(Clone, Copy)]
pub enum Blanks {
    /// Spaces, as in a line.
    Spaces,
    /// Spaces and line ends, as in a text of lines.
    SpacesAndLineEnds,
}

/// Whether a byte parts words.
#[tactic(auto, unfolding(crate::specs::Words::is_space, crate::specs::Words::is_blank))]
fn is_between(blanks: Blanks, byte: u8) -> bool
    ensures { result ≡ parting blanks byte }
{
    match blanks {
        Blanks::Spaces => byte == b' ',
        Blanks::SpacesAndLineEnds => matches!(byte, b' ' | b'\n'),
    }
}

/// The place at which a text's first word begins.
fn start(text: &[u8], blanks: Blanks) -> Option<usize>
    ensures { result ≡ position (λ byte. not (parting blanks byte)) text.now }
{
    text.iter().position(|byte| !is_between(blanks, *byte))
}

/// The place at which the first word ends, of a text that begins with it.
fn end(text: &[u8], blanks: Blanks) -> Option<usize>
    ensures { result ≡ position (parting blanks) text.now }
{
    text.iter().position(|byte| is_between(blanks, *byte))
}

/// The first word of a text, and what follows it.
#[tactic(auto, using(crate::proofs::Parting::no_parts))]
pub fn first_word(text: &[u8], blanks: Blanks) -> Option<(&[u8], &[u8])>
    ensures words { MatchOption result (parts (parting blanks) text.now ≡ [])
        (λ found. parts (parting blanks) text.now ≡ found.0.now ∷ parts (parting blanks) found.1.now) }
    ensures places { IfSome result (λ found. (found.0.now ≡ first_part (parting blanks) text.now)
        × (found.1.now ≡ behind_part (parting blanks) text.now)) }
    ensures shorter { IfSome result (λ found. length found.1.now < length text.now) }
{
    let text = &text[start(text, blanks)?..];
    Some(text.split_at(end(text, blanks).unwrap_or(text.len())))
}

/// Whether a line has no words.
pub fn is_blank(line: &[u8]) -> bool
    ensures { IsTrue result ↔ (words line.now ≡ []) }
{
    first_word(line, Blanks::Spaces).is_none()
}

/// The only word of a line.
pub fn only_word(line: &[u8]) -> Option<&[u8]>
    ensures some { IfSome result (λ word. words line.now ≡ word.now ∷ []) }
    ensures none { IfNone result ((word : List ℕ) → words line.now ≢ word ∷ []) }
{
    let (word, rest) = first_word(line, Blanks::Spaces)?;
    if is_blank(rest) { Some(word) } else { None }
}

/// What follows a line's first word, where that is the keyword.
pub fn after_keyword<'a>(line: &'a [u8], keyword: &[u8]) -> Option<&'a [u8]>
    ensures some { IfSome result (λ rest. words line.now ≡ keyword.now ∷ words rest.now) }
    ensures none { IfNone result ((rest : List (List ℕ)) → words line.now ≢ keyword.now ∷ rest) }
{
    let (word, rest) = first_word(line, Blanks::Spaces)?;
    if word == keyword { Some(rest) } else { None }
}
