//! What an outside recovery replies on an image.

ghost use Rattle.std.specs.Prelude.{◌≡◌};
ghost use Rattle.std.specs.Result.{result_map_both};

use std::marker::Model;

/// What an outside recovery replies on an image.
///
/// A contract sees what recovery came to, and the lines that it loaded.
#[derive(Drop)]
pub struct Reply {
    found: Result<Vec<u8>, Vec<u8>>,
    lines: Vec<u32>,
}

impl Model for Reply {
    ghost use Rattle.routine_judge.specs.OutsideViews.{ReplyView};
    ghost use Rattle.std.specs.Result.{result_map_both};

    ghost Value = { ReplyView };

    ghost view = { λ r. record { found = result_map_both (λ answer. answer.items) (λ word. word.items) r.found; lines = r.lines.items } };
}

impl Reply {
    /// The bytes of an answer, or a word for why there is none, and the lines of which recovery may have loaded bytes.
    pub fn new(found: Result<Vec<u8>, Vec<u8>>, lines: Vec<u32>) -> Reply
        ensures found { result.found ≡ result_map_both (λ answer. answer.items) (λ word. word.items) found }
        ensures lines { result.lines ≡ lines.items }
    {
        Reply { found, lines }
    }

    /// The bytes of the answer, or the word for why there is none.
    pub fn found(&self) -> Result<&[u8], &[u8]>
        ensures { result_map_both (λ answer. answer.now) (λ word. word.now) result ≡ self.now.found }
    {
        match &self.found {
            Ok(answer) => Ok(answer),
            Err(word) => Err(word),
        }
    }

    /// The lines of which recovery may have loaded bytes.
    pub fn lines(&self) -> &[u32]
        ensures { result.now ≡ self.now.lines }
    {
        &self.lines
    }
}
