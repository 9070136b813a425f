//! An answer that is kept, or a copy of one that somebody else keeps.

ghost use Rattle.std.specs.Prelude.{◌≡◌, IfOk};

use recovery::Answer;
use std::alloc::{AllocError, Global};
use std::marker::Model;

/// An answer, or a copy of one.
///
/// A contract sees its bytes.
#[derive(Drop)]
pub struct HeldAnswer {
    held: Held,
}

#[derive(Drop)]
enum Held {
    Own(Answer),
    Copy(Vec<u8>),
}

impl Model for HeldAnswer {
    ghost use Rattle.std.specs.Prelude.{ℕ, List};

    ghost Value = { List ℕ };

    ghost use Rattle.routine_judge.specs.HeldAnswers.{bytes_in};

    ghost view = { λ a. bytes_in a.held };
}

impl HeldAnswer {
    /// The answer itself.
    pub fn own(answer: Answer) -> HeldAnswer
        ensures { result ≡ answer }
    {
        HeldAnswer {
            held: Held::Own(answer),
        }
    }

    /// A copy of it.
    pub fn copied(alloc: Global, answer: &Answer) -> Result<HeldAnswer, AllocError>
        ensures { IfOk result (λ copy. copy ≡ answer.now) }
    {
        let bytes = Vec::from_slice(alloc, answer.bytes())?;
        Ok(HeldAnswer {
            held: Held::Copy(bytes),
        })
    }

    /// The answer of these bytes.
    pub fn of(alloc: Global, bytes: &[u8]) -> Result<HeldAnswer, AllocError>
        ensures { IfOk result (λ answer. answer ≡ bytes.now) }
    {
        let bytes = Vec::from_slice(alloc, bytes)?;
        Ok(HeldAnswer {
            held: Held::Copy(bytes),
        })
    }

    /// The same answer once more.
    pub fn copy(&self, alloc: Global) -> Result<HeldAnswer, AllocError>
        ensures { IfOk result (λ copy. copy ≡ self.now) }
    {
        let bytes = Vec::from_slice(alloc, self.bytes())?;
        Ok(HeldAnswer {
            held: Held::Copy(bytes),
        })
    }

    pub fn bytes(&self) -> &[u8]
        ensures { result.now ≡ self.now }
    {
        match &self.held {
            Held::Own(answer) => answer.bytes(),
            Held::Copy(bytes) => bytes,
        }
    }
}
