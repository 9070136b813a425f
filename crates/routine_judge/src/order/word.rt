//! The operations of a sequential run.

ghost use Rattle.std.specs.Prelude.{◌≡◌, [], ◌∷◌, ◌++◌, IfOk};

use crate::order::Operation;
use std::alloc::{AllocError, Global};

/// The operations of a sequential run at rest, in order.
#[derive(Debug, PartialEq, Eq, Hash, Drop)]
pub struct Word {
    pub(crate) operations: Vec<Operation>,
}

impl Word {
    /// That of a run without operations.
    pub fn none(alloc: Global) -> Word
        ensures { result.operations.items ≡ [] }
    {
        Word {
            operations: Vec::new(alloc),
        }
    }

    /// The word of these operations.
    pub fn of(alloc: Global, operations: &[Operation]) -> Result<Word, AllocError>
        ensures { IfOk result (λ word. word.operations.items ≡ operations.now) }
    {
        let operations = Vec::from_slice(alloc, operations)?;
        Ok(Word { operations })
    }

    /// Its operations.
    pub fn operations(&self) -> &[Operation]
        ensures { result.now ≡ self.now.operations.items }
    {
        &self.operations
    }

    /// Another that is the same.
    pub(crate) fn copy(&self, alloc: Global) -> Result<Word, AllocError>
        ensures { IfOk result (λ copy. copy.operations.items ≡ self.now.operations.items) }
    {
        Word::of(alloc, &self.operations)
    }

    /// The word with one operation more.
    pub(crate) fn with(&self, alloc: Global, operation: Operation) -> Result<Word, AllocError>
        ensures { IfOk result (λ word. word.operations.items ≡ self.now.operations.items ++ operation ∷ []) }
    {
        let mut word = self.copy(alloc)?;
        word.operations.push(operation)?;
        Ok(word)
    }
}
