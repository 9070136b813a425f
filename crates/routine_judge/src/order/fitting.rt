//! Whether a sequential run fits the operations of a run.

ghost use Rattle.routine_judge.specs.Fitting.{Fits, HasAllEnded, IsWordOf, MayFollow, MayFollowAll, has};
ghost use Rattle.routine_judge.specs.Order.{AreAtRest, AreInOrder, AreOrdered, begun_of, operations_in};
ghost use Rattle.std.specs.List.{list_all};
ghost use Rattle.std.specs.Prelude.{◌≡◌, ◌↔◌, ℕ, List, IsTrue, map};
ghost use Rattle.store_trace.specs.declared.event.Event.{Event as AnEvent};

use crate::order::entry::Entry;
use crate::order::{Operation, Precedence, Word};

impl Precedence {
    /// Whether the sequential runs at rest of this word fit the events of which this is the precedence. Its time grows with the
    /// operations of the word by the operations that had ended before one of them began.
    pub fn fits(&self, word: &Word) -> bool
        ensures { (w p : List AnEvent) → IsWordOf w word.now → AreAtRest w → AreOrdered p self.now → IsTrue result ↔ Fits w p }
    {
        let operations = word.operations();
        has_all_ended(&self.entries, operations) && self.may_follow_all(operations)
    }

    fn may_follow_all(&self, word: &[Operation]) -> bool
        ensures { AreInOrder (operations_in self.now) → IsTrue result ↔ MayFollowAll (operations_in self.now) word.now }
    {
        for at in 0..word.len() {
            if !self.may_follow(&word[..at], word[at]) {
                return false;
            }
        }
        true
    }

    /// Whether the operation may be the next of a word, behind those that are done.
    fn may_follow(&self, done: &[Operation], next: Operation) -> bool
        ensures { AreInOrder (operations_in self.now) → IsTrue result ↔ MayFollow (operations_in self.now) done.now next }
    {
        match self.entry_of(next.op) {
            Some(entry) if entry.hart == next.hart => has_all(done, &entry.earlier),
            _ => false,
        }
    }
}

/// Whether the word has each operation that has ended.
fn has_all_ended(entries: &[Entry], word: &[Operation]) -> bool
    ensures { IsTrue result ↔ HasAllEnded (map begun_of entries.now) word.now }
{
    for entry in entries {
        if entry.ended && !has(word, entry.op) {
            return false;
        }
    }
    true
}

fn has_all(word: &[Operation], ops: &[u64]) -> bool
    ensures { result ≡ list_all (has word.now) ops.now }
{
    ops.iter().all(|op| has(word, *op))
}

/// Whether the operation is in the word.
pub(crate) fn has(word: &[Operation], op: u64) -> bool
    ensures { result ≡ has word.now op }
{
    word.iter().any(|operation| operation.op == op)
}
