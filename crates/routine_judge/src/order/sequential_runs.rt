//! The sequential runs of a program, as a search notes them.

ghost use Rattle.routine_judge.specs.SequentialRuns.{IsSameNote, notes_in};
ghost use Rattle.routine_judge.specs.declared.order.sequential_runs.SequentialRun.{SequentialRun as ANote};
ghost use Rattle.std.specs.Prelude.{◌≡◌, ◌↔◌, ◌⊎◌, [], Contains, IsTrue, OnErr, OnOk};

use crate::order::Word;
use recovery::{Answer, Cause as RunCause};
use std::alloc::{AllocError, Global};

/// What a sequential run at rest has done, and what the routine comes to on its full image.
#[derive(Drop)]
pub struct SequentialRun {
    /// Its operations.
    pub word: Word,
    pub found: Result<Answer, RunCause>,
}

impl SequentialRun {
    /// Whether the other says the same.
    fn is_same(&self, other: &SequentialRun) -> bool
        ensures { IsTrue result ↔ IsSameNote self.now other.now }
    {
        self.word.operations() == other.word.operations()
            && comes_to_same(&self.found, &other.found)
    }
}

/// The sequential runs of a program at rest that were noted, as far as they differ in what is noted of them.
#[derive(Drop)]
pub struct SequentialRuns {
    pub(crate) notes: Vec<SequentialRun>,
}

impl SequentialRuns {
    /// None yet.
    pub fn none(alloc: Global) -> SequentialRuns
        ensures { notes_in result ≡ [] }
    {
        SequentialRuns {
            notes: Vec::new(alloc),
        }
    }

    /// Notes a run, unless one was noted that says the same.
    ///
    /// # Errors
    /// A growth was refused. They are the same then.
    pub fn add(&mut self, note: SequentialRun) -> Result<(), AllocError>
        ensures there { OnOk result ((same : ANote) × Contains (notes_in self.new) same × IsSameNote same note) }
        ensures kept { (other : ANote) → Contains (notes_in self.old) other → Contains (notes_in self.new) other }
        ensures only { (other : ANote) → Contains (notes_in self.new) other → Contains (notes_in self.old) other ⊎ (other ≡ note) }
        ensures err { OnErr result (notes_in self.new ≡ notes_in self.old) }
    {
        if !has(&self.notes, &note) {
            self.notes.push(note)?;
        }
        Ok(())
    }

    /// Those that were noted.
    pub fn as_slice(&self) -> &[SequentialRun]
        ensures { result.now ≡ notes_in self.now }
    {
        &self.notes
    }
}

/// Whether one of the runs says the same as another.
fn has(notes: &[SequentialRun], note: &SequentialRun) -> bool
    ensures { IsTrue result → (same : ANote) × Contains notes.now same × IsSameNote same note.now }
{
    for other in notes {
        if other.is_same(note) {
            return true;
        }
    }
    false
}

/// Whether both are the same answer, or the same reason why there is none.
pub(crate) fn comes_to_same(
    one: &Result<Answer, RunCause>,
    other: &Result<Answer, RunCause>,
) -> bool
    ensures { IsTrue result ↔ (one.now ≡ other.now) }
{
    match (one, other) {
        (Ok(one), Ok(other)) => one.bytes() == other.bytes(),
        (Err(one), Err(other)) => one == other,
        _ => false,
    }
}
