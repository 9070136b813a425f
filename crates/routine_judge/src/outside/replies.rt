//! The replies of an outside recovery so far.

ghost use Rattle.crash_image.specs.TraceIndexView.{IndexView};
ghost use Rattle.line_memory.specs.Lines.{line_at};
ghost use Rattle.routine_judge.specs.Outside.{AgreesWith, HasNoneOn};
ghost use Rattle.routine_judge.specs.OutsideTables.{AreKeptIn, AreKnownIn, IsKnownIn, IsReplyAt};
ghost use Rattle.routine_judge.specs.OutsideViews.{KnownView as AKnown, known_image};
ghost use Rattle.std.specs.Prelude.{◌≡◌, ◌↔◌, ◌⊎◌, ℕ, List, [], ◌∷◌, ◌++◌, Contains, IfNone, IfSome, IsTrue, OnOk, length};

use crate::outside::reply::Reply;
use crash_image::TraceIndex;
use recovery::Source;
use std::alloc::{AllocError, Global};
use std::marker::Model;

/// A reply, and of which image it is.
///
/// A contract sees how many of its stores each line of the image has, and the reply.
#[derive(Drop)]
pub(crate) struct Known {
    numbers: Vec<u32>,
    reply: Reply,
}

impl Model for Known {
    ghost use Rattle.routine_judge.specs.OutsideViews.{KnownView};

    ghost Value = { KnownView };

    ghost view = { λ k. record { numbers = k.numbers.items; reply = k.reply } };
}

impl Known {
    pub(crate) fn new(numbers: Vec<u32>, reply: Reply) -> Known
        ensures { result ≡ record { numbers = numbers.items; reply = reply } }
    {
        Known { numbers, reply }
    }

    pub(crate) fn reply(&self) -> &Reply
        ensures { result.now ≡ self.now.reply }
    {
        &self.reply
    }

    /// Whether the reply is one on the medium, which has the bytes of the image in each line that the reply names.
    #[tactic(auto, using(crate::proofs::OutsideAgreeing::agrees_none, crate::proofs::OutsideAgreeing::agrees_more))]
    fn is_on<S: Source>(&self, index: &TraceIndex<'_>, medium: &S) -> bool
        requires known { IsKnownIn index.now.start index.now.events self.now }
        requires size { length (S.medium medium.now) ≡ length index.now.start }
        ensures { IsTrue result ↔ AgreesWith index.now.start index.now.events self.now (S.medium medium.now) }
    {
        for line in self.reply.lines() {
            if !self.has_line_of(index, medium, *line) {
                return false;
            }
        }
        true
    }

    /// Whether the medium has the bytes of the image in a line that the reply names.
    fn has_line_of<S: Source>(&self, index: &TraceIndex<'_>, medium: &S, line: u32) -> bool
        requires known { IsKnownIn index.now.start index.now.events self.now }
        requires size { length (S.medium medium.now) ≡ length index.now.start }
        requires named { Contains self.now.reply.lines line }
        ensures { IsTrue result ↔ line_at (S.medium medium.now) line ≡ line_at (known_image index.now.start index.now.events self.now.numbers) line }
    {
        let number = self.numbers[line as usize];
        medium.line(line) == index.line(line, number)
    }
}

/// The replies so far, and the lines that they name.
#[derive(Drop)]
pub(crate) struct Replies {
    pub(crate) known: Vec<Known>,
    /// Each line that a reply names, once.
    pub(crate) lines: Vec<u32>,
}

impl Replies {
    pub(crate) fn none(alloc: Global) -> Replies
        ensures known { result.known.items ≡ [] }
        ensures lines { result.lines.items ≡ [] }
    {
        Replies {
            known: Vec::new(alloc),
            lines: Vec::new(alloc),
        }
    }

    /// The number of the first reply that is one on the medium.
    #[tactic(auto, using(crate::proofs::OutsideAgreeing::none_yet, crate::proofs::OutsideAgreeing::none_more))]
    pub(crate) fn find<S: Source>(&self, index: &TraceIndex<'_>, medium: &S) -> Option<usize>
        requires known { AreKnownIn index.now.start index.now.events self.now }
        requires size { length (S.medium medium.now) ≡ length index.now.start }
        ensures some { IfSome result (λ i. (known : AKnown) × IsReplyAt index.now.start index.now.events self.now.known.items i (S.medium medium.now) known) }
        ensures none { IfNone result (HasNoneOn index.now.start index.now.events self.now.known.items (S.medium medium.now)) }
    {
        for at in 0..self.known.len() {
            if self.known[at].is_on(index, medium) {
                return Some(at);
            }
        }
        None
    }

    /// Takes in a reply on the image in which each line has so many of its stores.
    #[tactic(auto, using(crate::proofs::OutsideAgreeing::kept_more))]
    pub(crate) fn add(&mut self, numbers: Vec<u32>, reply: Reply) -> Result<(), AllocError>
        ensures added { OnOk result (self.new.known.items ≡ self.old.known.items ++ (record { numbers = numbers.items; reply = reply } ∷ [])) }
        ensures known { OnOk result ((index : IndexView) → AreKeptIn index.start index.events self.old →
            IsKnownIn index.start index.events (record { numbers = numbers.items; reply = reply }) → AreKeptIn index.start index.events self.new) }
    {
        self.list(reply.lines())?;
        self.known.push(Known::new(numbers, reply))?;
        Ok(())
    }

    /// Adds lines to those that are named.
    fn list(&mut self, lines: &[u32]) -> Result<(), AllocError>
        ensures lines { OnOk result ((line : ℕ) → Contains self.new.lines.items line ↔ (Contains self.old.lines.items line ⊎ Contains lines.now line)) }
        ensures known { self.new.known.items ≡ self.old.known.items }
    {
        for line in lines {
            self.list_one(*line)?;
        }
        Ok(())
    }

    /// Adds a line, unless it is there.
    fn list_one(&mut self, line: u32) -> Result<(), AllocError>
        ensures lines { OnOk result ((other : ℕ) → Contains self.new.lines.items other ↔ (Contains self.old.lines.items other ⊎ (other ≡ line))) }
        ensures known { self.new.known.items ≡ self.old.known.items }
    {
        if !self.lines.contains(&line) {
            self.lines.push(line)?;
        }
        Ok(())
    }
}
