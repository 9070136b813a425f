//! What is known of recovery.

use crate::branches::question::Question;
use std::alloc::{AllocError, Global};

/// Recovery over the images of a moment's cuts. A cut gives each line a number of its stores, between its floor and all of them.
pub trait Recovery {
    ghost use Rattle.std.specs.Prelude.{◌≡◌, ◌≤◌, ◌<◌, ◌&&◌, ℕ, List, [], Bool, true, Option, IfOk, bit_or, length};
    ghost use Rattle.std.specs.List.{AllByRecursion};
    ghost use Rattle.verdict.specs.Branches.{Agree, IsAdaptive, IsEquivalence, IsShared, IsWithin, is_first, question};
    ghost use Rattle.verdict.specs.Numbers.{number_over};
    ghost use Rattle.verdict.specs.declared.branches.question.Question.{Question as AQuestion};

    /// Why an image is bad.
    type Cause: Copy + Send;

    /// What a run of recovery works in: one run after another.
    type Workspace: Drop + Send;

    /// How many lines the medium has.
    ghost lines: { Self → ℕ };

    /// At which number of stores each line stands at least.
    ghost low: { Self → ℕ → ℕ };

    /// How many stores each line has.
    ghost high: { Self → ℕ → ℕ };

    /// Whether the bytes of a question are the same for recovery after two numbers of their line's stores.
    ghost alike: { Self → AQuestion → ℕ → ℕ → Bool };

    /// Of the image of this cut recovery asks these bytes, in this order.
    ghost asks: { Self → (ℕ → ℕ) → List AQuestion → Type 0 };

    /// Whether further images are tried where there are too many branches.
    ghost further: { Self → Bool };

    /// The image of this cut is bad for this cause, or passes.
    ghost judged: { Self → (ℕ → ℕ) → Option Self.Cause → Type 0 };

    /// The workspace is one for these images.
    ghost fits: { Self → Self.Workspace → Type 0 };

    /// How many lines the medium has.
    fn lines(&self) -> u32
        ensures { result ≡ lines self.now };

    /// The least number of stores of a line below `lines`.
    fn floor(&self, line: u32) -> u32
        requires { line < lines self.now }
        ensures { result ≡ low self.now line };

    /// The greatest number of stores of a line below `lines`.
    fn stores(&self, line: u32) -> u32
        requires { line < lines self.now }
        ensures { result ≡ high self.now line };

    /// Whether the bytes of a question, of a line below `lines`, are the same for recovery after two numbers of the line's stores.
    fn is_alike(&self, asked: Question, one: u32, other: u32) -> bool
        requires line { asked.line < lines self.now }
        requires one { one ≤ high self.now asked.line }
        requires other { other ≤ high self.now asked.line }
        ensures { result ≡ alike self.now asked one other };

    /// Whether no lower number from the floor on is alike to this one, which is above the floor of a line below `lines`.
    fn is_first(&self, asked: Question, number: u32) -> bool
        requires line { asked.line < lines self.now }
        requires number { (low self.now asked.line < number) × (number ≤ high self.now asked.line) }
        ensures { result ≡ is_first (alike self.now asked) (low self.now asked.line) number };

    /// Whether a bad image is told where there are too many branches, for which further ones are tried.
    fn tries_further(&self) -> bool
        ensures { result ≡ further self.now };

    /// A workspace for runs of recovery on these images, of which one is there: each thread that opens branches has one of its own.
    fn workspace(&self, alloc: Global) -> Result<Self::Workspace, AllocError>
        requires { (other : Self.Workspace) × fits self.now other }
        ensures { IfOk result (λ workspace. fits self.now workspace) };

    /// Recovers the image of a cut, given by line, with 0 for a line at its floor. Puts the bytes that are asked into `asked`,
    /// in order, each of a line below `lines`, and answers why the image is bad, or None where it passes. The workspace can be used again
    /// after an error too.
    fn recover(
        &self,
        alloc: Global,
        workspace: &mut Self::Workspace,
        numbers: &[u32],
        asked: &mut Vec<Question>,
    ) -> Result<Option<Self::Cause>, AllocError>
        requires fits { fits self.now workspace.old }
        requires size { length numbers.now ≡ lines self.now }
        requires within { IsWithin (low self.now) (high self.now) (number_over (low self.now) numbers.now) }
        requires fresh { asked.old.items ≡ [] }
        ensures asked { IfOk result (λ found. asks self.now (number_over (low self.now) numbers.now) asked.new.items) }
        ensures below { IfOk result (λ found. AllByRecursion (λ q. q.line < lines self.now) asked.new.items) }
        ensures judged { IfOk result (λ found. judged self.now (number_over (low self.now) numbers.now) found) }
        ensures fits { fits self.now workspace.new };

    ghost ordered: { (s : Self) (l : ℕ) → low s l ≤ high s l };

    ghost equivalent: { (s : Self) → IsEquivalence (alike s) };

    /// Where no byte is asked, all numbers are alike.
    ghost nothing: { (s : Self) (l n m : ℕ) → alike s (question l 0) n m ≡ true };

    /// Bytes are asked one by one.
    ghost both: { (s : Self) (l a b n m : ℕ) → alike s (question l (bit_or a b)) n m ≡ (alike s (question l a) n m && alike s (question l b) n m) };

    /// What was asked so far, and what was found there, decides what is asked next.
    ghost adaptive: { (s : Self) → IsAdaptive (alike s) (asks s) };

    /// Cuts that agree on the bytes asked of one of them have the same bytes asked,
    ghost shared: { (s : Self) → IsShared (alike s) (asks s) };

    /// and are judged alike.
    ghost branchwise: { (s : Self) (c k : ℕ → ℕ) (qs : List AQuestion) (found : Option Self.Cause) →
        asks s c qs → Agree (alike s) k c qs → judged s c found → judged s k found };
}
