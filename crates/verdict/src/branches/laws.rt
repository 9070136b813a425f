//! What holds of branches from moment to moment: laws, with nothing to run.

ghost use Rattle.std.specs.Prelude.{◌≡◌, ◌≢◌, ℕ, ◌≤◌, List, true, false};
ghost use Rattle.verdict.specs.Branches.{AreOver, IsEquivalence, IsShared, IsWithin, has_line};
ghost use Rattle.verdict.specs.declared.branches.question.Question.{Question};

use std::marker::Brand;

/// Which bytes recovery asks of the image of a cut, and at which numbers of stores they are the same for it.
pub trait Asking {
    ghost use Rattle.std.specs.Prelude.{ℕ, List, Bool};
    ghost use Rattle.verdict.specs.declared.branches.question.Question.{Question};

    ghost asks: { (ℕ → ℕ) → List Question → Type 0 };

    ghost alike: { Question → ℕ → ℕ → Bool };
}

impl Asking for Brand {
    ghost use Rattle.std.specs.Prelude.{true};

    ghost asks = { λ c qs. Unit {0} };

    ghost alike = { λ q n m. true };
}

/// Another store to a line that recovery asks of no cut before it adds no branch.
#[tactic(auto, using(crate::proofs::Carrying::store_over))]
pub fn store_adds_no_branches<Before: Asking, After: Asking>()
    ensures { (low high more : ℕ → ℕ) (line limit : ℕ) → low line ≤ high line →
        ((l : ℕ) → l ≢ line → more l ≡ high l) → IsShared After.alike After.asks → IsEquivalence After.alike →
        ((q : Question) (n m : ℕ) → n ≤ high q.line → m ≤ high q.line → Before.alike q n m ≡ true → After.alike q n m ≡ true) →
        ((k : ℕ → ℕ) (qs : List Question) → IsWithin low high k → Before.asks k qs → After.asks k qs) →
        ((k : ℕ → ℕ) (qs : List Question) → IsWithin low high k → Before.asks k qs → has_line line qs ≡ false) →
        AreOver After.alike After.asks low more limit → AreOver Before.alike Before.asks low high limit }
{}

/// Higher floors add no branch.
#[tactic(auto, using(crate::proofs::Carrying::floors_over))]
pub fn floor_adds_no_branches<A: Asking>()
    ensures { (low higher high : ℕ → ℕ) (limit : ℕ) → ((l : ℕ) → low l ≤ higher l) →
        AreOver A.alike A.asks higher high limit → AreOver A.alike A.asks low high limit }
{}
