//! What holds of recovery over all media: laws, with nothing to run.

ghost use Rattle.std.specs.Prelude.{◌≡◌, ℕ, ◌+◌, ◌≤◌, List, None, length, take};
ghost use Rattle.std.specs.List.{AllByRecursion};
ghost use Rattle.line_memory.specs.Lines.{line_at};
ghost use Rattle.nova_log.specs.Chains.{chain, link_questions};
ghost use Rattle.nova_log.specs.Questions.{first_fault};
ghost use Rattle.nova_log.specs.Volumes.{asked_lines, volume_of};
ghost use Rattle.nova_log.specs.Walks.{IsWalk};
ghost use Rattle.nova_log.specs.declared.layout.Shape.{Shape};

/// A medium that agrees with another on the lines which recovery asks of that one has its volume, and recovery asks the same
/// lines of it.
pub fn asked_lines_decide()
    ensures { (lines other : List (List ℕ)) → length other ≡ length lines →
        AllByRecursion (λ n. line_at other n ≡ line_at lines n) (asked_lines lines) →
        (asked_lines other ≡ asked_lines lines) × (volume_of other ≡ volume_of lines) }
{}

/// A medium that agrees with another on the first lines which recovery asks of that one is asked the same line next, or none
/// after them just where the other isn't.
pub fn lines_asked_so_far_decide()
    ensures { (lines other : List (List ℕ)) → length other ≡ length lines → (count : ℕ) →
        AllByRecursion (λ n. line_at other n ≡ line_at lines n) (take count (asked_lines lines)) →
        take (count + 1) (asked_lines other) ≡ take (count + 1) (asked_lines lines) }
{}

/// The links of a log have no fault just where there is a walk from the head to the tail, step by step, that enters at most so many
/// pages, counting those that it enters again; and what the walk comes to is the chain.
pub fn chains_are_walks()
    ensures walk { (shape : Shape) (pages : ℕ) (lines : List (List ℕ)) (tail more head : ℕ) → 1 ≤ shape.entry_size →
        first_fault (link_questions shape pages lines tail (more + 1) head) ≡ None →
        IsWalk shape pages lines tail more head 0 (chain shape lines tail (more + 1) head) }
    ensures only { (shape : Shape) (pages : ℕ) (lines : List (List ℕ)) (tail more head : ℕ) (entries : List ℕ) → 1 ≤ shape.entry_size →
        IsWalk shape pages lines tail more head 0 entries →
        (first_fault (link_questions shape pages lines tail (more + 1) head) ≡ None) × (entries ≡ chain shape lines tail (more + 1) head) }
{}
