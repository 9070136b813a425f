//! A plan as far as its lines have been read.

ghost use Rattle.std.specs.Prelude.{◌≡◌, ◌++◌, ◌∷◌, [], ℕ, List, IfErr, IfOk, MatchOption};
ghost use Rattle.std.specs.List.{before_first};
ghost use Rattle.plan.specs.Drafts.{AddsLine, BreaksLine, Grows, IsDraft, IsUnfinished, TakesOperation};
ghost use Rattle.plan.specs.Grammar.{BreaksRule, OnText, SaysInodes, SaysPages};
ghost use Rattle.plan.specs.Lines.{is_hash, statements};
ghost use Rattle.text.specs.Words.{words};
ghost use Rattle.plan.specs.Plans.{PlanView};

use crate::fault::PlanCode;
use crate::lines::uncommented;
use crate::numbers::{count_line, layout_line};
use crate::plan::Plan;
use nova_log::{Layout, MAX_INODES, MAX_JOURNALS, MAX_PAGES};
use std::alloc::Global;
use text::is_blank;

/// What the lines so far give.
#[derive(Drop)]
pub(crate) enum Draft {
    Empty,
    Opened {
        layout: Layout,
    },
    Counted {
        layout: Layout,
        inodes: u32,
    },
    Paged {
        layout: Layout,
        inodes: u32,
        pages: u32,
    },
    Whole(Plan),
}

/// The draft with the line of the inodes.
fn with_inodes(layout: Layout, line: &[u8]) -> Result<Draft, PlanCode>
    ensures ok { IfOk result (λ next. (inodes : ℕ) × SaysInodes (words line.now) inodes
        × (next ≡ Draft.Counted layout inodes)) }
    ensures code { IfErr result (λ code. code ≡ PlanCode.Line) }
    ensures err { IfErr result (λ code. (inodes : ℕ) → ¬ (SaysInodes (words line.now) inodes)) }
{
    match count_line(line, b"inodes", 1, MAX_INODES) {
        Some(inodes) => Ok(Draft::Counted { layout, inodes }),
        None => Err(PlanCode::Line),
    }
}

/// The draft with the line of the pages.
fn with_pages(layout: Layout, inodes: u32, line: &[u8]) -> Result<Draft, PlanCode>
    ensures ok { IfOk result (λ next. (pages : ℕ) × SaysPages inodes (words line.now) pages
        × (next ≡ Draft.Paged layout inodes pages)) }
    ensures code { IfErr result (λ code. code ≡ PlanCode.Line) }
    ensures err { IfErr result (λ code. (pages : ℕ) → ¬ (SaysPages inodes (words line.now) pages)) }
{
    match count_line(line, b"pages", inodes, MAX_PAGES) {
        Some(pages) => Ok(Draft::Paged {
            layout,
            inodes,
            pages,
        }),
        None => Err(PlanCode::Line),
    }
}

/// The draft with the line of an operation.
fn add_operation(mut plan: Plan, line: &[u8]) -> Result<Draft, PlanCode>
    ensures ok { IfOk result (Grows plan (words line.now)) }
    ensures err { IfErr result (λ code. OnText code (BreaksLine plan (words line.now) code)) }
    ensures memory { IfErr result (λ code. code ≡ PlanCode.Memory → (next : PlanView) × AddsLine plan (words line.now) next) }
{
    plan.add(line)?;
    Ok(Draft::Whole(plan))
}

impl Draft {
    /// The draft with what the words of a line say. Line where no such line may stand there, or as
    /// `Plan::add` says.
    fn with_words(self, alloc: Global, line: &[u8]) -> Result<Draft, PlanCode>
        ensures ok { IfOk result (λ next. (all : List (List (List ℕ))) → IsDraft all self
            → IsDraft (all ++ words line.now ∷ []) next) }
        ensures err { IfErr result (λ code. OnText code ((all : List (List (List ℕ))) → IsDraft all self
            → BreaksRule code (all ++ words line.now ∷ []))) }
        ensures memory { IfErr result (λ code. code ≡ PlanCode.Memory → TakesOperation self (words line.now)) }
    {
        match self {
            Draft::Empty => match layout_line(line) {
                Some(layout) => Ok(Draft::Opened { layout }),
                None => with_inodes(Layout::One, line),
            },
            Draft::Opened { layout } => with_inodes(layout, line),
            Draft::Counted { layout, inodes } => with_pages(layout, inodes, line),
            Draft::Paged {
                layout,
                inodes,
                pages,
            } => match count_line(line, b"journals", 1, MAX_JOURNALS) {
                Some(journals) => Ok(Draft::Whole(Plan::new(
                    alloc, layout, inodes, pages, journals,
                ))),
                None => Err(PlanCode::Line),
            },
            Draft::Whole(plan) => add_operation(plan, line),
        }
    }

    /// The draft with a line, which may be empty or have a comment. Faults as of its words.
    #[tactic(auto, using(crate::proofs::Reading::blank_line, crate::proofs::Reading::filled_line))]
    pub(crate) fn with_line(self, alloc: Global, line: &[u8]) -> Result<Draft, PlanCode>
        ensures ok { IfOk result (λ next. (before : List (List ℕ)) → IsDraft (statements before) self
            → IsDraft (statements (before ++ line.now ∷ [])) next) }
        ensures err { IfErr result (λ code. OnText code ((before : List (List ℕ)) → IsDraft (statements before) self
            → BreaksRule code (statements (before ++ line.now ∷ [])))) }
        ensures memory { IfErr result (λ code. code ≡ PlanCode.Memory → TakesOperation self (words (before_first is_hash line.now))) }
    {
        let line = uncommented(line);
        if is_blank(line) {
            Ok(self)
        } else {
            self.with_words(alloc, line)
        }
    }

    /// The plan, where all counts have come.
    pub(crate) fn finished(self) -> Option<Plan>
        ensures { MatchOption result (IsUnfinished self) (λ plan. self ≡ Draft.Whole plan) }
    {
        match self {
            Draft::Empty => None,
            Draft::Opened { .. } => None,
            Draft::Counted { .. } => None,
            Draft::Paged { .. } => None,
            Draft::Whole(plan) => Some(plan),
        }
    }
}
