//! What a recovery routine in assembly makes of a medium: its run, its answer or why it has none, and the law that the bytes
//! which it asks decide both. The definitions stand over Run; nothing here runs.

ghost use Rattle.std.specs.Prelude.{◌≡◌, ◌≢◌, ◌+◌, ◌≤◌, ℕ, List, Bool, Result, Some, false, length, slice_get, take};
ghost use Rattle.verdict.specs.Branches.{Agree, IsAdaptive, IsShared};
ghost use Rattle.verdict.specs.CutImages.{AreByLine};
ghost use Rattle.hart.specs.declared.state.HartState.{HartState};
ghost use Rattle.hart.specs.declared.state.Status.TheVariants.{Running};
ghost use Rattle.line_memory.specs.Lines.{AreLines};
ghost use Rattle.program.specs.Sections.{Sections};
ghost use Rattle.machine.specs.declared.schedule.items.Step.{Step};
ghost use Rattle.machine.specs.Replies.{trace_in};
ghost use Rattle.machine.specs.Run.{Config, RunsTo, started};
ghost use Rattle.recovery.specs.Answers.{answer};
ghost use Rattle.recovery.specs.Asking.{AgreeOn, AreAsOne, asked};
ghost use Rattle.recovery.specs.Images.{AnswersOn, AsksOn, has_same_bytes};
ghost use Rattle.verdict.specs.declared.branches.question.Question.{Question};
ghost use Rattle.recovery.specs.Recovery.{RunsFor, alone};

use hart::Trap;

/// Why a recovery run has no answer.
#[derive(Clone, Copy, Debug, PartialEq, Eq)]
pub enum Cause {
    /// It exited with this code, 1 to 255.
    Exit(u8),
    /// It trapped.
    Trap(Trap),
    /// It runs still after all its steps.
    Running,
    /// It exited with code 0, and a1 and a2 name no bytes of data, or more than 65,536.
    Answer,
    /// Its next step would make event 65,537.
    Events,
}

/// A recovery run is a Run of hart 0 alone, of as many steps as it may make or, where it is full, of fewer; and there is one.
#[tactic(auto, using(crate::proofs::Limited::is_run, crate::proofs::Limited::is_whole_run, crate::proofs::Limited::few_events, crate::proofs::Limited::ends_once))]
pub fn recovery_is_a_run()
    ensures run { (c d : Config) (steps : ℕ) (full : Bool) → RunsFor c steps d full →
        (made : ℕ) × (made ≤ steps) × RunsTo c (alone made) d }
    ensures whole { (c d : Config) (steps : ℕ) → RunsFor c steps d false → RunsTo c (alone steps) d }
    ensures few { (c d : Config) (steps : ℕ) (full : Bool) → length (trace_in c.common) ≤ 65536 →
        RunsFor c steps d full → length (trace_in d.common) ≤ 65536 }
    ensures once { (c d e : Config) (steps : ℕ) (full other : Bool) →
        RunsFor c steps d full → RunsFor c steps e other → (e ≡ d) × (other ≡ full) }
{}

/// A recovery run in parts: what isn't full goes on, and a hart that has stopped changes nothing in the steps that are left.
#[tactic(auto, using(crate::proofs::Limited::goes_on, crate::proofs::Limited::stays))]
pub fn recovery_has_parts()
    ensures joined { (c d e : Config) (steps more : ℕ) (full : Bool) →
        RunsFor c steps d false → RunsFor d more e full → RunsFor c (steps + more) e full }
    ensures stopped { (c : Config) (state : HartState) (steps : ℕ) → slice_get c.harts 0 ≡ Some state → state.status ≢ Running →
        length (trace_in c.common) ≤ 65536 → RunsFor c steps c false }
{}

/// Media of the same length that agree on the bytes that a run asks have the same run: but for persistent memory it comes
/// to the same configuration.
#[tactic(auto, using(crate::proofs::Runs::runs_as_one))]
pub fn bytes_asked_decide()
    ensures { (program : Sections) (lines others : List (List ℕ)) (harts : ℕ) (steps : List Step) (d : Config) →
        AreLines lines → AreLines others → length others ≡ length lines →
        RunsTo (started program lines harts) steps d → AgreeOn lines others (asked d.common.history) →
        (e : Config) × RunsTo (started program others harts) steps e × AreAsOne d e }
{}

/// The bytes that were asked so far decide which are asked next.
#[tactic(auto, using(crate::proofs::Runs::next_asked))]
pub fn bytes_asked_so_far_decide()
    ensures { (program : Sections) (lines others : List (List ℕ)) (harts : ℕ) (steps : List Step) (d e : Config) (count : ℕ) →
        AreLines lines → AreLines others → length others ≡ length lines →
        RunsTo (started program lines harts) steps d → RunsTo (started program others harts) steps e →
        AgreeOn lines others (take count (asked d.common.history)) →
        take (count + 1) (asked e.common.history) ≡ take (count + 1) (asked d.common.history) }
{}

/// Both laws for a recovery run, with what it comes to: media that agree on the bytes that it asks have the same answer, or
/// none for the same cause.
#[tactic(auto, using(crate::proofs::Limited::runs_alike, crate::proofs::Limited::next_asked))]
pub fn bytes_asked_decide_recovery()
    ensures run { (program : Sections) (lines others : List (List ℕ)) (steps : ℕ) (d : Config) (full : Bool) →
        AreLines lines → AreLines others → length others ≡ length lines →
        RunsFor (started program lines 1) steps d full → AgreeOn lines others (asked d.common.history) →
        (e : Config) × RunsFor (started program others 1) steps e full × AreAsOne d e × (answer e full ≡ answer d full) }
    ensures next { (program : Sections) (lines others : List (List ℕ)) (steps : ℕ) (d e : Config) (full other : Bool) (count : ℕ) →
        AreLines lines → AreLines others → length others ≡ length lines →
        RunsFor (started program lines 1) steps d full → RunsFor (started program others 1) steps e other →
        AgreeOn lines others (take count (asked d.common.history)) →
        take (count + 1) (asked e.common.history) ≡ take (count + 1) (asked d.common.history) }
{}

/// The laws in terms of cuts: recovery of the images of any source, in which a line's number alone decides its bytes, can be judged by
/// branches, whose questions are alike by their bytes.
pub fn images_are_judged_by_branches()
    ensures adaptive { (program : Sections) (steps lines : ℕ) (image : (ℕ → ℕ) → List (List ℕ)) → AreByLine lines image →
        ((cut : ℕ → ℕ) → AreLines (image cut)) → IsAdaptive (has_same_bytes image) (λ cut. AsksOn program steps (image cut)) }
    ensures shared { (program : Sections) (steps lines : ℕ) (image : (ℕ → ℕ) → List (List ℕ)) → AreByLine lines image →
        ((cut : ℕ → ℕ) → AreLines (image cut)) → IsShared (has_same_bytes image) (λ cut. AsksOn program steps (image cut)) }
    ensures branchwise { (program : Sections) (steps lines : ℕ) (image : (ℕ → ℕ) → List (List ℕ)) → AreByLine lines image →
        ((cut : ℕ → ℕ) → AreLines (image cut)) →
        (c k : ℕ → ℕ) (questions : List Question) (found : Result (List ℕ) Cause) →
        AsksOn program steps (image c) questions → Agree (has_same_bytes image) k c questions → AnswersOn program steps (image c) found →
        AnswersOn program steps (image k) found }
{}
