//! What closed boxes say of a moment, and what no cut in recovery says of it. Laws; nothing here runs.

ghost use Rattle.recovery.specs.Closed.{AreClosed, AreClosedTo, BoundBox, IsCovered};
ghost use Rattle.routine_judge.specs.CutsInRecovery.{AllAnswered, StaysRight};
ghost use Rattle.routine_judge.specs.RightAnswers.{IsFoundOf, IsRightOf, IsSource, Source as ASource};
ghost use Rattle.routine_judge.specs.Views.{JudgeView};
ghost use Rattle.std.specs.Prelude.{ℕ, List, None, Some};
ghost use Rattle.store_trace.specs.Cut.{IsCutImage};
ghost use Rattle.store_trace.specs.History.{at_moment};
ghost use Rattle.verdict.specs.Verdicts.{AreGood};

/// Where boxes cover the images of a moment, and are closed by its right answers, the moment stays right however often the power is cut while
/// recovery runs or after it has ended; where they are closed to some number of cuts, it does so up to that number.
#[tactic(auto, using(crate::proofs::StayingRight::stays_right, crate::proofs::StayingRight::stays_right_to))]
pub fn closed_boxes_stay_recovered()
    ensures any { (view : JudgeView) (m : ℕ) (source : ASource) (boxes : List BoundBox) → IsSource view m source →
        ((image : List (List ℕ)) → IsCutImage view.start (at_moment view.events m) image → IsCovered boxes 0 image None) →
        AreClosed view.routine view.steps (IsRightOf view source) boxes → StaysRight view None m }
    ensures counted { (view : JudgeView) (m most : ℕ) (source : ASource) (boxes : List BoundBox) → IsSource view m source →
        ((image : List (List ℕ)) → IsCutImage view.start (at_moment view.events m) image → IsCovered boxes 0 image None) →
        AreClosedTo view.routine view.steps (IsRightOf view source) most boxes → StaysRight view (Some most) m }
{}

/// With no cut in recovery a moment stays right just where each of its images is found good, as without a look at recovery.
#[tactic(auto, using(crate::proofs::PlainRight::plainly_good, crate::proofs::PlainRight::good_plainly))]
pub fn no_cut_in_recovery_says_the_same()
    ensures good { (view : JudgeView) (source : ASource) (m : ℕ) → AllAnswered view source (Some 0) m → AreGood (IsFoundOf view source m) (at_moment view.events m) }
    ensures answered { (view : JudgeView) (source : ASource) (m : ℕ) → AreGood (IsFoundOf view source m) (at_moment view.events m) → AllAnswered view source (Some 0) m }
{}
