//! Power cuts while a recovery routine runs, or after it has ended, by boxes: sets of images of which each line has one of some contents. Laws
//! over the definitions; nothing here runs.

ghost use Rattle.std.specs.Prelude.{◌≡◌, ◌⊎◌, ◌+◌, ◌<◌, ◌≤◌, ℕ, List, ◌∷◌, Bool, Option, None, Result, Ok, IfSome, length, slice_index_or};
ghost use Rattle.std.specs.List.{AllByRecursion, Contains};
ghost use Rattle.program.specs.Sections.{Sections};
ghost use Rattle.store_trace.specs.Cut.{IsCutImage, IsWithin};
ghost use Rattle.store_trace.specs.History.{at_moment};
ghost use Rattle.store_trace.specs.Image.{image};
ghost use Rattle.store_trace.specs.declared.crash_model.step.PersistenceStep.{PersistenceStep};
ghost use Rattle.store_trace.specs.declared.event.Event.{Event as AnEvent};
ghost use Rattle.machine.specs.Replies.{trace_in};
ghost use Rattle.machine.specs.Run.{Config, started};
ghost use Rattle.recovery.specs.Answers.{answer};
ghost use Rattle.recovery.specs.Asking.{AgreeOn};
ghost use Rattle.recovery.specs.Boxes.{AreApart, IsIn, IsInOne, IsNoFence, LiesWithin, left_of, others_of, part_of};
ghost use Rattle.recovery.specs.Closed.{AreClosed, AreClosedTo, BoundBox, IsCovered};
ghost use Rattle.recovery.specs.Cuts.{AnswersWell, IsCutOf, IsLeft, shown_at};
ghost use Rattle.recovery.specs.Parts.{IsOpenedBy, part_by};
ghost use Rattle.recovery.specs.Recovery.{RunsFor};
ghost use Rattle.verdict.specs.declared.branches.question.Question.{Question};

/// What cuts leave of the images of a box is a box: the numbers of the lines are free of each other, and a line of an image depends on no other
/// line. An event that isn't a fence takes no image away, so that only moments right before a fence and the last one need be looked at.
#[tactic(auto, using(crate::proofs::Boxed::cut_is_left, crate::proofs::Boxed::left_some_cut, crate::proofs::Opened::moment_grows, crate::proofs::Boxed::in_wider))]
pub fn cuts_leave_boxes()
    ensures inside { (p : List PersistenceStep) (box : List (List (List ℕ))) (lines : List (List ℕ)) (cut : ℕ → ℕ) → IsWithin p cut → IsIn box lines →
        IsIn (left_of p box) (image lines cut p) }
    ensures left { (p : List PersistenceStep) (box : List (List (List ℕ))) (left : List (List ℕ)) → IsIn (left_of p box) left →
        (lines : List (List ℕ)) × (cut : ℕ → ℕ) × IsIn box lines × IsWithin p cut × (left ≡ image lines cut p) }
    ensures grow { (events : List AnEvent) (moment : ℕ) (d : AnEvent) (box : List (List (List ℕ))) (left : List (List ℕ)) → moment < length events →
        IsNoFence (slice_index_or events moment d) → IsIn (left_of (at_moment events moment) box) left → IsIn (left_of (at_moment events (moment + 1)) box) left }
    ensures wider { (box other : List (List (List ℕ))) (lines : List (List ℕ)) → LiesWithin box other → IsIn box lines → IsIn other lines }
{}

/// A box falls apart by the bytes that are asked of one of its images: its part, whose images have them as that one, and the others. Each image of
/// the box is in just one of these.
#[tactic(auto, using(crate::proofs::Parted::parts_cover, crate::proofs::Parted::part_agrees, crate::proofs::Parted::agree_part, crate::proofs::Parted::others_differ, crate::proofs::Parted::parts_apart))]
pub fn boxes_fall_apart()
    ensures cover { (box : List (List (List ℕ))) (image other : List (List ℕ)) (questions : List Question) → IsIn box other →
        IsIn (part_of box image questions) other ⊎ IsInOne (others_of box image questions) other }
    ensures part { (box : List (List (List ℕ))) (image other : List (List ℕ)) (questions : List Question) →
        AllByRecursion (λ q. q.line < length box) questions → IsIn (part_of box image questions) other → IsIn box other × AgreeOn image other questions }
    ensures whole { (box : List (List (List ℕ))) (image other : List (List ℕ)) (questions : List Question) → IsIn box other →
        AgreeOn image other questions → IsIn (part_of box image questions) other }
    ensures others { (box : List (List (List ℕ))) (image other : List (List ℕ)) (questions : List Question) →
        AllByRecursion (λ q. q.line < length box) questions → IsInOne (others_of box image questions) other →
        IsIn box other × (¬ AgreeOn image other questions) }
    ensures apart { (box : List (List (List ℕ))) (image : List (List ℕ)) (questions : List Question) → AllByRecursion (λ q. q.line < length box) questions →
        AreApart (part_of box image questions ∷ others_of box image questions) }
{}

/// On all images of a part the routine makes the same events and has the same answer, so that what cuts leave of them is one box at each moment of
/// one run, exactly.
#[tactic(auto, using(crate::proofs::Opened::part_has_run, crate::proofs::Opened::part_lies, crate::proofs::Opened::part_made, crate::proofs::Opened::part_answers))]
pub fn part_has_one_run()
    ensures run { (program : Sections) (steps : ℕ) (box : List (List (List ℕ))) (image other : List (List ℕ)) (end : Config) (full : Bool) →
        IsOpenedBy program steps box image end full → IsIn (part_by box image end) other →
        (e : Config) × (f : Bool) × RunsFor (started program other 1) steps e f × (trace_in e.common ≡ trace_in end.common) × (answer e f ≡ answer end full) }
    ensures lies { (program : Sections) (steps : ℕ) (box : List (List (List ℕ))) (image other : List (List ℕ)) (end : Config) (full : Bool)
        (earlier : Option (List ℕ)) (left : List (List ℕ)) (shown : Option (List ℕ)) →
        IsOpenedBy program steps box image end full → IsIn (part_by box image end) other → IsCutOf program steps other earlier left shown →
        (moment : ℕ) × (moment ≤ length (trace_in end.common)) × IsIn (left_of (at_moment (trace_in end.common) moment) (part_by box image end)) left
        × (shown ≡ shown_at moment (length (trace_in end.common)) (answer end full) earlier) }
    ensures made { (program : Sections) (steps : ℕ) (box : List (List (List ℕ))) (image : List (List ℕ)) (end : Config) (full : Bool)
        (earlier : Option (List ℕ)) (moment : ℕ) (left : List (List ℕ)) →
        IsOpenedBy program steps box image end full → moment ≤ length (trace_in end.common) →
        IsIn (left_of (at_moment (trace_in end.common) moment) (part_by box image end)) left →
        (other : List (List ℕ)) × IsIn (part_by box image end) other
        × IsCutOf program steps other earlier left (shown_at moment (length (trace_in end.common)) (answer end full) earlier) }
    ensures answers { (program : Sections) (steps : ℕ) (box : List (List (List ℕ))) (image other : List (List ℕ)) (end : Config) (full : Bool)
        (right : List (List ℕ)) (bytes : List ℕ) (shown : Option (List ℕ)) →
        IsOpenedBy program steps box image end full → answer end full ≡ Ok bytes → Contains right bytes → IfSome shown (λ was. bytes ≡ was) →
        IsIn (part_by box image end) other → AnswersWell program steps (Contains right) other shown }
{}

/// Where boxes cover the images of a first cut, all is well in them, and no cut leads out of them, all that any number of further cuts leave is
/// recovered well. Where the boxes of fewer than so many cuts alone don't lead out, the same holds of up to so many.
#[tactic(auto, using(crate::proofs::Staying::closed_to_stays, crate::proofs::Staying::closed_stays))]
pub fn closed_boxes_stay_right()
    ensures counted { (program : Sections) (steps : ℕ) (right : List (List ℕ)) (start : List (List ℕ)) (p : List PersistenceStep) (most : ℕ) (boxes : List BoundBox) →
        ((first : List (List ℕ)) → IsCutImage start p first → IsCovered boxes 0 first None) → AreClosedTo program steps (Contains right) most boxes →
        (cuts : ℕ) (left : List (List ℕ)) (shown : Option (List ℕ)) → cuts ≤ most → IsLeft program steps (IsCutImage start p) cuts left shown →
        AnswersWell program steps (Contains right) left shown }
    ensures any { (program : Sections) (steps : ℕ) (right : List (List ℕ)) (start : List (List ℕ)) (p : List PersistenceStep) (boxes : List BoundBox) →
        ((first : List (List ℕ)) → IsCutImage start p first → IsCovered boxes 0 first None) → AreClosed program steps (Contains right) boxes →
        (cuts : ℕ) (left : List (List ℕ)) (shown : Option (List ℕ)) → IsLeft program steps (IsCutImage start p) cuts left shown →
        AnswersWell program steps (Contains right) left shown }
{}
