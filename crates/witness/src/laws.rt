//! What holds of the cuts of recorded runs.

ghost use Rattle.store_trace.specs.Cut.{IsCut};
ghost use Rattle.witness.specs.Explains.{Explains};
ghost use Rattle.machine.specs.Run.{started};
ghost use Rattle.program.specs.Sections.{Sections};
ghost use Rattle.machine.specs.Recorded.{RecordedView, Records};
ghost use Rattle.machine.specs.declared.schedule.items.Step.{Step};
ghost use Rattle.std.specs.Prelude.{◌≡◌, ◌≤◌, ℕ, List, length};
ghost use Rattle.store_trace.specs.History.{at_moment};

/// Each cut of each moment of a recorded run has a schedule that leaves exactly it, whether or not `explain` has the memory to find it.
pub fn every_cut_has_a_schedule()
    ensures { (program : Sections) (lines : List (List ℕ)) (harts : ℕ) (recorded : RecordedView) (moment : ℕ) (cut : List (ℕ × ℕ)) →
        Records (started program lines harts) recorded → length recorded.steps ≡ length recorded.trace →
        moment ≤ length recorded.trace → IsCut (at_moment recorded.trace moment) cut → (steps : List Step) × Explains recorded moment cut steps }
{}
