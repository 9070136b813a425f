//! What a search keeps of the operations of a run, and whether what a power cut may leave is good.

use crate::state_images::StateImages;
use hart::Status;
use std::alloc::{AllocError, Global};
use std::hash::Hash;
use std::thread::Threads;
use store_trace::Event;

/// What a judge says of a state.
#[derive(Clone, Copy, Debug, PartialEq, Eq)]
pub enum StateVerdict {
    /// Each image is good.
    Good,
    /// One is bad.
    Bad,
    /// Recovery distinguishes too many of them, and none that was judged is bad.
    TooManyBranches,
}

/// Who judges the states of a search, and says whose turn it may be. What it keeps of the operations is a part of a state, so it has no more
/// of the past than decides what may come. What it notes of the states that it has judged stands in its workspace.
pub trait StateJudge {
    ghost use Rattle.schedule_states.specs.Ending.{AnyMayGo};
    ghost use Rattle.schedule_states.specs.Happening.{HasHappened};
    ghost use Rattle.schedule_states.specs.Judging.{AreGoodImages, IgnoresFull, StaysGood};
    ghost use Rattle.schedule_states.specs.Marks.{IsUnmarked};
    ghost use Rattle.schedule_states.specs.Turns.{MayGo, MayNotGo};
    ghost use Rattle.std.specs.Prelude.{◌≡◌, ◌++◌, ◌∷◌, [], ℕ, List, false, true, length, IfOk, IfSome};
    ghost use Rattle.std.specs.Thread.{IsSync};
    ghost use Rattle.hart.specs.declared.state.Status.{Status as AStatus};
    ghost use Rattle.store_trace.specs.declared.event.Event.{Event as AnEvent};

    /// What is kept of the operations.
    type Standing: Eq + Hash + Drop + Send + Sync;

    /// What images are judged in, one state after the other, and what is noted of them.
    type Workspace: Drop + Send;

    /// This is kept after these events, whose marks are right.
    ghost stands: { Self → Self.Standing → List AnEvent → Type 0 };

    /// After these events this hart may make a step.
    ghost allows: { Self → List AnEvent → ℕ → Type 0 };

    /// After these events loads find the first of these images, and the second one is good, as far as the workspace has noted what it needs.
    ghost good: { Self → Self.Workspace → List AnEvent → List (List ℕ) → List (List ℕ) → Type 0 };

    /// After a run with these events that keeps to the rule of turns loads find these lines of the medium. A judge may note it.
    ghost happens: { Self → List AnEvent → List (List ℕ) → Type 0 };

    /// A hart may stop like this.
    ghost ends: { Self → AStatus → Type 0 };

    /// From each state one is to be able to come to an end, where all harts have stopped.
    ghost demands: { Self → Type 0 };

    /// The workspace is one for media of so many lines.
    ghost fits: { Self → ℕ → Self.Workspace → Type 0 };

    /// What is kept before any event.
    fn start(&self, alloc: Global) -> Result<Self::Standing, AllocError>
        ensures { IfOk result (λ standing. stands self.now standing []) };

    /// What is kept after a mark of an operation; None where the mark is at fault.
    fn after(
        &self,
        alloc: Global,
        standing: &Self::Standing,
        mark: Event,
    ) -> Result<Option<Self::Standing>, AllocError>
        ensures { IfOk result (λ found. IfSome found (λ next. (events : List AnEvent) → stands self.now standing.now events →
            stands self.now next (events ++ mark ∷ []))) };

    /// Whether this hart may make a step, where this is kept. A hart that may not is not tried.
    fn may_go(&self, standing: &Self::Standing, hart: u32) -> bool
        ensures may { result ≡ true → MayGo (stands self.now) (allows self.now) standing.now hart }
        ensures not { result ≡ false → MayNotGo (stands self.now) (allows self.now) standing.now hart };

    /// A workspace for media of so many lines, in which no state was judged yet.
    fn workspace(&self, alloc: Global, lines: u32) -> Result<Self::Workspace, AllocError>
        ensures { IfOk result (λ workspace. fits self.now lines workspace) };

    /// Whether each image of a state is good, where this is kept, if need be by further threads. A run leads there that keeps to the rule of
    /// turns. What the workspace has noted it keeps, and it can be used again after an error too.
    fn judge<T: Threads + Sync>(
        &self,
        rt: &T,
        alloc: Global,
        workspace: &mut Self::Workspace,
        images: &StateImages<'_, '_>,
        standing: &Self::Standing,
    ) -> Result<StateVerdict, AllocError>
        requires sync { IsSync T.row }
        requires fits { fits self.now (length images.now.start.medium) workspace.old }
        requires happens { HasHappened (stands self.now) (happens self.now) images.now standing.now }
        ensures fits { fits self.now (length images.now.start.medium) workspace.new }
        ensures good { IfOk result (λ verdict. verdict ≡ StateVerdict.Good →
            AreGoodImages (stands self.now) (good self.now workspace.new) images.now standing.now) }
        ensures kept { StaysGood (good self.now workspace.old) (good self.now workspace.new) };

    /// Whether a hart may stop like this.
    fn may_end(&self, status: Status) -> bool
        ensures { result ≡ true → ends self.now status };

    /// Whether from each state one is to be able to come to an end. A judge with a rule of turns asks for none.
    fn must_end(&self) -> bool
        ensures demanded { demands self.now → result ≡ true }
        ensures free { result ≡ true → AnyMayGo (allows self.now) };

    /// Whether lines may be claimed: where any hart may always make a step, and images are judged without a look at what loads find.
    fn may_claim(&self) -> bool
        ensures free { result ≡ true → AnyMayGo (allows self.now) }
        ensures ignored { result ≡ true → (w : Self.Workspace) → IgnoresFull (good self.now w) };

    /// An event that marks no operation changes nothing of them.
    ghost unmarked: { (s : Self) (standing : Self.Standing) (events : List AnEvent) (event : AnEvent) → IsUnmarked event →
        stands s standing events → stands s standing (events ++ event ∷ []) };

    /// What is equal is kept of the same events.
    ghost equal: { (s : Self) (one other : Self.Standing) (events : List AnEvent) → Self.Standing.eq one other ≡ true →
        stands s one events → stands s other events };
}
