//! A sequential run on its way.

ghost use Rattle.routine_judge.specs.Fitting.{IsStateOf, IsWordOf, beginnings, operation_of};
ghost use Rattle.routine_judge.specs.MarkFaults.{HasFault};
ghost use Rattle.routine_judge.specs.Operations.{IsPendingBy};
ghost use Rattle.routine_judge.specs.Order.{AreAtRest};
ghost use Rattle.routine_judge.specs.declared.history.fault.MarkFault.{MarkFault as AFault};
ghost use Rattle.routine_judge.specs.declared.history.overlap.Overlap.TheVariants.{Never};
ghost use Rattle.std.specs.Prelude.{◌≡◌, ◌↔◌, ℕ, false, List, [], ◌∷◌, ◌++◌, IfErr, IfNone, IfOk, IfSome, IsTrue, Some, option_to_list};
ghost use Rattle.store_trace.specs.declared.event.Event.{Event as AnEvent};

use crate::order::fitting::has;
use crate::order::{Operation, Word};
use std::alloc::{AllocError, Global};
use store_trace::Event;

/// What a sequential run has done so far: the operations that have ended, and the one that is pending.
#[derive(Debug, PartialEq, Eq, Hash, Drop)]
pub struct SequentialState {
    done: Word,
    pending: Option<Operation>,
}

impl SequentialState {
    /// Before any event.
    pub fn first(alloc: Global) -> SequentialState
        ensures { IsStateOf [] result }
    {
        SequentialState {
            done: Word::none(alloc),
            pending: None,
        }
    }

    /// The state after one event more. None where no sequential run makes it: a Begin while an operation is pending or of one that
    /// began before, or an End of one that isn't pending on this hart.
    pub fn after(&self, alloc: Global, mark: Event) -> Result<Option<SequentialState>, AllocError>
        ensures some { IfOk result (λ answer. IfSome answer (λ next. (events : List AnEvent) → IsStateOf events self.now → IsStateOf (events ++ mark ∷ []) next)) }
        ensures none { IfOk result (λ answer. IfNone answer ((events : List AnEvent) → IsStateOf events self.now → (fault : AFault) × HasFault Never events mark fault)) }
        ensures memory { IfErr result (λ refused. (events : List AnEvent) (fault : AFault) → IsStateOf events self.now → ¬ HasFault Never events mark fault) }
    {
        if !self.takes(mark) {
            return Ok(None);
        }
        let next = self.taken(alloc, mark)?;
        Ok(Some(next))
    }

    /// Whether no operation is pending.
    pub fn is_at_rest(&self) -> bool
        ensures { (events : List AnEvent) → IsStateOf events self.now → IsTrue result ↔ AreAtRest events }
    {
        self.pending.is_none()
    }

    /// Whether a sequential run goes on by a step of the hart: no operation of another hart is pending.
    pub fn may_go(&self, hart: u32) -> bool
        ensures { (events : List AnEvent) → IsStateOf events self.now →
            IsTrue result ↔ ((beginner op : ℕ) → IsPendingBy events beginner op → beginner ≡ hart) }
    {
        match self.pending {
            Some(pending) => pending.hart == hart,
            None => true,
        }
    }

    /// The operations that have ended: at rest, the word of the run.
    pub fn word(&self) -> &Word
        ensures word { (events : List AnEvent) → IsStateOf events self.now → AreAtRest events → IsWordOf events result.now }
        ensures done { (events : List AnEvent) → IsStateOf events self.now → beginnings events ≡ result.now.operations.items ++ option_to_list self.now.pending }
    {
        &self.done
    }

    /// Whether a sequential run makes the event next.
    fn takes(&self, mark: Event) -> bool
        ensures yes { (events : List AnEvent) (fault : AFault) → IsStateOf events self.now → IsTrue result → ¬ HasFault Never events mark fault }
        ensures no { (events : List AnEvent) → IsStateOf events self.now → result ≡ false → (fault : AFault) × HasFault Never events mark fault }
    {
        match mark {
            Event::Begin { op, .. } => self.pending.is_none() && !has(self.done.operations(), op),
            Event::End { hart, op } => self.is_pending(hart, op),
            Event::Store { .. } | Event::Clean { .. } | Event::Fence { .. } => true,
        }
    }

    fn is_pending(&self, hart: u32, op: u64) -> bool
        ensures { IsTrue result ↔ (self.now.pending ≡ Some (operation_of hart op)) }
    {
        match self.pending {
            Some(pending) => pending.op == op && pending.hart == hart,
            None => false,
        }
    }

    /// The state after one event more, which a sequential run makes.
    fn taken(&self, alloc: Global, mark: Event) -> Result<SequentialState, AllocError>
        ensures { IfOk result (λ next. (events : List AnEvent) → IsStateOf events self.now → ((fault : AFault) → ¬ HasFault Never events mark fault) →
            IsStateOf (events ++ mark ∷ []) next) }
    {
        match mark {
            Event::Begin { hart, op } => {
                let done = self.done.copy(alloc)?;
                let pending = Some(Operation { op, hart });
                Ok(SequentialState { done, pending })
            }
            Event::End { hart, op } => {
                let done = self.done.with(alloc, Operation { op, hart })?;
                let pending = None;
                Ok(SequentialState { done, pending })
            }
            Event::Store { .. } | Event::Clean { .. } | Event::Fence { .. } => {
                let done = self.done.copy(alloc)?;
                let pending = self.pending;
                Ok(SequentialState { done, pending })
            }
        }
    }
}
