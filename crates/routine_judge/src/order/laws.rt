//! What equal precedences, words and states of sequential runs stand for, each as the contract of a function with nothing to run.

ghost use Rattle.routine_judge.specs.Fitting.{IsStateOf, IsWordOf};
ghost use Rattle.routine_judge.specs.Order.{AreAlike, AreOrdered};
ghost use Rattle.routine_judge.specs.declared.order.precedence.Precedence.{Precedence as APrecedence};
ghost use Rattle.routine_judge.specs.declared.order.sequential.SequentialState.{SequentialState as AState};
ghost use Rattle.routine_judge.specs.declared.order.word.Word.{Word as AWord};
ghost use Rattle.store_trace.specs.Marks.{begun_by, ended_by};
ghost use Rattle.store_trace.specs.declared.event.Event.{Event as AnEvent};
ghost use Rattle.std.specs.Prelude.{◌≡◌, ◌++◌, ◌∷◌, [], true, None, List};

use crate::order::{Precedence, SequentialState, Word};

/// Equal precedences are of the same events, and an event that neither begins nor ends an operation changes none. Events of which the
/// same has begun, ended, and ended before it have one precedence, whatever their order.
pub fn precedences_stand()
    ensures kept { (events : List AnEvent) (event : AnEvent) (precedence : APrecedence) →
        begun_by event ≡ None → ended_by event ≡ None → AreOrdered events precedence → AreOrdered (events ++ event ∷ []) precedence }
    ensures equal { (events : List AnEvent) (one other : APrecedence) →
        ⟦<Precedence as PartialEq>⟧.eq one other ≡ true → AreOrdered events one → AreOrdered events other }
    ensures one { (events others : List AnEvent) (one other : APrecedence) → AreOrdered events one → AreOrdered others other → AreAlike events others →
        ⟦<Precedence as PartialEq>⟧.eq one other ≡ true }
{}

/// Equal words are of the same sequential runs, and so are equal states; an event that neither begins nor ends an operation changes no
/// state.
pub fn sequential_states_stand()
    ensures kept { (events : List AnEvent) (event : AnEvent) (state : AState) →
        begun_by event ≡ None → ended_by event ≡ None → IsStateOf events state → IsStateOf (events ++ event ∷ []) state }
    ensures words { (events : List AnEvent) (one other : AWord) → ⟦<Word as PartialEq>⟧.eq one other ≡ true → IsWordOf events one → IsWordOf events other }
    ensures states { (events : List AnEvent) (one other : AState) →
        ⟦<SequentialState as PartialEq>⟧.eq one other ≡ true → IsStateOf events one → IsStateOf events other }
{}
