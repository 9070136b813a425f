//! The right answers of a moment, by replies on full images.

ghost use Rattle.routine_judge.specs.OutsideTables.{IsReplyAt, IsSoughtOn};
ghost use Rattle.routine_judge.specs.OutsideViews.{KnownView as AKnown};
ghost use Rattle.std.specs.Prelude.{◌≡◌, ◌↔◌, ◌⊎◌, ◌<◌, ℕ, List, Contains, IfOk, Ok, OnOk, length, slice_index_or};
ghost use Rattle.std.specs.Result.{result_map_both};
ghost use Rattle.store_trace.specs.declared.event.Event.{Event as AnEvent};

use crate::held::HeldAnswer;
use crate::outside::cause::Sought;
use crate::outside::replies::Replies;
use crate::right::RightAnswers;
use std::alloc::{AllocError, Global};

/// The right answers of a moment, and the number of the reply on the full image of its window's last moment.
#[derive(Drop)]
pub(crate) struct RightReplies {
    pub(crate) answers: RightAnswers,
    pub(crate) last: usize,
}

impl RightReplies {
    /// The answers of two replies, the second of which may be the first.
    pub(crate) fn of_two(
        alloc: Global,
        replies: &Replies,
        one: usize,
        last: usize,
    ) -> Result<RightReplies, AllocError>
        requires one { one < length replies.now.known.items }
        requires last { last < length replies.now.known.items }
        ensures answers { IfOk result (λ right. (first second : AKnown) → slice_index_or replies.now.known.items one first ≡ first →
            slice_index_or replies.now.known.items last second ≡ second →
            (bytes : List ℕ) → Contains right.answers.answers.items bytes ↔ ((first.reply.found ≡ Ok bytes) ⊎ (second.reply.found ≡ Ok bytes))) }
        ensures last { IfOk result (λ right. right.last ≡ last) }
    {
        let mut answers = RightAnswers::none(alloc);
        add_found(alloc, &mut answers, replies.known[one].reply().found())?;
        add_found(alloc, &mut answers, replies.known[last].reply().found())?;
        Ok(RightReplies { answers, last })
    }

    /// What a reply says of the images that it is one on: that they are good, or why not.
    pub(crate) fn judge(&self, replies: &Replies, number: usize) -> Option<Sought>
        requires { number < length replies.now.known.items }
        ensures { (start medium : List (List ℕ)) (events : List AnEvent) (known : AKnown) →
            IsReplyAt start events replies.now.known.items number medium known →
            IsSoughtOn start events replies.now.known.items self.now.answers.answers.items medium result }
    {
        match replies.known[number].reply().found() {
            Err(_) => Some(Sought::Missing(number)),
            Ok(bytes) if self.answers.has(bytes) => None,
            Ok(_) if self.answers.answers.is_empty() => Some(Sought::Full),
            Ok(_) => Some(Sought::Different),
        }
    }
}

/// Takes in what a reply says of a full image.
fn add_found(
    alloc: Global,
    answers: &mut RightAnswers,
    found: Result<&[u8], &[u8]>,
) -> Result<(), AllocError>
    ensures { OnOk result ((bytes : List ℕ) → Contains answers.new.answers.items bytes ↔ (Contains answers.old.answers.items bytes
        ⊎ (result_map_both (λ answer. answer.now) (λ word. word.now) found.entry ≡ Ok bytes))) }
{
    match found {
        Ok(bytes) => answers.add_answer(HeldAnswer::of(alloc, bytes)?),
        Err(_) => Ok(()),
    }
}
