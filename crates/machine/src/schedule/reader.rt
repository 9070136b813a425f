//! Reading the text of a schedule.

ghost use Rattle.std.specs.Prelude.{◌≡◌, ◌<◌, ◌==◌, ◌∷◌, List, IfErr, IfNone, IfOk, IfSome, IsErrOf, IsTrue, length, position};
ghost use Rattle.std.specs.List.{AllZip};
ghost use Rattle.machine.specs.Grammar.{IsSchedule, OnText, Says};
ghost use Rattle.machine.specs.Stars.{StepsAt};
ghost use Rattle.machine.specs.declared.schedule.items.Item.{Item as AnItem};
ghost use Rattle.text.specs.Words.{words_of_lines};

use crate::schedule::fault::ScheduleFault;
use crate::schedule::items::{Item, Schedule};
use crate::schedule::limit::steps_in;
use std::alloc::{AllocError, Global};
use text::{Blanks, decimal, decimal_within, first_word};

/// The place of the first star.
fn star(text: &[u8]) -> Option<usize>
    ensures { result ≡ position (λ byte. byte == 42) text.now }
{
    text.iter().position(|byte| *byte == b'*')
}

/// One step of the hart whose number the text is.
fn one_step(text: &[u8]) -> Option<Item>
    ensures some { IfSome result (StepsAt text.now None) }
    ensures none { IfNone result ((item : AnItem) → ¬ (StepsAt text.now None item)) }
{
    Some(Item::Steps {
        hart: decimal(text)?,
        count: 1,
    })
}

/// As many steps as the number after the star says, of the hart before it.
fn counted_steps(text: &[u8], star: usize) -> Option<Item>
    requires { star < length text.now }
    ensures some { IfSome result (StepsAt text.now (Some star)) }
    ensures none { IfNone result ((item : AnItem) → ¬ (StepsAt text.now (Some star) item)) }
{
    Some(Item::Steps {
        hart: decimal(&text[..star])?,
        count: decimal_within(&text[star + 1..], 1, u32::MAX)?,
    })
}

/// The steps of a hart that a word says after its `h`.
#[tactic(auto, using(crate::proofs::Stars::some_said, crate::proofs::Stars::none_said))]
fn steps(text: &[u8]) -> Option<Item>
    ensures some { IfSome result (Says (104 ∷ text.now)) }
    ensures none { IfNone result ((item : AnItem) → ¬ (Says (104 ∷ text.now) item)) }
{
    match star(text) {
        Some(star) => counted_steps(text, star),
        None => one_step(text),
    }
}

/// The eviction of the line whose number the text is.
fn eviction(text: &[u8]) -> Option<Item>
    ensures some { IfSome result (Says (101 ∷ text.now)) }
    ensures none { IfNone result ((item : AnItem) → ¬ (Says (101 ∷ text.now) item)) }
{
    Some(Item::Evict {
        line: decimal(text)?,
    })
}

/// The item that a word says.
fn item(word: &[u8]) -> Option<Item>
    ensures some { IfSome result (Says word.now) }
    ensures none { IfNone result ((item : AnItem) → ¬ (Says word.now item)) }
{
    match word {
        [b'h', rest @ ..] => steps(rest),
        [b'e', rest @ ..] => eviction(rest),
        _ => None,
    }
}

/// Whether a text is a schedule.
#[tactic(auto, using(crate::proofs::Judged::nothing_summed, crate::proofs::Judged::one_more_summed, crate::proofs::Judged::all_summed))]
fn is_schedule(text: &[u8]) -> bool
    ensures yes { IsTrue result → (items : List AnItem) × IsSchedule text.now items }
    ensures no { ¬ (IsTrue result) → (items : List AnItem) → ¬ (IsSchedule text.now items) }
{
    let mut total = 0u32;
    let mut rest = text;
    while let Some((word, after)) = first_word(rest, Blanks::SpacesAndLineEnds) {
        let Some(item) = item(word) else {
            return false;
        };
        let Some(sum) = total.checked_add(steps_in(&item)) else {
            return false;
        };
        total = sum;
        rest = after;
    }
    true
}

/// The items that the words of a schedule's text say.
#[tactic(auto, using(crate::proofs::Said::nothing_said, crate::proofs::Said::one_more_said, crate::proofs::Said::all_said, crate::proofs::Said::none_says))]
fn items(alloc: Global, text: &[u8]) -> Result<Schedule, AllocError>
    requires { (items : List AnItem) × IsSchedule text.now items }
    ensures { IfOk result (AllZip Says (words_of_lines text.now)) }
{
    let mut schedule = Schedule::new(alloc);
    let mut rest = text;
    while let Some((word, after)) = first_word(rest, Blanks::SpacesAndLineEnds) {
        let Some(item) = item(word) else {
            unreachable!();
        };
        schedule.push(item)?;
        rest = after;
    }
    Ok(schedule)
}

impl Schedule {
    /// The schedule whose text this is: items between spaces or line ends, each `hN*K` for K steps
    /// of the hart N, K at least 1, or `hN` for one step, or `eL` for the eviction of the line L.
    /// The numbers are decimal. A text of blanks alone is the schedule without items.
    ///
    /// # Errors
    /// Text where the text is none, a number is past 4,294,967,295, or the steps of all harts
    /// together are more than 4,294,967,295. Memory where the text is a schedule and a growth is refused.
    #[tactic(auto, using(crate::proofs::OneReading::one_schedule))]
    pub fn read(alloc: Global, text: &[u8]) -> Result<Schedule, ScheduleFault>
        ensures ok { IfOk result (IsSchedule text.now) }
        ensures only { IfOk result (λ schedule. (items : List AnItem) → IsSchedule text.now items
            → items ≡ schedule) }
        ensures err { IfErr result (OnText ((items : List AnItem) → ¬ (IsSchedule text.now items))) }
        ensures memory { IsErrOf result ScheduleFault.Memory → (items : List AnItem) × IsSchedule text.now items }
    {
        // A text is judged whole before anything grows, so that a bad one is never told as want of memory.
        if !is_schedule(text) {
            return Err(ScheduleFault::Text);
        }
        Ok(items(alloc, text)?)
    }
}
