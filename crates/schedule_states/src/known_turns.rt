//! What workers have found of the turns from states that wait.
//!
//! They look at states that were met and not gone on from, each at some of them, and change nothing. So the search itself, which takes what they
//! have found in the order of the states, meets the same states in the same order, whatever their number is.

ghost use Rattle.std.specs.Prelude.{◌≡◌, ◌<◌, ◌≤◌, ◌+◌, ◌^◌, ℕ, [], Some, length, slice_get, IfOk, IfSome};
ghost use Rattle.schedule_states.specs.Onward.{AreKnownFrom, AreLookedFrom};
ghost use Rattle.schedule_states.specs.Turns.{MayClaim};

use crate::looked::Looked;
use crate::reached::Reached;
use crate::state_judge::StateJudge;
use std::alloc::{AllocError, Global};
use std::thread::Threads;
use std::{mem, thread};

/// At how many states workers look at most before what they have found is taken. Only what has a number by then can be found, but for lists of
/// held lines. The threads of a longer round end more nearly together, and what it finds takes more memory.
const MOST_OF_ROUND: usize = 4_096;

/// How few states are worth a round: fewer take less time than the threads take to start.
const LEAST_OF_ROUND: usize = 64;

/// What is known of the turns from states that follow one another.
#[derive(Drop)]
pub struct KnownTurns {
    alloc: Global,
    pub workers: u32,
    /// The number of the first of these states.
    first: u32,
    turns: Vec<Option<Looked>>,
}

impl KnownTurns {
    /// Nothing yet, of a search by so many workers.
    pub fn none(alloc: Global, workers: u32) -> KnownTurns
        ensures { result.turns.items ≡ [] }
    {
        KnownTurns {
            alloc,
            workers,
            first: 0,
            turns: Vec::new(alloc),
        }
    }

    /// What is known of the turns from the state of a number.
    pub fn of(&self, number: u32) -> Option<&Looked>
        ensures { IfSome result (λ looked. (n : ℕ) × (self.now.first + n ≡ number) × (slice_get self.now.turns.items n ≡ Some (Some looked.now))) }
    {
        let at = number.checked_sub(self.first)?;
        self.turns.get(at as usize)?.as_ref()
    }

    /// Room for what is found of so many states that wait, in the place of what was known; None where they are too few, or there is one worker
    /// alone.
    pub fn room_for(&mut self, waiting: usize) -> Result<Option<Vec<Option<Looked>>>, AllocError>
        ensures room { IfOk result (λ room. IfSome room (λ turns. (0 < length turns.items) × (length turns.items ≤ waiting) × (length turns.items < 2 ^ 32) × (0 < self.new.workers))) }
        ensures none { self.new.turns.items ≡ [] }
    {
        let mut turns = mem::replace(&mut self.turns, Vec::new(self.alloc));
        if self.workers < 2 || waiting < LEAST_OF_ROUND {
            return Ok(None);
        }
        turns.clear();
        turns.resize_with(waiting.min(MOST_OF_ROUND), || None)?;
        Ok(Some(turns))
    }

    /// Takes what was found of the states from this number on in the place of what was.
    pub fn take(&mut self, first: u32, turns: Vec<Option<Looked>>)
        ensures first { self.new.first ≡ first }
        ensures turns { self.new.turns.items ≡ turns.items }
    {
        self.first = first;
        self.turns = turns;
    }
}

/// A look at states that follow one another.
#[derive(Clone, Copy)]
pub struct Look {
    pub alloc: Global,
    pub workers: u32,
    /// The number of the first of these states.
    pub first: u32,
}

/// Has workers look at states, as many as there are places.
pub fn look_at<T: Threads + Sync, J: StateJudge + Sync>(
    rt: &T,
    judge: &J,
    reached: &Reached<'_, J>,
    look: Look,
    turns: &mut [Option<Looked>],
)
    requires claims { MayClaim (J.allows judge.now) reached.now.parts.claims }
    requires workers { 0 < look.workers }
    ensures known { AreKnownFrom (J.stands judge.now) (J.allows judge.now) (J.ends judge.now) reached.now look.first turns.new }
    ensures count { length turns.new ≡ length turns.old }
{
    let Look {
        alloc,
        workers,
        first,
    } = look;
    thread::for_each_mut(
        rt,
        turns,
        workers as usize,
        &|at: usize, place: &mut Option<Looked>|
            requires { MayClaim (J.allows judge.now) reached.now.parts.claims }
            ensures { IfSome place.new (AreLookedFrom (J.stands judge.entry.now) (J.allows judge.entry.now) (J.ends judge.entry.now) reached.entry.now (first + at)) }
        {
            *place = turns_at(alloc, judge, reached, first as usize, at);
        },
    );
}

/// What is found of the turns from a state so far behind the first one.
fn turns_at<J: StateJudge>(
    alloc: Global,
    judge: &J,
    reached: &Reached<'_, J>,
    first: usize,
    behind: usize,
) -> Option<Looked>
    requires claims { MayClaim (J.allows judge.now) reached.now.parts.claims }
    ensures { IfSome result (AreLookedFrom (J.stands judge.now) (J.allows judge.now) (J.ends judge.now) reached.now (first + behind)) }
{
    let number = first.checked_add(behind)?;
    if number >= reached.count() {
        return None;
    }
    let number = u32::try_from(number).ok()?;
    reached.known_turns(alloc, judge, number)
}
