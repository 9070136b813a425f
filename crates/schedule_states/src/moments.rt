//! Moments of a search: what a power cut may leave, and what is kept of the operations then. States that differ in neither are judged once.

ghost use Rattle.std.specs.Prelude.{◌≡◌, ◌⊎◌, ◌+◌, ◌*◌, ◌^◌, ◌<◌, ◌≤◌, [], None, false, true, length, IfNone, IfOk, IfSome, IsSome, OnOk};
ghost use Rattle.schedule_states.specs.Happening.{IsHappening};
ghost use Rattle.schedule_states.specs.Judged.{AreJudged, CanBeJudged};
ghost use Rattle.schedule_states.specs.Judging.{AreGoodMoments, IsGoodState, StaysGood};
ghost use Rattle.schedule_states.specs.Onward.{AreKnownFrom};
ghost use Rattle.schedule_states.specs.Sizes.{media_bytes};
ghost use Rattle.schedule_states.specs.Turns.{MayClaim};

use crate::known_turns::{KnownTurns, Look, look_at};
use crate::laws::equal_moments_are_same;
use crate::looked::Looked;
use crate::medium_lists::MediumLists;
use crate::numbers::Numbers;
use crate::reached::{Reached, Stop};
use crate::state_judge::StateJudge;
use crate::ways::Ways;
use std::alloc::{AllocError, Global};
use std::thread;
use std::thread::Threads;

/// A moment, by the numbers of its parts: of what is held of the medium, on which alone its images depend, and of what is kept.
#[derive(Clone, Copy, Debug, PartialEq, Eq, Hash)]
pub struct Moment {
    pub memory: u32,
    pub standing: u32,
}

/// How far a search goes, and by how many threads.
#[derive(Clone, Copy, Debug, PartialEq, Eq)]
pub struct Limits {
    /// It ends where there are more states.
    pub most: u32,
    pub workers: u32,
}

/// The moments that a search has judged, each by its number, how far it goes, and where requests lead from the states that it has judged.
#[derive(Drop)]
pub struct Judged {
    pub alloc: Global,
    pub limits: Limits,
    /// What states hold of the medium.
    pub media: MediumLists,
    pub moments: Numbers<'static, Moment>,
    pub ways: Ways,
    /// How many of the first states are judged, and good.
    pub good: u32,
    /// Why the search goes no further from the state behind those, where that is known.
    pub stop: Option<Stop>,
    /// What workers have found of turns.
    pub known: KnownTurns,
}

impl Judged {
    /// None yet, of a search that goes so far. It says whether a state has no way out where that is asked.
    pub fn new(alloc: Global, limits: Limits, asked: bool) -> Judged
        ensures limits { result.limits ≡ limits }
        ensures media { result.media ≡ record { lists = []; numbers = [] } }
        ensures moments { result.moments ≡ [] }
        ensures ways { (result.ways.asked ≡ asked) × (result.ways.next.items ≡ []) }
        ensures good { (result.good ≡ 0) × (result.known.turns.items ≡ []) }
    {
        Judged {
            alloc,
            limits,
            media: MediumLists::new(alloc),
            moments: Numbers::new(alloc),
            ways: Ways::new(alloc, asked),
            good: 0,
            stop: None,
            known: KnownTurns::none(alloc, limits.workers),
        }
    }

    /// How many bytes the tables hold.
    pub fn bytes(&self) -> u128
        ensures bytes { result ≡ media_bytes self.now.media + (24 * length self.now.moments + 32 * length self.now.ways.next.items) }
        ensures few { result < 2 ^ 75 }
    {
        let moments = 24 * self.moments.count() as u128;
        let ways = 32 * self.ways.next.len() as u128;
        self.media.bytes() + (moments + ways)
    }

    /// Whether the state of a number is judged, or one before it at which the search stops.
    fn is_known(&self, number: u32) -> bool
        ensures yes { result ≡ true → (number < self.now.good) ⊎ IsSome self.now.stop }
        ensures no { result ≡ false → (self.now.good ≤ number) × (self.now.stop ≡ None) }
    {
        number < self.good || self.stop.is_some()
    }

    /// Why the search goes no further from the state of a number, where that is known.
    fn stop_at(&self, number: u32) -> Option<Stop>
        ensures none { IfNone result ((number < self.now.good) ⊎ (self.now.stop ≡ None)) }
        ensures some { IfSome result (λ stop. self.now.good ≤ number) }
    {
        if number < self.good { None } else { self.stop }
    }
}

/// Why the search goes no further from the state of a number by what a power cut may leave; None where all of that is good. The state is
/// judged if it isn't yet; with it are those behind it while workers look at their turns.
pub fn judge_at<T: Threads + Sync, J: StateJudge + Sync>(
    rt: &T,
    judge: &J,
    reached: &Reached<'_, J>,
    judged: &mut Judged,
    workspace: &mut J::Workspace,
    number: u32,
) -> Result<Option<Stop>, AllocError>
    requires there { (number < length reached.now.states) × (number ≤ judged.old.good) × (number + 1 < 2 ^ 32) }
    requires can { CanBeJudged (J.stands judge.now) (J.allows judge.now) (J.happens judge.now) reached.now × J.fits judge.now (length reached.now.parts.table.start.medium) workspace.old }
    requires judged { AreJudged (J.stands judge.now) (J.good judge.now workspace.old) reached.now judged.old
        × AreKnownFrom (J.stands judge.now) (J.allows judge.now) (J.ends judge.now) reached.now judged.old.known.first judged.old.known.turns.items }
    ensures judged { OnOk result (AreJudged (J.stands judge.now) (J.good judge.now workspace.new) reached.now judged.new
        × AreKnownFrom (J.stands judge.now) (J.allows judge.now) (J.ends judge.now) reached.now judged.new.known.first judged.new.known.turns.items) }
    ensures good { IfOk result (λ stop. stop ≡ None → number < judged.new.good) }
    ensures first { IfOk result (λ found. IfSome found (λ stop. judged.new.good ≤ number)) }
    ensures kept { J.fits judge.now (length reached.now.parts.table.start.medium) workspace.new × StaysGood (J.good judge.now workspace.old) (J.good judge.now workspace.new) }
    ensures same { (judged.new.ways ≡ judged.old.ways) × (judged.new.limits ≡ judged.old.limits) }
{
    if judged.is_known(number) {
        return Ok(judged.stop_at(number));
    }
    judge_next(rt, judge, reached, judged, workspace)?;
    Ok(judged.stop_at(number))
}

/// Judges the next state; or the next ones, while workers look at their turns, where so many wait that this is worth the threads.
fn judge_next<T: Threads + Sync, J: StateJudge + Sync>(
    rt: &T,
    judge: &J,
    reached: &Reached<'_, J>,
    judged: &mut Judged,
    workspace: &mut J::Workspace,
) -> Result<(), AllocError>
    requires there { (judged.old.good < length reached.now.states) × (judged.old.good + 1 < 2 ^ 32) × (judged.old.stop ≡ None) }
    requires can { CanBeJudged (J.stands judge.now) (J.allows judge.now) (J.happens judge.now) reached.now × J.fits judge.now (length reached.now.parts.table.start.medium) workspace.old }
    requires judged { AreJudged (J.stands judge.now) (J.good judge.now workspace.old) reached.now judged.old
        × AreKnownFrom (J.stands judge.now) (J.allows judge.now) (J.ends judge.now) reached.now judged.old.known.first judged.old.known.turns.items }
    ensures judged { OnOk result (AreJudged (J.stands judge.now) (J.good judge.now workspace.new) reached.now judged.new
        × AreKnownFrom (J.stands judge.now) (J.allows judge.now) (J.ends judge.now) reached.now judged.new.known.first judged.new.known.turns.items) }
    ensures good { OnOk result ((judged.old.good < judged.new.good) ⊎ IsSome judged.new.stop) }
    ensures kept { J.fits judge.now (length reached.now.parts.table.start.medium) workspace.new × StaysGood (J.good judge.now workspace.old) (J.good judge.now workspace.new) }
    ensures same { (judged.new.ways ≡ judged.old.ways) × (judged.new.limits ≡ judged.old.limits) }
{
    let next = judged.good;
    let waiting = reached.count().saturating_sub(next as usize);
    let Some(mut turns) = judged.known.room_for(waiting)? else {
        return judge_up_to(rt, judge, reached, judged, workspace, next + 1);
    };
    let done = judge_and_look(rt, judge, reached, judged, workspace, &mut turns);
    judged.known.take(next, turns);
    done
}

/// Judges the next states, as many as there are places, while workers look at their turns.
fn judge_and_look<T: Threads + Sync, J: StateJudge + Sync>(
    rt: &T,
    judge: &J,
    reached: &Reached<'_, J>,
    judged: &mut Judged,
    workspace: &mut J::Workspace,
    turns: &mut Vec<Option<Looked>>,
) -> Result<(), AllocError>
    requires there { (judged.old.good + length turns.old.items ≤ length reached.now.states) × (length turns.old.items < 2 ^ 32) × (judged.old.good + 1 < 2 ^ 32)
        × (judged.old.stop ≡ None) × (0 < length turns.old.items) × (0 < judged.old.known.workers) }
    requires can { CanBeJudged (J.stands judge.now) (J.allows judge.now) (J.happens judge.now) reached.now × J.fits judge.now (length reached.now.parts.table.start.medium) workspace.old }
    requires judged { AreJudged (J.stands judge.now) (J.good judge.now workspace.old) reached.now judged.old }
    ensures known { AreKnownFrom (J.stands judge.now) (J.allows judge.now) (J.ends judge.now) reached.now judged.old.good turns.new.items }
    ensures judged { OnOk result (AreJudged (J.stands judge.now) (J.good judge.now workspace.new) reached.now judged.new) }
    ensures good { OnOk result ((judged.old.good < judged.new.good) ⊎ IsSome judged.new.stop) }
    ensures kept { J.fits judge.now (length reached.now.parts.table.start.medium) workspace.new × StaysGood (J.good judge.now workspace.old) (J.good judge.now workspace.new) }
    ensures same { (judged.new.ways ≡ judged.old.ways) × (judged.new.limits ≡ judged.old.limits) }
{
    let look = Look {
        alloc: judged.alloc,
        workers: judged.known.workers,
        first: judged.good,
    };
    let end = look.first.saturating_add(turns.len() as u32);
    let ((), done) = thread::join_mut(
        rt,
        &mut ||
            requires { MayClaim (J.allows judge.now) reached.now.parts.claims × (0 < look.workers) }
            ensures { AreKnownFrom (J.stands judge.entry.now) (J.allows judge.entry.now) (J.ends judge.entry.now) reached.entry.now look.first turns.exit.now.items }
        { look_at(rt, judge, reached, look, turns) },
        &mut ||
            requires { (end ≤ length reached.now.states) × (judged.now.stop ≡ None)
                × CanBeJudged (J.stands judge.now) (J.allows judge.now) (J.happens judge.now) reached.now
                × J.fits judge.now (length reached.now.parts.table.start.medium) workspace.now
                × AreJudged (J.stands judge.now) (J.good judge.now workspace.now) reached.now judged.now }
            ensures judged { OnOk result (AreJudged (J.stands judge.entry.now) (J.good judge.entry.now workspace.exit.now) reached.entry.now judged.exit.now
                × ((end ≤ judged.exit.now.good) ⊎ IsSome judged.exit.now.stop)) }
            ensures kept { J.fits judge.entry.now (length reached.entry.now.parts.table.start.medium) workspace.exit.now
                × StaysGood (J.good judge.entry.now workspace.entry.now) (J.good judge.entry.now workspace.exit.now) }
            ensures same { (judged.exit.now.ways ≡ judged.entry.now.ways) × (judged.exit.now.limits ≡ judged.entry.now.limits)
                × (judged.exit.now.known ≡ judged.entry.now.known) }
        { judge_up_to(rt, judge, reached, judged, workspace, end) },
    );
    done
}

/// Judges the states below this one that aren't judged yet, up to one at which the search stops.
fn judge_up_to<T: Threads + Sync, J: StateJudge>(
    rt: &T,
    judge: &J,
    reached: &Reached<'_, J>,
    judged: &mut Judged,
    workspace: &mut J::Workspace,
    end: u32,
) -> Result<(), AllocError>
    requires there { (end ≤ length reached.now.states) × (judged.old.stop ≡ None) }
    requires can { CanBeJudged (J.stands judge.now) (J.allows judge.now) (J.happens judge.now) reached.now × J.fits judge.now (length reached.now.parts.table.start.medium) workspace.old }
    requires judged { AreJudged (J.stands judge.now) (J.good judge.now workspace.old) reached.now judged.old }
    ensures judged { OnOk result (AreJudged (J.stands judge.now) (J.good judge.now workspace.new) reached.now judged.new) }
    ensures good { OnOk result ((end ≤ judged.new.good) ⊎ IsSome judged.new.stop) }
    ensures kept { J.fits judge.now (length reached.now.parts.table.start.medium) workspace.new × StaysGood (J.good judge.now workspace.old) (J.good judge.now workspace.new) }
    ensures same { (judged.new.ways ≡ judged.old.ways) × (judged.new.limits ≡ judged.old.limits) × (judged.new.known ≡ judged.old.known) }
{
    for number in judged.good..end {
        if let Some(stop) = judge_state(rt, judge, reached, judged, workspace, number)? {
            judged.stop = Some(stop);
            return Ok(());
        }
        judged.good = number + 1;
    }
    Ok(())
}

/// Why the search goes no further from a state by what a power cut may leave; None where all of that is good. The moments that were judged so
/// far are good, and so it is with its own then.
fn judge_state<T: Threads + Sync, J: StateJudge>(
    rt: &T,
    judge: &J,
    reached: &Reached<'_, J>,
    judged: &mut Judged,
    workspace: &mut J::Workspace,
    number: u32,
) -> Result<Option<Stop>, AllocError>
    requires happens { IsHappening (J.stands judge.now) (J.happens judge.now) reached.now number }
    requires fits { J.fits judge.now (length reached.now.parts.table.start.medium) workspace.old }
    requires good { AreGoodMoments (J.stands judge.now) (J.good judge.now workspace.old) reached.now judged.old.media judged.old.moments }
    ensures fits { J.fits judge.now (length reached.now.parts.table.start.medium) workspace.new }
    ensures good { IfOk result (λ stop. stop ≡ None →
        AreGoodMoments (J.stands judge.now) (J.good judge.now workspace.new) reached.now judged.new.media judged.new.moments
        × IsGoodState (J.stands judge.now) (J.good judge.now workspace.new) reached.now number) }
    ensures kept { StaysGood (J.good judge.now workspace.old) (J.good judge.now workspace.new) }
    ensures same { (judged.new.ways ≡ judged.old.ways) × (judged.new.limits ≡ judged.old.limits) × (judged.new.good ≡ judged.old.good)
        × (judged.new.stop ≡ judged.old.stop) × (judged.new.known ≡ judged.old.known) }
{
    let Some(numbers) = reached.find(number) else {
        unreachable!();
    };
    let alloc = judged.alloc;
    let memory = judged
        .media
        .number_of(alloc, reached.parts(), numbers.memory)?;
    let moment = Moment {
        memory,
        standing: numbers.standing,
    };
    let known = judged.moments.as_slice().len();
    equal_moments_are_same();
    let place = judged.moments.number_of(moment)?;
    if (place as usize) < known {
        return Ok(None);
    }
    reached.judge(rt, judge, judged, workspace, moment)
}
