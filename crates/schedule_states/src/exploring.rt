//! The search through all states of a program.

ghost use Rattle.std.specs.Prelude.{◌≡◌, ◌*◌, ◌≤◌, [], filter, true, length, IfOk, IfSome};
ghost use Rattle.machine.specs.Run.{started};
ghost use Rattle.schedule_states.specs.Claims.{is_of_other};
ghost use Rattle.schedule_states.specs.Covering.{CoversAt};
ghost use Rattle.schedule_states.specs.Ending.{AlwaysEnds, IsStuckBehind};
ghost use Rattle.schedule_states.specs.Exploring.{IfAll, IfNoWayOut, IsAsked, IsFinal, IsFound, LeadByHarts, MayReduce};
ghost use Rattle.schedule_states.specs.Happening.{AllHappen, AreLed};
ghost use Rattle.schedule_states.specs.Judging.{AlwaysGood, IgnoresFull, StaysGood};
ghost use Rattle.schedule_states.specs.Watching.{HasHeard};

use crate::claims::ClaimedLine;
use crate::guessing::guess;
use crate::moments::{Judged, Limits, judge_at};
use crate::origin::Origin;
use crate::parts::Parts;
use crate::reached::{Reached, Stop};
use crate::state_judge::StateJudge;
use crate::watcher::Watcher;
use crate::ways_out::all_judged;
use line_memory::Medium;
use program::Program;
use std::alloc::{AllocError, Global};
use std::thread::Threads;

/// What is known of the states of a program.
#[derive(Debug, PartialEq, Eq, Drop)]
pub enum Explored {
    /// All that any schedule leads to are good.
    All {
        states: usize,
        /// How many of them differ in what a power cut may leave, or in what is kept of the operations.
        moments: usize,
    },
    /// The search goes no further from a state.
    Found {
        /// Why.
        stop: Stop,
        /// The harts whose requests lead to the state, in order.
        requests: Vec<u32>,
    },
    /// All states are good, but from one of them one can't come to an end, where all harts have stopped.
    NoWayOut {
        /// The harts whose requests lead to the state, in order.
        requests: Vec<u32>,
    },
    /// There are more states than were asked for.
    TooMany,
}

/// What schedules start from: a program over a medium, on one to eight harts.
#[derive(Clone, Copy)]
pub struct Start<'a> {
    pub program: &'a Program,
    pub medium: &'a Medium,
    pub harts: u32,
    /// A search ends where there are more states.
    pub most: u32,
    /// How many threads look at states at once, from one on.
    pub workers: u32,
    ghost few: { harts ≤ 8 },
}

/// How many guesses of claims are checked at most.
const MOST_GUESSES: u32 = 64;

/// Judges all states to which schedules that keep to the judge's rule of turns lead, if they aren't more than so many, those first that fewer
/// requests lead to, if need be by further threads. Where the judge asks for that, each state must lead on to an end, where all harts have
/// stopped. The watcher hears of each state before the search goes on from it. What the judge notes of the states stands in the workspace.
pub fn explore<T: Threads + Sync, J: StateJudge + Sync, W: Watcher>(
    rt: &T,
    alloc: Global,
    judge: &J,
    start: Start<'_>,
    workspace: &mut J::Workspace,
    watcher: &mut W,
) -> Result<Explored, AllocError>
    requires fits { J.fits judge.now (length start.medium.now) workspace.old }
    requires happens { AllHappen (J.allows judge.now) (J.happens judge.now) start.program.now start.medium.now start.harts }
    ensures good { IfOk result (λ explored. IfAll explored (AlwaysGood (J.stands judge.now) (J.allows judge.now) (J.good judge.now workspace.new) (J.ends judge.now)
        start.entry.program.now start.entry.medium.now start.entry.harts
        × (J.demands judge.now → AlwaysEnds start.entry.program.now start.entry.medium.now start.entry.harts))) }
    ensures kept { J.fits judge.now (length start.entry.medium.now) workspace.new × StaysGood (J.good judge.now workspace.old) (J.good judge.now workspace.new) }
    ensures requests { IfOk result (λ explored. LeadByHarts start.entry.harts explored
        × IfNoWayOut explored (λ requests. IsStuckBehind requests (started start.entry.program.now start.entry.medium.now start.entry.harts))) }
    ensures told { HasHeard W.hears watcher.old watcher.new }
{
    if let Some(explored) = explore_claiming(rt, alloc, judge, start, workspace, watcher)? {
        return Ok(explored);
    }
    let unclaimed = Claimed { start, claims: &[] };
    explore_by(rt, alloc, judge, unclaimed, workspace, watcher)
}

/// The same by claims of lines, which are guessed, and checked. The search begins anew without a claim that is broken. None where the judge
/// lets no line be claimed, and where a search ends otherwise than by a pass or for too many states: what it finds is to be found without claims.
fn explore_claiming<T: Threads + Sync, J: StateJudge + Sync, W: Watcher>(
    rt: &T,
    alloc: Global,
    judge: &J,
    start: Start<'_>,
    workspace: &mut J::Workspace,
    watcher: &mut W,
) -> Result<Option<Explored>, AllocError>
    requires fits { J.fits judge.now (length start.medium.now) workspace.old }
    requires happens { AllHappen (J.allows judge.now) (J.happens judge.now) start.program.now start.medium.now start.harts }
    ensures good { IfOk result (λ found. IfSome found (λ explored. IfAll explored (AlwaysGood (J.stands judge.now) (J.allows judge.now) (J.good judge.now workspace.new) (J.ends judge.now)
        start.entry.program.now start.entry.medium.now start.entry.harts
        × (J.demands judge.now → AlwaysEnds start.entry.program.now start.entry.medium.now start.entry.harts)))) }
    ensures kept { J.fits judge.now (length start.entry.medium.now) workspace.new × StaysGood (J.good judge.now workspace.old) (J.good judge.now workspace.new) }
    ensures only { IfOk result (λ found. IfSome found IsFinal) }
    ensures told { HasHeard W.hears watcher.old watcher.new }
{
    if !judge.may_claim() {
        return Ok(None);
    }
    let mut claims = guess(alloc, start)?;
    for _guess in 0..MOST_GUESSES {
        if claims.is_empty() {
            return Ok(None);
        }
        let claimed = Claimed {
            start,
            claims: &claims,
        };
        let found = explore_by(rt, alloc, judge, claimed, workspace, watcher)?;
        match broken_line(&found) {
            Some(line) => leave_out(&mut claims, line),
            None => return Ok(final_of(found)),
        }
    }
    Ok(None)
}

/// The line whose claim a search has found broken.
fn broken_line(found: &Explored) -> Option<u64> {
    match found {
        Explored::Found {
            stop: Stop::Claimed(line),
            ..
        } => Some(*line),
        _ => None,
    }
}

/// What a search by claims has found, where that is a pass, or too many states.
fn final_of(found: Explored) -> Option<Explored>
    ensures { IfSome result (λ explored. (explored ≡ found) × IsFinal explored) }
{
    if is_final(&found) { Some(found) } else { None }
}

fn is_final(found: &Explored) -> bool
    ensures { result ≡ true → IsFinal found.now }
{
    match found {
        Explored::All { .. } | Explored::TooMany => true,
        Explored::Found { .. } | Explored::NoWayOut { .. } => false,
    }
}

/// Leaves out what is claimed of a line.
fn leave_out(claims: &mut Vec<ClaimedLine>, line: u64)
    ensures { claims.new.items ≡ filter (is_of_other line) claims.old.items }
{
    claims.retain(|claimed| claimed.line != line);
}

/// What schedules start from, and what is claimed of lines.
#[derive(Clone, Copy)]
struct Claimed<'a> {
    start: Start<'a>,
    claims: &'a [ClaimedLine],
}

/// Judges all states, where this is claimed of lines. That a state has no way out is said where nothing is.
fn explore_by<T: Threads + Sync, J: StateJudge + Sync, W: Watcher>(
    rt: &T,
    alloc: Global,
    judge: &J,
    claimed: Claimed<'_>,
    workspace: &mut J::Workspace,
    watcher: &mut W,
) -> Result<Explored, AllocError>
    requires fits { J.fits judge.now (length claimed.start.medium.now) workspace.old }
    requires happens { AllHappen (J.allows judge.now) (J.happens judge.now) claimed.start.program.now claimed.start.medium.now claimed.start.harts }
    requires reduced { MayReduce (J.allows judge.now) ((w : J.Workspace) → IgnoresFull (J.good judge.now w)) claimed.claims.now }
    ensures good { IfOk result (λ explored. IfAll explored (AlwaysGood (J.stands judge.now) (J.allows judge.now) (J.good judge.now workspace.new) (J.ends judge.now)
        claimed.entry.start.program.now claimed.entry.start.medium.now claimed.entry.start.harts
        × (J.demands judge.now → AlwaysEnds claimed.entry.start.program.now claimed.entry.start.medium.now claimed.entry.start.harts))) }
    ensures kept { J.fits judge.now (length claimed.entry.start.medium.now) workspace.new × StaysGood (J.good judge.now workspace.old) (J.good judge.now workspace.new) }
    ensures requests { IfOk result (λ explored. LeadByHarts claimed.entry.start.harts explored
        × IfNoWayOut explored (λ requests. claimed.entry.claims.now ≡ [] → IsStuckBehind requests
        (started claimed.entry.start.program.now claimed.entry.start.medium.now claimed.entry.start.harts))) }
    ensures told { HasHeard W.hears watcher.old watcher.new }
{
    let start = claimed.start;
    let origin = Origin::new(alloc, start.program, start.medium)?;
    let parts = Parts::new(alloc, &origin, claimed.claims)?;
    let mut reached = Reached::with_none(alloc, parts, start.harts);
    let limits = Limits {
        most: start.most,
        workers: start.workers,
    };
    let mut judged = Judged::new(alloc, limits, judge.must_end());
    explore_from(rt, judge, &mut reached, &mut judged, workspace, watcher)
}

/// Judges all states, of which none is reached yet.
fn explore_from<T: Threads + Sync, J: StateJudge + Sync, W: Watcher>(
    rt: &T,
    judge: &J,
    reached: &mut Reached<'_, J>,
    judged: &mut Judged,
    workspace: &mut J::Workspace,
    watcher: &mut W,
) -> Result<Explored, AllocError>
    requires none { (reached.old.states ≡ []) × (judged.old.moments ≡ []) × (judged.old.media ≡ record { lists = []; numbers = [] })
        × (judged.old.ways.next.items ≡ []) × (judged.old.good ≡ 0) × (judged.old.known.turns.items ≡ []) }
    requires given { J.fits judge.now (length reached.old.parts.table.start.medium) workspace.old
        × AllHappen (J.allows judge.now) (J.happens judge.now) reached.old.parts.table.start.program reached.old.parts.table.start.medium reached.old.harts
        × IsAsked (J.demands judge.now) (J.allows judge.now) judged.old.ways.asked }
    requires reduced { MayReduce (J.allows judge.now) ((w : J.Workspace) → IgnoresFull (J.good judge.now w)) reached.old.parts.claims }
    ensures good { IfOk result (λ explored. IfAll explored (AlwaysGood (J.stands judge.now) (J.allows judge.now) (J.good judge.now workspace.new) (J.ends judge.now)
        reached.old.parts.table.start.program reached.old.parts.table.start.medium reached.old.harts
        × (J.demands judge.now → AlwaysEnds reached.old.parts.table.start.program reached.old.parts.table.start.medium reached.old.harts))) }
    ensures kept { J.fits judge.now (length reached.old.parts.table.start.medium) workspace.new
        × StaysGood (J.good judge.now workspace.old) (J.good judge.now workspace.new) }
    ensures requests { IfOk result (λ explored. LeadByHarts reached.old.harts explored
        × IfNoWayOut explored (λ requests. reached.old.parts.claims ≡ [] → IsStuckBehind requests
        (started reached.old.parts.table.start.program reached.old.parts.table.start.medium reached.old.harts))) }
    ensures told { HasHeard W.hears watcher.old watcher.new }
{
    let alloc = judged.alloc;
    if let Some(stop) = reached.meet_start(alloc, judge)? {
        return Ok(Explored::Found {
            stop,
            requests: Vec::new(alloc),
        });
    }
    search(rt, judge, reached, judged, workspace, watcher)
}

/// Judges the states that are reached, and goes on from them.
fn search<T: Threads + Sync, J: StateJudge + Sync, W: Watcher>(
    rt: &T,
    judge: &J,
    reached: &mut Reached<'_, J>,
    judged: &mut Judged,
    workspace: &mut J::Workspace,
    watcher: &mut W,
) -> Result<Explored, AllocError>
    requires start { CoversAt (J.stands judge.now) reached.old 0 (started reached.old.parts.table.start.program reached.old.parts.table.start.medium reached.old.harts)
        × AreLed (J.stands judge.now) (J.allows judge.now) reached.old }
    requires new { (judged.old.moments ≡ []) × (judged.old.media ≡ record { lists = []; numbers = [] }) × (judged.old.ways.next.items ≡ [])
        × (judged.old.good ≡ 0) × (judged.old.known.turns.items ≡ []) }
    requires given { J.fits judge.now (length reached.old.parts.table.start.medium) workspace.old
        × AllHappen (J.allows judge.now) (J.happens judge.now) reached.old.parts.table.start.program reached.old.parts.table.start.medium reached.old.harts
        × IsAsked (J.demands judge.now) (J.allows judge.now) judged.old.ways.asked }
    requires reduced { MayReduce (J.allows judge.now) ((w : J.Workspace) → IgnoresFull (J.good judge.now w)) reached.old.parts.claims }
    ensures good { IfOk result (λ explored. IfAll explored (AlwaysGood (J.stands judge.now) (J.allows judge.now) (J.good judge.now workspace.new) (J.ends judge.now)
        reached.old.parts.table.start.program reached.old.parts.table.start.medium reached.old.harts
        × (J.demands judge.now → AlwaysEnds reached.old.parts.table.start.program reached.old.parts.table.start.medium reached.old.harts))) }
    ensures kept { J.fits judge.now (length reached.old.parts.table.start.medium) workspace.new
        × StaysGood (J.good judge.now workspace.old) (J.good judge.now workspace.new) }
    ensures requests { IfOk result (λ explored. LeadByHarts reached.old.harts explored
        × IfNoWayOut explored (λ requests. reached.old.parts.claims ≡ [] → IsStuckBehind requests
        (started reached.old.parts.table.start.program reached.old.parts.table.start.medium reached.old.harts))) }
    ensures told { HasHeard W.hears watcher.old watcher.new }
{
    let alloc = judged.alloc;
    let most = judged.limits.most;
    for number in 0..most {
        let met = reached.count();
        if met > most as usize {
            return Ok(Explored::TooMany);
        }
        if number as usize >= met {
            return all_judged(judge, reached, judged);
        }
        tell(watcher, met, number, reached.bytes() + judged.bytes());
        if let Some(stop) = judge_at(rt, judge, reached, judged, workspace, number)? {
            return found(alloc, reached, number, stop);
        }
        match reached.go_on_all(alloc, judge, number, judged.known.of(number))? {
            Ok(to) => judged.ways.note(to)?,
            Err(stop) => return found(alloc, reached, number, stop),
        }
    }
    if reached.count() > most as usize {
        return Ok(Explored::TooMany);
    }
    all_judged(judge, reached, judged)
}

/// Tells a watcher that so many states were met, of which those from this number on wait, in so many bytes.
fn tell<W: Watcher>(watcher: &mut W, met: usize, number: u32, bytes: u128)
    requires few { number ≤ met }
    requires bytes { 64 * met ≤ bytes }
    ensures { (first : W) → HasHeard W.hears first watcher.old → HasHeard W.hears first watcher.new }
{
    watcher.hear(met, met - number as usize, bytes);
}

/// The search goes no further from the state of a number.
fn found<J: StateJudge>(
    alloc: Global,
    reached: &Reached<'_, J>,
    number: u32,
    stop: Stop,
) -> Result<Explored, AllocError>
    ensures { IfOk result (IsFound reached.now.harts) }
{
    let requests = reached.requests_to(alloc, number)?;
    Ok(Explored::Found { stop, requests })
}
