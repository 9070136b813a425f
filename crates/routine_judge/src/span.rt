//! What the routine comes to on the full images of some moments in a row, and which changes of that have to last.

ghost use Rattle.routine_judge.specs.Gathered.{AreAnswers};
ghost use Rattle.routine_judge.specs.RightAnswers.{of_moments, stored_by};
ghost use Rattle.routine_judge.specs.SpanAnswers.{AreFullAnswers, AreLasting, IsBehind, IsSpan, LastsFrom, TellsChange};
ghost use Rattle.routine_judge.specs.Spans.{AreWindows};
ghost use Rattle.routine_judge.specs.Views.{JudgeView};
ghost use Rattle.std.specs.Prelude.{◌≡◌, ◌+◌, ◌-◌, ◌<◌, ◌≤◌, ◌&&◌, nat_le, vec_len, length, IfOk, IsTrue};

use crate::answers::run_full;
use crate::history::Windows;
use crate::order::comes_to_same;
use crate::right::RightAnswers;
use crate::run::MarkedRun;
use recovery::{Answer, Cause as RunCause, Routine};
use std::alloc::{AllocError, Global};
use store_trace::Event;

/// What the routine comes to on the full images of some moments in a row.
#[derive(Drop)]
pub struct SpanAnswers {
    /// The first of the moments.
    first: usize,
    /// What it comes to, moment by moment.
    founds: Vec<Result<Answer, RunCause>>,
    /// From which moment on the change from each of them to the next has to last; 0 where it never has to.
    lasts: Vec<usize>,
}

impl SpanAnswers {
    /// Those of no moment.
    pub fn none(alloc: Global) -> SpanAnswers
        ensures { (view : JudgeView) → IsSpan view result }
    {
        SpanAnswers {
            first: 0,
            founds: Vec::new(alloc),
            lasts: Vec::new(alloc),
        }
    }

    /// Those of the moments of a run from `first` to `last`: the routine runs once for each.
    pub fn of(
        alloc: Global,
        run: &MarkedRun<'_>,
        routine: &mut Routine,
        windows: &Windows,
        first: usize,
        last: usize,
    ) -> Result<SpanAnswers, AllocError>
        requires windows { AreWindows run.now.events windows.now }
        requires order { first ≤ last }
        requires there { last ≤ length run.now.events }
        requires few { length run.now.events ≤ 65536 }
        requires program { routine.old.program ≡ run.now.routine }
        requires lines { routine.old.lines ≡ length run.now.start }
        ensures span { IfOk result (IsSpan run.now) }
        ensures first { IfOk result (λ span. span.first ≡ first) }
        ensures last { IfOk result (λ span. first + vec_len span.founds ≡ last + 1) }
        ensures program { routine.new.program ≡ run.now.routine }
        ensures lines { routine.new.lines ≡ length run.now.start }
    {
        let founds = full_answers(alloc, run, routine, first, last)?;
        let lasts = lasting(alloc, run.trace.events(), windows, first, &founds)?;
        Ok(SpanAnswers {
            first,
            founds,
            lasts,
        })
    }

    /// Whether they are those of the moments from `first` to `last`.
    pub fn is_of(&self, first: usize, last: usize) -> bool
        requires order { first ≤ last }
        requires few { last ≤ 65536 }
        ensures first { IsTrue result → self.now.first ≡ first }
        ensures last { IsTrue result → first + vec_len self.now.founds ≡ last + 1 }
    {
        self.first == first && self.founds.len() == last + 1 - first
    }

    /// The first of the moments that lies behind each change which has to last at a moment.
    pub fn behind_lasting(&self, moment: usize) -> usize
        requires first { self.now.first ≤ moment }
        requires within { moment ≤ self.now.first + vec_len self.now.lasts }
        requires few { moment ≤ 65536 }
        ensures { IsBehind self.now.lasts.items self.now.first moment (moment - self.now.first) result }
    {
        let mut from = self.first;
        for at in 0..moment - self.first {
            let lasts = self.lasts[at];
            if lasts > 0 && lasts <= moment {
                from = self.first + at + 1;
            }
        }
        from
    }

    /// The answers from one of the moments to another, each once.
    pub fn between(
        &self,
        alloc: Global,
        from: usize,
        last: usize,
    ) -> Result<RightAnswers, AllocError>
        requires first { self.now.first ≤ from }
        requires order { from ≤ last }
        requires last { self.now.first + vec_len self.now.founds ≡ last + 1 }
        requires few { last ≤ 65536 }
        ensures { IfOk result (λ right. (view : JudgeView) → IsSpan view self.now → AreAnswers view (of_moments (λ i. nat_le from i && nat_le i last)) right) }
    {
        let mut right = RightAnswers::none(alloc);
        for moment in from..last + 1 {
            right.add_copy(alloc, &self.founds[moment - self.first])?;
        }
        Ok(right)
    }
}

/// What the routine comes to on the full images of the moments from `first` to `last`.
fn full_answers(
    alloc: Global,
    run: &MarkedRun<'_>,
    routine: &mut Routine,
    first: usize,
    last: usize,
) -> Result<Vec<Result<Answer, RunCause>>, AllocError>
    requires order { first ≤ last }
    requires there { last ≤ length run.now.events }
    requires few { length run.now.events ≤ 65536 }
    requires program { routine.old.program ≡ run.now.routine }
    requires lines { routine.old.lines ≡ length run.now.start }
    ensures answers { IfOk result (λ founds. AreFullAnswers run.now first founds.items) }
    ensures count { IfOk result (λ founds. first + vec_len founds ≡ last + 1) }
    ensures program { routine.new.program ≡ run.now.routine }
    ensures lines { routine.new.lines ≡ length run.now.start }
{
    let mut founds = Vec::new(alloc);
    for moment in first..last + 1 {
        let found = run_full(alloc, run, routine, moment)?;
        founds.push(found)?;
    }
    Ok(founds)
}

/// From which moment on the change from each to the next of some moments, which start at `first`, has to last; 0 where it never has to.
fn lasting(
    alloc: Global,
    events: &[Event],
    windows: &Windows,
    first: usize,
    founds: &[Result<Answer, RunCause>],
) -> Result<Vec<usize>, AllocError>
    requires windows { AreWindows events.now windows.now }
    requires there { first + length founds.now ≤ length events.now + 1 }
    requires few { length events.now ≤ 65536 }
    ensures lasts { IfOk result (λ lasts. (view : JudgeView) → view.events ≡ events.now → AreFullAnswers view first founds.now → AreLasting view first lasts.items) }
    ensures count { IfOk result (λ lasts. length founds.now ≤ vec_len lasts + 1) }
{
    let mut lasts = Vec::new(alloc);
    for at in 1..founds.len() {
        let changes = !comes_to_same(&founds[at - 1], &founds[at]);
        let from = lasting_from(events, windows, first + at - 1, changes);
        lasts.push(from)?;
    }
    Ok(lasts)
}

/// From which moment on what an event changes has to last, if it changes something; 0 where it never has to.
fn lasting_from(events: &[Event], windows: &Windows, at: usize, changes: bool) -> usize
    requires windows { AreWindows events.now windows.now }
    requires there { at < length events.now }
    ensures { (view : JudgeView) → view.events ≡ events.now → TellsChange view at changes → LastsFrom view at result }
{
    let Some(hart) = storer(events[at]) else {
        return 0;
    };
    if !changes {
        return 0;
    }
    windows.free_from(events, hart, at)
}

/// The hart that stores in an event.
fn storer(event: Event) -> Option<u32>
    ensures { result ≡ stored_by event }
{
    match event {
        Event::Store { hart, .. } => Some(hart),
        _ => None,
    }
}
