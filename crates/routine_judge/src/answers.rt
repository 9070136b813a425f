//! The right answers of a moment, as they go from one moment to the next.

ghost use Rattle.routine_judge.specs.Gathered.{AreAnswers, AreKept, AreRightAfter};
ghost use Rattle.routine_judge.specs.Order.{AreSoundByHart};
ghost use Rattle.routine_judge.specs.SequentialRuns.{AreSequentialRuns, notes_in};
ghost use Rattle.routine_judge.specs.Standing.{AreKeptFor, IsBasis, IsOrderOf, source_at};
ghost use Rattle.routine_judge.specs.Views.{JudgeView, ProgramView};
ghost use Rattle.routine_judge.specs.RightAnswers.{IsRightWindow, ShowsFull, of_moments, of_window};
ghost use Rattle.routine_judge.specs.SpanAnswers.{Covers, IsSpan};
ghost use Rattle.routine_judge.specs.Spans.{AreWindows};
ghost use Rattle.routine_judge.specs.declared.history.moments.Window.TheVariants.{Itself};
ghost use Rattle.std.specs.Prelude.{◌≡◌, ◌≢◌, ◌||◌, ◌&&◌, ◌==◌, ◌<◌, ◌≤◌, ℕ, Bool, true, false, nat_le, nat_lt, length, take, IfOk, IsTrue, OnOk};

use crate::full_image::full_answer;
use crate::history::{Window, Windows, windows_lie_in_the_run};
use crate::order::{OrderSoFar, SequentialRuns};
use crate::right::RightAnswers;
use crate::run::MarkedRun;
use crate::sources::Sources;
use crate::span::SpanAnswers;
use recovery::{Answer, Cause as RunCause, Routine};
use std::alloc::{AllocError, Global};
use store_trace::Event;
use verdict::MomentCuts;

/// The right answers of the moment that was last looked at.
#[derive(Drop)]
pub struct MomentAnswers {
    /// Its window, where moments of the run give them.
    pub window: Window,
    /// Which operations had ended before which began, where sequential runs give them.
    pub order: OrderSoFar,
    /// What the full images of the moments show among which it lies, where it is of several in a row.
    pub span: SpanAnswers,
    pub right: RightAnswers,
}

impl MomentAnswers {
    /// Those of no moment.
    pub fn none(alloc: Global) -> MomentAnswers
        ensures { (view : JudgeView) → AreKeptFor view result }
    {
        MomentAnswers {
            window: Window::Itself,
            order: OrderSoFar::none(alloc),
            span: SpanAnswers::none(alloc),
            right: RightAnswers::none(alloc),
        }
    }

    /// Makes them those of a moment.
    pub fn renew(
        &mut self,
        alloc: Global,
        run: &MarkedRun<'_>,
        routine: &mut Routine,
        moment: u32,
    ) -> Result<(), AllocError>
        requires kept { AreKeptFor run.now self.old }
        requires there { moment ≤ length run.now.events }
        requires program { routine.old.program ≡ run.now.routine }
        requires lines { routine.old.lines ≡ length run.now.start }
        ensures right { OnOk result (AreAnswers run.now (source_at run.now self.new.window moment) self.new.right) }
        ensures basis { OnOk result (IsBasis run.now self.new.window moment) }
        ensures kept { AreKeptFor run.now self.new }
        ensures program { routine.new.program ≡ run.now.routine }
        ensures lines { routine.new.lines ≡ length run.now.start }
    {
        match &run.sources {
            Sources::Moments(windows) => {
                let window = self.right_window(alloc, run, routine, windows, moment)?;
                self.renew_by_window(alloc, run, routine, window, moment)?;
                Ok(())
            }
            Sources::Sequential(noted) => {
                self.renew_by_order(alloc, run.trace.events(), noted.runs, moment)?;
                Ok(())
            }
        }
    }

    /// Makes them those of the sequential runs that fit the first events.
    fn renew_by_order(
        &mut self,
        alloc: Global,
        events: &[Event],
        runs: &SequentialRuns,
        moment: u32,
    ) -> Result<(), AllocError>
        requires order { IsOrderOf events.now self.old.order }
        requires there { moment ≤ length events.now }
        requires sound { AreSoundByHart events.now (length events.now) }
        ensures right { OnOk result ((view : ProgramView) → AreSequentialRuns view (notes_in runs.now) → AreRightAfter view (take moment events.now) self.new.right) }
        ensures order { IsOrderOf events.now self.new.order }
    {
        self.order.reach(alloc, events, moment as usize)?;
        self.right = RightAnswers::of_fitting(alloc, runs, &self.order.precedence)?;
        Ok(())
    }

    /// The window of a moment, without the moments before a change that has to last.
    pub(crate) fn right_window(
        &mut self,
        alloc: Global,
        run: &MarkedRun<'_>,
        routine: &mut Routine,
        windows: &Windows,
        moment: u32,
    ) -> Result<Window, AllocError>
        requires windows { AreWindows run.now.events windows.now }
        requires span { IsSpan run.now self.old.span }
        requires there { moment ≤ length run.now.events }
        requires few { length run.now.events ≤ 65536 }
        requires program { routine.old.program ≡ run.now.routine }
        requires lines { routine.old.lines ≡ length run.now.start }
        ensures right { IfOk result (IsRightWindow run.now moment) }
        ensures covers { IfOk result (Covers self.new.span) }
        ensures span { IsSpan run.now self.new.span }
        ensures window { self.new.window ≡ self.old.window }
        ensures answers { self.new.right ≡ self.old.right }
        ensures program { routine.new.program ≡ run.now.routine }
        ensures lines { routine.new.lines ≡ length run.now.start }
    {
        windows_lie_in_the_run();
        let window = windows.at(run.trace.events(), moment as usize);
        let Window::Through { first, last } = window else {
            return Ok(window);
        };
        if !self.span.is_of(first, last) {
            self.span = SpanAnswers::of(alloc, run, routine, windows, first, last)?;
        }
        let from = self.span.behind_lasting(moment as usize);
        Ok(Window::Through { first: from, last })
    }

    /// Makes them those of the window of a moment, unless they are: a window that doesn't move with its moment has the same ones.
    #[tactic(auto, using(crate::proofs::Gathering::kept_answers, crate::proofs::Gathering::answers_kept, crate::proofs::Gathering::answers_of_none))]
    fn renew_by_window(
        &mut self,
        alloc: Global,
        run: &MarkedRun<'_>,
        routine: &mut Routine,
        window: Window,
        moment: u32,
    ) -> Result<(), AllocError>
        requires kept { AreKept run.now self.old.window self.old.right }
        requires there { moment ≤ length run.now.events }
        requires few { length run.now.events ≤ 65536 }
        requires window { IsRightWindow run.now moment window }
        requires span { IsSpan run.now self.old.span }
        requires covers { Covers self.old.span window }
        requires program { routine.old.program ≡ run.now.routine }
        requires lines { routine.old.lines ≡ length run.now.start }
        ensures right { OnOk result (AreAnswers run.now (of_window window moment) self.new.right) }
        ensures window { OnOk result (self.new.window ≡ window) }
        ensures kept { AreKept run.now self.new.window self.new.right }
        ensures span { self.new.span ≡ self.old.span }
        ensures program { routine.new.program ≡ run.now.routine }
        ensures lines { routine.new.lines ≡ length run.now.start }
    {
        if is_fixed(window) && is_same(window, self.window) {
            return Ok(());
        }
        self.window = Window::Itself;
        self.right = RightAnswers::none(alloc);
        self.gather(alloc, run, routine, window, moment)?;
        self.window = window;
        Ok(())
    }

    /// Takes in the answers on the full images of the window of a moment; none is there yet.
    fn gather(
        &mut self,
        alloc: Global,
        run: &MarkedRun<'_>,
        routine: &mut Routine,
        window: Window,
        moment: u32,
    ) -> Result<(), AllocError>
        requires none { AreAnswers run.now (of_moments (λ _. false)) self.old.right }
        requires there { moment ≤ length run.now.events }
        requires few { length run.now.events ≤ 65536 }
        requires window { IsRightWindow run.now moment window }
        requires span { IsSpan run.now self.old.span }
        requires covers { Covers self.old.span window }
        requires program { routine.old.program ≡ run.now.routine }
        requires lines { routine.old.lines ≡ length run.now.start }
        ensures right { OnOk result (AreAnswers run.now (of_window window moment) self.new.right) }
        ensures window { self.new.window ≡ self.old.window }
        ensures span { self.new.span ≡ self.old.span }
        ensures program { routine.new.program ≡ run.now.routine }
        ensures lines { routine.new.lines ≡ length run.now.start }
    {
        windows_lie_in_the_run();
        match window {
            Window::Itself => self.take_in(alloc, run, routine, moment as usize),
            Window::Either { before, after } => {
                self.take_in(alloc, run, routine, before)?;
                self.take_in(alloc, run, routine, after)
            }
            Window::Through { first, last } => {
                self.right = self.span.between(alloc, first, last)?;
                Ok(())
            }
        }
    }

    /// Takes in the answer on the full image of a moment, which is later than those before.
    fn take_in(
        &mut self,
        alloc: Global,
        run: &MarkedRun<'_>,
        routine: &mut Routine,
        moment: usize,
    ) -> Result<(), AllocError>
        requires there { moment ≤ length run.now.events }
        requires program { routine.old.program ≡ run.now.routine }
        requires lines { routine.old.lines ≡ length run.now.start }
        ensures right { OnOk result ((among : ℕ → Bool) → ((i : ℕ) → among i ≡ true → i < moment) → AreAnswers run.now (of_moments among) self.old.right →
            AreAnswers run.now (of_moments (λ i. among i || (i == moment))) self.new.right) }
        ensures window { self.new.window ≡ self.old.window }
        ensures span { self.new.span ≡ self.old.span }
        ensures program { routine.new.program ≡ run.now.routine }
        ensures lines { routine.new.lines ≡ length run.now.start }
    {
        let found = run_full(alloc, run, routine, moment)?;
        self.right.add(found)?;
        Ok(())
    }
}

/// Whether a window is the same at each of its moments.
pub fn is_fixed(window: Window) -> bool
    ensures { IsTrue result → window ≢ Itself }
{
    match window {
        Window::Itself => false,
        Window::Either { .. } | Window::Through { .. } => true,
    }
}

fn is_same(one: Window, other: Window) -> bool
    ensures { IsTrue result → one ≡ other }
{
    one == other
}

/// What the routine comes to on the full image of a moment.
pub(crate) fn run_full(
    alloc: Global,
    run: &MarkedRun<'_>,
    routine: &mut Routine,
    moment: usize,
) -> Result<Result<Answer, RunCause>, AllocError>
    requires there { moment ≤ length run.now.events }
    requires program { routine.old.program ≡ run.now.routine }
    requires lines { routine.old.lines ≡ length run.now.start }
    ensures ok { IfOk result (ShowsFull run.now moment) }
    ensures program { routine.new.program ≡ run.now.routine }
    ensures lines { routine.new.lines ≡ length run.now.start }
{
    let cuts = MomentCuts::new(&run.index, moment as u32);
    full_answer(alloc, &cuts, routine, run.steps)
}
