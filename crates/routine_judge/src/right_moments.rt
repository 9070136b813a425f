//! The right answers of a moment, each with the moment that gives it.

ghost use Rattle.crash_image.specs.View.{HasLines};
ghost use Rattle.routine_judge.specs.RightAnswers.{IsRightWindow, ShowsFull, is_among};
ghost use Rattle.routine_judge.specs.RightMoments.{AreFullAnswers, AreGivenBy, AreRightAt, IsAddedOnce, gives};
ghost use Rattle.routine_judge.specs.Rules.{AreNotedFor, overlap_of, right_by};
ghost use Rattle.routine_judge.specs.Verdicts.{IsRefusal};
ghost use Rattle.routine_judge.specs.Views.{JudgeView, own_moments};
ghost use Rattle.std.specs.List.{Any};
ghost use Rattle.std.specs.Prelude.{◌≡◌, ◌↔◌, ◌||◌, ◌==◌, ◌+◌, ◌<◌, ◌≤◌, ℕ, Bool, true, length, IfErr, IfOk, IsTrue, OnOk};

use crate::JudgeFault;
use crate::answers::{MomentAnswers, run_full};
use crate::history::{Window, windows_lie_in_the_run};
use crate::judging::Judgement;
use crate::run::MarkedRun;
use crate::sources::Sources;
use line_memory::Medium;
use recovery::{Answer, Cause as RunCause, Routine};
use std::alloc::{AllocError, Global};
use store_trace::Trace;

/// A right answer of a moment, and the least moment of its window whose full image gives it.
#[derive(Drop)]
pub struct RightAnswer {
    pub moment: u32,
    pub answer: Answer,
}

/// What a routine comes to on the full images of all moments of a run.
#[derive(Drop)]
pub struct FullAnswers {
    /// Its answers, each once, with the least moment that gives it, upwards by these moments.
    pub given: Vec<RightAnswer>,
    /// What it comes to on that of the last moment: its answer, or why it has none.
    pub last: Result<Answer, RunCause>,
}

/// The right answers of a moment of the trace, each once, upwards by the moments that give them. The trace started from the medium, which has
/// every line that the trace names.
///
/// # Errors
/// As those of `judged_part` from this moment on.
#[tactic(auto, using(crate::proofs::Begun::sound_begin))]
pub fn right_answers(
    alloc: Global,
    medium: &Medium,
    trace: &Trace,
    judgement: Judgement<'_>,
    moment: u32,
) -> Result<Vec<RightAnswer>, JudgeFault>
    requires lines { HasLines medium.now trace.now.events }
    requires runs { AreNotedFor medium.now judgement.recovery.now judgement.steps judgement.rule }
    requires own { right_by judgement.rule ≡ own_moments }
    ensures ok { IfOk result (λ right. AreRightAt (record {
      routine = judgement.entry.recovery.now;
      steps = judgement.entry.steps;
      start = medium.now;
      events = trace.now.events;
      right = right_by judgement.entry.rule;
    }) moment right.items) }
    ensures err { IfErr result (IsRefusal (overlap_of judgement.entry.rule) trace.now.events moment) }
{
    let is_past = moment as usize > trace.events().len();
    let run = MarkedRun::new(alloc, medium, trace, judgement)?;
    if is_past {
        return Err(JudgeFault::NoSuchMoment);
    }
    Ok(answers_at(alloc, &run, moment)?)
}

/// Those of a moment of a run.
fn answers_at(
    alloc: Global,
    run: &MarkedRun<'_>,
    moment: u32,
) -> Result<Vec<RightAnswer>, AllocError>
    requires there { moment ≤ length run.now.events }
    requires own { run.now.right ≡ own_moments }
    ensures { IfOk result (λ right. AreRightAt run.now moment right.items) }
{
    windows_lie_in_the_run();
    let mut routine = run.routine(alloc)?;
    let window = window_of(alloc, run, &mut routine, moment)?;
    given_by(alloc, run, &mut routine, window, moment)
}

/// What the routine comes to on the full images of all moments of the trace, whichever answers the judgement says are right. A full image has
/// all stores, so no power cut shows in them. The trace started from the medium, which has every line that the trace names.
///
/// # Errors
/// A wrong mark of an operation, or that there is none. Memory where a growth is refused.
#[tactic(auto, using(crate::proofs::Begun::sound_begin))]
pub fn full_answers(
    alloc: Global,
    medium: &Medium,
    trace: &Trace,
    judgement: Judgement<'_>,
) -> Result<FullAnswers, JudgeFault>
    requires lines { HasLines medium.now trace.now.events }
    requires runs { AreNotedFor medium.now judgement.recovery.now judgement.steps judgement.rule }
    ensures ok { IfOk result (AreFullAnswers (record {
      routine = judgement.entry.recovery.now;
      steps = judgement.entry.steps;
      start = medium.now;
      events = trace.now.events;
      right = right_by judgement.entry.rule;
    })) }
    ensures err { IfErr result (IsRefusal (overlap_of judgement.entry.rule) trace.now.events 0) }
{
    let run = MarkedRun::new(alloc, medium, trace, judgement)?;
    Ok(full_answers_of(alloc, &run)?)
}

/// Those of a run.
fn full_answers_of(alloc: Global, run: &MarkedRun<'_>) -> Result<FullAnswers, AllocError>
    ensures { IfOk result (AreFullAnswers run.now) }
{
    let mut routine = run.routine(alloc)?;
    let moment = run.moments() - 1;
    let end = moment as usize;
    let last = run_full(alloc, run, &mut routine, end)?;
    let all = Window::Through {
        first: 0,
        last: end,
    };
    let given = given_by(alloc, run, &mut routine, all, moment)?;
    Ok(FullAnswers { given, last })
}

/// The window of a moment, without the moments before a change that has to last.
fn window_of(
    alloc: Global,
    run: &MarkedRun<'_>,
    routine: &mut Routine,
    moment: u32,
) -> Result<Window, AllocError>
    requires there { moment ≤ length run.now.events }
    requires own { run.now.right ≡ own_moments }
    requires program { routine.old.program ≡ run.now.routine }
    requires lines { routine.old.lines ≡ length run.now.start }
    ensures window { IfOk result (IsRightWindow run.now moment) }
    ensures program { routine.new.program ≡ run.now.routine }
    ensures lines { routine.new.lines ≡ length run.now.start }
{
    let mut answers = MomentAnswers::none(alloc);
    match &run.sources {
        Sources::Moments(windows) => answers.right_window(alloc, run, routine, windows, moment),
        Sources::Sequential(_) => unreachable!(),
    }
}

/// The answers on the full images of the moments of a window, which lies in the run.
fn given_by(
    alloc: Global,
    run: &MarkedRun<'_>,
    routine: &mut Routine,
    window: Window,
    moment: u32,
) -> Result<Vec<RightAnswer>, AllocError>
    requires inside { (i : ℕ) → is_among window moment i ≡ true → i < length run.now.events + 1 }
    requires program { routine.old.program ≡ run.now.routine }
    requires lines { routine.old.lines ≡ length run.now.start }
    ensures { IfOk result (λ right. AreGivenBy run.now (is_among window moment) right.items) }
{
    let mut right = Vec::new(alloc);
    for at in 0..run.moments() {
        if is_among(window, moment, at) {
            let found = run_full(alloc, run, routine, at as usize)?;
            add(&mut right, at, found)?;
        }
    }
    Ok(right)
}

/// Whether a moment is one of the window of another.
fn is_among(window: Window, moment: u32, at: u32) -> bool
    ensures { result ≡ is_among window moment at }
{
    let (moment, at) = (moment as usize, at as usize);
    match window {
        Window::Itself => at == moment,
        Window::Either { before, after } => at == before || at == after,
        Window::Through { first, last } => first <= at && at <= last,
    }
}

/// Adds what the routine comes to on the full image of a moment, which is later than those before: its answer, unless one of those gives it.
fn add(
    right: &mut Vec<RightAnswer>,
    moment: u32,
    found: Result<Answer, RunCause>,
) -> Result<(), AllocError>
    ensures { OnOk result ((view : JudgeView) (among : ℕ → Bool) → ((i : ℕ) → among i ≡ true → i < moment) → ShowsFull view moment found →
        AreGivenBy view among right.old.items → AreGivenBy view (λ i. among i || (i == moment)) right.new.items) }
{
    match found {
        Ok(answer) => add_answer(right, RightAnswer { moment, answer }),
        Err(_) => Ok(()),
    }
}

/// Adds an answer, unless it is there.
fn add_answer(right: &mut Vec<RightAnswer>, given: RightAnswer) -> Result<(), AllocError>
    ensures { OnOk result (IsAddedOnce given right.old.items right.new.items) }
{
    if is_there(right, given.answer.bytes()) {
        return Ok(());
    }
    right.push(given)?;
    Ok(())
}

/// Whether one of them is these bytes.
fn is_there(right: &[RightAnswer], bytes: &[u8]) -> bool
    ensures { IsTrue result ↔ Any (gives bytes.now) right.now }
{
    right.iter().any(|right| right.answer.bytes() == bytes)
}
