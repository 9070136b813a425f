//! Judging the moments of a run one by one.

ghost use Rattle.routine_judge.specs.Standing.{AreKeptFor, IsPassed};
ghost use Rattle.routine_judge.specs.Verdicts.{IsJudged};
ghost use Rattle.verdict.specs.Verdicts.{IfPassed};
ghost use Rattle.std.specs.Prelude.{◌≡◌, ◌≤◌, length, IfOk};

use crate::Cause;
use crate::answer_images::AnswerImages;
use crate::answers::MomentAnswers;
use crate::passing::still_passes;
use crate::run::MarkedRun;
use crash_image::images_between;
use recovery::Routine;
use std::alloc::{AllocError, Global};
use std::thread::Threads;
use verdict::{MomentCuts, MomentVerdict, Moments, Opener, open_moment};

/// What a worker keeps from one moment to the next: the routine runs once for each branch of a moment, and once on each full image that
/// gives a right answer of its own. While the same operation is pending the right answers are made once, and a moment right after one that
/// passes is opened only where the event between them changes what the routine loads.
#[derive(Drop)]
pub struct MomentJudge {
    pub(crate) opener: Opener,
    pub(crate) routine: Routine,
    pub(crate) answers: MomentAnswers,
    /// The moment that was judged last, if it passes: the opener then has the lines that the routine loads there.
    pub(crate) passed: Option<u32>,
}

impl Moments for MarkedRun<'_> {
    ghost use Rattle.routine_judge.specs.Standing.{StandsIn};
    ghost use Rattle.routine_judge.specs.Verdicts.{IsJudged};

    type Cause = Cause;

    type Judge = MomentJudge;

    ghost events = { λ s. s.events };

    ghost judged = { λ s moment verdict. IsJudged s moment verdict };

    ghost keeps = { λ s judge. StandsIn s judge };

    fn judge(&self, alloc: Global) -> Result<MomentJudge, AllocError> {
        Ok(MomentJudge {
            opener: Opener::new(alloc, self.lines)?,
            routine: self.routine(alloc)?,
            answers: MomentAnswers::none(alloc),
            passed: None,
        })
    }

    fn judge_moment<T: Threads + Sync>(
        &self,
        rt: &T,
        alloc: Global,
        judge: &mut MomentJudge,
        moment: u32,
    ) -> Result<MomentVerdict<Cause>, AllocError> {
        let passed = judge.passed.take();
        if still_passes(self, passed, judge.answers.window, &judge.opener, moment) {
            judge.passed = Some(moment);
            return Ok(MomentVerdict::Pass);
        }
        let verdict = open_at(
            rt,
            alloc,
            self,
            moment,
            &mut judge.routine,
            &mut judge.answers,
            &mut judge.opener,
        )?;
        if verdict.is_pass() {
            judge.passed = Some(moment);
        }
        Ok(verdict)
    }

    fn images(&self, alloc: Global, first: u32, end: u32) -> Result<Option<u64>, AllocError> {
        images_between(alloc, self.trace, first, end)
    }

    /// As many as there are: to run the routine takes longer than to start a worker.
    fn workers(&self, _moments: u32) -> u32 {
        u32::MAX
    }
}

/// Opens the branches of a moment of the run, whose right answers are made first where they aren't there.
fn open_at<T: Threads + Sync>(
    rt: &T,
    alloc: Global,
    run: &MarkedRun<'_>,
    moment: u32,
    routine: &mut Routine,
    answers: &mut MomentAnswers,
    opener: &mut Opener,
) -> Result<MomentVerdict<Cause>, AllocError>
    requires there { moment ≤ length run.now.events }
    requires size { length opener.old ≡ length run.now.start }
    requires program { routine.old.program ≡ run.now.routine }
    requires lines { routine.old.lines ≡ length run.now.start }
    requires kept { AreKeptFor run.now answers.old }
    ensures ok { IfOk result (IsJudged run.now moment) }
    ensures passed { IfOk result (λ verdict. IfPassed verdict (IsPassed run.now opener.new answers.new.window moment)) }
    ensures size { length opener.new ≡ length opener.old }
    ensures program { routine.new.program ≡ run.now.routine }
    ensures lines { routine.new.lines ≡ length run.now.start }
    ensures kept { AreKeptFor run.now answers.new }
{
    let (medium, trace) = (run.medium, run.trace);
    answers.renew(alloc, run, routine, moment)?;
    if answers.right.runs_on {
        return Ok(MomentVerdict::TooLong);
    }
    let cuts = MomentCuts::new(&run.index, moment);
    let images = AnswerImages {
        images: &cuts,
        program: run.routine,
        steps: run.steps,
        right: &answers.right,
    };
    let verdict = open_moment(rt, alloc, medium, trace, moment, &images, routine, opener)?;
    Ok(verdict)
}
