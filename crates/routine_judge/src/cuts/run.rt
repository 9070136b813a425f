//! Judging the moments of a run one by one, with power cuts in recovery.

ghost use Rattle.routine_judge.specs.Closing.{HasBadFrom, IsSame};
ghost use Rattle.routine_judge.specs.CutJudges.{StandsWith};
ghost use Rattle.routine_judge.specs.CutMoments.{HasBadImage, IsThere, verdict_of};
ghost use Rattle.routine_judge.specs.CutVerdicts.{IsJudgedWith, IsVerdictBy};
ghost use Rattle.routine_judge.specs.CutsInRecovery.{AllAnswered};
ghost use Rattle.routine_judge.specs.Gathered.{AreAnswers};
ghost use Rattle.routine_judge.specs.RightAnswers.{Source as ASource};
ghost use Rattle.routine_judge.specs.Standing.{StandsIn};
ghost use Rattle.routine_judge.specs.WidePasses.{IsPassedBy};
ghost use Rattle.std.specs.Prelude.{◌≡◌, ◌≤◌, length, IfOk, IfSome, IsTrue};

use crate::cuts::bound_boxes::BoundBoxes;
use crate::cuts::closing::BoxVerdict;
use crate::cuts::image_box::ImageBox;
use crate::cuts::judging::CutCause;
use crate::cuts::moment::{CutMoment, images_at};
use crate::cuts::narrowing::{CutQuestion, least_image};
use crate::cuts::rule::CutRule;
use crate::cuts::wide::{WidePass, still_wide, widest};
use crate::judge::MomentJudge;
use crate::run::MarkedRun;
use line_memory::Medium;
use recovery::Routine;
use std::alloc::{AllocError, Global};
use std::thread::Threads;
use verdict::{ImageName, MomentVerdict, Moments};

/// A run whose moments are judged with up to so many power cuts in recovery, or any number of them.
#[derive(Drop)]
pub struct RunWithCuts<'r, 'a> {
    pub run: &'r MarkedRun<'a>,
    pub most: Option<u32>,
}

/// What a worker keeps from one moment to the next: what a judge without cuts in recovery keeps, and up to which moment all pass by the images of that
/// one, if the moment that was judged last does.
#[derive(Drop)]
pub struct CutJudge {
    pub(crate) judge: MomentJudge,
    pub(crate) passed: Option<WidePass>,
}

impl Moments for RunWithCuts<'_, '_> {
    ghost use Rattle.routine_judge.specs.CutJudges.{StandsWith};
    ghost use Rattle.routine_judge.specs.CutVerdicts.{IsJudgedWith};

    type Cause = CutCause;

    type Judge = CutJudge;

    ghost events = { λ s. s.run.now.events };

    ghost judged = { λ s moment verdict. IsJudgedWith s.most s.run.now moment verdict };

    ghost keeps = { λ s judge. StandsWith s.most s.run.now judge };

    fn judge(&self, alloc: Global) -> Result<CutJudge, AllocError> {
        let judge = self.run.judge(alloc)?;
        Ok(CutJudge {
            judge,
            passed: None,
        })
    }

    fn judge_moment<T: Threads + Sync>(
        &self,
        _rt: &T,
        alloc: Global,
        judge: &mut CutJudge,
        moment: u32,
    ) -> Result<MomentVerdict<CutCause>, AllocError> {
        judge_cuts(alloc, self.run, judge, moment, self.most)
    }

    fn images(&self, alloc: Global, first: u32, end: u32) -> Result<Option<u64>, AllocError> {
        self.run.images(alloc, first, end)
    }

    fn workers(&self, moments: u32) -> u32 {
        self.run.workers(moments)
    }
}

/// Judges a moment of a run with power cuts in recovery, up to so many, or any number of them. A moment that passes by the images of a later one is
/// followed by those up to that one.
///
/// # Errors
/// A growth was refused. The judge can be used again then too.
pub fn judge_cuts(
    alloc: Global,
    run: &MarkedRun<'_>,
    judge: &mut CutJudge,
    moment: u32,
    most: Option<u32>,
) -> Result<MomentVerdict<CutCause>, AllocError>
    requires there { moment ≤ length run.now.events }
    requires stands { StandsWith most run.now judge.old }
    ensures ok { IfOk result (IsJudgedWith most run.now moment) }
    ensures stands { StandsWith most run.now judge.new }
{
    if let Some(pass) = still_wide(judge.passed, moment) {
        judge.passed = Some(pass);
        return Ok(MomentVerdict::Pass);
    }
    judge.passed = None;
    let opened = open_cuts(alloc, run, &mut judge.judge, moment, most)?;
    judge.passed = opened.1;
    Ok(opened.0)
}

/// The verdict on a moment; where it passes by the images of a later one, with that.
fn open_cuts(
    alloc: Global,
    run: &MarkedRun<'_>,
    judge: &mut MomentJudge,
    moment: u32,
    most: Option<u32>,
) -> Result<(MomentVerdict<CutCause>, Option<WidePass>), AllocError>
    requires there { moment ≤ length run.now.events }
    requires stands { StandsIn run.now judge.old }
    ensures ok { IfOk result (λ opened. IsJudgedWith most run.now moment opened.0) }
    ensures wide { IfOk result (λ opened. IfSome opened.1 (IsPassedBy most run.now judge.new.answers.window)) }
    ensures stands { StandsIn run.now judge.new }
{
    judge.passed = None;
    judge.answers.renew(alloc, run, &mut judge.routine, moment)?;
    if judge.answers.right.runs_on {
        return Ok((MomentVerdict::TooLong, None));
    }
    let rule = CutRule {
        right: &judge.answers.right,
        steps: run.steps,
        most,
    };
    let wide = widest(run, judge.answers.window, moment);
    let closed = are_closed(alloc, run, &mut judge.routine, rule, wide)?;
    if closed {
        return Ok((MomentVerdict::Pass, Some(WidePass { moment, wide })));
    }
    let verdict = judge_by(alloc, run, &mut judge.routine, rule, moment)?;
    Ok((verdict, None))
}

/// Whether whatever cuts leave of the images of a moment is answered well by some right answers.
fn are_closed(
    alloc: Global,
    run: &MarkedRun<'_>,
    routine: &mut Routine,
    rule: CutRule<'_>,
    moment: u32,
) -> Result<bool, AllocError>
    requires there { moment ≤ length run.now.events }
    requires steps { rule.steps ≡ run.now.steps }
    requires program { routine.old.program ≡ run.now.routine }
    requires lines { routine.old.lines ≡ length run.now.start }
    ensures ok { IfOk result (λ closed. IsTrue closed → (source : ASource) → AreAnswers run.now source rule.entry.right.now →
        AllAnswered run.now source rule.entry.most moment) }
    ensures routine { IsSame routine.old routine.new }
{
    let at = CutMoment {
        medium: run.medium,
        trace: run.trace,
        moment,
    };
    let images = images_at(alloc, at)?;
    let mut boxes = BoundBoxes::of(alloc, images, None)?;
    match boxes.close_all(alloc, routine, rule)? {
        BoxVerdict::Closed => Ok(true),
        BoxVerdict::Bad(_) | BoxVerdict::TooMany => Ok(false),
    }
}

/// Judges a moment by its right answers.
fn judge_by(
    alloc: Global,
    run: &MarkedRun<'_>,
    routine: &mut Routine,
    rule: CutRule<'_>,
    moment: u32,
) -> Result<MomentVerdict<CutCause>, AllocError>
    requires there { moment ≤ length run.now.events }
    requires steps { rule.steps ≡ run.now.steps }
    requires program { routine.old.program ≡ run.now.routine }
    requires lines { routine.old.lines ≡ length run.now.start }
    ensures ok { IfOk result (λ verdict. (source : ASource) → AreAnswers run.now source rule.entry.right.now →
        IsVerdictBy run.now source rule.entry.most moment verdict) }
    ensures routine { IsSame routine.old routine.new }
{
    let at = CutMoment {
        medium: run.medium,
        trace: run.trace,
        moment,
    };
    let images = images_at(alloc, at)?;
    let mut boxes = BoundBoxes::of(alloc, images, None)?;
    match boxes.close_all(alloc, routine, rule)? {
        BoxVerdict::Closed => Ok(MomentVerdict::Pass),
        BoxVerdict::TooMany => Ok(MomentVerdict::TooMany { lines: None }),
        BoxVerdict::Bad(_) => {
            let least = least_bad(alloc, routine, rule, at)?;
            Ok(verdict_on(least))
        }
    }
}

/// The verdict on a moment of which cuts leave a bad image, by its least image from which they do, where that was found.
fn verdict_on(least: Option<(ImageName, CutCause)>) -> MomentVerdict<CutCause>
    ensures { result ≡ verdict_of least }
{
    match least {
        Some((image, cause)) => MomentVerdict::Fail {
            image,
            cause,
            of_too_many: false,
        },
        None => MomentVerdict::TooMany { lines: None },
    }
}

/// The least image of a moment from which cuts in recovery leave a bad one, by its name, and why that is bad. None where it takes too many runs.
fn least_bad(
    alloc: Global,
    routine: &mut Routine,
    rule: CutRule<'_>,
    at: CutMoment<'_>,
) -> Result<Option<(ImageName, CutCause)>, AllocError>
    requires lines { routine.old.lines ≡ length at.medium.now }
    requires there { IsThere at }
    ensures ok { IfOk result (λ found. IfSome found (λ bad.
        HasBadImage routine.old.program rule.entry.steps rule.entry.right.now rule.entry.most at.entry bad.0 bad.1)) }
    ensures routine { IsSame routine.old routine.new }
{
    let nothing = None;
    let question = CutQuestion {
        rule,
        shown: &nothing,
    };
    let Some((image, medium)) = least_image(alloc, routine, question, at)? else {
        return Ok(None);
    };
    match cause_from(alloc, routine, rule, &medium)? {
        Some(cause) => Ok(Some((image, cause))),
        None => Ok(None),
    }
}

/// Why an image is bad that cuts in recovery leave of a medium. None where that takes too many runs.
fn cause_from(
    alloc: Global,
    routine: &mut Routine,
    rule: CutRule<'_>,
    medium: &Medium,
) -> Result<Option<CutCause>, AllocError>
    requires { routine.old.lines ≡ length medium.now }
    ensures ok { IfOk result (λ found. IfSome found (HasBadFrom routine.old.program rule.entry.steps rule.entry.right.now rule.entry.most medium.now)) }
    ensures routine { IsSame routine.old routine.new }
{
    let images = ImageBox::of(alloc, medium)?;
    let mut boxes = BoundBoxes::of(alloc, images, None)?;
    match boxes.close_all(alloc, routine, rule)? {
        BoxVerdict::Bad(cause) => Ok(Some(cause)),
        BoxVerdict::Closed | BoxVerdict::TooMany => Ok(None),
    }
}
