//! Chains of power cuts that leave a bad image: the program's at its least image, and each further one in the recovery run on the image before it, at
//! the least moment and its least image.

ghost use Rattle.crash_image.specs.View.{HasLines};
ghost use Rattle.recovery.specs.Cuts.{shown_at};
ghost use Rattle.routine_judge.specs.ChainCuts.{IsCutOver, IsFurther};
ghost use Rattle.routine_judge.specs.Chains.{BeginsAt, IsBadChain, LeadsTo};
ghost use Rattle.routine_judge.specs.Closing.{IsFoundAgain, IsSame};
ghost use Rattle.routine_judge.specs.Gathered.{AreAnswers};
ghost use Rattle.routine_judge.specs.RightAnswers.{IsSource, Source as ASource};
ghost use Rattle.routine_judge.specs.Standing.{StandsIn};
ghost use Rattle.std.specs.Prelude.{◌≡◌, ◌≤◌, length, IfOk, IfSome};

use crate::cuts::judging::{CutCause, judge_again, shown_again};
use crate::cuts::moment::{CutMoment, images_at};
use crate::cuts::narrowing::{CutQuestion, is_bad, least_image};
use crate::cuts::outcome::ChainLink;
use crate::cuts::rule::CutRule;
use crate::held::HeldAnswer;
use crate::judge::MomentJudge;
use crate::run::MarkedRun;
use line_memory::Medium;
use recovery::{Routine, TracedRun};
use std::alloc::{AllocError, Global};

/// A chain of power cuts, and why the image that it leaves is bad.
#[derive(Drop)]
pub struct Chain {
    pub links: Vec<ChainLink>,
    pub cause: CutCause,
}

/// A chain of power cuts, what it leaves, and what was shown until then.
#[derive(Drop)]
pub struct ChainSoFar {
    pub links: Vec<ChainLink>,
    pub image: Medium,
    pub shown: Option<HeldAnswer>,
}

/// A power cut in a recovery, what it leaves, and what was shown until then.
#[derive(Drop)]
pub struct FurtherCut {
    pub link: ChainLink,
    pub image: Medium,
    pub shown: Option<HeldAnswer>,
}

/// A chain with so many cuts in recovery, from a moment of a run on, that leaves a bad image. None where the search for it takes too many runs.
///
/// # Errors
/// A growth was refused.
pub fn bad_chain(
    alloc: Global,
    run: &MarkedRun<'_>,
    judge: &mut MomentJudge,
    moment: u32,
    cuts: u32,
) -> Result<Option<Chain>, AllocError>
    requires there { moment ≤ length run.now.events }
    requires stands { StandsIn run.now judge.old }
    ensures bad { IfOk result (λ found. IfSome found (λ chain. IsBadChain run.now moment chain.links.items chain.cause)) }
    ensures begins { IfOk result (λ found. IfSome found (λ chain. BeginsAt moment cuts chain.links.items)) }
{
    judge.answers.renew(alloc, run, &mut judge.routine, moment)?;
    let rule = CutRule {
        right: &judge.answers.right,
        steps: run.steps,
        most: Some(cuts),
    };
    chain_by(alloc, run, &mut judge.routine, rule, moment, cuts)
}

/// The same by the right answers of the moment.
fn chain_by(
    alloc: Global,
    run: &MarkedRun<'_>,
    routine: &mut Routine,
    rule: CutRule<'_>,
    moment: u32,
    cuts: u32,
) -> Result<Option<Chain>, AllocError>
    requires there { moment ≤ length run.now.events }
    requires steps { rule.steps ≡ run.now.steps }
    requires program { routine.old.program ≡ run.now.routine }
    requires lines { routine.old.lines ≡ length run.now.start }
    ensures bad { IfOk result (λ found. IfSome found (λ chain. (source : ASource) → IsSource run.now moment source → AreAnswers run.now source rule.entry.right.now →
        IsBadChain run.now moment chain.links.items chain.cause)) }
    ensures begins { IfOk result (λ found. IfSome found (λ chain. BeginsAt moment cuts chain.links.items)) }
{
    let first = first_cut(alloc, run, routine, rule, moment)?;
    let Some(alone) = first else {
        return Ok(None);
    };
    let mut chain = alone;
    for made in 0..cuts {
        let further = further_cut(alloc, routine, rule, chain, cuts - 1 - made)?;
        let Some(longer) = further else {
            return Ok(None);
        };
        chain = longer;
    }
    let found = cause_of(alloc, routine, rule, &chain)?;
    let Some(cause) = found else {
        return Ok(None);
    };
    Ok(Some(Chain {
        links: chain.links,
        cause,
    }))
}

/// The program's cut at a moment, alone.
fn first_cut(
    alloc: Global,
    run: &MarkedRun<'_>,
    routine: &mut Routine,
    rule: CutRule<'_>,
    moment: u32,
) -> Result<Option<ChainSoFar>, AllocError>
    requires there { moment ≤ length run.now.events }
    requires lines { routine.old.lines ≡ length run.now.start }
    ensures leads { IfOk result (λ found. IfSome found (λ chain. LeadsTo run.now chain.links.items chain.image chain.shown)) }
    ensures begins { IfOk result (λ found. IfSome found (λ chain. BeginsAt moment 0 chain.links.items)) }
    ensures lines { IfOk result (λ found. IfSome found (λ chain. length chain.image ≡ length run.now.start)) }
    ensures routine { IsSame routine.old routine.new }
{
    let at = CutMoment {
        medium: run.medium,
        trace: run.trace,
        moment,
    };
    let nothing = None;
    let question = CutQuestion {
        rule,
        shown: &nothing,
    };
    let found = least_image(alloc, routine, question, at)?;
    let Some((name, left)) = found else {
        return Ok(None);
    };
    let mut links = Vec::new(alloc);
    links.push(ChainLink {
        moment,
        image: name,
    })?;
    Ok(Some(ChainSoFar {
        links,
        image: left,
        shown: None,
    }))
}

/// Adds a cut in the recovery on what a chain leaves, from which so many further ones leave a bad image. None where the search for it takes too many
/// runs.
fn further_cut(
    alloc: Global,
    routine: &mut Routine,
    rule: CutRule<'_>,
    chain: ChainSoFar,
    further: u32,
) -> Result<Option<ChainSoFar>, AllocError>
    requires { routine.old.lines ≡ length chain.image }
    ensures ok { IfOk result (λ found. IfSome found (IsFurther routine.old.program rule.entry.steps chain)) }
    ensures routine { IsSame routine.old routine.new }
{
    let run = routine.run_traced(alloc, &chain.image, rule.steps)?;
    let rule = CutRule {
        right: rule.right,
        steps: rule.steps,
        most: Some(further),
    };
    let found = least_cut_in(alloc, routine, rule, &chain, &run)?;
    let Some(cut) = found else {
        return Ok(None);
    };
    let mut links = chain.links;
    links.push(cut.link)?;
    Ok(Some(ChainSoFar {
        links,
        image: cut.image,
        shown: cut.shown,
    }))
}

/// The cut at the least moment of a run on what a chain leaves, of whose images further cuts leave a bad one.
fn least_cut_in(
    alloc: Global,
    routine: &mut Routine,
    rule: CutRule<'_>,
    chain: &ChainSoFar,
    run: &TracedRun,
) -> Result<Option<FurtherCut>, AllocError>
    requires lines { routine.old.lines ≡ length chain.now.image }
    requires named { HasLines chain.now.image run.now.trace.events }
    ensures ok { IfOk result (λ found. IfSome found (IsCutOver chain.now run.now)) }
    ensures routine { IsSame routine.old routine.new }
{
    for moment in 0..run.trace.events().len() + 1 {
        let found = cut_at(alloc, routine, rule, chain, run, moment as u32)?;
        if let Some(cut) = found {
            return Ok(Some(cut));
        }
    }
    Ok(None)
}

/// The cut at a moment of a run on what a chain leaves, where further cuts leave a bad one of its images.
fn cut_at(
    alloc: Global,
    routine: &mut Routine,
    rule: CutRule<'_>,
    chain: &ChainSoFar,
    run: &TracedRun,
    moment: u32,
) -> Result<Option<FurtherCut>, AllocError>
    requires lines { routine.old.lines ≡ length chain.now.image }
    requires named { HasLines chain.now.image run.now.trace.events }
    requires there { moment ≤ length run.now.trace.events }
    ensures ok { IfOk result (λ found. IfSome found (IsCutOver chain.now run.now)) }
    ensures routine { IsSame routine.old routine.new }
{
    let shown = shown_then(alloc, &chain.shown, run, moment)?;
    let at = CutMoment {
        medium: &chain.image,
        trace: &run.trace,
        moment,
    };
    let question = CutQuestion {
        rule,
        shown: &shown,
    };
    let images = images_at(alloc, at)?;
    if !is_bad(alloc, routine, question, images)? {
        return Ok(None);
    }
    let found = least_image(alloc, routine, question, at)?;
    let Some((name, left)) = found else {
        return Ok(None);
    };
    Ok(Some(FurtherCut {
        link: ChainLink {
            moment,
            image: name,
        },
        image: left,
        shown,
    }))
}

/// What was shown when the power is cut at a moment of a run, before which this was shown.
fn shown_then(
    alloc: Global,
    earlier: &Option<HeldAnswer>,
    run: &TracedRun,
    moment: u32,
) -> Result<Option<HeldAnswer>, AllocError>
    ensures { IfOk result (λ shown. shown ≡ shown_at moment (length run.now.trace.events) run.now.found earlier.now) }
{
    let Ok(answer) = &run.found else {
        return shown_again(alloc, earlier);
    };
    if moment as usize == run.trace.events().len() {
        let copy = HeldAnswer::copied(alloc, answer)?;
        return Ok(Some(copy));
    }
    shown_again(alloc, earlier)
}

/// What the image is found to be that a chain leaves.
fn cause_of(
    alloc: Global,
    routine: &mut Routine,
    rule: CutRule<'_>,
    chain: &ChainSoFar,
) -> Result<Option<CutCause>, AllocError>
    requires { routine.old.lines ≡ length chain.now.image }
    ensures { IfOk result (IsFoundAgain routine.old.program rule.entry.steps rule.entry.right.now chain.now.image chain.now.shown) }
{
    let found = routine.run(alloc, &chain.image, rule.steps)?;
    Ok(judge_again(rule.right, &chain.shown, &found))
}
