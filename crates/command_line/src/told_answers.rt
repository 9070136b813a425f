//! What is told of the answer of a recovery routine on a failing image, and of the answers that were right.

ghost use Rattle.command_line.specs.Judging.{IsOpen, IsRuleOf};
ghost use Rattle.command_line.specs.Reasons.{HasFewSteps};
ghost use Rattle.command_line.specs.ToldAnswers.{AreRightFor, IsRefused, PrintsJudged, TellsAnswers, TellsAnswersAt, answers_text, told_answer, told_answers, told_right};
ghost use Rattle.routine_judge.specs.Rules.{right_by};
ghost use Rattle.routine_judge.specs.Views.{own_moments};
ghost use Rattle.std.specs.Prelude.{◌≡◌, IfOk, IfSome, MatchResult, string_bytes};

use crate::answer::Answer;
use crate::failure::Failure;
use crate::judge::judgement;
use crate::opened::OpenJudge;
use crate::reasons::told_why;
use crate::verdicts::{failing, told_verdict, verdict_status};
use crash_test::{Events, ExplainedImage, RightAnswer, RoutineReader, answer_at, right_answers};
use recovery::Answer as RecoveryAnswer;
use report::{answer_line, answer_object, right_line, right_object};
use routine_judge::{Cause, Rule, Verdict};
use std::alloc::{AllocError, Global};
use text::ImageName;

/// What a recovery routine answers on a crash image, and what is right at its moment.
#[derive(Drop)]
pub(crate) struct ToldAnswers {
    pub(crate) answer: RecoveryAnswer,
    /// None where sequential runs say what is right.
    pub(crate) right: Vec<RightAnswer>,
}

/// `--why`: of a failing image on which the routine has an answer, that answer and the right ones.
pub(crate) fn answers_of(
    alloc: Global,
    judge: &OpenJudge,
    rule: Rule<'_>,
    verdict: &Verdict<Cause>,
) -> Result<Option<ToldAnswers>, Failure>
    requires open { IsOpen judge.now }
    requires rule { IsRuleOf judge.now rule }
    ensures { TellsAnswers judge.now verdict.now result }
{
    match failing(judge.command.judged.why, verdict) {
        Some((moment, image)) => answers_at(alloc, judge, rule, moment, image),
        None => Ok(None),
    }
}

fn answers_at(
    alloc: Global,
    judge: &OpenJudge,
    rule: Rule<'_>,
    moment: u32,
    image: &ImageName,
) -> Result<Option<ToldAnswers>, Failure>
    requires open { IsOpen judge.now }
    requires rule { IsRuleOf judge.now rule }
    ensures { TellsAnswersAt judge.now moment image.now result }
{
    let reader = RoutineReader {
        program: &judge.recovery,
        steps: judge.command.steps,
    };
    let events = Events {
        medium: judge.events.medium(),
        trace: judge.events.trace(),
    };
    match answer_at(alloc, events, moment, image, &reader)? {
        Ok(answer) => {
            let right = right_at(alloc, judge, rule, moment)?;
            Ok(Some(ToldAnswers { answer, right }))
        }
        Err(_) => Ok(None),
    }
}

/// The right answers of a moment, where moments of the events give them.
fn right_at(
    alloc: Global,
    judge: &OpenJudge,
    rule: Rule<'_>,
    moment: u32,
) -> Result<Vec<RightAnswer>, Failure>
    requires open { IsOpen judge.now }
    requires rule { IsRuleOf judge.now rule }
    ensures { MatchResult result (λ right. AreRightFor judge.now moment right.items) (IsRefused judge.now moment) }
{
    match rule {
        Rule::Atomic(_) => Ok(Vec::new(alloc)),
        Rule::InTurn | Rule::Overlapping => right_of_moments(alloc, judge, rule, moment),
    }
}

fn right_of_moments(
    alloc: Global,
    judge: &OpenJudge,
    rule: Rule<'_>,
    moment: u32,
) -> Result<Vec<RightAnswer>, Failure>
    requires open { IsOpen judge.now }
    requires rule { IsRuleOf judge.now rule }
    requires own { right_by rule ≡ own_moments }
    ensures { MatchResult result (λ right. AreRightFor judge.now moment right.items) (IsRefused judge.now moment) }
{
    let medium = judge.events.medium();
    let trace = judge.events.trace();
    let judgement = judgement(judge, rule);
    let right = right_answers(alloc, medium, trace, judgement, moment)?;
    Ok(right)
}

/// What is printed of a verdict, of the answers on a failing image and of what that lacks and keeps, and the status.
pub(crate) fn judged_answer(
    alloc: Global,
    judge: &OpenJudge,
    verdict: &Verdict<Cause>,
    answers: &Option<ToldAnswers>,
    why: &Option<ExplainedImage>,
) -> Result<Answer, Failure>
    requires open { IsOpen judge.now }
    requires few { IfSome why.now HasFewSteps }
    ensures { PrintsJudged judge.now verdict.now answers.now why.now result }
{
    let json = judge.command.judged.json;
    let mut text = told_verdict(alloc, verdict, json)?;
    let mut lines = told_answers(alloc, answers, json)?;
    let reasons = told_why(alloc, &judge.events, why, json)?;
    lines.push_str(reasons.as_str())?;
    text.push_str(lines.as_str())?;
    Ok(Answer::of(text, verdict_status(verdict)))
}

fn told_answers(
    alloc: Global,
    answers: &Option<ToldAnswers>,
    json: bool,
) -> Result<String, AllocError>
    ensures { IfOk result (λ text. string_bytes text ≡ told_answers json answers.now) }
{
    match answers {
        Some(told) => answers_text(alloc, told, json),
        None => Ok(String::new(alloc)),
    }
}

/// The answer on an image, and behind it each right one.
fn answers_text(alloc: Global, told: &ToldAnswers, json: bool) -> Result<String, AllocError>
    ensures { IfOk result (λ text. string_bytes text ≡ answers_text json told.now) }
{
    let mut text = told_answer(alloc, told.answer.bytes(), json)?;
    for right in &told.right {
        let line = told_right(alloc, right, json)?;
        text.push_str(line.as_str())?;
    }
    Ok(text)
}

fn told_answer(alloc: Global, answer: &[u8], json: bool) -> Result<String, AllocError>
    ensures { IfOk result (λ text. string_bytes text ≡ told_answer json answer.now) }
{
    if json {
        answer_object(alloc, answer)
    } else {
        answer_line(alloc, answer)
    }
}

fn told_right(alloc: Global, right: &RightAnswer, json: bool) -> Result<String, AllocError>
    ensures { IfOk result (λ text. string_bytes text ≡ told_right json right.now) }
{
    let bytes = right.answer.bytes();
    if json {
        right_object(alloc, bytes, right.moment)
    } else {
        right_line(alloc, bytes, right.moment)
    }
}
