//! What is told behind a pass of the answers of a recovery routine on the full images of all moments.

ghost use Rattle.command_line.specs.ToldFull.{IsFullRefused, TellsAlso, TellsFull, are_asked, full_text, shown_answer, shown_cause, shown_last};
ghost use Rattle.command_line.specs.Judging.{IsOpen, IsRuleOf};
ghost use Rattle.command_line.specs.ToldAnswers.{IsRefused, view_asked};
ghost use Rattle.routine_judge.specs.RightMoments.{AreFullAnswers};
ghost use Rattle.std.specs.Prelude.{◌≡◌, ◌++◌, IfOk, MatchResult, string_bytes};

use crate::answer::Answer;
use crate::failure::Failure;
use crate::judge::{judgement, missing_text};
use crate::opened::OpenJudge;
use crash_test::{FullAnswers, full_answers};
use recovery::{Answer as RecoveryAnswer, Cause as RunCause};
use report::{answer_text, answers_line, answers_object, bytes_members, cause_member};
use routine_judge::Rule;
use std::alloc::{AllocError, Global};

/// `--answers`: behind a pass, how many different answers the routine gives on the full images of all moments, and what it comes to on that
/// of the last one.
pub(crate) fn with_full_answers(
    alloc: Global,
    judge: &OpenJudge,
    rule: Rule<'_>,
    answer: Answer,
) -> Result<Answer, Failure>
    requires open { IsOpen judge.now }
    requires rule { IsRuleOf judge.now rule }
    ensures { TellsFull judge.now answer result }
{
    if are_asked(judge, &answer) {
        answers_behind(alloc, judge, rule, answer)
    } else {
        Ok(answer)
    }
}

/// The answer, and behind it those.
fn answers_behind(
    alloc: Global,
    judge: &OpenJudge,
    rule: Rule<'_>,
    answer: Answer,
) -> Result<Answer, Failure>
    requires open { IsOpen judge.now }
    requires rule { IsRuleOf judge.now rule }
    ensures { MatchResult result (TellsAlso judge.now answer) (IsFullRefused judge.now) }
{
    let full = full_answers_of(alloc, judge, rule)?;
    let text = full_text(alloc, &full, judge.command.judged.json)?;
    let told = followed_by(answer, text)?;
    Ok(told)
}

fn are_asked(judge: &OpenJudge, answer: &Answer) -> bool
    ensures { result ≡ are_asked judge.now answer.now }
{
    judge.command.answers && answer.status == 0
}

/// What the routine comes to on the full images of all moments of the events.
fn full_answers_of(alloc: Global, judge: &OpenJudge, rule: Rule<'_>) -> Result<FullAnswers, Failure>
    requires open { IsOpen judge.now }
    requires rule { IsRuleOf judge.now rule }
    ensures { MatchResult result (AreFullAnswers (view_asked judge.now)) (IsRefused judge.now 0) }
{
    let medium = judge.events.medium();
    let trace = judge.events.trace();
    let judgement = judgement(judge, rule);
    let full = full_answers(alloc, medium, trace, judgement)?;
    Ok(full)
}

/// The answer with a text behind it.
fn followed_by(answer: Answer, text: String) -> Result<Answer, AllocError>
    ensures { IfOk result (λ told. (told.text.items ≡ answer.text.items ++ string_bytes text) × (told.status ≡ answer.status)) }
{
    let Answer {
        text: mut bytes,
        status,
    } = answer;
    bytes.extend_from_slice(text.as_bytes())?;
    Ok(Answer {
        text: bytes,
        status,
    })
}

fn full_text(alloc: Global, full: &FullAnswers, json: bool) -> Result<String, AllocError>
    ensures { IfOk result (λ text. string_bytes text ≡ full_text json full.now) }
{
    let last = shown_last(alloc, &full.last, json)?;
    let different = full.given.len();
    if json {
        answers_object(alloc, different, last.as_str())
    } else {
        answers_line(alloc, different, last.as_str())
    }
}

/// An answer, or why there is none.
fn shown_last(
    alloc: Global,
    last: &Result<RecoveryAnswer, RunCause>,
    json: bool,
) -> Result<String, AllocError>
    ensures { IfOk result (λ text. string_bytes text ≡ shown_last json last.now) }
{
    match last {
        Ok(answer) => shown_answer(alloc, answer.bytes(), json),
        Err(cause) => shown_cause(alloc, *cause, json),
    }
}

fn shown_answer(alloc: Global, answer: &[u8], json: bool) -> Result<String, AllocError>
    ensures { IfOk result (λ text. string_bytes text ≡ shown_answer json answer.now) }
{
    if json {
        bytes_members(alloc, answer)
    } else {
        answer_text(alloc, answer)
    }
}

fn shown_cause(alloc: Global, cause: RunCause, json: bool) -> Result<String, AllocError>
    ensures { IfOk result (λ text. string_bytes text ≡ shown_cause json cause) }
{
    let word = missing_text(alloc, cause)?;
    if json {
        cause_member(alloc, word.as_str())
    } else {
        Ok(word)
    }
}
