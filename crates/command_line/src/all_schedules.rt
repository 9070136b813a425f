//! What is printed of what was found of every schedule of a program, whatever judges a run.

ghost use Rattle.command_line.specs.AllSchedules.{Concludes, IsAnswered, IsOfFile, IsRefused, TellsFinding, TellsOutcome, TellsVerdict, bound_json, bound_line, stuck_line, told_bound, told_by, told_pass, told_run, told_stuck};
ghost use Rattle.command_line.specs.Naming.{named_schedule};
ghost use Rattle.command_line.specs.Reasons.{HasFewSteps};
ghost use Rattle.crash_test.specs.Programs.{IsProgramOf};
ghost use Rattle.std.specs.Prelude.{◌≡◌, ℕ, List, IfOk, IfSome, codes, string_bytes};

use crate::answer::{Answer, Conclusion};
use crate::failure::{Failure, Refusal};
use crate::made_run::MadeRun;
use crate::naming::named_schedule;
use crate::reasons::{told_image, why};
use crate::verdicts::{ToldCause, told_verdict, verdict_status};
use crate::whole::causes_text;
use arguments::JudgedProgram;
use crash_test::{ExplainedImage, Reader};
use every_schedule::{Bound, Finding, Outcome};
use machine::Run;
use std::alloc::{AllocError, Global};
use verdict::Verdict;

/// Why a mark of an operation is wrong.
pub(crate) trait ToldFault: Copy {
    ghost use Rattle.std.specs.Prelude.{◌≡◌};
    ghost use Rattle.command_line.specs.declared.failure.Refusal.{Refusal as ARefusal};

    ghost refused: { Self → ARefusal };

    /// What is refused.
    fn refusal(self) -> Refusal
        ensures { result ≡ refused self };
}

/// What is printed of what was found of the program in a file.
pub(crate) fn conclusion<C: ToldCause, F: ToldFault, R: Reader>(
    alloc: Global,
    judged: &JudgedProgram,
    file: Vec<u8>,
    outcome: Outcome<C, F>,
    reader: &R,
) -> Result<Conclusion, Failure>
    requires { IsOfFile file.items outcome }
    ensures { TellsOutcome (told_by (R.reads reader.now) C.told F.refused) judged.now file outcome result }
{
    let json = judged.json;
    match outcome {
        Outcome::Pass { states, moments } => answered(told_pass(alloc, states, moments, json), 0),
        Outcome::Found { run, finding } => {
            let made = MadeRun { file, run };
            told_finding(alloc, judged, &made, finding, reader)
        }
        Outcome::TooMany(bound) => answered(told_bound(alloc, judged.states, bound, json), 3),
    }
}

/// An answer of a text, where memory for it wasn't refused.
fn answered(text: Result<String, AllocError>, status: u8) -> Result<Conclusion, Failure>
    ensures { (bytes : List ℕ) → IfOk text (λ text. string_bytes text ≡ bytes) → Concludes (IsAnswered bytes status) result }
{
    Ok(Conclusion::Answered(Answer::of(text?, status)))
}

/// What is printed of a run by what is found of it.
fn told_finding<C: ToldCause, F: ToldFault, R: Reader>(
    alloc: Global,
    judged: &JudgedProgram,
    made: &MadeRun,
    finding: Finding<C, F>,
    reader: &R,
) -> Result<Conclusion, Failure>
    requires { IsProgramOf made.now.file.items made.now.run.setup.program }
    ensures { TellsFinding (told_by (R.reads reader.now) C.told F.refused) judged.now made.now finding result }
{
    match finding {
        Finding::Verdict(verdict) => told_fail(alloc, judged, made, &verdict, reader),
        Finding::Refused(fault) => {
            let failure = Failure::Refused(fault.refusal());
            refused(alloc, &made.run, failure, judged.json)
        }
        Finding::NotWhole(causes) => {
            let text = causes_text(alloc, &made.file, &causes)?;
            refused(alloc, &made.run, Failure::Unfinished(text), judged.json)
        }
        Finding::NoWayOut => answered(told_stuck(alloc, &made.run, judged.json), 1),
    }
}

/// The schedule of a run, and the failure on which the run ends.
fn refused(alloc: Global, run: &Run, failure: Failure, json: bool) -> Result<Conclusion, Failure>
    ensures { Concludes (IsRefused (named_schedule json (codes "schedule") run.now.schedule) (λ given. given ≡ failure)) result }
{
    let schedule = schedule_of(alloc, run, json)?;
    Ok(Conclusion::Refused { schedule, failure })
}

/// The schedule of a run, as `schedule ITEMS`.
fn schedule_of(alloc: Global, run: &Run, json: bool) -> Result<String, AllocError>
    ensures { IfOk result (λ text. string_bytes text ≡ named_schedule json (codes "schedule") run.now.schedule) }
{
    named_schedule(alloc, "schedule", run.recorded().schedule(), json)
}

/// `no way out`, and the schedule behind which there is none.
fn told_stuck(alloc: Global, run: &Run, json: bool) -> Result<String, AllocError>
    ensures { IfOk result (λ text. string_bytes text ≡ told_stuck json run.now.schedule) }
{
    let mut text = stuck_line(alloc, json)?;
    let schedule = schedule_of(alloc, run, json)?;
    text.push_str(schedule.as_str())?;
    Ok(text)
}

/// `no way out`, or `{"kind":"no way out"}`.
fn stuck_line(alloc: Global, json: bool) -> Result<String, AllocError>
    ensures { IfOk result (λ text. string_bytes text ≡ stuck_line json) }
{
    if json {
        format!(in alloc; "{{\"kind\":\"no way out\"}}\n")
    } else {
        format!(in alloc; "no way out\n")
    }
}

/// A verdict on a run that isn't a pass; of a failing image what it lacks and keeps, where that is asked for.
fn told_fail<C: ToldCause, R: Reader>(
    alloc: Global,
    judged: &JudgedProgram,
    made: &MadeRun,
    verdict: &Verdict<C>,
    reader: &R,
) -> Result<Conclusion, Failure>
    requires { IsProgramOf made.now.file.items made.now.run.setup.program }
    ensures { TellsVerdict (R.reads reader.now) C.told judged.now made.now verdict.now result }
{
    let why = why(alloc, judged.why, &made.run, verdict, reader)?;
    let text = told_run(alloc, made, verdict, &why, judged.json);
    answered(text, verdict_status(verdict))
}

/// A verdict on a run, its schedule, and what is explained of an image.
fn told_run<C: ToldCause>(
    alloc: Global,
    made: &MadeRun,
    verdict: &Verdict<C>,
    why: &Option<ExplainedImage>,
    json: bool,
) -> Result<String, AllocError>
    requires program { IsProgramOf made.now.file.items made.now.run.setup.program }
    requires few { IfSome why.now HasFewSteps }
    ensures { IfOk result (λ text. string_bytes text ≡ told_run C.told json made.now verdict.now why.now) }
{
    let mut text = told_verdict(alloc, verdict, json)?;
    let schedule = schedule_of(alloc, &made.run, json)?;
    let lines = told_image(alloc, made, why, json)?;
    text.push_str(schedule.as_str())?;
    text.push_str(lines.as_str())?;
    Ok(text)
}

/// So many states were met, and so many of their moments were judged: all pass.
fn told_pass(alloc: Global, states: usize, moments: usize, json: bool) -> Result<String, AllocError>
    ensures { IfOk result (λ text. string_bytes text ≡ told_pass json states moments) }
{
    if json {
        format!(in alloc; "{{\"kind\":\"pass\",\"states\":{states},\"moments\":{moments}}}\n")
    } else {
        format!(in alloc; "pass states={states} moments={moments}\n")
    }
}

/// The search came to a bound, that of so many states or another.
pub(crate) fn told_bound(
    alloc: Global,
    states: u32,
    bound: Bound,
    json: bool,
) -> Result<String, AllocError>
    ensures { IfOk result (λ text. string_bytes text ≡ told_bound json states bound) }
{
    if json {
        bound_json(alloc, states, bound)
    } else {
        bound_line(alloc, states, bound)
    }
}

/// `{"kind":"too many states","states":N}`, or another bound without a number.
fn bound_json(alloc: Global, states: u32, bound: Bound) -> Result<String, AllocError>
    ensures { IfOk result (λ text. string_bytes text ≡ bound_json states bound) }
{
    match bound {
        Bound::States => {
            format!(in alloc; "{{\"kind\":\"too many states\",\"states\":{states}}}\n")
        }
        Bound::Sequential => format!(in alloc; "{{\"kind\":\"too many sequential\"}}\n"),
        Bound::Steps => format!(in alloc; "{{\"kind\":\"too many steps\"}}\n"),
        Bound::Events => format!(in alloc; "{{\"kind\":\"too many events\"}}\n"),
    }
}

/// `too many states=N`, or another bound without a number.
fn bound_line(alloc: Global, states: u32, bound: Bound) -> Result<String, AllocError>
    ensures { IfOk result (λ text. string_bytes text ≡ bound_line states bound) }
{
    match bound {
        Bound::States => format!(in alloc; "too many states={states}\n"),
        Bound::Sequential => format!(in alloc; "too many sequential\n"),
        Bound::Steps => format!(in alloc; "too many steps\n"),
        Bound::Events => format!(in alloc; "too many events\n"),
    }
}
