//! What is told of a verdict on the moments of a run, whatever judges an image.

ghost use Rattle.std.specs.Prelude.{◌≡◌, ◌≤◌, IfOk, IfSome, MatchOption, None, Some, string_bytes};
ghost use Rattle.arguments.specs.Line.{IsJudgedWithin};
ghost use Rattle.arguments.specs.Spans.{IsUpward};
ghost use Rattle.command_line.specs.Answered.{PrintsVerdict};
ghost use Rattle.command_line.specs.Reasons.{HasFewSteps};
ghost use Rattle.command_line.specs.Traces.{HasPlaces};
ghost use Rattle.command_line.specs.Verdicts.{fail_json, fail_line, failing, first_of, last_of, open_json, open_line, pass_json, pass_line, told_fail, told_open, told_pass, told_too_long, told_too_many, told_verdict, too_many_json, too_many_line, total_json, verdict_status};

use crate::answer::Answer;
use crate::events::OpenEvents;
use crate::failure::Failure;
use crate::reasons::told_why;
use arguments::{JudgedRun, Moments};
use crash_test::{ExplainedImage, Work};
use std::alloc::{AllocError, Global};
use text::ImageName;
use verdict::{OpenMoments, Verdict, WidestLines};

/// Why an image is bad.
pub(crate) trait ToldCause: Copy {
    ghost use Rattle.std.specs.Prelude.{◌≡◌, ℕ, List, IfOk, string_bytes};

    ghost told: { Self → List ℕ };

    /// What is told of it behind `cause=`.
    fn text(self, alloc: Global) -> Result<String, AllocError>
        ensures { IfOk result (λ text. string_bytes text ≡ told self) };
}

/// What a command prints of a verdict on events, and of an image that is explained, and its status.
pub(crate) fn verdict_answer<C: ToldCause>(
    alloc: Global,
    events: &OpenEvents,
    verdict: &Verdict<C>,
    why: &Option<ExplainedImage>,
    json: bool,
) -> Result<Answer, Failure>
    requires places { HasPlaces events.now }
    requires few { IfSome why.now HasFewSteps }
    ensures { PrintsVerdict C.told json events.now verdict.now why.now result }
{
    let mut text = told_verdict(alloc, verdict, json)?;
    let lines = told_why(alloc, events, why, json)?;
    text.push_str(lines.as_str())?;
    Ok(Answer::of(text, verdict_status(verdict)))
}

/// The verdict, as text or as JSON.
pub(crate) fn told_verdict<C: ToldCause>(
    alloc: Global,
    verdict: &Verdict<C>,
    json: bool,
) -> Result<String, AllocError>
    ensures { IfOk result (λ text. string_bytes text ≡ told_verdict C.told json verdict.now) }
{
    match verdict {
        Verdict::Pass { moments, images } => told_pass(alloc, *moments, *images, json),
        Verdict::Open {
            moments,
            images,
            open,
        } => told_open(alloc, *moments, *images, *open, json),
        Verdict::Fail {
            moment,
            image,
            cause,
            of_too_many,
        } => {
            let cause = cause.text(alloc)?;
            told_fail(alloc, *moment, image, cause.as_str(), *of_too_many, json)
        }
        Verdict::TooMany { moment, lines } => told_too_many(alloc, *moment, lines, json),
        Verdict::TooLong { moment } => told_too_long(alloc, *moment, json),
    }
}

/// The status on which a verdict ends.
pub(crate) fn verdict_status<C>(verdict: &Verdict<C>) -> u8
    ensures { result ≡ verdict_status verdict.now }
{
    match verdict {
        Verdict::Pass { .. } => 0,
        Verdict::Fail { .. } => 1,
        Verdict::Open { .. } | Verdict::TooMany { .. } | Verdict::TooLong { .. } => 3,
    }
}

/// The moment and the image that are explained: those of a failure, where that is asked for.
pub(crate) fn failing<C>(why: bool, verdict: &Verdict<C>) -> Option<(u32, &ImageName)>
    ensures { MatchOption result (failing why verdict.now ≡ None) (λ found. failing why verdict.now ≡ Some (found.0, found.1.now)) }
{
    match verdict {
        Verdict::Fail { moment, image, .. } if why => Some((*moment, image)),
        _ => None,
    }
}

/// What is judged of a run, and by how many workers.
pub(crate) fn work(judged: &JudgedRun) -> Work
    requires { IsJudgedWithin judged.now }
    ensures first { result.first ≡ first_of judged.now.moments }
    ensures last { result.last ≡ last_of judged.now.moments }
    ensures goes_on { result.goes_on ≡ judged.now.goes_on }
{
    let (first, last) = bounds(judged.moments);
    Work {
        first,
        last,
        workers: judged.workers,
        goes_on: judged.goes_on,
    }
}

/// The first and the last of the moments asked for.
pub(crate) fn bounds(moments: Option<Moments>) -> (u32, Option<u32>)
    requires { IfSome moments IsUpward }
    ensures first { result.0 ≡ first_of moments }
    ensures last { result.1 ≡ last_of moments }
    ensures order { IfSome result.1 (λ last. result.0 ≤ last) }
{
    match moments {
        Some(Moments { first, last }) => (first, last),
        None => (0, None),
    }
}

/// The moments pass.
pub(crate) fn told_pass(
    alloc: Global,
    moments: u64,
    images: Option<u64>,
    json: bool,
) -> Result<String, AllocError>
    ensures { IfOk result (λ text. string_bytes text ≡ told_pass json moments images) }
{
    if json {
        pass_json(alloc, moments, images)
    } else {
        pass_line(alloc, moments, images)
    }
}

/// The moments pass but those that are open.
pub(crate) fn told_open(
    alloc: Global,
    moments: u64,
    images: Option<u64>,
    undecided: OpenMoments,
    json: bool,
) -> Result<String, AllocError>
    ensures { IfOk result (λ text. string_bytes text ≡ told_open json moments images undecided) }
{
    if json {
        open_json(alloc, moments, images, undecided)
    } else {
        open_line(alloc, moments, images, undecided)
    }
}

/// An image of a moment is bad.
pub(crate) fn told_fail(
    alloc: Global,
    moment: u32,
    image: &ImageName,
    cause: &str,
    of_too_many: bool,
    json: bool,
) -> Result<String, AllocError>
    ensures { IfOk result (λ text. string_bytes text ≡ told_fail json moment image.now cause.now of_too_many) }
{
    if json {
        fail_json(alloc, moment, image, cause, of_too_many)
    } else {
        fail_line(alloc, moment, image, cause, of_too_many)
    }
}

/// A moment has over 65,536 branches.
pub(crate) fn told_too_many(
    alloc: Global,
    moment: u32,
    lines: &Option<WidestLines>,
    json: bool,
) -> Result<String, AllocError>
    ensures { IfOk result (λ text. string_bytes text ≡ told_too_many json moment lines.now) }
{
    if json {
        too_many_json(alloc, moment, lines)
    } else {
        too_many_line(alloc, moment, lines)
    }
}

/// What is right at a moment can't be told within the steps that recovery has.
pub(crate) fn told_too_long(alloc: Global, moment: u32, json: bool) -> Result<String, AllocError>
    ensures { IfOk result (λ text. string_bytes text ≡ told_too_long json moment) }
{
    if json {
        format!(in alloc; "{{\"kind\":\"too long\",\"moment\":{moment}}}\n")
    } else {
        format!(in alloc; "too long moment={moment}\n")
    }
}

/// The sum of the numbers of images in JSON; `null` where a moment has over 65,536.
pub(crate) fn total_json(alloc: Global, images: Option<u64>) -> Result<String, AllocError>
    ensures { IfOk result (λ text. string_bytes text ≡ total_json images) }
{
    match images {
        Some(images) => format!(in alloc; "{images}"),
        None => format!(in alloc; "null"),
    }
}

/// `{"kind":"pass","moments":N,"images":N}`.
fn pass_json(alloc: Global, moments: u64, images: Option<u64>) -> Result<String, AllocError>
    ensures { IfOk result (λ text. string_bytes text ≡ pass_json moments images) }
{
    let images = total_json(alloc, images)?;
    format!(in alloc; "{{\"kind\":\"pass\",\"moments\":{moments},\"images\":{images}}}\n")
}

/// The same with `"open":K,"first":M` for the moments that are open.
fn open_json(
    alloc: Global,
    moments: u64,
    images: Option<u64>,
    undecided: OpenMoments,
) -> Result<String, AllocError>
    ensures { IfOk result (λ text. string_bytes text ≡ open_json moments images undecided) }
{
    let OpenMoments { count, first } = undecided;
    let images = total_json(alloc, images)?;
    format!(in alloc;
        "{{\"kind\":\"pass\",\"moments\":{moments},\"images\":{images},\"open\":{count},\"first\":{first}}}\n"
    )
}

/// `{"kind":"fail","moment":M,"image":"NAME","cause":"C"}`, with `"of":"too-many"` where the moment has over 65,536 branches.
fn fail_json(
    alloc: Global,
    moment: u32,
    image: &ImageName,
    cause: &str,
    of_too_many: bool,
) -> Result<String, AllocError>
    ensures { IfOk result (λ text. string_bytes text ≡ fail_json moment image.now cause.now of_too_many) }
{
    let end = if of_too_many {
        "\",\"of\":\"too-many\"}"
    } else {
        "\"}"
    };
    format!(in alloc;
        "{{\"kind\":\"fail\",\"moment\":{moment},\"image\":\"{image}\",\"cause\":\"{cause}{end}\n"
    )
}

/// `{"kind":"too many","moment":M}`, with `"lines":"lN:K,.."` where lines are named.
fn too_many_json(
    alloc: Global,
    moment: u32,
    lines: &Option<WidestLines>,
) -> Result<String, AllocError>
    ensures { IfOk result (λ text. string_bytes text ≡ too_many_json moment lines.now) }
{
    match lines {
        Some(lines) => {
            format!(in alloc;
                "{{\"kind\":\"too many\",\"moment\":{moment},\"lines\":\"{lines}\"}}\n"
            )
        }
        None => format!(in alloc; "{{\"kind\":\"too many\",\"moment\":{moment}}}\n"),
    }
}

/// `pass moments=N images=N`, or `images=over` where a moment has over 65,536.
fn pass_line(alloc: Global, moments: u64, images: Option<u64>) -> Result<String, AllocError>
    ensures { IfOk result (λ text. string_bytes text ≡ pass_line moments images) }
{
    match images {
        Some(images) => format!(in alloc; "pass moments={moments} images={images}\n"),
        None => format!(in alloc; "pass moments={moments} images=over\n"),
    }
}

/// The same with ` open=K first=M` for the moments that are open.
fn open_line(
    alloc: Global,
    moments: u64,
    images: Option<u64>,
    undecided: OpenMoments,
) -> Result<String, AllocError>
    ensures { IfOk result (λ text. string_bytes text ≡ open_line moments images undecided) }
{
    let OpenMoments { count, first } = undecided;
    match images {
        Some(images) => format!(in alloc;
            "pass moments={moments} images={images} open={count} first={first}\n"
        ),
        None => format!(in alloc;
            "pass moments={moments} images=over open={count} first={first}\n"
        ),
    }
}

/// `fail moment=M image=NAME cause=C`, with ` of=too-many` where the moment has over 65,536 branches.
fn fail_line(
    alloc: Global,
    moment: u32,
    image: &ImageName,
    cause: &str,
    of_too_many: bool,
) -> Result<String, AllocError>
    ensures { IfOk result (λ text. string_bytes text ≡ fail_line moment image.now cause.now of_too_many) }
{
    let of = if of_too_many { " of=too-many" } else { "" };
    format!(in alloc; "fail moment={moment} image={image} cause={cause}{of}\n")
}

/// `too many moment=M`, with ` lines=lN:K,..` where lines are named.
fn too_many_line(
    alloc: Global,
    moment: u32,
    lines: &Option<WidestLines>,
) -> Result<String, AllocError>
    ensures { IfOk result (λ text. string_bytes text ≡ too_many_line moment lines.now) }
{
    match lines {
        Some(lines) => format!(in alloc; "too many moment={moment} lines={lines}\n"),
        None => format!(in alloc; "too many moment={moment}\n"),
    }
}
