//! What is told of the power cuts of a failing chain.

ghost use Rattle.command_line.specs.CutReasons.{AreExplained, AreLoaded, Begins, ExplainsChain, HaveFewSteps, IsExplained, IsImageOf, IsOfProgram, IsRecoveryOn, IsToldOf, IsUnexplained, bool_text, chain_told, file_of, front_in, front_of, line_told, lines_told, steps_of_recovery, with_recovery};
ghost use Rattle.command_line.specs.Reasons.{HasFewSteps, told_losses};
ghost use Rattle.crash_test.specs.Origins.{origin_of};
ghost use Rattle.machine.specs.Grammar.{hart_steps};
ghost use Rattle.std.specs.List.{after_first, before_first};
ghost use Rattle.std.specs.Prelude.{◌≡◌, ◌∷◌, ◌++◌, ◌==◌, ◌^◌, ◌<◌, IfErr, IfOk, map, string_bytes};
ghost use Rattle.std.specs.Result.{result_map_both};
ghost use Rattle.std.specs.Str.Lines.{lines};

use crate::failure::Failure;
use crate::reasons::told_losses;
use crash_image::Cuts;
use crash_test::{ExplainedImage, Reader, RoutineReader, explain_losses, places_of, record_run};
use line_memory::Medium;
use machine::{Item, Run, Schedule, Setup, TracedEvent};
use routine_judge::ChainLink;
use std::alloc::{AllocError, Global};
use std::fmt::Write;

/// A power cut of a chain that is explained, and the events of the run in which it comes.
#[derive(Drop)]
pub(crate) struct ExplainedCut {
    pub(crate) traced: Vec<TracedEvent>,
    pub(crate) explained: ExplainedImage,
    /// Whether it comes after the end of the run.
    pub(crate) ended: bool,
}

/// The power cuts of a chain from one on, and the image that each leaves.
#[derive(Drop)]
struct ExplainedCuts {
    images: Vec<Medium>,
    cuts: Vec<ExplainedCut>,
}

/// A recovery routine that runs on an image, and then on those that further power cuts leave.
#[derive(Drop)]
struct ChainReader<'a> {
    routine: &'a RoutineReader<'a>,
    later: &'a [Medium],
}

impl Reader for ChainReader<'_> {
    ghost use Rattle.command_line.specs.CutReasons.{AreLoaded};
    ghost use Rattle.std.specs.Prelude.{◌∷◌};

    ghost reads = { λ s image lines. AreLoaded s.routine.now.program.now s.routine.now.steps (image ∷ s.later.now) lines };

    /// Those of its runs in their order, each line as often as it is asked.
    fn lines_read(&self, alloc: Global, image: &Medium) -> Result<Vec<u32>, AllocError> {
        let first = self.routine.lines_read(alloc, image)?;
        let later = lines_loaded(alloc, self.routine, self.later)?;
        joined(alloc, &first, &later)
    }
}

/// The lines that the routine's runs on these images ask, the first image's first.
fn lines_loaded(
    alloc: Global,
    routine: &RoutineReader<'_>,
    images: &[Medium],
) -> Result<Vec<u32>, AllocError>
    ensures { IfOk result (λ lines. AreLoaded routine.now.program.now routine.now.steps images.now lines.items) }
{
    let [image, later @ ..] = images else {
        return Ok(Vec::new(alloc));
    };
    let first = routine.lines_read(alloc, image)?;
    let others = lines_loaded(alloc, routine, later)?;
    joined(alloc, &first, &others)
}

fn joined(alloc: Global, first: &[u32], others: &[u32]) -> Result<Vec<u32>, AllocError>
    ensures { IfOk result (λ all. all.items ≡ first.now ++ others.now) }
{
    let mut all = Vec::from_slice(alloc, first)?;
    all.extend_from_slice(others)?;
    Ok(all)
}

/// What is told of each power cut of a chain that begins in this run and goes on in the routine's.
pub(crate) fn explained_chain(
    alloc: Global,
    routine: &RoutineReader<'_>,
    run: &Run,
    links: &[ChainLink],
) -> Result<Vec<ExplainedCut>, Failure>
    ensures told { ExplainsChain routine.now.program.now routine.now.steps run.now links.now (result_map_both (λ cuts. cuts.items) (λ failure. failure) result) }
    ensures few { IfOk result (λ cuts. HaveFewSteps cuts.items) }
{
    let [link, further @ ..] = links else {
        return Ok(Vec::new(alloc));
    };
    let left = image_left(alloc, run, link)?;
    let later = explained_cuts(alloc, routine, &left, further)?;
    let all = with_cut(alloc, routine, run, link, left, later)?;
    Ok(all.cuts)
}

/// What is told of power cuts in recovery, the first of them in the routine's run on this image.
#[tactic(auto, using(crate::proofs::Unexplained::memory_unexplained, crate::proofs::Unexplained::step_unexplained, crate::proofs::Unexplained::image_unexplained))]
fn explained_cuts(
    alloc: Global,
    routine: &RoutineReader<'_>,
    before: &Medium,
    links: &[ChainLink],
) -> Result<ExplainedCuts, Failure>
    ensures told { IfOk result (λ all. AreExplained routine.now.program.now routine.now.steps links.now before.now all.images.items all.cuts.items) }
    ensures few { IfOk result (λ all. HaveFewSteps all.cuts.items) }
    ensures err { IfErr result IsUnexplained }
{
    let [link, further @ ..] = links else {
        return Ok(ExplainedCuts {
            images: Vec::new(alloc),
            cuts: Vec::new(alloc),
        });
    };
    let run = recovery_run(alloc, routine, before)?;
    let left = image_left(alloc, &run, link)?;
    let later = explained_cuts(alloc, routine, &left, further)?;
    with_cut(alloc, routine, &run, link, left, later)
}

/// The same with one more in front, which leaves this image.
#[tactic(auto, using(crate::proofs::Unexplained::memory_unexplained, crate::proofs::Unexplained::step_unexplained, crate::proofs::Unexplained::image_unexplained))]
fn with_cut(
    alloc: Global,
    routine: &RoutineReader<'_>,
    run: &Run,
    link: &ChainLink,
    left: Medium,
    later: ExplainedCuts,
) -> Result<ExplainedCuts, Failure>
    requires leaves { IsImageOf run.now link.now left }
    requires few { HaveFewSteps later.cuts.items }
    ensures told { IfOk result (λ all. Begins routine.now.program.now routine.now.steps run.now link.now
        (λ before images cuts. (before ≡ left) × (images ≡ later.images.items) × (cuts ≡ later.cuts.items)) all.images.items all.cuts.items) }
    ensures few { IfOk result (λ all. HaveFewSteps all.cuts.items) }
    ensures err { IfErr result IsUnexplained }
{
    let cut = explained_cut(alloc, routine, run, link, &later.images)?;
    Ok(with_first(left, cut, later)?)
}

fn with_first(
    left: Medium,
    cut: ExplainedCut,
    later: ExplainedCuts,
) -> Result<ExplainedCuts, AllocError>
    ensures images { IfOk result (λ all. all.images.items ≡ left ∷ later.images.items) }
    ensures cuts { IfOk result (λ all. all.cuts.items ≡ cut ∷ later.cuts.items) }
{
    let ExplainedCuts {
        mut images,
        mut cuts,
    } = later;
    images.insert(0, left)?;
    cuts.insert(0, cut)?;
    Ok(ExplainedCuts { images, cuts })
}

/// What is told of one of them, behind which these images are left.
#[tactic(auto, using(crate::proofs::Unexplained::memory_unexplained, crate::proofs::Unexplained::step_unexplained, crate::proofs::Unexplained::image_unexplained))]
fn explained_cut(
    alloc: Global,
    routine: &RoutineReader<'_>,
    run: &Run,
    link: &ChainLink,
    later: &[Medium],
) -> Result<ExplainedCut, Failure>
    ensures told { IfOk result (IsExplained routine.now.program.now routine.now.steps run.now link.now later.now) }
    ensures few { IfOk result (λ cut. HasFewSteps cut.explained) }
    ensures err { IfErr result IsUnexplained }
{
    let reader = ChainReader { routine, later };
    let whole = explain_losses(alloc, run, link.moment, &link.image, &reader)?;
    let traced = run.traced(alloc)?;
    Ok(ExplainedCut {
        traced,
        explained: told_of(alloc, whole, later.is_empty()),
        ended: run.trace().events().len() == link.moment as usize,
    })
}

/// What is told of an image: mends of the last power cut alone, without which all is right.
fn told_of(alloc: Global, whole: ExplainedImage, is_last: bool) -> ExplainedImage
    ensures { IsToldOf is_last whole result }
{
    let mut told = whole;
    if !is_last {
        told.told.read.mends = Vec::new(alloc);
    }
    told
}

/// The routine's run on an image, as a program's.
#[tactic(auto, using(crate::proofs::Unexplained::memory_unexplained, crate::proofs::Unexplained::step_unexplained, crate::proofs::Unexplained::image_unexplained))]
fn recovery_run(alloc: Global, routine: &RoutineReader<'_>, image: &Medium) -> Result<Run, Failure>
    ensures ok { IfOk result (IsRecoveryOn routine.now.program.now routine.now.steps image.now) }
    ensures err { IfErr result IsUnexplained }
{
    let program = routine.program.copy(alloc)?;
    let medium = image.copy(alloc)?;
    let schedule = steps_of_recovery(alloc, routine.steps)?;
    Ok(record_run(alloc, Setup::with_room(program, medium, 1), &schedule)?)
}

/// The schedule `h0*STEPS`.
fn steps_of_recovery(alloc: Global, steps: u32) -> Result<Schedule, AllocError>
    ensures schedule { IfOk result (λ schedule. schedule ≡ steps_of_recovery steps) }
    ensures few { IfOk result (λ schedule. hart_steps schedule < 2 ^ 32) }
{
    let mut schedule = Schedule::new(alloc);
    schedule.push(Item::Steps {
        hart: 0,
        count: steps,
    })?;
    Ok(schedule)
}

/// The image that a power cut of a chain leaves in its run.
#[tactic(auto, using(crate::proofs::Unexplained::memory_unexplained, crate::proofs::Unexplained::step_unexplained, crate::proofs::Unexplained::image_unexplained))]
fn image_left(alloc: Global, run: &Run, link: &ChainLink) -> Result<Medium, Failure>
    ensures ok { IfOk result (IsImageOf run.now link.now) }
    ensures err { IfErr result IsUnexplained }
{
    let cuts = Cuts::at(alloc, run.start(), run.trace(), link.moment)?;
    let cut = cuts.named(alloc, &link.image)?;
    Ok(cuts.image_of(alloc, &cut)?)
}

/// What is printed of the power cuts of a chain, by the files of the program and of recovery.
pub(crate) fn chain_told(
    alloc: Global,
    program: &[u8],
    recovery: &[u8],
    cuts: &[ExplainedCut],
    json: bool,
) -> Result<String, AllocError>
    requires program { IsOfProgram program.now }
    requires recovery { IsOfProgram recovery.now }
    requires few { HaveFewSteps cuts.now }
    ensures { IfOk result (λ text. string_bytes text ≡ chain_told json program.now recovery.now cuts.now) }
{
    let mut text = String::new(alloc);
    for (number, cut) in cuts.iter().enumerate() {
        let file = file_of(program, recovery, number);
        let lines = cut_told(alloc, file, number, cut, json)?;
        text.push_str(lines.as_str())?;
    }
    Ok(text)
}

/// The file of the program, and else that of recovery.
fn file_of<'a>(program: &'a [u8], recovery: &'a [u8], number: usize) -> &'a [u8]
    requires program { IsOfProgram program.now }
    requires recovery { IsOfProgram recovery.now }
    ensures file { result.now ≡ file_of program.now recovery.now number }
    ensures program { IsOfProgram result.now }
{
    if number == 0 { program } else { recovery }
}

/// What is printed of one of them, in the recovery of this number, 0 being the program.
fn cut_told(
    alloc: Global,
    file: &[u8],
    number: usize,
    cut: &ExplainedCut,
    json: bool,
) -> Result<String, AllocError>
    requires file { IsOfProgram file.now }
    requires few { HasFewSteps cut.now.explained }
    ensures { IfOk result (λ text. string_bytes text ≡ lines_told json number cut.now.ended
        (told_losses json (origin_of file.now) cut.now.traced.items cut.now.explained)) }
{
    let places = places_of(alloc, file)?;
    let text = told_losses(alloc, &cut.traced, &cut.explained, &places, json)?;
    lines_told(alloc, text.as_str(), number, cut.ended, json)
}

/// Each line of a text, with the number of the recovery and whether that has ended.
fn lines_told(
    alloc: Global,
    text: &str,
    number: usize,
    ended: bool,
    json: bool,
) -> Result<String, AllocError>
    ensures { IfOk result (λ told. string_bytes told ≡ lines_told json number ended text.now) }
{
    let lines = lines_of(alloc, text)?;
    let mut told = String::new(alloc);
    for line in &lines {
        let line = line_told(alloc, line, number, ended, json)?;
        told.push_str(line.as_str())?;
    }
    Ok(told)
}

fn lines_of(alloc: Global, text: &str) -> Result<Vec<&str>, AllocError>
    ensures { IfOk result (λ found. map (λ line. line.now) found.items ≡ lines text.now) }
{
    text.lines().collect(alloc)
}

fn line_told(
    alloc: Global,
    line: &str,
    number: usize,
    ended: bool,
    json: bool,
) -> Result<String, AllocError>
    ensures { IfOk result (λ told. string_bytes told ≡ line_told json number ended line.now) }
{
    if json {
        with_recovery(alloc, line, number, ended)
    } else {
        let front = front_of(alloc, number, ended)?;
        format!(in alloc; "{front}{line}\n")
    }
}

/// Nothing of the program's power cut, else `in recovery K `, or `after recovery K ` where that has ended.
fn front_of(alloc: Global, number: usize, ended: bool) -> Result<String, AllocError>
    ensures { IfOk result (λ front. string_bytes front ≡ front_of number ended) }
{
    if number == 0 {
        Ok(String::new(alloc))
    } else {
        front_in(alloc, number, ended)
    }
}

fn front_in(alloc: Global, number: usize, ended: bool) -> Result<String, AllocError>
    ensures { IfOk result (λ front. string_bytes front ≡ front_in number ended) }
{
    if ended {
        format!(in alloc; "after recovery {number} ")
    } else {
        format!(in alloc; "in recovery {number} ")
    }
}

/// An object with `"recovery":K,"ended":true` behind its kind.
fn with_recovery(
    alloc: Global,
    object: &str,
    number: usize,
    ended: bool,
) -> Result<String, AllocError>
    ensures { IfOk result (λ told. string_bytes told ≡ with_recovery number ended object.now) }
{
    let (kind, others) = parts(object);
    let ended = bool_text(ended);
    format!(in alloc; "{kind},\"recovery\":{number},\"ended\":{ended},{others}\n")
}

/// What stands before the first comma, and what behind it.
fn parts(object: &str) -> (&str, &str)
    ensures kind { result.0.now ≡ before_first (λ b. b == 44) object.now }
    ensures others { result.1.now ≡ after_first (λ b. b == 44) object.now }
{
    match object.split_once(',') {
        Some((kind, others)) => (kind, others),
        None => (object, ""),
    }
}

fn bool_text(is: bool) -> &'static str
    ensures { result.now ≡ bool_text is }
{
    if is { "true" } else { "false" }
}
