//! The command that judges the events of a trace file by answers that it asks for on the standard streams.

ghost use Rattle.arguments.specs.Spans.{IsUpward};
ghost use Rattle.command_line.specs.Answered.{PrintsVerdict};
ghost use Rattle.command_line.specs.Asking.{FailsReply, FindsVerdict, GivesReply, IsAllOf, IsNamedCut, IsOpenAsk, JudgesAsked, NamesWhy, OpensAsk, TellsVerdict, named_entry, named_image, named_kept, named_lost, named_mend, named_verdict, names_of, outside_text};
ghost use Rattle.command_line.specs.Reasons.{HasFewSteps};
ghost use Rattle.command_line.specs.Traces.{HasPlaces, events_of, medium_of, name_in};
ghost use Rattle.command_line.specs.Verdicts.{told_verdict};
ghost use Rattle.routine_judge.specs.MarkFaults.{AreSound};
ghost use Rattle.routine_judge.specs.declared.history.overlap.Overlap.TheVariants.{Never};
ghost use Rattle.std.specs.Prelude.{◌≡◌, ◌≢◌, ◌≤◌, ◌++◌, [], IfErr, IfOk, IfSome, codes, length, map, string_bytes, take};
ghost use Rattle.std.specs.Str.Lossy.{utf8_lossy};
ghost use Rattle.store_trace.specs.Marks.{begun};

use crate::answer::Answer;
use crate::events::OpenEvents;
use crate::failure::Failure;
use crate::files::Files;
use crate::image::{OpenStart, start_trace};
use crate::judge::{judges_none, note_none};
use crate::opened::OpenAsk;
use crate::reasons::{told_why, why_of};
use crate::replying::read_reply;
use crate::requesting::request_text;
use crate::streams::print;
use crate::verdicts::{
    bounds, told_fail, told_open, told_pass, told_too_long, told_too_many, verdict_status,
};
use arguments::AskCommand;
use crash_test::{ExplainedImage, Reader, ToldImage};
use durability::{Kept, Lost, Mend, ToldCut};
use line_memory::Medium;
use routine_judge::{Answering, OutsideCause, OutsideFault, OutsideRun, Reply, Verdict, Wanted};
use std::alloc::{AllocError, Global};
use std::io::{Read, Write};
use std::thread::Threads;
use text::{Cut, ImageName};

/// `judge --ask`: reads a trace file, and the lines of a medium that it names.
pub(crate) fn open_ask<F: Files>(
    alloc: Global,
    command: AskCommand,
    files: &mut F,
) -> Result<OpenAsk, Failure>
    requires { IfSome command.moments IsUpward }
    ensures opens { OpensAsk F.read_gives command files.old result files.new }
    ensures ready { IfOk result IsOpenAsk }
{
    let start = start_trace(alloc, &command.events, files)?;
    let OpenStart {
        events,
        bytes: _bytes,
    } = start;
    Ok(OpenAsk { command, events })
}

/// Standard output, which gets the requests for images, and standard input, which has the replies.
#[derive(Drop)]
struct Session<'a, R, W> {
    alloc: Global,
    events: &'a OpenEvents,
    input: &'a mut R,
    output: &'a mut W,
    ghost few: { length (names_of events.now) ≤ 16384 },
}

impl<'a, R: Read, W: Write> Session<'a, R, W> {
    fn new(
        alloc: Global,
        events: &'a OpenEvents,
        input: &'a mut R,
        output: &'a mut W,
    ) -> Session<'a, R, W>
        requires { length (names_of events.now) ≤ 16384 }
        ensures events { result.events.now ≡ events.now }
        ensures input { (result.input.ghost_name ≡ input.entry.ghost_name) × (result.input.now ≡ input.old) }
        ensures output { (result.output.ghost_name ≡ output.entry.ghost_name) × (result.output.now ≡ output.old) }
    {
        Session {
            alloc,
            events,
            input,
            output,
        }
    }
}

impl<R: Read, W: Write> Answering for Session<'_, R, W> {
    ghost use Rattle.command_line.specs.Asking.{FailsReply, GivesReply};
    ghost use Rattle.std.specs.Prelude.{◌≡◌};

    type Fault = Failure;

    ghost gives = { λ old wanted reply new. (new.input.ghost_name ≡ old.input.ghost_name) × (new.output.ghost_name ≡ old.output.ghost_name)
        × (new.events.now ≡ old.events.now)
        × GivesReply old.events.now (R.remaining old.input.now, W.contents old.output.now) wanted reply (R.remaining new.input.now, W.contents new.output.now) };

    ghost fails = { λ old wanted failure new. (new.input.ghost_name ≡ old.input.ghost_name) × (new.output.ghost_name ≡ old.output.ghost_name)
        × (new.events.now ≡ old.events.now)
        × FailsReply old.events.now (R.remaining old.input.now, W.contents old.output.now) wanted failure (R.remaining new.input.now, W.contents new.output.now) };

    fn answer(&mut self, wanted: &Wanted<'_, '_>) -> Result<Reply, Failure> {
        let request = request_text(self.alloc, self.events, wanted)?;
        match print(request.as_bytes(), self.output) {
            Ok(()) => {}
            Err(_) => return Err(Failure::File),
        }
        let names = first_names(self.events.names(), wanted.lines());
        read_reply(self.alloc, names, self.input)
    }
}

/// The first of these names, as many as there are lines.
fn first_names(names: &[u32], lines: u32) -> &[u32]
    ensures { result.now ≡ take lines names.now }
{
    let lines = lines as usize;
    if names.len() > lines {
        &names[..lines]
    } else {
        names
    }
}

/// Gives the verdict on the events, by replies on images that are asked for in turn. Where no moment is judged, standard error gets a line that
/// says so.
pub(crate) fn judge_asked<T: Threads + Sync, R: Read, W: Write, E: Write>(
    rt: &T,
    alloc: Global,
    ask: &OpenAsk,
    input: &mut R,
    output: &mut W,
    errors: &mut E,
) -> Result<Answer, Failure>
    requires { IsOpenAsk ask.now }
    ensures { JudgesAsked E.contents ask.now (R.remaining input.old, W.contents output.old) (R.remaining input.new, W.contents output.new) errors.old result errors.new }
{
    let verdict = find_verdict(rt, alloc, ask, input, output)?;
    tell_verdict(alloc, ask, &verdict, errors)
}

fn find_verdict<T: Threads + Sync, R: Read, W: Write>(
    rt: &T,
    alloc: Global,
    ask: &OpenAsk,
    input: &mut R,
    output: &mut W,
) -> Result<Verdict<OutsideCause>, Failure>
    requires { IsOpenAsk ask.now }
    ensures { FindsVerdict ask.now (R.remaining input.old, W.contents output.old) (R.remaining input.new, W.contents output.new) result }
{
    let run = OutsideRun::new(alloc, ask.events.medium(), ask.events.trace())?;
    let mut session = Session::new(alloc, &ask.events, input, output);
    judge_by_replies(rt, alloc, ask, &run, &mut session)
}

/// The verdict by the replies of a session.
fn judge_by_replies<T: Threads + Sync, R: Read, W: Write>(
    rt: &T,
    alloc: Global,
    ask: &OpenAsk,
    run: &OutsideRun<'_>,
    session: &mut Session<'_, R, W>,
) -> Result<Verdict<OutsideCause>, Failure>
    requires open { IsOpenAsk ask.now }
    requires start { run.now.start ≡ medium_of ask.now.events }
    requires events { run.now.events ≡ events_of ask.now.events }
    requires sound { AreSound Never (events_of ask.now.events) (length (events_of ask.now.events)) }
    requires begins { begun (events_of ask.now.events) ≢ [] }
    requires told { session.old.events.now ≡ ask.now.events }
    ensures same { (session.new.input.ghost_name ≡ session.old.input.ghost_name) × (session.new.output.ghost_name ≡ session.old.output.ghost_name) }
    ensures finds { FindsVerdict ask.now (R.remaining session.old.input.now, W.contents session.old.output.now)
        (R.remaining session.new.input.now, W.contents session.new.output.now) result }
{
    let (first, last) = bounds(ask.command.moments);
    match run.judge(rt, alloc, first, last, session) {
        Ok(verdict) => Ok(verdict),
        Err(OutsideFault::Judge(fault)) => Err(Failure::from(fault)),
        Err(OutsideFault::Answer(failure)) => Err(failure),
    }
}

/// What is told of a verdict, on standard error too where no moment is judged.
fn tell_verdict<E: Write>(
    alloc: Global,
    ask: &OpenAsk,
    verdict: &Verdict<OutsideCause>,
    errors: &mut E,
) -> Result<Answer, Failure>
    requires { IsOpenAsk ask.now }
    ensures { TellsVerdict E.contents ask.now verdict.now errors.old result errors.new }
{
    let why = why_of(alloc, ask.command.why, &ask.events, verdict, &AllLines)?;
    let named = named_why(alloc, &ask.events, why)?;
    let answer = asked_answer(alloc, ask, verdict, &named)?;
    let _ = note_none(judges_none(verdict), errors);
    Ok(answer)
}

/// A recovery of which it isn't known what it reads.
#[derive(Drop)]
struct AllLines;

impl Reader for AllLines {
    ghost use Rattle.command_line.specs.Asking.{IsAllOf};

    ghost reads = { λ _ image lines. IsAllOf image lines };

    fn lines_read(&self, alloc: Global, image: &Medium) -> Result<Vec<u32>, AllocError> {
        (0..image.lines()).collect(alloc)
    }
}

/// What an image lacks and keeps, by the names of its lines.
fn named_why(
    alloc: Global,
    events: &OpenEvents,
    why: Option<ExplainedImage>,
) -> Result<Option<ExplainedImage>, Failure>
    requires few { IfSome why HasFewSteps }
    ensures names { NamesWhy (name_in events.now) why result }
    ensures few { IfOk result (λ named. IfSome named HasFewSteps) }
{
    match why {
        Some(explained) => {
            let ExplainedImage { told, schedule } = explained;
            let read = named_cut(alloc, events, &told.read)?;
            let unread = told.unread;
            let told = ToldImage { read, unread };
            Ok(Some(ExplainedImage { told, schedule }))
        }
        None => Ok(None),
    }
}

fn named_cut(alloc: Global, events: &OpenEvents, told: &ToldCut) -> Result<ToldCut, AllocError>
    ensures { IfOk result (IsNamedCut (name_in events.now) told.now) }
{
    let lost = named_losses(alloc, events, &told.lost)?;
    let kept = named_keeps(alloc, events, &told.kept)?;
    let mends = named_mends(alloc, events, &told.mends)?;
    Ok(ToldCut { lost, kept, mends })
}

fn named_losses(alloc: Global, events: &OpenEvents, lost: &[Lost]) -> Result<Vec<Lost>, AllocError>
    ensures { IfOk result (λ named. named.items ≡ map (named_lost (name_in events.now)) lost.now) }
{
    let mut named = Vec::new(alloc);
    for one in lost {
        let line = events.line_name(one.line);
        named.push(Lost { line, ..*one })?;
    }
    Ok(named)
}

fn named_keeps(alloc: Global, events: &OpenEvents, kept: &[Kept]) -> Result<Vec<Kept>, AllocError>
    ensures { IfOk result (λ named. named.items ≡ map (named_kept (name_in events.now)) kept.now) }
{
    let mut named = Vec::new(alloc);
    for one in kept {
        let line = events.line_name(one.line);
        named.push(Kept { line, ..*one })?;
    }
    Ok(named)
}

fn named_mends(alloc: Global, events: &OpenEvents, mends: &[Mend]) -> Result<Vec<Mend>, AllocError>
    ensures { IfOk result (λ named. named.items ≡ map (named_mend (name_in events.now)) mends.now) }
{
    let mut named = Vec::new(alloc);
    for mend in mends {
        named.push(named_mend(events, *mend))?;
    }
    Ok(named)
}

fn named_mend(events: &OpenEvents, mend: Mend) -> Mend
    ensures { result ≡ named_mend (name_in events.now) mend }
{
    match mend {
        Mend::CleanAndFence {
            line,
            behind,
            deadline,
        } => Mend::CleanAndFence {
            line: events.line_name(line),
            behind,
            deadline,
        },
        other => other,
    }
}

/// What is printed of the verdict, by the names of the events' lines, and its status.
#[tactic(auto, using(crate::proofs::Asked::same_status))]
fn asked_answer(
    alloc: Global,
    ask: &OpenAsk,
    verdict: &Verdict<OutsideCause>,
    why: &Option<ExplainedImage>,
) -> Result<Answer, Failure>
    requires open { IsOpenAsk ask.now }
    requires few { IfSome why.now HasFewSteps }
    ensures { PrintsVerdict outside_text ask.now.command.json ask.now.events (named_verdict (name_in ask.now.events) verdict.now) why.now result }
{
    let json = ask.command.json;
    let mut text = verdict_text(alloc, &ask.events, verdict, json)?;
    let lines = told_why(alloc, &ask.events, why, json)?;
    text.push_str(lines.as_str())?;
    Ok(Answer::of(text, verdict_status(verdict)))
}

fn verdict_text(
    alloc: Global,
    events: &OpenEvents,
    verdict: &Verdict<OutsideCause>,
    json: bool,
) -> Result<String, AllocError>
    ensures { IfOk result (λ text. string_bytes text ≡ told_verdict outside_text json (named_verdict (name_in events.now) verdict.now)) }
{
    match verdict {
        Verdict::Pass { moments, images } => told_pass(alloc, *moments, *images, json),
        Verdict::Open {
            moments,
            images,
            open,
        } => told_open(alloc, *moments, *images, *open, json),
        Verdict::Fail {
            moment,
            image,
            cause,
            of_too_many,
        } => {
            let image = named_image(alloc, events, image)?;
            let cause = outside_text(alloc, cause)?;
            told_fail(alloc, *moment, &image, cause.as_str(), *of_too_many, json)
        }
        Verdict::TooMany { moment, .. } => told_too_many(alloc, *moment, &None, json),
        Verdict::TooLong { moment } => told_too_long(alloc, *moment, json),
    }
}

/// The name of an image by the names of its lines.
fn named_image(
    alloc: Global,
    events: &OpenEvents,
    image: &ImageName,
) -> Result<ImageName, AllocError>
    ensures { IfOk result (λ name. name ≡ named_image (name_in events.now) image.now) }
{
    match image {
        ImageName::Number(number) => Ok(ImageName::Number(*number)),
        ImageName::Cut(cut) => {
            let entries = named_entries(alloc, events, cut.entries())?;
            Ok(ImageName::Cut(Cut::from_entries(entries)))
        }
    }
}

fn named_entries(
    alloc: Global,
    events: &OpenEvents,
    entries: &[(u32, u32)],
) -> Result<Vec<(u32, u32)>, AllocError>
    ensures { IfOk result (λ named. named.items ≡ map (named_entry (name_in events.now)) entries.now) }
{
    let mut named = Vec::new(alloc);
    for entry in entries {
        named.push((events.line_name(entry.0), entry.1))?;
    }
    Ok(named)
}

/// `different`, the word for why recovery has no answer, or `full-` and the word for why it has none that says what is right.
fn outside_text(alloc: Global, cause: &OutsideCause) -> Result<String, AllocError>
    ensures { IfOk result (λ text. string_bytes text ≡ outside_text cause.now) }
{
    match cause {
        OutsideCause::Missing(word) => String::from_utf8_lossy(alloc, word),
        OutsideCause::Different => format!(in alloc; "different"),
        OutsideCause::Full(word) => full_text(alloc, word),
    }
}

fn full_text(alloc: Global, word: &[u8]) -> Result<String, AllocError>
    ensures { IfOk result (λ text. string_bytes text ≡ codes "full-" ++ utf8_lossy word.now) }
{
    let word = String::from_utf8_lossy(alloc, word)?;
    format!(in alloc; "full-{word}")
}
