//! The command that writes a crash image.

ghost use Rattle.command_line.specs.ImageFiles.{AreThere, GivesImage, GivesLines, HasFewNames, HasRankedLines, HasRoom, ImageFile, IsPlaced, IsUnranked, ReadsBytes, StartsBytes, StartsEvents, StartsOver, StartsRun, StartsTrace, ZeroBytes, file_line, rank_in, ranked_entry, ranked_image, ranked_name, with_lines};
ghost use Rattle.command_line.specs.Asking.{names_of};
ghost use Rattle.command_line.specs.Traces.{HasPlaces, IsOpen, events_of, name_in};
ghost use Rattle.std.specs.Prelude.{◌≡◌, ◌+◌, ◌*◌, ◌<◌, ◌≤◌, ◌==◌, ℕ, All, IfErr, IfNone, IfOk, IfSome, length, map, option_map, position, string_bytes};
ghost use Rattle.std.specs.Result.{result_map_both};
ghost use Rattle.crash_test.specs.declared.images.ImageLine.{ImageLine as AnImageLine};
ghost use Rattle.store_trace.specs.TraceView.{NamesLine};

use crate::answer::Answer;
use crate::events::{OpenEvents, OpenTrace, trace_of, zeros_for};
use crate::failure::{Failure, Refusal};
use crate::files::Files;
use crate::made_run::{MadeRun, open_run};
use crate::picture::silence;
use crate::reading::read_file;
use crate::whole::{demand_ended, demand_whole};
use crate::writing::write_file;
use arguments::{EventSource, ImageCommand, ScheduledRun, TracedEvents};
use crash_test::{ImageLine, image_lines};
use line_memory::Medium;
use machine::StepFault;
use std::alloc::{AllocError, Global};
use text::{Cut, ImageName};
use trace_file::RankedTrace;
use word_bits::replace_bytes;

/// How many bytes a line has.
const LINE_SIZE: usize = 64;

/// The bytes of a medium of which no file is named.
const DEFAULT_SIZE: usize = 512 * LINE_SIZE;

/// Events, and the bytes that they start from.
#[derive(Drop)]
pub(crate) struct OpenStart {
    pub(crate) events: OpenEvents,
    pub(crate) bytes: Vec<u8>,
}

/// `image`: reads the files of a program, a schedule and a medium, or a trace file and the bytes that it starts from, and writes the
/// file of one crash image of a moment.
pub(crate) fn image_file<F: Files>(
    alloc: Global,
    command: &ImageCommand,
    files: &mut F,
) -> Result<Answer, Failure>
    ensures { ImageFile F.read_gives F.write_gives command.now files.old result files.new }
{
    let start = start_events(alloc, &command.source, files)?;
    let bytes = image_bytes(alloc, start, command.moment, &command.image)?;
    write_file(command.out.as_str(), &bytes, files)?;
    silence(alloc)
}

fn start_events<F: Files>(
    alloc: Global,
    source: &EventSource,
    files: &mut F,
) -> Result<OpenStart, Failure>
    ensures starts { StartsEvents F.read_gives source.now files.old result files.new }
    ensures open { IfOk result (λ start. IsOpen start.events) }
    ensures room { IfOk result HasRoom }
{
    match source {
        EventSource::Run(run) => start_run(alloc, run, files),
        EventSource::Trace(events) => start_trace(alloc, events, files),
    }
}

fn start_run<F: Files>(
    alloc: Global,
    run: &ScheduledRun,
    files: &mut F,
) -> Result<OpenStart, Failure>
    ensures starts { StartsRun F.read_gives run.now files.old result files.new }
    ensures open { IfOk result (λ start. IsOpen start.events) }
    ensures room { IfOk result HasRoom }
{
    let made = open_run(alloc, run, files)?;
    demand_whole(alloc, run.whole, &made, &[])?;
    over_medium(alloc, made)
}

/// The events of a run, with the bytes of its medium.
#[tactic(auto, using(crate::proofs::RankedLines::medium_room))]
fn over_medium(alloc: Global, made: MadeRun) -> Result<OpenStart, Failure>
    ensures starts { StartsOver made result }
    ensures open { IfOk result (λ start. IsOpen start.events) }
    ensures room { IfOk result HasRoom }
{
    let medium = made.run.start();
    // A medium's lines are whole.
    let _lines = medium.lines();
    let bytes = medium.to_bytes(alloc)?;
    Ok(OpenStart {
        events: OpenEvents::Run(made),
        bytes,
    })
}

/// The events of a trace file, with the bytes of a file that has each line which they name.
pub(crate) fn start_trace<F: Files>(
    alloc: Global,
    events: &TracedEvents,
    files: &mut F,
) -> Result<OpenStart, Failure>
    ensures starts { StartsTrace F.read_gives events.now files.old result files.new }
    ensures open { IfOk result (λ start. IsOpen start.events) }
    ensures room { IfOk result HasRoom }
    ensures places { IfOk result (λ start. HasPlaces start.events) }
    ensures few { IfOk result (λ start. length (names_of start.events) ≤ 16384) }
{
    let text = read_file(events.file.as_str(), files)?;
    let ranked = trace_of(alloc, &text)?;
    demand_ended(alloc, events.whole, &ranked)?;
    let bytes = read_bytes(alloc, &events.medium, files)?;
    over_bytes(alloc, ranked, bytes)
}

/// The bytes of a file, or 512 lines of zeros where none is named.
fn read_bytes<F: Files>(
    alloc: Global,
    name: &Option<String>,
    files: &mut F,
) -> Result<Vec<u8>, Failure>
    ensures { ReadsBytes F.read_gives (option_map string_bytes name.now) files.old (result_map_both (λ bytes. bytes.items) (λ failure. failure) result) files.new }
{
    match name {
        Some(name) => read_file(name.as_str(), files),
        None => zero_bytes(alloc),
    }
}

fn zero_bytes(alloc: Global) -> Result<Vec<u8>, Failure>
    ensures { ZeroBytes (result_map_both (λ bytes. bytes.items) (λ failure. failure) result) }
{
    Ok(vec![in alloc; 0u8; DEFAULT_SIZE]?)
}

/// The events of a trace file over these bytes, which are whole lines and have each line that the events name.
#[tactic(auto, using(crate::proofs::RankedLines::bytes_room))]
fn over_bytes(alloc: Global, ranked: RankedTrace, bytes: Vec<u8>) -> Result<OpenStart, Failure>
    requires lines { All (NamesLine (length ranked.names.items)) ranked.trace.events }
    requires few { length ranked.names.items ≤ 16384 }
    requires size { length ranked.places.items ≡ length ranked.trace.events }
    ensures starts { StartsBytes ranked bytes.items result }
    ensures open { IfOk result (λ start. IsOpen start.events) }
    ensures room { IfOk result HasRoom }
    ensures places { IfOk result (λ start. HasPlaces start.events) }
    ensures few { IfOk result (λ start. length (names_of start.events) ≤ 16384) }
{
    if bytes.len() % LINE_SIZE != 0 {
        return Err(Failure::Refused(Refusal::Medium));
    }
    let medium = ranked_medium(alloc, &ranked.names, &bytes)?;
    Ok(OpenStart {
        events: OpenEvents::Trace(OpenTrace { ranked, medium }),
        bytes,
    })
}

/// A medium that has the lines of these names at their ranks.
fn ranked_medium(alloc: Global, names: &[u32], bytes: &[u8]) -> Result<Medium, Failure>
    requires few { length names.now ≤ 16384 }
    ensures ranked { IfOk result (HasRankedLines names.now bytes.now) }
    ensures room { IfOk result (λ medium. length names.now ≤ length medium) }
    ensures there { IfOk result (λ medium. AreThere names.now (length bytes.now)) }
    ensures err { IfErr result (IsUnranked names.now (length bytes.now)) }
{
    let mut medium = zeros_for(alloc, names.len())?;
    for rank in 0..names.len() {
        let Some(line) = line_of(bytes, names[rank]) else {
            return Err(Failure::Refused(Refusal::Step(StepFault::NoSuchLine)));
        };
        medium.write_line(rank as u32, &line);
    }
    Ok(medium)
}

/// The bytes of a line, where it is there.
fn line_of(bytes: &[u8], line: u32) -> Option<[u8; 64]>
    ensures some { IfSome result (λ found. (found ≡ file_line bytes.now line) × (64 * line + 64 ≤ length bytes.now)) }
    ensures none { IfNone result (length bytes.now < 64 * line + 64) }
{
    let at = LINE_SIZE * line as usize;
    if bytes.len() < at + LINE_SIZE {
        return None;
    }
    let mut found = [0u8; LINE_SIZE];
    found.copy_from_slice(&bytes[at..at + LINE_SIZE]);
    Some(found)
}

/// The bytes of a crash image: those of the start, with the bytes of each stored line in their place.
#[tactic(auto, using(crate::proofs::RankedLines::lines_placed))]
fn image_bytes(
    alloc: Global,
    start: OpenStart,
    moment: u32,
    image: &ImageName,
) -> Result<Vec<u8>, Failure>
    requires open { IsOpen start.events }
    requires room { HasRoom start }
    ensures { GivesImage start moment (ranked_image start.events image.now) (result_map_both (λ bytes. bytes.items) (λ failure. failure) result) }
{
    let OpenStart { events, mut bytes } = start;
    let lines = stored_lines(alloc, &events, moment, image)?;
    put_lines(&events, &mut bytes, &lines);
    Ok(bytes)
}

/// The lines of an image that have a store before the moment, as the events name them. The image is named by the lines of the file.
fn stored_lines(
    alloc: Global,
    events: &OpenEvents,
    moment: u32,
    image: &ImageName,
) -> Result<Vec<ImageLine>, Failure>
    requires open { IsOpen events.now }
    requires few { HasFewNames events.now }
    ensures gives { GivesLines events.now moment (ranked_image events.now image.now) (result_map_both (λ lines. lines.items) (λ failure. failure) result) }
    ensures there { (count : ℕ) → All (NamesLine count) (events_of events.now) → IfOk result (λ lines. All (λ (l : AnImageLine). l.line < count) lines.items) }
{
    match events {
        OpenEvents::Run(_) => {
            let lines = image_lines(alloc, events.medium(), events.trace(), moment, image)?;
            Ok(lines)
        }
        OpenEvents::Trace(open) => {
            let name = ranked_name(alloc, &open.ranked.names, image)?;
            let lines = image_lines(alloc, events.medium(), events.trace(), moment, &name)?;
            Ok(lines)
        }
    }
}

/// The name of an image with the ranks of lines in place of the lines. A line that isn't among these gets a rank that no line has.
pub(crate) fn ranked_name(
    alloc: Global,
    names: &[u32],
    image: &ImageName,
) -> Result<ImageName, AllocError>
    requires { length names.now ≤ 16384 }
    ensures { IfOk result (λ name. name ≡ ranked_name names.now image.now) }
{
    match image {
        ImageName::Number(number) => Ok(ImageName::Number(*number)),
        ImageName::Cut(cut) => {
            let ranked = ranked_entries(alloc, names, cut.entries())?;
            Ok(ImageName::Cut(Cut::from_entries(ranked)))
        }
    }
}

fn ranked_entries(
    alloc: Global,
    names: &[u32],
    entries: &[(u32, u32)],
) -> Result<Vec<(u32, u32)>, AllocError>
    requires { length names.now ≤ 16384 }
    ensures { IfOk result (λ ranked. ranked.items ≡ map (ranked_entry names.now) entries.now) }
{
    let mut ranked = Vec::new(alloc);
    for entry in entries {
        ranked.push((rank_in(names, entry.0), entry.1))?;
    }
    Ok(ranked)
}

/// The rank of a line, and their number where it isn't among these.
fn rank_in(names: &[u32], line: u32) -> u32
    requires { length names.now ≤ 16384 }
    ensures { result ≡ rank_in names.now line }
{
    match place_of(names, line) {
        Some(rank) => rank as u32,
        None => names.len() as u32,
    }
}

/// The place of a line among these.
pub(crate) fn place_of(names: &[u32], line: u32) -> Option<usize>
    ensures place { result ≡ position (λ name. name == line) names.now }
    ensures bound { IfSome result (λ place. place < length names.now) }
{
    names.iter().position(|name| *name == line)
}

/// Puts lines of an image in their places, by the names of the events' lines.
fn put_lines(events: &OpenEvents, bytes: &mut [u8], lines: &[ImageLine])
    requires { All (λ (line : AnImageLine). IsPlaced events.now (length bytes.old) line.line) lines.now }
    ensures { bytes.new ≡ with_lines (name_in events.now) bytes.old lines.now }
{
    for line in lines {
        let name = line_name(events, line.line, bytes.len());
        replace_bytes(bytes, LINE_SIZE * name as usize, &line.bytes);
    }
}

/// The name of a line of events, whose place is among so many bytes.
fn line_name(events: &OpenEvents, line: u32, size: usize) -> u32
    requires { IsPlaced events.now size line }
    ensures name { result ≡ name_in events.now line }
    ensures place { 64 * result + 64 ≤ size }
{
    match events {
        OpenEvents::Run(_) => line,
        OpenEvents::Trace(open) => open.ranked.names[line as usize],
    }
}
