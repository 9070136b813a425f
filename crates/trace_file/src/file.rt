//! Trace files.

ghost use Rattle.std.specs.List.Sorted.{IsStrictlyIncreasing};
ghost use Rattle.std.specs.Prelude.{◌≡◌, ◌≢◌, ◌+◌, ◌<◌, ◌≤◌, List, All, IfErr, IfNone, IfOk, IfSome, length, slice_get, slice_index};
ghost use Rattle.store_trace.specs.TraceView.{NamesLine};
ghost use Rattle.trace_file.specs.Entries.{Entry as AnEntry};
ghost use Rattle.trace_file.specs.Files.{AreAllowed, IsFirstFault, IsTraceFile, lines_of};
ghost use Rattle.trace_file.specs.Kept.{HoldsEntries};
ghost use Rattle.trace_file.specs.Lines.{Has};
ghost use Rattle.trace_file.specs.Ranks.{HasEntries, copies_of, file_text, texts_of};

use crate::fault::{TraceFileCode, TraceFileFault};
use crate::kept::Kept;
use crate::ranks::{rank_of, ranked};
use crate::reader::gather;
use crate::writer::{push_end, push_lines};
use arrayvec::ArrayVec;
use std::alloc::{AllocError, Global};
use std::marker::Model;
use store_trace::{Event, Trace};

/// A trace that was read from a file. Its events name a line by its *rank*, its place among all lines that the file names,
/// upwards, from 0. So what stands on a trace sees a medium of so many lines, whatever their names.
///
/// A contract sees the events, the text of each one's place words, and the names of the lines by their ranks.
#[derive(Drop)]
pub struct TraceFile<'a> {
    trace: Trace,
    places: Vec<&'a [u8]>,
    names: Vec<u32>,
}

/// The events of a trace file apart from its text: they name lines by ranks.
#[derive(Drop)]
pub struct RankedTrace {
    pub trace: Trace,
    /// The lines that the events name, upwards: each at its rank.
    pub names: Vec<u32>,
    /// The place words of each event, each word with a blank behind it.
    pub places: Vec<Vec<u8>>,
}

impl<'a> Model for TraceFile<'a> {
    ghost use Rattle.std.specs.Prelude.{◌≡◌, ◌≤◌, All, length};
    ghost use Rattle.store_trace.specs.TraceView.{NamesLine};
    ghost use Rattle.trace_file.specs.Lines.{IsUpward};
    ghost use Rattle.trace_file.specs.Ranks.{FileView, texts_of};

    ghost Value = { FileView };

    ghost view = { λ f. record { events = f.trace.events; places = texts_of f.places.items; names = f.names.items } };

    ghost invariant = { λ f. IsUpward f.names.items × (length f.names.items ≤ 16384) × (length f.places.items ≡ length f.trace.events)
        × All (NamesLine (length f.names.items)) f.trace.events };
}

/// The file of what was kept, whose lines these are.
#[tactic(auto, using(crate::proofs::Ranking::names_all, crate::proofs::Ranking::are_events, crate::proofs::Ranking::file_holds, crate::proofs::Ranking::as_many, crate::proofs::Ranking::lines_upward, crate::proofs::Ranking::lines_few))]
fn finished<'a>(alloc: Global, kept: Kept<'a>, lines: &[u32]) -> Result<TraceFile<'a>, AllocError>
    requires { (entries : List AnEntry) × AreAllowed entries × (lines.now ≡ lines_of entries) × HoldsEntries entries kept }
    ensures { IfOk result (λ file. (entries : List AnEntry) → AreAllowed entries → lines.now ≡ lines_of entries → HoldsEntries entries kept.entry
        → HasEntries file entries) }
{
    let Kept { events, places } = kept;
    let names = Vec::from_slice(alloc, lines)?;
    let trace = ranked(alloc, lines, &events)?;
    Ok(TraceFile {
        trace,
        places,
        names,
    })
}

/// Texts, each copied.
fn copied(alloc: Global, texts: &[&[u8]]) -> Result<Vec<Vec<u8>>, AllocError>
    ensures texts { IfOk result (λ copies. copies_of copies.items ≡ texts_of texts.now) }
    ensures size { IfOk result (λ copies. length copies.items ≡ length texts.now) }
{
    let mut copies = Vec::new(alloc);
    for text in texts {
        copies.push(Vec::from_slice(alloc, text)?)?;
    }
    Ok(copies)
}

impl<'a> TraceFile<'a> {
    /// The trace file whose text this is. Each line ends at LF: `NUMBER hHART PLACES EVENT` for each event, numbered from 1,
    /// and then `events N`, the number of events. One blank stands between words. A place word is one or more lower-case
    /// letters, `=`, and one or more bytes other than blank and LF; there may be none. An event is `store lL+O wW 0xV`,
    /// `clean lL`, `fence`, `begin K` or `end K`. Numbers are decimal, V lower-case hexadecimal, without needless zeros.
    /// HART is from 0 to 7; L below 2^32; W 1, 2, 4 or 8; O below 64 and a multiple of W; V below 2^(8W); K below 2^64.
    /// There are at most 65,536 events, of at most 16,384 different lines. The place words are lent from the text.
    ///
    /// # Errors
    /// The first line at fault, by its number from 1, with the lowest code of what is wrong with it, as at `TraceFileCode`.
    /// Memory only where the text is a trace file.
    #[tactic(auto, using(crate::proofs::FileLemmas::kept_entries, crate::proofs::FileLemmas::file_read, crate::proofs::FileLemmas::only_entries, crate::proofs::FileLemmas::reads_back, crate::proofs::FileLemmas::not_memory, crate::proofs::FileLemmas::not_a_file, crate::proofs::FileLemmas::out_of_memory))]
    pub fn read(alloc: Global, text: &'a [u8]) -> Result<TraceFile<'a>, TraceFileFault>
        ensures ok { IfOk result (λ file. (entries : List AnEntry) × IsTraceFile text.now entries × HasEntries file entries) }
        ensures only { IfOk result (λ file. (entries : List AnEntry) → IsTraceFile text.now entries → HasEntries file entries) }
        ensures back { IfOk result (λ file. text.now ≡ file_text file) }
        ensures err { IfErr result (λ fault. fault.code ≢ TraceFileCode.Memory → IsFirstFault text.now fault.line fault.code) }
        ensures none { IfErr result (λ fault. fault.code ≢ TraceFileCode.Memory → (entries : List AnEntry) → ¬ (IsTraceFile text.now entries)) }
        ensures memory { IfErr result (λ fault. fault.code ≡ TraceFileCode.Memory
            → (entries : List AnEntry) × IsTraceFile text.now entries × (fault.line ≡ length entries + 1)) }
    {
        let mut lines = ArrayVec::new();
        let (count, kept) = gather(alloc, text, &mut lines)?;
        let refused = TraceFileFault {
            line: count + 1,
            code: TraceFileCode::Memory,
        };
        let Some(kept) = kept else {
            return Err(refused);
        };
        match finished(alloc, kept, lines.as_slice()) {
            Ok(file) => Ok(file),
            Err(_) => Err(refused),
        }
    }

    /// The file's text, with the names of the lines in place of their ranks.
    ///
    /// # Errors
    /// AllocError where a growth is refused.
    pub fn write(&self, alloc: Global) -> Result<Vec<u8>, AllocError>
        ensures { IfOk result (λ text. text.items ≡ file_text self.now) }
    {
        let mut text = Vec::new(alloc);
        let events = self.trace.events();
        push_lines(alloc, &mut text, &self.names, events, &self.places)?;
        push_end(alloc, &mut text, events.len())?;
        Ok(text)
    }

    /// The trace, by ranks of lines.
    pub fn trace(&self) -> &Trace
        ensures events { result.now.events ≡ self.now.events }
        ensures lines { All (NamesLine (length self.now.names)) self.now.events }
    {
        &self.trace
    }

    /// The events, by ranks of lines.
    pub fn events(&self) -> &[Event]
        ensures events { result.now ≡ self.now.events }
        ensures limit { length self.now.events ≤ 65536 }
    {
        self.trace.events()
    }

    /// The place words of an event, each with a blank behind it. Events are numbered from 0 here.
    pub fn place(&self, index: usize) -> &'a [u8]
        requires { index < length self.now.events }
        ensures { slice_get self.now.places index ≡ Some result.now }
    {
        self.places[index]
    }

    /// The different lines that the events name, upwards: each at its rank.
    #[tactic(auto, using(crate::proofs::LineSets::increasing))]
    pub fn names(&self) -> &[u32]
        ensures value { result.now ≡ self.now.names }
        ensures upward { IsStrictlyIncreasing self.now.names }
        ensures few { length self.now.names ≤ 16384 }
    {
        &self.names
    }

    /// The line of a rank.
    pub fn line_name(&self, rank: u32) -> u32
        requires { rank < length self.now.names }
        ensures { result ≡ slice_index self.now.names rank }
    {
        self.names[rank as usize]
    }

    /// The events apart from the text, from which their place words are copied.
    ///
    /// # Errors
    /// AllocError where a growth is refused.
    #[tactic(auto, using(crate::proofs::LineSets::increasing))]
    pub fn into_ranked(self, alloc: Global) -> Result<RankedTrace, AllocError>
        ensures events { IfOk result (λ ranked. ranked.trace.events ≡ self.entry.events) }
        ensures names { IfOk result (λ ranked. ranked.names.items ≡ self.entry.names) }
        ensures places { IfOk result (λ ranked. copies_of ranked.places.items ≡ self.entry.places) }
        ensures lines { All (NamesLine (length self.entry.names)) self.entry.events }
        ensures size { IfOk result (λ ranked. length ranked.places.items ≡ length ranked.trace.events) }
        ensures upward { IsStrictlyIncreasing self.entry.names }
        ensures few { length self.entry.names ≤ 16384 }
    {
        let places = copied(alloc, &self.places)?;
        Ok(RankedTrace {
            trace: self.trace,
            names: self.names,
            places,
        })
    }

    /// The rank of a line, where the file names it.
    pub fn rank_of(&self, line: u32) -> Option<u32>
        ensures some { IfSome result (λ rank. (rank < length self.now.names) × (slice_index self.now.names rank ≡ line)) }
        ensures none { IfNone result (¬ Has self.now.names line) }
    {
        rank_of(&self.names, line)
    }
}
