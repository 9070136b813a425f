//! The text of a run's events, read as a trace file; the address of a word.

ghost use Rattle.machine.specs.declared.run_trace.traced_event.TracedEvent.{TracedEvent as ATracedEvent};
ghost use Rattle.elf_file.specs.FunctionSymbols.{FunctionSymbol};
ghost use Rattle.elf_file.specs.SourceRows.{KnownRow};
ghost use Rattle.report.specs.Addresses.{StandsFor};
ghost use Rattle.report.specs.Entries.{HasSizes, entry_of};
ghost use Rattle.report.specs.Events.{trace_text};
ghost use Rattle.report.specs.Places.{KnownOrigin};
ghost use Rattle.std.specs.Prelude.{◌≡◌, ◌≤◌, ℕ, List, All, length, map};
ghost use Rattle.trace_file.specs.Files.{IsTraceFile, lines_of};

/// What is printed of events is the trace file of these events, each with its step, its pc, its line and its function as
/// place words, where they are at most 65,536, of at most 16,384 different lines.
#[tactic(auto, using(crate::proofs::EntryLines::printed))]
pub fn printed_is_a_trace_file()
    ensures { (origins : ℕ → KnownOrigin) (traced : List ATracedEvent) → All (HasSizes origins) traced → length traced ≤ 65536
        → length (lines_of (map (entry_of origins) traced)) ≤ 16384 → IsTraceFile (trace_text origins traced) (map (entry_of origins) traced) }
{}

/// A word stands for one address at most in an executable: a law, with nothing to run.
pub fn one_address()
    ensures { (rows : List KnownRow) (functions : List FunctionSymbol) (word : List ℕ) (address other : ℕ) → StandsFor rows functions word address
        → StandsFor rows functions word other → address ≡ other }
{}
