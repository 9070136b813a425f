//! A text has one reading at most, and names of lines change nothing but names: laws, with nothing to run.

ghost use Rattle.std.specs.List.Sorted.{IsStrictlyIncreasing};
ghost use Rattle.std.specs.Prelude.{◌≡◌, ◌<◌, ℕ, List, All, length, map, slice_index};
ghost use Rattle.store_trace.specs.Cut.{cuts};
ghost use Rattle.store_trace.specs.Floor.{floor};
ghost use Rattle.store_trace.specs.History.{history};
ghost use Rattle.store_trace.specs.Image.{line_after};
ghost use Rattle.store_trace.specs.TraceView.{NamesLine};
ghost use Rattle.store_trace.specs.declared.event.Event.{Event as AnEvent};
ghost use Rattle.trace_file.specs.Entries.{Entry as AnEntry};
ghost use Rattle.trace_file.specs.Files.{IsFirstFault, IsTraceFile};
ghost use Rattle.trace_file.specs.Ranks.{named};
ghost use Rattle.trace_file.specs.Renamed.{named_entry};
ghost use Rattle.trace_file.specs.declared.fault.TraceFileCode.{TraceFileCode as ACode};

/// A text is the trace file of one list of entries at most, a trace file has no fault, and no text has two first faults.
#[tactic(auto, using(crate::proofs::OneReading::one_file, crate::proofs::OneReading::no_fault, crate::proofs::OneFault::one_fault))]
pub fn one_reading()
    ensures entries { (text : List ℕ) (entries other : List AnEntry) → IsTraceFile text entries → IsTraceFile text other → entries ≡ other }
    ensures no_fault { (text : List ℕ) (entries : List AnEntry) (line : ℕ) (code : ACode) → IsTraceFile text entries → ¬ (IsFirstFault text line code) }
    ensures one_fault { (text : List ℕ) (line other : ℕ) (code another : ACode) → IsFirstFault text line code → IsFirstFault text other another
        → (line ≡ other) × (code ≡ another) }
{}

/// With the names of lines in place of their ranks, floors stay, and so do the bytes of a line after a number of its
/// stores. The cuts are the same, in the same order, up to the names.
#[tactic(auto, using(crate::proofs::Renaming::floors_by_rank, crate::proofs::Renaming::cuts_by_rank, crate::proofs::Renaming::lines_by_rank))]
pub fn names_keep_crash_states()
    ensures floors { (names : List ℕ) (events : List AnEvent) → IsStrictlyIncreasing names → All (NamesLine (length names)) events → (rank : ℕ) → rank < length names
        → floor (slice_index names rank) (history (map (named names) events)) ≡ floor rank (history events) }
    ensures cuts { (names : List ℕ) (events : List AnEvent) → IsStrictlyIncreasing names → All (NamesLine (length names)) events
        → cuts (history (map (named names) events)) ≡ map (map (named_entry names)) (cuts (history events)) }
    ensures lines { (names : List ℕ) (events : List AnEvent) → IsStrictlyIncreasing names → All (NamesLine (length names)) events → (start : List ℕ) (rank k : ℕ)
        → rank < length names → line_after start (slice_index names rank) k (history (map (named names) events)) ≡ line_after start rank k (history events) }
{}
