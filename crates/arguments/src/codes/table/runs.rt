//! Codes of runs, media and moments.

ghost use Rattle.std.specs.Prelude.{◌≡◌};
ghost use Rattle.arguments.specs.Codes.{runs, texts_of_rows};

use crate::codes::table::Row;

static RUNS: [Row; 10] = [
    (
        "G1",
        "a step of a hart that isn't there",
        "Name harts from 0 on, and give as many as the schedule names by --harts, 1 to 8.",
    ),
    (
        "G2",
        "an eviction of a cache line that isn't there",
        "Cache lines are numbered from 0; the medium's length in bytes is 64 times their number.",
    ),
    (
        "G3",
        "a text that is no schedule",
        "A schedule has items hN, hN*K and eL between blanks: docs/FORMATS.md, \"Schedule\".",
    ),
    (
        "G4",
        "an event more than a run may have",
        "A run has at most 65,536 events: shorten the schedule, or the routine's loops.",
    ),
    (
        "G5",
        "out of memory for an event",
        "Give the program more memory. A session goes on after it.",
    ),
    (
        "G6",
        "a cache of no lines, or of more than 16,384",
        "Give --capacity a number from 1 to 16384.",
    ),
    (
        "B3",
        "what the harts of a run have made doesn't agree",
        "No input asks for this: report it, with the program, the command line and what was printed.",
    ),
    (
        "M3",
        "a medium's file of a wrong length",
        "A medium has 512 to 16,384 whole cache lines of 64 bytes; `truncate -s 32768 FILE` makes one of zeros, `novacrash mkfs` one with a volume.",
    ),
    (
        "C1",
        "a moment past the events of the run",
        "Moments go from 0 to the number of events, which `novacrash replay` prints.",
    ),
    (
        "C2",
        "an image that the moment doesn't have",
        "`novacrash images` counts them. Name lines only between their floors and their stores, and by lines where there are over 65,536.",
    ),
];

/// The rows of runs, media and moments.
#[tactic(auto, unfolding(crate::specs::Codes::runs))]
pub(super) fn rows() -> &'static [Row]
    ensures { texts_of_rows result.now ≡ runs }
{
    &RUNS
}
