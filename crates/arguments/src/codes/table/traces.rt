//! Codes of trace files.

ghost use Rattle.std.specs.Prelude.{◌≡◌};
ghost use Rattle.arguments.specs.Codes.{texts_of_rows, traces};

use crate::codes::table::Row;

static TRACES: [Row; 7] = [
    (
        "V1",
        "no line of a trace file",
        "Write an event as `1 h0 at=a.c:30 store l2+0 w8 0x1`, and `events N` at the end: docs/TRACES.md.",
    ),
    (
        "V2",
        "an event whose number isn't the next one, or a last line with another number of events",
        "Number the events from 1 on, and end with `events N`, the number of the last.",
    ),
    (
        "V3",
        "a store that isn't aligned, leaves its cache line, or has too large a value for its width",
        "Split it into stores of 1, 2, 4 or 8 bytes, each at a multiple of its width.",
    ),
    (
        "V4",
        "a trace past a limit: 65,536 events, 8 harts, lines below 2^32, 16,384 different lines, marks below 2^64",
        "Record less of the program: from just before the operations in question to behind them.",
    ),
    (
        "V5",
        "a trace file that ends before `events N`, or goes on behind it",
        "Let the program that writes it run to its end, and write one trace to a file.",
    ),
    (
        "V6",
        "a line on standard input that is no reply to the image that was asked for",
        "Reply `answer` and the answer's bytes in hexadecimal digits, or `none` and a word, and behind either `loads` and the lines loaded.",
    ),
    (
        "V7",
        "standard input that ends before the reply to an image that was asked for",
        "Look why the program that replies ended: it has to reply to each request until it reads the verdict.",
    ),
];

/// The rows of trace files.
#[tactic(auto, unfolding(crate::specs::Codes::traces))]
pub(super) fn rows() -> &'static [Row]
    ensures { texts_of_rows result.now ≡ traces }
{
    &TRACES
}
