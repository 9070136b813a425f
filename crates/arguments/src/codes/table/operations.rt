//! Codes of operations and sessions.

ghost use Rattle.std.specs.Prelude.{◌≡◌};
ghost use Rattle.arguments.specs.Codes.{operations, texts_of_rows};

use crate::codes::table::Row;

static OPERATIONS: [Row; 11] = [
    (
        "O1",
        "a mark of an operation that isn't planned",
        "Add the operation to the plan, or look at a0 where the routine begins or ends it.",
    ),
    (
        "O2",
        "an operation that begins a second time",
        "Each operation begins once in a run.",
    ),
    (
        "O3",
        "the end of an operation that isn't pending on this hart",
        "End an operation once, on the hart that began it.",
    ),
    (
        "O4",
        "an operation that shares an inode with a pending one",
        "Operations that overlap must have inodes of their own: end one before the other begins.",
    ),
    (
        "O5",
        "an operation that begins while another one is pending",
        "End one before the other begins, or let `judge` take those of different harts by `--atomic`, or all by `--overlapping`.",
    ),
    (
        "O6",
        "a run in which no operation begins",
        "Mark where operations begin and end by ECALL 2001 and 2002: `judge` judges a run from the first on.",
    ),
    (
        "D1",
        "a line that is no command of the session",
        "The commands are break, watch, clear, step, go, regs, peek and quit: docs/FORMATS.md, \"Session\".",
    ),
    (
        "D2",
        "an address that can't be meant, or a clear of nothing",
        "A breakpoint is a multiple of four in text; a watch, a clear or a peek stays within one region.",
    ),
    ("D3", "a point beside sixty-four others", "Clear one first."),
    (
        "D4",
        "out of memory in a session",
        "Give the program more memory. The session has ended.",
    ),
    (
        "D5",
        "standard input or output that failed in a session",
        "Look at what the program reads from and writes to. The session has ended.",
    ),
];

/// The rows of operations and sessions.
#[tactic(auto, unfolding(crate::specs::Codes::operations))]
pub(super) fn rows() -> &'static [Row]
    ensures { texts_of_rows result.now ≡ operations }
{
    &OPERATIONS
}
