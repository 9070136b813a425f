//! Words that stand in place of a code.

ghost use Rattle.std.specs.Prelude.{◌≡◌};
ghost use Rattle.arguments.specs.Codes.{texts_of_rows, words};

use crate::codes::table::Row;

static WORDS: [Row; 15] = [
    (
        "pass",
        "every crash image that was judged is good",
        "What it doesn't say is in README.md. The status is 0, and 3 where moments are open.",
    ),
    (
        "fail",
        "this crash image is bad; no earlier moment has a bad one, and this one none of a lower number",
        "Look by `--why` for the stores that it lost and kept. The status is 1.",
    ),
    (
        "open",
        "so many moments of over 65,536 branches, passed over by --go-on, and no bad image elsewhere",
        "Judge them alone by --moments, with fewer lines that are uncertain there. The status is 3.",
    ),
    (
        "too-many",
        "printed `too many`: a moment of over 65,536 branches, or a search past its bound",
        "Clean and fence sooner, or use fewer lines; raise the bound of a search by --states. The status is 3.",
    ),
    (
        "too-long",
        "printed `too long`: a recovery that gives a right answer ran out of its steps",
        "Allow more by --steps. The status is 3.",
    ),
    (
        "not-whole",
        "printed `not whole`: a hart hasn't exited with 0, or an operation hasn't ended, and --whole asks for both",
        "Step each hart to its end in the schedule, and end each operation. The status is 2.",
    ),
    (
        "illegal",
        "the image recovers to a volume, but not to one that the plan may have left",
        "Each operation that ended must be in its logs, each pending one wholly or not at all: look for what a missing clean or fence lost by `explain`.",
    ),
    (
        "different",
        "the recovery routine has answered, and the answer isn't a right one of the moment",
        "Look by `judge --why` for what the image lost and kept: a clean or fence may be missing, or a store may come too early or to a wrong place.",
    ),
    (
        "changed",
        "the recovery routine has answered rightly, but a recovery that had ended before answered otherwise",
        "What recovery shows must be durable when it exits: look by `judge --why` for a missing clean or fence at its end.",
    ),
    (
        "unmatched",
        "no sequential run of the program fits what has begun and ended",
        "Each operation must end where it runs alone: mark no attempt that may fail.",
    ),
    (
        "running",
        "the recovery routine hasn't exited within its steps",
        "Look for a loop that doesn't end, as on a list that has become a circle, or allow more steps by --steps.",
    ),
    (
        "answer",
        "a1 and a2 name no answer where the recovery routine exits",
        "Put the answer's address into a1 and its length into a2: at most 65,536 bytes of data memory, or a length of 0.",
    ),
    (
        "events",
        "the recovery routine's next step would make event 65,537",
        "Let the routine make fewer stores to persistent memory, cleans, fences and marks, or look for a loop that doesn't end.",
    ),
    (
        "memory",
        "out of memory",
        "Give the program more memory, or check a shorter run. The status is 4.",
    ),
    (
        "file",
        "a file or a standard stream that couldn't be read or written",
        "Look at its name, its folder and its permissions. The status is 5.",
    ),
];

/// The rows of these words.
#[tactic(auto, unfolding(crate::specs::Codes::words))]
pub(super) fn rows() -> &'static [Row]
    ensures { texts_of_rows result.now ≡ words }
{
    &WORDS
}
