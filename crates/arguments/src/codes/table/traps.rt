//! Codes of traps.

ghost use Rattle.std.specs.Prelude.{◌≡◌};
ghost use Rattle.arguments.specs.Codes.{traps, texts_of_rows};

use crate::codes::table::Row;

static TRAPS: [Row; 7] = [
    (
        "T1",
        "the word at pc spells no instruction",
        "Look whether the hart ran past its last instruction (end it by ECALL 93) or into a word that isn't in the table.",
    ),
    (
        "T2",
        "pc lies outside text",
        "A jump or a return went astray: text begins at 0x10000 and has 65,536 bytes.",
    ),
    (
        "T3",
        "a jump or a taken branch to no multiple of four",
        "Look at the register that a jalr jumps by, and at distances written as numbers.",
    ),
    (
        "T4",
        "an access whose address is no multiple of its width",
        "Align the address: a doubleword to eight bytes, a word to four, a half to two.",
    ),
    (
        "T5",
        "an access outside every region",
        "Look at the address: text is at 0x10000, data at 0x100000 and persistent memory at 0x40000000, as long as the medium.",
    ),
    (
        "T6",
        "an ECALL of an unknown number",
        "a7 is 93 for exit, 2001 for the begin and 2002 for the end of operation a0.",
    ),
    (
        "T7",
        "an EBREAK",
        "The hart stops here: take the instruction out to go on.",
    ),
];

/// The rows of traps.
#[tactic(auto, unfolding(crate::specs::Codes::traps))]
pub(super) fn rows() -> &'static [Row]
    ensures { texts_of_rows result.now ≡ traps }
{
    &TRAPS
}
