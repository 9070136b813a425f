//! Codes of sources and objects.

ghost use Rattle.std.specs.Prelude.{◌≡◌};
ghost use Rattle.arguments.specs.Codes.{sources, texts_of_rows};

use crate::codes::table::Row;

static SOURCES: [Row; 16] = [
    (
        "A1",
        "a bad token in this source line, or `.` as a label",
        "Tokens are letters, digits, `_`, `.` and the marks `, ( ) : + -`; a decimal number has no needless leading zero.",
    ),
    (
        "A2",
        "no such mnemonic or directive",
        "Look for a slip in the name; mnemonics are in lower case. The tables are in docs/FORMATS.md, \"Assembler source\".",
    ),
    (
        "A3",
        "operands of another shape than the mnemonic's",
        "Compare them with the mnemonic's row in docs/FORMATS.md, \"Assembler source\".",
    ),
    (
        "A4",
        "a name that is no register, or a label spelled as one",
        "Registers are x0 to x31 or their names in the calling convention, as a0 or sp.",
    ),
    (
        "A5",
        "a number or a distance out of its range",
        "Make a larger number by `li` or `lui`, and bring the label nearer to the branch or jump.",
    ),
    (
        "A6",
        "no such label",
        "Define the label, or look for a slip in its name.",
    ),
    (
        "A7",
        "a label a second time",
        "Rename one of the two: a label may stand once in a source.",
    ),
    (
        "A8",
        "a statement in the wrong section",
        "Instructions stand in .text; .byte, .half, .dword, .zero and .balign in .data.",
    ),
    (
        "A9",
        "a source, a text or data past its limit",
        "A source has at most 4,194,304 bytes, text 65,536 and data 1,048,576.",
    ),
    (
        "A10",
        "out of memory while a source was assembled",
        "Give the program more memory.",
    ),
    (
        "P1",
        "a file that begins as no object",
        "An object begins with RVXPROG1; write it by `novacrash asm`. Of C, tools/c/novacrash-cc makes an executable.",
    ),
    (
        "P2",
        "an object that ends too early",
        "The file was cut off, or its header's lengths are wrong: write it again.",
    ),
    (
        "P3",
        "an object whose text or data is past its limit",
        "Text has at most 65,536 bytes and data 1,048,576.",
    ),
    (
        "P4",
        "an object with bytes behind its sections",
        "The header's lengths and the file's length don't agree: write it again.",
    ),
    (
        "P5",
        "an object whose text is no whole number of words",
        "The length of its text must be a multiple of four; compressed instructions aren't taken.",
    ),
    (
        "P6",
        "out of memory while an object was read",
        "Give the program more memory.",
    ),
];

/// The rows of sources and objects.
#[tactic(auto, unfolding(crate::specs::Codes::sources))]
pub(super) fn rows() -> &'static [Row]
    ensures { texts_of_rows result.now ≡ sources }
{
    &SOURCES
}
