//! Codes of ELF files.

ghost use Rattle.std.specs.Prelude.{◌≡◌};
ghost use Rattle.arguments.specs.Codes.{executables, texts_of_rows};

use crate::codes::table::Row;

static EXECUTABLES: [Row; 9] = [
    (
        "E1",
        "an ELF file that ends too early",
        "The file was cut off, or its header's numbers are wrong: link it again.",
    ),
    (
        "E2",
        "an ELF file of another class, byte order or version",
        "Compile for RISC-V of 64 bits, with the low byte first.",
    ),
    (
        "E3",
        "an ELF file for another machine",
        "Use a compiler for RISC-V.",
    ),
    (
        "E4",
        "an ELF file that is no executable at fixed addresses",
        "Link with -static -no-pie.",
    ),
    (
        "E5",
        "an executable with compressed instructions, floating-point registers in calls, or sixteen registers",
        "Compile and link all of it, libraries too, with -march=rv64ia -mabi=lp64.",
    ),
    (
        "E6",
        "an executable that begins at another address than 0x10000",
        "Link it so that `_start` is at 0x10000, text below 0x20000, and data from 0x100000 below 0x200000.",
    ),
    (
        "E7",
        "a segment outside text and data, or one that is copied there from another address",
        "Link it so that `_start` is at 0x10000, text below 0x20000, and data from 0x100000 below 0x200000.",
    ),
    (
        "E8",
        "a segment with more bytes in the file than in memory, or one that begins below the end of the one before it",
        "No linker writes such a file: link it again.",
    ),
    (
        "E9",
        "out of memory while an executable was read",
        "Give the program more memory.",
    ),
];

/// The rows of ELF files.
#[tactic(auto, unfolding(crate::specs::Codes::executables))]
pub(super) fn rows() -> &'static [Row]
    ensures { texts_of_rows result.now ≡ executables }
{
    &EXECUTABLES
}
