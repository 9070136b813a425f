//! Codes of volumes and plans.

ghost use Rattle.std.specs.Prelude.{◌≡◌};
ghost use Rattle.arguments.specs.Codes.{volumes, texts_of_rows};

use crate::codes::table::Row;

static VOLUMES: [Row; 16] = [
    (
        "N1",
        "a medium that begins as no volume",
        "Make it by `novacrash mkfs`; a routine must leave the first eight bytes as they are.",
    ),
    (
        "N2",
        "a count outside its limits, or too few cache lines",
        "Inodes are 1 to 64, pages from the inodes to 240, journals 1 to 8; each page takes 64 cache lines, behind the first 256.",
    ),
    (
        "N3",
        "a journal whose tail isn't its head or up to four past it",
        "Look at the order in which the routine writes the journal's head and tail, and at the fences between.",
    ),
    (
        "N4",
        "a journal's record that names no inode",
        "The record must be durable before the journal's tail takes it in.",
    ),
    (
        "N5",
        "an inode whose log begins at no page",
        "The head of an inode must be a page's offset: 16,384 and 4,096 for each page before.",
    ),
    (
        "N6",
        "a log that ends before its tail is reached",
        "A page's link must be durable before the tail moves past it; or the tail is past what was written.",
    ),
    (
        "N7",
        "a link to no page, or a log that runs in a circle",
        "A link is the offset of a page; look at where the routine writes it.",
    ),
    (
        "N8",
        "an entry of no known kind, within a log",
        "The entry must be cleaned and fenced before the tail moves past it.",
    ),
    (
        "N9",
        "an entry whose name or reserved bytes can't be",
        "All of the entry must be cleaned and fenced before the tail moves past it; docs/FORMATS.md has its bytes.",
    ),
    (
        "N10",
        "out of memory while a volume was read or made",
        "Give the program more memory.",
    ),
    (
        "N11",
        "logs that need more pages than the new volume has",
        "Give `upgrade` more PAGES: a log takes a page for every 31 of its entries, and each inode one at least.",
    ),
    (
        "L1",
        "a line that can't stand here in a plan, or a number out of range",
        "The order is layout (at will), inodes, pages, journals, and then operations: docs/FORMATS.md, \"Plan\".",
    ),
    (
        "L2",
        "an operation's number a second time",
        "Give each operation of the plan a number of its own.",
    ),
    (
        "L3",
        "an inode that isn't there, or a rename within one",
        "Inodes are numbered from 0; a rename takes two of them.",
    ),
    (
        "L4",
        "a name that can't be",
        "A name has 1 to 32 letters, digits, `.`, `_` and `-`; under layout 2 up to 96.",
    ),
    (
        "L5",
        "out of memory while a plan was read",
        "Give the program more memory.",
    ),
];

/// The rows of volumes and plans.
#[tactic(auto, unfolding(crate::specs::Codes::volumes))]
pub(super) fn rows() -> &'static [Row]
    ensures { texts_of_rows result.now ≡ volumes }
{
    &VOLUMES
}
