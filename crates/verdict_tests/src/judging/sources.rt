//! Pieces of sources.

/// A record at 64 with 5 and 5, and the pointer at 0 that names it, both persistent.
pub(crate) const SETUP: &str =
    "li t0, 64\nli t1, 5\nsd t1, 64(a1)\nsd t1, 72(a1)\naddi t2, a1, 64\ncbo.clean (t2)\nsd t0, 0(a1)\ncbo.clean (a1)\nfence w, w\n";

/// Operation 1 begins.
pub(crate) const BEGIN: &str = "li a7, 2001\nli a0, 1\necall\n";

/// A new record at 128 with 6 and 6; its line is cleaned.
pub(crate) const RECORD: &str =
    "li t1, 6\nsd t1, 128(a1)\nsd t1, 136(a1)\naddi t2, a1, 128\ncbo.clean (t2)\n";

pub(crate) const FENCE: &str = "fence w, w\n";

/// The pointer names the new record; its line is cleaned.
pub(crate) const SWING: &str = "li t0, 128\nsd t0, 0(a1)\ncbo.clean (a1)\n";

/// The operation that began last ends.
pub(crate) const END: &str = "li a7, 2002\necall\n";

/// The hart ends.
pub(crate) const EXIT: &str = "li a7, 93\nli a0, 0\necall\n";

/// A record that is replaced: the new one is persistent before the pointer moves.
pub(crate) const REPLACED: &[&str] = &[SETUP, BEGIN, RECORD, FENCE, SWING, FENCE, END, EXIT];

/// Its new record may come to the medium after the pointer.
pub(crate) const RECORD_UNFENCED: &[&str] = &[SETUP, BEGIN, RECORD, SWING, FENCE, END, EXIT];

/// Loads both words of the record that the pointer names.
pub(crate) const WORDS: &str = "ld t0, 0(a1)\nadd t0, a1, t0\nld t1, 0(t0)\nld t2, 8(t0)\n";

/// They are the answer.
pub(crate) const ANSWER: &str =
    "lui a1, 256\nsd t1, 0(a1)\nsd t2, 8(a1)\nli a2, 16\nli a7, 93\nli a0, 0\necall\n";

pub(crate) const READ: &[&str] = &[WORDS, ANSWER];

/// The answer has no bytes.
pub(crate) const SILENT: &[&str] = &["li a2, 0\nli a7, 93\nli a0, 0\necall\n"];

/// Stores to the lines 1 to 17, of which none is cleaned.
pub(crate) const FILLED: &[&str] = &[
    BEGIN,
    "li t0, 17\naddi t1, a1, 64\nfill:\nsd t0, 0(t1)\naddi t1, t1, 64\naddi t0, t0, -1\nbnez t0, fill\nebreak\n",
];

/// Loads from these lines, and has an answer of no bytes.
pub(crate) const LINES: &[&str] = &[
    "li t0, 17\nnext:\naddi a1, a1, 64\nld t1, 0(a1)\naddi t0, t0, -1\nbnez t0, next\n",
    "li a2, 0\nli a7, 93\nli a0, 0\necall\n",
];
