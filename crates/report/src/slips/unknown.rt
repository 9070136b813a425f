//! Names that other assemblers and instruction sets have, and what stands for them here.
//!
//! Source: RISC-V Unprivileged ISA 20191213, chapters 7 and 25; the directives of the GNU assembler.

ghost use Rattle.report.specs.SlipUnknown.{instead_in, instead_of, texts_of};
ghost use Rattle.std.specs.Prelude.{◌≡◌};

static OTHERS: [(&[u8], &str); 30] = [
    (b"lla", "use la"),
    (b"call", "use jal"),
    (b"tail", "use j"),
    (b".align", "use .balign, with a number of bytes"),
    (b".p2align", "use .balign, with a number of bytes"),
    (b".globl", "leave it out"),
    (b".global", "leave it out"),
    (b".equ", "write the number itself"),
    (b".set", "write the number itself"),
    (b".section", "use .text or .data"),
    (b".quad", "use .dword"),
    (b".long", "use .word"),
    (b".int", "use .word"),
    (b".short", "use .half"),
    (b".space", "use .zero"),
    (b".skip", "use .zero"),
    (b".string", "use .byte, with numbers"),
    (b".ascii", "use .byte, with numbers"),
    (b".asciz", "use .byte, with numbers"),
    (b"mul", "of extension M, which isn't there"),
    (b"mulh", "of extension M, which isn't there"),
    (b"mulw", "of extension M, which isn't there"),
    (b"div", "of extension M, which isn't there"),
    (b"divu", "of extension M, which isn't there"),
    (b"divw", "of extension M, which isn't there"),
    (b"rem", "of extension M, which isn't there"),
    (b"remu", "of extension M, which isn't there"),
    (b"remw", "of extension M, which isn't there"),
    (b"clwb", "use cbo.clean"),
    (b"sfence", "use fence w, w"),
];

/// What to write in place of a name that another assembler has; nothing where it isn't one of them.
#[tactic(auto, unfolding(crate::specs::SlipUnknown::instead_of, crate::specs::SlipUnknown::others))]
pub(crate) fn instead_of(name: &[u8]) -> &'static str
    ensures { result.now ≡ instead_of name.now }
{
    instead_in(&OTHERS, name)
}

fn instead_in(rows: &[(&[u8], &'static str)], name: &[u8]) -> &'static str
    ensures { result.now ≡ instead_in (texts_of rows.now) name.now }
{
    for row in rows {
        if name == row.0 {
            return row.1;
        }
    }
    ""
}
