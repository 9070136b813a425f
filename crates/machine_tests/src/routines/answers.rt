//! What routines answer, or why they have no answer, and the bytes of lines that they ask.

ghost use Rattle.std.specs.Prelude.{◌≡◌};

use crate::routines::samples::{Expected, READ, comes_to, image_of, routine_of};
use hart::Trap;
use recovery::{Answer, Cause, Routine};
use std::alloc::Global;
use std::process::Abort;
use std::test::Fail;

/// A source, the numbers of its image, its steps, and what it comes to.
struct Case {
    source: &'static [u8],
    words: &'static [(u32, u64)],
    steps: u32,
    expected: Expected,
}

const OLD: &[(u32, u64)] = &[(0, 64), (64, 5), (72, 5)];

const NEW: &[(u32, u64)] = &[(0, 128), (64, 5), (72, 5), (128, 6), (136, 7)];

/// As `READ`, but it exits with 3, traps or spins where the record begins with 0.
const STRICT: &[u8] =
    b"ld t0, 0(a1)\nadd t0, a1, t0\nld t1, 0(t0)\nld t2, 8(t0)\nli a0, 3\nli a7, 93\nbnez t1, .+8\necall\n";

const TRAP: &[u8] = b"ld t0, 0(a1)\nadd t0, a1, t0\nld t1, 0(t0)\nbnez t1, .+8\nebreak\n";

const SPIN: &[u8] = b"ld t0, 0(a1)\nadd t0, a1, t0\nld t1, 0(t0)\nbeqz t1, .+0\n";

/// A store of its own doesn't end the reservation; an SC does, and one to another line fails.
const CONDITIONAL: &[u8] =
    b"lr.d t0, (a1)\nsd a1, 8(a1)\nli t2, 7\nsc.d t1, t2, (a1)\nsc.d t3, t2, (a1)\nlr.d t4, (a1)\naddi t5, a1, 64\n\
    sc.d t6, t2, (t5)\nlui t0, 256\nsb t1, 0(t0)\nsb t3, 1(t0)\nsb t4, 2(t0)\nsb t6, 3(t0)\nmv a1, t0\nli a2, 4\nli a7, 93\nli a0, 0\necall\n";

/// Atomic operations on the image, and one on data.
const ATOMIC: &[u8] =
    b"li t0, 3\namoadd.d t1, t0, (a1)\namoswap.w t2, t0, (a1)\nlui t4, 256\namoadd.d t5, t0, (t4)\nld t3, 0(a1)\n\
    sb t1, 1(t4)\nsb t2, 2(t4)\nsb t3, 3(t4)\nmv a1, t4\nli a2, 4\nli a7, 93\nli a0, 0\necall\n";

/// Stores to text, data and six lines of the image, loads from seven lines, and answers nine bytes.
const WIDE: &[u8] =
    b"lui t0, 16\nsd a1, 1024(t0)\nlui t1, 256\nli t2, 7\nmv t3, a1\nloop: ld t4, 0(t3)\nsd t2, 0(t3)\naddi t3, t3, 64\n\
    addi t2, t2, -1\nbnez t2, loop\nsb t3, 8(t1)\nmv a1, t1\nli a2, 9\nli a7, 93\nli a0, 0\necall\n";

/// Loads a byte that it has stored: it asks nothing.
const OWN: &[u8] =
    b"li t0, 7\nsb t0, 3(a1)\nlb t1, 3(a1)\nlui a1, 256\nsb t1, 0(a1)\nli a2, 1\nli a7, 93\nli a0, 0\necall\n";

/// Loads eight bytes of which it has stored the lower four: it asks the other four.
const HALF: &[u8] =
    b"li t0, 7\nsw t0, 8(a1)\nld t1, 8(a1)\nlui a1, 256\nsd t1, 0(a1)\nli a2, 8\nli a7, 93\nli a0, 0\necall\n";

/// Stores a byte of a word and loads the word twice; then the last word of the line before, and the last bytes and the second four of lines.
const AGAIN: &[u8] =
    b"li t0, 7\nsb t0, 66(a1)\nld t1, 64(a1)\nld t1, 64(a1)\nld t2, 56(a1)\nlbu t2, 127(a1)\nlh t2, 126(a1)\nlw t2, 4(a1)\n\
    lui a1, 256\nsd t1, 0(a1)\nli a2, 8\nli a7, 93\nli a0, 0\necall\n";

/// An SC that fails stores nothing. An atomic operation asks what wasn't stored of its bytes, and then has stored all of them.
const UNSTORED: &[u8] =
    b"sc.d t3, a1, (a1)\nld t1, 0(a1)\naddi t4, a1, 8\nsb t1, 1(t4)\namoadd.d t1, t1, (t4)\nld t1, 8(a1)\nebreak\n";

static CASES: [Case; 21] = [
    Case {
        source: OWN,
        words: &[],
        steps: 99,
        expected: Expected {
            found: Ok(b"\x07"),
            questions: &[],
        },
    },
    Case {
        source: HALF,
        words: &[(8, 0x9_0000_0005)],
        steps: 99,
        expected: Expected {
            found: Ok(b"\x07\0\0\0\x09\0\0\0"),
            questions: &[(0, 0xf000)],
        },
    },
    Case {
        source: AGAIN,
        words: &[(64, 0x0807_0605_0403_0201)],
        steps: 99,
        expected: Expected {
            found: Ok(b"\x01\x02\x07\x04\x05\x06\x07\x08"),
            questions: &[
                (1, 0xfb),
                (1, 0xfb),
                (0, 0xff00_0000_0000_0000),
                (1, 0x8000_0000_0000_0000),
                (1, 0xc000_0000_0000_0000),
                (0, 0xf0),
            ],
        },
    },
    Case {
        source: UNSTORED,
        words: &[],
        steps: 99,
        expected: Expected {
            found: Err(Cause::Trap(Trap::Breakpoint)),
            questions: &[(0, 0xff), (0, 0xfd00)],
        },
    },
    Case {
        source: WIDE,
        words: &[],
        steps: 99,
        expected: Expected {
            found: Ok(b"\0\0\0\0\0\0\0\0\xc0"),
            questions: &[
                (0, 0xff),
                (1, 0xff),
                (2, 0xff),
                (3, 0xff),
                (4, 0xff),
                (5, 0xff),
                (6, 0xff),
            ],
        },
    },
    Case {
        source: READ,
        words: OLD,
        steps: 11,
        expected: Expected {
            found: Ok(b"\x05\0\0\0\0\0\0\0\x05\0\0\0\0\0\0\0"),
            questions: &[(0, 0xff), (1, 0xff), (1, 0xff00)],
        },
    },
    Case {
        source: READ,
        words: NEW,
        steps: 500,
        expected: Expected {
            found: Ok(b"\x06\0\0\0\0\0\0\0\x07\0\0\0\0\0\0\0"),
            questions: &[(0, 0xff), (2, 0xff), (2, 0xff00)],
        },
    },
    Case {
        source: READ,
        words: OLD,
        steps: 10,
        expected: Expected {
            found: Err(Cause::Running),
            questions: &[(0, 0xff), (1, 0xff), (1, 0xff00)],
        },
    },
    Case {
        source: READ,
        words: OLD,
        steps: 0,
        expected: Expected {
            found: Err(Cause::Running),
            questions: &[],
        },
    },
    Case {
        source: STRICT,
        words: &[],
        steps: 500,
        expected: Expected {
            found: Err(Cause::Exit(3)),
            questions: &[(0, 0xff), (0, 0xff), (0, 0xff00)],
        },
    },
    Case {
        source: TRAP,
        words: &[(0, 192)],
        steps: 500,
        expected: Expected {
            found: Err(Cause::Trap(Trap::Breakpoint)),
            questions: &[(0, 0xff), (3, 0xff)],
        },
    },
    Case {
        source: SPIN,
        words: &[],
        steps: 500,
        expected: Expected {
            found: Err(Cause::Running),
            questions: &[(0, 0xff), (0, 0xff)],
        },
    },
    Case {
        source: b"",
        words: &[],
        steps: 1,
        expected: Expected {
            found: Err(Cause::Trap(Trap::NoInstruction)),
            questions: &[],
        },
    },
    Case {
        source: b"fence\nj .-4\n",
        words: &[],
        steps: 131_072,
        expected: Expected {
            found: Err(Cause::Running),
            questions: &[],
        },
    },
    Case {
        source: b"fence\nj .-4\n",
        words: &[],
        steps: 131_073,
        expected: Expected {
            found: Err(Cause::Events),
            questions: &[],
        },
    },
    Case {
        source: b"li a0, 256\nli a2, 0\nli a7, 93\necall\n",
        words: &[],
        steps: 9,
        expected: Expected {
            found: Ok(b""),
            questions: &[],
        },
    },
    Case {
        source: b"li a0, -1\nli a7, 93\necall\n",
        words: &[],
        steps: 9,
        expected: Expected {
            found: Err(Cause::Exit(255)),
            questions: &[],
        },
    },
    Case {
        source: b"li t0, 0x40008000\nld t1, -8(t0)\nld t1, 0(t0)\n",
        words: &[],
        steps: 9,
        expected: Expected {
            found: Err(Cause::Trap(Trap::OutsideMemory)),
            questions: &[(511, 0xff00_0000_0000_0000)],
        },
    },
    Case {
        source: b"ld t1, 64(a1)\nld t1, 4(a1)\n",
        words: &[],
        steps: 9,
        expected: Expected {
            found: Err(Cause::Trap(Trap::MisalignedAccess)),
            questions: &[(1, 0xff)],
        },
    },
    Case {
        source: CONDITIONAL,
        words: &[],
        steps: 99,
        expected: Expected {
            found: Ok(b"\0\x01\x07\x01"),
            questions: &[(0, 0xff)],
        },
    },
    Case {
        source: ATOMIC,
        words: &[(0, 0x105)],
        steps: 99,
        expected: Expected {
            found: Ok(b"\x03\x05\x08\x03"),
            questions: &[(0, 0xff)],
        },
    },
];

/// Whether a case comes to what it is to; None where memory was refused.
fn is_right(alloc: Global, case: &Case) -> Option<bool> {
    let mut routine = routine_of(alloc, case.source)?;
    is_right_of(alloc, &mut routine, case)
}

fn is_right_of(alloc: Global, routine: &mut Routine, case: &Case) -> Option<bool>
    requires { routine.old.lines ≡ 512 }
{
    let image = image_of(alloc, case.words)?;
    comes_to(alloc, routine, &image, case.steps, case.expected).ok()
}

/// The first case that comes to something else; None where there is none.
fn first_wrong(rt: &(impl AllocGlobal + Abort)) -> Option<usize> {
    for (number, case) in CASES.iter().enumerate() {
        if is_right(rt.alloc(), case) != Some(true) {
            return Some(number);
        }
    }
    None
}

#[test]
fn routines_answer(rt: HostRuntime) -> Result<(), Fail> {
    assert_eq!(rt; first_wrong(&rt), None);
    Ok(())
}

/// Sources that name bytes, and how many they answer; None where they name none.
static EDGES: [(&[u8], Option<usize>); 11] = [
    (
        b"lui a1, 256\nli a2, 0\nli a7, 93\nli a0, 0\necall\n",
        Some(0),
    ),
    (b"li a1, 5\nli a2, 0\nli a7, 93\nli a0, 0\necall\n", Some(0)),
    (
        b"lui a1, 256\nli a2, 65536\nli a7, 93\nli a0, 0\necall\n",
        Some(65_536),
    ),
    (
        b"lui a1, 256\nli a2, 65537\nli a7, 93\nli a0, 0\necall\n",
        None,
    ),
    (
        b"li a1, 0x1fffff\nli a2, 1\nli a7, 93\nli a0, 0\necall\n",
        Some(1),
    ),
    (
        b"li a1, 0x1fffff\nli a2, 2\nli a7, 93\nli a0, 0\necall\n",
        None,
    ),
    (
        b"li a1, 0x200000\nli a2, 1\nli a7, 93\nli a0, 0\necall\n",
        None,
    ),
    (
        b"li a1, 0xfffff\nli a2, 1\nli a7, 93\nli a0, 0\necall\n",
        None,
    ),
    (
        b"li a1, 0x10000\nli a2, 4\nli a7, 93\nli a0, 0\necall\n",
        None,
    ),
    (b"li a2, 4\nli a7, 93\nli a0, 0\necall\n", None),
    (
        b"li a1, -1\nli a2, 8192\nli a7, 93\nli a0, 0\necall\n",
        None,
    ),
];

/// Whether a source answers so many bytes, or none as it names none.
fn has_length(alloc: Global, source: &[u8], length: Option<usize>) -> Option<bool> {
    let mut routine = routine_of(alloc, source)?;
    answers_so_many(alloc, &mut routine, length)
}

fn answers_so_many(alloc: Global, routine: &mut Routine, length: Option<usize>) -> Option<bool>
    requires { routine.old.lines ≡ 512 }
{
    let image = image_of(alloc, &[])?;
    let found = routine.run(alloc, &image, 9).ok()?;
    Some(is_so_long(&found, length))
}

fn is_so_long(found: &Result<Answer, Cause>, length: Option<usize>) -> bool {
    match found {
        Ok(answer) => length == Some(answer.bytes().len()),
        Err(cause) => length.is_none() && *cause == Cause::Answer,
    }
}

fn first_wrong_edge(rt: &(impl AllocGlobal + Abort)) -> Option<usize> {
    for (number, (source, length)) in EDGES.iter().enumerate() {
        if has_length(rt.alloc(), source, *length) != Some(true) {
            return Some(number);
        }
    }
    None
}

#[test]
fn answers_lie_in_data(rt: HostRuntime) -> Result<(), Fail> {
    assert_eq!(rt; first_wrong_edge(&rt), None);
    Ok(())
}
