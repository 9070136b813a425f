//! Nothing is left of an earlier run: neither in data, text and the text that is fetched, nor of the image before.

ghost use Rattle.std.specs.Prelude.{◌≡◌, length};

use crate::routines::samples::{Expected, READ, comes_to, image_of, routine_of};
use line_memory::Medium;
use recovery::{Cause, Routine};
use std::alloc::{AllocError, Global};
use std::process::Abort;
use std::test::Fail;

/// Counts up a word of data that begins at 4, and answers it.
const COUNT: &[u8] =
    b"lui t0, 256\nld t1, 0(t0)\naddi t1, t1, 1\nsd t1, 0(t0)\nmv a1, t0\nli a2, 1\nli a7, 93\nli a0, 0\necall\n.data\n.dword 4\n";

/// Counts up the word at 0, and answers it.
const STORE: &[u8] =
    b"ld t1, 0(a1)\naddi t1, t1, 1\nsd t1, 0(a1)\ncbo.clean (a1)\nfence\nld t2, 0(a1)\nlui a1, 256\nsb t2, 0(a1)\nli a2, 1\n\
    li a7, 93\nli a0, 0\necall\n";

/// Replaces an instruction, and exits with 7 where the new one is fetched; with 9 where it stood there already.
const PATCH: &[u8] =
    b"la t0, here\nlw t1, 0(t0)\nli t2, 0x300513\nbne t1, t2, changed\nli t2, 0x700513\nsw t2, 0(t0)\nfence.i\n\
    here: li a0, 3\nli a7, 93\necall\nchanged: li a0, 9\nli a7, 93\necall\n";

/// The same without the FENCE.I: the old one is fetched.
const PATCH_UNSEEN: &[u8] =
    b"la t0, here\nlw t1, 0(t0)\nli t2, 0x300513\nbne t1, t2, changed\nli t2, 0x700513\nsw t2, 0(t0)\n\
    here: li a0, 3\nli a7, 93\necall\nchanged: li a0, 9\nli a7, 93\necall\n";

/// A routine, and what it comes to in each run over an image that has 8 at 0.
static ROUTINES: [(&[u8], Expected); 4] = [
    (
        COUNT,
        Expected {
            found: Ok(b"\x05"),
            questions: &[],
        },
    ),
    (
        STORE,
        Expected {
            found: Ok(b"\x09"),
            // the second load is of bytes that it has stored
            questions: &[(0, 0xff)],
        },
    ),
    (
        PATCH,
        Expected {
            found: Err(Cause::Exit(7)),
            questions: &[],
        },
    ),
    (
        PATCH_UNSEEN,
        Expected {
            found: Err(Cause::Exit(3)),
            questions: &[],
        },
    ),
];

/// Whether runs of a routine come to the same before and after one that is cut short.
fn is_as_new(alloc: Global, source: &[u8], expected: Expected) -> Option<bool> {
    let mut routine = routine_of(alloc, source)?;
    runs_over_eight(alloc, &mut routine, expected)
}

fn runs_over_eight(alloc: Global, routine: &mut Routine, expected: Expected) -> Option<bool>
    requires { routine.old.lines ≡ 512 }
{
    let image = image_of(alloc, &[(0, 8)])?;
    runs_alike(alloc, routine, &image, expected).ok()
}

fn runs_alike(
    alloc: Global,
    routine: &mut Routine,
    image: &Medium,
    expected: Expected,
) -> Result<bool, AllocError>
    requires routine { routine.old.lines ≡ 512 }
    requires image { length image.now ≡ 512 }
{
    let first = comes_to(alloc, routine, image, 99, expected)?;
    cut_short(alloc, routine, image)?;
    let last = comes_to(alloc, routine, image, 99, expected)?;
    Ok(first && last)
}

fn cut_short(alloc: Global, routine: &mut Routine, image: &Medium) -> Result<(), AllocError>
    requires routine { routine.old.lines ≡ 512 }
    requires image { length image.now ≡ 512 }
    ensures { routine.new.lines ≡ 512 }
{
    let _ = routine.run(alloc, image, 7)?;
    Ok(())
}

fn first_wrong(rt: &(impl AllocGlobal + Abort)) -> Option<usize> {
    for (number, (source, expected)) in ROUTINES.iter().enumerate() {
        if is_as_new(rt.alloc(), source, *expected) != Some(true) {
            return Some(number);
        }
    }
    None
}

#[test]
fn runs_leave_nothing(rt: HostRuntime) -> Result<(), Fail> {
    assert_eq!(rt; first_wrong(&rt), None);
    Ok(())
}

const OLD: Expected = Expected {
    found: Ok(b"\x05\0\0\0\0\0\0\0\x05\0\0\0\0\0\0\0"),
    questions: &[(0, 0xff), (1, 0xff), (1, 0xff00)],
};

const NEW: Expected = Expected {
    found: Ok(b"\x06\0\0\0\0\0\0\0\x07\0\0\0\0\0\0\0"),
    questions: &[(0, 0xff), (2, 0xff), (2, 0xff00)],
};

/// Whether a routine reads each of two images, in turn, as it is.
fn reads_both(alloc: Global) -> Option<bool> {
    let mut routine = routine_of(alloc, READ)?;
    let old = image_of(alloc, &[(0, 64), (64, 5), (72, 5)])?;
    reads_another(alloc, &mut routine, &old)
}

fn reads_another(alloc: Global, routine: &mut Routine, old: &Medium) -> Option<bool>
    requires routine { routine.old.lines ≡ 512 }
    requires old { length old.now ≡ 512 }
{
    let new = image_of(alloc, &[(0, 128), (128, 6), (136, 7)])?;
    reads_in_turn(alloc, routine, old, &new).ok()
}

fn reads_in_turn(
    alloc: Global,
    routine: &mut Routine,
    old: &Medium,
    new: &Medium,
) -> Result<bool, AllocError>
    requires routine { routine.old.lines ≡ 512 }
    requires old { length old.now ≡ 512 }
    requires new { length new.now ≡ 512 }
{
    let first = comes_to(alloc, routine, old, 99, OLD)?;
    let second = comes_to(alloc, routine, new, 99, NEW)?;
    let third = comes_to(alloc, routine, old, 99, OLD)?;
    Ok(first && second && third)
}

#[test]
fn images_are_read_as_they_are(rt: HostRuntime) -> Result<(), Fail> {
    assert_eq!(rt; reads_both(rt.alloc()), Some(true));
    Ok(())
}
