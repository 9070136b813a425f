//! Routines and images, and what a run comes to.

ghost use Rattle.std.specs.Prelude.{◌≡◌, length, IfSome};

use assemble::assemble;
use line_memory::Medium;
use program::load;
use recovery::{Answer, Cause, Routine};
use std::alloc::{AllocError, Global};

/// The word at 0 names a record, whose two words are answered.
pub(crate) const READ: &[u8] = b"ld t0, 0(a1)\nadd t0, a1, t0\nld t1, 0(t0)\nld t2, 8(t0)\n\
    lui a1, 256\nsd t1, 0(a1)\nsd t2, 8(a1)\nli a2, 16\nli a7, 93\nli a0, 0\necall\n";

/// What a run is to come to, and what it is to ask: lines of the image, each with the bytes that it loads and hasn't stored itself, the
/// lowest bit for the first byte.
#[derive(Clone, Copy)]
pub(crate) struct Expected {
    pub(crate) found: Result<&'static [u8], Cause>,
    pub(crate) questions: &'static [(u32, u64)],
}

/// The routine of a source, for images of 512 lines; None where there is none.
pub(crate) fn routine_of(alloc: Global, source: &[u8]) -> Option<Routine>
    ensures { IfSome result (λ routine. routine.lines ≡ 512) }
{
    let object = assemble(alloc, source).ok()?;
    let program = load(object).ok()?;
    Routine::new(alloc, program, 512).ok()
}

/// An image of 512 lines with these numbers of eight bytes at these places, and zeros elsewhere; None where there is none.
pub(crate) fn image_of(alloc: Global, words: &[(u32, u64)]) -> Option<Medium>
    ensures { IfSome result (λ image. length image ≡ 512) }
{
    let mut image = Medium::zero(alloc, 512).ok()?;
    if image.lines() != 512 {
        return None;
    }
    for (place, word) in words {
        put(&mut image, *place, *word);
    }
    Some(image)
}

fn put(image: &mut Medium, place: u32, word: u64)
    requires { length image.old ≡ 512 }
    ensures { length image.new ≡ 512 }
{
    if place.is_multiple_of(8) && place < 32_768 {
        image.store(place, 8, word);
    }
}

/// Whether a run comes to this and asks this.
pub(crate) fn comes_to(
    alloc: Global,
    routine: &mut Routine,
    image: &Medium,
    steps: u32,
    expected: Expected,
) -> Result<bool, AllocError>
    requires routine { routine.old.lines ≡ 512 }
    requires image { length image.now ≡ 512 }
    ensures { routine.new.lines ≡ 512 }
{
    let found = routine.run(alloc, image, steps)?;
    Ok(is_found(&found, expected.found) && has_asked(routine, expected.questions))
}

/// Whether the last run asked these bytes of these lines, in this order.
fn has_asked(routine: &Routine, questions: &[(u32, u64)]) -> bool {
    let asked = routine.asked();
    let is_same = asked.iter().zip(questions).all(|(question, (line, bytes))| question.line == *line
        && question.bytes == *bytes);
    asked.len() == questions.len() && is_same
}

fn is_found(found: &Result<Answer, Cause>, expected: Result<&[u8], Cause>) -> bool {
    match (found, expected) {
        (Ok(answer), Ok(bytes)) => answer.bytes() == bytes,
        (Err(cause), Err(other)) => *cause == other,
        _ => false,
    }
}
