//! The lines of an image of which a recovery routine asks bytes.

ghost use Rattle.crash_test.specs.Loading.{IsLoaded, lines_of};
ghost use Rattle.std.specs.Prelude.{◌≡◌, length, IfOk};

use crate::image_causes::Reader;
use line_memory::Medium;
use program::Program;
use recovery::Routine;
use std::alloc::{AllocError, Global};
use verdict::Question;

/// A recovery routine in assembly. It reads the lines of which its run on an image loads bytes that it hasn't stored itself.
#[derive(Drop)]
pub struct RoutineReader<'a> {
    pub program: &'a Program,
    /// How many steps it makes at most.
    pub steps: u32,
}

impl Reader for RoutineReader<'_> {
    ghost reads = { λ s image lines. IsLoaded s.program.now s.steps image lines };

    /// In the order in which it asks them, each as often as it is asked.
    fn lines_read(&self, alloc: Global, image: &Medium) -> Result<Vec<u32>, AllocError> {
        let program = self.program.copy(alloc)?;
        let Ok(mut routine) = Routine::new(alloc, program, image.lines()) else {
            return Err(AllocError);
        };
        lines_asked(alloc, &mut routine, image, self.steps)
    }
}

/// The lines that the routine's run on an image asks, in the order in which it asks them.
fn lines_asked(
    alloc: Global,
    routine: &mut Routine,
    image: &Medium,
    steps: u32,
) -> Result<Vec<u32>, AllocError>
    requires { length image.now ≡ routine.old.lines }
    ensures { IfOk result (λ lines. IsLoaded routine.old.program steps image.now lines.items) }
{
    // also a run without an answer asks lines
    let _ = routine.run(alloc, image, steps)?;
    lines_of(alloc, routine.asked())
}

/// The lines of what is asked, each as often as it is asked.
fn lines_of(alloc: Global, asked: &[Question]) -> Result<Vec<u32>, AllocError>
    ensures { IfOk result (λ lines. lines.items ≡ lines_of asked.now) }
{
    asked.iter().map(|question| question.line).collect(alloc)
}
