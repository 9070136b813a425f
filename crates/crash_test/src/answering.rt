//! What a recovery routine answers on a medium, and on a crash image.

ghost use Rattle.crash_image.specs.View.{HasLines};
ghost use Rattle.crash_test.specs.Answers.{IsAnswerAt};
ghost use Rattle.crash_test.specs.Loading.{IsAnswerOn};
ghost use Rattle.crash_test.specs.Told.{LacksImage};
ghost use Rattle.std.specs.Prelude.{IfErr, IfOk};

use crate::events::Events;
use crate::images::named_image;
use crate::reading::RoutineReader;
use crash_image::{ImageFault, ImageName};
use line_memory::Medium;
use program::Program;
use recovery::{Answer, Cause, Routine};
use std::alloc::{AllocError, Global};

/// The answer of a recovery routine on a medium, in at most so many steps, or why it has none.
pub fn answer_on(
    alloc: Global,
    recovery: Program,
    medium: &Medium,
    steps: u32,
) -> Result<Result<Answer, Cause>, AllocError>
    ensures { IfOk result (IsAnswerOn recovery medium.now steps) }
{
    let Ok(mut routine) = Routine::new(alloc, recovery, medium.lines()) else {
        return Err(AllocError);
    };
    routine.run(alloc, medium, steps)
}

/// The answer of a recovery routine on the crash image of this name, of a moment of events, or why it has none. The medium has every line that
/// the events name.
///
/// # Errors
/// As those of `tell_image`.
pub fn answer_at(
    alloc: Global,
    events: Events<'_>,
    moment: u32,
    image: &ImageName,
    reader: &RoutineReader<'_>,
) -> Result<Result<Answer, Cause>, ImageFault>
    requires { HasLines events.medium.now events.trace.now.events }
    ensures ok { IfOk result (IsAnswerAt reader.now.program.now reader.now.steps events.entry.medium.now events.entry.trace.now.events moment image.now) }
    ensures err { IfErr result (LacksImage events.entry.trace.now.events moment image.now) }
{
    let (_, medium) = named_image(alloc, events.medium, events.trace, moment, image)?;
    let program = reader.program.copy(alloc)?;
    Ok(answer_on(alloc, program, &medium, reader.steps)?)
}
