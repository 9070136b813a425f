//! Judging all images of a source by a recovery routine, whatever they come from.

ghost use Rattle.recovery.specs.Images.{AnswersOn};
ghost use Rattle.routine_judge.specs.ImagesVerdicts.{IsImagesVerdict};
ghost use Rattle.std.specs.Prelude.{◌≡◌, IfOk};

use crate::Cause;
use crate::answer_images::{AnswerImages, copied_routine};
use crate::full_image::full_answer;
use program::Program;
use recovery::{Answer, Cause as RunCause, Routine};
use std::alloc::{AllocError, Global};
use std::marker::Model;
use std::thread::Threads;
use verdict::{Images, ImagesVerdict, Opener, open_images};

/// What a routine judges the images of one source after another in. It is made once, for media of so many lines.
///
/// A contract sees the routine and the number of lines.
#[derive(Drop)]
pub struct AnswersWorkspace {
    opener: Opener,
    routine: Routine,
}

impl Model for AnswersWorkspace {
    ghost use Rattle.routine_judge.specs.Views.{WorkspaceView};
    ghost use Rattle.std.specs.Prelude.{◌≡◌, length};

    ghost Value = { WorkspaceView };

    ghost view = { λ w. record { program = w.routine.program; lines = w.routine.lines } };

    ghost invariant = { λ w. length w.opener ≡ w.routine.lines };
}

impl AnswersWorkspace {
    /// For a routine, and media of so many lines.
    pub fn new(alloc: Global, program: &Program, lines: u32) -> Result<AnswersWorkspace, AllocError>
        ensures program { IfOk result (λ workspace. workspace.program ≡ program.now) }
        ensures lines { IfOk result (λ workspace. workspace.lines ≡ lines) }
    {
        Ok(AnswersWorkspace {
            opener: Opener::new(alloc, lines)?,
            routine: copied_routine(alloc, program, lines)?,
        })
    }

    /// What the routine comes to, in so many steps at most, on the full image of a source: that with each line at its highest number.
    ///
    /// # Errors
    /// A growth was refused. The workspace can be used again then too.
    pub fn full_answer<I: Images>(
        &mut self,
        alloc: Global,
        images: &I,
        steps: u32,
    ) -> Result<Result<Answer, RunCause>, AllocError>
        requires { self.old.lines ≡ I.lines images.now }
        ensures ok { IfOk result (AnswersOn self.old.program steps (I.image images.now (I.high images.now))) }
        ensures same { self.new ≡ self.old }
    {
        full_answer(alloc, images, &mut self.routine, steps)
    }
}

/// The verdict on all images of a source, by right answers: by one run of the routine for each branch of their cuts, in threads of their own
/// where there are many. The workspace is one for the routine and for media of as many lines.
///
/// # Errors
/// A growth was refused. The workspace can be used again then too.
pub fn judge_images<I: Images + Sync, T: Threads + Sync>(
    rt: &T,
    alloc: Global,
    judged: &AnswerImages<'_, I>,
    workspace: &mut AnswersWorkspace,
) -> Result<ImagesVerdict<Cause>, AllocError>
    requires program { workspace.old.program ≡ judged.now.program.now }
    requires lines { workspace.old.lines ≡ I.lines judged.now.images.now }
    ensures ok { IfOk result (IsImagesVerdict judged.now.right.now judged.now.program.now judged.now.steps (I.lines judged.now.images.now)
        (I.image judged.now.images.now) (I.low judged.now.images.now) (I.high judged.now.images.now)) }
    ensures same { workspace.new ≡ workspace.old }
{
    let AnswersWorkspace { opener, routine } = workspace;
    open_images(rt, alloc, judged, routine, opener)
}
