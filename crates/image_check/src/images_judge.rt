//! Judging all images of a source by a plan, whatever they come from.

ghost use Rattle.image_check.specs.Images.{IsFoundBy};
ghost use Rattle.image_check.specs.ImagesVerdicts.{IsFoundInState, IsImagesVerdict};
ghost use Rattle.std.specs.Prelude.{◌≡◌, IfOk};

use crate::Cause;
use crate::plan_images::{PlanImages, Workspace};
use crate::plan_state::PlanState;
use plan::Plan;
use std::alloc::{AllocError, Global};
use std::marker::Model;
use std::thread::Threads;
use verdict::{Images, ImagesVerdict, Opener, open_images};

/// What the images of one source after another are judged in. It is made once, for media of so many lines.
///
/// A contract sees the number of lines.
#[derive(Drop)]
pub struct ImagesWorkspace {
    opener: Opener,
    recovery: Workspace,
}

impl Model for ImagesWorkspace {
    ghost use Rattle.std.specs.Prelude.{ℕ, length};

    ghost Value = { ℕ };

    ghost view = { λ w. length w.opener };
}

impl ImagesWorkspace {
    /// For media of so many lines.
    pub fn new(alloc: Global, lines: u32) -> Result<ImagesWorkspace, AllocError>
        ensures { IfOk result (λ workspace. workspace ≡ lines) }
    {
        Ok(ImagesWorkspace {
            opener: Opener::new(alloc, lines)?,
            recovery: Workspace::new(alloc),
        })
    }
}

/// The verdict on all images of a source, where a state of a run keeps what decides which volumes are legal: by one run of recovery for
/// each branch of their cuts, in threads of their own where there are many. The workspace can be used again after an error too.
pub fn judge_images<I: Images + Sync, T: Threads + Sync>(
    rt: &T,
    alloc: Global,
    images: &I,
    plan: &Plan,
    state: &PlanState,
    workspace: &mut ImagesWorkspace,
) -> Result<ImagesVerdict<Cause>, AllocError>
    requires { workspace.old ≡ I.lines images.now }
    ensures ok { IfOk result (IsImagesVerdict (IsFoundInState plan.now.operations state.now)
        (I.lines images.now) (I.image images.now) (I.low images.now) (I.high images.now)) }
    ensures size { workspace.new ≡ workspace.old }
{
    let judged = PlanImages {
        images,
        plan,
        outcomes: &state.outcomes,
    };
    judge_by(rt, alloc, &judged, workspace)
}

/// The same, where it is known what the legal volumes are made of.
fn judge_by<I: Images + Sync, T: Threads + Sync>(
    rt: &T,
    alloc: Global,
    judged: &PlanImages<'_, I>,
    workspace: &mut ImagesWorkspace,
) -> Result<ImagesVerdict<Cause>, AllocError>
    requires { workspace.old ≡ I.lines judged.now.images.now }
    ensures ok { IfOk result (IsImagesVerdict (IsFoundBy judged.now.plan.now.operations judged.now.outcomes.now)
        (I.lines judged.now.images.now) (I.image judged.now.images.now) (I.low judged.now.images.now) (I.high judged.now.images.now)) }
    ensures size { workspace.new ≡ workspace.old }
{
    let ImagesWorkspace { opener, recovery } = workspace;
    recovery.forget();
    open_images(rt, alloc, judged, recovery, opener)
}
