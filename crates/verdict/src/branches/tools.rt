//! What branches are opened with.

ghost use Rattle.std.specs.Prelude.{IfOk};
ghost use Rattle.verdict.specs.Lanes.{AreTools};

use crate::branches::Recovery;
use crate::branches::run::Run;
use std::alloc::{AllocError, Global};

/// What branches are opened with, one after another.
#[derive(Drop)]
pub struct Tools<Workspace> {
    pub workspace: Workspace,
    pub run: Run,
}

/// Tools for these images.
pub fn new_tools<R: Recovery>(
    alloc: Global,
    recovery: &R,
) -> Result<Tools<R::Workspace>, AllocError>
    requires { (other : R.Workspace) × R.fits recovery.now other }
    ensures { IfOk result (AreTools (R.fits recovery.now) (R.lines recovery.now)) }
{
    Ok(Tools {
        workspace: recovery.workspace(alloc)?,
        run: Run::new(alloc, recovery.lines())?,
    })
}
