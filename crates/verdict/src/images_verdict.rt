//! The verdict on all images of a source, whatever they come from, and whatever judges an image.

ghost use Rattle.std.specs.Prelude.{◌≡◌, length, IfOk};
ghost use Rattle.verdict.specs.ImagesVerdicts.{IsImagesVerdict};

use crate::branches::{Opened, Opener, Recovery};
use crate::moment_verdict::MAX_BRANCHES;
use std::alloc::{AllocError, Global};
use std::thread::Threads;

/// What the images of a source came to.
#[derive(Drop)]
pub enum ImagesVerdict<Cause> {
    /// Each image is good.
    Pass,
    /// A bad cut, a number for each line, with 0 for a line at its lowest one, and why its image is bad. It is the least bad one, unless it
    /// is of too many branches.
    Bad {
        numbers: Vec<u32>,
        cause: Cause,
        of_too_many: bool,
    },
    /// There are over 65,536 branches. Where further images are tried, the edge images of some lines are good.
    TooMany,
}

/// The verdict on the images that the recovery has for cuts: by one run of it for each branch, in threads of their own where there are many.
/// The workspace and the opener can be used again after an error too.
pub fn open_images<R: Recovery + Sync, T: Threads + Sync>(
    rt: &T,
    alloc: Global,
    recovery: &R,
    workspace: &mut R::Workspace,
    opener: &mut Opener,
) -> Result<ImagesVerdict<R::Cause>, AllocError>
    requires size { length opener.old ≡ R.lines recovery.now }
    requires fits { R.fits recovery.now workspace.old }
    ensures ok { IfOk result (IsImagesVerdict (R.further recovery.now) (R.alike recovery.now) (R.asks recovery.now) (R.judged recovery.now)
        (R.low recovery.now) (R.high recovery.now) (R.lines recovery.now)) }
    ensures size { length opener.new ≡ length opener.old }
    ensures fits { R.fits recovery.now workspace.new }
{
    let opened = opener.open(rt, alloc, recovery, workspace, MAX_BRANCHES)?;
    Ok(match opened {
        Opened::Pass => ImagesVerdict::Pass,
        Opened::Bad { numbers, cause } => ImagesVerdict::Bad {
            numbers,
            cause,
            of_too_many: false,
        },
        Opened::OverBad { numbers, cause } => ImagesVerdict::Bad {
            numbers,
            cause,
            of_too_many: true,
        },
        Opened::Over { lines: _lines } => ImagesVerdict::TooMany,
    })
}
