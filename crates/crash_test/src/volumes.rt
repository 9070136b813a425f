//! The media that runs start from.

ghost use Rattle.std.specs.Prelude.{◌≡◌, ◌≢◌, ◌↔◌, IfErr, IfOk, IsErrOf};
ghost use Rattle.line_memory.specs.Lines.{zero_lines};
ghost use Rattle.nova_log.specs.Fresh.{IsFresh};
ghost use Rattle.nova_log.specs.Layouts.{AreCounts};

use line_memory::{Medium, MediumFault};
use nova_log::{VolumeFault, mkfs};
use plan::Plan;
use std::alloc::Global;

/// The lines of a medium where none is given.
const DEFAULT_LINES: u32 = 512;

/// The medium of a run where none is given: 512 lines of zeros. Only Memory is answered.
pub fn default_medium(alloc: Global) -> Result<Medium, MediumFault>
    ensures ok { IfOk result (λ medium. medium ≡ zero_lines 512) }
    ensures err { IfErr result (λ fault. fault ≡ MediumFault.Memory) }
{
    Medium::zero(alloc, DEFAULT_LINES)
}

/// A medium of `lines` lines with a new volume for a plan, by its layout and its counts.
///
/// Counts where the lines aren't 512 to 16,384 with those of all pages among them, or the plan's counts aren't those of a
/// volume.
pub fn make_volume(alloc: Global, plan: &Plan, lines: u32) -> Result<Medium, VolumeFault>
    ensures ok { IfOk result (λ medium.
        IsFresh plan.now.layout plan.now.inodes plan.now.pages plan.now.journals lines medium) }
    ensures counts { IsErrOf result VolumeFault.Counts
        ↔ (¬ AreCounts plan.now.inodes plan.now.pages plan.now.journals lines) }
    ensures memory { IfErr result (λ fault. fault ≢ VolumeFault.Counts → fault ≡ VolumeFault.Memory) }
{
    mkfs(
        alloc,
        plan.layout(),
        plan.inodes(),
        plan.pages(),
        plan.journals(),
        lines,
    )
}
