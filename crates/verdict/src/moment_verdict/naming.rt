//! The name of a cut that is given by line.

ghost use Rattle.verdict.specs.Branches.{IsWithin};
ghost use Rattle.verdict.specs.Numbers.{number_over};
ghost use Rattle.crash_image.specs.Named.{IsNameOf};
ghost use Rattle.crash_image.specs.View.{HasLines};
ghost use Rattle.store_trace.specs.Cut.{numbered, stored_lines};
ghost use Rattle.store_trace.specs.Floor.{floor};
ghost use Rattle.store_trace.specs.Stores.{stores};
ghost use Rattle.store_trace.specs.History.{at_moment};
ghost use Rattle.std.specs.Prelude.{◌≡◌, ◌≤◌, length, IfOk};

use crash_image::{Cuts, ImageName};
use line_memory::Medium;
use std::alloc::{AllocError, Global};
use store_trace::Trace;

/// The name of the image of a cut of the moment, given by line, with 0 for a line at its floor.
pub fn name_cut(
    alloc: Global,
    medium: &Medium,
    trace: &Trace,
    moment: u32,
    numbers: &[u32],
) -> Result<ImageName, AllocError>
    requires lines { HasLines medium.now trace.now.events }
    requires there { moment ≤ length trace.now.events }
    requires within { IsWithin (λ l. floor l (at_moment trace.now.events moment)) (λ l. stores l (at_moment trace.now.events moment))
        (number_over (λ l. floor l (at_moment trace.now.events moment)) numbers.now) }
    ensures { IfOk result (IsNameOf (at_moment trace.now.events moment)
        (numbered (number_over (λ l. floor l (at_moment trace.now.events moment)) numbers.now) (stored_lines (at_moment trace.now.events moment)))) }
{
    match Cuts::at(alloc, medium, trace, moment) {
        Ok(cuts) => name_over(alloc, &cuts, numbers),
        Err(_refused) => Err(AllocError),
    }
}

/// The name of a cut that is given by line.
fn name_over(alloc: Global, cuts: &Cuts, numbers: &[u32]) -> Result<ImageName, AllocError>
    requires { IsWithin (λ l. floor l cuts.now.steps) (λ l. stores l cuts.now.steps) (number_over (λ l. floor l cuts.now.steps) numbers.now) }
    ensures { IfOk result (IsNameOf cuts.now.steps
        (numbered (number_over (λ l. floor l cuts.now.steps) numbers.now) (stored_lines cuts.now.steps))) }
{
    let Ok(cut) = cuts.cut_over(alloc, numbers) else {
        return Err(AllocError);
    };
    match cuts.name(alloc, &cut) {
        Ok(name) => Ok(name),
        Err(_refused) => Err(AllocError),
    }
}
