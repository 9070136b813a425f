//! The plain check, with which the check by branches is compared: each image of each moment is made whole, recovered, and compared with
//! each volume that the plan allows there.

ghost use Rattle.crash_image.specs.View.{HasLines};
ghost use Rattle.store_trace.specs.Cut.{cut_count};
ghost use Rattle.std.specs.Prelude.{◌≡◌, ◌≤◌, length};

use crash_image::Cuts;
use image_check::{Cause, CheckFault, check_trace};
use line_memory::Medium;
use nova_log::{Volume, VolumeFault, recover};
use plan::{Operation, Plan, PlannedEntry};
use std::alloc::{AllocError, Global};
use store_trace::{Event, Trace};

/// The plain check's verdict on one moment.
#[derive(Clone, Copy, PartialEq, Eq)]
pub(crate) enum MomentByImages {
    Pass,
    /// The image of this number is the least bad one.
    Fail { image: u32, cause: Cause },
    /// There are over 65,536 cuts, and no image was looked at.
    TooMany,
}

/// The plain check's verdict on all moments of a run.
#[derive(Clone, Copy, PartialEq, Eq)]
pub(crate) enum RunByImages {
    Pass {
        moments: u64,
        images: u64,
    },
    /// This moment is the least that doesn't pass, and this image its least bad one.
    Fail {
        moment: u32,
        image: u32,
        cause: Cause,
    },
    /// This moment is the least that doesn't pass, and it has over 65,536 cuts.
    TooMany {
        moment: u32,
    },
}

/// What recovery finds of a medium: its volume, or why there is none.
type Found = Result<Volume, VolumeFault>;

/// The operations that have ended at a moment, in the order of their ends, and those that are pending.
#[derive(Drop)]
struct Marks {
    ended: Vec<u64>,
    pending: Vec<u64>,
}

/// The verdict on all moments.
pub(crate) fn check_run_by_images(
    alloc: Global,
    plan: &Plan,
    medium: &Medium,
    trace: &Trace,
) -> Result<RunByImages, CheckFault>
    requires { HasLines medium.now trace.now.events }
{
    if let Err(fault) = check_trace(plan, trace) {
        return Err(CheckFault::Operation(fault));
    }
    let before = recover(alloc, medium);
    let mut sum = 0u64;
    for moment in 0..trace.events().len() as u32 + 1 {
        match judge_moment(alloc, plan, &before, medium, trace, moment)? {
            (MomentByImages::Pass, images) => sum = sum.saturating_add(u64::from(images)),
            (MomentByImages::Fail { image, cause }, _) => {
                return Ok(RunByImages::Fail {
                    moment,
                    image,
                    cause,
                });
            }
            (MomentByImages::TooMany, _) => return Ok(RunByImages::TooMany { moment }),
        }
    }
    Ok(RunByImages::Pass {
        moments: trace.events().len() as u64 + 1,
        images: sum,
    })
}

/// The verdict on a moment, and the number of its images.
fn judge_moment(
    alloc: Global,
    plan: &Plan,
    before: &Found,
    medium: &Medium,
    trace: &Trace,
    moment: u32,
) -> Result<(MomentByImages, u32), AllocError>
    requires lines { HasLines medium.now trace.now.events }
    requires there { moment ≤ length trace.now.events }
{
    let marks = marks_at(alloc, trace, moment as usize)?;
    let Ok(cuts) = Cuts::at(alloc, medium, trace, moment) else {
        return Err(AllocError);
    };
    match cuts.count() {
        Some(count) => Ok((
            judge_images(alloc, plan, before, &marks, &cuts, count)?,
            count,
        )),
        None => Ok((MomentByImages::TooMany, 0)),
    }
}

/// The verdict on the images of so many cuts.
fn judge_images(
    alloc: Global,
    plan: &Plan,
    before: &Found,
    marks: &Marks,
    cuts: &Cuts,
    count: u32,
) -> Result<MomentByImages, AllocError>
    requires { count ≡ cut_count cuts.now.steps }
{
    for image in 0..count {
        let Ok(medium) = cuts.image(alloc, image) else {
            return Err(AllocError);
        };
        if let Some(cause) = judge_image(alloc, plan, before, marks, &medium)? {
            return Ok(MomentByImages::Fail { image, cause });
        }
    }
    Ok(MomentByImages::Pass)
}

/// Why an image is bad, if it is.
fn judge_image(
    alloc: Global,
    plan: &Plan,
    before: &Found,
    marks: &Marks,
    medium: &Medium,
) -> Result<Option<Cause>, AllocError> {
    match (recover(alloc, medium), before) {
        (Err(fault), _) => Ok(Some(Cause::Fault(fault))),
        (Ok(volume), Ok(before)) if is_legal(alloc, plan, before, marks, &volume)? => Ok(None),
        _ => Ok(Some(Cause::Illegal)),
    }
}

/// Whether the volume is the one before with the entries of the ended operations and of some of the pending ones, of at most sixteen.
fn is_legal(
    alloc: Global,
    plan: &Plan,
    before: &Volume,
    marks: &Marks,
    volume: &Volume,
) -> Result<bool, AllocError> {
    for chosen in 0..1u32 << marks.pending.len().min(16) {
        let mut grown = before.copy(alloc)?;
        if grow(plan, marks, chosen, &mut grown)? && grown.equals(volume) {
            return Ok(true);
        }
    }
    Ok(false)
}

/// Adds the entries of the ended operations, and of the pending ones that are chosen. False where an inode isn't there.
fn grow(plan: &Plan, marks: &Marks, chosen: u32, volume: &mut Volume) -> Result<bool, AllocError> {
    let mut fits = true;
    for op in &marks.ended {
        fits = fits && append(plan, *op, volume)?;
    }
    for (place, op) in marks.pending.iter().enumerate() {
        if place < 16 && chosen >> place & 1 == 1 {
            fits = fits && append(plan, *op, volume)?;
        }
    }
    Ok(fits)
}

/// Adds the entries of an operation. False where an inode isn't there.
fn append(plan: &Plan, op: u64, volume: &mut Volume) -> Result<bool, AllocError> {
    let found = plan
        .operations()
        .iter()
        .find(|planned| planned.number == op);
    match found {
        Some(operation) => append_entries(operation, volume),
        None => Ok(true),
    }
}

fn append_entries(operation: &Operation, volume: &mut Volume) -> Result<bool, AllocError> {
    let entries = operation.entries();
    let first = append_entry(entries.first, volume)?;
    match entries.second {
        Some(second) => Ok(append_entry(second, volume)? && first),
        None => Ok(first),
    }
}

fn append_entry(planned: PlannedEntry, volume: &mut Volume) -> Result<bool, AllocError> {
    if planned.inode >= volume.inodes() {
        return Ok(false);
    }
    volume.append(planned.inode, planned.entry)?;
    Ok(true)
}

/// The marks of the first `moment` events.
fn marks_at(alloc: Global, trace: &Trace, moment: usize) -> Result<Marks, AllocError>
    requires { moment ≤ length trace.now.events }
{
    let mut marks = Marks {
        ended: Vec::new(alloc),
        pending: Vec::new(alloc),
    };
    for event in &trace.events()[..moment] {
        match *event {
            Event::Begin { op, .. } => marks.pending.push(op)?,
            Event::End { op, .. } => {
                marks.pending.retain(|other| *other != op);
                marks.ended.push(op)?;
            }
            _ => {}
        }
    }
    Ok(marks)
}
