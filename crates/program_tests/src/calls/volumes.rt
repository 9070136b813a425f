//! Volumes that are made, and the medium of those who name none.

use crash_test::{default_medium, make_volume};
use nova_log::VolumeFault;
use plan::Plan;
use std::alloc::Global;

/// The counts of inodes, pages and journals, and the number of lines.
type Counts = ([u64; 3], u32);

static VOLUMES: [(&str, u32, Result<Counts, VolumeFault>); 2] = [
    ("inodes 2\npages 3\njournals 4\n", 600, Ok(([2, 3, 4], 600))),
    (
        "inodes 2\npages 3\njournals 4\n",
        511,
        Err(VolumeFault::Counts),
    ),
];

/// What a new volume for a plan says.
fn counts_of(alloc: Global, plan: &str, lines: u32) -> Option<Result<Counts, VolumeFault>> {
    let plan = Plan::read(alloc, plan.as_bytes()).ok()?;
    match make_volume(alloc, &plan, lines) {
        Ok(medium) => {
            let counts = [medium.load(8, 8), medium.load(16, 8), medium.load(24, 8)];
            Some(Ok((counts, medium.lines())))
        }
        Err(fault) => Some(Err(fault)),
    }
}

#[test]
fn volumes_are_made(rt: HostRuntime) {
    let differing = VOLUMES.iter().position(|(plan, lines, wanted)| counts_of(
        rt.alloc(),
        plan,
        *lines,
    ) != Some(*wanted));
    assert_eq!(rt; differing, None);
}

/// The lines of the default medium, and whether the last of them is of zeros.
fn default_lines(alloc: Global) -> Option<(u32, bool)> {
    match default_medium(alloc) {
        Ok(medium) => {
            let lines = medium.lines();
            Some((lines, *medium.read_line(lines - 1) == [0; 64]))
        }
        Err(_) => None,
    }
}

#[test]
fn the_default_medium_is_of_zeros(rt: HostRuntime) {
    assert_eq!(rt; default_lines(rt.alloc()), Some((512, true)));
}
