//! A volume with one entry, each byte of some of its lines damaged in turn, and what recovery finds.
//!
//! How many media come to what was counted by `tools/damaged-medium`, which has a recovery of its own, written after docs/FORMATS.md.

use line_memory::Medium;
use nova_log::{Layout, VolumeFault, mkfs, recover};
use std::alloc::Global;

/// A log of so many entries, or why there is no volume.
type Found = Result<usize, VolumeFault>;

/// A cache line, and how many of its 640 damages come to what.
struct DamagedLine {
    line: u32,
    outcomes: &'static [(Found, usize)],
}

/// For each byte of a line: set to 0, set to 255, and each of its eight bits changed.
const DAMAGES: u32 = 10 * 64;

static LINES: [DamagedLine; 5] = [
    DamagedLine {
        line: 0,
        outcomes: &[
            (Ok(1), 344),
            (Err(VolumeFault::Magic), 80),
            (Err(VolumeFault::Counts), 216),
        ],
    },
    DamagedLine {
        line: 1,
        outcomes: &[
            (Ok(1), 493),
            (Ok(0), 2),
            (Err(VolumeFault::Head), 73),
            (Err(VolumeFault::TailNotReached), 67),
            (Err(VolumeFault::Kind), 5),
        ],
    },
    DamagedLine {
        line: 128,
        outcomes: &[
            (Ok(1), 496),
            (Err(VolumeFault::JournalNumbers), 141),
            (Err(VolumeFault::TailNotReached), 3),
        ],
    },
    DamagedLine {
        line: 256,
        outcomes: &[
            (Ok(1), 567),
            (Err(VolumeFault::Kind), 9),
            (Err(VolumeFault::Name), 64),
        ],
    },
    DamagedLine {
        line: 319,
        outcomes: &[(Ok(1), 640)],
    },
];

/// The numbers that an ended append of the value 77 leaves beside those of a new volume of one inode.
const APPENDED: [(u32, u64); 4] = [(72, 16_448), (16_384, 1), (16_392, 1), (16_400, 77)];

fn appended(alloc: Global) -> Result<Medium, VolumeFault> {
    let mut medium = mkfs(alloc, Layout::One, 1, 1, 1, 512)?;
    for (offset, number) in APPENDED {
        if offset % 8 == 0 && offset < 64 * medium.lines() {
            medium.store(offset, 8, number);
        }
    }
    Ok(medium)
}

/// A byte after a damage.
fn byte_after(byte: u8, damage: u32) -> u8 {
    match damage {
        0 => 0,
        1 => 255,
        2 => byte ^ 1,
        3 => byte ^ 2,
        4 => byte ^ 4,
        5 => byte ^ 8,
        6 => byte ^ 16,
        7 => byte ^ 32,
        8 => byte ^ 64,
        _ => byte ^ 128,
    }
}

/// Damages one byte of a line.
fn damage_line(medium: &mut Medium, line: u32, at: u32) {
    if line >= medium.lines() {
        return;
    }
    let mut bytes = *medium.read_line(line);
    let place = (at / 10 % 64) as usize;
    bytes[place] = byte_after(bytes[place], at % 10);
    medium.write_line(line, &bytes);
}

fn found(alloc: Global, line: u32, at: u32) -> Found {
    let mut medium = appended(alloc)?;
    damage_line(&mut medium, line, at);
    let volume = recover(alloc, &medium)?;
    if volume.inodes() == 0 {
        return Err(VolumeFault::Counts);
    }
    Ok(volume.log(0).len())
}

/// How many damages of a line come to this.
fn count_of(alloc: Global, line: u32, outcome: Found) -> usize {
    (0..DAMAGES)
        .filter(|at| found(alloc, line, *at) == outcome)
        .count()
}

fn comes_to_so(alloc: Global, line: &DamagedLine) -> bool {
    line.outcomes.iter().all(|(outcome, count)| count_of(alloc, line.line, *outcome) == *count)
}

#[test]
fn each_damage_has_its_outcome(rt: HostRuntime) {
    let differing = LINES.iter().position(|line| !comes_to_so(rt.alloc(), line));
    assert_eq!(rt; differing, None);
}
