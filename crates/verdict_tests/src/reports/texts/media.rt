//! A volume with two entries, and one of its lines.

ghost use Rattle.line_memory.specs.Lines.{IsMedium};
ghost use Rattle.std.specs.Prelude.{IfOk};

use line_memory::Medium;
use nova_log::{Layout, VolumeFault, mkfs};
use report::{line_text, volume_text};
use std::test::Fail;

/// How an entry begins that appends 77, and one that removes a name.
const APPEND: [u8; 17] = [1, 0, 0, 0, 0, 0, 0, 0, 1, 0, 0, 0, 0, 0, 0, 0, 77];

const REMOVE: [u8; 29] = [
    3, 5, 0, 0, 0, 0, 0, 0, 2, 0, 0, 0, 0, 0, 0, 0, 9, 0, 0, 0, 0, 0, 0, 0, b'a', b'\\', b' ',
    0x7f, b'\n',
];

const VOLUME: &str =
    "layout 1 inodes 1 pages 1 journals 1\ninode 0: 2 entries\nop=1 append value=77\nop=2 remove a\\x5c \\x7f\\x0a value=9\n";

const LINE: &str = "0x0 0x40004000 01 00 00 00 00 00 00 00 01 00 00 00 00 00 00 00\n\
0x10 0x40004010 4d 00 00 00 00 00 00 00 00 00 00 00 00 00 00 00\n\
0x20 0x40004020 00 00 00 00 00 00 00 00 00 00 00 00 00 00 00 00\n\
0x30 0x40004030 00 00 00 00 00 00 00 00 00 00 00 00 00 00 00 00\n";

/// The medium with both entries, the first in line 256; the tail stands at offset 72.
fn medium(rt: &impl AllocGlobal) -> Result<Medium, VolumeFault>
    ensures { IfOk result (λ medium. IsMedium medium) }
{
    let mut medium = mkfs(rt.alloc(), Layout::One, 1, 1, 1, 512)?;
    let mut line = [0; 64];
    line[..17].copy_from_slice(&APPEND);
    medium.write_line(256, &line);
    line[..29].copy_from_slice(&REMOVE);
    medium.write_line(257, &line);
    medium.store(72, 8, 0x4080);
    Ok(medium)
}

fn shows_volume(rt: &impl AllocGlobal) -> Result<bool, Fail> {
    let medium = medium(rt)?;
    let text = volume_text(rt.alloc(), &medium)?;
    Ok(text.as_str() == VOLUME)
}

#[test]
fn text_of_a_volume(rt: HostRuntime) -> Result<(), Fail> {
    assert!(rt; shows_volume(&rt)?);
    Ok(())
}

fn shows_line(rt: &impl AllocGlobal) -> Result<bool, Fail> {
    let medium = medium(rt)?;
    let text = line_text(rt.alloc(), &medium, 256)?;
    Ok(text.as_str() == LINE)
}

#[test]
fn text_of_a_line(rt: HostRuntime) -> Result<(), Fail> {
    assert!(rt; shows_line(&rt)?);
    Ok(())
}
