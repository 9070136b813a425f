//! Each public call once, with values set by hand.

ghost use Rattle.std.specs.Prelude.{◌≡◌, ◌≤◌, true, length};
ghost use Rattle.line_memory.specs.Memory.{IsWidth};

use line_memory::{
    DATA_BASE, Medium, MediumFault, MemFault, PERSISTENT_BASE, Ram, TEXT_BASE, load_bytes,
    store_bytes,
};
use std::alloc::Global;
use std::test::Fail;

/// The lines of a medium that was made; None where its size is refused.
fn lines_of(made: Result<Medium, MediumFault>) -> Result<Option<u32>, MediumFault> {
    match made {
        Ok(medium) => Ok(Some(medium.lines())),
        Err(MediumFault::Size) => Ok(None),
        Err(fault) => Err(fault),
    }
}

/// The lines of a medium of so many bytes.
fn lines_of_bytes(alloc: Global, count: usize) -> Result<Option<u32>, MediumFault> {
    let bytes = vec![in alloc; 7u8; count]?;
    lines_of(Medium::from_bytes(alloc, &bytes))
}

/// Numbers of lines, and whether a medium can have so many.
static LINES: [(u32, bool); 4] = [(511, false), (512, true), (16_384, true), (16_385, false)];

/// Numbers of bytes, and the lines of a medium of them.
static BYTES: [(usize, Option<u32>); 6] = [
    (32_767, None),
    (32_768, Some(512)),
    (32_769, None),
    (32_704, None),
    (1_048_576, Some(16_384)),
    (1_048_640, None),
];

/// The first number of lines or bytes of which a medium is made or refused otherwise.
fn first_wrong_size(alloc: Global) -> Result<Option<usize>, MediumFault> {
    for (lines, whole) in &LINES {
        if lines_of(Medium::zero(alloc, *lines))? != whole.then_some(*lines) {
            return Ok(Some(*lines as usize));
        }
    }
    for (count, lines) in &BYTES {
        if lines_of_bytes(alloc, *count)? != *lines {
            return Ok(Some(*count));
        }
    }
    Ok(None)
}

#[test]
fn sizes(rt: HostRuntime) -> Result<(), Fail> {
    assert_eq!(rt; first_wrong_size(rt.alloc())?, None);
    Ok(())
}

#[test]
fn numbers_in_bytes(rt: HostRuntime) {
    let mut bytes = [0u8, 1, 2, 3, 4, 5, 6, 7];
    let numbers = [load_bytes(&bytes, 1, 2), load_bytes(&bytes, 0, 8)];
    assert!(rt; numbers == [0x0201, 0x0706_0504_0302_0100]);
    store_bytes(&mut bytes, 2, 4, 0x9911_2233_44aa_bbcc);
    assert!(rt; bytes == [0, 1, 0xcc, 0xbb, 0xaa, 0x44, 6, 7]);
}

/// Two stores in a medium of 512 lines, and a line that is written.
fn write(medium: &mut Medium)
    requires { length medium.old ≡ 512 }
    ensures { length medium.new ≡ 512 }
{
    medium.store(72, 4, 0xff_1122_3344);
    medium.store(32_767, 1, 0x5a);
    let mut line = [9; 64];
    line[63] = 1;
    medium.write_line(0, &line);
}

/// Whether a new medium is of zeros, and loads and a peek whose bytes overlap find what was written.
fn finds_what_was_written(alloc: Global) -> Result<bool, MediumFault> {
    let mut medium = Medium::zero(alloc, 512)?;
    if medium.lines() != 512 || *medium.read_line(511) != [0; 64] {
        return Ok(false);
    }
    write(&mut medium);
    let loads = [medium.load(72, 4), medium.load(74, 2), medium.load(72, 8)];
    Ok(loads == [0x1122_3344, 0x1122, 0x1122_3344] && medium.peek(75) == 0x11)
}

/// The bytes from 61 to 75.
const SOME_BYTES: [u8; 15] = [9, 9, 1, 0, 0, 0, 0, 0, 0, 0, 0, 0x44, 0x33, 0x22, 0x11];

/// Whether the bytes of a copy, and a medium of those bytes, have what was written.
fn copies_what_was_written(alloc: Global) -> Result<bool, MediumFault> {
    let mut medium = Medium::zero(alloc, 512)?;
    if medium.lines() != 512 {
        return Ok(false);
    }
    write(&mut medium);
    let bytes = medium.copy(alloc)?.to_bytes(alloc)?;
    if bytes.len() != 32_768 || &bytes[61..76] != SOME_BYTES.as_slice() || bytes[32_767] != 0x5a {
        return Ok(false);
    }
    let again = Medium::from_bytes(alloc, &bytes)?;
    Ok(again.lines() == 512 && again.load(32_760, 8) == 0x5a00_0000_0000_0000)
}

#[test]
fn lines_and_bytes(rt: HostRuntime) -> Result<(), Fail> {
    assert!(rt; finds_what_was_written(rt.alloc())?);
    assert!(rt; copies_what_was_written(rt.alloc())?);
    Ok(())
}

/// A call of the text and data, with what it gives. Loads and stores are of so many bytes at an address.
#[derive(Clone, Copy)]
enum Call {
    Load(u64, u32, u64),
    Store(u64, u32, u64),
    Peek(u64, Option<u8>),
    /// The byte of the text at an index.
    Text(usize, u8),
    /// A load and a store, both refused.
    Refused(u64, u32, MemFault),
}

/// Calls on a text of four bytes and data of one.
static CALLS: [Call; 11] = [
    Call::Load(TEXT_BASE, 8, 0x0403_0201),
    Call::Load(DATA_BASE, 4, 5),
    Call::Store(0x1_0002, 2, 0xabcd_ef12),
    Call::Load(0x1_0000, 4, 0xef12_0201),
    Call::Text(2, 0x12),
    Call::Store(0x1f_fff8, 8, 0x8877_6655_4433_2211),
    Call::Peek(0x1f_ffff, Some(0x88)),
    Call::Load(0x1f_ffff, 1, 0x88),
    Call::Store(0x1_ffff, 1, 0x77),
    Call::Peek(0x1_ffff, Some(0x77)),
    Call::Peek(0x2_0000, None),
];

static REFUSED: [Call; 10] = [
    Call::Refused(0x1_0001, 2, MemFault::Misaligned),
    Call::Refused(3, 2, MemFault::Misaligned),
    Call::Refused(2, 2, MemFault::Outside),
    Call::Refused(0xffff, 1, MemFault::Outside),
    Call::Refused(0x2_0000, 1, MemFault::Outside),
    Call::Refused(0x1f_fffc, 8, MemFault::Misaligned),
    Call::Refused(0x20_0000, 4, MemFault::Outside),
    Call::Refused(PERSISTENT_BASE, 8, MemFault::Outside),
    Call::Refused(u64::MAX, 1, MemFault::Outside),
    Call::Refused(u64::MAX, 4, MemFault::Misaligned),
];

fn is_width(width: u32) -> bool
    ensures { result ≡ true → IsWidth width }
{
    width == 1 || width == 2 || width == 4 || width == 8
}

/// Makes a call, and tells whether it gives what it is to give. One of no width is not made.
fn holds(ram: &mut Ram, call: Call) -> bool {
    match call {
        Call::Load(addr, width, value) if is_width(width) => ram.load(addr, width) == Ok(value),
        Call::Store(addr, width, value) if is_width(width) => {
            ram.store(addr, width, value) == Ok(())
        }
        Call::Refused(addr, width, fault) if is_width(width) => {
            ram.load(addr, width) == Err(fault) && ram.store(addr, width, 1) == Err(fault)
        }
        Call::Peek(addr, byte) => ram.peek(addr) == byte,
        Call::Text(index, byte) => ram.text().get(index) == Some(&byte),
        _ => false,
    }
}

/// The place of the first call that gives something else.
fn first_difference(
    alloc: Global,
    text: &[u8],
    data: &[u8],
    calls: &[Call],
) -> Result<Option<usize>, MediumFault>
    requires text { length text.now ≤ 4 }
    requires static_data { length «data».now ≤ 1 }
{
    let mut ram = Ram::from_bytes(alloc, text, data)?;
    for (place, call) in calls.iter().enumerate() {
        if !holds(&mut ram, *call) {
            return Ok(Some(place));
        }
    }
    Ok(None)
}

#[test]
fn text_and_data(rt: HostRuntime) -> Result<(), Fail> {
    let used = first_difference(rt.alloc(), &[1, 2, 3, 4], &[5], &CALLS)?;
    let refused = first_difference(rt.alloc(), &[], &[], &REFUSED)?;
    assert_eq!(rt; used, None);
    assert_eq!(rt; refused, None);
    Ok(())
}
