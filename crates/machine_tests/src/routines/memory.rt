//! Memory over images by itself: places, loads, stores and bytes, and the start after setting back.

ghost use Rattle.std.specs.Prelude.{◌≡◌, length, IfSome};
ghost use Rattle.recovery.specs.Held.{IsOver};
ghost use Rattle.recovery.specs.Memory.{IsAtStart};

use crate::routines::samples::image_of;
use assemble::assemble;
use line_memory::{Medium, MemFault};
use program::load;
use recovery::{HeldMemory, Place};
use std::alloc::Global;
use std::test::Fail;

/// A memory over images of 512 lines at its start, with a word of text and one of data.
fn memory_of(alloc: Global) -> Option<HeldMemory>
    ensures { IfSome result (λ held. IsAtStart held 512) }
{
    let object = assemble(alloc, b"ecall\n.data\n.dword 0x1122334455667788\n").ok()?;
    let program = load(object).ok()?;
    HeldMemory::new(alloc, program, 512).ok()
}

/// Where accesses of eight bytes begin.
fn places(held: &HeldMemory, image: &Medium) -> [Result<Place, MemFault>; 6]
    requires { IsOver held.now.image image.now }
{
    [
        held.place(image, 0x1_fff8, 8),
        held.place(image, 0x10_0000, 8),
        held.place(image, 0x4000_7ff8, 8),
        held.place(image, 0x4000_8000, 8),
        held.place(image, 0x20_0000, 8),
        held.place(image, 0x10_0004, 8),
    ]
}

const PLACES: [Result<Place, MemFault>; 6] = [
    Ok(Place::Text(0xfff8)),
    Ok(Place::Data(0)),
    Ok(Place::Image(0x7ff8)),
    Err(MemFault::Outside),
    Err(MemFault::Outside),
    Err(MemFault::Misaligned),
];

/// The number at an address before and after a store of its lowest bytes; None where it can't be accessed.
fn changed(held: &mut HeldMemory, image: &Medium, address: u64) -> Option<[u64; 2]>
    requires { IsOver held.old.image image.now }
    ensures over { IsOver held.new.image image.now }
    ensures count { length held.new.image ≡ length held.old.image }
{
    let place = held.place(image, address, 8).ok()?;
    let before = held.load(image, place, 8);
    held.store(image, place, 4, 0xffff_aabb_ccdd).ok()?;
    Some([before, held.load(image, place, 8)])
}

/// The numbers of text, data and the image before and after stores, and before others once memory was set back.
fn found(alloc: Global) -> Option<([[u64; 2]; 3], [[u64; 2]; 3])> {
    let mut held = memory_of(alloc)?;
    found_over_five(alloc, &mut held)
}

fn found_over_five(alloc: Global, held: &mut HeldMemory) -> Option<([[u64; 2]; 3], [[u64; 2]; 3])>
    requires { IsAtStart held.old 512 }
{
    let image = image_of(alloc, &[(0x7ff8, 5)])?;
    changed_twice(held, &image)
}

#[tactic(auto, using(recovery::proofs::Placing::over_at_start))]
fn changed_twice(held: &mut HeldMemory, image: &Medium) -> Option<([[u64; 2]; 3], [[u64; 2]; 3])>
    requires start { IsAtStart held.old 512 }
    requires image { length image.now ≡ 512 }
{
    let _ = image.lines();
    let first = all_changed(held, image)?;
    held.set_back();
    let second = all_changed(held, image)?;
    Some((first, second))
}

fn all_changed(held: &mut HeldMemory, image: &Medium) -> Option<[[u64; 2]; 3]>
    requires { IsOver held.old.image image.now }
    ensures count { length held.new.image ≡ length held.old.image }
{
    let text = changed(held, image, 0x1_0000)?;
    let bytes = changed(held, image, 0x10_0000)?;
    let last = changed(held, image, 0x4000_7ff8)?;
    Some([text, bytes, last])
}

const CHANGED: [[u64; 2]; 3] = [
    [0x73, 0xaabb_ccdd],
    [0x1122_3344_5566_7788, 0x1122_3344_aabb_ccdd],
    [5, 0xaabb_ccdd],
];

#[test]
fn memory_is_set_back(rt: HostRuntime) -> Result<(), Fail> {
    assert!(rt; found(rt.alloc()) == Some((CHANGED, CHANGED)));
    Ok(())
}

/// Places, bytes in each region and in none, and the first bytes of text at the start and after a store.
fn looks(alloc: Global) -> Option<bool> {
    let mut held = memory_of(alloc)?;
    looks_over(alloc, &mut held)
}

fn looks_over(alloc: Global, held: &mut HeldMemory) -> Option<bool>
    requires { IsAtStart held.old 512 }
{
    let image = image_of(alloc, &[(0, 0x1234)])?;
    is_seen(alloc, held, &image)
}

#[tactic(auto, using(recovery::proofs::Placing::over_at_start))]
fn is_seen(alloc: Global, held: &mut HeldMemory, image: &Medium) -> Option<bool>
    requires start { IsAtStart held.old 512 }
    requires image { length image.now ≡ 512 }
{
    let _ = image.lines();
    changed(held, image, 0x1_0000)?;
    let is_placed = places(held, image) == PLACES;
    let has_bytes = bytes(held, image) == [Some(0xdd), Some(0x88), Some(0x12), None];
    Some(is_placed && has_bytes && is_read(alloc, held)?)
}

fn zeros(alloc: Global, count: usize) -> Option<Vec<u8>> {
    vec![in alloc; 0u8; count].ok()
}

fn bytes(held: &HeldMemory, image: &Medium) -> [Option<u8>; 4]
    requires { IsOver held.now.image image.now }
{
    [
        held.peek(image, 0x1_0000),
        held.peek(image, 0x10_0000),
        held.peek(image, 0x4000_0001),
        held.peek(image, 0x4000_8000),
    ]
}

/// Whether the text is read as it is, and the start still told as it was.
fn is_read(alloc: Global, held: &HeldMemory) -> Option<bool> {
    let mut text = zeros(alloc, 65_536)?;
    if text.len() != 65_536 {
        return None;
    }
    held.read_text(&mut text);
    Some(text.starts_with(b"\xdd\xcc\xbb\xaa") && held.starting_text().starts_with(b"\x73\0\0\0"))
}

#[test]
fn memory_is_looked_at(rt: HostRuntime) -> Result<(), Fail> {
    assert_eq!(rt; looks(rt.alloc()), Some(true));
    Ok(())
}
