//! What is found after stores, and after setting back.

ghost use Rattle.std.specs.Prelude.{◌≡◌, length};
ghost use Rattle.line_memory.specs.Lines.{IsMedium};
ghost use Rattle.recovery.specs.Held.{IsOver};

use line_memory::{Medium, MediumFault};
use recovery::Held;
use std::alloc::{AllocError, Global};
use std::test::Fail;

/// A number in the second line of a medium.
fn write(medium: &mut Medium, number: u64)
    requires { length medium.old ≡ 512 }
    ensures whole { IsMedium medium.new }
    ensures count { length medium.new ≡ 512 }
{
    medium.store(72, 4, number);
}

/// The numbers and the byte at three places.
fn found(held: &Held, medium: &Medium) -> [u64; 3]
    requires over { IsOver held.now medium.now }
    requires count { length held.now ≡ 512 }
{
    [
        held.load(medium, 72, 8),
        held.load(medium, 32_760, 4),
        u64::from(held.peek(medium, 76)),
    ]
}

/// What is found after two stores in one line and one in the last.
fn stored(held: &mut Held, medium: &Medium) -> Result<[u64; 3], AllocError>
    requires over { IsOver held.old medium.now }
    requires count { length held.old ≡ 512 }
    ensures { length held.new ≡ 512 }
{
    held.store(medium, 74, 2, 0xaabb)?;
    held.store(medium, 76, 1, 0xffcc)?;
    held.store(medium, 32_760, 8, 0x1122_3344_5566_7788)?;
    Ok(found(held, medium))
}

/// What is found over a medium after stores, and over another one after setting back; None where they aren't of 512 lines.
#[tactic(auto, using(recovery::proofs::Holding::over_fresh))]
fn both(alloc: Global) -> Result<Option<[[u64; 3]; 2]>, MediumFault> {
    let mut one = Medium::zero(alloc, 512)?;
    let mut other = Medium::zero(alloc, 512)?;
    if one.lines() != 512 || other.lines() != 512 {
        return Ok(None);
    }
    write(&mut one, 0x0102_0304);
    write(&mut other, 9);
    let mut held = Held::new(alloc, 512)?;
    let after_stores = stored(&mut held, &one)?;
    held.set_back();
    Ok(Some([after_stores, found(&held, &other)]))
}

#[test]
fn stores_are_found_until_they_are_set_back(rt: HostRuntime) -> Result<(), Fail> {
    let found = both(rt.alloc())?;
    assert!(rt; found == Some([[0xcc_aabb_0304, 0x5566_7788, 0xcc], [9, 0, 0]]));
    Ok(())
}
