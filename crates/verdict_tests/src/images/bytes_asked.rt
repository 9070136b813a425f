//! The branches of a small recovery that asks bytes of a line, and then others of the same line.

ghost use Rattle.std.specs.Prelude.{◌≡◌, ◌<◌, ◌≤◌, length};
ghost use Rattle.verdict.specs.Bytes.{has_byte};

use std::alloc::{AllocError, Global};
use std::test::Fail;
use std::thread::Threads;
use verdict::{Opened, Opener, Question, Recovery};

/// Asks byte 0 of its one line, and byte 8 too where byte 0 is the key. Then the image is bad where byte 8 is at least so much, and that
/// byte is the cause. The line stands after 0 to 3 stores, and has these bytes after each number of them.
#[derive(Clone, Copy)]
struct Twice {
    first: [u8; 4],
    later: [u8; 4],
    key: u8,
    bad: u8,
}

impl Recovery for Twice {
    ghost use Rattle.std.specs.Prelude.{false, slice_index};
    ghost use Rattle.std.proofs.Common.{rules};
    ghost use Rattle.verdict_tests.specs.AskedAgain.{Asks, IsJudged, adaptive, alike_both, alike_equal, alike_nothing, branchwise, shared, two_alike};

    type Cause = u8;

    type Workspace = ();

    ghost lines = { λ s. 1 };

    ghost low = { λ s l. 0 };

    ghost high = { λ s l. 3 };

    ghost alike = { λ s. two_alike s.first s.later };

    ghost further = { λ s. false };

    ghost asks = { λ s k qs. Asks s.first s.key k qs };

    ghost judged = { λ s k found. IsJudged s.first s.later s.key s.bad k found };

    ghost fits = { λ s workspace. Unit {0} };

    fn lines(&self) -> u32 {
        1
    }

    fn floor(&self, _line: u32) -> u32 {
        0
    }

    fn stores(&self, _line: u32) -> u32 {
        3
    }

    fn is_alike(&self, asked: Question, one: u32, other: u32) -> bool {
        let (one, other) = (one as usize, other as usize);
        let is_first_alike = !has_byte(asked.bytes, 0) || self.first[one] == self.first[other];
        let is_later_alike = !has_byte(asked.bytes, 8) || self.later[one] == self.later[other];
        is_first_alike && is_later_alike
    }

    fn is_first(&self, asked: Question, number: u32) -> bool {
        for lower in 0..number {
            if self.is_alike(asked, lower, number) {
                return false;
            }
        }
        true
    }

    fn tries_further(&self) -> bool {
        false
    }

    fn workspace(&self, _alloc: Global) -> Result<(), AllocError> {
        Ok(())
    }

    fn recover(
        &self,
        _alloc: Global,
        _workspace: &mut (),
        numbers: &[u32],
        asked: &mut Vec<Question>,
    ) -> Result<Option<u8>, AllocError> {
        let number = numbers[0] as usize;
        asked.push(Question { line: 0, bytes: 1 })?;
        if self.first[number] != self.key {
            return Ok(None);
        }
        asked.push(Question {
            line: 0,
            bytes: 0x100,
        })?;
        if self.bad <= self.later[number] {
            Ok(Some(self.later[number]))
        } else {
            Ok(None)
        }
    }

    ghost ordered = { λ s l. Prim.search rules };

    ghost equivalent = { λ s. alike_equal s.first s.later };

    ghost nothing = { λ s l n m. alike_nothing s.first s.later l n m };

    ghost both = { λ s l a b n m. alike_both s.first s.later l a b n m };

    ghost adaptive = { λ s. adaptive s.first s.later s.key };

    ghost shared = { λ s. shared s.first s.later s.key };

    ghost branchwise = { λ s c k qs found a h f. branchwise s.first s.later s.key s.bad c k qs found a h f };
}

/// Whether a byte is among these.
fn has_byte(bytes: u64, index: u32) -> bool
    requires { index < 64 }
    ensures { result ≡ has_byte bytes index }
{
    (bytes >> index) % 2 == 1
}

/// What an opening came to: over its limit, all cuts pass, or the number of the least bad cut with its cause.
#[derive(Clone, Copy, Debug, PartialEq, Eq)]
enum Outcome {
    Over,
    Pass,
    Bad(u32, u8),
}

/// Byte 0 is the same after 0, 1 and 2 stores, and byte 8 after 0 and 1 of them.
const PARTED: Twice = Twice {
    first: [4, 4, 4, 7],
    later: [1, 1, 2, 2],
    key: 4,
    bad: 9,
};

/// Byte 0 is the same after 0 and 2 stores, and after 1 and 3; byte 8 after 0 and 1, and after 2 and 3.
const CROSSED: Twice = Twice {
    first: [4, 7, 4, 7],
    later: [1, 1, 2, 2],
    key: 7,
    bad: 9,
};

/// Openings: the recovery, the limit, and what comes of it.
static OPENINGS: [(Twice, u32, Outcome); 11] = [
    // byte 0 parts {0, 1, 2} from {3}, and byte 8, which is asked of the three alone, {0, 1} from {2}: three branches
    (PARTED, 3, Outcome::Pass),
    (PARTED, 2, Outcome::Over),
    // of {3} alone byte 8 is asked: two branches
    (Twice { key: 7, ..PARTED }, 2, Outcome::Pass),
    (Twice { key: 7, ..PARTED }, 1, Outcome::Over),
    // of none is it asked
    (Twice { key: 5, ..PARTED }, 2, Outcome::Pass),
    (Twice { key: 5, ..PARTED }, 1, Outcome::Over),
    // the least with 2 in byte 8 among those of which it is asked
    (Twice { bad: 2, ..PARTED }, 3, Outcome::Bad(2, 2)),
    (Twice { bad: 1, ..PARTED }, 3, Outcome::Bad(0, 1)),
    // byte 0 parts {0, 2} from {1, 3}, and byte 8, asked of the latter, {1} from {3}: three branches
    (CROSSED, 3, Outcome::Pass),
    (CROSSED, 2, Outcome::Over),
    (Twice { bad: 2, ..CROSSED }, 3, Outcome::Bad(3, 2)),
];

/// What the branches of the recovery come to.
fn outcome_of<R: Threads + Sync>(
    rt: &R,
    alloc: Global,
    opener: &mut Opener,
    recovery: &Twice,
    limit: u32,
) -> Result<Outcome, AllocError>
    requires size { length opener.old ≡ 1 }
    requires some { 1 ≤ limit }
    ensures { length opener.new ≡ 1 }
{
    match opener.open(rt, alloc, recovery, &mut (), limit)? {
        Opened::Over { .. } => Ok(Outcome::Over),
        Opened::OverBad { .. } => Err(AllocError),
        Opened::Pass => Ok(Outcome::Pass),
        Opened::Bad { numbers, cause } => Ok(Outcome::Bad(numbers[0], cause)),
    }
}

/// The place of the first opening that doesn't come to what it should, or that didn't ask the line.
fn first_wrong<R: Threads + Sync>(rt: &R, alloc: Global) -> Result<Option<usize>, AllocError> {
    let mut opener = Opener::new(alloc, 1)?;
    for (place, (recovery, limit, outcome)) in OPENINGS.iter().enumerate() {
        if *limit == 0 || outcome_of(rt, alloc, &mut opener, recovery, *limit)? != *outcome {
            return Ok(Some(place));
        }
        if !opener.was_asked(0) {
            return Ok(Some(place));
        }
    }
    Ok(None)
}

#[test]
fn lines_asked_again_part(rt: HostRuntime) -> Result<(), Fail> {
    assert_eq!(rt; first_wrong(&rt, rt.alloc())?, None);
    Ok(())
}
