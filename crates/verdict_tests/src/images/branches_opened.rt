//! The branches of a small recovery over three lines.

ghost use Rattle.image_check.specs.Verdicts.{whole_line};
ghost use Rattle.verdict.specs.Branches.{IsWithin};
ghost use Rattle.std.specs.Prelude.{◌≡◌, ◌≤◌, length};

use std::alloc::{AllocError, Global};
use std::test::Fail;
use std::thread::Threads;
use verdict::{Opened, Opener, Question, Recovery};

/// Asks the whole of line 0, and lines 1 and 2 only where line 0 has so many stores as the key. Then the image is bad where line 1 has
/// at least so many stores, and that number is the cause. Each line stands after none of its stores, or more. Where there are too many
/// branches, further images are tried or not.
#[derive(Clone, Copy)]
struct Small {
    stores: [u32; 3],
    key: u32,
    bad: u32,
    further: bool,
}

impl Recovery for Small {
    ghost use Rattle.std.specs.Prelude.{slice_index};
    ghost use Rattle.verdict.specs.Branches.{same_number};
    ghost use Rattle.verdict.proofs.Numbering.{numbers_both, numbers_equal, numbers_nothing};
    ghost use Rattle.std.proofs.Common.{rules};
    ghost use Rattle.verdict_tests.specs.Asked.{Asks, IsJudged, adaptive, branchwise, shared};

    type Cause = u32;

    type Workspace = ();

    ghost lines = { λ s. 3 };

    ghost low = { λ s l. 0 };

    ghost high = { λ s l. slice_index s.stores l };

    ghost alike = { λ s. same_number };

    ghost further = { λ s. s.further };

    ghost asks = { λ s k qs. Asks s.key k qs };

    ghost judged = { λ s k found. IsJudged s.key s.bad k found };

    ghost fits = { λ s workspace. Unit {0} };

    fn lines(&self) -> u32 {
        3
    }

    fn floor(&self, _line: u32) -> u32 {
        0
    }

    fn stores(&self, line: u32) -> u32 {
        self.stores[line as usize]
    }

    fn is_alike(&self, asked: Question, one: u32, other: u32) -> bool {
        asked.bytes == 0 || one == other
    }

    fn is_first(&self, asked: Question, _number: u32) -> bool {
        asked.bytes != 0
    }

    fn tries_further(&self) -> bool {
        self.further
    }

    fn workspace(&self, _alloc: Global) -> Result<(), AllocError> {
        Ok(())
    }

    fn recover(
        &self,
        _alloc: Global,
        _workspace: &mut (),
        numbers: &[u32],
        asked: &mut Vec<Question>,
    ) -> Result<Option<u32>, AllocError> {
        asked.push(whole_line(0))?;
        if numbers[0] != self.key {
            return Ok(None);
        }
        asked.push(whole_line(1))?;
        asked.push(whole_line(2))?;
        if self.bad <= numbers[1] {
            Ok(Some(numbers[1]))
        } else {
            Ok(None)
        }
    }

    ghost ordered = { λ s l. Prim.search rules };

    ghost equivalent = { λ s. numbers_equal };

    ghost nothing = { λ s l n m. numbers_nothing l n m };

    ghost both = { λ s l a b n m. numbers_both l a b n m };

    ghost adaptive = { λ s. adaptive s.key };

    ghost shared = { λ s. shared s.key };

    ghost branchwise = { λ s c k qs found a h f. branchwise s.key s.bad c k qs found a h f };
}

/// All bytes of a line.
fn whole_line(line: u32) -> Question
    ensures { result ≡ whole_line line }
{
    Question {
        line,
        bytes: u64::MAX,
    }
}

/// What an opening came to.
#[derive(Clone, Copy, Debug, PartialEq, Eq)]
enum Outcome {
    /// It is over its limit, and no further images are tried.
    Over,
    /// It is over its limit, and no bad image was found: whether each line is one whose edge images are tried.
    Tried([bool; 3]),
    /// It is over its limit, and this cut is bad for this cause.
    OverBad([u32; 3], u32),
    /// All cuts pass.
    Pass,
    /// The least bad cut, and its cause.
    Bad([u32; 3], u32),
}

/// Openings in turn by one opener: the recovery, the limit, what comes of it, and the lines of four that were asked.
static OPENINGS: [(Small, u32, Outcome, [bool; 4]); 11] = [
    // seven branches: line 0 at 1, and the six cuts with line 0 at 0
    (
        Small {
            stores: [1, 2, 1],
            key: 0,
            bad: 3,
            further: false,
        },
        7,
        Outcome::Pass,
        [true, true, true, false],
    ),
    (
        Small {
            stores: [1, 2, 1],
            key: 0,
            bad: 3,
            further: false,
        },
        6,
        Outcome::Over,
        [true, true, true, false],
    ),
    // the cuts from (0, 1, 0) on are bad, and then those with two stores of line 1
    (
        Small {
            stores: [1, 2, 1],
            key: 0,
            bad: 1,
            further: false,
        },
        7,
        Outcome::Bad([0, 1, 0], 1),
        [true, true, true, false],
    ),
    // line 0 at 1 alone asks the others
    (
        Small {
            stores: [1, 2, 1],
            key: 1,
            bad: 2,
            further: false,
        },
        7,
        Outcome::Bad([1, 2, 0], 2),
        [true, true, true, false],
    ),
    // no cut asks the others
    (
        Small {
            stores: [1, 2, 1],
            key: 5,
            bad: 0,
            further: false,
        },
        2,
        Outcome::Pass,
        [true, false, false, false],
    ),
    (
        Small {
            stores: [1, 0, 0],
            key: 5,
            bad: 0,
            further: false,
        },
        1,
        Outcome::Over,
        [true, false, false, false],
    ),
    // seven branches are too many, and no cut has three stores of line 1
    (
        Small {
            stores: [1, 2, 1],
            key: 0,
            bad: 3,
            further: true,
        },
        6,
        Outcome::Tried([true, true, true]),
        [true, true, true, false],
    ),
    // seven are found only once (0, 1, 0) is opened, which is less than the edge with all stores of line 1
    (
        Small {
            stores: [1, 2, 1],
            key: 0,
            bad: 1,
            further: true,
        },
        6,
        Outcome::OverBad([0, 1, 0], 1),
        [true, true, true, false],
    ),
    // the first branch alone is opened, and asks all lines; of the edges the first with two stores of line 1 has them alone
    (
        Small {
            stores: [1, 2, 1],
            key: 0,
            bad: 2,
            further: true,
        },
        1,
        Outcome::OverBad([0, 2, 0], 2),
        [true, true, true, false],
    ),
    // the second branch, (1, 0, 0), finds three more and is opened last; only the edge with all stores but line 2's has two of line 1 and
    // the key
    (
        Small {
            stores: [1, 2, 1],
            key: 1,
            bad: 2,
            further: true,
        },
        4,
        Outcome::OverBad([1, 2, 0], 2),
        [true, true, true, false],
    ),
    // line 0 alone is asked, so that no edge has stores of line 1
    (
        Small {
            stores: [1, 2, 1],
            key: 1,
            bad: 2,
            further: true,
        },
        1,
        Outcome::Tried([true, false, false]),
        [true, false, false, false],
    ),
];

/// What the branches of the recovery come to.
fn outcome_of<R: Threads + Sync>(
    rt: &R,
    alloc: Global,
    opener: &mut Opener,
    recovery: &Small,
    limit: u32,
) -> Result<Outcome, AllocError>
    requires size { length opener.old ≡ 3 }
    requires some { 1 ≤ limit }
    ensures { length opener.new ≡ 3 }
{
    match opener.open(rt, alloc, recovery, &mut (), limit)? {
        Opened::Over { lines: None } => Ok(Outcome::Over),
        Opened::Over { lines: Some(lines) } => Ok(Outcome::Tried([
            lines.contains(&0),
            lines.contains(&1),
            lines.contains(&2),
        ])),
        Opened::OverBad { numbers, cause } => Ok(Outcome::OverBad(three(&numbers), cause)),
        Opened::Pass => Ok(Outcome::Pass),
        Opened::Bad { numbers, cause } => Ok(Outcome::Bad(three(&numbers), cause)),
    }
}

/// The first three numbers.
fn three(numbers: &[u32]) -> [u32; 3] {
    match numbers {
        [first, second, third, ..] => [*first, *second, *third],
        _ => [0; 3],
    }
}

/// The place of the first opening that doesn't come to what it should.
fn first_wrong<R: Threads + Sync>(rt: &R, alloc: Global) -> Result<Option<usize>, AllocError> {
    let mut opener = Opener::new(alloc, 3)?;
    for (place, (recovery, limit, outcome, asked)) in OPENINGS.iter().enumerate() {
        if *limit == 0 || outcome_of(rt, alloc, &mut opener, recovery, *limit)? != *outcome {
            return Ok(Some(place));
        }
        let were_asked = [
            opener.was_asked(0),
            opener.was_asked(1),
            opener.was_asked(2),
            opener.was_asked(3),
        ];
        if were_asked != *asked {
            return Ok(Some(place));
        }
    }
    Ok(None)
}

#[test]
fn openings_in_turn(rt: HostRuntime) -> Result<(), Fail> {
    assert_eq!(rt; first_wrong(&rt, rt.alloc())?, None);
    Ok(())
}
