//! Small lists of steps, with their numbers by hand.

use store_trace::{PersistenceStep, count_cuts, floor, line_image, stores, written_back};

fn store(line: u32, value: u64) -> PersistenceStep {
    PersistenceStep::Store {
        line,
        offset: 0,
        width: 8,
        value,
    }
}

fn clean(hart: u32) -> PersistenceStep {
    PersistenceStep::Clean { hart, line: 5 }
}

fn fence(hart: u32) -> PersistenceStep {
    PersistenceStep::Fence { hart }
}

/// Three stores in line 5, the first two of them cleaned by hart 0, and a fence of each hart.
fn fenced() -> [PersistenceStep; 6] {
    [
        store(5, 1),
        store(5, 2),
        clean(0),
        store(5, 3),
        fence(1),
        fence(0),
    ]
}

#[test]
fn fence_of_other_hart(rt: HostRuntime) {
    let numbers = [
        stores(&fenced(), 5),
        floor(&fenced()[..5], 5),
        floor(&fenced(), 5),
    ];
    assert!(rt; numbers == [3, 0, 2]);
    let counts = [count_cuts(&fenced()[..5]), count_cuts(&fenced())];
    assert!(rt; counts == [Some(4), Some(2)]);
}

fn two_lines() -> [PersistenceStep; 5] {
    [
        store(9, 1),
        store(2, 1),
        store(9, 2),
        store(2, 2),
        store(9, 3),
    ]
}

#[test]
fn free_lines(rt: HostRuntime) {
    let mut lines = [store(0, 1); 17];
    for line in 0..17 {
        lines[line as usize] = store(line, 1);
    }
    let counts = [
        count_cuts(&two_lines()),
        count_cuts(&two_lines()[..0]),
        count_cuts(&lines[..16]),
        count_cuts(&lines),
    ];
    assert!(rt; counts == [Some(12), Some(1), Some(65_536), None]);
}

fn evicted() -> [PersistenceStep; 5] {
    [
        store(5, 1),
        clean(0),
        PersistenceStep::Evict { line: 5 },
        store(5, 2),
        fence(0),
    ]
}

fn cleaned_twice() -> [PersistenceStep; 4] {
    [store(5, 1), clean(0), clean(1), fence(0)]
}

fn fenced_twice() -> [PersistenceStep; 5] {
    [store(5, 1), clean(0), fence(0), store(5, 2), fence(0)]
}

#[test]
fn write_backs(rt: HostRuntime) {
    let numbers = [
        written_back(&fenced()[..5], 5),
        written_back(&fenced(), 5),
        written_back(&evicted(), 5),
        written_back(&cleaned_twice(), 5),
        written_back(&fenced_twice(), 5),
    ];
    assert!(rt; numbers == [0, 3, 1, 1, 1]);
}

/// The number of cuts of three stores in line 5, the last of them after a clean that is fenced, and a line after so many of its
/// stores, over zeros.
fn imaged(line: u32, number: u32) -> (Option<u32>, [u8; 64]) {
    let steps = [
        PersistenceStep::Store {
            line: 5,
            offset: 0,
            width: 8,
            value: 1,
        },
        PersistenceStep::Store {
            line: 5,
            offset: 0,
            width: 8,
            value: 0x0102,
        },
        PersistenceStep::Clean { hart: 0, line: 5 },
        PersistenceStep::Store {
            line: 5,
            offset: 2,
            width: 1,
            value: 0xFF07,
        },
        PersistenceStep::Fence { hart: 0 },
    ];
    (
        count_cuts(&steps),
        line_image(&[0; 64], &steps, line, number),
    )
}

/// Lines and numbers of stores, with the first bytes of the image.
static IMAGES: [(u32, u32, [u8; 4]); 4] = [
    (5, 0, [0, 0, 0, 0]),
    (4, 3, [0, 0, 0, 0]),
    (5, 2, [2, 1, 0, 0]),
    (5, 3, [2, 1, 7, 0]),
];

#[test]
fn two_images(rt: HostRuntime) {
    for (line, number, bytes) in &IMAGES {
        let (count, image) = imaged(*line, *number);
        let mut expected = [0; 64];
        expected[..4].copy_from_slice(bytes);
        assert!(rt;
            count == Some(2) && image == expected,
            "line {line} after {number}"
        );
    }
}
