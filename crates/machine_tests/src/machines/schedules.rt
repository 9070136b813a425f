//! Texts that are schedules, texts that are none, and how schedules are written.

use machine::{Item, Schedule, ScheduleFault};
use std::alloc::{AllocError, Global};
use std::test::Fail;

/// Texts, and the items that they are read as.
static SCHEDULES: [(&[u8], &[Item]); 13] = [
    (b"", &[]),
    (b" \n  \n", &[]),
    (b"h0", &[Item::Steps { hart: 0, count: 1 }]),
    (b"h3*4", &[Item::Steps { hart: 3, count: 4 }]),
    (b"e512", &[Item::Evict { line: 512 }]),
    (
        b"h0*3 h0 e2 h1*2",
        &[
            Item::Steps { hart: 0, count: 3 },
            Item::Steps { hart: 0, count: 1 },
            Item::Evict { line: 2 },
            Item::Steps { hart: 1, count: 2 },
        ],
    ),
    (
        b"h0\ne1\n\nh1\n",
        &[
            Item::Steps { hart: 0, count: 1 },
            Item::Evict { line: 1 },
            Item::Steps { hart: 1, count: 1 },
        ],
    ),
    (
        b"  h0   e1 ",
        &[Item::Steps { hart: 0, count: 1 }, Item::Evict { line: 1 }],
    ),
    (
        b"h00*002 e0007",
        &[Item::Steps { hart: 0, count: 2 }, Item::Evict { line: 7 }],
    ),
    (
        b"h0*4294967295",
        &[Item::Steps {
            hart: 0,
            count: 4_294_967_295,
        }],
    ),
    (
        b"h4294967295 e4294967295 e4294967295",
        &[
            Item::Steps {
                hart: 4_294_967_295,
                count: 1,
            },
            Item::Evict {
                line: 4_294_967_295,
            },
            Item::Evict {
                line: 4_294_967_295,
            },
        ],
    ),
    (
        b"h0*4294967294 e1 h1",
        &[
            Item::Steps {
                hart: 0,
                count: 4_294_967_294,
            },
            Item::Evict { line: 1 },
            Item::Steps { hart: 1, count: 1 },
        ],
    ),
    (
        b"h0 e1 h1 e2 h2 e3 h3 e4 h4 e5 h5 e6 h6 e7 h7 e8 h0*20 h0*3",
        &[
            Item::Steps { hart: 0, count: 1 },
            Item::Evict { line: 1 },
            Item::Steps { hart: 1, count: 1 },
            Item::Evict { line: 2 },
            Item::Steps { hart: 2, count: 1 },
            Item::Evict { line: 3 },
            Item::Steps { hart: 3, count: 1 },
            Item::Evict { line: 4 },
            Item::Steps { hart: 4, count: 1 },
            Item::Evict { line: 5 },
            Item::Steps { hart: 5, count: 1 },
            Item::Evict { line: 6 },
            Item::Steps { hart: 6, count: 1 },
            Item::Evict { line: 7 },
            Item::Steps { hart: 7, count: 1 },
            Item::Evict { line: 8 },
            Item::Steps { hart: 0, count: 20 },
            Item::Steps { hart: 0, count: 3 },
        ],
    ),
];

/// What a text is read as. A call that is refused memory is made again.
fn read(alloc: Global, text: &[u8]) -> Result<Schedule, ScheduleFault> {
    match Schedule::read(alloc, text) {
        Err(ScheduleFault::Memory) => Schedule::read(alloc, text),
        outcome => outcome,
    }
}

fn is_same(item: Item, other: Item) -> bool {
    match (item, other) {
        (
            Item::Steps { hart, count },
            Item::Steps {
                hart: by,
                count: more,
            },
        ) => { hart == by && count == more }
        (Item::Evict { line }, Item::Evict { line: other }) => line == other,
        _ => false,
    }
}

fn are_same(items: &[Item], others: &[Item]) -> bool {
    for (item, other) in items.iter().zip(others) {
        if !is_same(*item, *other) {
            return false;
        }
    }
    items.len() == others.len()
}

fn is_read_so(alloc: Global, text: &[u8], items: &[Item]) -> bool {
    match read(alloc, text) {
        Ok(schedule) => are_same(schedule.items(), items),
        Err(_) => false,
    }
}

#[test]
fn schedules_are_read(rt: HostRuntime) {
    let differing = SCHEDULES
        .iter()
        .position(|(text, items)| !is_read_so(rt.alloc(), *text, *items));
    assert_eq!(rt; differing, None);
}

static OTHER_TEXTS: [&[u8]; 30] = [
    b"h0*0",
    b"h0*00",
    b"h0*4294967295 h0",
    b"h0*2147483648 h1*2147483648",
    b"h0*4294967296",
    b"h4294967296",
    b"e4294967296",
    b"h0*18446744073709551617",
    b"h0\th1",
    b"h0\r\nh1",
    b"h0,h1",
    b"h0 # one step",
    b"h",
    b"e",
    b"h0*",
    b"h*1",
    b"*1",
    b"0",
    b"h0e1",
    b"h0h1",
    b"e0*1",
    b"h0*1*1",
    b"h-1",
    b"h+1",
    b"h0*+1",
    b"h 0",
    b"h0 *2",
    b"h0x1",
    b"H0",
    b"h0 h1 x",
];

/// The code with which a text is refused; empty where it is read.
fn code_of(alloc: Global, text: &[u8]) -> Result<String, AllocError> {
    match read(alloc, text) {
        Ok(_) => Ok(String::new(alloc)),
        Err(fault) => format!(in alloc; "{fault}"),
    }
}

#[test]
fn other_texts_are_refused(rt: HostRuntime) -> Result<(), Fail> {
    for text in &OTHER_TEXTS {
        let code = code_of(rt.alloc(), *text)?;
        assert!(rt; code.as_str() == "G3", "{text:?}");
    }
    Ok(())
}

/// Texts, and what is written of the schedules that they are: neighbouring steps are joined.
static JOINED: [(&[u8], &[u8]); 7] = [
    (b"", b""),
    (b"h0*3 h0 e2 h1*2", b"h0*4 e2 h1*2"),
    (b"h7\n", b"h7*1"),
    (b"e3 e3 h0 h1 h0", b"e3 e3 h0*1 h1*1 h0*1"),
    (b"h0*4294967294 e00 h00", b"h0*4294967294 e0 h0*1"),
    (b"h2 h2 h2*8 h10*20 h2", b"h2*10 h10*20 h2*1"),
    (
        b"h0 e1 h1 e2 h2 e3 h3 e4 h4 e5 h5 e6 h6 e7 h7 e8 h0*20 h0*3",
        b"h0*1 e1 h1*1 e2 h2*1 e3 h3*1 e4 h4*1 e5 h5*1 e6 h6*1 e7 h7*1 e8 h0*23",
    ),
];

/// The text of a schedule. A call that is refused memory is made again.
fn written(alloc: Global, schedule: &Schedule) -> Result<String, ScheduleFault> {
    match schedule.write(alloc) {
        Err(ScheduleFault::Memory) => schedule.write(alloc),
        outcome => outcome,
    }
}

/// Whether this is written of the schedule that a text is.
fn is_rewritten_so(alloc: Global, text: &[u8], expected: &[u8]) -> bool {
    let Ok(schedule) = read(alloc, text) else {
        return false;
    };
    match written(alloc, &schedule) {
        Ok(text) => text.as_bytes() == expected,
        Err(_) => false,
    }
}

#[test]
fn neighbouring_steps_are_joined(rt: HostRuntime) {
    let differing = JOINED.iter().position(|(text, expected)| {
        !is_rewritten_so(rt.alloc(), *text, *expected)
            || !is_rewritten_so(rt.alloc(), *expected, *expected)
    });
    assert_eq!(rt; differing, None);
}

/// Items, and the text of their schedule or why there is none: items without steps aren't written, and no text says more steps
/// than 4,294,967,295.
static WRITTEN: [(&[Item], Result<&str, ScheduleFault>); 3] = [
    (
        &[
            Item::Steps { hart: 1, count: 0 },
            Item::Steps { hart: 0, count: 2 },
            Item::Steps { hart: 1, count: 0 },
            Item::Steps { hart: 0, count: 3 },
            Item::Evict { line: 4 },
            Item::Steps { hart: 2, count: 0 },
        ],
        Ok("h0*5 e4"),
    ),
    (
        &[
            Item::Steps {
                hart: 0,
                count: 2_147_483_647,
            },
            Item::Steps {
                hart: 0,
                count: 2_147_483_647,
            },
            Item::Steps { hart: 1, count: 1 },
        ],
        Ok("h0*4294967294 h1*1"),
    ),
    (
        &[
            Item::Steps {
                hart: 0,
                count: 2_147_483_647,
            },
            Item::Steps {
                hart: 0,
                count: 2_147_483_647,
            },
            Item::Steps { hart: 1, count: 2 },
        ],
        Err(ScheduleFault::Text),
    ),
];

/// A schedule of these items.
fn schedule_of(alloc: Global, items: &[Item]) -> Result<Schedule, AllocError> {
    let mut schedule = Schedule::new(alloc);
    for item in items {
        schedule.push(*item)?;
    }
    Ok(schedule)
}

fn is_written_so(alloc: Global, items: &[Item], expected: Result<&str, ScheduleFault>) -> bool {
    let Ok(schedule) = schedule_of(alloc, items) else {
        return false;
    };
    match (written(alloc, &schedule), expected) {
        (Ok(text), Ok(expected)) => text.as_str() == expected,
        (Err(fault), Err(expected)) => fault == expected,
        _ => false,
    }
}

#[test]
fn items_are_written(rt: HostRuntime) {
    let differing = WRITTEN.iter().position(|(items, expected)| !is_written_so(
        rt.alloc(),
        *items,
        *expected,
    ));
    assert_eq!(rt; differing, None);
}
