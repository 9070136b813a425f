//! Texts that are trace files, and texts that are none.

use std::alloc::{AllocError, Global};
use store_trace::Event;
use trace_file::{TraceFile, TraceFileCode, TraceFileFault, spaced_words};

/// Two stores, of which only the second is cleaned before the fence.
const EXAMPLE: &[u8] = b"1 h0 at=log.c:30 begin 1\n\
2 h0 at=log.c:17 from=log.c:30 store l70000+0 w8 0x65\n\
3 h0 at=log.c:22 from=log.c:30 store l2+0 w8 0x1\n\
4 h0 at=log.c:12 from=log.c:23 clean l2\n\
5 h0 at=log.c:13 from=log.c:23 fence\n\
6 h0 at=log.c:13 from=log.c:24 fence\n\
7 h0 at=log.c:30 end 1\n\
events 7\n";

/// Its events: line 2 has rank 0, and line 70000 rank 1.
static EVENTS: [Event; 7] = [
    Event::Begin { hart: 0, op: 1 },
    Event::Store {
        hart: 0,
        line: 1,
        offset: 0,
        width: 8,
        value: 0x65,
    },
    Event::Store {
        hart: 0,
        line: 0,
        offset: 0,
        width: 8,
        value: 1,
    },
    Event::Clean { hart: 0, line: 0 },
    Event::Fence { hart: 0 },
    Event::Fence { hart: 0 },
    Event::End { hart: 0, op: 1 },
];

/// The text of each one's place words.
static PLACES: [&[u8]; 7] = [
    b"at=log.c:30 ",
    b"at=log.c:17 from=log.c:30 ",
    b"at=log.c:22 from=log.c:30 ",
    b"at=log.c:12 from=log.c:23 ",
    b"at=log.c:13 from=log.c:23 ",
    b"at=log.c:13 from=log.c:24 ",
    b"at=log.c:30 ",
];

fn has_places(file: &TraceFile) -> bool {
    for (index, place) in PLACES.iter().enumerate() {
        if file.events().len() <= index || file.place(index) != *place {
            return false;
        }
    }
    true
}

#[test]
fn the_example_is_read(rt: HostRuntime) -> Result<(), AllocError> {
    let Ok(file) = TraceFile::read(rt.alloc(), EXAMPLE) else {
        return Err(AllocError);
    };
    assert!(rt; file.events() == EVENTS.as_slice());
    assert!(rt; file.trace().events() == EVENTS.as_slice());
    assert!(rt; has_places(&file));
    assert!(rt; file.names() == [2u32, 70_000].as_slice());
    assert!(rt;
        file.rank_of(2) == Some(0) && file.rank_of(70_000) == Some(1) && file.rank_of(3).is_none()
    );
    Ok(())
}

fn are_places(texts: &[Vec<u8>]) -> bool {
    for (index, place) in PLACES.iter().enumerate() {
        if texts.len() <= index || texts[index].as_slice() != *place {
            return false;
        }
    }
    texts.len() == PLACES.len()
}

/// Whether the events of the example are the same apart from its text.
fn is_ranked(alloc: Global) -> Result<bool, AllocError> {
    let Ok(file) = TraceFile::read(alloc, EXAMPLE) else {
        return Err(AllocError);
    };
    let ranked = file.into_ranked(alloc)?;
    Ok(
        ranked.trace.events() == EVENTS.as_slice()
            && ranked.names.as_slice() == [2u32, 70_000].as_slice()
            && are_places(&ranked.places),
    )
}

#[test]
fn the_example_stands_apart_from_its_text(rt: HostRuntime) -> Result<(), AllocError> {
    let same = is_ranked(rt.alloc())?;
    assert!(rt; same);
    Ok(())
}

/// Texts of place words, and these as they are told with those that begin with `step=` and without.
static WORDS: [(&[u8], &[u8], &[u8]); 6] = [
    (b"", b"", b""),
    (b"at=log.c:30 ", b" at=log.c:30", b" at=log.c:30"),
    (
        b"step=9 pc=0x10020 line=9 ",
        b" step=9 pc=0x10020 line=9",
        b" pc=0x10020 line=9",
    ),
    (b"a=b step=c=d step=e ", b" a=b step=c=d step=e", b" a=b"),
    (b"step=1 ", b" step=1", b""),
    (
        b"steps=1 in=step= ",
        b" steps=1 in=step=",
        b" steps=1 in=step=",
    ),
];

/// The row of the first words that are told otherwise.
fn first_otherwise(alloc: Global) -> Result<Option<usize>, AllocError> {
    for (row, (place, whole, told)) in WORDS.iter().enumerate() {
        let with_steps = spaced_words(alloc, *place, true)?;
        let without = spaced_words(alloc, *place, false)?;
        if with_steps.as_slice() != *whole || without.as_slice() != *told {
            return Ok(Some(row));
        }
    }
    Ok(None)
}

#[test]
fn place_words_are_told_behind_blanks(rt: HostRuntime) -> Result<(), AllocError> {
    let row = first_otherwise(rt.alloc())?;
    assert!(rt; row.is_none());
    Ok(())
}

#[test]
fn a_line_is_named_by_its_rank(rt: HostRuntime) -> Result<(), AllocError> {
    let Ok(file) = TraceFile::read(rt.alloc(), EXAMPLE) else {
        return Err(AllocError);
    };
    let named = file.names().len() == 2 && file.line_name(0) == 2 && file.line_name(1) == 70_000;
    assert!(rt; named);
    Ok(())
}

#[test]
fn the_example_is_written_back(rt: HostRuntime) -> Result<(), AllocError> {
    let Ok(file) = TraceFile::read(rt.alloc(), EXAMPLE) else {
        return Err(AllocError);
    };
    let written = file.write(rt.alloc())?;
    assert!(rt; written.as_slice() == EXAMPLE);
    Ok(())
}

/// Texts that are trace files, and how many events they have.
static FILES: [(&[u8], usize); 7] = [
    (b"events 0\n", 0),
    (b"1 h7 begin 18446744073709551615\nevents 1\n", 1),
    (b"1 h0 store l4294967295+63 w1 0xff\nevents 1\n", 1),
    (b"1 h0 store l0+56 w8 0xffffffffffffffff\nevents 1\n", 1),
    (b"1 h3 a=b c==d= step=\xff\0 fence\nevents 1\n", 1),
    (b"1 h0 fence=1 fence\n2 h1 end 0\nevents 2\n", 2),
    (
        b"1 h0 store l9+60 w4 0xabcdef\n2 h0 clean l9\n3 h0 store l9+2 w2 0x0\nevents 3\n",
        3,
    ),
];

/// Texts with a line that is none of a trace file, and that line.
static FORMS: [(&[u8], usize); 28] = [
    (b"\n", 1),
    (b"1 h0 store\nevents 1\n", 1),
    (b"01 h0 fence\nevents 1\n", 1),
    (b"1 h00 fence\nevents 1\n", 1),
    (b"1 h0 fence \nevents 1\n", 1),
    (b"1  h0 fence\nevents 1\n", 1),
    (b" 1 h0 fence\nevents 1\n", 1),
    (b"1 h0 fence\r\nevents 1\r\n", 1),
    (b"1 h0 at= fence\nevents 1\n", 1),
    (b"1 h0 =x fence\nevents 1\n", 1),
    (b"1 h0 At=x fence\nevents 1\n", 1),
    (b"1 h0 at fence\nevents 1\n", 1),
    (b"1 h0 fence at=x\nevents 1\n", 1),
    (b"1 0 fence\nevents 1\n", 1),
    (b"1 h0 store l0+0 w8 0x00\nevents 1\n", 1),
    (b"1 h0 store l0+0 w8 0xA\nevents 1\n", 1),
    (b"1 h0 store l0+0 w8 10\nevents 1\n", 1),
    (b"1 h0 store l0 w8 0x1\nevents 1\n", 1),
    (b"1 h0 store l0+0 0x1\nevents 1\n", 1),
    (b"1 h0 clean 0\nevents 1\n", 1),
    (b"1 h0 begin\nevents 1\n", 1),
    (b"events 00\n", 1),
    (b"events\n", 1),
    (b"1 h0 fence\nevents 1 \n", 2),
    (b"1 h0 at=x\nevents 1\n", 1),
    (b"1 h0 at=x  fence\nevents 1\n", 1),
    (b"1 h0 store l0+00 w3 0x1\nevents 1\n", 1),
    (b"2 h8 fence \nevents 1\n", 1),
];

/// Texts with a line of another number.
static NUMBERS: [(&[u8], usize); 8] = [
    (b"2 h0 fence\nevents 1\n", 1),
    (b"0 h0 fence\nevents 1\n", 1),
    (b"1 h0 fence\n1 h0 fence\nevents 2\n", 2),
    (b"18446744073709551617 h0 fence\nevents 1\n", 1),
    (b"events 1\n", 1),
    (b"1 h0 fence\nevents 2\n", 2),
    (b"events 18446744073709551616\n", 1),
    (b"2 h8 store l4294967296+1 w3 0x1\n", 1),
];

/// Texts with a store that is none.
static STORES: [(&[u8], usize); 12] = [
    (b"1 h0 store l0+0 w3 0x1\nevents 1\n", 1),
    (b"1 h0 store l0+0 w0 0x1\nevents 1\n", 1),
    (b"1 h0 store l0+0 w16 0x1\nevents 1\n", 1),
    (b"1 h0 store l0+4 w8 0x1\nevents 1\n", 1),
    (b"1 h0 store l0+64 w8 0x1\nevents 1\n", 1),
    (b"1 h0 store l0+18446744073709551616 w1 0x1\nevents 1\n", 1),
    (b"1 h0 store l0+0 w1 0x100\nevents 1\n", 1),
    (b"1 h0 store l0+0 w2 0x10000\nevents 1\n", 1),
    (b"1 h0 store l0+0 w4 0x100000000\nevents 1\n", 1),
    (b"1 h0 store l0+0 w8 0x10000000000000000\nevents 1\n", 1),
    (b"1 h8 store l4294967296+0 w5 0x1\nevents 1\n", 1),
    (
        b"1 h0 fence\n2 h0 store l0+1 w2 0x0\n2 h0 fence\nevents 3\n",
        2,
    ),
];

/// Texts with an event past a limit.
static LIMITS: [(&[u8], usize); 7] = [
    (b"1 h8 fence\nevents 1\n", 1),
    (b"1 h18446744073709551616 fence\nevents 1\n", 1),
    (b"1 h0 clean l4294967296\nevents 1\n", 1),
    (b"1 h0 store l4294967296+0 w8 0x1\nevents 1\n", 1),
    (b"1 h0 begin 18446744073709551616\nevents 1\n", 1),
    (b"1 h0 end 18446744073709551616\nevents 1\n", 1),
    (b"1 h8 fence\nx\n", 1),
];

/// Texts that end early or go on behind their end.
static ENDS: [(&[u8], usize); 10] = [
    (b"", 1),
    (b"1 h0 fence", 1),
    (b"1 h0 fence\n", 2),
    (b"1 h0 fence\nevents 1", 2),
    (b"x", 1),
    (b"2 h8 store l0+1 w3 0x1", 1),
    (b"1 h0 fence\nevents 2", 2),
    (b"events 0\n\n", 2),
    (b"events 0\nx", 2),
    (b"1 h0 fence\nevents 1\n2 h0 fence\nevents 2\n", 3),
];

/// The row of the first text that isn't a trace file of so many events, which is written back.
fn first_unread(alloc: Global) -> Result<Option<usize>, AllocError> {
    for (row, (text, count)) in FILES.iter().enumerate() {
        let Ok(file) = TraceFile::read(alloc, *text) else {
            return Ok(Some(row));
        };
        let written = file.write(alloc)?;
        if file.events().len() != *count || written.as_slice() != *text {
            return Ok(Some(row));
        }
    }
    Ok(None)
}

#[test]
fn trace_files_are_read(rt: HostRuntime) -> Result<(), AllocError> {
    let row = first_unread(rt.alloc())?;
    assert!(rt; row.is_none());
    Ok(())
}

/// Whether each text is refused at its line, by this code.
fn are_refused(alloc: Global, texts: &[(&[u8], usize)], code: TraceFileCode) -> bool {
    for (text, line) in texts {
        let fault = TraceFileFault { line: *line, code };
        if TraceFile::read(alloc, *text).err() != Some(fault) {
            return false;
        }
    }
    true
}

#[test]
fn the_first_line_at_fault_is_reported(rt: HostRuntime) {
    assert!(rt; are_refused(rt.alloc(), &FORMS, TraceFileCode::Form));
    assert!(rt; are_refused(rt.alloc(), &NUMBERS, TraceFileCode::Number));
    assert!(rt; are_refused(rt.alloc(), &STORES, TraceFileCode::Store));
    assert!(rt; are_refused(rt.alloc(), &LIMITS, TraceFileCode::Limit));
    assert!(rt; are_refused(rt.alloc(), &ENDS, TraceFileCode::End));
}

/// The text of so many cleans, of as many different lines in no order.
fn cleans(alloc: Global, count: u32) -> Result<String, AllocError> {
    let mut text = String::new(alloc);
    for number in 1..=count {
        let line = number ^ 0x2aaa;
        writeln!(text, "{number} h0 clean l{line}")?;
    }
    writeln!(text, "events {count}")?;
    Ok(text)
}

#[test]
fn no_more_than_16384_different_lines(rt: HostRuntime) -> Result<(), AllocError> {
    let text = cleans(rt.alloc(), 16_384)?;
    let names = TraceFile::read(rt.alloc(), text.as_bytes()).map(|file| file.names().len());
    assert!(rt; names == Ok(16_384));
    let text = cleans(rt.alloc(), 16_385)?;
    let fault = TraceFile::read(rt.alloc(), text.as_bytes()).err();
    let line = 16_385;
    let code = TraceFileCode::Limit;
    assert!(rt; fault == Some(TraceFileFault { line, code }));
    Ok(())
}

/// The text of so many fences.
fn fences(alloc: Global, count: u32) -> Result<String, AllocError> {
    let mut text = String::new(alloc);
    for number in 1..=count {
        writeln!(text, "{number} h1 fence")?;
    }
    writeln!(text, "events {count}")?;
    Ok(text)
}

#[test]
fn no_more_than_65536_events(rt: HostRuntime) -> Result<(), AllocError> {
    let text = fences(rt.alloc(), 65_536)?;
    let events = TraceFile::read(rt.alloc(), text.as_bytes()).map(|file| file.events().len());
    assert!(rt; events == Ok(65_536));
    let text = fences(rt.alloc(), 65_537)?;
    let fault = TraceFile::read(rt.alloc(), text.as_bytes()).err();
    let line = 65_537;
    let code = TraceFileCode::Limit;
    assert!(rt; fault == Some(TraceFileFault { line, code }));
    Ok(())
}

#[test]
fn codes_have_their_names(rt: HostRuntime) {
    let named = TraceFileCode::Form.name() == "V1"
        && TraceFileCode::Number.name() == "V2"
        && TraceFileCode::Store.name() == "V3"
        && TraceFileCode::Limit.name() == "V4"
        && TraceFileCode::End.name() == "V5"
        && TraceFileCode::Memory.name() == "memory";
    assert!(rt; named);
}

/// Faults, with what they say of themselves.
static MESSAGES: [(TraceFileFault, &str); 2] = [
    (
        TraceFileFault {
            line: 1,
            code: TraceFileCode::Form,
        },
        "V1 line 1",
    ),
    (
        TraceFileFault {
            line: 65_537,
            code: TraceFileCode::Limit,
        },
        "V4 line 65537",
    ),
];

#[test]
fn faults_say_what_is_wrong(rt: HostRuntime) -> Result<(), AllocError> {
    for (fault, said) in &MESSAGES {
        let message = format!(in rt.alloc(); "{fault}")?;
        assert!(rt; message.as_str() == *said);
    }
    Ok(())
}
