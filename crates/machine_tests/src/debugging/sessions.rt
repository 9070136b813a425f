//! Commands and their answers.

use crate::debugging::machines::{FIRST_RUN, debugger_of};
use debugger::{DebugFault, Debugger, Failed, Sink, Source, session};
use std::alloc::Global;
use std::test::Fail;

/// A text that is read at most so many bytes at once, up to a read that fails.
#[derive(Drop)]
struct Text<'a> {
    bytes: &'a [u8],
    at_once: usize,
    reads: u32,
    failures: u64,
}

impl<'a> Source for Text<'a> {
    ghost failures_of = { λ text. text.failures };

    fn read(&mut self, buffer: &mut [u8]) -> Result<usize, Failed> {
        if self.reads == 0 {
            self.failures = self.failures.saturating_add(1);
            return Err(Failed);
        }
        self.reads -= 1;
        let count = self.at_once.min(self.bytes.len()).min(buffer.len());
        let (front, rest) = self.bytes.split_at(count);
        buffer[..count].copy_from_slice(front);
        self.bytes = rest;
        Ok(count)
    }

    fn failures(&self) -> u64 {
        self.failures
    }
}

/// What was written, up to a write that fails.
#[derive(Drop)]
struct Answers {
    text: Vec<u8>,
    writes: u32,
    failures: u64,
}

impl Sink for Answers {
    ghost use Rattle.std.specs.Prelude.{Some};

    ghost failures_of = { λ answers. answers.failures };

    ghost contents_of = { λ answers. Some answers.text.items };

    fn write(&mut self, bytes: &[u8]) -> Result<(), Failed> {
        if self.writes == 0 || self.text.extend_from_slice(bytes).is_err() {
            self.failures = self.failures.saturating_add(1);
            return Err(Failed);
        }
        self.writes -= 1;
        Ok(())
    }

    fn failures(&self) -> u64 {
        self.failures
    }
}

// This says nothing of a run of commands: the tests look at its answers alone.
fn run(
    alloc: Global,
    debugger: &mut Debugger,
    source: &mut Text<'_>,
    sink: &mut Answers,
) -> Result<(), DebugFault> {
    session(alloc, debugger, source, sink)
}

/// How a run of commands ends, its answers, and the pc of hart 0.
type Outcome = (Result<(), DebugFault>, Vec<u8>, u64);

/// How many bytes are read at once, and how many reads and writes don't fail.
#[derive(Clone, Copy)]
struct Limits {
    at_once: usize,
    reads: u32,
    writes: u32,
}

const ALL: Limits = Limits {
    at_once: 1_000,
    reads: 100_000,
    writes: 100_000,
};

/// Runs commands.
fn outcome_of(alloc: Global, commands: &[u8], limits: Limits) -> Result<Outcome, Fail> {
    let mut debugger = debugger_of(alloc, FIRST_RUN, 2)?;
    let mut source = Text {
        bytes: commands,
        at_once: limits.at_once,
        reads: limits.reads,
        failures: 0,
    };
    let mut sink = Answers {
        text: Vec::with_capacity(alloc, 2_048)?,
        writes: limits.writes,
        failures: 0,
    };
    let end = run(alloc, &mut debugger, &mut source, &mut sink);
    let pc = match debugger.regs(0) {
        Ok(state) => state.pc,
        Err(_) => 0,
    };
    let Answers { text, .. } = sink;
    Ok((end, text, pc))
}

/// Commands, and the answers to them. More of them stand in `sessions.transcript` of `transcripts`.
static TALKS: [(&str, &str); 8] = [
    (
        DEBUG_SESSION,
        "ok\nbreak h0 pc=0x10008\nok\nwatch h0 line=0x40000000\n07 00\nend\nfault D1\n",
    ),
    (
        "go h0 e512 h0\ngo\ngo x\ngo\nstep 0\n",
        "fault G2\nfault G2\nfault D1\nfault G2\nh0 running pc=0x10008 x2=0x200000 x5=0x7 x6=0x40000000 x11=0x40000000\n",
    ),
    (
        "go h0*4294967295\nbreak 0x10020\ngo h0*4000000000 h1*2 e512\ngo\nstep 0\n",
        "end\nok\nfault G2\nfault G2\nh0 exit 0 pc=0x10020 x2=0x200000 x5=0x7 x6=0x40000000 x11=0x40000000 x17=0x5d\n",
    ),
    ("quit\nstep 0\n", ""),
    ("break 0x10002", "fault D2\n"),
    (MORE_SESSION, MORE_ANSWERS),
    (
        "go h0*4 h1*3\nlines\ngo h0\nlines\nlines 0\n",
        "end\nl0 stores=2 floor=0 cleaned=h0:1\nend\nl0 stores=2 floor=1\nfault D1\n",
    ),
    ("help\nhelp me\nverbose\n", HELPED),
];

/// A session that says more.
const MORE_SESSION: &str =
    "verbose on\nstep 0\nbreak 0x10008\ngo h0*2\ngo h0*2\nlines\nverbose off\nstep 0\nlines\n";

const MORE_ANSWERS: &str = "ok
h0 running pc=0x10004 x2=0x200000 x5=0x7 x11=0x40000000
h0 pc=0x10004
x5=0x7
ok
break h0 pc=0x10008
h0 pc=0x10008
end
l0 stores=1 floor=0 cleaned=h0:1
ok
h0 running pc=0x10014 x2=0x200000 x5=0x7 x6=0x40000000 x11=0x40000000
none
";

/// The list of commands, and two lines that are none.
const HELPED: &str = "break A: stop before a running hart makes the instruction at A
watch A: stop behind an access to the 64 bytes that hold A
clear A: take the breakpoint at A and the watch of its 64 bytes away
step H: make one step of hart H, and print the hart
go ITEMS: make the steps of a schedule, up to a stop
go: go on by the last schedule
regs H: print the pc and all registers of hart H
where H: print where hart H is
peek A N: print the N bytes from A on, 1 to 64
lines: print the cache lines of which a power cut may lose stores
verbose on: print where the hart is behind each stop and step, and the registers that the step changed
verbose off: print no more of that
help: print this list
quit: end the session
fault D1
fault D1
";

/// The first of these commands that are answered in another way, and their answers.
fn first_difference(alloc: Global, talks: &[(&str, &str)]) -> Result<Option<String>, Fail> {
    for (commands, expected) in talks {
        let (end, answers, _pc) = outcome_of(alloc, commands.as_bytes(), ALL)?;
        if end.is_err() || answers.as_slice() != expected.as_bytes() {
            let found = String::from_utf8_lossy(alloc, &answers)?;
            return Ok(Some(format!(in alloc; "{commands}: {found}")?));
        }
    }
    Ok(None)
}

#[test]
fn commands_are_answered(rt: HostRuntime) -> Result<(), Fail> {
    assert_eq!(rt; first_difference(rt.alloc(), &TALKS)?, None);
    Ok(())
}

fn lines(answers: &[u8]) -> usize {
    answers.iter().filter(|byte| **byte == b'\n').count()
}

/// Whether these are the answers to a line of so many blanks, and a line after it.
fn answers_blanks(alloc: Global, blanks: usize, expected: &[u8]) -> Result<bool, Fail> {
    let mut commands = vec![in alloc; b' '; blanks]?;
    commands.extend_from_slice(b"\nstep 2")?;
    let (_end, answers, _pc) = outcome_of(alloc, &commands, ALL)?;
    Ok(answers.as_slice() == expected)
}

#[test]
fn long_lines(rt: HostRuntime) -> Result<(), Fail> {
    assert!(rt; answers_blanks(rt.alloc(), 65_536, b"fault G1\n")?);
    assert!(rt; answers_blanks(rt.alloc(), 65_537, b"fault D1\nfault G1\n")?);
    Ok(())
}

/// How many reads and writes don't fail of three steps of a hart, whether the run ends well, how many lines it answers, and
/// the pc of hart 0.
static ENDINGS: [(u32, u32, bool, usize, u64); 9] = [
    (0, 9, false, 0, 0x1_0000),
    (1, 9, false, 1, 0x1_0004),
    (2, 9, false, 2, 0x1_0008),
    (3, 9, false, 3, 0x1_000c),
    (9, 0, false, 0, 0x1_0004),
    (9, 1, false, 1, 0x1_0008),
    (9, 2, false, 2, 0x1_000c),
    (9, 3, true, 3, 0x1_000c),
    (4, 3, true, 3, 0x1_000c),
];

/// Whether a run over three steps ends well, how many lines it answers, and the pc of hart 0; None where it ends by
/// another fault than that of its input or output.
fn ending(alloc: Global, reads: u32, writes: u32) -> Result<Option<(bool, usize, u64)>, Fail> {
    let limits = Limits {
        at_once: 7,
        reads,
        writes,
    };
    let (end, answers, pc) = outcome_of(alloc, b"step 0\nstep 0\nstep 0\n", limits)?;
    Ok(match end {
        Ok(()) => Some((true, lines(&answers), pc)),
        Err(DebugFault::InputOutput) => Some((false, lines(&answers), pc)),
        Err(_) => None,
    })
}

#[test]
fn failures_end_a_run(rt: HostRuntime) -> Result<(), Fail> {
    for &(reads, writes, is_well, answered, pc) in &ENDINGS {
        let found = ending(rt.alloc(), reads, writes)?;
        assert!(rt;
            found == Some((is_well, answered, pc)),
            "{reads} reads, {writes} writes"
        );
    }
    Ok(())
}

const DEBUG_SESSION: &str =
    "break 0x10008\ngo h0*8\nwatch 0x40000000\ngo\npeek 0x40000000 2\ngo\njump\n";

/// The answers to its commands, and the pc of hart 0 after each of them.
const DEBUG_ANSWERS: [(&str, u64); 7] = [
    ("ok\n", 0x1_0000),
    ("break h0 pc=0x10008\n", 0x1_0008),
    ("ok\n", 0x1_0008),
    ("watch h0 line=0x40000000\n", 0x1_000c),
    ("07 00\n", 0x1_000c),
    ("end\n", 0x1_0020),
    ("fault D1\n", 0x1_0020),
];

/// Whether these are the answers to the first commands, and the pc is that after the last of them or after the next
/// command, whose answer found no memory; and whether all are answered.
fn is_broken_off(answers: &[u8], pc: u64) -> (bool, bool) {
    let mut rest = answers;
    let mut before = 0x1_0000;
    for (answer, after) in DEBUG_ANSWERS {
        match rest.strip_prefix(answer.as_bytes()) {
            Some(more) => rest = more,
            None => return (rest.is_empty() && (pc == before || pc == after), false),
        }
        before = after;
    }
    (rest.is_empty() && pc == before, true)
}

const NINE: Limits = Limits {
    at_once: 1_000,
    reads: 9,
    writes: 9,
};

// Whichever growth is refused, the answers are those so far. The test fails where what it needs itself is refused.
#[test]
fn growths_refused_in_turn(rt: HostRuntime) -> Result<(), Fail> {
    let (end, answers, pc) = outcome_of(rt.alloc(), DEBUG_SESSION.as_bytes(), NINE)?;
    let (stands, is_whole) = is_broken_off(answers.as_slice(), pc);
    let wanted = if is_whole {
        Ok(())
    } else {
        Err(DebugFault::Memory)
    };
    assert_eq!(rt; (end, stands), (wanted, true));
    Ok(())
}

/// The answers to the lines of `MORE_SESSION`.
const MORE_LINES: [&str; 9] = [
    "ok\n",
    "h0 running pc=0x10004 x2=0x200000 x5=0x7 x11=0x40000000\nh0 pc=0x10004\nx5=0x7\n",
    "ok\n",
    "break h0 pc=0x10008\nh0 pc=0x10008\n",
    "end\n",
    "l0 stores=1 floor=0 cleaned=h0:1\n",
    "ok\n",
    "h0 running pc=0x10014 x2=0x200000 x5=0x7 x6=0x40000000 x11=0x40000000\n",
    "none\n",
];

/// How many answers a text has, where it has no part of another.
fn answered(text: &[u8], answers: &[&str]) -> Option<usize> {
    let mut rest = text;
    let mut count = 0usize;
    for answer in answers {
        match rest.strip_prefix(answer.as_bytes()) {
            Some(more) => {
                rest = more;
                count = count.saturating_add(1);
            }
            None => break,
        }
    }
    if rest.is_empty() { Some(count) } else { None }
}

// Of an answer for which a growth is refused nothing is written.
#[test]
fn growths_of_more_refused_in_turn(rt: HostRuntime) -> Result<(), Fail> {
    let (end, answers, _pc) = outcome_of(rt.alloc(), MORE_SESSION.as_bytes(), NINE)?;
    let wanted = match answered(answers.as_slice(), &MORE_LINES) {
        Some(9) => Ok(()),
        Some(_) => Err(DebugFault::Memory),
        None => Err(DebugFault::Command),
    };
    assert_eq!(rt; end, wanted);
    Ok(())
}
