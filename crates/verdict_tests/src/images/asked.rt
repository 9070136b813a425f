//! Events judged by the replies of a recovery that is asked for them, and which images it is asked for.

ghost use Rattle.crash_image.specs.View.{HasLines};
ghost use Rattle.std.specs.Prelude.{◌≡◌, ◌<◌, ℕ, Contains, IfOk, length};

use crate::images::events::{Made, Parts, trace_of};
use crash_image::has_lines;
use line_memory::Medium;
use routine_judge::{
    Answering, ImageName, JudgeFault, MarkFault, OutsideCause, OutsideFault, OutsideRun, Reply,
    Verdict, Wanted,
};
use std::alloc::{AllocError, Global};
use std::process::Abort;
use std::test::Fail;
use std::thread::Threads;
use store_trace::Trace;

/// An entry of 7 in line 1, and then in line 0 that it counts.
const FENCED: Parts = &[(
    0,
    &[
        Made::Begin(1),
        Made::Store(1, 0, 7),
        Made::Clean(1),
        Made::Fence,
        Made::Store(0, 0, 1),
        Made::Clean(0),
        Made::Fence,
        Made::End(1),
    ],
)];

/// The entry may come to the medium last.
const UNFENCED: Parts = &[(
    0,
    &[
        Made::Begin(1),
        Made::Store(1, 0, 7),
        Made::Clean(1),
        Made::Store(0, 0, 1),
        Made::Clean(0),
        Made::Fence,
        Made::End(1),
    ],
)];

/// What is seen of lines 0 and 1 of an image that is asked for: their floors, their numbers, their first bytes, and these at the start.
#[derive(Clone, Copy, Debug, PartialEq, Eq)]
struct Seen {
    floors: [u32; 2],
    numbers: [u32; 2],
    bytes: [u8; 2],
    started: [u8; 2],
}

/// The image before the first store, at moment 0.
const BEFORE: Seen = Seen {
    floors: [0, 0],
    numbers: [0, 0],
    bytes: [0, 0],
    started: [0, 0],
};

/// The image with both stores, which are durable.
const AFTER: Seen = Seen {
    floors: [1, 1],
    numbers: [1, 1],
    bytes: [1, 7],
    started: [0, 0],
};

/// The image in which the entry counts, and isn't there.
const LOST: Seen = Seen {
    floors: [0, 0],
    numbers: [1, 0],
    bytes: [1, 0],
    started: [0, 0],
};

/// Why there is no reply.
#[derive(Clone, Copy, Debug, PartialEq, Eq)]
enum Refusal {
    TooOften,
    Memory,
}

impl From<AllocError> for Refusal {
    fn from(_refused: AllocError) -> Refusal {
        Refusal::Memory
    }
}

/// A recovery whose answer is the entry where it counts, and else has no bytes.
#[derive(Drop)]
struct Asked {
    alloc: Global,
    /// Whether it has an answer where an entry counts that isn't there.
    answers: bool,
    /// How often it replies.
    most: usize,
    seen: Vec<Seen>,
}

impl Answering for Asked {
    type Fault = Refusal;

    ghost gives = { λ old wanted reply new. Unit {0} };

    ghost fails = { λ old wanted fault new. Unit {0} };

    fn answer(&mut self, wanted: &Wanted<'_, '_>) -> Result<Reply, Refusal> {
        if wanted.lines() < 2 || self.seen.len() >= self.most {
            return Err(Refusal::TooOften);
        }
        let seen = seen_of(wanted);
        if self.seen.push(seen).is_err() {
            return Err(Refusal::Memory);
        }
        let reply = reply_to(self.alloc, seen.bytes, self.answers)?;
        Ok(reply)
    }
}

fn seen_of(wanted: &Wanted<'_, '_>) -> Seen
    requires { 1 < length wanted.now.start }
{
    Seen {
        floors: [wanted.floor(0), wanted.floor(1)],
        numbers: [wanted.number(0), wanted.number(1)],
        bytes: [wanted.line(0)[0], wanted.line(1)[0]],
        started: [wanted.started(0)[0], wanted.started(1)[0]],
    }
}

/// The reply by the first bytes of lines 0 and 1, the second of which recovery loads only where the first isn't 0.
fn reply_to(alloc: Global, bytes: [u8; 2], answers: bool) -> Result<Reply, AllocError>
    ensures { IfOk result (λ reply. (line : ℕ) → Contains reply.lines line → line < 2) }
{
    let found = found_in(alloc, bytes, answers)?;
    let lines = lines_loaded(alloc, bytes[0] != 0)?;
    Ok(Reply::new(found, lines))
}

/// What recovery comes to.
fn found_in(
    alloc: Global,
    bytes: [u8; 2],
    answers: bool,
) -> Result<Result<Vec<u8>, Vec<u8>>, AllocError> {
    match bytes {
        [0, _] => Ok(Ok(Vec::new(alloc))),
        [_, 0] if !answers => Ok(Err(Vec::from_slice(alloc, b"exit-1")?)),
        [_, entry] => Ok(Ok(Vec::from_slice(alloc, &[entry])?)),
    }
}

/// Line 0, and line 1 where both are loaded.
#[tactic(auto, using(crate::proofs::LoadedLines::first_below, crate::proofs::LoadedLines::both_below))]
fn lines_loaded(alloc: Global, both: bool) -> Result<Vec<u32>, AllocError>
    ensures { IfOk result (λ lines. (line : ℕ) → Contains lines.items line → line < 2) }
{
    if both {
        Vec::from_slice(alloc, &[0, 1])
    } else {
        Vec::from_slice(alloc, &[0])
    }
}

/// What comes of judging; a bad image by its number.
#[derive(Clone, Copy, Debug, PartialEq, Eq)]
enum Told {
    Pass {
        moments: u64,
        images: Option<u64>,
    },
    Different {
        moment: u32,
        image: u32,
    },
    /// With the length of the word for why there is no answer.
    Missing {
        moment: u32,
        image: u32,
        word: usize,
    },
    Fault(JudgeFault),
    NoReply(Refusal),
    Other,
}

fn told_of(found: &Result<Verdict<OutsideCause>, OutsideFault<Refusal>>) -> Told {
    match found {
        Ok(Verdict::Pass { moments, images }) => Told::Pass {
            moments: *moments,
            images: *images,
        },
        Ok(
            Verdict::Fail {
                moment,
                image: ImageName::Number(image),
                cause,
                of_too_many: false,
            },
        ) => told_cause(*moment, *image, cause),
        Ok(_) => Told::Other,
        Err(OutsideFault::Judge(fault)) => Told::Fault(*fault),
        Err(OutsideFault::Answer(refusal)) => Told::NoReply(*refusal),
    }
}

fn told_cause(moment: u32, image: u32, cause: &OutsideCause) -> Told {
    match cause {
        OutsideCause::Missing(word) => Told::Missing {
            moment,
            image,
            word: word.len(),
        },
        OutsideCause::Different => Told::Different { moment, image },
        OutsideCause::Full(_) => Told::Other,
    }
}

/// Events, how they are judged, what comes of it, and which images are asked for meanwhile.
#[derive(Clone, Copy)]
struct Case {
    run: Parts,
    answers: bool,
    most: usize,
    first: u32,
    told: Told,
    seen: &'static [Seen],
}

const CASE: Case = Case {
    run: FENCED,
    answers: true,
    most: 9,
    first: 0,
    // moments 1 to 8 have 1, 2, 2, 1, 2, 2, 1 and 1 images
    told: Told::Pass {
        moments: 8,
        images: Some(12),
    },
    // an image without the entry is like the first where it doesn't count
    seen: &[BEFORE, AFTER],
};

static CASES: [Case; 7] = [
    CASE,
    Case {
        first: 8,
        told: Told::Pass {
            moments: 1,
            images: Some(1),
        },
        seen: &[AFTER],
        ..CASE
    },
    // both stores are free at moment 4, whose third image is the one without the entry
    Case {
        run: UNFENCED,
        told: Told::Different {
            moment: 4,
            image: 2,
        },
        seen: &[BEFORE, AFTER, LOST],
        ..CASE
    },
    Case {
        run: UNFENCED,
        answers: false,
        told: Told::Missing {
            moment: 4,
            image: 2,
            word: 6,
        },
        seen: &[BEFORE, AFTER, LOST],
        ..CASE
    },
    Case {
        most: 1,
        told: Told::NoReply(Refusal::TooOften),
        seen: &[BEFORE],
        ..CASE
    },
    Case {
        first: 9,
        told: Told::Fault(JudgeFault::NoSuchMoment),
        seen: &[],
        ..CASE
    },
    Case {
        run: &[(0, &[Made::Fence])],
        told: Told::Fault(JudgeFault::Marks(MarkFault::NoOperation)),
        seen: &[],
        ..CASE
    },
];

/// Whether a case comes to what is said there.
fn is_as_said<R: Threads + Sync>(
    rt: &R,
    alloc: Global,
    case: &Case,
    medium: &Medium,
    trace: &Trace,
) -> bool
    requires { HasLines medium.now trace.now.events }
{
    let mut asked = Asked {
        alloc,
        answers: case.answers,
        most: case.most,
        seen: Vec::new(alloc),
    };
    let run = match OutsideRun::new(alloc, medium, trace) {
        Ok(run) => run,
        Err(fault) => return case.told == Told::Fault(fault),
    };
    let found = run.judge(rt, alloc, case.first, None, &mut asked);
    told_of(&found) == case.told && asked.seen.as_slice() == case.seen
}

/// The first place of a case that comes to something else.
fn first_other(rt: &(impl Threads + Sync + AllocGlobal + Abort)) -> Result<Option<usize>, Fail> {
    let medium = Medium::zero(rt.alloc(), 512)?;
    for at in 0..CASES.len() {
        let trace = trace_of(rt, CASES[at].run)?;
        if !has_lines(&medium, &trace) || !is_as_said(rt, rt.alloc(), &CASES[at], &medium, &trace) {
            return Ok(Some(at));
        }
    }
    Ok(None)
}

#[test]
fn images_without_a_reply_are_asked_for(rt: HostRuntime) -> Result<(), Fail> {
    assert_eq!(rt; first_other(&rt)?, None);
    Ok(())
}

/// Whether a reply has the answer and the lines that it was made of.
fn keeps_its_parts(alloc: Global) -> Result<bool, AllocError> {
    let answer = Vec::from_slice(alloc, &[7u8, 8])?;
    let lines = Vec::from_slice(alloc, &[3u32, 1])?;
    let reply = Reply::new(Ok(answer), lines);
    let word = Vec::from_slice(alloc, b"none")?;
    let other = Reply::new(Err(word), Vec::new(alloc));
    Ok(
        has_answer(&reply, &[7, 8])
            && reply.lines() == [3, 1].as_slice()
            && has_word(&other, b"none")
            && other.lines().is_empty(),
    )
}

fn has_answer(reply: &Reply, answer: &[u8]) -> bool {
    match reply.found() {
        Ok(found) => found == answer,
        Err(_) => false,
    }
}

fn has_word(reply: &Reply, word: &[u8]) -> bool {
    match reply.found() {
        Ok(_) => false,
        Err(found) => found == word,
    }
}

#[test]
fn replies_keep_their_parts(rt: HostRuntime) -> Result<(), Fail> {
    assert!(rt; keeps_its_parts(rt.alloc())?);
    Ok(())
}
