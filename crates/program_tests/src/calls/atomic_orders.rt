//! The verdict over every schedule by a recovery routine beside a plain look at each: all orders of the requests of two harts, each with an
//! operation of its own. Sequential runs are sought among them, and answers are right by the words of the definition. The rows were drawn,
//! and what is known of them is what a third program says.

use crate::calls::orders::{Order, take_turn};
use crate::calls::starts::loaded;
use crash_test::{count_images, image_lines, load_program, record_run};
use every_schedule::{Limits, Outcome, Recovery, Unwatched, judge_all};
use line_memory::Medium;
use machine::{Machine, Run, Schedule, Setup};
use program::Program;
use std::alloc::Global;
use std::thread::Threads;
use store_trace::Event;
use text::ImageName;

/// Hart h begins operation h.
const BEGIN: &str = "li a7, 2001\naddi t2, a0, 1\naddi t1, a1, 64\nbnez a0, other\necall\n";

const OTHER: &str = "other: ecall\n";

const END: &str = "li a7, 2002\necall\nli a7, 93\nli a0, 0\necall\n";

/// What recovery answers by the first words of the cache lines 0 and 1.
#[derive(Clone, Copy)]
enum Shown {
    /// Both.
    Both,
    /// Both where the first one isn't 0, else zeros.
    Committed,
    /// Both, and nothing where the second one alone is 0.
    Checked,
}

/// The requests between Begin and End of either hart, a letter each, and what recovery answers.
#[derive(Clone, Copy)]
struct Case {
    first: &'static str,
    second: &'static str,
    shown: Shown,
}

/// Cases, and whether all their schedules are right. Of those that aren't, some have one or two bad orders among hundreds.
static CASES: [(&str, &str, Shown, bool); 14] = [
    ("SCf", "XCf", Shown::Both, true),
    ("L", "scfl", Shown::Both, true),
    ("Lf", "lS", Shown::Committed, true),
    ("lS", "ScC", Shown::Committed, true),
    ("SCf", "xcf", Shown::Checked, false),
    ("scf", "lSc", Shown::Both, false),
    ("SCf", "lS", Shown::Both, false),
    ("scf", "lS", Shown::Committed, false),
    ("lS", "scf", Shown::Both, false),
    ("s", "LcLs", Shown::Both, false),
    ("X", "lSLs", Shown::Both, false),
    ("cf", "sf", Shown::Both, false),
    ("Cscf", "s", Shown::Committed, false),
    ("xX", "LX", Shown::Checked, false),
];

/// A turn of a hart, and how many events there are behind it.
#[derive(Clone, Copy)]
struct Turn {
    hart: u32,
    events: usize,
}

/// A run of both harts in one order of their requests.
#[derive(Drop)]
struct Walk {
    turns: Vec<Turn>,
    run: Run,
}

/// What recovery answers, None where it fails.
type Answer = Option<(u8, u8)>;

/// The operations of a sequential run at rest, in order, and what recovery answers on its full image.
#[derive(Drop)]
struct Note {
    word: Vec<u64>,
    answer: Answer,
}

impl Shown {
    /// The routine.
    fn source(self) -> &'static str {
        match self {
            Shown::Both =>
                "lui s0, 256\nld t0, 0(a1)\nld t1, 64(a1)\nsd t0, 0(s0)\nsd t1, 8(s0)\nmv a1, s0\nli a2, 16\nli a7, 93\n\
                li a0, 0\necall\n",
            Shown::Committed =>
                "lui s0, 256\nld t0, 0(a1)\nbeqz t0, out\nld t1, 64(a1)\nsd t0, 0(s0)\nsd t1, 8(s0)\nout: mv a1, s0\n\
                li a2, 16\nli a7, 93\nli a0, 0\necall\n",
            Shown::Checked =>
                "lui s0, 256\nli a7, 93\nld t0, 0(a1)\nld t1, 64(a1)\nsd t0, 0(s0)\nsd t1, 8(s0)\nbeqz t0, out\n\
                bnez t1, out\nli a0, 1\necall\nout: mv a1, s0\nli a2, 16\nli a0, 0\necall\n",
        }
    }

    /// What the routine answers by both words.
    fn answer(self, first: u8, second: u8) -> Answer {
        match self {
            Shown::Committed if first == 0 => Some((0, 0)),
            Shown::Checked if first != 0 && second == 0 => None,
            _ => Some((first, second)),
        }
    }
}

/// What a letter stands for: a request to cache line 0, or in capitals to line 1.
fn instruction(letter: u8) -> &'static str {
    match letter {
        b's' => "sd t2, 0(a1)\n",
        b'c' => "cbo.clean (a1)\n",
        b'l' => "ld t2, 0(a1)\n",
        b'x' => "amoadd.d t2, t2, (a1)\n",
        b'S' => "sd t2, 64(a1)\n",
        b'C' => "cbo.clean (t1)\n",
        b'L' => "ld t2, 64(a1)\n",
        b'X' => "amoadd.d t2, t2, (t1)\n",
        _ => "fence w, w\n",
    }
}

/// The text of these letters.
fn body(alloc: Global, letters: &str) -> Option<String> {
    let mut text = String::new(alloc);
    for letter in letters.as_bytes() {
        text.push_str(instruction(*letter)).ok()?;
    }
    Some(text)
}

/// What the runs of a case start from.
fn start_of(alloc: Global, case: Case) -> Option<(Program, Medium)> {
    let first = body(alloc, case.first)?;
    let second = body(alloc, case.second)?;
    let pieces = [BEGIN, first.as_str(), END, OTHER, second.as_str(), END];
    loaded(alloc, None, &pieces)
}

/// A setup of both harts with this start.
fn setup_of(alloc: Global, program: &Program, medium: &Medium) -> Option<Setup> {
    let program = program.copy(alloc).ok()?;
    let medium = medium.copy(alloc).ok()?;
    Some(Setup::with_room(program, medium, 2))
}

/// Lets the harts take their turns in an order. False where one of them stops before its last turn.
fn take_all(
    machine: &mut Machine,
    schedule: &mut Schedule,
    turns: &mut Vec<Turn>,
    order: Order,
) -> Option<bool> {
    for turn in 0..order.turns.min(31) {
        let hart = (order.bits >> turn) & 1;
        if !take_turn(machine, schedule, hart)? {
            return Some(false);
        }
        let events = machine.events().len();
        turns.push(Turn { hart, events }).ok()?;
    }
    Some(true)
}

/// How many turns of an order are those of hart 1.
fn turns_of_second(order: Order) -> u32 {
    let mut count: u32 = 0;
    for turn in 0..order.turns.min(31) {
        count = count.saturating_add((order.bits >> turn) & 1);
    }
    count
}

/// The run in which the harts take their turns in an order, if each makes its last one.
fn walk_in(
    alloc: Global,
    program: &Program,
    medium: &Medium,
    order: Order,
) -> Option<Option<Walk>> {
    let Setup {
        program: text,
        medium: start,
        harts,
        capacity,
    } = setup_of(alloc, program, medium)?;
    let mut machine = Machine::new(alloc, text, start, harts, capacity).ok()?;
    let mut schedule = Schedule::new(alloc);
    let mut turns = Vec::new(alloc);
    if !take_all(&mut machine, &mut schedule, &mut turns, order)? {
        return Some(None);
    }
    let written = schedule.write(alloc).ok()?;
    let schedule = Schedule::read(alloc, written.as_bytes()).ok()?;
    let run = record_run(alloc, setup_of(alloc, program, medium)?, &schedule).ok()?;
    Some(Some(Walk { turns, run }))
}

/// The runs of a case in all orders of its requests.
fn walks_of(alloc: Global, case: Case) -> Option<Vec<Walk>> {
    let (program, medium) = start_of(alloc, case)?;
    let second = u32::try_from(case.second.len().checked_add(2)?).ok()?;
    let first = u32::try_from(case.first.len().checked_add(2)?).ok()?;
    let turns = first.checked_add(second)?;
    let mut walks = Vec::new(alloc);
    for bits in 0..1 << turns.min(31) {
        let order = Order { bits, turns };
        if turns_of_second(order) == second {
            if let Some(made) = walk_in(alloc, &program, &medium, order)? {
                walks.push(made).ok()?;
            }
        }
    }
    Some(walks)
}

/// The first events, so many of them.
fn front(events: &[Event], count: usize) -> &[Event] {
    if count <= events.len() {
        &events[..count]
    } else {
        events
    }
}

/// Whether a hart has an operation pending behind the events.
fn is_pending(events: &[Event], hart: u32) -> bool {
    let mut pending = false;
    for event in events {
        match *event {
            Event::Begin { hart: by, .. } if by == hart => pending = true,
            Event::End { hart: by, .. } if by == hart => pending = false,
            _ => {}
        }
    }
    pending
}

/// What recovery answers on an image of a run.
fn answer_on_image(
    alloc: Global,
    shown: Shown,
    run: &Run,
    moment: u32,
    image: u32,
) -> Option<Answer> {
    let name = ImageName::Number(image);
    let lines = image_lines(alloc, run.start(), run.trace(), moment, &name).ok()?;
    let mut first = 0;
    let mut second = 0;
    for line in &lines {
        match line.line {
            0 => first = line.bytes[0],
            1 => second = line.bytes[0],
            _ => {}
        }
    }
    Some(shown.answer(first, second))
}

/// How many images a moment of a run has.
fn images_at(alloc: Global, run: &Run, moment: u32) -> Option<u32> {
    count_images(alloc, run.start(), run.trace(), moment).ok()?
}

/// Notes the run behind so many events: its operations in the order in which they began, and the answer on the last image, which has all
/// stores.
fn add_note(
    alloc: Global,
    shown: Shown,
    run: &Run,
    events: usize,
    notes: &mut Vec<Note>,
) -> Option<()> {
    let moment = u32::try_from(events).ok()?;
    let image = images_at(alloc, run, moment)?.checked_sub(1)?;
    let answer = answer_on_image(alloc, shown, run, moment, image)?;
    let mut word = Vec::new(alloc);
    for event in front(run.trace().events(), events) {
        if let Event::Begin { op, .. } = *event {
            word.push(op).ok()?;
        }
    }
    if !has(notes, &word, answer) {
        notes.push(Note { word, answer }).ok()?;
    }
    Some(())
}

/// Whether the same was noted.
fn has(notes: &[Note], word: &[u64], answer: Answer) -> bool {
    for note in notes {
        if note.word.as_slice() == word && note.answer == answer {
            return true;
        }
    }
    false
}

/// Notes the sequential runs at rest that begin a walk: none of their turns is made while an operation of the other hart is pending.
fn note_all(alloc: Global, shown: Shown, walk: &Walk, notes: &mut Vec<Note>) -> Option<()> {
    let Walk { turns, run } = walk;
    let events = run.trace().events();
    let mut made = 0;
    add_note(alloc, shown, run, made, notes)?;
    for turn in turns {
        let other = if turn.hart == 0 { 1 } else { 0 };
        if is_pending(front(events, made), other) {
            return Some(());
        }
        made = turn.events;
        if !is_pending(front(events, made), turn.hart) {
            add_note(alloc, shown, run, made, notes)?;
        }
    }
    Some(())
}

/// Where an operation begins in the events.
fn begin_of(events: &[Event], op: u64) -> Option<usize> {
    events.iter().position(|event| event.begun() == Some(op))
}

/// Where an operation ends in the events.
fn end_of(events: &[Event], op: u64) -> Option<usize> {
    events.iter().position(|event| event.ended() == Some(op))
}

/// Whether an operation had ended before another one began.
fn is_before(events: &[Event], one: u64, other: u64) -> bool {
    match (end_of(events, one), begin_of(events, other)) {
        (Some(end), Some(begin)) => end < begin,
        _ => false,
    }
}

/// Whether each operation that has ended is in the word.
fn has_each_end(word: &[u64], events: &[Event]) -> bool {
    for event in events {
        if let Event::End { op, .. } = *event {
            if !word.iter().any(|other| *other == op) {
                return false;
            }
        }
    }
    true
}

/// Whether each operation of the word has begun, and none stands before one that had ended before it began.
fn is_in_order(word: &[u64], events: &[Event]) -> bool {
    for at in 0..word.len() {
        let op = word[at];
        let is_early = word[at..].iter().any(|later| is_before(events, *later, op));
        if is_early || begin_of(events, op).is_none() {
            return false;
        }
    }
    true
}

/// Whether an answer is that of a sequential run that fits the events.
fn is_right(notes: &[Note], events: &[Event], answer: Answer) -> bool {
    for note in notes {
        let fits = has_each_end(&note.word, events) && is_in_order(&note.word, events);
        if fits && answer.is_some() && note.answer == answer {
            return true;
        }
    }
    false
}

/// Whether each image of a run behind so many events has a right answer.
fn are_right(
    alloc: Global,
    shown: Shown,
    notes: &[Note],
    run: &Run,
    events: usize,
) -> Option<bool> {
    let moment = u32::try_from(events).ok()?;
    let seen = front(run.trace().events(), events);
    for image in 0..images_at(alloc, run, moment)? {
        let answer = answer_on_image(alloc, shown, run, moment, image)?;
        if !is_right(notes, seen, answer) {
            return Some(false);
        }
    }
    Some(true)
}

/// Whether the turns are those of hart 0 first.
fn is_first(turns: &[Turn]) -> bool {
    for at in 1..turns.len() {
        if turns[at].hart < turns[at - 1].hart {
            return false;
        }
    }
    true
}

/// Whether each image of a walk has a right answer behind each turn, of which the first one begins an operation. What several walks begin with
/// is looked at in one of them.
fn is_good(alloc: Global, shown: Shown, notes: &[Note], walk: &Walk) -> Option<bool> {
    let Walk { turns, run } = walk;
    for at in 0..turns.len() {
        if is_first(&turns[at + 1..]) && !are_right(alloc, shown, notes, run, turns[at].events)? {
            return Some(false);
        }
    }
    Some(true)
}

/// Whether all schedules of a case are right, one by one.
fn are_good(alloc: Global, case: Case) -> Option<bool> {
    let walks = walks_of(alloc, case)?;
    let mut notes = Vec::new(alloc);
    for walk in &walks {
        note_all(alloc, case.shown, walk, &mut notes)?;
    }
    let mut are_good = true;
    for walk in &walks {
        are_good = are_good && is_good(alloc, case.shown, &notes, walk)?;
    }
    Some(are_good)
}

/// Whether all schedules of a case pass.
fn passes<T: Threads + Sync>(rt: &T, alloc: Global, case: Case) -> Option<bool> {
    let program = load_program(alloc, case.shown.source().as_bytes()).ok()?;
    let recovery = Recovery {
        program: &program,
        steps: 100,
    };
    let (text, medium) = start_of(alloc, case)?;
    let setup = Setup::with_room(text, medium, 2);
    let limits = Limits {
        states: 10_000,
        any_end: false,
        workers: 1,
    };
    match judge_all(rt, alloc, recovery, setup, limits, &mut Unwatched).ok()? {
        Outcome::Pass { .. } => Some(true),
        Outcome::Found { .. } => Some(false),
        Outcome::TooMany(_) => None,
    }
}

#[test]
fn schedules_are_judged_by_a_routine_as_one_by_one(rt: HostRuntime) {
    for (first, second, shown, known) in &CASES {
        let case = Case {
            first: *first,
            second: *second,
            shown: *shown,
        };
        let found = (are_good(rt.alloc(), case), passes(&rt, rt.alloc(), case));
        assert!(rt;
            found == (Some(*known), Some(*known)),
            "{first} {second} {found:?}"
        );
    }
}
