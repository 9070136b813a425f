//! Harts that may wait for each other for ever: what is found out about all their schedules, beside a plain look at each place to which they
//! lead. A program is a letter for each act, with a space between harts. A place is how many acts each hart has done, and the words that they
//! share. One place leads to another by one act. Most programs are drawn from a seed.

ghost use Rattle.std.specs.Prelude.{◌<◌};

use crate::calls::starts::loaded;
use crate::calls::states::OWN;
use every_schedule::{Finding, Limits, Outcome, Unwatched, check_all};
use hart::{Need, Status};
use image_check::{Cause, OpFault};
use isa_table::Reg;
use machine::{Machine, Run, Setup, Step};
use plan::Plan;
use std::alloc::Global;
use std::thread::Threads;

/// How each hart begins: by the addresses of lock `a`, and of lock `b`, behind which the flag stands, and by what is written to them.
const BEGIN: &str = "lui s5, 256\naddi s6, s5, 64\nli a7, 93\n";

/// How each hart ends.
const END: &str = "li a0, 0\necall\n";

/// The acts that are drawn: a lock taken, a lock released, a wait for the flag, the flag set, the flag cleared.
const ACTS: [u8; 8] = [b'a', b'b', b'A', b'B', b'w', b'f', b'f', b'c'];

/// How many places a program has at most.
const MOST: usize = 5_000;

/// How many steps a hart makes at most that ask for nothing.
const STEPS: u32 = 50;

/// Whether a program can come to its end from each place.
static CASES: [(&str, bool); 9] = [
    // two locks, each hart its own first; and in one order
    ("abBA baAB", false),
    ("abBA abBA", true),
    // a flag that is cleared again, and one that stays
    ("fc w", false),
    ("f w", true),
    // a lock that isn't released, and one that its hart takes twice
    ("a aA", false),
    ("aa", false),
    // a hart that waits for a flag with the lock that another one must have to set it
    ("awA aAf", false),
    // the locks of three harts in one order, and not
    ("aA abBA bB", true),
    ("abBA bB baAB", false),
];

/// What is drawn: so many programs, with at most so many acts of each of so many harts.
#[derive(Clone, Copy)]
struct Draw {
    programs: u32,
    harts: u32,
    acts: u32,
}

static DRAWS: [Draw; 2] = [
    Draw {
        programs: 40,
        harts: 2,
        acts: 5,
    },
    Draw {
        programs: 12,
        harts: 3,
        acts: 3,
    },
];

/// Numbers that look like random ones, by the constants of Knuth's MMIX.
#[derive(Clone, Copy)]
struct Seed {
    state: u64,
}

/// How many acts each of three harts has done, of which some aren't there, and whether the locks are taken and the flag is set.
#[derive(Clone, Copy, PartialEq, Eq)]
struct Place {
    done: [usize; 3],
    words: [bool; 3],
}

/// A place, and those to which the next act of each hart leads from it: itself where it waits or has done all.
#[derive(Clone, Copy)]
struct Met {
    place: Place,
    next: [usize; 3],
}

/// All places of a program, and of each whether acts lead on from it to where all are done.
#[derive(Drop)]
struct Places {
    all: Vec<Met>,
    out: Vec<bool>,
}

/// How many programs there were, of how many the same was found, and how many of them can't always come to their ends.
#[derive(Clone, Copy, Debug, PartialEq, Eq)]
struct Tally {
    programs: u32,
    same: u32,
    stuck: u32,
}

impl Seed {
    /// The next number below a bound; None where nothing is below it.
    fn below(&mut self, bound: u32) -> Option<u32> {
        self.state = self
            .state
            .wrapping_mul(6_364_136_223_846_793_005)
            .wrapping_add(1_442_695_040_888_963_407);
        let high = u32::try_from(self.state >> 32).ok()?;
        high.checked_rem(bound)
    }

    /// The letters of a program.
    fn program(&mut self, alloc: Global, draw: Draw) -> Option<String> {
        let mut letters = String::new(alloc);
        for hart in 0..draw.harts {
            if hart > 0 {
                letters.push(' ').ok()?;
            }
            self.push_acts(&mut letters, draw.acts)?;
        }
        Some(letters)
    }

    /// One to so many acts.
    fn push_acts(&mut self, letters: &mut String, most: u32) -> Option<()> {
        for _act in 0..=self.below(most)? {
            let act = *ACTS.get(self.below(8)? as usize)?;
            letters.push(char::from(act)).ok()?;
        }
        Some(())
    }
}

/// The source of a program by its letters.
fn source_of(alloc: Global, letters: &str) -> Option<String> {
    let mut text = String::new(alloc);
    text.push_str(BEGIN).ok()?;
    let mut hart: u32 = 0;
    push_head(alloc, &mut text, hart)?;
    for at in 0..letters.len() {
        match *letters.as_bytes().get(at)? {
            b' ' => {
                hart = hart.checked_add(1)?;
                text.push_str(END).ok()?;
                push_head(alloc, &mut text, hart)?;
            }
            act => push_act(alloc, &mut text, act, at)?,
        }
    }
    text.push_str(END).ok()?;
    let past = hart.checked_add(1)?;
    push_line(&mut text, format!(in alloc; "hart{past}: ecall\n").ok())?;
    Some(text)
}

fn push_line(text: &mut String, line: Option<String>) -> Option<()> {
    text.push_str(line?.as_str()).ok()
}

/// What hart `hart` comes to, from which the harts behind it go on to their own acts.
fn push_head(alloc: Global, text: &mut String, hart: u32) -> Option<()> {
    let next = hart.checked_add(1)?;
    let line = format!(in alloc; "hart{hart}: addi t1, a0, -{hart}\nbnez t1, hart{next}\n");
    push_line(text, line.ok())
}

/// An act, with a label of its own. Register s1 counts those that are done.
fn push_act(alloc: Global, text: &mut String, act: u8, label: usize) -> Option<()> {
    let (code, again) = code_of(act);
    push_line(text, format!(in alloc; "act{label}: {code}\n").ok())?;
    if let Some(branch) = again {
        push_line(text, format!(in alloc; "{branch} t1, act{label}\n").ok())?;
    }
    text.push_str("addi s1, s1, 1\n").ok()
}

/// The instruction of an act, and the branch that goes back to it for as long as it has to be tried again.
fn code_of(act: u8) -> (&'static str, Option<&'static str>) {
    match act {
        b'a' => ("amoswap.w t1, a7, (s5)", Some("bnez")),
        b'b' => ("amoswap.w t1, a7, (s6)", Some("bnez")),
        b'A' => ("sw x0, 0(s5)", None),
        b'B' => ("sw x0, 0(s6)", None),
        b'w' => ("lw t1, 64(s6)", Some("beqz")),
        b'f' => ("sw a7, 64(s6)", None),
        _ => ("sw x0, 64(s6)", None),
    }
}

/// What the runs of a program start from.
fn start_of(alloc: Global, letters: &str) -> Option<Setup> {
    let source = source_of(alloc, letters)?;
    let (program, medium) = loaded(alloc, Some(OWN), &[source.as_str()])?;
    let mut harts = 1;
    for letter in letters.as_bytes() {
        if *letter == b' ' && harts < 3 {
            harts += 1;
        }
    }
    Some(Setup::with_room(program, medium, harts))
}

/// The next act of a hart that has done so many; None where there is none, or no such hart.
fn act_of(letters: &str, hart: usize, done: usize) -> Option<u8> {
    let mut at: usize = 0;
    let mut acts: usize = 0;
    for letter in letters.as_bytes() {
        if *letter == b' ' {
            at = at.checked_add(1)?;
        } else if at == hart {
            if acts == done {
                return Some(*letter);
            }
            acts = acts.checked_add(1)?;
        }
    }
    None
}

/// The word that an act is about.
fn word_of(act: u8) -> usize
    ensures { result < 3 }
{
    match act {
        b'a' | b'A' => 0,
        b'b' | b'B' => 1,
        _ => 2,
    }
}

/// The words after an act; None where it has to be tried again.
fn words_after(words: [bool; 3], act: u8) -> Option<[bool; 3]> {
    let word = word_of(act);
    let waits = match act {
        b'a' | b'b' => words[word],
        b'w' => !words[word],
        _ => false,
    };
    if waits {
        return None;
    }
    let mut after = words;
    after[word] = matches!(act, b'a' | b'b' | b'w' | b'f');
    Some(after)
}

/// The place to which the next act of a hart leads, unless it waits or has done all.
fn place_after(letters: &str, place: Place, hart: usize) -> Option<Place> {
    let mut after = place;
    let done = place.done.get(hart)?;
    let act = act_of(letters, hart, *done)?;
    after.words = words_after(place.words, act)?;
    *after.done.get_mut(hart)? = done.checked_add(1)?;
    Some(after)
}

/// The number of a place among those that were met, to which it is added where it is new.
fn number_of(all: &mut Vec<Met>, place: Place) -> Option<usize> {
    let number = number_in(all, &place);
    if number == all.len() {
        let met = Met {
            place,
            next: [number; 3],
        };
        all.push(met).ok()?;
    }
    Some(number)
}

/// The number of a place that was met, or else how many were.
fn number_in(all: &[Met], place: &Place) -> usize {
    for number in 0..all.len() {
        if all[number].place == *place {
            return number;
        }
    }
    all.len()
}

/// All places to which acts lead from the start.
fn all_places(alloc: Global, letters: &str) -> Option<Vec<Met>> {
    let mut all = Vec::new(alloc);
    let start = Place {
        done: [0; 3],
        words: [false; 3],
    };
    number_of(&mut all, start)?;
    for at in 0..MOST {
        if at >= all.len() {
            return Some(all);
        }
        go_on(letters, &mut all, at)?;
    }
    None
}

/// Goes on from a place by an act of each hart.
fn go_on(letters: &str, all: &mut Vec<Met>, at: usize) -> Option<()> {
    let place = all.get(at)?.place;
    let mut next = [at; 3];
    for hart in 0..3 {
        if let Some(after) = place_after(letters, place, hart) {
            next[hart] = number_of(all, after)?;
        }
    }
    all.get_mut(at)?.next = next;
    Some(())
}

/// Of each place whether acts lead on to where all are done.
fn ways_out(alloc: Global, letters: &str, all: &[Met]) -> Option<Vec<bool>> {
    let mut out = Vec::new(alloc);
    for met in all {
        out.push(is_end(letters, &met.place)).ok()?;
    }
    for _round in 0..all.len() {
        if !mark_more(all, &mut out)? {
            return Some(out);
        }
    }
    Some(out)
}

/// Marks places from which an act leads to one that is marked, and says whether there were any.
fn mark_more(all: &[Met], out: &mut Vec<bool>) -> Option<bool> {
    let mut has_marked = false;
    for at in 0..all.len() {
        if !*out.get(at)? && leads_out(out, all[at].next) {
            *out.get_mut(at)? = true;
            has_marked = true;
        }
    }
    Some(has_marked)
}

fn leads_out(out: &[bool], next: [usize; 3]) -> bool {
    for hart in 0..3 {
        if out.get(next[hart]) == Some(&true) {
            return true;
        }
    }
    false
}

/// Whether each hart has done all its acts.
fn is_end(letters: &str, place: &Place) -> bool {
    for hart in 0..3 {
        if act_of(letters, hart, place.done[hart]).is_some() {
            return false;
        }
    }
    true
}

/// Makes the steps of a hart that ask for nothing. None where they are too many.
fn run_ahead(machine: &mut Machine, hart: u32) -> Option<()> {
    for _step in 0..STEPS {
        if hart >= machine.harts() || machine.hart(hart).status != Status::Running {
            return Some(());
        }
        if matches!(machine.need(hart), Need::Ask(_)) {
            return Some(());
        }
        machine.step(Step::Hart(hart)).ok()?;
    }
    None
}

/// How many acts a hart has done, which makes the steps behind its last one first.
fn done_by(machine: &mut Machine, hart: u32) -> Option<usize> {
    run_ahead(machine, hart)?;
    if hart >= machine.harts() {
        return Some(0);
    }
    let counted = machine.hart(hart).registers.get(Reg { number: 9 });
    usize::try_from(counted).ok()
}

/// How many acts each of three harts has done.
fn all_done(machine: &mut Machine) -> Option<[usize; 3]> {
    Some([
        done_by(machine, 0)?,
        done_by(machine, 1)?,
        done_by(machine, 2)?,
    ])
}

/// Whether the locks are taken and the flag is set.
fn words_of(machine: &Machine) -> Option<[bool; 3]> {
    Some([
        machine.peek(0x10_0000)? != 0,
        machine.peek(0x10_0040)? != 0,
        machine.peek(0x10_0080)? != 0,
    ])
}

/// The place that a machine has come to.
fn place_of(machine: &mut Machine) -> Option<Place> {
    let done = all_done(machine)?;
    let words = words_of(machine)?;
    Some(Place { done, words })
}

/// Has a machine make all steps of a run.
fn follow(machine: &mut Machine, run: &Run) -> Option<()> {
    machine.run(run.recorded().schedule()).ok()
}

/// The place to which a run leads.
fn place_of_run(alloc: Global, start: Setup, run: &Run) -> Option<Place> {
    let mut machine = Machine::new(
        alloc,
        start.program,
        start.medium,
        start.harts,
        start.capacity,
    )
    .ok()?;
    follow(&mut machine, run)?;
    place_of(&mut machine)
}

impl Places {
    /// Those of a program.
    fn of(alloc: Global, letters: &str) -> Option<Places> {
        let all = all_places(alloc, letters)?;
        let out = ways_out(alloc, letters, &all)?;
        Some(Places { all, out })
    }

    /// Whether each of them has a way out.
    fn can_always_end(&self) -> bool {
        for mark in &self.out {
            if !*mark {
                return false;
            }
        }
        true
    }

    /// Whether a run leads to one that has none.
    fn is_stuck_behind(&self, alloc: Global, letters: &str, run: &Run) -> Option<bool> {
        let place = place_of_run(alloc, start_of(alloc, letters)?, run)?;
        let mark = self.out.get(number_in(&self.all, &place))?;
        Some(!*mark)
    }

    /// Whether the search finds the same.
    fn are_found_so(
        &self,
        alloc: Global,
        letters: &str,
        outcome: &Outcome<Cause, OpFault>,
    ) -> Option<bool> {
        match outcome {
            Outcome::Pass { .. } => Some(self.can_always_end()),
            Outcome::Found {
                run,
                finding: Finding::NoWayOut,
            } => self.is_stuck_behind(alloc, letters, run),
            _ => Some(false),
        }
    }
}

/// What is found out about all schedules of a program by the search.
fn outcome_of<T: Threads + Sync>(
    rt: &T,
    alloc: Global,
    letters: &str,
) -> Option<Outcome<Cause, OpFault>> {
    let plan = Plan::read(alloc, OWN.as_bytes()).ok()?;
    let setup = start_of(alloc, letters)?;
    if setup.harts > 8 {
        return None;
    }
    let limits = Limits {
        states: 10_000,
        any_end: false,
        workers: 1,
    };
    check_all(rt, alloc, &plan, setup, limits, &mut Unwatched).ok()
}

/// Whether the search finds the same of a program as a plain look, and whether this one can always come to its end.
fn compared<T: Threads + Sync>(rt: &T, alloc: Global, letters: &str) -> Option<(bool, bool)> {
    let places = Places::of(alloc, letters)?;
    let outcome = outcome_of(rt, alloc, letters)?;
    let same = places.are_found_so(alloc, letters, &outcome)?;
    Some((same, places.can_always_end()))
}

impl Tally {
    /// That of programs that are drawn from a seed.
    fn of<T: Threads + Sync>(rt: &T, alloc: Global, draw: Draw, seed: &mut Seed) -> Option<Tally> {
        let mut tally = Tally {
            programs: 0,
            same: 0,
            stuck: 0,
        };
        for _program in 0..draw.programs {
            let letters = seed.program(alloc, draw)?;
            let (same, ends) = compared(rt, alloc, letters.as_str())?;
            tally.count(same, ends);
        }
        Some(tally)
    }

    fn count(&mut self, same: bool, ends: bool) {
        self.programs = self.programs.saturating_add(1);
        self.same = self.same.saturating_add(u32::from(same));
        self.stuck = self.stuck.saturating_add(u32::from(!ends));
    }

    /// Whether all were found so, of which some can't always come to their ends, and some can.
    fn is_right(&self) -> bool {
        self.same == self.programs && self.stuck > 0 && self.stuck < self.programs
    }
}

#[test]
fn harts_that_wait_for_ever_are_found(rt: HostRuntime) {
    for (letters, ends) in &CASES {
        let found = compared(&rt, rt.alloc(), letters);
        assert!(rt; found == Some((true, *ends)), "{letters} {found:?}");
    }
}

#[test]
fn programs_that_are_drawn_end_as_by_a_plain_look(rt: HostRuntime) {
    let mut seed = Seed { state: 65 };
    for draw in &DRAWS {
        let tally = Tally::of(&rt, rt.alloc(), *draw, &mut seed);
        assert!(rt;
            matches!(tally, Some(tally) if tally.is_right()),
            "{tally:?}"
        );
    }
}
