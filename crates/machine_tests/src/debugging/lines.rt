//! Lines that are read, and what they ask for.

use arguments::{CheckAllCommand, Command, LineFault, RunCommand, command};
use std::alloc::{AllocError, Global};
use std::test::Fail;

/// The value of an option, and a dash where the line doesn't have it.
fn value_of(value: &Option<String>) -> &str {
    match value {
        Some(value) => value.as_str(),
        None => "-",
    }
}

/// A run's words and options.
fn run_of(alloc: Global, run: &RunCommand) -> Result<String, AllocError> {
    let (program, harts, steps) = (run.program.as_str(), run.machine.harts, run.steps);
    let capacity = run.machine.capacity.unwrap_or(0);
    let medium = value_of(&run.machine.medium);
    let (record, out) = (value_of(&run.record), value_of(&run.out));
    let whole = run.whole;
    format!(in alloc; "{program} {medium} {harts} {capacity} {steps} {record} {out} {whole}")
}

/// The words and options of a check of all schedules.
fn check_all_of(alloc: Global, asked: &CheckAllCommand) -> Result<String, AllocError> {
    let judged = &asked.judged;
    let (plan, program) = (asked.plan.as_str(), judged.program.as_str());
    let (medium, harts) = (value_of(&judged.machine.medium), judged.machine.harts);
    let (states, any_end, why) = (judged.states, judged.any_end, judged.why);
    let (json, progress) = (judged.json, judged.progress);
    format!(in alloc;
        "{plan} {program} {medium} {harts} {states} {any_end} {why} {json} {progress}"
    )
}

/// What a line is read as: the run or the check that it asks for, another command, or which fault it is.
fn read(alloc: Global, line: &str) -> Result<String, AllocError> {
    let words: Vec<String> = line
        .split(' ')
        .map(|word| String::from_str(alloc, word))
        .try_collect(alloc)?;
    match command(alloc, words.as_slice()) {
        Ok(Command::Run(run)) => run_of(alloc, &run),
        Ok(Command::CheckAll(asked)) => check_all_of(alloc, &asked),
        Ok(_) => String::from_str(alloc, "another"),
        Err(LineFault::Help(_)) => String::from_str(alloc, "help"),
        Err(LineFault::Fault(_)) => String::from_str(alloc, "fault"),
        Err(LineFault::Memory) => String::from_str(alloc, "memory"),
    }
}

/// Lines, and what they are read as.
const LINES: [(&str, &str); 15] = [
    ("novacrash run a.s", "a.s - 1 16 1000000 - - false"),
    (
        "novacrash run --out=o --record=r --steps=4 a.s --capacity=3 --harts=2 --medium=m",
        "a.s m 2 3 4 r o false",
    ),
    (
        "novacrash run --whole a.s --steps=4",
        "a.s - 1 16 4 - - true",
    ),
    (
        "novacrash check-all p a.s",
        "p a.s - 1 1000000 false false false false",
    ),
    (
        "novacrash check-all --why --states=7 p --any-end a.s --json --harts 2 --progress --medium m",
        "p a.s m 2 7 true true true true",
    ),
    (
        "novacrash check-all p a.s --states 0004294967295 --any-end",
        "p a.s - 1 4294967295 true false false false",
    ),
    ("novacrash check-all p a.s --states 4294967296", "fault"),
    ("novacrash check-all p a.s --states 0", "fault"),
    ("novacrash check-all p a.s --harts 9", "fault"),
    ("novacrash check-all p a.s s", "fault"),
    ("novacrash check-all p", "fault"),
    ("novacrash check-all --help", "help"),
    ("novacrash listing a.s", "another"),
    ("novacrash run a.s --harts 9", "fault"),
    ("novacrash run --help", "help"),
];

/// The first line that is read as something else, and what it is read as.
fn first_misread(alloc: Global) -> Result<Option<String>, AllocError> {
    for (line, expected) in LINES {
        let outcome = read(alloc, line)?;
        if outcome.as_str() != expected {
            return Ok(Some(format!(in alloc; "{line}: {outcome}")?));
        }
    }
    Ok(None)
}

#[test]
fn lines_are_read(rt: HostRuntime) -> Result<(), Fail> {
    assert_eq!(rt; first_misread(rt.alloc())?, None);
    Ok(())
}
