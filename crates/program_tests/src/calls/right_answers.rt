//! What recovery answers on an image, and what is right at its moment. Both are worked out by hand.

use crate::calls::starts::{loaded, run_of};
use crash_test::{
    Events, FullAnswers, Judgement, RightAnswer, RoutineReader, answer_at, full_answers,
    right_answers,
};
use machine::Run;
use program::Program;
use routine_judge::Rule;
use std::alloc::Global;
use text::ImageName;

/// Operation 1 stores 7 over 5, and then 5 again.
const STORED_AGAIN: &str =
    "li t0, 5\nsd t0, 0(a1)\ncbo.clean (a1)\nfence w, w\nli a7, 2001\nli a0, 1\necall\nli t1, 7\nsd t1, 0(a1)\n\
    sd t0, 0(a1)\ncbo.clean (a1)\nfence w, w\nli a7, 2002\necall\nli a7, 93\nli a0, 0\necall\n";

/// Recovery shows the first eight bytes of the medium.
const SHOWN: &str =
    "ld t0, 0(a1)\nlui a1, 256\nsd t0, 0(a1)\nli a2, 8\nli a7, 93\nli a0, 0\necall\n";

/// More steps than it makes.
const STEPS: u32 = 100;

fn stored_again(alloc: Global) -> Option<Run> {
    run_of(alloc, None, &[STORED_AGAIN], "h0*17")?.ok()
}

fn shown(alloc: Global) -> Option<Program> {
    let (program, _medium) = loaded(alloc, None, &[SHOWN])?;
    Some(program)
}

/// The first byte of what recovery answers on an image of moment 5, of eight bytes.
fn answered(alloc: Global, image: u32) -> Option<u8> {
    let run = stored_again(alloc)?;
    let program = shown(alloc)?;
    let events = Events {
        medium: run.start(),
        trace: run.trace(),
    };
    let reader = RoutineReader {
        program: &program,
        steps: STEPS,
    };
    let answer = answer_at(alloc, events, 5, &ImageName::Number(image), &reader)
        .ok()?
        .ok()?;
    first_of_eight(answer.bytes())
}

/// The moment and the first byte of the right answer at moment 5, where there is one, of eight bytes.
fn right(alloc: Global) -> Option<(u32, u8)> {
    let run = stored_again(alloc)?;
    let program = shown(alloc)?;
    let judgement = Judgement {
        recovery: &program,
        steps: STEPS,
        rule: Rule::InTurn,
    };
    let right = right_answers(alloc, run.start(), run.trace(), judgement, 5).ok()?;
    match right.as_slice() {
        [one] => Some((one.moment, first_of_eight(one.answer.bytes())?)),
        _ => None,
    }
}

/// What recovery comes to on the full images of all moments.
fn full(alloc: Global) -> Option<FullAnswers> {
    let run = stored_again(alloc)?;
    let program = shown(alloc)?;
    let judgement = Judgement {
        recovery: &program,
        steps: STEPS,
        rule: Rule::InTurn,
    };
    full_answers(alloc, run.start(), run.trace(), judgement).ok()
}

/// The moments and the first bytes of the different answers, where there are three of eight bytes each.
fn given(alloc: Global) -> Option<((u32, u8), (u32, u8), (u32, u8))> {
    let full = full(alloc)?;
    match full.given.as_slice() {
        [one, two, three] => Some((told(one)?, told(two)?, told(three)?)),
        _ => None,
    }
}

fn told(given: &RightAnswer) -> Option<(u32, u8)> {
    Some((given.moment, first_of_eight(given.answer.bytes())?))
}

/// The first byte of the answer at the last moment, of eight bytes.
fn last(alloc: Global) -> Option<u8> {
    let full = full(alloc)?;
    match &full.last {
        Ok(answer) => first_of_eight(answer.bytes()),
        Err(_) => None,
    }
}

fn first_of_eight(bytes: &[u8]) -> Option<u8> {
    match bytes {
        [first, 0, 0, 0, 0, 0, 0, 0] => Some(*first),
        _ => None,
    }
}

/// At moment 5 the line is durable with 5, and may have 7.
#[test]
fn recovery_answers_by_the_image(rt: HostRuntime) {
    let floor = answered(rt.alloc(), 0);
    assert!(rt; floor == Some(5), "{floor:?}");
    let kept = answered(rt.alloc(), 1);
    assert!(rt; kept == Some(7), "{kept:?}");
}

/// Before the operation, at moment 3, and behind its end the medium has 5. It is told once, of the first of the two.
#[test]
fn a_right_answer_is_told_once(rt: HostRuntime) {
    let found = right(rt.alloc());
    assert!(rt; found == Some((3, 5)), "{found:?}");
}

/// The medium has 0, then 5, with its first store, 7 with its second, and 5 again from then on.
#[test]
fn full_images_give_each_answer_once(rt: HostRuntime) {
    let found = given(rt.alloc());
    assert!(rt; found == Some(((0, 0), (1, 5), (5, 7))), "{found:?}");
    let end = last(rt.alloc());
    assert!(rt; end == Some(5), "{end:?}");
}
