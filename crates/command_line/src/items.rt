//! The items of a schedule's text.

ghost use Rattle.command_line.specs.Items.{HasNoneBeyond, IsFirstBad, IsFirstBeyond, IsScheduleText, IsWithin, is_beyond, named_by, word_hint};
ghost use Rattle.machine.specs.Grammar.{IsSchedule};
ghost use Rattle.std.specs.Prelude.{◌≡◌, ◌<◌, All, IfOk, IfSome, MatchBool, MatchOption, Some, length, option_map, position, slice_get};
ghost use Rattle.text.specs.Words.{words_of_lines};

use crate::failure::Limit;
use machine::{Item, Schedule, ScheduleFault};
use std::alloc::{AllocError, Global};
use text::{Blanks, first_word};

/// A word of a schedule's text that is no item, and its number from 1.
#[derive(Clone, Copy)]
pub(crate) struct BadItem<'a> {
    pub(crate) number: usize,
    pub(crate) word: &'a [u8],
}

/// An item of a schedule's text that goes past a limit.
#[derive(Clone, Copy)]
pub(crate) struct FarItem<'a> {
    /// Its number, from 1.
    pub(crate) number: usize,
    pub(crate) word: &'a [u8],
    /// The number of the hart or of the cache line that it names.
    pub(crate) named: u32,
}

/// The first word of a text that is no item of a schedule; None where each word is one.
#[tactic(auto, using(crate::proofs::FirstBad::nothing_passed, crate::proofs::FirstBad::one_more_passed, crate::proofs::FirstBad::all_passed, crate::proofs::FirstBad::first_bad))]
pub(crate) fn bad_item<'a>(alloc: Global, text: &'a [u8]) -> Result<Option<BadItem<'a>>, AllocError>
    ensures { IfOk result (λ found. MatchOption found (All IsScheduleText (words_of_lines text.now)) (λ item. IsFirstBad text.now item.number item.word.now)) }
{
    let mut rest = text;
    let mut passed = 0;
    while let Some((word, after)) = first_word(rest, Blanks::SpacesAndLineEnds) {
        if !is_schedule(alloc, word)? {
            return Ok(Some(BadItem {
                number: passed + 1,
                word,
            }));
        }
        passed += 1;
        rest = after;
    }
    Ok(None)
}

/// Whether a text is a schedule; an item alone is one.
pub(crate) fn is_schedule(alloc: Global, text: &[u8]) -> Result<bool, AllocError>
    ensures { IfOk result (λ yes. MatchBool yes (IsScheduleText text.now) (¬ IsScheduleText text.now)) }
{
    match schedule_in(alloc, text)? {
        Some(_) => Ok(true),
        None => Ok(false),
    }
}

/// The schedule that a text says; None where it says none.
fn schedule_in(alloc: Global, text: &[u8]) -> Result<Option<Schedule>, AllocError>
    ensures { IfOk result (λ found. MatchOption found (¬ IsScheduleText text.now) (IsSchedule text.now)) }
{
    match Schedule::read(alloc, text) {
        Ok(schedule) => Ok(Some(schedule)),
        Err(ScheduleFault::Text) => Ok(None),
        Err(ScheduleFault::Memory) => Err(AllocError),
    }
}

/// The first item of a schedule's text that goes past a limit; None where the text is no schedule, or has no such item.
pub(crate) fn item_beyond<'a>(
    alloc: Global,
    text: &'a [u8],
    limit: Limit,
) -> Result<Option<FarItem<'a>>, AllocError>
    ensures { IfOk result (λ found. MatchOption found (HasNoneBeyond limit text.now) (λ item. IsFirstBeyond limit text.now item.number item.word.now item.named)) }
{
    match schedule_in(alloc, text)? {
        Some(schedule) => Ok(far_item(text, schedule.items(), limit)),
        None => Ok(None),
    }
}

/// The same, of a text that is a schedule of these items.
#[tactic(auto, using(crate::proofs::FarItems::first_beyond, crate::proofs::FarItems::none_beyond, crate::proofs::FarItems::has_word))]
fn far_item<'a>(text: &'a [u8], items: &[Item], limit: Limit) -> Option<FarItem<'a>>
    requires { IsSchedule text.now items.now }
    ensures { MatchOption result (IsWithin limit text.now) (λ item. IsFirstBeyond limit text.now item.number item.word.now item.named) }
{
    let Some(place) = place_beyond(limit, items) else {
        return None;
    };
    let Some(word) = word_at(text, place) else {
        return None;
    };
    Some(FarItem {
        number: place + 1,
        word,
        named: named_at(items, place),
    })
}

/// The place, from 0, of the first item that goes past a limit.
fn place_beyond(limit: Limit, items: &[Item]) -> Option<usize>
    ensures value { result ≡ position (is_beyond limit) items.now }
    ensures in_range { IfSome result (λ place. place < length items.now) }
{
    items.iter().position(|item| is_beyond(limit, item))
}

fn is_beyond(limit: Limit, item: &Item) -> bool
    ensures { result ≡ is_beyond limit item.now }
{
    match (limit, item) {
        (Limit::Harts(harts), Item::Steps { hart, .. }) => *hart >= harts,
        (Limit::Lines(lines), Item::Evict { line }) => *line >= lines,
        _ => false,
    }
}

/// The number of the hart or of the cache line that the item at a place names.
fn named_at(items: &[Item], place: usize) -> u32
    requires { place < length items.now }
    ensures { option_map named_by (slice_get items.now place) ≡ Some result }
{
    match items[place] {
        Item::Steps { hart, .. } => hart,
        Item::Evict { line } => line,
    }
}

/// The word at a place of a text, from 0; None where the text has fewer.
#[tactic(auto, using(crate::proofs::FarItems::next_place, crate::proofs::FarItems::no_place, crate::proofs::FarItems::this_place))]
fn word_at(text: &[u8], place: usize) -> Option<&[u8]>
    ensures { option_map (λ word. word.now) result ≡ slice_get (words_of_lines text.now) place }
{
    let mut rest = text;
    for _ in 0..place {
        (_, rest) = first_word(rest, Blanks::SpacesAndLineEnds)?;
    }
    let (word, _) = first_word(rest, Blanks::SpacesAndLineEnds)?;
    Some(word)
}

/// What an item may not have that other texts may: CR, tabs and comments.
pub(crate) fn word_hint(word: &[u8]) -> &'static str
    ensures { result.now ≡ word_hint word.now }
{
    if word.contains(&b'\r') {
        "lines end with LF, without CR"
    } else if word.contains(&b'\t') {
        "items are parted by spaces, not tabs"
    } else if word.contains(&b'#') {
        "comments aren't taken"
    } else {
        ""
    }
}
