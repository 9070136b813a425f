//! The search for the least cut with a given image: one pass over the events, line by line.

ghost use Rattle.crash_image.specs.LeastCut.{AreNumbers, AreSought, IsSought, chosen_from, looked};
ghost use Rattle.crash_image.specs.View.{NamesLine};
ghost use Rattle.crash_image.specs.declared.search.Sought.{Sought as ASought};
ghost use Rattle.store_trace.specs.Cut.{number_in};
ghost use Rattle.store_trace.specs.declared.crash_model.step.PersistenceStep.{PersistenceStep};
ghost use Rattle.line_memory.specs.Lines.{IsMedium, line_at};
ghost use Rattle.store_trace.specs.History.{history, steps_of};
ghost use Rattle.store_trace.specs.TraceView.{IsEvent};
ghost use Rattle.std.specs.Prelude.{◌≡◌, ◌↔◌, ℕ, ◌+◌, ◌<◌, ◌≤◌, ◌^◌, ◌++◌, [], List, length, option_map, slice_index_or, All, IfOk, IfErr, IsTrue, OnOk};

use crate::ImageFault;
use crate::images::{copy_of, numbers_of_lines, store};
use line_memory::Medium;
use std::alloc::{AllocError, Global};
use store_trace::Event;

/// A line in the search.
#[derive(Clone, Copy)]
struct Sought {
    floor: u32,
    /// Its stores so far.
    stores: u32,
    /// The least number at which it had the bytes that are sought.
    number: Option<u32>,
}

impl Sought {
    /// Keeps the number of stores, where it is the first from the floor on at which the line fits.
    fn note_match(&mut self, same: bool)
        ensures { self.new ≡ looked same self.old }
    {
        if self.number.is_none() && self.floor <= self.stores && same {
            self.number = Some(self.stores);
        }
    }
}

/// The numbers of the least cut that gives `wanted`, from these floors on. None where a line fits at no number.
pub fn find_least(
    alloc: Global,
    medium: &Medium,
    wanted: &Medium,
    events: &[Event],
    floors: &[(u32, u32)],
) -> Result<Option<Vec<(u32, u32)>>, ImageFault>
    requires lines { length wanted.now ≡ length medium.now }
    requires events { All IsEvent events.now }
    requires named { All (NamesLine (length medium.now)) events.now }
    requires limit { length events.now ≤ 65536 }
    requires floors { All (λ entry. entry.0 < length medium.now) floors.now }
    ensures ok { IfOk result (λ found.
        AreNumbers medium.now wanted.now (number_in floors.now) (history events.now) (option_map (λ v. v.items) found)) }
    ensures err { IfErr result (λ fault. fault ≡ ImageFault.Memory) }
{
    let mut all = initial_lines(alloc, medium, wanted, floors)?;
    look_through(alloc, medium, wanted, events, &mut all)?;
    let found = numbers_found(alloc, &all)?;
    Ok(found)
}

/// The lines before the first event, from these floors on.
fn initial_lines(
    alloc: Global,
    medium: &Medium,
    wanted: &Medium,
    floors: &[(u32, u32)],
) -> Result<Vec<Sought>, AllocError>
    requires lines { length wanted.now ≡ length medium.now }
    requires floors { All (λ entry. entry.0 < length medium.now) floors.now }
    ensures sought { IfOk result (λ all. AreSought medium.now wanted.now (number_in floors.now) 0 [] medium.now all.items) }
    ensures few { IfOk result (λ all. length all.items < 2 ^ 32) }
{
    let numbers = numbers_of_lines(alloc, medium.lines(), floors)?;
    unmoved_lines(alloc, medium, wanted, &numbers)
}

/// The lines before the first event, each with its floor.
fn unmoved_lines(
    alloc: Global,
    medium: &Medium,
    wanted: &Medium,
    floors: &[u32],
) -> Result<Vec<Sought>, AllocError>
    requires lines { length wanted.now ≡ length medium.now }
    requires floors { length floors.now ≡ length medium.now }
    ensures { IfOk result (λ all. (low : ℕ → ℕ) →
        ((l d : ℕ) → l < length medium.now → slice_index_or floors.now l d ≡ low l) →
        AreSought medium.now wanted.now low 0 [] medium.now all.items) }
{
    let mut all = Vec::with_capacity(alloc, floors.len())?;
    for line in 0..medium.lines() {
        all.push(unmoved(medium, wanted, line, floors[line as usize]))?;
    }
    Ok(all)
}

/// Looks at the lines after each of the events, which are made in turn over the medium.
fn look_through(
    alloc: Global,
    medium: &Medium,
    wanted: &Medium,
    events: &[Event],
    all: &mut [Sought],
) -> Result<(), ImageFault>
    requires lines { length wanted.now ≡ length medium.now }
    requires events { All IsEvent events.now }
    requires named { All (NamesLine (length medium.now)) events.now }
    requires limit { length events.now ≤ 65536 }
    requires sought { (low : ℕ → ℕ) × AreSought medium.now wanted.now low 0 [] medium.now all.old }
    ensures ok { OnOk result ((low : ℕ → ℕ) → AreSought medium.now wanted.now low 0 [] medium.now all.old →
        AreNumbers medium.now wanted.now low (history events.now) (chosen_from 0 all.new)) }
    ensures err { IfErr result (λ fault. fault ≡ ImageFault.Memory) }
{
    let mut shown = copy_of(alloc, medium)?;
    for event in events {
        apply_and_compare(&mut shown, wanted, all, *event);
    }
    Ok(())
}

/// A line before the first event.
#[tactic(auto, using(crate::proofs::Searching::unmoved_least))]
fn unmoved(medium: &Medium, wanted: &Medium, line: u32, floor: u32) -> Sought
    requires there { line < length medium.now }
    requires lines { length wanted.now ≡ length medium.now }
    ensures { IsSought (line_at medium.now line) (line_at wanted.now line) floor line 0 [] result }
{
    let mut sought = Sought {
        floor,
        stores: 0,
        number: None,
    };
    sought.note_match(same_line(medium, wanted, line));
    sought
}

fn same_line(medium: &Medium, wanted: &Medium, line: u32) -> bool
    requires there { line < length medium.now }
    requires wanted { line < length wanted.now }
    ensures { IsTrue result ↔ (line_at medium.now line ≡ line_at wanted.now line) }
{
    medium.read_line(line) == wanted.read_line(line)
}

/// Makes the event's store, and looks at its line.
fn apply_and_compare(shown: &mut Medium, wanted: &Medium, all: &mut [Sought], event: Event)
    requires event { IsEvent event }
    requires named { NamesLine (length shown.old) event }
    requires wanted { length wanted.now ≡ length shown.old }
    requires size { length all.old ≡ length shown.old }
    requires whole { IsMedium shown.old }
    requires few { (l : ℕ) (d : ASought) → l < length all.old → (slice_index_or all.old l d).stores < 65536 }
    ensures whole { IsMedium shown.new }
    ensures sought { (start : List (List ℕ)) (low : ℕ → ℕ) (made : ℕ) (p : List PersistenceStep) →
        AreSought start wanted.now low made p shown.old all.old →
        AreSought start wanted.now low (made + 1) (steps_of event ++ p) shown.new all.new }
{
    let Event::Store {
        line,
        offset,
        width,
        value,
        ..
    } = event
    else {
        return;
    };
    store(shown, line, u32::from(offset), u32::from(width), value);
    let sought = &mut all[line as usize];
    sought.stores += 1;
    sought.note_match(same_line(shown, wanted, line));
}

/// The numbers of the stored lines, upwards. None where a line has none.
fn numbers_found(alloc: Global, all: &[Sought]) -> Result<Option<Vec<(u32, u32)>>, AllocError>
    requires { length all.now < 2 ^ 32 }
    ensures { IfOk result (λ found. option_map (λ v. v.items) found ≡ chosen_from 0 all.now) }
{
    let mut entries = Vec::new(alloc);
    for (line, sought) in all.iter().enumerate() {
        let Some(number) = sought.number else {
            return Ok(None);
        };
        if sought.stores > 0 {
            entries.push((line as u32, number))?;
        }
    }
    Ok(Some(entries))
}
