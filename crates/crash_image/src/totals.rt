//! How many images moments of a trace have together, by one pass over the events.
//!
//! Only the lines that stand above their floor are kept: at most 16 where a moment has no more than 65,536 cuts.

ghost use Rattle.crash_image.specs.Totals.{IsFreePlace, IsImageSum, choices_of, cleaned_line, fenced_line, free_lines, still_free, with_store};
ghost use Rattle.crash_image.specs.declared.totals.FreeLine.{FreeLine as AFreeLine};
ghost use Rattle.store_trace.specs.declared.crash_model.step.PersistenceStep.{PersistenceStep};
ghost use Rattle.store_trace.specs.History.{at_moment, steps_of};
ghost use Rattle.store_trace.specs.TraceView.{IsEvent};
ghost use Rattle.std.specs.Prelude.{◌≡◌, ◌↔◌, ℕ, ◌+◌, ◌-◌, ◌<◌, ◌≤◌, ◌++◌, List, All, IfOk, IfSome, IsNone, OnOk, length, map};

use std::alloc::{AllocError, Global};
use store_trace::{Event, MAX_CUTS, MAX_HARTS, Trace};

/// A line that stands above its floor.
#[derive(Clone, Copy)]
struct FreeLine {
    line: u32,
    /// Its stores above the floor.
    above: u32,
    /// How many of those each hart's last clean of the line found.
    cleaned: [u32; MAX_HARTS],
}

impl FreeLine {
    /// After a clean of a line by the hart.
    fn clean(&mut self, hart: u32, line: u32)
        requires { hart < 8 }
        ensures { self.new ≡ cleaned_line hart line self.old }
    {
        if self.line == line {
            self.cleaned[hart as usize] = self.above;
        }
    }

    /// After a fence of the hart.
    fn fence(&mut self, hart: u32)
        requires { hart < 8 }
        ensures { self.new ≡ fenced_line hart self.old }
    {
        let rise = self.cleaned[hart as usize];
        self.above = self.above.saturating_sub(rise);
        lower(&mut self.cleaned, rise);
    }
}

fn lower(numbers: &mut [u32], rise: u32)
    ensures { numbers.new ≡ map (λ n. n - rise) numbers.old }
{
    for at in 0..numbers.len() {
        numbers[at] = numbers[at].saturating_sub(rise);
    }
}

/// The images of the moments from `first` on that are below `end`, together. None exactly where one of them has over 65,536 cuts.
pub fn images_between(
    alloc: Global,
    trace: &Trace,
    first: u32,
    end: u32,
) -> Result<Option<u64>, AllocError>
    requires { end ≤ length trace.now.events + 1 }
    ensures { IfOk result (λ total. IsImageSum trace.now.events first end total) }
{
    let events = trace.events();
    let mut free = Vec::new(alloc);
    let mut total = 0;
    for moment in 0..end {
        if first <= moment {
            let Some(count) = choices(&free) else {
                return Ok(None);
            };
            total += count;
        }
        next(&mut free, events, moment)?;
    }
    Ok(Some(total))
}

/// Takes the free lines from a moment to the next one, where there is one.
fn next(free: &mut Vec<FreeLine>, events: &[Event], moment: u32) -> Result<(), AllocError>
    requires events { All IsEvent events.now }
    requires few { length events.now ≤ 65536 }
    requires there { moment ≤ length events.now }
    requires free { free.old.items ≡ free_lines (at_moment events.now moment) }
    ensures { OnOk result (free.new.items ≡ free_lines (at_moment events.now (moment + 1))) }
{
    match events.get(moment as usize) {
        Some(event) => take(free, *event),
        None => Ok(()),
    }
}

/// Takes the free lines one event further.
fn take(free: &mut Vec<FreeLine>, event: Event) -> Result<(), AllocError>
    requires event { IsEvent event }
    requires few { All (λ (f : AFreeLine). f.above ≤ 65536) free.old.items }
    ensures { OnOk result ((p : List PersistenceStep) →
        free.old.items ≡ free_lines p → free.new.items ≡ free_lines (steps_of event ++ p)) }
{
    match event {
        Event::Store { line, .. } => store(free, line)?,
        Event::Clean { hart, line } => clean(free, hart, line),
        Event::Fence { hart } => fence(free, hart),
        Event::Begin { .. } | Event::End { .. } => {}
    }
    Ok(())
}

fn store(free: &mut Vec<FreeLine>, line: u32) -> Result<(), AllocError>
    requires { All (λ (f : AFreeLine). f.above ≤ 65536) free.old.items }
    ensures { OnOk result (free.new.items ≡ with_store line free.old.items) }
{
    let at = place_of(free, line);
    if at < free.len() && free[at].line == line {
        free[at].above += 1;
        return Ok(());
    }
    let first = FreeLine {
        line,
        above: 1,
        cleaned: [0; MAX_HARTS],
    };
    free.insert(at, first)?;
    Ok(())
}

/// How many of the free lines are lower than this one.
fn place_of(free: &[FreeLine], line: u32) -> usize
    ensures { IsFreePlace free.now line result }
{
    for (at, known) in free.iter().enumerate() {
        if line <= known.line {
            return at;
        }
    }
    free.len()
}

fn clean(free: &mut [FreeLine], hart: u32, line: u32)
    requires { hart < 8 }
    ensures { free.new ≡ map (cleaned_line hart line) free.old }
{
    for known in free.iter_mut() {
        known.clean(hart, line);
    }
}

fn fence(free: &mut Vec<FreeLine>, hart: u32)
    requires { hart < 8 }
    ensures { free.new.items ≡ still_free (map (fenced_line hart) free.old.items) }
{
    fence_each(free, hart);
    free.retain(|known| known.above > 0);
}

fn fence_each(free: &mut [FreeLine], hart: u32)
    requires { hart < 8 }
    ensures { free.new ≡ map (fenced_line hart) free.old }
{
    for known in free.iter_mut() {
        known.fence(hart);
    }
}

/// In how many ways the free lines can stand together. None exactly above 65,536.
#[tactic(auto, using(crate::proofs::Totaling::choices_next, crate::proofs::Totaling::choices_above))]
fn choices(free: &[FreeLine]) -> Option<u64>
    ensures some { IfSome result (λ count. (count ≡ choices_of free.now) × (count ≤ 65536)) }
    ensures none { IsNone result ↔ (65536 < choices_of free.now) }
{
    let mut count = 1;
    for known in free {
        count *= u64::from(known.above) + 1;
        if count > MAX_CUTS {
            return None;
        }
    }
    Some(count)
}
