//! The image of a cut: its first stores of each line, made over the starting medium.

ghost use Rattle.crash_image.specs.ImageScan.{IsImaged};
ghost use Rattle.crash_image.specs.View.{NamesLine};
ghost use Rattle.store_trace.specs.Cut.{number_in};
ghost use Rattle.store_trace.specs.Image.{image};
ghost use Rattle.store_trace.specs.declared.crash_model.step.PersistenceStep.{PersistenceStep};
ghost use Rattle.line_memory.specs.Lines.{IsMedium, line_at};
ghost use Rattle.word_bits.specs.Bytes.{stored};
ghost use Rattle.store_trace.specs.History.{history, steps_of};
ghost use Rattle.store_trace.specs.TraceView.{IsEvent, IsWidth};
ghost use Rattle.std.specs.Prelude.{◌≡◌, ℕ, ◌+◌, ◌%◌, ◌<◌, ◌≤◌, ◌++◌, List, length, slice_index_or, slice_set, All, IfOk, IfErr};

use crate::ImageFault;
use crate::line::store_in_line;
use line_memory::Medium;
use std::alloc::{AllocError, Global};
use store_trace::Event;

/// The medium after the events, of which each line takes as many first stores as the entries give it, and
/// a line without an entry none.
pub fn imaged(
    alloc: Global,
    medium: &Medium,
    events: &[Event],
    entries: &[(u32, u32)],
) -> Result<Medium, ImageFault>
    requires events { All IsEvent events.now }
    requires named { All (NamesLine (length medium.now)) events.now }
    requires entries { All (λ entry. entry.0 < length medium.now) entries.now }
    ensures ok { IfOk result (λ m. m ≡ image medium.now (number_in entries.now) (history events.now)) }
    ensures whole { IfOk result (λ m. IsMedium m) }
    ensures err { IfErr result (λ fault. fault ≡ ImageFault.Memory) }
{
    let mut left = numbers_of_lines(alloc, medium.lines(), entries)?;
    let mut made = copy_of(alloc, medium)?;
    for event in events {
        apply_if_due(&mut made, &mut left, *event);
    }
    Ok(made)
}

/// The medium once more.
pub fn copy_of(alloc: Global, medium: &Medium) -> Result<Medium, ImageFault>
    ensures same { IfOk result (λ copy. copy ≡ medium.now) }
    ensures whole { IfOk result (λ copy. IsMedium copy) }
    ensures err { IfErr result (λ fault. fault ≡ ImageFault.Memory) }
{
    match medium.copy(alloc) {
        Ok(copy) => Ok(copy),
        Err(_refused) => Err(ImageFault::Memory),
    }
}

/// For each of the first `lines` lines the number that the entries give it, and else 0.
pub fn numbers_of_lines(
    alloc: Global,
    lines: u32,
    entries: &[(u32, u32)],
) -> Result<Vec<u32>, AllocError>
    requires { All (λ entry. entry.0 < lines) entries.now }
    ensures len { IfOk result (λ numbers. length numbers.items ≡ lines) }
    ensures each { IfOk result (λ numbers. (l d : ℕ) → l < lines →
        slice_index_or numbers.items l d ≡ number_in entries.now l) }
{
    let mut numbers = vec![in alloc; 0u32; lines as usize]?;
    for at in (0..entries.len()).rev() {
        let (line, number) = entries[at];
        numbers[line as usize] = number;
    }
    Ok(numbers)
}

/// Makes the event's store, where its line has stores left.
fn apply_if_due(medium: &mut Medium, left: &mut [u32], event: Event)
    requires event { IsEvent event }
    requires named { NamesLine (length medium.old) event }
    requires counts { length left.old ≡ length medium.old }
    requires whole { IsMedium medium.old }
    ensures whole { IsMedium medium.new }
    ensures image { (start : List (List ℕ)) (k : ℕ → ℕ) (p : List PersistenceStep) →
        IsImaged start k p left.old medium.old → IsImaged start k (steps_of event ++ p) left.new medium.new }
{
    let Event::Store {
        line,
        offset,
        width,
        value,
        ..
    } = event
    else {
        return;
    };
    let count = &mut left[line as usize];
    if *count > 0 {
        *count -= 1;
        store(medium, line, u32::from(offset), u32::from(width), value);
    }
}

/// Writes the low `width` bytes of `value` at the line's `offset`.
pub fn store(medium: &mut Medium, line: u32, offset: u32, width: u32, value: u64)
    requires there { line < length medium.old }
    requires width { IsWidth width }
    requires aligned { offset % width ≡ 0 }
    requires offset { offset < 64 }
    ensures whole { IsMedium medium.new }
    ensures changed { medium.new ≡ slice_set medium.old line (stored (line_at medium.old line) offset width value) }
{
    let mut bytes = *medium.read_line(line);
    store_in_line(&mut bytes, offset, width, value);
    medium.write_line(line, &bytes);
}
