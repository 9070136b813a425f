//! One line of the image of a cut: its starting bytes, and over them its first stores.

ghost use Rattle.crash_image.specs.ImageScan.{IsLineMade};
ghost use Rattle.store_trace.specs.Image.{line_after};
ghost use Rattle.store_trace.specs.declared.crash_model.step.PersistenceStep.{PersistenceStep};
ghost use Rattle.store_trace.specs.History.{history, steps_of};
ghost use Rattle.store_trace.specs.TraceView.{IsEvent, IsWidth};
ghost use Rattle.word_bits.specs.Bytes.{stored};
ghost use Rattle.std.specs.Prelude.{◌≡◌, ℕ, ◌%◌, ◌<◌, ◌++◌, All, List};

use line_memory::store_bytes;
use store_trace::Event;

/// The bytes of the line after its first `number` stores among the events, over its starting bytes.
pub fn bytes_after(start: &[u8; 64], line: u32, number: u32, events: &[Event]) -> [u8; 64]
    requires { All IsEvent events.now }
    ensures { result ≡ line_after start.now line number (history events.now) }
{
    let mut bytes = *start;
    let mut left = number;
    for event in events {
        if left == 0 {
            return bytes;
        }
        apply_next(&mut bytes, &mut left, line, *event);
    }
    bytes
}

/// Makes the event's store, where it is the next one of the line.
fn apply_next(bytes: &mut [u8; 64], left: &mut u32, line: u32, event: Event)
    requires event { IsEvent event }
    requires due { 0 < left.old }
    ensures { (start : List ℕ) (k : ℕ) (p : List PersistenceStep) →
        IsLineMade start line k p left.old bytes.old → IsLineMade start line k (steps_of event ++ p) left.new bytes.new }
{
    let Event::Store {
        line: written,
        offset,
        width,
        value,
        ..
    } = event
    else {
        return;
    };
    if written == line {
        *left -= 1;
        store_in_line(bytes, u32::from(offset), u32::from(width), value);
    }
}

/// Writes the low `width` bytes of `value` at the `offset` of a line's bytes.
#[tactic(auto, using(crate::proofs::Imaged::aligned_fits))]
pub fn store_in_line(bytes: &mut [u8; 64], offset: u32, width: u32, value: u64)
    requires width { IsWidth width }
    requires aligned { offset % width ≡ 0 }
    requires offset { offset < 64 }
    ensures { bytes.new ≡ stored bytes.old offset width value }
{
    store_bytes(bytes, offset as usize, width as usize, value);
}
