//! What `run` and `replay` print of harts and events.

ghost use Rattle.std.specs.Prelude.{◌≡◌, ◌≤◌, IfOk, length, string_bytes};
ghost use Rattle.command_line.specs.Reports.{run_report};

use hart::{HartLine, HartState};
use std::alloc::{AllocError, Global};
use std::fmt::Write;

/// A line for each of at most eight harts, by its number, and then `events N`, N being the number of events.
#[tactic(auto, using(crate::proofs::Loops::harts_next, crate::proofs::Loops::harts_all))]
pub fn report(alloc: Global, harts: &[HartState], events: usize) -> Result<String, AllocError>
    requires { length harts.now ≤ 8 }
    ensures { IfOk result (λ text. string_bytes text ≡ run_report harts.now events) }
{
    let mut text = String::new(alloc);
    for (hart, state) in harts.iter().enumerate() {
        let hart = hart as u32;
        writeln!(
            text,
            "{}",
            HartLine {
                hart,
                state: *state
            }
        )?;
    }
    writeln!(text, "events {events}")?;
    Ok(text)
}
