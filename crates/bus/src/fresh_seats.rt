//! Seats at the start.

ghost use Rattle.std.specs.Prelude.{◌≡◌, ◌≤◌, ◌∷◌, ◌++◌, [], IfErr, IfOk, length, map};
ghost use Rattle.std.specs.List.{range_with_len};
ghost use Rattle.line_memory.specs.declared.TheConstants.{TEXT_SIZE};
ghost use Rattle.bus.specs.Starting.{seat_at_start};

use crate::seat::Seat;
use hart::HartState;
use machine::{StepFault, TextCopy};
use program::Program;
use std::alloc::Global;

/// A seat for each of so many harts, by its number.
#[tactic(auto, using(crate::proofs::Counting::counted_start, crate::proofs::Leading::led_start))]
pub(crate) fn starting_seats<'p>(
    alloc: Global,
    program: &'p Program,
    harts: u32,
    budget: u32,
    text: &[u8],
) -> Result<Vec<Seat<'p>>, StepFault>
    requires few { harts ≤ 8 }
    requires budget { budget ≤ 500000000 }
    requires whole { length text.now ≡ TEXT_SIZE }
    ensures { IfOk result (λ seats. seats.items
        ≡ map (seat_at_start program.now.text budget text.now) (range_with_len 0 harts)) }
{
    let mut seats = Vec::new(alloc);
    for hart in 0..harts {
        let copy = TextCopy::new(alloc, text)?;
        let seat = Seat {
            hart,
            text: program.text_bytes(),
            budget,
            made: 0,
            state: HartState::start(hart),
            copy,
            exchanges: Vec::new(alloc),
            since: 0,
            renewed: false,
        };
        push_seat(&mut seats, seat)?;
    }
    Ok(seats)
}

pub(crate) fn push_seat<'p>(seats: &mut Vec<Seat<'p>>, seat: Seat<'p>) -> Result<(), StepFault>
    ensures ok { IfOk result (λ _. seats.new.items ≡ seats.old.items ++ seat.entry ∷ []) }
    ensures err { IfErr result (λ fault. fault ≡ StepFault.Memory) }
{
    match seats.push(seat) {
        Ok(()) => Ok(()),
        Err(_) => Err(StepFault::Memory),
    }
}
