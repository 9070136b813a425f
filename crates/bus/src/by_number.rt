//! Seats in the order of their harts' numbers.

ghost use Rattle.std.specs.Prelude.{IfErr, IfNone, IfSome, MatchBool, OnOk};
ghost use Rattle.bus.specs.Ending.{HasNoSeat, HasTooLarge};
ghost use Rattle.bus.specs.Numbering.{ArePlaced, IsSeatOf, RefusesNumbers};

use crate::finish_fault::FinishFault;
use crate::seat::Seat;

/// Where the first seat of a hart is.
#[tactic(auto, using(crate::proofs::Numbering::is_seat_of, crate::proofs::Numbering::none_of))]
fn find_seat(seats: &[Seat<'_>], hart: u32) -> Option<usize>
    ensures some { IfSome result (λ at. IsSeatOf seats.now at hart) }
    ensures none { IfNone result (HasNoSeat seats.now hart) }
{
    for at in 0..seats.len() {
        if seats[at].hart() == hart {
            return Some(at);
        }
    }
    None
}

/// Whether a seat is that of no hart of so many.
#[tactic(auto, using(crate::proofs::Numbering::low_zero, crate::proofs::Numbering::low_more, crate::proofs::Numbering::none_large, crate::proofs::Numbering::too_large))]
pub(crate) fn has_too_large(seats: &[Seat<'_>], harts: u32) -> bool
    ensures { MatchBool result (HasTooLarge harts seats.now) (HasTooLarge harts seats.now → ⊥) }
{
    for at in 0..seats.len() {
        if seats[at].hart() >= harts {
            return true;
        }
    }
    false
}

/// Puts each seat at the place of its number, which is to be that of one of so many harts, each of which has one seat.
///
/// # Errors
/// SeatMissing where a hart has no seat, else SeatNumber where two seats have one number or a seat is that of no hart.
pub(crate) fn place_seats(harts: u32, seats: &mut [Seat<'_>]) -> Result<(), FinishFault>
    ensures ok { OnOk result (ArePlaced harts seats.old seats.new) }
    ensures err { IfErr result (RefusesNumbers harts seats.old) }
{
    for hart in 0..harts {
        match find_seat(seats, hart) {
            Some(at) => seats.swap(hart as usize, at),
            None => return Err(FinishFault::SeatMissing),
        }
    }
    if seats.len() > harts as usize {
        return Err(FinishFault::SeatNumber);
    }
    Ok(())
}
