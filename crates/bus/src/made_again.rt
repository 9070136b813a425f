//! What seats have made is made again, in the order of a core's history.

ghost use Rattle.std.specs.Prelude.{◌≡◌, ◌≤◌, ◌++◌, ◌∷◌, [], IfErr, IfOk, OnOk, Some, ℕ, length, map, reverse, slice_get};
ghost use Rattle.std.specs.List.{range_with_len};
ghost use Rattle.line_memory.specs.declared.TheConstants.{TEXT_SIZE};
ghost use Rattle.bus.specs.Agreeing.{Agrees};
ghost use Rattle.bus.specs.Finished.{AllAgree};
ghost use Rattle.bus.specs.Following.{AllEnd, AllFollow, AreForeign, ArePaired, CannotEnd, EndsAt, EndsNot, HaveFollowed, IfForeign, IsFreshOf, follower_at_start};
ghost use Rattle.bus.specs.Replays.{AreBelow};
ghost use Rattle.bus.specs.Seats.{SeatView};

use crate::finish_fault::FinishFault;
use crate::follower::{Follower, follow, go_on};
use crate::locked::Core;
use crate::sameness::{are_same_bytes, is_same_state};
use crate::seat::Seat;
use hart::HartState;
use machine::{Entry, TextCopy};
use std::alloc::Global;

/// A core at the start of another one.
pub(crate) fn fresh_core<'p>(alloc: Global, core: &Core<'p>) -> Result<Core<'p>, FinishFault>
    ensures ok { IfOk result (IsFreshOf core.now) }
    ensures err { IfErr result (λ fault. fault ≡ FinishFault.Memory) }
{
    let Ok(medium) = core.start().copy(alloc) else {
        return Err(FinishFault::Memory);
    };
    match Core::begun(alloc, core.program(), medium, core.harts(), core.capacity()) {
        Ok(fresh) => Ok(fresh),
        Err(_) => Err(FinishFault::Memory),
    }
}

/// A follower at the start for each of so many harts.
fn starting_followers(alloc: Global, harts: u32, text: &[u8]) -> Result<Vec<Follower>, FinishFault>
    requires few { harts ≤ 8 }
    requires whole { length text.now ≡ TEXT_SIZE }
    ensures ok { IfOk result (λ followers. followers.items ≡ map (follower_at_start text.now) (range_with_len 0 harts)) }
    ensures err { IfErr result (λ fault. fault ≡ FinishFault.Memory) }
{
    let mut followers = Vec::new(alloc);
    for hart in 0..harts {
        let copy = copy_of(alloc, text)?;
        let follower = Follower {
            next: 0,
            state: HartState::start(hart),
            copy,
        };
        push_follower(&mut followers, follower)?;
    }
    Ok(followers)
}

fn copy_of(alloc: Global, text: &[u8]) -> Result<TextCopy, FinishFault>
    requires { length text.now ≡ TEXT_SIZE }
    ensures ok { IfOk result (λ copy. copy ≡ text.now) }
    ensures err { IfErr result (λ fault. fault ≡ FinishFault.Memory) }
{
    match TextCopy::new(alloc, text) {
        Ok(copy) => Ok(copy),
        Err(_) => Err(FinishFault::Memory),
    }
}

fn push_follower(followers: &mut Vec<Follower>, follower: Follower) -> Result<(), FinishFault>
    ensures ok { IfOk result (λ _. followers.new.items ≡ followers.old.items ++ follower ∷ []) }
    ensures err { IfErr result (λ fault. fault ≡ FinishFault.Memory) }
{
    match followers.push(follower) {
        Ok(()) => Ok(()),
        Err(_) => Err(FinishFault::Memory),
    }
}

/// Makes all of a core's history again, from the start.
fn follow_all(
    core: &mut Core<'_>,
    seats: &[Seat<'_>],
    followers: &mut [Follower],
    history: &[Entry],
) -> Result<(), FinishFault>
    requires paired { ArePaired core.old.harts seats.now followers.old }
    requires below { AreBelow core.old.harts (reverse history.now) }
    requires start { core.old.history ≡ [] }
    ensures ok { OnOk result (HaveFollowed core.old core.new seats.now followers.old followers.new (reverse history.now)) }
    ensures err { IfErr result (IfForeign (AllFollow core.old seats.now followers.old →
        AreForeign core.old seats.now (reverse history.now))) }
{
    for entry in history {
        follow(core, seats, followers, *entry)?;
    }
    Ok(())
}

/// Makes the steps of a seat since the last of its exchanges again, which lead to the state of its hart.
#[tactic(auto, using(crate::proofs::Replayed::ends_at, crate::proofs::Foreign::other_count, crate::proofs::Foreign::end_no_steps, crate::proofs::Foreign::other_state, crate::proofs::Foreign::other_copy))]
fn end_one(seat: &Seat<'_>, follower: &Follower) -> Result<(), FinishFault>
    ensures ends { OnOk result (EndsAt seat.now follower.now) }
    ensures err { IfErr result (IfForeign (CannotEnd seat.now follower.now)) }
{
    if follower.next != seat.exchanges().len() {
        return Err(FinishFault::Foreign);
    }
    let mut state = follower.state;
    go_on(&mut state, &follower.copy, seat.since())?;
    if !is_same_state(&state, seat.state()) {
        return Err(FinishFault::Foreign);
    }
    if !are_same_bytes(follower.copy.bytes(), seat.copy()) {
        return Err(FinishFault::Foreign);
    }
    Ok(())
}

/// Makes the last steps of all seats again.
fn end_all(seats: &[Seat<'_>], followers: &[Follower]) -> Result<(), FinishFault>
    requires { length followers.now ≡ length seats.now }
    ensures ok { OnOk result (AllEnd (length seats.now) seats.now followers.now) }
    ensures err { IfErr result (IfForeign (EndsNot seats.now followers.now)) }
{
    for place in 0..seats.len() {
        end_one(&seats[place], &followers[place])?;
    }
    Ok(())
}

/// Makes all that the seats of a core have made again, by a fresh core: they agree where all comes out as before.
pub(crate) fn make_all_again(
    alloc: Global,
    core: &Core<'_>,
    fresh: &mut Core<'_>,
    seats: &[Seat<'_>],
) -> Result<(), FinishFault>
    requires count { length seats.now ≡ core.now.harts }
    requires numbered { (h : ℕ) (seat : SeatView) → slice_get seats.now h ≡ Some seat → seat.hart ≡ h }
    requires loaded { (h : ℕ) (seat : SeatView) → slice_get seats.now h ≡ Some seat → seat.text ≡ core.now.program.text }
    requires fresh { IsFreshOf core.now fresh.old }
    ensures ok { OnOk result (AllAgree core.now seats.now) }
    ensures err { IfErr result (IfForeign (((h : ℕ) (seat : SeatView) → slice_get seats.now h ≡ Some seat → Agrees core.now seat) → ⊥)) }
{
    let mut followers = starting_followers(alloc, core.harts(), fresh.text())?;
    make_steps_again(core, fresh, seats, &mut followers)
}

/// The same by followers at the start.
#[tactic(auto, using(crate::proofs::Replayed::begin_paired, crate::proofs::Replayed::begin_below))]
fn make_steps_again(
    core: &Core<'_>,
    fresh: &mut Core<'_>,
    seats: &[Seat<'_>],
    followers: &mut [Follower],
) -> Result<(), FinishFault>
    requires count { length seats.now ≡ core.now.harts }
    requires numbered { (h : ℕ) (seat : SeatView) → slice_get seats.now h ≡ Some seat → seat.hart ≡ h }
    requires loaded { (h : ℕ) (seat : SeatView) → slice_get seats.now h ≡ Some seat → seat.text ≡ core.now.program.text }
    requires fresh { IsFreshOf core.now fresh.old }
    requires start { followers.old ≡ map (follower_at_start fresh.old.shared.ram.text) (range_with_len 0 core.now.harts) }
    ensures ok { OnOk result (AllAgree core.now seats.now) }
    ensures err { IfErr result (IfForeign (((h : ℕ) (seat : SeatView) → slice_get seats.now h ≡ Some seat → Agrees core.now seat) → ⊥)) }
{
    follow_all(fresh, seats, followers, core.history())?;
    end_all(seats, followers)?;
    Ok(())
}
