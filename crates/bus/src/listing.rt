//! What seats have made is compared with a core's history, entry by entry. Nothing is made again for it: the type of a seat
//! whose hart made no FENCE.I says that its list leads its hart to where it is.

ghost use Rattle.std.specs.Prelude.{◌≡◌, ◌≤◌, ◌++◌, ◌∷◌, [], IfErr, IfOk, List, MatchBool, OnOk, Some, ℕ, length, replicate, reverse, slice_get, true};
ghost use Rattle.line_memory.specs.declared.TheConstants.{TEXT_SIZE};
ghost use Rattle.machine.specs.Steps.{all_steps};
ghost use Rattle.machine.specs.declared.schedule.items.Step.{Step};
ghost use Rattle.machine.specs.declared.shared_memory.history.Entry.{Entry as AnEntry};
ghost use Rattle.bus.specs.Agreeing.{Agrees};
ghost use Rattle.bus.specs.Finished.{AllAgree};
ghost use Rattle.bus.specs.Following.{IfForeign, IsNotNext};
ghost use Rattle.bus.specs.Listed.{AllLed, AreListed, AreNotWhole, AreWhole, HasOtherCopy, IsAccountOf, IsListOf, IsNextOf, IsNotWhole, IsUnlisted, IsWhole};
ghost use Rattle.bus.specs.Replays.{AreBelow};
ghost use Rattle.bus.specs.Seats.{SeatView};

use crate::finish_fault::FinishFault;
use crate::follower::next_exchange;
use crate::limits::MOST_HARTS;
use crate::locked::Core;
use crate::made_again::{fresh_core, make_all_again};
use crate::runs::Runs;
use crate::sameness::are_same_bytes;
use crate::seat::Seat;
use hart::{Reply, Request};
use machine::{Entry, Schedule};
use std::alloc::Global;

/// Compares the next of a seat's exchanges with a request and its reply, and takes its steps.
fn list_exchange(
    seat: &Seat<'_>,
    count: &mut usize,
    hart: u32,
    request: Request,
    reply: Reply,
    runs: &mut Runs,
) -> Result<(), FinishFault>
    ensures ok { OnOk result (IsNextOf seat.now count.old count.new hart request reply runs.old runs.new) }
    ensures err { IfErr result (IfForeign (IsNotNext seat.now.exchanges count.old request reply)) }
{
    let exchange = next_exchange(seat, *count, request, reply)?;
    runs.add(hart, exchange.steps)?;
    runs.add(hart, 1)?;
    runs.number(hart, request, reply)?;
    *count += 1;
    Ok(())
}

/// Compares an entry of a history with the next exchange of its hart's seat.
fn list_entry(
    seats: &[Seat<'_>],
    counts: &mut [usize],
    entry: Entry,
    runs: &mut Runs,
) -> Result<(), FinishFault>
    requires places { length seats.now ≤ length counts.old }
    requires below { AreBelow (length seats.now) (entry ∷ []) }
    ensures ok { OnOk result ((history : List AnEntry) → AreListed seats.now counts.old history runs.old
        → AreListed seats.now counts.new (entry ∷ history) runs.new) }
    ensures err { IfErr result (IfForeign ((history later : List AnEntry) → AreListed seats.now counts.old history runs.old
        → IsUnlisted seats.now (later ++ entry ∷ history))) }
{
    match entry {
        Entry::Asked {
            hart,
            request,
            reply,
        } => {
            let place = hart as usize;
            list_exchange(
                &seats[place],
                &mut counts[place],
                hart,
                request,
                reply,
                runs,
            )
        }
        Entry::Evicted { line } => runs.evict(line),
    }
}

/// Compares all of a history.
fn list_all(
    seats: &[Seat<'_>],
    counts: &mut [usize],
    history: &[Entry],
    runs: &mut Runs,
) -> Result<(), FinishFault>
    requires places { length seats.now ≤ length counts.old }
    requires below { AreBelow (length seats.now) (reverse history.now) }
    requires start { AreListed seats.now counts.old [] runs.old }
    ensures ok { OnOk result (AreListed seats.now counts.new (reverse history.now) runs.new) }
    ensures err { IfErr result (IfForeign (IsUnlisted seats.now (reverse history.now))) }
{
    for entry in history {
        list_entry(seats, counts, *entry, runs)?;
    }
    Ok(())
}

/// Compares the text of a seat, and that all of its exchanges were compared; and takes its last steps.
#[tactic(auto, using(crate::proofs::Comparing::is_whole, crate::proofs::Comparing::not_loaded, crate::proofs::Comparing::not_used, crate::proofs::Foreign::memory_is))]
fn end_seat(text: &[u8], seat: &Seat<'_>, count: usize, runs: &mut Runs) -> Result<(), FinishFault>
    ensures whole { OnOk result (IsWhole text.now seat.now count) }
    ensures steps { OnOk result (all_steps runs.new.schedule ≡ all_steps runs.old.schedule ++ replicate seat.now.since (Step.Hart seat.now.hart)) }
    ensures numbers { OnOk result (runs.new.numbers.items ≡ runs.old.numbers.items) }
    ensures err { IfErr result (IfForeign (IsNotWhole text.now seat.now count)) }
{
    if !are_same_bytes(seat.text(), text) {
        return Err(FinishFault::Foreign);
    }
    if count != seat.exchanges().len() {
        return Err(FinishFault::Foreign);
    }
    // It ensures that these are the steps of its exchanges and the ones since.
    let _ = seat.made();
    runs.add(seat.hart(), seat.since())
}

/// The same of all seats.
fn end_seats(
    text: &[u8],
    seats: &[Seat<'_>],
    counts: &[usize],
    runs: &mut Runs,
) -> Result<(), FinishFault>
    requires places { length seats.now ≤ length counts.now }
    requires numbered { (h : ℕ) (seat : SeatView) → slice_get seats.now h ≡ Some seat → seat.hart ≡ h }
    ensures ok { OnOk result (AreWhole text.now (length seats.now) seats.now counts.now runs.old runs.new) }
    ensures err { IfErr result (IfForeign (AreNotWhole text.now seats.now counts.now)) }
{
    for place in 0..seats.len() {
        end_seat(text, &seats[place], counts[place], runs)?;
    }
    Ok(())
}

/// The schedule of what the seats of a core have made, whose lists are their harts' parts of its history; and for each event
/// the number of hart steps through its own.
pub(crate) fn account_of(
    alloc: Global,
    core: &Core<'_>,
    seats: &[Seat<'_>],
) -> Result<(Schedule, Vec<u32>), FinishFault>
    requires count { length seats.now ≡ core.now.harts }
    requires numbered { (h : ℕ) (seat : SeatView) → slice_get seats.now h ≡ Some seat → seat.hart ≡ h }
    ensures ok { IfOk result (λ account. IsAccountOf core.now seats.now account.0 account.1.items) }
    ensures err { IfErr result (IfForeign (((h : ℕ) (seat : SeatView) → slice_get seats.now h ≡ Some seat → Agrees core.now seat) → ⊥)) }
{
    let mut counts = [0; MOST_HARTS];
    let mut runs = Runs::new(alloc);
    // It ensures that there are eight at most.
    let _ = core.harts();
    list_all(seats, &mut counts, core.history(), &mut runs)?;
    end_seats(core.program().text_bytes(), seats, &counts, &mut runs)?;
    Ok(runs.finish())
}

/// Checks that seats agree with a core whose lists and texts are those of its history and program. Only where one of their
/// harts made a FENCE.I their steps are made again: then what it fetches depends on the history.
pub(crate) fn check_leading(
    alloc: Global,
    core: &Core<'_>,
    seats: &[Seat<'_>],
) -> Result<(), FinishFault>
    requires count { length seats.now ≡ core.now.harts }
    requires numbered { (h : ℕ) (seat : SeatView) → slice_get seats.now h ≡ Some seat → seat.hart ≡ h }
    requires loaded { (h : ℕ) (seat : SeatView) → slice_get seats.now h ≡ Some seat → seat.text ≡ core.now.program.text }
    requires list { (h : ℕ) (seat : SeatView) → slice_get seats.now h ≡ Some seat → IsListOf seat.hart core.now.history seat.exchanges }
    ensures ok { OnOk result (AllAgree core.now seats.now) }
    ensures err { IfErr result (IfForeign (((h : ℕ) (seat : SeatView) → slice_get seats.now h ≡ Some seat → Agrees core.now seat) → ⊥)) }
{
    if are_led(seats) {
        return check_copies(core, seats);
    }
    let mut fresh = fresh_core(alloc, core)?;
    make_all_again(alloc, core, &mut fresh, seats)
}

/// The same where no hart made a FENCE.I: each has to fetch the program's text. It takes no memory.
fn check_copies(core: &Core<'_>, seats: &[Seat<'_>]) -> Result<(), FinishFault>
    requires count { length seats.now ≡ core.now.harts }
    requires numbered { (h : ℕ) (seat : SeatView) → slice_get seats.now h ≡ Some seat → seat.hart ≡ h }
    requires loaded { (h : ℕ) (seat : SeatView) → slice_get seats.now h ≡ Some seat → seat.text ≡ core.now.program.text }
    requires list { (h : ℕ) (seat : SeatView) → slice_get seats.now h ≡ Some seat → IsListOf seat.hart core.now.history seat.exchanges }
    requires led { AllLed seats.now }
    ensures ok { OnOk result (AllAgree core.now seats.now) }
    ensures err { IfErr result (IfForeign (((h : ℕ) (seat : SeatView) → slice_get seats.now h ≡ Some seat → Agrees core.now seat) → ⊥)) }
{
    if !have_copies(core.program().text_bytes(), seats) {
        return Err(FinishFault::Foreign);
    }
    Ok(())
}

/// Whether no seat's copy of the text was renewed.
fn are_led(seats: &[Seat<'_>]) -> bool
    ensures { result ≡ true → AllLed seats.now }
{
    for place in 0..seats.len() {
        if seats[place].is_renewed() {
            return false;
        }
    }
    true
}

/// Whether each seat's hart fetches this text.
fn have_copies(copy: &[u8], seats: &[Seat<'_>]) -> bool
    requires { length copy.now ≡ TEXT_SIZE }
    ensures { MatchBool result ((h : ℕ) (seat : SeatView) → slice_get seats.now h ≡ Some seat → seat.copy ≡ copy.now)
        (HasOtherCopy copy.now seats.now) }
{
    for place in 0..seats.len() {
        if !are_same_bytes(seats[place].copy(), copy) {
            return false;
        }
    }
    true
}
