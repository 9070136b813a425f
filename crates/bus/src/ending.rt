//! The end of a run of several harts: what their seats have made is gathered to one run.

ghost use Rattle.std.specs.Prelude.{◌≡◌, ◌^◌, ◌<◌, ◌++◌, ◌∷◌, [], Err, IfErr, IfOk, List, OnOk, ℕ, Some, length, map, slice_get};
ghost use Rattle.machine.specs.Grammar.{hart_steps};
ghost use Rattle.bus.specs.Accounts.{IsAccounted};
ghost use Rattle.bus.specs.Agreeing.{Agrees};
ghost use Rattle.bus.specs.Ending.{IsGathered, RefusesGathering};
ghost use Rattle.bus.specs.Following.{AreRecorded, IfForeign, IsCoreOf};
ghost use Rattle.bus.specs.Numbering.{ArePlaced};
ghost use Rattle.bus.specs.Seats.{SeatView};
ghost use Rattle.bus.specs.Together.{IsFinished, RefusesFinish};

use crate::by_number::place_seats;
use crate::finish_fault::FinishFault;
use crate::listing::{account_of, check_leading};
use crate::locked::Core;
use crate::same_start::is_core_of;
use crate::seat::Seat;
use hart::HartState;
use line_memory::Medium;
use machine::{Recorded, Schedule};
use program::Program;
use std::alloc::Global;

/// The schedule of what seats have made with a number for each event, and the states of their harts.
type Account = ((Schedule, Vec<u32>), Vec<HartState>);

/// Gathers what the seats of a core have made to one run, in the order of the core's history: each seat's register steps
/// stand right before its next request, and the last ones at the end, by the harts' numbers.
///
/// # Errors
/// The first of these that holds: SeatMissing where a hart of the core has no seat; SeatNumber where two seats have one
/// number, or a seat that of no hart; Foreign where a seat doesn't agree with the core; Memory where a growth is refused.
pub fn gather(alloc: Global, core: Core<'_>, seats: Vec<Seat<'_>>) -> Result<Recorded, FinishFault>
    ensures ok { IfOk result (IsGathered core.entry seats.entry.items) }
    ensures few { IfOk result (λ recorded. hart_steps recorded.items < 2 ^ 32) }
    ensures err { IfErr result (RefusesGathering core.entry seats.entry.items) }
{
    let mut seats = seats;
    gather_seats(alloc, core, &mut seats)
}

/// The same of seats that are lent: they are put in order.
fn gather_seats(
    alloc: Global,
    core: Core<'_>,
    seats: &mut [Seat<'_>],
) -> Result<Recorded, FinishFault>
    ensures ok { IfOk result (IsGathered core.entry seats.old) }
    ensures few { IfOk result (λ recorded. hart_steps recorded.items < 2 ^ 32) }
    ensures err { IfErr result (RefusesGathering core.entry seats.old) }
{
    let account = placed_account(alloc, &core, seats);
    recorded(core, account)
}

/// The account of seats that are put in order for a core.
fn placed_account(
    alloc: Global,
    core: &Core<'_>,
    seats: &mut [Seat<'_>],
) -> Result<Account, FinishFault>
    ensures ok { IfOk result (λ made. ArePlaced core.now.harts seats.old seats.new
        × IsAccounted core.now seats.new made.0.0 made.0.1.items made.1.items) }
    ensures err { IfErr result (RefusesGathering core.now seats.old) }
{
    place_seats(core.harts(), seats)?;
    account_and_states(alloc, core, seats)
}

/// Gathers what the seats of a bus have made, by the core that lay behind its lock. The bus began with this program, this
/// medium, so many harts and a cache with room for so many lines.
pub(crate) fn finish_seats(
    alloc: Global,
    core: Core<'_>,
    seats: &mut [Seat<'_>],
    program: &Program,
    start: &Medium,
    harts: u32,
    capacity: u32,
) -> Result<Recorded, FinishFault>
    ensures ok { IfOk result (IsFinished (record {
      program = program.now;
      start = start.now;
      harts = harts;
      capacity = capacity;
    }) seats.old) }
    ensures few { IfOk result (λ recorded. hart_steps recorded.items < 2 ^ 32) }
    ensures err { IfErr result (RefusesFinish harts seats.old) }
{
    let account = account_on_core(alloc, &core, seats, program, start, harts, capacity);
    recorded(core, account)
}

/// The account of seats that are put in order for the core of a bus that began so.
fn account_on_core(
    alloc: Global,
    core: &Core<'_>,
    seats: &mut [Seat<'_>],
    program: &Program,
    start: &Medium,
    harts: u32,
    capacity: u32,
) -> Result<Account, FinishFault>
    ensures ok { IfOk result (λ made. (ArePlaced harts seats.old seats.new × IsCoreOf (record {
      program = program.now;
      start = start.now;
      harts = harts;
      capacity = capacity;
    }) core.now) × IsAccounted core.now seats.new made.0.0 made.0.1.items made.1.items) }
    ensures err { IfErr result (RefusesFinish harts seats.old) }
{
    place_on_core(core, seats, program, start, harts, capacity)?;
    account_and_states(alloc, core, seats)
}

/// Puts seats in order for a core that began with this program, this medium, so many harts and a cache with room for so many
/// lines.
#[tactic(auto, using(crate::proofs::Recorded::refuses_finish))]
fn place_on_core(
    core: &Core<'_>,
    seats: &mut [Seat<'_>],
    program: &Program,
    start: &Medium,
    harts: u32,
    capacity: u32,
) -> Result<(), FinishFault>
    ensures placed { OnOk result (ArePlaced harts seats.old seats.new) }
    ensures core { OnOk result (IsCoreOf (record {
      program = program.now;
      start = start.now;
      harts = harts;
      capacity = capacity;
    }) core.now) }
    ensures err { IfErr result (RefusesFinish harts seats.old) }
{
    place_seats(harts, seats)?;
    if is_core_of(core, program, start, harts, capacity) {
        Ok(())
    } else {
        Err(FinishFault::Foreign)
    }
}

/// The run of a core by the account of its seats, or why there is none. It is given either, since each place where a core is let
/// go on the way to a fault costs much in the proof: so there is one.
fn recorded(core: Core<'_>, account: Result<Account, FinishFault>) -> Result<Recorded, FinishFault>
    requires { (seats : List SeatView) × IfOk account (λ made. IsAccounted core seats made.0.0 made.0.1.items made.1.items) }
    ensures ok { IfOk result (λ recorded. IfErr account (λ _. ⊥) × ((seats : List SeatView)
        → IfOk account (λ made. IsAccounted core.entry seats made.0.0 made.0.1.items made.1.items) → AreRecorded core.entry seats recorded)) }
    ensures few { IfOk result (λ recorded. hart_steps recorded.items < 2 ^ 32) }
    ensures err { IfErr result (λ fault. account ≡ Err fault) }
{
    let ((schedule, numbers), states) = account?;
    // What a core shares is the replay of its history, which this ensures.
    let _ = core.history();
    let capacity = core.capacity();
    let (start, left, trace) = core.power_cut();
    Ok(Recorded::of(start, capacity, schedule, trace, states, left, numbers))
}

/// The account of what seats have made that agree with a core, and the states of their harts.
fn account_and_states(
    alloc: Global,
    core: &Core<'_>,
    seats: &[Seat<'_>],
) -> Result<Account, FinishFault>
    requires count { length seats.now ≡ core.now.harts }
    requires numbered { (h : ℕ) (seat : SeatView) → slice_get seats.now h ≡ Some seat → seat.hart ≡ h }
    ensures ok { IfOk result (λ made. IsAccounted core.now seats.now made.0.0 made.0.1.items made.1.items) }
    ensures err { IfErr result (IfForeign (((h : ℕ) (seat : SeatView) → slice_get seats.now h ≡ Some seat → Agrees core.now seat) → ⊥)) }
{
    let account = account_of(alloc, core, seats)?;
    check_leading(alloc, core, seats)?;
    let states = states_of(alloc, seats)?;
    Ok((account, states))
}

/// The states of the harts of seats.
fn states_of(alloc: Global, seats: &[Seat<'_>]) -> Result<Vec<HartState>, FinishFault>
    ensures ok { IfOk result (λ states. states.items ≡ map (λ (seat : SeatView). seat.state) seats.now) }
    ensures err { IfErr result (λ fault. fault ≡ FinishFault.Memory) }
{
    let mut states = Vec::new(alloc);
    for place in 0..seats.len() {
        push_state(&mut states, *seats[place].state())?;
    }
    Ok(states)
}

fn push_state(states: &mut Vec<HartState>, state: HartState) -> Result<(), FinishFault>
    ensures ok { IfOk result (λ _. states.new.items ≡ states.old.items ++ state ∷ []) }
    ensures err { IfErr result (λ fault. fault ≡ FinishFault.Memory) }
{
    match states.push(state) {
        Ok(()) => Ok(()),
        Err(_) => Err(FinishFault::Memory),
    }
}
