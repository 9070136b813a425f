//! The machine that a line's options ask for.

ghost use Rattle.std.specs.Prelude.{ℕ, IfOk, IfErr, Option, String as AString, codes};
ghost use Rattle.std.specs.declared.alloc.Global.{Global as AGlobal};
ghost use Rattle.clap.specs.Words.{found_of, rows_of};
ghost use Rattle.arguments.specs.Line.{IsCachedMachine, IsMachineWithin, IsWholeMachine, IsWithin, OnFault};
ghost use Rattle.arguments.specs.Values.{IsCapacity, IsHarts, IsOptional};
ghost use Rattle.arguments.specs.declared.asked.MachineOptions.{MachineOptions as AMachine};

use crate::asked::{LineFault, MachineOptions};
use crate::values::{NumberOption, number, optional};
use clap::ArgMatches;
use std::alloc::Global;

/// The harts of a machine.
const HARTS: NumberOption = NumberOption {
    name: "harts",
    default: 1,
    low: 1,
    high: 8,
};

/// The most lines of a cache.
const CAPACITY: NumberOption = NumberOption {
    name: "capacity",
    default: 16,
    low: 1,
    high: 16_384,
};

/// The name of the medium's file.
fn medium(alloc: Global, found: &ArgMatches<'_>) -> Result<Option<String>, LineFault>
    ensures ok { IfOk result (IsOptional (codes "medium") (rows_of (found_of found.now))) }
    ensures err { IfErr result (OnFault ((value : Option (AString AGlobal))
        → ¬ (IsOptional (codes "medium") (rows_of (found_of found.now)) value))) }
{
    optional(alloc, found, "medium")
}

/// The number of harts.
fn harts(alloc: Global, found: &ArgMatches<'_>) -> Result<u32, LineFault>
    ensures ok { IfOk result (IsHarts (rows_of (found_of found.now))) }
    ensures within { IfOk result (IsWithin 1 8) }
    ensures err { IfErr result (OnFault ((n : ℕ) → ¬ (IsHarts (rows_of (found_of found.now)) n))) }
{
    number(alloc, found, &HARTS)
}

/// The capacity of the cache.
fn capacity(alloc: Global, found: &ArgMatches<'_>) -> Result<u32, LineFault>
    ensures ok { IfOk result (IsCapacity (rows_of (found_of found.now))) }
    ensures within { IfOk result (IsWithin 1 16384) }
    ensures err { IfErr result (OnFault ((n : ℕ) → ¬ (IsCapacity (rows_of (found_of found.now)) n))) }
{
    number(alloc, found, &CAPACITY)
}

/// The machine of a command without `--capacity`, whose cache has a line for each line of the medium.
pub(crate) fn whole_machine(
    alloc: Global,
    found: &ArgMatches<'_>,
) -> Result<MachineOptions, LineFault>
    ensures ok { IfOk result (IsWholeMachine (rows_of (found_of found.now))) }
    ensures within { IfOk result IsMachineWithin }
    ensures err { IfErr result (OnFault ((machine : AMachine)
        → ¬ (IsWholeMachine (rows_of (found_of found.now)) machine))) }
{
    Ok(MachineOptions {
        harts: harts(alloc, found)?,
        capacity: None,
        medium: medium(alloc, found)?,
    })
}

/// The machine of a command with `--capacity`.
pub(crate) fn cached_machine(
    alloc: Global,
    found: &ArgMatches<'_>,
) -> Result<MachineOptions, LineFault>
    ensures ok { IfOk result (IsCachedMachine (rows_of (found_of found.now))) }
    ensures within { IfOk result IsMachineWithin }
    ensures err { IfErr result (OnFault ((machine : AMachine)
        → ¬ (IsCachedMachine (rows_of (found_of found.now)) machine))) }
{
    Ok(MachineOptions {
        harts: harts(alloc, found)?,
        capacity: Some(capacity(alloc, found)?),
        medium: medium(alloc, found)?,
    })
}
