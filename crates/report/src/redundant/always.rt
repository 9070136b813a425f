//! Instructions all of whose cleans and fences are needless.

ghost use Rattle.report.specs.Forms.{always_form, shown_form};
ghost use Rattle.report.specs.Waste.{known_always};
ghost use Rattle.report.specs.Tallies.{AreUses};
ghost use Rattle.report.specs.Uses.{AreAlways, Judged};
ghost use Rattle.report.specs.Places.{origin_in};
ghost use Rattle.std.specs.BTreeMap.{get};
ghost use Rattle.std.specs.List.{flat_map};
ghost use Rattle.std.specs.Ordering.{nat_cmp};
ghost use Rattle.std.specs.Prelude.{◌≡◌, ◌++◌, List, OnOk, string_bytes};

use crate::form::Form;
use crate::json::{NumberOrNull, PcMembers};
use crate::redundant::uses::Uses;
use crate::{CodePlace, Places};
use std::alloc::AllocError;
use std::collections::BTreeMap;
use std::fmt;
use std::fmt::Write;

/// An instruction all of whose cleans and fences are needless, as it is printed: `always hH pc=0xP line=L, N of N`.
#[derive(Clone, Copy)]
pub(crate) struct ShownAlways<'a> {
    pub(crate) at: CodePlace<'a>,
    pub(crate) hart: Option<u32>,
    pub(crate) count: u64,
}

impl fmt::Display for ShownAlways<'_> {
    ghost use Rattle.std.specs.Prelude.{Some};
    ghost use Rattle.report.specs.Waste.{always_text, known_always};

    ghost output = { λ shown. Some (always_text (known_always shown)) };

    fn fmt<W: fmt::Write>(&self, f: &mut fmt::Formatter<W>) -> fmt::Result {
        let ShownAlways { at, hart, count } = *self;
        match hart {
            Some(hart) => write!(f, "always h{hart}{at}, {count} of {count}"),
            None => write!(f, "always{at}, {count} of {count}"),
        }
    }
}

/// The same as members of an object: `"kind":"always","hart":H,"pc":"0xP","source_line":L,"count":N`.
#[derive(Clone, Copy)]
struct AlwaysMembers<'a> {
    shown: ShownAlways<'a>,
}

impl fmt::Display for AlwaysMembers<'_> {
    ghost use Rattle.std.specs.Prelude.{Some};
    ghost use Rattle.report.specs.RedundantJson.{always_members};
    ghost use Rattle.report.specs.Waste.{known_always};

    ghost output = { λ members. Some (always_members (known_always members.shown)) };

    fn fmt<W: fmt::Write>(&self, f: &mut fmt::Formatter<W>) -> fmt::Result {
        let ShownAlways { at, hart, count } = self.shown;
        let hart = NumberOrNull { number: hart };
        let place = PcMembers { at };
        write!(
            f,
            "\"kind\":\"always\",\"hart\":{hart},{place},\"count\":{count}"
        )
    }
}

/// A line for each of them, upwards.
pub(crate) fn tell_always(
    text: &mut String,
    form: Form,
    uses: BTreeMap<u64, Uses>,
    places: &Places<'_>,
) -> Result<(), AllocError>
    ensures { (all : List Judged) → AreUses all (get nat_cmp uses) → OnOk result ((found : List _) × AreAlways all found
        × (string_bytes text.new ≡ string_bytes text.old ++ flat_map (always_form form (origin_in places.now)) found)) }
{
    for (pc, one) in uses {
        if one.vain == one.count {
            let shown = ShownAlways {
                at: places.at(pc),
                hart: one.hart,
                count: one.count,
            };
            tell_shown(text, form, shown)?;
        }
    }
    Ok(())
}

fn tell_shown(text: &mut String, form: Form, shown: ShownAlways<'_>) -> Result<(), AllocError>
    ensures { OnOk result (string_bytes text.new ≡ string_bytes text.old ++ shown_form form (known_always shown.entry)) }
{
    match form {
        Form::Text => writeln!(text, "{shown}"),
        Form::Json => writeln!(text, "{{{}}}", AlwaysMembers { shown }),
    }
}
