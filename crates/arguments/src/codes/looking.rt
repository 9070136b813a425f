//! What a code means.

ghost use Rattle.std.specs.Prelude.{◌≡◌, All, Any, MatchOption};
ghost use Rattle.arguments.specs.Codes.{HasRow, IsMeaningOf, IsSameWord, all_codes, codes_of_table};
ghost use Rattle.arguments.specs.declared.codes.table.Meaning.{Meaning as AMeaning};

use crate::codes::table::{Meaning, Row, families};

/// What a code means, whose letters may be in either case; None where the program prints no such code.
pub fn meaning_of(code: &str) -> Option<Meaning>
    ensures { MatchOption result ((m : AMeaning) → ¬ IsMeaningOf code.now m) (IsMeaningOf code.now) }
{
    meaning_within(&families(), code)
}

/// The table has a row for each code, in their order, and no other.
pub fn all_have_meanings()
    ensures { codes_of_table ≡ all_codes }
{}

/// What the first row of a code says, of those of all families.
fn meaning_within(families: &[&'static [Row]], code: &str) -> Option<Meaning>
    ensures { MatchOption result
        (All (λ rows. All (λ row. ¬ IsSameWord row.0.now code.now) rows.now) families.now)
        (λ m. IsSameWord m.code.now code.now × Any (λ rows. HasRow rows.now m) families.now) }
{
    families.iter().find_map(|rows| meaning_among(rows, code))
}

/// What the first row of a code says, of those of one family.
fn meaning_among(rows: &[Row], code: &str) -> Option<Meaning>
    ensures { MatchOption result
        (All (λ row. ¬ IsSameWord row.0.now code.now) rows.now)
        (λ m. IsSameWord m.code.now code.now × HasRow rows.now m) }
{
    let (code, meaning, remedy) = *rows.iter().find(|row| row.0.eq_ignore_ascii_case(code))?;
    Some(Meaning {
        code,
        meaning,
        remedy,
    })
}
