//! The laws of the units of a line table.

ghost use Rattle.elf_file.specs.UnitLaws.{LinesAreOfRows, NumbersStandAlone, RowsJoin, UnitsJoin, UnreadChangeNone};

/// Each unit of a line table is read by itself: a table with more behind it has the units and the rows of both, and units that aren't
/// read change the line of no address that others give one.
pub fn units_stand_alone()
    ensures units { UnitsJoin }
    ensures rows { RowsJoin }
    ensures unread { UnreadChangeNone }
{}

/// A line that an address has is said by a row of a unit that is read, at that address or below it.
pub fn lines_are_of_rows()
    ensures { LinesAreOfRows }
{}

/// A number in LEB128 ends by itself: with other bytes behind it, it is the same.
pub fn numbers_stand_alone()
    ensures { NumbersStandAlone }
{}
