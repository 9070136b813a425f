//! Source lines by address: the line table of an executable (`.debug_line`), of DWARF 4 and 5.

mod cells;
mod files;
mod forms;
mod header;
mod laws;
mod numbers;
mod opcodes;
mod reading;
mod skips;
mod table;
mod texts;
mod units;

pub use laws::{lines_are_of_rows, numbers_stand_alone, units_stand_alone};
pub use table::LineTable;
