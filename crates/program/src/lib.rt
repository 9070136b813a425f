//! Programs: the object that an assembler makes of a source, its file, and which byte of a program stands where once it is loaded.
#![tactic(auto)]

ghost use Rattle.std.specs.Prelude.{◌≡◌};
ghost use Rattle.program.specs.ObjectFile.{magic};

mod fault;
mod file;
mod loading;
mod object;

pub use fault::LoadFault;
pub use loading::{Program, load, places};
pub use object::{Object, one_reading};

/// The most bytes that a text section has: the size of the text region.
pub const TEXT_LIMIT: usize = 65_536;

/// The most bytes that a data section has: the size of the data region.
pub const DATA_LIMIT: usize = 1_048_576;

/// The bytes that the file of an object begins with.
pub const MAGIC: [u8; 8] = *b"RVXPROG1";

/// The limits and the magic in numbers: a law, with nothing to run.
pub fn limits()
    ensures text { TEXT_LIMIT ≡ 65536 }
    ensures static_data { DATA_LIMIT ≡ 1048576 }
    ensures magic { MAGIC ≡ magic }
{}
