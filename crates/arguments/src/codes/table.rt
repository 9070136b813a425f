//! The table of codes, by families: the proof of a static costs with the square of its rows, so each family has its own.

ghost use Rattle.std.specs.Prelude.{◌≡◌};
ghost use Rattle.arguments.specs.Codes.{table, texts_of_families};

mod executables;
mod operations;
mod runs;
mod sources;
mod traces;
mod traps;
mod volumes;
mod words;

/// A code that the program prints, with what it means.
#[derive(Clone, Copy, Debug)]
pub struct Meaning {
    /// The code as it's printed.
    pub code: &'static str,
    /// What it means, a line without its end.
    pub meaning: &'static str,
    /// What to do about it, a line without its end.
    pub remedy: &'static str,
}

/// The texts of a meaning: the code, what it means, and what to do. A contract can name a static of tuples of texts, and none of
/// structs that hold texts.
pub(crate) type Row = (&'static str, &'static str, &'static str);

/// The rows of each family, in the order in which they are listed.
pub(crate) fn families() -> [&'static [Row]; 8]
    ensures { texts_of_families result ≡ table }
{
    [
        sources::rows(),
        executables::rows(),
        traces::rows(),
        runs::rows(),
        volumes::rows(),
        operations::rows(),
        traps::rows(),
        words::rows(),
    ]
}
