//! Why a clean or a fence is needless.

use std::fmt;

/// Why a clean or a fence is needless: the first of these that holds.
#[derive(Clone, Copy, Debug, PartialEq, Eq)]
pub enum Reason {
    /// A clean whose hart makes no fence after it. That is what a missing fence looks like.
    NotFenced,
    /// A fence at which no floor rises.
    NothingToComplete,
    /// A clean with another one of the line by its hart before that hart's next fence.
    CleanedAgain,
    /// A clean whose hart's next fence finds the line's floor already at the clean's number of stores, or above.
    AlreadyThere,
}

/// A needless clean or fence of a run: its number among the events, from 1, and why it is needless.
#[derive(Clone, Copy, Debug, PartialEq, Eq)]
pub struct Needless {
    pub event: u32,
    pub reason: Reason,
}

/// The reason in a few words, in lower case.
impl fmt::Display for Reason {
    ghost use Rattle.std.specs.Prelude.{Some};
    ghost use Rattle.durability.specs.Words.{words_of};

    ghost output = { λ reason. Some (words_of reason) };

    fn fmt<W: fmt::Write>(&self, f: &mut fmt::Formatter<W>) -> fmt::Result {
        match self {
            Reason::NotFenced => write!(f, "not fenced"),
            Reason::NothingToComplete => write!(f, "nothing to complete"),
            Reason::CleanedAgain => write!(f, "cleaned again"),
            Reason::AlreadyThere => write!(f, "already there"),
        }
    }
}
