//! The contents that a line may have.

ghost use Rattle.recovery.specs.Images.{same_at};
ghost use Rattle.std.specs.List.{Contains};
ghost use Rattle.std.specs.Prelude.{◌≡◌, ◌⊎◌, ◌↔◌, ◌++◌, ◌∷◌, ℕ, List, [], All, filter, not, length, IfOk, IsTrue, OnErr, OnOk};

use crate::bytes::have_same;
use line_memory::LINE_SIZE;
use std::alloc::{AllocError, Global};
use std::marker::Model;

/// The contents that a line may have, each of 64 bytes.
///
/// A contract sees the list of them.
#[derive(Drop)]
pub struct Contents {
    lines: Vec<[u8; LINE_SIZE]>,
}

impl Model for Contents {
    ghost use Rattle.std.specs.Prelude.{◌≡◌, ℕ, All, List, length};

    ghost Value = { List (List ℕ) };

    ghost view = { λ c. c.lines.items };

    ghost invariant = { λ c. All (λ line. length line ≡ 64) c.lines.items };
}

impl Contents {
    pub fn none(alloc: Global) -> Contents
        ensures { result ≡ [] }
    {
        Contents {
            lines: Vec::new(alloc),
        }
    }

    pub fn lines(&self) -> &[[u8; LINE_SIZE]]
        ensures value { result.now ≡ self.now }
        ensures whole { All (λ line. length line ≡ 64) self.now }
    {
        &self.lines
    }

    /// Adds one at the end.
    pub fn push(&mut self, line: [u8; LINE_SIZE]) -> Result<(), AllocError>
        ensures ok { OnOk result (self.new ≡ self.old ++ line ∷ []) }
        ensures err { OnErr result (self.new ≡ self.old) }
    {
        self.lines.push(line)?;
        Ok(())
    }

    /// Adds one, unless it is there.
    pub fn add(&mut self, line: &[u8; LINE_SIZE]) -> Result<(), AllocError>
        ensures ok { OnOk result ((bytes : List ℕ) → Contains self.new bytes ↔ (Contains self.old bytes ⊎ (bytes ≡ line.now))) }
        ensures err { OnErr result (self.new ≡ self.old) }
    {
        if !is_among(line, self.lines()) {
            self.push(*line)?;
        }
        Ok(())
    }

    /// The same contents.
    pub fn copy(&self, alloc: Global) -> Result<Contents, AllocError>
        ensures { IfOk result (λ contents. contents ≡ self.now) }
    {
        let mut copy = Contents::none(alloc);
        for line in self.lines() {
            copy.push(*line)?;
        }
        Ok(copy)
    }
}

/// Of some contents those that have some bytes as a line has them, and the others. The lowest bit stands for the first byte.
pub fn split(
    alloc: Global,
    lines: &[[u8; LINE_SIZE]],
    bytes: u64,
    like: &[u8; LINE_SIZE],
) -> Result<(Contents, Contents), AllocError>
    ensures alike { IfOk result (λ both. both.0 ≡ filter (λ line. same_at bytes 0 like.now line) lines.now) }
    ensures others { IfOk result (λ both. both.1 ≡ filter (λ line. not (same_at bytes 0 like.now line)) lines.now) }
{
    let mut alike = Contents::none(alloc);
    let mut others = Contents::none(alloc);
    for line in lines {
        if have_same(bytes, like, line) {
            alike.push(*line)?;
        } else {
            others.push(*line)?;
        }
    }
    Ok((alike, others))
}

/// Whether each of some contents is among others.
pub fn are_among(lines: &[[u8; LINE_SIZE]], others: &[[u8; LINE_SIZE]]) -> bool
    ensures { IsTrue result → All (Contains others.now) lines.now }
{
    for line in lines {
        if !is_among(line, others) {
            return false;
        }
    }
    true
}

fn is_among(line: &[u8; LINE_SIZE], others: &[[u8; LINE_SIZE]]) -> bool
    ensures { IsTrue result ↔ Contains others.now line.now }
{
    others.iter().any(|other| other == line)
}
