//! Where recovery gets its lines from.

ghost use Rattle.std.specs.Prelude.{◌≡◌, ℕ, ◌∷◌, ◌++◌, ◌<◌, List, [], length, IfErr, IfOk, OnErr, OnOk};
ghost use Rattle.line_memory.specs.Lines.{IsMedium, line_at};

use crate::VolumeFault;
use line_memory::{LINE_SIZE, Medium};
use std::alloc::{AllocError, Global};
use std::marker::Model;

/// The lines of one medium, which no call changes, each given when it is asked for.
///
/// A source keeps the list of lines asked so far.
pub trait LineSource {
    ghost use Rattle.std.specs.List.{AllByRecursion};
    ghost use Rattle.std.specs.Prelude.{ℕ, List};

    /// The medium that the source stands for.
    ghost medium: { Self → List (List ℕ) };

    /// The lines asked so far, in order.
    ghost asked: { Self → List ℕ };

    /// The number of lines.
    fn lines(&self) -> u32
        ensures count { result ≡ length (medium self.now) }
        ensures whole { IsMedium (medium self.now) };

    /// The bytes of a line, which joins the lines asked. The only fault is Memory.
    fn line(&mut self, n: u32) -> Result<[u8; 64], VolumeFault>
        requires { n < length (medium self.old) }
        ensures same { medium self.new ≡ medium self.old }
        ensures value { IfOk result (λ line. line ≡ line_at (medium self.old) n) }
        ensures asked { OnOk result (asked self.new ≡ asked self.old ++ n ∷ []) }
        ensures err { IfErr result (λ fault. fault ≡ VolumeFault.Memory) }
        ensures refused { OnErr result (asked self.new ≡ asked self.old) };

    /// The lines asked so far, in order.
    fn asked_so_far(&self) -> &[u32]
        ensures { result.now ≡ asked self.now };

    /// Asks for lines whose bytes are known.
    fn ask(&mut self, lines: &[u32]) -> Result<(), AllocError>
        requires { AllByRecursion (λ l. l < length (medium self.old)) lines.now }
        ensures same { medium self.new ≡ medium self.old }
        ensures asked { OnOk result (asked self.new ≡ asked self.old ++ lines.now) }
        ensures refused { OnErr result (asked self.new ≡ asked self.old) };
}

/// The lines of a medium in memory.
#[derive(Drop)]
pub struct MediumLines<'a> {
    medium: &'a Medium,
    asked: Vec<u32>,
}

impl<'a> Model for MediumLines<'a> {
    ghost use Rattle.std.specs.Prelude.{ℕ, List};
    ghost use Rattle.nova_log.specs.Sources.{Source};

    ghost Value = { Source };

    ghost view = { λ s. record { lines = s.medium.now; asked = s.asked.items } };
}

impl MediumLines<'_> {
    /// The lines of a medium, with none asked yet.
    pub fn new(alloc: Global, medium: &Medium) -> MediumLines<'_>
        ensures { result ≡ record { lines = medium.now; asked = [] } }
    {
        MediumLines {
            medium,
            asked: Vec::new(alloc),
        }
    }

    /// The lines asked so far, in order.
    pub fn asked(&self) -> &[u32]
        ensures { result.now ≡ self.now.asked }
    {
        &self.asked
    }
}

impl LineSource for MediumLines<'_> {
    ghost medium = { λ s. s.lines };

    ghost asked = { λ s. s.asked };

    fn lines(&self) -> u32 {
        self.medium.lines()
    }

    fn line(&mut self, n: u32) -> Result<[u8; LINE_SIZE], VolumeFault> {
        if self.asked.push(n).is_err() {
            return Err(VolumeFault::Memory);
        }
        Ok(*self.medium.read_line(n))
    }

    fn asked_so_far(&self) -> &[u32] {
        self.asked()
    }

    fn ask(&mut self, lines: &[u32]) -> Result<(), AllocError> {
        self.asked.extend_from_slice(lines)
    }
}

/// Adds an item at the end.
#[inline(always)]
pub(crate) fn push_item<T: Drop>(items: &mut Vec<T>, item: T) -> Result<(), AllocError>
    ensures { OnOk result (items.new.items ≡ items.old.items ++ item ∷ []) }
{
    items.push(item)?;
    Ok(())
}
