//! The lines of given bytes, with lines of zeros behind them.

ghost use Rattle.std.specs.Prelude.{◌≡◌, ◌*◌, ◌<◌, ◌≤◌, length, IfErr, IfOk};
ghost use Rattle.std.specs.List.{concat};
ghost use Rattle.line_memory.specs.Lines.{line_at, IsMedium};
ghost use Rattle.line_memory.specs.Regions.{padded};

use crate::bytes::padded_bytes;
use crate::{LINE_SIZE, MediumFault};
use std::alloc::Global;
use std::marker::Model;

/// 512 to 16,384 lines of 64 bytes, of which those behind the given bytes are zeros, and cost nothing.
#[derive(Drop)]
pub struct PaddedLines {
    count: u32,
    given: Vec<[u8; LINE_SIZE]>,
    zeros: [u8; LINE_SIZE],
}

impl Model for PaddedLines {
    ghost use Rattle.line_memory.specs.Lines.{IsMedium, zero_lines};
    ghost use Rattle.std.specs.Prelude.{ℕ, List, ◌≡◌, ◌-◌, ◌++◌, length, replicate};

    ghost Value = { List (List ℕ) };

    ghost view = { λ p. p.given.items ++ zero_lines (p.count - length p.given.items) };

    ghost invariant = { λ p. IsMedium (p.given.items ++ zero_lines (p.count - length p.given.items))
        × (length (p.given.items ++ zero_lines (p.count - length p.given.items)) ≡ p.count) × (p.zeros ≡ replicate 64 0) };
}

#[tactic(auto, using(crate::proofs::Chunks::chunks_all))]
impl PaddedLines {
    /// So many lines: those of the bytes, the last one filled up with zeros, and lines of zeros. The fault is Memory.
    pub fn new(alloc: Global, bytes: &[u8], count: u32) -> Result<PaddedLines, MediumFault>
        requires fits { length bytes.now ≤ 64 * count }
        requires least { 512 ≤ count }
        requires most { count ≤ 16384 }
        ensures ok { IfOk result (λ lines. concat lines ≡ padded bytes.now (64 * count)) }
        ensures whole { IfOk result (λ lines. IsMedium lines) }
        ensures err { IfErr result (λ fault. fault ≡ MediumFault.Memory) }
    {
        let size = (bytes.len() + LINE_SIZE - 1) / LINE_SIZE * LINE_SIZE;
        let filled = padded_bytes(alloc, bytes, size)?;
        let (given, _) = filled.as_chunks::<LINE_SIZE>();
        let given = Vec::from_slice(alloc, given)?;
        Ok(PaddedLines {
            count,
            given,
            zeros: [0; LINE_SIZE],
        })
    }

    /// The number of lines.
    pub fn lines(&self) -> u32
        ensures count { result ≡ length self.now }
        ensures whole { IsMedium self.now }
    {
        self.count
    }

    /// The bytes of a line.
    pub fn read_line(&self, line: u32) -> &[u8; 64]
        requires { line < length self.now }
        ensures value { result.now ≡ line_at self.now line }
        ensures whole { length result.now ≡ 64 }
    {
        if (line as usize) < self.given.len() {
            &self.given[line as usize]
        } else {
            &self.zeros
        }
    }
}
