//! The reservations of LR and SC: which line, if any, each hart has reserved.
//!
//! A line is an address divided by 64, over the whole address space. An LR, a store or an SC is asked of here only after
//! its address was found in memory, which ends far below 2^38, so that a `u32` holds every line.
//!
//! Source: RISC-V Unprivileged ISA 20191213, chapter 8, with a reservation set of one 64-byte line. An SC fails only
//! where its hart's reservation doesn't stand.
#![tactic(auto)]

ghost use Rattle.std.specs.Prelude.{◌≡◌, ℕ, ◌<◌, ◌↔◌, List, [], Some, slice_get};
ghost use Rattle.reservation.specs.Reserved.{Call, Reserved, Stored, Taken, Agrees, Follows, is_reserved};

use std::marker::Model;

/// How many harts there are.
const HARTS: usize = 8;

/// The reservations of eight harts, numbered from 0. A hart has at most one.
#[derive(Drop)]
pub struct Reservations {
    lines: [Option<u32>; HARTS],
    /// Whether a hart has reserved a line at all. Most programs have no LR, and then a store looks at no hart's line.
    used: bool,
}

impl Model for Reservations {
    ghost use Rattle.reservation.specs.Reserved.{AreFree};
    ghost use Rattle.std.specs.Prelude.{◌≡◌, ℕ, List, Option, false};

    ghost Value = { List (Option ℕ) };

    ghost view = { λ r. r.lines };

    ghost invariant = { λ r. r.used ≡ false → AreFree r.lines };
}

impl Reservations {
    /// No hart has a reservation.
    pub fn new() -> Self
        ensures { Agrees result [] }
    {
        Reservations {
            lines: [None; HARTS],
            used: false,
        }
    }

    /// The hart reserves the line, and has no other reservation from then on.
    pub fn reserve(&mut self, hart: u32, line: u32)
        requires { hart < 8 }
        ensures { Follows self.old self.new (Reserved hart line) }
    {
        self.lines[hart as usize] = Some(line);
        self.used = true;
    }

    /// The hart has written to the line, which ends every other hart's reservation of it.
    #[inline(always)]
    pub fn stored(&mut self, hart: u32, line: u32)
        requires { hart < 8 }
        ensures { Follows self.old self.new (Stored hart line) }
    {
        if self.used {
            end_others(&mut self.lines, hart as usize, line);
        }
    }

    /// Whether the hart's reservation of the line stands, as an SC there asks. The hart has no reservation from then on.
    pub fn take(&mut self, hart: u32, line: u32) -> bool
        requires { hart < 8 }
        ensures reserved { (calls : List Call) → Agrees self.old calls → result ≡ is_reserved hart line calls }
        ensures ended { Follows self.old self.new (Taken hart) }
    {
        self.lines[hart as usize].take() == Some(line)
    }
}

/// Ends each other hart's reservation of the line that a hart has written to.
fn end_others(lines: &mut [Option<u32>; HARTS], hart: usize, line: u32)
    ensures { Follows lines.old lines.new (Stored hart line) }
{
    for other in 0..HARTS {
        end_one(lines, other, hart, line);
    }
}

/// Ends the reservation of the line by `other`, unless that is the hart that wrote.
fn end_one(lines: &mut [Option<u32>; HARTS], other: usize, hart: usize, line: u32)
    requires { other < 8 }
    ensures { (k m : ℕ) → k < 8 → (slice_get lines.new k ≡ Some (Some m)) ↔
        ((slice_get lines.old k ≡ Some (Some m)) × (k ≡ other → m ≡ line → k ≡ hart)) }
{
    if other != hart && lines[other] == Some(line) {
        lines[other] = None;
    }
}
