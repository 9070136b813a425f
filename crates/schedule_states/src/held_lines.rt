//! Which lines of the address space aren't as they were at the start. A line of the address space is an address divided by 64.

ghost use Rattle.std.specs.Prelude.{◌≡◌, ◌==◌, ◌^◌, ◌<◌, ◌≤◌, ◌∷◌, ℕ, None, Some, filter, insert, length, IfOk, IfSome, if◌then◌else◌};
ghost use Rattle.schedule_states.specs.HeldLines.{AreBelow, is_apart, is_of_medium, number_of, on_medium};

use crate::start_lines::PERSISTENT_LINE;
use std::alloc::{AllocError, Global};
use std::hash::{Hash, Hasher};

/// A line that isn't as it was at the start, and the number of its state. A list of them goes up by lines.
#[derive(Clone, Copy, Debug, PartialEq, Eq, PartialOrd, Ord)]
pub struct HeldLine {
    pub line: u32,
    pub state: u32,
}

/// Both numbers by one write.
impl Hash for HeldLine {
    ghost use Rattle.std.specs.Hash as fed;
    ghost use Rattle.std.specs.Cmp.Rules.{hashing};
    ghost use Rattle.std.specs.Prelude.{◌+◌, ◌*◌};
    ghost use Rattle.std.proofs.Common.{rules};

    ghost hash_input = { λ h. fed.u64 (4294967296 * h.line + h.state) };

    ghost respects_eq = { Prim.search (hashing, rules) };

    fn hash<H: Hasher>(&self, state: &mut H) {
        state.write_u64(4_294_967_296 * u64::from(self.line) + u64::from(self.state));
    }
}

/// The number of the state of a line, None where the line is as it was.
pub fn state_of(held: &[HeldLine], line: u64) -> Option<u32>
    ensures number { result ≡ number_of held.now line }
    ensures low { IfSome result (λ state. line < 2 ^ 32) }
{
    for one in held {
        if u64::from(one.line) == line {
            return Some(one.state);
        }
    }
    None
}

/// The same lines, where this one has this state.
#[tactic(auto, using(crate::proofs::Held::number_inserted, crate::proofs::Held::below_inserted))]
pub fn with_state(
    alloc: Global,
    held: &[HeldLine],
    line: u32,
    state: u32,
) -> Result<Vec<HeldLine>, AllocError>
    ensures found { IfOk result (λ lines. (l : ℕ) → number_of lines.items l ≡ (if l == line then Some state else number_of held.now l)) }
    ensures below { IfOk result (λ lines. (count : ℕ) → AreBelow count held.now → state < count → AreBelow count lines.items) }
{
    let mut lines = without(alloc, held, line)?;
    let at = count_below(&lines, line);
    lines.insert(at, HeldLine { line, state })?;
    Ok(lines)
}

/// The same lines, where this one is as it was.
#[tactic(auto, using(crate::proofs::Held::number_filtered, crate::proofs::Held::below_filtered))]
pub fn without(alloc: Global, held: &[HeldLine], line: u32) -> Result<Vec<HeldLine>, AllocError>
    ensures found { IfOk result (λ lines. (l : ℕ) → number_of lines.items l ≡ (if l == line then None else number_of held.now l)) }
    ensures below { IfOk result (λ lines. (count : ℕ) → AreBelow count held.now → AreBelow count lines.items) }
{
    let mut lines = Vec::from_slice(alloc, held)?;
    retain_apart(&mut lines, line);
    Ok(lines)
}

fn retain_apart(lines: &mut Vec<HeldLine>, line: u32)
    ensures { lines.new.items ≡ filter (is_apart line) lines.old.items }
{
    lines.retain(|one| one.line != line);
}

/// Those of the lines that are the medium's.
pub fn medium_lines(alloc: Global, held: &[HeldLine]) -> Result<Vec<HeldLine>, AllocError>
    ensures { IfOk result (λ lines. lines.items ≡ on_medium held.now) }
{
    let mut lines = Vec::from_slice(alloc, held)?;
    retain_of_medium(&mut lines);
    Ok(lines)
}

fn retain_of_medium(lines: &mut Vec<HeldLine>)
    ensures { lines.new.items ≡ filter is_of_medium lines.old.items }
{
    lines.retain(|one| u64::from(one.line) >= PERSISTENT_LINE);
}

/// How many lines at the front lie below this one.
fn count_below(held: &[HeldLine], line: u32) -> usize
    ensures { result ≤ length held.now }
{
    for at in 0..held.len() {
        if held[at].line >= line {
            return at;
        }
    }
    held.len()
}
