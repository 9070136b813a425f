//! Whether a core began as its bus did.

ghost use Rattle.std.specs.Prelude.{◌≡◌, true};
ghost use Rattle.bus.specs.Following.{IsCoreOf};

use crate::locked::Core;
use line_memory::Medium;
use program::Program;

/// Whether a core has this program, this medium at the start, and these numbers of harts and of lines that its cache has
/// room for.
#[tactic(auto, using(crate::proofs::SameStart::is_core_of))]
pub(crate) fn is_core_of(
    core: &Core<'_>,
    program: &Program,
    start: &Medium,
    harts: u32,
    capacity: u32,
) -> bool
    ensures { result ≡ true → IsCoreOf (record {
      program = program.now;
      start = start.now;
      harts = harts;
      capacity = capacity;
    }) core.now }
{
    if core.harts() != harts || core.capacity() != capacity {
        return false;
    }
    if !is_same_program(core.program(), program) {
        return false;
    }
    is_same_medium(core.start(), start)
}

/// Whether two programs have the same bytes.
#[tactic(auto, using(crate::proofs::SameStart::sections_same))]
fn is_same_program(one: &Program, other: &Program) -> bool
    ensures { result ≡ true → one.now ≡ other.now }
{
    if one.text_bytes() != other.text_bytes() {
        return false;
    }
    if one.data_bytes() != other.data_bytes() {
        return false;
    }
    true
}

/// Whether two media have the same lines.
#[tactic(auto, using(crate::proofs::SameStart::none_below, crate::proofs::SameStart::same_more, crate::proofs::SameStart::same_lines))]
fn is_same_medium(one: &Medium, other: &Medium) -> bool
    ensures { result ≡ true → one.now ≡ other.now }
{
    let lines = one.lines();
    if lines != other.lines() {
        return false;
    }
    for line in 0..lines {
        if one.read_line(line) != other.read_line(line) {
            return false;
        }
    }
    true
}
