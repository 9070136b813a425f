//! Sources, and machines that run them over 512 lines of zeros.

ghost use Rattle.std.specs.Prelude.{◌≡◌, [], IfSome};

use assemble::assemble;
use line_memory::Medium;
use machine::Machine;
use program::load;
use std::alloc::Global;

/// Stores of three widths, atomics and cache operations, with lines that have no instruction and one that has two words.
pub(crate) const WIDTHS: &[u8] =
    b"# widths\nli t0, 0x12345678\nhere:\nli t1, -1\nsb t0, 1(a1)\nsw t0, 4(a1)\n\nlr.d t2, (a1)\n\
    sc.d t3, t1, (a1)\nsc.d t3, t1, (a1)\namoadd.w t4, t0, (a1)\ncbo.flush (a1)\naddi t5, a1, 100\n\
    cbo.inval (t5)\nfence r, r\nfence rw, rw\n";

/// 25 steps of each hart, which exits with its number: the third stores to the line of that number, the 23rd to line 2.
pub(crate) const STORES: &[u8] =
    b"slli t0, a0, 6\nadd t0, t0, a1\nsd a0, 0(t0)\nli t1, 9\nloop: addi t1, t1, -1\nbnez t1, loop\nsd a0, 128(a1)\n\
    li a7, 93\necall\n";

/// Steps without an end, and without a store.
pub(crate) const ENDLESS: &[u8] = b"j .+0\n";

/// An event at each second step, without an end.
pub(crate) const FENCES: &[u8] = b"fence\nj .-4\n";

/// A machine over zeros, with a cache of as many lines; None where there is none.
pub(crate) fn machine_of(alloc: Global, source: &[u8], harts: u32) -> Option<Machine>
    ensures { IfSome result (λ machine. machine.shared.trace ≡ []) }
{
    let object = assemble(alloc, source).ok()?;
    let program = load(object).ok()?;
    let medium = Medium::zero(alloc, 512).ok()?;
    Machine::new(alloc, program, medium, harts, 512).ok()
}
