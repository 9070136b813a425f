//! What is known of the code of a machine's program.

ghost use Rattle.std.specs.Prelude.{◌≡◌, ◌^◌, ◌<◌, ℕ, IfOk, MatchOption, string_bytes};
ghost use Rattle.debugger.specs.Code.{KnownCode, plain_place, unknown_code};

use std::alloc::{AllocError, Global};

/// What is known of the code of a machine's program: names of its addresses, and where its instructions come from.
pub trait Code {
    /// What that is.
    ghost known: { Self → KnownCode };

    /// Whether a word that is no number is taken for the name of an address.
    fn is_named(&self, word: &[u8]) -> bool
        ensures { result ≡ (known self.now).named word.now };

    /// Whether stops are told with their place.
    fn is_placed(&self) -> bool
        ensures { result ≡ (known self.now).is_placed };

    /// The address of 64 bits that a word stands for, where there is one.
    fn address_of(&self, word: &[u8]) -> Option<u64>
        ensures { MatchOption result ((address : ℕ) → address < 2 ^ 64 → ¬ ((known self.now).stands_for word.now address))
            ((known self.now).stands_for word.now) };

    /// A pc and where it is, as it is told, behind a blank: ` pc=0xP`, and what is known of it.
    fn place_of(&self, alloc: Global, pc: u64) -> Result<String, AllocError>
        ensures { IfOk result (λ text. string_bytes text ≡ (known self.now).place pc) };
}

/// Code of which nothing is known.
#[derive(Clone, Copy)]
pub struct UnknownCode;

impl Code for UnknownCode {
    ghost known = { λ _. unknown_code };

    fn is_named(&self, _word: &[u8]) -> bool {
        false
    }

    fn is_placed(&self) -> bool {
        false
    }

    fn address_of(&self, _word: &[u8]) -> Option<u64> {
        None
    }

    fn place_of(&self, alloc: Global, pc: u64) -> Result<String, AllocError> {
        plain_place(alloc, pc)
    }
}

/// ` pc=0xP`.
pub(crate) fn plain_place(alloc: Global, pc: u64) -> Result<String, AllocError>
    ensures { IfOk result (λ text. string_bytes text ≡ plain_place pc) }
{
    format!(in alloc; " pc=0x{pc:x}")
}
