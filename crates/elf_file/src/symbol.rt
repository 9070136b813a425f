//! The entries of a symbol table.

ghost use Rattle.std.specs.Prelude.{◌≡◌, ◌+◌, ◌*◌, ◌≤◌, Some, None, MatchOption, length};
ghost use Rattle.elf_file.specs.Functions.{function_of, is_function, symbol_at};

use crate::numbers::{u16_at, u32_at, u64_at};
use crate::section_header::short_text_at;

/// The size of `Elf64_Sym`.
pub(crate) const SYMBOL_SIZE: usize = 24;

/// `STT_FUNC`: a function.
const FUNCTION: u8 = 2;

/// `SHN_UNDEF`: what is in another file.
const UNDEFINED: u16 = 0;

/// The most bytes of a name.
const NAME_LIMIT: usize = 255;

/// An entry of a symbol table: `Elf64_Sym`, without its visibility.
#[derive(Clone, Copy)]
pub(crate) struct Symbol {
    name: u32,
    info: u8,
    section: u16,
    pub(crate) value: u64,
    pub(crate) size: u64,
}

impl Symbol {
    /// The entry of this number.
    #[tactic(auto, unfolding(crate::specs::Functions::symbol_at))]
    pub(crate) fn read(symbols: &[u8], number: usize) -> Symbol
        requires { 24 * number + 24 ≤ length symbols.now }
        ensures { result ≡ symbol_at symbols.now number }
    {
        let at = SYMBOL_SIZE * number;
        Symbol {
            name: u32_at(symbols, at),
            info: symbols[at + 4],
            section: u16_at(symbols, at + 6),
            value: u64_at(symbols, at + 8),
            size: u64_at(symbols, at + 16),
        }
    }

    /// Whether it is a function in the file, of some bytes.
    fn is_function(&self) -> bool
        ensures { result ≡ is_function self.now }
    {
        self.info % 16 == FUNCTION && self.section != UNDEFINED && self.size != 0
    }

    /// The name of the function that it is, where it is one.
    pub(crate) fn function_name<'a>(&self, strings: &'a [u8]) -> Option<&'a [u8]>
        ensures { MatchOption result (function_of strings.now self.now ≡ None) (λ name. function_of strings.now self.now
            ≡ Some (record { name = name.now; address = self.now.value; size = self.now.size })) }
    {
        if !self.is_function() {
            return None;
        }
        let name = short_text_at(strings, self.name, NAME_LIMIT)?;
        if name.is_empty() { None } else { Some(name) }
    }
}
