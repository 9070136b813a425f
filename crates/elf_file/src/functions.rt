//! The functions of an ELF file, by address and by name.

ghost use Rattle.std.specs.Prelude.{◌≡◌, ◌+◌, ◌*◌, ◌-◌, ◌/◌, ◌<◌, IfOk, IfSome, List, Some, None, MatchOption, length};
ghost use Rattle.elf_file.specs.FunctionSymbols.{FunctionSymbol};
ghost use Rattle.elf_file.specs.Functions.{address_of, function_at, functions_before, functions_of, has_address};
ghost use Rattle.elf_file.specs.FunctionNumbers.{AreCells, IsNumberAt, begins_behind};

use crate::program_header::TEXT;
use crate::section_header::{section_numbered, symbol_table};
use crate::symbol::{SYMBOL_SIZE, Symbol};
use std::alloc::{AllocError, Global};
use std::marker::Model;

/// A function: its name, the address of its first byte, and its size in bytes.
#[derive(Drop)]
struct Function {
    name: Vec<u8>,
    address: u64,
    size: u64,
}

impl Model for Function {
    ghost Value = { FunctionSymbol };

    ghost view = { λ f. record { name = f.name.items; address = f.address; size = f.size } };
}

impl Function {
    /// Whether an address is one of its bytes.
    fn has(&self, pc: u64) -> bool
        ensures { result ≡ has_address self.now pc }
    {
        self.address <= pc && pc - self.address < self.size
    }
}

/// The functions of a file's first symbol table, in the table's order.
///
/// A function is a symbol of that type, in a section of the file, of some bytes, with a name of 1 to 255 bytes. A file
/// whose tables can't be read has none.
#[derive(Drop)]
pub struct Functions {
    table: Vec<Function>,
    /// The number in the table of the function at each word of text, up to the end of the last one there.
    cells: Vec<Option<usize>>,
}

impl Model for Functions {
    ghost Value = { List FunctionSymbol };

    ghost view = { λ f. f.table.items };

    ghost invariant = { λ f. AreCells f.table.items f.cells.items };
}

impl Functions {
    /// Reads the functions of an ELF file. The only error is that memory was refused.
    pub fn read(alloc: Global, file: &[u8]) -> Result<Functions, AllocError>
        ensures { IfOk result (λ functions. functions ≡ functions_of file.now) }
    {
        let table = table_of(alloc, file)?;
        let cells = cells_of(alloc, &table)?;
        Ok(Functions { table, cells })
    }

    /// How many functions there are.
    pub fn count(&self) -> usize
        ensures { result ≡ length self.now }
    {
        self.table.len()
    }

    /// The name of the function that has an address, and how many bytes behind its first one the address is.
    ///
    /// Of several functions it is the one that begins last, and of these the first in the table.
    pub fn at(&self, pc: u64) -> Option<(&[u8], u64)>
        ensures { MatchOption result (function_at self.now pc ≡ None) (λ found. (function : FunctionSymbol)
            × (function_at self.now pc ≡ Some function) × (found.0.now ≡ function.name) × (found.1 ≡ pc - function.address)) }
    {
        let function = &self.table[self.number_at(pc)?];
        Some((&function.name, pc - function.address))
    }

    /// The number in the table of the function at an address. In text it is looked up, and elsewhere searched for.
    fn number_at(&self, pc: u64) -> Option<usize>
        ensures { IsNumberAt self.now pc result }
    {
        match text_word(pc) {
            Some(word) if word < self.cells.len() => self.cells[word],
            _ => number_at(&self.table, pc),
        }
    }

    /// The address of the first function in the table that has a name.
    pub fn address_of(&self, name: &[u8]) -> Option<u64>
        ensures { result ≡ address_of self.now name.now }
    {
        let mut functions = self.table.iter();
        let function = functions.find(|function| function.name.as_slice() == name)?;
        Some(function.address)
    }
}

/// The functions of a file, in the order of its first symbol table.
fn table_of(alloc: Global, file: &[u8]) -> Result<Vec<Function>, AllocError>
    ensures { IfOk result (λ table. table.items ≡ functions_of file.now) }
{
    match symbol_table(file) {
        Some(table) if table.entry_size == SYMBOL_SIZE as u64 => {
            of_symbols(alloc, table.bytes(file), section_numbered(file, table.link))
        }
        _ => Ok(Vec::new(alloc)),
    }
}

/// The functions of a symbol table, whose names stand in these strings.
fn of_symbols(alloc: Global, symbols: &[u8], strings: &[u8]) -> Result<Vec<Function>, AllocError>
    ensures { IfOk result (λ table. table.items ≡ functions_before symbols.now strings.now (length symbols.now / 24)) }
{
    let mut table = Vec::new(alloc);
    for number in 0..symbols.len() / SYMBOL_SIZE {
        let symbol = Symbol::read(symbols, number);
        if let Some(name) = symbol.function_name(strings) {
            table.push(Function {
                name: Vec::from_slice(alloc, name)?,
                address: symbol.value,
                size: symbol.size,
            })?;
        }
    }
    Ok(table)
}

/// The number of the word of text that begins at an address.
fn text_word(pc: u64) -> Option<usize>
    ensures { IfSome result (λ word. pc ≡ 0x1_0000 + 4 * word) }
{
    let offset = pc.checked_sub(TEXT.base)?;
    if offset.is_multiple_of(4) {
        Some((offset / 4) as usize)
    } else {
        None
    }
}

/// The number in a table of the function at each word of text, up to the end of the last one there.
fn cells_of(alloc: Global, table: &[Function]) -> Result<Vec<Option<usize>>, AllocError>
    ensures { IfOk result (λ cells. AreCells table.now cells.items) }
{
    let mut cells = Vec::new(alloc);
    for word in 0..words_with_functions(table) {
        cells.push(number_at(table, TEXT.base + 4 * word))?;
    }
    Ok(cells)
}

/// How many words of text stand before the end of the last function in it.
fn words_with_functions(table: &[Function]) -> u64
    ensures { result < 65536 }
{
    let mut words = 0;
    for function in table {
        let end = function.address.saturating_add(function.size);
        words = words.max(end.saturating_sub(TEXT.base).min(TEXT.size) / 4);
    }
    words
}

/// The number in a table of the function at an address: of those that have it the one that begins last, and of these the first.
fn number_at(table: &[Function], pc: u64) -> Option<usize>
    ensures { IsNumberAt table.now pc result }
{
    let mut best = None;
    for number in 0..table.len() {
        let function = &table[number];
        if function.has(pc) && begins_behind(table, number, best) {
            best = Some(number);
        }
    }
    best
}

/// Whether a function begins behind another one, where there is one.
fn begins_behind(table: &[Function], number: usize, other: Option<usize>) -> bool
    requires within { number < length table.now }
    requires other { IfSome other (λ other. other < length table.now) }
    ensures { result ≡ begins_behind table.now number other }
{
    let Some(other) = other else {
        return true;
    };
    let other = &table[other];
    let function = &table[number];
    other.address < function.address
}
