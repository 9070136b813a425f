//! The sections of an ELF file.

ghost use Rattle.std.specs.Prelude.{◌≡◌, ◌+◌, ◌<◌, ◌==◌, Some, None, IfSome, MatchOption, length, take};
ghost use Rattle.std.specs.List.{position};
ghost use Rattle.elf_file.specs.Functions.{is_symbol_table};
ghost use Rattle.elf_file.specs.Sections.{HasSection, bytes_of_section, first_section, is_named, section_bytes, section_count, section_header_at, section_of, short_text_at};

use crate::numbers::{ends_within, u16_at, u32_at, u64_at};

/// The size of `Elf64_Shdr`.
const HEADER_SIZE: usize = 64;

/// The size of `Elf64_Ehdr`, which says where the table is.
const FILE_HEADER_SIZE: usize = 64;

/// `SHT_SYMTAB`: a symbol table.
const SYMBOL_TABLE: u32 = 2;

/// `SHT_NOBITS`: a section that has no bytes in the file.
const NO_BITS: u32 = 8;

/// `SHF_COMPRESSED`: a section whose bytes are compressed.
const COMPRESSED: u64 = 0x800;

/// An entry of the table of section headers: `Elf64_Shdr`, without its address, its information and its alignment.
#[derive(Clone, Copy)]
pub(crate) struct SectionHeader {
    name: u32,
    kind: u32,
    flags: u64,
    offset: u64,
    size: u64,
    pub(crate) link: u32,
    pub(crate) entry_size: u64,
}

impl SectionHeader {
    /// The entry of this number.
    #[tactic(auto, unfolding(crate::specs::Sections::section_header_at))]
    fn read(file: &[u8], number: u16) -> SectionHeader
        requires { HasSection file.now number }
        ensures { result ≡ section_header_at file.now number }
    {
        let at = u64_at(file, 40) as usize + HEADER_SIZE * number as usize;
        SectionHeader {
            name: u32_at(file, at),
            kind: u32_at(file, at + 4),
            flags: u64_at(file, at + 8),
            offset: u64_at(file, at + 24),
            size: u64_at(file, at + 32),
            link: u32_at(file, at + 40),
            entry_size: u64_at(file, at + 56),
        }
    }

    /// Its bytes: empty where it has none in the file, or they end past it.
    pub(crate) fn bytes<'a>(&self, file: &'a [u8]) -> &'a [u8]
        ensures { result.now ≡ section_bytes file.now self.now }
    {
        if self.kind != NO_BITS && ends_within(file, self.offset, self.size) {
            &file[self.offset as usize..][..self.size as usize]
        } else {
            &[]
        }
    }

    /// Whether it has this name among these, and isn't compressed.
    #[tactic(auto, using(crate::proofs::Texts::named_near))]
    fn is_named(&self, names: &[u8], name: &[u8]) -> bool
        ensures { result ≡ is_named names.now name.now self.now }
    {
        self.flags / COMPRESSED % 2 == 0
            && short_text_at(names, self.name, name.len()).is_some_and(|text| text == name)
    }
}

/// How many sections a file has: none where their table can't be read.
#[tactic(auto, unfolding(crate::specs::Sections::section_count))]
fn section_count(file: &[u8]) -> u16
    ensures { result ≡ section_count file.now }
{
    if file.len() < FILE_HEADER_SIZE {
        return 0;
    }
    let (start, count) = (u64_at(file, 40), u16_at(file, 60));
    let size = HEADER_SIZE as u64 * u64::from(count);
    if start != 0 && u16_at(file, 58) as usize == HEADER_SIZE && ends_within(file, start, size) {
        count
    } else {
        0
    }
}

/// The bytes of the section of a number: empty where there is none.
#[tactic(auto, using(crate::proofs::Tables::header_in_file))]
pub(crate) fn section_numbered(file: &[u8], number: u32) -> &[u8]
    ensures { result.now ≡ bytes_of_section file.now number }
{
    if number < u32::from(section_count(file)) {
        SectionHeader::read(file, number as u16).bytes(file)
    } else {
        &[]
    }
}

/// The place of the first zero.
pub(crate) fn first_zero(bytes: &[u8]) -> Option<usize>
    ensures place { result ≡ position (λ byte. byte == 0) bytes.now }
    ensures within { IfSome result (λ place. place < length bytes.now) }
{
    bytes.iter().position(|byte| *byte == 0)
}

/// The bytes as far as the one of this index, or all.
fn bytes_through(bytes: &[u8], last: usize) -> &[u8]
    ensures { result.now ≡ take (last + 1) bytes.now }
{
    if last < bytes.len() {
        &bytes[..=last]
    } else {
        bytes
    }
}

/// The text at a place of a string table, without its zero, where it has at most so many bytes.
///
/// No byte behind these is looked at, so that many places in one long text cost no more than in short ones.
pub(crate) fn short_text_at(strings: &[u8], at: u32, limit: usize) -> Option<&[u8]>
    ensures { MatchOption result (short_text_at strings.now at limit ≡ None) (λ text. short_text_at strings.now at limit ≡ Some text.now) }
{
    let at = at as usize;
    if strings.len() < at {
        return None;
    }
    let near = bytes_through(&strings[at..], limit);
    let end = first_zero(near)?;
    Some(&near[..end])
}

/// The first symbol table of a file.
#[tactic(auto, using(crate::proofs::Tables::header_in_file))]
pub(crate) fn symbol_table(file: &[u8]) -> Option<SectionHeader>
    ensures { result ≡ first_section is_symbol_table file.now (section_count file.now) }
{
    for number in 0..section_count(file) {
        let header = SectionHeader::read(file, number);
        if header.kind == SYMBOL_TABLE {
            return Some(header);
        }
    }
    None
}

/// The bytes of the section of a name, as `.debug_line`: of the first one that isn't compressed.
///
/// They are empty where there is no such section, it has no bytes in the file, or its bytes end past the file. A file
/// whose table of section headers can't be read has no sections.
#[tactic(auto, using(crate::proofs::Tables::header_in_file))]
pub fn section<'a>(file: &'a [u8], name: &[u8]) -> &'a [u8]
    ensures { result.now ≡ section_of file.now name.now }
{
    if file.len() < FILE_HEADER_SIZE {
        return &[];
    }
    let names = section_numbered(file, u32::from(u16_at(file, 62)));
    for number in 0..section_count(file) {
        let header = SectionHeader::read(file, number);
        if header.is_named(names, name) {
            return header.bytes(file);
        }
    }
    &[]
}
