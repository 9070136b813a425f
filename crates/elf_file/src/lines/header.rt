//! The header of a unit (DWARF 5, section 6.2.4).

ghost use Rattle.elf_file.specs.UnitParts.{known_parts};
ghost use Rattle.elf_file.specs.Units.{behind_sizes, coding_at, is_coding, parts_behind, parts_of, signed_byte};
ghost use Rattle.std.specs.Prelude.{◌≡◌, ◌≤◌, IfSome, length, option_map};

use crate::lines::numbers::{short_at, word_at};
use crate::lines::opcodes::Coding;

/// A unit behind its length: its version, the rest of its header, and its program.
#[derive(Clone, Copy)]
pub(crate) struct Parts<'a> {
    pub(crate) version: u16,
    pub(crate) header: &'a [u8],
    pub(crate) program: &'a [u8],
}

/// How many numbers follow each standard opcode, from 1 to 12.
const STANDARD_COUNTS: [u8; 12] = [0, 1, 1, 1, 1, 0, 0, 0, 1, 0, 0, 1];

/// The size of what a header begins with, up to these counts.
const FRONT_SIZE: usize = 18;

/// The opcode_base that is read: the first special opcode.
const OPCODE_BASE: u8 = 13;

/// The size of an address.
const ADDRESS_SIZE: u8 = 8;

/// The parts of a unit of version 4 or 5.
pub(crate) fn parts_of(bytes: &[u8]) -> Option<Parts<'_>>
    ensures { option_map known_parts result ≡ parts_of bytes.now }
{
    let (version, rest) = short_at(bytes)?;
    match version {
        4 => parts_behind(version, rest),
        5 => parts_behind(version, behind_sizes(rest)?),
        _ => None,
    }
}

/// The header, whose length stands here, and the program behind it.
fn parts_behind(version: u16, bytes: &[u8]) -> Option<Parts<'_>>
    ensures { option_map known_parts result ≡ parts_behind version bytes.now }
{
    let (size, rest) = word_at(bytes)?;
    let size = size as usize;
    if rest.len() < size {
        return None;
    }
    Some(Parts {
        version,
        header: &rest[..size],
        program: &rest[size..],
    })
}

/// The bytes behind the size of an address, which is 8, and that of a segment's number, which is 0.
fn behind_sizes(bytes: &[u8]) -> Option<&[u8]>
    ensures { option_map (λ rest. rest.now) result ≡ behind_sizes bytes.now }
{
    if bytes.len() < 2 || bytes[0] != ADDRESS_SIZE || bytes[1] != 0 {
        return None;
    }
    Some(&bytes[2..])
}

/// How a program is coded, and the bytes of the header behind that.
#[tactic(auto, using(crate::proofs::Headers::front_there))]
pub(crate) fn coding_at(header: &[u8]) -> Option<(Coding, &[u8])>
    ensures coding { option_map (λ found. (found.0, found.1.now)) result ≡ coding_at header.now }
    ensures range { IfSome result (λ found. 1 ≤ found.0.range) }
{
    if !is_coding(header) {
        return None;
    }
    let coding = Coding {
        least: header[0],
        base: signed_byte(header[3]),
        range: header[4],
    };
    Some((coding, &header[FRONT_SIZE..]))
}

/// Whether a header begins as one that is read.
fn is_coding(header: &[u8]) -> bool
    ensures { result ≡ is_coding header.now }
{
    header.len() >= FRONT_SIZE
        && header[1] == 1
        && header[4] != 0
        && header[5] == OPCODE_BASE
        && &header[6..FRONT_SIZE] == STANDARD_COUNTS.as_slice()
}

/// A byte with a sign.
fn signed_byte(byte: u8) -> i8
    ensures { result ≡ signed_byte byte }
{
    if byte < 128 {
        byte as i8
    } else {
        (i16::from(byte) - 256) as i8
    }
}
