//! The sections in the bytes of an object's file, and the header that stands before them.

ghost use Rattle.std.specs.Prelude.{◌≡◌, ◌+◌, ◌++◌, ◌<◌, ◌≤◌, ◌^◌, length, IfOk, IfErr};
ghost use Rattle.byteorder.specs.Endian.{little_bytes};
ghost use Rattle.program.specs.Sections.{Sections};
ghost use Rattle.program.specs.ObjectFile.{HasHeader, HasWords, IsFirstFault, IsObjectFile, data_length, magic, text_length};

use crate::{DATA_LIMIT, LoadFault, MAGIC, TEXT_LIMIT};
use byteorder::{ByteOrder, LittleEndian};

/// The bytes of a header: the magic, and two lengths.
pub(crate) const HEADER_SIZE: usize = 16;

/// The lengths in bytes that a header gives.
#[derive(Clone, Copy)]
struct Lengths {
    text: u32,
    static_data: u32,
}

/// The header of a file with sections of these lengths.
pub(crate) fn header_bytes(text_len: u32, data_len: u32) -> [u8; HEADER_SIZE]
    ensures { result ≡ magic ++ little_bytes 4 text_len ++ little_bytes 4 data_len }
{
    let mut header = [0; HEADER_SIZE];
    header[..8].copy_from_slice(&MAGIC);
    LittleEndian::write_u32(&mut header[8..], text_len);
    LittleEndian::write_u32(&mut header[12..], data_len);
    header
}

/// The lengths in a header, or what is wrong with the magic or the header's own size.
fn read_header(bytes: &[u8]) -> Result<Lengths, LoadFault>
    ensures header { IfOk result (λ _. HasHeader bytes.now) }
    ensures text { IfOk result (λ lengths. lengths.text ≡ text_length bytes.now) }
    ensures static_data { IfOk result (λ lengths. lengths.static_data ≡ data_length bytes.now) }
    ensures err { IfErr result (λ fault. IsFirstFault bytes.now fault) }
{
    let seen = bytes.len().min(MAGIC.len());
    if !bytes.starts_with(&MAGIC[..seen]) {
        return Err(LoadFault::Magic);
    }
    if bytes.len() < HEADER_SIZE {
        return Err(LoadFault::Truncated);
    }
    Ok(Lengths {
        text: LittleEndian::read_u32(&bytes[8..]),
        static_data: LittleEndian::read_u32(&bytes[12..]),
    })
}

/// The lengths in a header, or what is wrong with the header or with them.
fn read_lengths(bytes: &[u8]) -> Result<Lengths, LoadFault>
    ensures words { IfOk result (λ _. HasWords bytes.now) }
    ensures text { IfOk result (λ lengths. lengths.text ≡ text_length bytes.now) }
    ensures static_data { IfOk result (λ lengths. lengths.static_data ≡ data_length bytes.now) }
    ensures err { IfErr result (λ fault. IsFirstFault bytes.now fault) }
{
    let lengths = read_header(bytes)?;
    if lengths.text as usize > TEXT_LIMIT || lengths.static_data as usize > DATA_LIMIT {
        return Err(LoadFault::TooLarge);
    }
    if lengths.text % 4 != 0 {
        return Err(LoadFault::TextLength);
    }
    Ok(lengths)
}

/// The bytes of text and of data in a file, or the first fault of the bytes.
pub(crate) fn sections(bytes: &[u8]) -> Result<(&[u8], &[u8]), LoadFault>
    ensures ok { IfOk result (λ found. IsObjectFile bytes.now (record { text = found.0.now; static_data = found.1.now })) }
    ensures err { IfErr result (λ fault. IsFirstFault bytes.now fault) }
{
    let lengths = read_lengths(bytes)?;
    let text_end = HEADER_SIZE + lengths.text as usize;
    let end = text_end + lengths.static_data as usize;
    if bytes.len() < end {
        return Err(LoadFault::Truncated);
    }
    if end < bytes.len() {
        return Err(LoadFault::Trailing);
    }
    Ok((&bytes[HEADER_SIZE..text_end], &bytes[text_end..]))
}
