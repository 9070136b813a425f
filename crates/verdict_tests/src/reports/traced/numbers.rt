//! The line of each word of a source's text.

use crate::reports::sources::WIDTHS;
use assemble::line_numbers;
use std::alloc::Global;
use std::test::Fail;

/// Data between two parts of text, and a line of two words by numbers.
const BOTH_SECTIONS: &[u8] = b"nop\n.data\n.word 1, 2\n.text\n.word 0, 0x13\r\n\nend: ecall";

/// A source, an address, and the number of the line that it comes from.
static NUMBERS: [(&[u8], u64, Option<u32>); 22] = [
    (WIDTHS, 0xffff, None),
    (WIDTHS, 0x1_0000, Some(2)),
    (WIDTHS, 0x1_0003, Some(2)),
    (WIDTHS, 0x1_0004, Some(2)),
    (WIDTHS, 0x1_0008, Some(4)),
    (WIDTHS, 0x1_000c, Some(5)),
    (WIDTHS, 0x1_0010, Some(6)),
    (WIDTHS, 0x1_0014, Some(8)),
    (WIDTHS, 0x1_0018, Some(9)),
    (WIDTHS, 0x1_0020, Some(11)),
    (WIDTHS, 0x1_0024, Some(12)),
    (WIDTHS, 0x1_002c, Some(14)),
    (WIDTHS, 0x1_0034, Some(16)),
    (WIDTHS, 0x1_0038, None),
    (WIDTHS, u64::MAX, None),
    (BOTH_SECTIONS, 0x1_0000, Some(1)),
    (BOTH_SECTIONS, 0x1_0004, Some(5)),
    (BOTH_SECTIONS, 0x1_0008, Some(5)),
    (BOTH_SECTIONS, 0x1_000c, Some(7)),
    (BOTH_SECTIONS, 0x1_0010, None),
    (BOTH_SECTIONS, 0x10_0000, None),
    (b"", 0x1_0000, None),
];

/// Whether the address comes from the line of this number.
fn is_from(alloc: Global, source: &[u8], address: u64, number: Option<u32>) -> bool {
    match line_numbers(alloc, source) {
        Ok(numbers) => numbers.at(address) == number,
        Err(_) => false,
    }
}

#[test]
fn addresses_come_from_their_lines(rt: HostRuntime) -> Result<(), Fail> {
    let differing = NUMBERS.iter().position(|(source, address, number)| !is_from(
        rt.alloc(),
        source,
        *address,
        *number,
    ));
    assert_eq!(rt; differing, None);
    Ok(())
}
