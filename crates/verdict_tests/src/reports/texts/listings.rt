//! The listing of a source whose lines give no word, one, or two, and that of its words alone.

use assemble::{assemble, line_numbers, source_labels};
use report::{Places, listing_text};
use std::test::Fail;

/// A line ends with CR and LF, and one has a byte that is no text.
const SOURCE: &[u8] =
    b"# head\nli t0, 0x12345 # two words\r\nhere:\n  beqz t0, here\n.word 0, 0x13\n.data\n.word 5\n.text\nend: ecall # \xff\n";

const LISTING: &[u8] = b"0x10000 000122b7 lui x5, 18\t2 li t0, 0x12345 # two words\n\
0x10004 3452829b addiw x5, x5, 837\n\
0x10008 00028063 beq x5, x0, .+0\t4   beqz t0, here\n\
0x1000c 00000000 .word 0x0\t5 .word 0, 0x13\n\
0x10010 00000013 addi x0, x0, 0\n\
0x10014 00000073 ecall\t9 end: ecall # \xff\n";

const WORDS: &[u8] = b"0x10000 000122b7 lui x5, 18\n\
0x10004 3452829b addiw x5, x5, 837\n\
0x10008 00028063 beq x5, x0, .+0\n\
0x1000c 00000000 .word 0x0\n\
0x10010 00000013 addi x0, x0, 0\n\
0x10014 00000073 ecall\n";

fn lists(rt: &impl AllocGlobal, is_numbered: bool, expected: &[u8]) -> Result<bool, Fail> {
    let object = assemble(rt.alloc(), SOURCE)?;
    let places = if is_numbered {
        Places::Source {
            numbers: line_numbers(rt.alloc(), SOURCE)?,
            labels: source_labels(rt.alloc(), SOURCE)?,
        }
    } else {
        Places::Unknown
    };
    let listing = listing_text(rt.alloc(), object.text_bytes(), SOURCE, &places)?;
    Ok(listing.as_slice() == expected)
}

#[test]
fn listing_of_a_source(rt: HostRuntime) -> Result<(), Fail> {
    assert!(rt; lists(&rt, true, LISTING)?);
    Ok(())
}

#[test]
fn listing_of_words_alone(rt: HostRuntime) -> Result<(), Fail> {
    assert!(rt; lists(&rt, false, WORDS)?);
    Ok(())
}
