//! The places of a source's labels.

use assemble::{AsmCode, AsmFault, source_labels};
use std::test::Fail;

/// Labels of an instruction of two words, of the one behind it, of a byte of data, and of the end of text.
const SOURCE: &[u8] =
    b"start: li t0, 0x12345678\nloop: nop\n.data\n.byte 1\nshared: .byte 2\n.text\nend:";

/// Text begins at 0x10000, data at 0x100000.
static PLACES: [(&[u8], Option<u32>); 7] = [
    (b"start", Some(0x1_0000)),
    (b"loop", Some(0x1_0008)),
    (b"shared", Some(0x10_0001)),
    (b"end", Some(0x1_000c)),
    (b"Loop", None),
    (b"loo", None),
    (b"", None),
];

#[test]
fn labels_stand_at_their_places(rt: HostRuntime) -> Result<(), Fail> {
    let labels = source_labels(rt.alloc(), SOURCE)?;
    for (label, place) in &PLACES {
        assert!(rt; labels.place(*label) == *place, "{label:?}");
    }
    Ok(())
}

/// A label that no line defines is no fault of the labels.
#[test]
fn a_label_stands_beside_an_unknown_one(rt: HostRuntime) -> Result<(), Fail> {
    let labels = source_labels(rt.alloc(), b"j away\nhere: nop")?;
    assert!(rt; labels.place(b"here") == Some(0x1_0004));
    assert!(rt; labels.place(b"away").is_none());
    Ok(())
}

#[test]
fn labels_of_a_source_with_a_fault(rt: HostRuntime) {
    let again = source_labels(rt.alloc(), b"a: nop\na: nop");
    let twice = AsmFault {
        line: 2,
        code: AsmCode::LabelTwice,
    };
    assert!(rt; matches!(again, Err(fault) if fault == twice));
}
