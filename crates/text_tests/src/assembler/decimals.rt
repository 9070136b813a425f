//! Texts that are numbers, and texts that are none.

use text::{decimal, decimal_within};

#[test]
fn numbers_are_digits(rt: HostRuntime) {
    assert_eq!(rt; decimal(b"4294967295"), Some(4_294_967_295));
    assert_eq!(rt; decimal(b"0000000000000000000000042"), Some(42));
    assert_eq!(rt; decimal(b"4294967296"), None);
    assert_eq!(rt; decimal(b"18446744073709551617"), None);
    assert_eq!(rt; decimal(b""), None);
    assert_eq!(rt; decimal(b"+1"), None);
    assert_eq!(rt; decimal(b"-1"), None);
    assert_eq!(rt; decimal(b"1 "), None);
    assert_eq!(rt; decimal(b"\xd9\xa1"), None);
    assert_eq!(rt; decimal_within(b"8", 1, 8), Some(8));
    assert_eq!(rt; decimal_within(b"0", 1, 8), None);
    assert_eq!(rt; decimal_within(b"9", 1, 8), None);
}
