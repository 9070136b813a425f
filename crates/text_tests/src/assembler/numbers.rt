//! Values worked out by hand, from the immediates of the manual's encodings.

use word_bits::{field, replace_bytes, sign_extend};

#[test]
fn fields_of_a_word(rt: HostRuntime) {
    // addi x5, x0, 7 is 0x00700293: opcode 0x13, rd 5, immediate 7.
    assert_eq!(rt; field(0x0070_0293, 0, 7), 0x13);
    assert_eq!(rt; field(0x0070_0293, 7, 5), 5);
    assert_eq!(rt; field(0x0070_0293, 20, 12), 7);
    assert_eq!(rt; field(0xffff_ffff, 0, 32), 0xffff_ffff);
    assert_eq!(rt; field(0xffff_ffff, 32, 0), 0);
}

#[test]
fn signs_are_extended(rt: HostRuntime) {
    assert_eq!(rt; sign_extend(0x7ff, 12), 0x7ff);
    assert_eq!(rt; sign_extend(0x800, 12), 0xffff_ffff_ffff_f800);
    assert_eq!(rt; sign_extend(0xabc_8000_0000, 32), 0xffff_ffff_8000_0000);
    assert_eq!(rt;
        sign_extend(0x8000_0000_0000_0001, 64),
        0x8000_0000_0000_0001
    );
    assert_eq!(rt; sign_extend(3, 1), 0xffff_ffff_ffff_ffff);
}

#[test]
fn bytes_are_replaced(rt: HostRuntime) {
    let mut bytes = [1, 2, 3, 4, 5];
    replace_bytes(&mut bytes, 1, &[8, 9]);
    assert_eq!(rt; bytes, [1, 8, 9, 4, 5]);
    replace_bytes(&mut bytes, 5, &[]);
    assert_eq!(rt; bytes, [1, 8, 9, 4, 5]);
}
