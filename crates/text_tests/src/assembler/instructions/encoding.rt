//! Operands at and past the ends of their ranges, and words of a stock assembler (GNU as 2.40).

use isa_table::{
    AtomicOp, AtomicWidth, BranchOp, CacheOp, FieldFault, ImmediateOp, Instr, LoadOp, Reg,
    RegisterOp, ShiftOp, StoreOp, SystemOp, UpperOp, encode, ordering_suffix,
};
use std::test::Fail;

const ZERO: Reg = Reg { number: 0 };

const X5: Reg = Reg { number: 5 };

const X6: Reg = Reg { number: 6 };

/// lui x6, 0x40000; sd x5, -1(x6); cbo.clean (x6).
const WORDS: [(Instr, u32); 3] = [
    (
        Instr::Upper {
            op: UpperOp::Lui,
            rd: X6,
            immediate: 0x40000,
        },
        0x4000_0337,
    ),
    (
        Instr::Store {
            op: StoreOp::Sd,
            rs2: X5,
            rs1: X6,
            offset: -1,
        },
        0xfe53_3fa3,
    ),
    (
        Instr::Cache {
            op: CacheOp::Clean,
            rs1: X6,
        },
        0x0013_200f,
    ),
];

#[test]
fn words_are_canonical(rt: HostRuntime) -> Result<(), Fail> {
    for (instr, word) in WORDS {
        let found = encode(instr.check()?);
        assert!(rt; found == word, "{word}");
    }
    Ok(())
}

#[test]
fn registers_are_numbered_from_0_to_31(rt: HostRuntime) {
    assert!(rt; Reg::new(5) == Some(X5) && Reg::new(6) == Some(X6) && Reg::new(32).is_none());
}

fn addi(immediate: i32) -> Instr {
    Instr::Immediate {
        op: ImmediateOp::Addi,
        rd: ZERO,
        rs1: ZERO,
        immediate,
    }
}

fn jal(distance: i32) -> Instr {
    Instr::Jump { rd: ZERO, distance }
}

fn beq(distance: i32) -> Instr {
    Instr::Branch {
        op: BranchOp::Beq,
        rs1: ZERO,
        rs2: ZERO,
        distance,
    }
}

fn shift(op: ShiftOp, amount: u32) -> Instr {
    Instr::Shift {
        op,
        rd: ZERO,
        rs1: ZERO,
        amount,
    }
}

#[test]
fn operands_at_and_past_the_ends_of_their_ranges(rt: HostRuntime) {
    let cases = [
        (addi(2047), None),
        (addi(-2048), None),
        (addi(2048), Some(FieldFault::ImmediateOutOfRange)),
        (addi(-2049), Some(FieldFault::ImmediateOutOfRange)),
        (jal(1048574), None),
        (jal(1048575), Some(FieldFault::OddOffset)),
        (jal(1048577), Some(FieldFault::ImmediateOutOfRange)),
        (beq(-4096), None),
        (beq(-4095), Some(FieldFault::OddOffset)),
        (beq(-4097), Some(FieldFault::ImmediateOutOfRange)),
        (shift(ShiftOp::Slli, 63), None),
        (shift(ShiftOp::Slli, 64), Some(FieldFault::ShiftOutOfRange)),
        (shift(ShiftOp::Slliw, 31), None),
        (shift(ShiftOp::Slliw, 32), Some(FieldFault::ShiftOutOfRange)),
    ];
    for (instr, fault) in cases {
        let expected = match fault {
            None => Ok(instr),
            Some(fault) => Err(fault),
        };
        assert!(rt; instr.check() == expected, "{instr:?}");
    }
}

#[test]
fn mnemonics_have_their_names(rt: HostRuntime) {
    let names = [
        (UpperOp::Auipc.name(), "auipc"),
        (BranchOp::Bgeu.name(), "bgeu"),
        (LoadOp::Lwu.name(), "lwu"),
        (StoreOp::Sh.name(), "sh"),
        (ImmediateOp::Addiw.name(), "addiw"),
        (ShiftOp::Sraiw.name(), "sraiw"),
        (RegisterOp::Sltu.name(), "sltu"),
        (CacheOp::Flush.name(), "cbo.flush"),
        (SystemOp::Ebreak.name(), "ebreak"),
        (AtomicOp::Amomaxu.name(), "amomaxu"),
        (AtomicWidth::Doubleword.suffix(), ".d"),
        (ordering_suffix(true, true), ".aqrl"),
    ];
    for (name, expected) in names {
        assert!(rt; name == expected, "{expected}");
    }
}
