//! The effects at the least and greatest numbers, as another program computes them; the words are those of GNU as.

use crate::assembler::instructions::harts::{
    expect_need, expect_step, with_operands, with_result, x,
};
use hart::{HartState, Need, Reply, Request, Trap, amo_result};
use isa_table::{AtomicOp, CacheOp};

const MINUS_ONE: u64 = 0xffff_ffff_ffff_ffff;

const LEAST: u64 = 0x8000_0000_0000_0000;

const GREATEST: u64 = 0x7fff_ffff_ffff_ffff;

const LEAST_WORD: u64 = 0xffff_ffff_8000_0000;

const GREATEST_WORD: u64 = 0x7fff_ffff;

const HELD: u64 = 0x8000_0000;

/// An operation on x6, and on x7 or an immediate, with the result in x5.
static RESULTS: [(u32, u64, u64, u64); 41] = [
    (0x0073_02b3, MINUS_ONE, 1, 0), // add
    (0x0073_02b3, GREATEST, 1, LEAST), // add
    (0x4073_02b3, 0, 1, MINUS_ONE), // sub
    (0x4073_02b3, LEAST, 1, GREATEST), // sub
    (0x0073_12b3, 1, 63, LEAST), // sll
    (0x0073_12b3, 3, 127, LEAST), // sll
    (0x0073_22b3, LEAST, GREATEST, 1), // slt
    (0x0073_22b3, 0, MINUS_ONE, 0), // slt
    (0x0073_32b3, LEAST, GREATEST, 0), // sltu
    (0x0073_32b3, 0, MINUS_ONE, 1), // sltu
    (0x0073_42b3, MINUS_ONE, LEAST, GREATEST), // xor
    (0x0073_52b3, LEAST, 63, 1), // srl
    (0x0073_52b3, MINUS_ONE, 64, MINUS_ONE), // srl
    (0x4073_52b3, LEAST, 63, MINUS_ONE), // sra
    (0x4073_52b3, GREATEST, 62, 1), // sra
    (0x0073_62b3, LEAST, 1, 0x8000_0000_0000_0001), // or
    (0x0073_72b3, MINUS_ONE, LEAST_WORD, LEAST_WORD), // and
    (0x0073_02bb, GREATEST_WORD, 1, LEAST_WORD), // addw
    (0x0073_02bb, MINUS_ONE, 1, 0), // addw
    (0x4073_02bb, LEAST_WORD, 1, GREATEST_WORD), // subw
    (0x4073_02bb, 0, 1, MINUS_ONE), // subw
    (0x0073_12bb, 1, 31, LEAST_WORD), // sllw
    (0x0073_12bb, MINUS_ONE, 32, MINUS_ONE), // sllw
    (0x0073_52bb, LEAST_WORD, 31, 1), // srlw
    (0x0073_52bb, MINUS_ONE, 32, MINUS_ONE), // srlw
    (0x4073_52bb, 0x8000_0000, 31, MINUS_ONE), // sraw
    (0x4073_52bb, 0x0001_7fff_ffff, 30, 1), // sraw
    (0xfff3_0293, 0, 0, MINUS_ONE), // addi
    (0x0013_029b, GREATEST_WORD, 0, LEAST_WORD), // addiw
    (0xfff3_2293, LEAST, 0, 1), // slti
    (0xfff3_3293, GREATEST, 0, 1), // sltiu
    (0xfff3_4293, GREATEST, 0, LEAST), // xori
    (0x8003_6293, 1, 0, 0xffff_ffff_ffff_f801), // ori
    (0xffe3_7293, MINUS_ONE, 0, 0xffff_ffff_ffff_fffe), // andi
    (0x03f3_1293, 1, 0, LEAST), // slli
    (0x03f3_5293, MINUS_ONE, 0, 1), // srli
    (0x43f3_5293, LEAST, 0, MINUS_ONE), // srai
    (0x01f3_129b, 1, 0, LEAST_WORD), // slliw
    (0x0013_529b, MINUS_ONE, 0, GREATEST_WORD), // srliw
    (0x41f3_529b, 0x8000_0000, 0, MINUS_ONE), // sraiw
    (0x8000_0297, 0, 0, 0xffff_ffff_8001_0000), // auipc
];

#[test]
fn results(rt: HostRuntime) {
    for &(word, a, b, result) in &RESULTS {
        let state = with_operands(a, b);
        let after = with_result(&state, 5, result);
        expect_need(&rt, &state, Some(word), Need::Local(after));
    }
}

/// A branch of x6 and x7 to the instruction after the next: whether it is taken with each of the three pairs.
static BRANCHES: [(u32, [bool; 3]); 6] = [
    (0x0073_0463, [false, true, false]), // beq
    (0x0073_1463, [true, false, true]), // bne
    (0x0073_4463, [true, false, false]), // blt
    (0x0073_5463, [false, true, true]), // bge
    (0x0073_6463, [false, false, true]), // bltu
    (0x0073_7463, [true, true, false]), // bgeu
];

static PAIRS: [(u64, u64); 3] = [(LEAST, GREATEST), (MINUS_ONE, MINUS_ONE), (1, MINUS_ONE)];

#[test]
fn branches(rt: HostRuntime) {
    for (word, outcomes) in &BRANCHES {
        for (pair, taken) in PAIRS.iter().zip(outcomes) {
            let state = with_operands(pair.0, pair.1);
            let after = HartState {
                pc: if *taken { 0x1_0008 } else { 0x1_0004 },
                ..state
            };
            expect_need(&rt, &state, Some(*word), Need::Local(after));
        }
    }
}

/// Hart 0 at its start, with x1 set.
fn with_link(address: u64) -> HartState {
    let mut state = HartState::start(0);
    state.registers.set(x(1), address);
    state
}

/// Words from an x1 of 0x10021, with the pc and x1 after them.
static JUMPS: [(u32, u64, u64); 3] = [
    (0x0000_80e7, 0x1_0020, 0x1_0004), // jalr x1, 0(x1)
    (0xffdf_f0ef, 0xfffc, 0x1_0004), // jal x1, .-4
    (0x0000_1163, 0x1_0004, 0x1_0021), // bne x0, x0, .+2
];

/// Words from an x1 of 0x10022: jalr x1, 0(x1); jal x1, .+2; beq x0, x0, .+2.
static MISALIGNED: [u32; 3] = [0x0000_80e7, 0x0020_00ef, 0x0000_0163];

#[test]
fn jumps(rt: HostRuntime) {
    for &(word, pc, link) in &JUMPS {
        let after = HartState {
            pc,
            ..with_link(link)
        };
        expect_need(&rt, &with_link(0x1_0021), Some(word), Need::Local(after));
    }
    for &word in &MISALIGNED {
        let trap = Need::Stop(Trap::MisalignedTarget);
        expect_need(&rt, &with_link(0x1_0022), Some(word), trap);
    }
}

const ADDRESS: u64 = 0xffff_ffff_ffff_fffc;

const VALUE: u64 = 0xfedc_ba98_8765_8384;

/// A load to x5 from -8(x6): its width, the number that the bytes spell, and x5 after it.
static LOADS: [(u32, u32, u64, u64); 7] = [
    (0xff83_0283, 1, 0x84, 0xffff_ffff_ffff_ff84), // lb
    (0xff83_1283, 2, 0x8384, 0xffff_ffff_ffff_8384), // lh
    (0xff83_2283, 4, 0x8765_8384, 0xffff_ffff_8765_8384), // lw
    (0xff83_3283, 8, 0xfedc_ba98_8765_8384, 0xfedc_ba98_8765_8384), // ld
    (0xff83_4283, 1, 0x84, 0x84), // lbu
    (0xff83_5283, 2, 0x8384, 0x8384), // lhu
    (0xff83_6283, 4, 0x8765_8384, 0x8765_8384), // lwu
];

#[test]
fn loads(rt: HostRuntime) {
    let state = with_operands(4, VALUE);
    for &(word, width, bytes, result) in &LOADS {
        let asked = Request::Load {
            address: ADDRESS,
            width,
        };
        let after = with_result(&state, 5, result);
        expect_step(
            &rt,
            &state,
            (word, Reply::Value(bytes)),
            &after,
            Some(asked),
        );
    }
    // lw x0, 0(x11) makes its access.
    let asked = Request::Load {
        address: 0x4000_0000,
        width: 4,
    };
    let after = with_result(&state, 5, 0);
    expect_step(
        &rt,
        &state,
        (0x0005_a003, Reply::Value(7)),
        &after,
        Some(asked),
    );
}

/// A store of x7 at -8(x6): its width.
static STORES: [(u32, u32); 4] = [
    (0xfe73_0c23, 1), // sb
    (0xfe73_1c23, 2), // sh
    (0xfe73_2c23, 4), // sw
    (0xfe73_3c23, 8), // sd
];

#[test]
fn stores(rt: HostRuntime) {
    let state = with_operands(4, VALUE);
    for &(word, width) in &STORES {
        let asked = Request::Store {
            address: ADDRESS,
            width,
            value: VALUE,
        };
        expect_need(&rt, &state, Some(word), Need::Ask(asked));
    }
}

/// The words of LR, SC and AMOADD of a width, and x5 after the value HELD is loaded.
static ATOMICS: [(u32, [u32; 3], u64); 2] = [
    (4, [0x1003_22af, 0x1873_22af, 0x0073_22af], LEAST_WORD),
    (8, [0x1003_32af, 0x1873_32af, 0x0073_32af], 0x8000_0000),
];

#[test]
fn atomics(rt: HostRuntime) {
    let address = 0x4000_0000;
    let value = 1;
    let state = with_operands(address, value);
    for (width, words, result) in &ATOMICS {
        let (width, [load, store, add]) = (*width, *words);
        let held = with_result(&state, 5, *result);
        // lr x5, (x6)
        let asked = Request::Lr { address, width };
        expect_step(&rt, &state, (load, Reply::Value(HELD)), &held, Some(asked));
        // amoadd x5, x7, (x6)
        let asked = Request::Amo {
            op: AtomicOp::Amoadd,
            address,
            width,
            operand: value,
        };
        expect_step(&rt, &state, (add, Reply::Value(HELD)), &held, Some(asked));
        // sc x5, x7, (x6)
        let asked = Request::Sc {
            address,
            width,
            value,
        };
        let failed = with_result(&state, 5, 1);
        expect_step(&rt, &state, (store, Reply::Value(1)), &failed, Some(asked));
    }
}

/// What is stored in a word 0x80000000 with the operand 0x100000001, and in a doubleword -1 with the greatest number.
static STORED: [(AtomicOp, u64, u64); 10] = [
    (AtomicOp::Sc, 1, GREATEST),
    (AtomicOp::Amoswap, 1, GREATEST),
    (AtomicOp::Amoadd, 0x8000_0001, 0x7fff_ffff_ffff_fffe),
    (AtomicOp::Amoxor, 0x8000_0001, LEAST),
    (AtomicOp::Amoand, 0, GREATEST),
    (AtomicOp::Amoor, 0x8000_0001, MINUS_ONE),
    (AtomicOp::Amomin, 0x8000_0000, MINUS_ONE),
    (AtomicOp::Amomax, 1, GREATEST),
    (AtomicOp::Amominu, 1, GREATEST),
    (AtomicOp::Amomaxu, 0x8000_0000, MINUS_ONE),
];

#[test]
fn stored_by_atomics(rt: HostRuntime) {
    for &(op, word, doubleword) in &STORED {
        let stored = [
            amo_result(op, 4, 0x8000_0000, 0x0001_0000_0001),
            amo_result(op, 8, MINUS_ONE, GREATEST),
        ];
        assert!(rt; stored == [word, doubleword], "{op:?}");
    }
    assert!(rt; amo_result(AtomicOp::Amoadd, 4, 0x7fff_ffff, 1) == 0x8000_0000);
}

/// cbo.flush (x11); cbo.inval (x11); fence.i.
static CACHES: [(u32, Request); 3] = [
    (
        0x0025_a00f,
        Request::Cbo {
            op: CacheOp::Flush,
            address: 0x4000_0000,
        },
    ),
    (
        0x0005_a00f,
        Request::Cbo {
            op: CacheOp::Inval,
            address: 0x4000_0000,
        },
    ),
    (0x0000_100f, Request::FenceI),
];

#[test]
fn caches(rt: HostRuntime) {
    let state = HartState::start(0);
    for &(word, request) in &CACHES {
        let after = with_result(&state, 5, 0);
        expect_step(&rt, &state, (word, Reply::Done), &after, Some(request));
    }
}
