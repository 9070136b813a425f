//! The numbers that are drawn.

use random_schedule::Numbers;

/// What splitmix64.c draws first from the seeds 0 and 1,234,567.
static OF_ZERO: [u64; 4] = [
    0xe220_a839_7b1d_cdaf,
    0x6e78_9e6a_a1b9_65f4,
    0x06c4_5d18_8009_454f,
    0xf88b_b8a8_724c_81ec,
];

static OF_ANOTHER: [u64; 5] = [
    0x599e_d017_fb08_fc85,
    0x2c73_f084_5854_0fa5,
    0x883e_bce5_a3f2_7c77,
    0x3fbe_f740_e917_7b3f,
    0xe3b8_3467_08cb_5ecd,
];

/// Whether a seed's numbers begin with these.
fn begins_with(seed: u64, expected: &[u64]) -> bool {
    let mut numbers = Numbers::new(seed);
    for number in expected {
        if numbers.draw() != *number {
            return false;
        }
    }
    true
}

#[test]
fn numbers_are_those_of_splitmix(rt: HostRuntime) {
    let are_so = begins_with(0, &OF_ZERO) && begins_with(1_234_567, &OF_ANOTHER);
    assert!(rt; are_so);
}

#[test]
fn numbers_below_a_bound(rt: HostRuntime) {
    let mut numbers = Numbers::new(0);
    let below_ten = numbers.below(10);
    assert_eq!(rt; below_ten, 0xe220_a839_7b1d_cdaf % 10);
    let below_one = numbers.below(1);
    assert_eq!(rt; below_one, 0);
    let next = numbers.draw();
    assert_eq!(rt; next, OF_ZERO[2]);
}
