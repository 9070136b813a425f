//! Words that are joined before they are hashed, so that a value is hashed by one write.

ghost use Rattle.std.specs.Prelude.{◌≡◌};
ghost use Rattle.schedule_states.specs.Fed.{mixed};

/// A sum with a further word, by the multiplier of Knuth's MMIX generator.
#[inline(always)]
pub fn mixed(sum: u64, word: u64) -> u64
    ensures { result ≡ mixed sum word }
{
    sum.wrapping_mul(6_364_136_223_846_793_005)
        .wrapping_add(word)
}
