//! Whether lines have the same bytes where a question asks for them.

ghost use Rattle.recovery.specs.Images.{same_at};
ghost use Rattle.std.specs.Prelude.{◌≡◌};

/// Whether two lines have the same bytes at the places of a set, whose lowest bit stands for their first byte.
pub fn have_same(bytes: u64, one: &[u8; 64], other: &[u8; 64]) -> bool
    ensures { result ≡ same_at bytes 0 one.now other.now }
{
    let mut left = bytes;
    let mut at = 0;
    while left != 0 {
        // none of eight bytes is asked
        if left % 256 == 0 {
            left /= 256;
            at += 8;
            continue;
        }
        if left % 2 == 1 && one[at] != other[at] {
            return false;
        }
        left /= 2;
        at += 1;
    }
    true
}
