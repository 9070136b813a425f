//! Names of at most 96 bytes, held in place.

ghost use Rattle.std.specs.Prelude.{◌≡◌, ◌≤◌, ◌↔◌, [], length, IsTrue};

use std::marker::Model;

/// The most bytes of a name.
const LONGEST: usize = 96;

/// The name in an entry: at most 96 bytes. A contract sees the bytes.
#[derive(Clone, Copy, Debug, Drop, PartialEq, Eq)]
pub struct Name {
    size: u8,
    // The bytes past the name's are zero.
    bytes: [u8; LONGEST],
}

impl Model for Name {
    ghost use Rattle.std.specs.Prelude.{List, ℕ, length, take};
    ghost use Rattle.nova_log.specs.Stored.{IsStored, padded};

    ghost Value = { List ℕ };

    ghost view = { λ n. take n.size n.bytes };

    ghost invariant = { λ n. IsStored n.size n.bytes };

    ghost inverse = { λ name. record { size = length name; bytes = padded name } };
}

impl Name {
    /// The name without bytes, as entries of kind `Write` have it.
    #[inline(always)]
    pub fn empty() -> Name
        ensures { result ≡ [] }
    {
        Name {
            size: 0,
            bytes: [0; LONGEST],
        }
    }

    /// The name of these bytes.
    #[inline(always)]
    pub fn from_bytes(bytes: &[u8]) -> Name
        requires { length bytes.now ≤ 96 }
        ensures { result ≡ bytes.now }
    {
        let mut stored = [0; LONGEST];
        let (front, _) = stored.split_at_mut(bytes.len());
        front.copy_from_slice(bytes);
        Name {
            size: bytes.len() as u8,
            bytes: stored,
        }
    }

    /// The bytes of the name.
    #[inline(always)]
    pub fn as_bytes(&self) -> &[u8]
        ensures value { result.now ≡ self.now }
        ensures short { length self.now ≤ 96 }
    {
        &self.bytes[..self.size as usize]
    }

    /// Whether two names are of the same bytes.
    #[inline(always)]
    pub fn equals(&self, other: &Name) -> bool
        ensures { IsTrue result ↔ (self.now ≡ other.now) }
    {
        self.as_bytes() == other.as_bytes()
    }
}
