//! The integer registers.

ghost use Rattle.std.specs.Prelude.{◌≡◌, ◌<◌, ◌↔◌, IsSome, IfSome};

/// One of the integer registers x0 to x31.
///
/// Source: RISC-V Unprivileged ISA 20191213, chapter 2, "Programmers' Model for Base Integer ISA".
#[derive(Clone, Copy, Debug, PartialEq, Eq)]
pub struct Reg {
    pub number: u8,
    pub ghost in_range: { number < 32 },
}

impl Reg {
    /// The register x`number`, or None past x31.
    pub fn new(number: u8) -> Option<Reg>
        ensures valid { IsSome result ↔ (number < 32) }
        ensures value { IfSome result (λ r. r.number ≡ number) }
    {
        if number < 32 {
            Some(Reg { number })
        } else {
            None
        }
    }
}
