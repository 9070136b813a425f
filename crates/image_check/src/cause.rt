//! Why an image is bad.

use nova_log::VolumeFault;
use thiserror::Error;

/// Why an image is bad. It prints as the code of the fault, or as `illegal`.
#[derive(Clone, Copy, Debug, PartialEq, Eq, Error)]
#[error("{}", self.code())]
pub enum Cause {
    /// Recovery finds this fault in it.
    Fault(VolumeFault),
    /// It recovers to a volume that isn't legal.
    Illegal,
}

impl Cause {
    ghost use Rattle.std.specs.Prelude.{◌≡◌};
    ghost use Rattle.image_check.specs.Codes.{cause_code};

    /// The code of the fault, N1 to N9, or `illegal`.
    pub fn code(self) -> &'static str
        ensures { result.now ≡ cause_code self }
    {
        match self {
            Cause::Fault(fault) => fault.code(),
            Cause::Illegal => "illegal",
        }
    }
}
