ghost use Rattle.std.specs.Prelude.{◌≡◌, ◌<◌, MatchOption};
ghost use Rattle.std.specs.Int.NonZero.{non_zero_u16_get};
ghost use Rattle.source.specs.declared.fault.FillError.TheVariants.{Fault};

use std::num::NonZeroU16;

/// A source's fault, with its code, which is not 0.
#[derive(Clone, Copy, PartialEq, Eq, Debug)]
pub struct SourceFault(NonZeroU16);

impl SourceFault {
    /// The fault with this code. There is none with the code 0.
    pub fn new(code: u16) -> Option<SourceFault>
        ensures { MatchOption result (code ≡ 0) (λ fault. non_zero_u16_get fault.0 ≡ code) }
    {
        NonZeroU16::new(code).map(SourceFault)
    }

    pub fn code(self) -> u16
        ensures value { result ≡ non_zero_u16_get self.0 }
        ensures some { 0 < result }
    {
        self.0.get()
    }
}

// An error and no `Option` of a fault: `?` turns it into what a reader says.
/// Why a buffer was not filled.
#[derive(Clone, Copy, PartialEq, Eq, Debug)]
pub enum FillError {
    /// The source came to its clean end first.
    End,
    /// The source has a fault.
    Fault(SourceFault),
}

impl From<SourceFault> for FillError {
    ghost from_gives = { λ fault e. e ≡ Fault fault };

    fn from(fault: SourceFault) -> FillError {
        FillError::Fault(fault)
    }
}
