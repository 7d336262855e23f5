//! The declared end of a body.
ghost use Rattle.std.specs.Prelude.{◌≡◌, ◌+◌, ◌<◌, ◌≤◌, Some, None};
ghost use Rattle.read.specs.Reader.{past};

use std::marker::Model;

const FEW: usize = 256;

// A number and no `Option` of one, as each read asks for it.
/// The count that no read passes, where one is declared.
#[derive(Drop)]
pub(crate) struct BodyEnd {
    stop: usize,
}

impl Model for BodyEnd {
    ghost use Rattle.std.specs.Prelude.{ℕ, Option};

    ghost Value = { Option ℕ };

    ghost use Rattle.bunser.specs.Ends.{declared};

    ghost view = { declared };
}

impl BodyEnd {
    pub(crate) fn none() -> BodyEnd
        ensures { result ≡ None }
    {
        BodyEnd { stop: usize::MAX }
    }

    pub(crate) fn at(stop: usize) -> BodyEnd
        requires { stop < 18446744073709551615 }
        ensures { result ≡ Some stop }
    {
        BodyEnd { stop }
    }

    // Few bytes are asked for most often, and none passes the greatest number by them: no reader counts so far.
    /// Whether a read of n bytes at this count passes it.
    pub(crate) fn is_passed(&self, at: usize, n: usize) -> bool
        requires { at ≤ 9223372036854775807 }
        ensures { result ≡ past self.now (at + n) }
    {
        match self.stop.checked_sub(at) {
            Some(left) if n <= left => false,
            _ => n <= FEW || self.stop != usize::MAX,
        }
    }
}
