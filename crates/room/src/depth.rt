//! The levels of arrays, objects, templates and key lists.
ghost use Rattle.std.specs.Prelude.{◌≡◌, ◌+◌, ◌-◌, ◌<◌, ◌≤◌, nat_le};

/// How many levels may be open together.
pub const LEVELS: usize = 128;

/// How many levels are free.
#[derive(Clone, Copy, PartialEq, Eq, Debug)]
pub struct Depth {
    pub(crate) free: u8,
}

impl Depth {
    pub(crate) fn taken(self) -> usize
        requires { self.free ≤ 128 }
        ensures { result ≡ 128 - self.free }
    {
        LEVELS - usize::from(self.free)
    }

    // Whether a template and its key list have a level each.
    pub(crate) fn has_two(self) -> bool
        ensures { result ≡ nat_le 2 self.free }
    {
        self.free >= 2
    }

    // A template's own level and that of its key list are taken.
    pub(crate) fn below(self) -> Depth
        requires { 2 ≤ self.free }
        ensures { result ≡ record { free = self.free - 2 } }
    {
        Depth {
            free: self.free - 2,
        }
    }

    // The template's own level is given back until it begins.
    pub(crate) fn above(self) -> Depth
        requires { self.free < 255 }
        ensures { result ≡ record { free = self.free + 1 } }
    {
        Depth {
            free: self.free + 1,
        }
    }
}

/// A level that is taken. Its end gives the level back, on every way out.
pub(crate) struct Level<'d>(pub(crate) &'d mut Depth);

impl Drop for Level<'_> {
    fn drop(self)
        requires { self.0.now.free < 255 }
        ensures { self.exit.0.now.free ≡ self.entry.0.now.free + 1 }
    {
        self.0.free += 1;
        let Level(_) = self;
    }
}
