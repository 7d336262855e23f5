ghost use Rattle.std.specs.Prelude.{◌≡◌, ◌+◌};
ghost use Rattle.read.specs.declared.Fault.TheVariants.{Stop};
ghost use Rattle.read.specs.Reader.{past, allowed, fenced};
ghost use Rattle.read.specs.Sound.{fence_sound};

use super::{DeRead, Fault, Taken, allow};

/// A reader with a stop of its own over any reader: the smaller of the two stops holds, and all
/// else is as below.
#[derive(Drop)]
pub struct Fence<R: DeRead> {
    below: R,
    stop: usize,
}

impl<R: DeRead> Fence<R> {
    pub fn new(below: R, stop: usize) -> Fence<R>
        ensures { (result.below ≡ below) × (result.stop ≡ stop) }
    {
        Fence { below, stop }
    }

    /// Takes the fence off again.
    pub fn into_inner(self) -> R
        ensures { result ≡ self.below }
    {
        let Fence { below, stop: _ } = self;
        below
    }

    // A read of n bytes may not pass the fence.
    fn allow(&self, n: usize) -> Result<(), Fault>
        ensures { result ≡ allowed (past (Some self.now.stop) ((R.DeRead.view self.now.below).count + n)) Stop }
    {
        allow(Some(self.stop), self.below.read_count(), n, Fault::Stop)
    }
}

impl<R: DeRead> DeRead for Fence<R> {
    ghost view = { λ s. fenced s.stop (R.DeRead.view s.below) };

    ghost lends = { R.DeRead.lends };

    ghost reach = { λ s. R.DeRead.reach s.below };

    ghost sound = { λ s. fence_sound R.DeRead.lends s.stop (R.DeRead.view s.below) (R.DeRead.sound s.below) };

    fn peek(&mut self) -> Result<u8, Fault> {
        self.allow(1)?;
        self.below.peek()
    }

    fn read_count(&self) -> usize {
        self.below.read_count()
    }

    fn discard(&mut self) {
        self.below.discard();
    }

    fn ahead(&self) -> &[u8] {
        self.below.ahead()
    }

    fn pass(&mut self, n: usize) -> bool {
        self.allow(n).is_ok() && self.below.pass(n)
    }

    fn next_bytes(&mut self, n: usize, buf: &mut [u8]) -> Result<Taken, Fault> {
        self.allow(n)?;
        self.below.next_bytes(n, buf)
    }

    fn kept_part(&self, place: usize, n: usize) -> Option<&[u8]> {
        self.below.kept_part(place, n)
    }

    fn lends(&self) -> bool {
        self.below.lends()
    }
}
