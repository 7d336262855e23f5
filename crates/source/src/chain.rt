ghost use Rattle.std.specs.Prelude.{◌≡◌, [], length, take, None};
ghost use Rattle.source.specs.Feed.{Read, chained, giving};
ghost use Rattle.source.specs.Sound.{chain_sound};

use super::{Source, SourceFault};

/// Two sources, one after the other: a clean end of the first leads on to the second, a fault of
/// the first ends the chain.
#[derive(Drop)]
pub struct Chain<P: Source, Q: Source> {
    first: P,
    second: Q,
}

impl<P: Source, Q: Source> Chain<P, Q> {
    pub fn new(first: P, second: Q) -> Chain<P, Q>
        ensures { (result.first ≡ first) × (result.second ≡ second) }
    {
        Chain { first, second }
    }
}

impl<P: Source, Q: Source> Source for Chain<P, Q> {
    ghost feed = { λ s. chained (P.Source.feed s.first) (Q.Source.feed s.second) };

    ghost sound = { λ s. chain_sound (P.Source.feed s.first) (Q.Source.feed s.second) (P.Source.sound s.first) (Q.Source.sound s.second) };

    // The second is not asked before the first has ended.
    ghost reach = { λ s. length (take (P.Source.reach s.first) (P.Source.feed s.first).bytes) };

    fn ahead(&self) -> &[u8] {
        self.first.ahead()
    }

    fn pass(&mut self, n: usize) -> bool {
        self.first.pass(n)
    }

    #[inline]
    fn read(&mut self, buf: &mut [u8]) -> Result<usize, SourceFault>
        ensures reads { Read (chained (P.Source.feed self.old.first) (Q.Source.feed self.old.second)) buf.old result (chained (P.Source.feed self.new.first) (Q.Source.feed self.new.second)) buf.new }
        ensures same { (P.Source.feed self.old.first ≡ giving [] None → ⊥) → self.new.second ≡ self.old.second }
    {
        if buf.is_empty() {
            return Ok(0);
        }
        match self.first.read(buf)? {
            0 => self.second.read(buf),
            n => Ok(n),
        }
    }
}
