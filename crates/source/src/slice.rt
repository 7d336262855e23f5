ghost use Rattle.std.specs.Prelude.{◌≡◌, min, None, length, take, drop};
ghost use Rattle.source.specs.Bytes.{Octets};
ghost use Rattle.source.specs.Feed.{Read, fronted, giving, portioned};
ghost use Rattle.source.specs.Sound.{clean_coded};

use super::{Source, SourceFault};

/// The bytes of a slice, as many at a time as fit, and a clean end.
#[derive(Clone, Copy)]
pub struct SliceSource<'a> {
    rest: &'a [u8],
    ghost octets: { Octets rest.now },
}

impl<'a> SliceSource<'a> {
    pub fn new(slice: &'a [u8]) -> SliceSource<'a>
        ensures { result.rest.now ≡ slice.now }
    {
        SliceSource { rest: slice }
    }

    /// Gives at most so many bytes, as many as are left and fit.
    pub(crate) fn give(&mut self, most: usize, buf: &mut [u8]) -> usize
        ensures gives { result ≡ min most (min (length buf.old) (length self.old.rest.now)) }
        ensures takes { self.new.rest.now ≡ drop result self.old.rest.now }
        ensures puts { buf.new ≡ fronted (take result self.old.rest.now) buf.old }
    {
        // The whole buffer is filled by a copy of its own, which is one move where its length is known.
        let n = buf.len();
        if n <= most && n <= self.rest.len() {
            let (front, rest) = self.rest.split_at(n);
            buf.copy_from_slice(front);
            self.rest = rest;
            return n;
        }
        // Nothing is left of the first part of a chain for as long as its second part gives.
        if self.rest.is_empty() {
            return 0;
        }
        let n = n.min(most).min(self.rest.len());
        let (front, rest) = self.rest.split_at(n);
        buf[..n].copy_from_slice(front);
        self.rest = rest;
        n
    }
}

impl<'a> Source for SliceSource<'a> {
    ghost feed = { λ s. giving s.rest.now None };

    ghost sound = { λ s. record { octets = s.octets; coded = clean_coded } };

    ghost reach = { λ s. length s.rest.now };

    fn ahead(&self) -> &[u8] {
        self.rest
    }

    fn pass(&mut self, n: usize) -> bool {
        let Some(rest) = self.rest.get(n..) else {
            return false;
        };
        self.rest = rest;
        true
    }

    fn read(&mut self, buf: &mut [u8]) -> Result<usize, SourceFault>
        ensures reads { Read (giving self.old.rest.now None) buf.old result (giving self.new.rest.now None) buf.new }
        ensures all { result ≡ portioned (length self.old.rest.now) (giving self.old.rest.now None) (length buf.old) }
    {
        Ok(self.give(usize::MAX, buf))
    }
}
