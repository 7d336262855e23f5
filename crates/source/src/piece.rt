ghost use Rattle.std.specs.Prelude.{◌≡◌, max, length};
ghost use Rattle.source.specs.Feed.{Coded, Read, giving, portioned};

use super::{Source, SourceFault};
use crate::slice::SliceSource;

/// At most `most` bytes of a slice at a time, and then any ending.
#[derive(Clone, Copy)]
pub struct PieceSource<'a> {
    slice: SliceSource<'a>,
    most: usize,
    ending: Option<SourceFault>,
    ghost coded: { Coded ending },
}

impl<'a> PieceSource<'a> {
    /// A piece of 0 bytes counts as one of 1; the ending is a fault, or a clean one where there is none.
    pub fn new(slice: &'a [u8], most: usize, ending: Option<SourceFault>) -> PieceSource<'a>
        ensures { (result.slice.rest.now ≡ slice.now) × (result.most ≡ most) × (result.ending ≡ ending) }
    {
        PieceSource {
            slice: SliceSource::new(slice),
            most,
            ending,
        }
    }
}

impl<'a> Source for PieceSource<'a> {
    ghost feed = { λ s. giving s.slice.rest.now s.ending };

    ghost sound = { λ s. record { octets = s.slice.octets; coded = s.coded } };

    ghost reach = { λ s. max s.most 1 };

    fn ahead(&self) -> &[u8] {
        let all = self.slice.ahead();
        all.get(..self.most.max(1)).unwrap_or(all)
    }

    fn pass(&mut self, n: usize) -> bool {
        n <= self.most.max(1) && self.slice.pass(n)
    }

    fn read(&mut self, buf: &mut [u8]) -> Result<usize, SourceFault>
        ensures reads { Read (giving self.old.slice.rest.now self.old.ending) buf.old result (giving self.new.slice.rest.now self.new.ending) buf.new }
        ensures few { result ≡ portioned (max self.old.most 1) (giving self.old.slice.rest.now self.old.ending) (length buf.old) }
        ensures same { self.new.most ≡ self.old.most }
    {
        if buf.is_empty() {
            return Ok(0);
        }
        match self.slice.give(self.most.max(1), buf) {
            0 => self.ending.map_or(Ok(0), Err),
            n => Ok(n),
        }
    }
}
