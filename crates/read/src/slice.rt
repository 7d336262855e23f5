ghost use Rattle.std.specs.Prelude.{◌≡◌, ◌+◌, ◌<◌, ◌≤◌, true, false, length};
ghost use Rattle.source.specs.Bytes.{Octets};

use super::{DeRead, Fault, Taken, part_of};

/// Reads a slice and lends its bytes. It has no stop.
#[derive(Clone, Copy)]
pub struct SliceRead<'a> {
    slice: &'a [u8],
    index: usize,
    // A flag and no `Option` of the byte: the byte stands in the slice, and its double would have
    // to be kept the same.
    peeked: bool,
    ghost octets: { Octets slice.now },
    ghost long: { length slice.now ≤ 9223372036854775807 },
    ghost within: { index ≤ length slice.now },
    ghost held: { (peeked ≡ true → index < length slice.now) },
}

impl<'a> SliceRead<'a> {
    ghost use Rattle.read.specs.Reader.{advanced};
    ghost use Rattle.read.specs.Slice.{slice_view};

    pub fn new(slice: &'a [u8]) -> SliceRead<'a>
        ensures { (result.slice.now ≡ slice.now) × (result.index ≡ 0) × (result.peeked ≡ false) }
    {
        SliceRead {
            slice,
            index: 0,
            peeked: false,
        }
    }

    fn coming(&self) -> &[u8]
        ensures { result.now ≡ (slice_view self.now).coming }
    {
        &self.slice[self.index..]
    }

    fn taken(&self) -> &[u8]
        ensures { result.now ≡ (slice_view self.now).kept }
    {
        &self.slice[..self.index]
    }

    // Takes n bytes, which are there.
    fn advance(&mut self, n: usize)
        requires { n ≤ length (slice_view self.old).coming }
        ensures { slice_view self.new ≡ advanced true n (slice_view self.old) }
    {
        if n > 0 {
            self.index += n;
            self.peeked = false;
        }
    }
}

impl<'a> DeRead for SliceRead<'a> {
    ghost use Rattle.read.specs.Slice.{slice_view, slice_sound};

    ghost view = { slice_view };

    ghost lends = { true };

    ghost reach = { λ s. length (slice_view s).coming };

    ghost sound = { slice_sound };

    fn peek(&mut self) -> Result<u8, Fault> {
        let b = *self.coming().first().ok_or(Fault::Short)?;
        self.peeked = true;
        Ok(b)
    }

    fn read_count(&self) -> usize {
        self.index
    }

    fn discard(&mut self) {
        if self.peeked {
            self.advance(1);
        }
    }

    fn ahead(&self) -> &[u8] {
        self.coming()
    }

    fn pass(&mut self, n: usize) -> bool {
        let there = n <= self.coming().len();
        if there {
            self.advance(n);
        }
        there
    }

    fn next_bytes(&mut self, n: usize, buf: &mut [u8]) -> Result<Taken, Fault> {
        if n > self.coming().len() {
            return Err(Fault::Short);
        }
        let place = self.index;
        self.advance(n);
        Ok(Taken::Lent(place))
    }

    fn kept_part(&self, place: usize, n: usize) -> Option<&[u8]> {
        part_of(self.taken(), place, n)
    }

    fn lends(&self) -> bool {
        true
    }
}
