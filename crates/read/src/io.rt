ghost use Rattle.std.specs.Prelude.{◌≡◌, ◌+◌, ◌<◌, ◌≤◌, false, cond, is_some, length, option_to_list, None};
ghost use Rattle.source.specs.Bytes.{Octets};
ghost use Rattle.read.specs.declared.io.TheConstants.{STOP};
ghost use Rattle.read.specs.Held.{Fetch, FetchOne};
ghost use Rattle.read.specs.Sound.{io_view, io_sound};

use super::{DeRead, Fault, Taken, allow, passes};
use source::{Source, read_exact};

// 2^60 + 16: a body that ends by 2^60 and the header before it stay below.
const STOP: usize = (1 << 60) + 16;

/// Reads any source and copies its bytes. It stops at a count of 2^60 + 16.
#[derive(Drop)]
pub struct IoRead<S: Source> {
    source: S,
    read_count: usize,
    // The byte that was peeked and not taken yet.
    peeked: Option<u8>,
    ghost octet: { Octets (option_to_list peeked) },
    ghost before: { read_count + length (option_to_list peeked) ≤ STOP },
}

// The source's next byte.
fn fetch_one<S: Source>(source: &mut S) -> Result<u8, Fault>
    ensures { FetchOne (S.Source.feed source.old) result (S.Source.feed source.new) }
{
    let mut one = [0u8; 1];
    read_exact(source, &mut one)?;
    Ok(one[0])
}

// Fills the part of the buffer straight from the source, behind a byte that was held. A part that
// the source could not fill is zeroed.
fn fetch<S: Source>(source: &mut S, held: Option<u8>, part: &mut [u8]) -> Result<(), Fault>
    requires { length (option_to_list held) ≤ length part.old }
    ensures { Fetch held (S.Source.feed source.old) part.old result (S.Source.feed source.new) part.new }
{
    let mut filled = 0;
    if let Some(byte) = held {
        part[0] = byte;
        filled = 1;
    }
    if let Err(short) = read_exact(source, &mut part[filled..]) {
        part.fill(0);
        return Err(short.into());
    }
    Ok(())
}

impl<S: Source> IoRead<S> {
    pub fn new(source: S) -> IoRead<S>
        ensures { (result.source ≡ source) × (result.read_count ≡ 0) × (result.peeked ≡ None) }
    {
        IoRead {
            source,
            read_count: 0,
            peeked: None,
        }
    }
}

impl<S: Source> DeRead for IoRead<S> {
    ghost view = { λ s. io_view (S.Source.feed s.source) s.peeked s.read_count };

    ghost lends = { false };

    ghost reach = { λ s. cond (is_some s.peeked) 0 (S.Source.reach s.source) };

    ghost sound = { λ s. io_sound (S.Source.feed s.source) s.peeked s.read_count (S.Source.sound s.source) s.octet s.before };

    fn peek(&mut self) -> Result<u8, Fault> {
        allow(Some(STOP), self.read_count, 1, Fault::Stop)?;
        if let Some(b) = self.peeked {
            return Ok(b);
        }
        let b = fetch_one(&mut self.source)?;
        self.peeked = Some(b);
        Ok(b)
    }

    fn read_count(&self) -> usize {
        self.read_count
    }

    fn discard(&mut self) {
        if self.peeked.take().is_some() {
            self.read_count += 1; // a byte counts once it is taken
        }
    }

    // Behind a byte that was peeked nothing is at hand: it stands by itself.
    fn ahead(&self) -> &[u8] {
        match self.peeked {
            Some(_) => &[],
            None => self.source.ahead(),
        }
    }

    fn pass(&mut self, n: usize) -> bool {
        if passes(Some(STOP), self.read_count, n) {
            return false;
        }
        let passed = match self.peeked {
            Some(_) => n == 0,
            None => self.source.pass(n),
        };
        if passed {
            self.read_count += n;
        }
        passed
    }

    fn next_bytes(&mut self, n: usize, buf: &mut [u8]) -> Result<Taken, Fault> {
        allow(Some(STOP), self.read_count, n, Fault::Stop)?;
        // A test and no `get_mut`, whose contract does not say what the buffer ends as.
        if n > buf.len() {
            return Err(Fault::Room);
        }
        if n == 0 {
            return Ok(Taken::Copied);
        }
        fetch(&mut self.source, self.peeked, &mut buf[..n])?;
        self.peeked = None;
        self.read_count += n;
        Ok(Taken::Copied)
    }

    fn kept_part(&self, place: usize, n: usize) -> Option<&[u8]> {
        None
    }

    fn lends(&self) -> bool {
        false
    }
}
