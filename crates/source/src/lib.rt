//! Sources: where bytes come from, some at a time, and how they end.
#![tactic(auto)]

ghost use Rattle.std.specs.Prelude.{◌≡◌, ℕ, length, take};
ghost use Rattle.source.specs.Examples.{SourceExamples};
ghost use Rattle.source.specs.Feed.{Feed, Sound, Read, Passed, Fill};

pub mod chain;
pub mod fault;
pub mod piece;
pub mod slice;

pub use fault::{FillError, SourceFault};

/// Stands in the place of `std::io::Read`. Its meaning is the bytes still to come and the ending.
pub trait Source {
    ghost feed: { Self → Feed };

    ghost sound: { (s : Self) → Sound (feed s) };

    /// How many of the bytes to come are at hand.
    ghost reach: { Self → ℕ };

    // 0 and no `Option` where nothing is given, as `std::io::Read` has it.
    /// Reads some bytes to the buffer's front and says how many: 0 into an empty buffer and at a
    /// clean end. A source that ends in a fault tells it each time.
    fn read(&mut self, buf: &mut [u8]) -> Result<usize, SourceFault>
        ensures { Read (feed self.old) buf.old result (feed self.new) buf.new };

    /// The bytes to come that are at hand, of which none is taken.
    fn ahead(&self) -> &[u8]
        ensures { result.now ≡ take (reach self.now) (feed self.now).bytes };

    /// Passes n bytes over that are at hand. Where fewer are, it passes none.
    fn pass(&mut self, n: usize) -> bool
        ensures { Passed (reach self.old) (feed self.old) n result (feed self.new) };
}

// In line, as `Chain::read` is: there the compiler knows that the buffer is not what is read from.
/// Fills the whole buffer, asking each time for all that is still wanted, or says how the source
/// ended first.
#[inline]
pub fn read_exact<S: Source>(source: &mut S, buf: &mut [u8]) -> Result<(), FillError>
    ensures { Fill (S.Source.feed source.old) buf.old result (S.Source.feed source.new) buf.new }
{
    // An index, as in Rattle's own `read_exact`. A `&mut` to what is left was tried, and the proof did
    // not close: no invariant ties it to the whole buffer. A recursion would take stack for each read.
    let mut filled = 0;
    while filled < buf.len() {
        match source.read(&mut buf[filled..])? {
            0 => return Err(FillError::End),
            n => filled += n,
        }
    }
    Ok(())
}

/// Worked examples of what comes of a source hold of its definitions.
pub fn examples_hold()
    ensures { SourceExamples }
{}
