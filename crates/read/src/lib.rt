//! Readers: bytes that are taken one by one or several at once, and counted.
#![tactic(auto)]

ghost use Rattle.std.specs.Prelude.{◌≡◌, ℕ, ◌+◌, Bool, take, Some, None, MatchOption};
ghost use Rattle.read.specs.Assured.{EveryReader};
ghost use Rattle.read.specs.Reader.{View, Sound, past, fault_of, Peek, Next, discarded, NextBytes, PassedOver, kept_at, part_of, lent_part, allowed};

use source::{FillError, SourceFault};

pub mod fence;
pub mod io;
pub mod slice;

/// Why a request for bytes is refused.
#[derive(Clone, Copy, PartialEq, Eq, Debug)]
pub enum Fault {
    /// The request passes the reader's stop.
    Stop,
    /// The buffer is shorter than the request.
    Room,
    /// Too few bytes come before a clean end.
    Short,
    /// Too few bytes come before the source's fault.
    Source(SourceFault),
}

impl From<FillError> for Fault {
    ghost from_gives = { λ e fault. fault ≡ fault_of e };

    fn from(e: FillError) -> Fault {
        match e {
            FillError::End => Fault::Short,
            FillError::Fault(fault) => Fault::Source(fault),
        }
    }
}

/// Whether a read of n bytes at this count passes a stop.
pub fn passes(stop: Option<usize>, at: usize, n: usize) -> bool
    ensures { result ≡ past stop (at + n) }
{
    stop.is_some_and(|stop| stop.checked_sub(at).is_none_or(|left| n > left))
}

/// So many bytes from a place on, if they are there.
pub fn part_of(bytes: &[u8], place: usize, n: usize) -> Option<&[u8]>
    ensures { MatchOption result (part_of bytes.now place n ≡ None) (λ s. part_of bytes.now place n ≡ Some s.now) }
{
    bytes.get(place..)?.get(..n)
}

/// This error where a read of n bytes at this count passes a stop.
pub fn allow<E: Drop>(stop: Option<usize>, at: usize, n: usize, error: E) -> Result<(), E>
    ensures { result ≡ allowed (past stop (at + n)) error }
{
    if passes(stop, at, n) {
        Err(error)
    } else {
        Ok(())
    }
}

/// Where bytes lie that were taken.
#[derive(Clone, Copy, PartialEq, Eq, Debug)]
pub enum Taken {
    /// They are lent: kept by the reader from this place on.
    Lent(usize),
    // No `Option` of a place: its `None` would say that nothing was taken.
    /// They are copied to the front of the buffer.
    Copied,
}

/// A reader. Its meaning is one record: the bytes to come, the ending, the count of bytes taken,
/// the stop, whether a byte is peeked, and the bytes kept.
pub trait DeRead {
    ghost view: { Self → View };

    // A fact of the kind and not a part of the view, where each call would have to say that it stays.
    /// Whether this kind of reader lends what it takes or copies it.
    ghost lends: { Bool };

    // A number of the reader and no part of its meaning: nothing that is read depends on it.
    /// How many of the bytes to come the reader has at hand.
    ghost reach: { Self → ℕ };

    ghost sound: { (s : Self) → Sound lends (view s) };

    /// Takes the next byte, the peeked one where there is one.
    fn next(&mut self) -> Result<u8, Fault>
        ensures { Next lends (view self.old) result (view self.new) }
    {
        let b = self.peek()?;
        self.discard();
        Ok(b)
    }

    /// Shows the next byte, which stays to come.
    fn peek(&mut self) -> Result<u8, Fault>
        ensures { Peek (view self.old) result (view self.new) };

    /// How many bytes were taken. A peeked byte is not counted.
    fn read_count(&self) -> usize
        ensures { result ≡ (view self.now).count };

    /// Takes the peeked byte, and nothing where none is peeked.
    fn discard(&mut self)
        ensures { view self.new ≡ discarded lends (view self.old) };

    /// The bytes to come that are at hand, of which none is taken.
    fn ahead(&self) -> &[u8]
        ensures { result.now ≡ take (reach self.now) (view self.now).coming };

    /// Takes n bytes that are at hand and gives none of them. Where fewer are, or the stop lies before, it takes none.
    fn pass(&mut self, n: usize) -> bool
        ensures { PassedOver (reach self.old) lends (view self.old) n result (view self.new) };

    // The request and the room for it are two things: a refusal is about their difference.
    /// Takes n bytes, the peeked one first.
    fn next_bytes(&mut self, n: usize, buf: &mut [u8]) -> Result<Taken, Fault>
        ensures { NextBytes lends (view self.old) n buf.old result (view self.new) buf.new };

    /// The kept byte at a place, counted from the reader's start.
    fn kept(&self, place: usize) -> Option<u8>
        ensures { result ≡ kept_at (view self.now) place }
    {
        self.kept_part(place, 1)?.first().copied()
    }

    /// So many kept bytes from a place on, of a reader that lends.
    fn kept_part(&self, place: usize, n: usize) -> Option<&[u8]>
        ensures { MatchOption result (lent_part lends (view self.now) place n ≡ None) (λ s. lent_part lends (view self.now) place n ≡ Some s.now) };

    /// Whether this kind of reader lends what it takes.
    fn lends(&self) -> bool
        ensures { result ≡ lends };
}

/// Every reader gives bytes, keeps bytes, has the byte that it peeked, and tells a fault by its code.
pub fn every_reader_assures()
    ensures { EveryReader }
{}
