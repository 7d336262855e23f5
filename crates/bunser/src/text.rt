//! Bytes and texts, in one read each, and where they lie afterwards.
ghost use Rattle.std.specs.Prelude.{◌≡◌, ◌≤◌, length, take, replicate, Some, None, MatchOption, MatchResult};
ghost use Rattle.utf8.specs.Utf8.{utf8};
ghost use Rattle.read.specs.declared.Taken.TheVariants as taken_as;
ghost use Rattle.read.specs.Reader.{room, put};
ghost use Rattle.format.specs.declared.refusal.ReadError.TheVariants.{Room};
ghost use Rattle.bunser.specs.Outcome.{at, asked, Tells, TellsAt, BodyRead};
ghost use Rattle.bunser.specs.Texts.{checked, begins_key, placed_count, key_length_read, text_read, text_fronts, spanned, referred, is_lent, bytes_of, is_borrowed, is_text};

use super::{Bunser, placed};
use format::refusal::{Kind, ReadError, Refusal};
use format::tags::Tag;
use read::{DeRead, Taken, part_of};
use utf8::is_utf8;

/// What a text is, whose tag and length were taken.
#[derive(Clone, Copy, PartialEq, Eq, Debug)]
pub enum TextKind {
    Bytes,
    Text,
    Key,
}

impl TextKind {
    /// Whether the bytes have to be UTF-8.
    pub fn is_checked(self) -> bool
        ensures { result ≡ checked self }
    {
        !matches!(self, TextKind::Bytes)
    }
}

/// A text whose tag and length were taken, and whose event has not passed.
#[derive(Clone, Copy, PartialEq, Eq, Debug)]
pub struct Unread {
    pub kind: TextKind,
    pub len: usize,
}

/// Where the bytes of a text lie, and how many they are.
#[derive(Clone, Copy, PartialEq, Eq, Debug)]
pub struct Span {
    pub taken: Taken,
    pub len: usize,
}

/// The bytes of a text, as a part of what the reader lends or of the text buffer.
#[derive(Clone, Copy)]
pub enum Reference<'b, 'c> {
    Borrowed(&'b [u8]),
    Copied(&'c [u8]),
}

impl<'b, 'c> Reference<'b, 'c> {
    /// The bytes themselves, wherever they lie.
    pub fn bytes(&self) -> &[u8]
        ensures { result.now ≡ bytes_of self.now }
    {
        match self {
            Reference::Borrowed(bytes) => bytes,
            Reference::Copied(bytes) => bytes,
        }
    }

    pub fn len(&self) -> usize
        ensures { result ≡ length (bytes_of self.now) }
    {
        self.bytes().len()
    }

    pub fn is_utf8(&self) -> bool
        ensures { result ≡ utf8 (bytes_of self.now) }
    {
        is_utf8(self.bytes())
    }
}

fn begins_key(tag: u8) -> bool
    ensures { result ≡ begins_key tag }
{
    matches!(Tag::try_from(tag), Ok(Tag::ByteString | Tag::Utf8String))
}

// A text that is refused does not stay in the buffer.
fn wipe(span: Span, buf: &mut [u8])
    requires { span.taken ≡ taken_as.Copied → span.len ≤ length buf.old }
    ensures { buf.new ≡ put (is_lent span.taken) (replicate span.len 0) buf.old }
{
    if let Taken::Copied = span.taken {
        buf[..span.len].fill(0);
    }
}

impl<R: DeRead> Bunser<R> {
    /// The bytes of a text that was read, where the reader keeps them or where the buffer has them.
    pub fn reference<'b, 'c>(
        &'b self,
        span: Span,
        buf: &'c [u8],
    ) -> Result<Reference<'b, 'c>, ReadError>
        ensures { MatchResult result (λ x. (referred R.DeRead.lends (R.DeRead.view self.now.read) span buf.now ≡ Some (bytes_of x)) × (is_borrowed x ≡ is_lent span.taken)) (λ e. (referred R.DeRead.lends (R.DeRead.view self.now.read) span buf.now ≡ None) × (e ≡ Room)) }
    {
        let n = span.len;
        // Each arm has a `?` of its own: with one behind the `match` the check did not prove the borrows.
        match span.taken {
            Taken::Lent(place) => {
                let part = self.read.kept_part(place, n).ok_or(ReadError::Room)?;
                Ok(Reference::Borrowed(part))
            }
            Taken::Copied => {
                let part = buf.get(..n).ok_or(ReadError::Room)?;
                Ok(Reference::Copied(part))
            }
        }
    }

    /// The bytes of a text, as a part of the input or of the text buffer.
    pub fn part<'r>(&self, span: Span, input: &'r [u8], buf: &'r [u8]) -> Result<&'r [u8], Refusal>
        ensures { MatchResult result (λ s. spanned span input.now buf.now ≡ Some s.now) (λ f. (spanned span input.now buf.now ≡ None) × (f ≡ at Room (R.DeRead.view self.now.read).count)) }
    {
        let (bytes, place) = match span.taken {
            Taken::Lent(place) => (input, place),
            Taken::Copied => (buf, 0),
        };
        part_of(bytes, place, span.len).ok_or(ReadError::Room.at(self.read_count()))
    }

    /// The next integer as a count; a refusal is placed at its tag.
    pub fn placed_count<const COPY: usize>(&mut self) -> Result<usize, Refusal>
        ensures { BodyRead R.DeRead.view self.old self.new (λ end v. TellsAt (placed_count R.DeRead.lends end v) result) }
    {
        let place = self.read_count();
        placed(self.next_count::<COPY>(), place)
    }

    /// The length of the key that comes next, whose tag is taken once it is known to begin a key.
    pub fn key_len(&mut self, kind: Kind) -> Result<usize, Refusal>
        ensures { BodyRead R.DeRead.view self.old self.new (λ end v. TellsAt (key_length_read R.DeRead.lends end kind v) result) }
    {
        let place = self.read_count();
        let tag = placed(self.peek(), place)?;
        if !begins_key(tag) {
            return Err(ReadError::Byte(kind, tag).at(place));
        }
        self.discard();
        self.placed_count::<0>()
    }

    // Whether the bytes that were taken are UTF-8.
    fn is_text(&self, span: Span, buf: &[u8]) -> bool
        ensures { result ≡ is_text (referred R.DeRead.lends (R.DeRead.view self.now.read) span buf.now) }
    {
        self.reference(span, buf)
            .is_ok_and(|reference| reference.is_utf8())
    }

    // The request and the room are two things, as in `next_bytes`.
    /// Takes a text of n bytes in one read. It has to be UTF-8, and is taken either way.
    pub fn next_text(&mut self, n: usize, buf: &mut [u8]) -> Result<Taken, ReadError>
        ensures reads { BodyRead R.DeRead.view self.old self.new (λ end v. Tells (text_read R.DeRead.lends end (room R.DeRead.lends buf.old) n v) result) }
        ensures puts { buf.new ≡ put R.DeRead.lends (text_fronts (asked self.old.end (R.DeRead.view self.old.read) (room R.DeRead.lends buf.old) n) (utf8 (take n (R.DeRead.view self.old.read).coming)) n (R.DeRead.view self.old.read)) buf.old }
    {
        let taken = self.read_bytes(n, buf)?;
        let span = Span { taken, len: n };
        if self.is_text(span, buf) {
            return Ok(taken);
        }
        wipe(span, buf);
        Err(ReadError::NotText)
    }
}
