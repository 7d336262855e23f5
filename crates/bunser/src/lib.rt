//! Numbers, texts and the header of a PDU, over any reader.
#![tactic(auto)]

ghost use Rattle.std.specs.Prelude.{◌≡◌, ◌+◌, ◌≤◌, false, cond, take, IfOk, Some, None};
ghost use Rattle.read.specs.Reader.{past, allowed, room, put, advanced, discarded, passable};
ghost use Rattle.format.specs.declared.refusal.ReadError.TheVariants.{End};
ghost use Rattle.bunser.specs.Outcome.{asked, placed_result, LeavesAsItWas, Tells, TellsAt, BodyRead};
ghost use Rattle.bunser.specs.Reads.{peek_read, bytes_read, fronts, lent_or, array_read, int_read, real_read, int_width, tagged_int_read, count_of, count_read, magical, magic_read, flags_read, capabilities_read, length_read, header_read, end_of};

use crate::end::BodyEnd;
use format::refusal::{Kind, ReadError, Refusal};
use format::tags::{FARTHEST, MAGIC};
use format::width::Width;
use read::{DeRead, Taken, passes};

mod end;
pub mod passing;
pub mod text;

/// What the header of a PDU declares.
#[derive(Clone, Copy, PartialEq, Eq, Debug)]
pub struct Header {
    /// Four bytes of flags, of which this library uses none.
    pub capabilities: u32,
    /// The count at which the body begins.
    pub start: usize,
    /// How many bytes the body has.
    pub length: usize,
}

/// Reads of the format over any reader. Within a body no read passes the declared end.
#[derive(Drop)]
pub struct Bunser<R: DeRead> {
    read: R,
    end: BodyEnd,
}

// Copies what was lent. Bytes that were copied stand there already.
fn copy_lent<R: DeRead>(read: &R, taken: Taken, bytes: &mut [u8])
    ensures { bytes.new ≡ lent_or R.DeRead.lends (R.DeRead.view read.now) taken bytes.old }
{
    if let Taken::Lent(place) = taken
        && let Some(part) = read.kept_part(place, bytes.len())
    {
        bytes.copy_from_slice(part);
    }
}

// The width of the integer that this tag begins.
fn int_width(tag: u8) -> Result<Width, ReadError>
    ensures { result ≡ int_width tag }
{
    Width::of_tag(tag).ok_or(ReadError::Byte(Kind::Integer, tag))
}

// A count or a length is not negative.
fn count_of(value: i64) -> Result<usize, ReadError>
    ensures { result ≡ count_of value }
{
    usize::try_from(value).map_err(|_| ReadError::Negative)
}

fn is_magic(bytes: [u8; 2]) -> bool
    ensures { result ≡ magical bytes }
{
    bytes == MAGIC
}

// A value and no closure: the read stands where it is made, and only its refusal gets a place.
/// What a read that begins at this place has come to.
pub fn placed<T>(read: Result<T, ReadError>, place: usize) -> Result<T, Refusal>
    ensures { result ≡ placed_result place read }
{
    read.map_err(|error| error.at(place))
}

/// Every refusal but 3 and 4 leaves the reader as it was.
pub fn refusals_leave_the_reader()
    ensures { LeavesAsItWas }
{}

impl<R: DeRead> Bunser<R> {
    pub fn new(read: R) -> Bunser<R>
        ensures { (result.read ≡ read) × (result.end ≡ None) }
    {
        Bunser {
            read,
            end: BodyEnd::none(),
        }
    }

    /// Gives the reader back.
    pub fn into_inner(self) -> R
        ensures { result ≡ self.read }
    {
        let Bunser { read, end: _ } = self;
        read
    }

    /// How many bytes the reader has taken.
    pub fn read_count(&self) -> usize
        ensures { result ≡ (R.DeRead.view self.now.read).count }
    {
        self.read.read_count()
    }

    // A read of n bytes may not pass the declared end.
    fn allow(&self, n: usize) -> Result<(), ReadError>
        ensures { result ≡ allowed (past self.now.end ((R.DeRead.view self.now.read).count + n)) End }
    {
        if self.end.is_passed(self.read.read_count(), n) {
            return Err(ReadError::End);
        }
        Ok(())
    }

    /// Shows the next byte.
    pub fn peek(&mut self) -> Result<u8, ReadError>
        ensures { BodyRead R.DeRead.view self.old self.new (λ end v. Tells (peek_read end v) result) }
    {
        self.allow(1)?;
        Ok(self.read.peek()?)
    }

    /// Takes the byte that was shown.
    pub fn discard(&mut self)
        ensures { BodyRead R.DeRead.view self.old self.new (λ end v w. w ≡ discarded R.DeRead.lends v) }
    {
        self.read.discard();
    }

    /// The bytes to come that the reader has at hand, of which none is taken.
    pub fn ahead(&self) -> &[u8]
        ensures { result.now ≡ take (R.DeRead.reach self.now.read) (R.DeRead.view self.now.read).coming }
    {
        self.read.ahead()
    }

    /// Takes n bytes that are at hand and gives none of them. Where fewer are, or an end or a stop lies before, it takes none.
    pub fn pass(&mut self, n: usize) -> bool
        ensures tells { result ≡ cond (past self.old.end ((R.DeRead.view self.old.read).count + n)) false (passable (R.DeRead.reach self.old.read) (R.DeRead.view self.old.read) n) }
        ensures takes { BodyRead R.DeRead.view self.old self.new (λ end v w. w ≡ cond result (advanced R.DeRead.lends n v) v) }
    {
        self.allow(n).is_ok() && self.read.pass(n)
    }

    // The request and the room are two things, as in `next_bytes`.
    /// Takes n bytes in one read.
    pub fn read_bytes(&mut self, n: usize, buf: &mut [u8]) -> Result<Taken, ReadError>
        ensures reads { BodyRead R.DeRead.view self.old self.new (λ end v. Tells (bytes_read R.DeRead.lends end (room R.DeRead.lends buf.old) n v) result) }
        ensures puts { buf.new ≡ put R.DeRead.lends (fronts (asked self.old.end (R.DeRead.view self.old.read) (room R.DeRead.lends buf.old) n) n (R.DeRead.view self.old.read)) buf.old }
    {
        self.allow(n)?;
        Ok(self.read.next_bytes(n, buf)?)
    }

    // N bytes in one read. What a lending reader keeps is copied.
    fn read_array<const N: usize>(&mut self) -> Result<[u8; N], ReadError>
        ensures { BodyRead R.DeRead.view self.old self.new (λ end v. Tells (array_read R.DeRead.lends end N v) result) }
    {
        let mut bytes = [0u8; N];
        let taken = self.read_bytes(N, &mut bytes)?;
        copy_lent(&self.read, taken, &mut bytes);
        Ok(bytes)
    }

    // `COPY` changes nothing of what is read. Each caller that reads many integers has a copy of its own, which the compiler
    // lays out in line.
    /// The integer whose tag was taken, in one read.
    pub fn next_int<const COPY: usize>(&mut self, width: Width) -> Result<i64, ReadError>
        ensures { BodyRead R.DeRead.view self.old self.new (λ end v. Tells (int_read R.DeRead.lends end width v) result) }
    {
        Ok(match width {
            Width::W8 => i64::from(i8::from_le_bytes(self.read_array()?)),
            Width::W16 => i64::from(i16::from_le_bytes(self.read_array()?)),
            Width::W32 => i64::from(i32::from_le_bytes(self.read_array()?)),
            Width::W64 => i64::from_le_bytes(self.read_array()?),
        })
    }

    /// The real whose tag was taken, in one read: its eight bytes as one number.
    pub fn next_real(&mut self) -> Result<u64, ReadError>
        ensures { BodyRead R.DeRead.view self.old self.new (λ end v. Tells (real_read R.DeRead.lends end v) result) }
    {
        Ok(u64::from_le_bytes(self.read_array()?))
    }

    // The same for counts and lengths, of which most have one byte.
    fn next_short_int<const COPY: usize>(&mut self, width: Width) -> Result<i64, ReadError>
        ensures { BodyRead R.DeRead.view self.old self.new (λ end v. Tells (int_read R.DeRead.lends end width v) result) }
    {
        match width {
            Width::W8 => Ok(i64::from(i8::from_le_bytes(self.read_array()?))),
            _ => self.next_int::<0>(width),
        }
    }

    /// The next integer, of any width. The tag is taken once it is known to begin one.
    pub fn check_next_int<const COPY: usize>(&mut self) -> Result<i64, ReadError>
        ensures { BodyRead R.DeRead.view self.old self.new (λ end v. Tells (tagged_int_read R.DeRead.lends end v) result) }
    {
        let tag = self.peek()?;
        let width = int_width(tag)?;
        self.discard();
        self.next_short_int::<COPY>(width)
    }

    /// The next integer as a count or a length, which is not negative.
    pub fn next_count<const COPY: usize>(&mut self) -> Result<usize, ReadError>
        ensures { BodyRead R.DeRead.view self.old self.new (λ end v. Tells (count_read R.DeRead.lends end v) result) }
    {
        let value = self.check_next_int::<COPY>()?;
        count_of(value)
    }

    // The two bytes with which every PDU begins.
    fn read_magic(&mut self) -> Result<(), Refusal>
        ensures { BodyRead R.DeRead.view self.old self.new (λ end v. TellsAt (magic_read R.DeRead.lends end v) result) }
    {
        let place = self.read_count();
        let bytes = placed(self.read_array(), place)?;
        if !is_magic(bytes) {
            return Err(ReadError::Magic(bytes).at(place));
        }
        Ok(())
    }

    // Four bytes of flags as one number.
    fn read_flags(&mut self) -> Result<u32, ReadError>
        ensures { BodyRead R.DeRead.view self.old self.new (λ end v. Tells (flags_read R.DeRead.lends end v) result) }
    {
        Ok(u32::from_le_bytes(self.read_array()?))
    }

    #[tactic(auto, unfolding(crate::specs::Reads::capabilities_read))]
    fn read_capabilities(&mut self) -> Result<u32, Refusal>
        ensures { BodyRead R.DeRead.view self.old self.new (λ end v. TellsAt (capabilities_read R.DeRead.lends end v) result) }
    {
        let place = self.read_count();
        placed(self.read_flags(), place)
    }

    // The length of the body, which begins behind it.
    fn read_length(&mut self, capabilities: u32) -> Result<Header, Refusal>
        ensures { BodyRead R.DeRead.view self.old self.new (λ end v. TellsAt (length_read R.DeRead.lends end capabilities v) result) }
    {
        let place = self.read_count();
        let length = self.placed_count::<0>()?;
        let start = self.read_count();
        if passes(Some(FARTHEST), start, length) {
            return Err(ReadError::TooLong.at(place));
        }
        Ok(Header {
            capabilities,
            start,
            length,
        })
    }

    // The whole header, which stands before any declared end.
    fn read_header(&mut self) -> Result<Header, Refusal>
        requires { self.old.end ≡ None }
        ensures reads { TellsAt (header_read R.DeRead.lends (R.DeRead.view self.old.read)) result (R.DeRead.view self.new.read) }
        ensures bounds { IfOk result (λ h. h.start + h.length ≤ FARTHEST) }
        ensures same { self.new.end ≡ None }
    {
        self.read_magic()?;
        let capabilities = self.read_capabilities()?;
        self.read_length(capabilities)
    }

    /// Reads the header of a PDU. Once it is accepted no read passes the declared end of the body.
    pub fn read_pdu(&mut self) -> Result<Header, Refusal>
        ensures reads { TellsAt (header_read R.DeRead.lends (R.DeRead.view self.old.read)) result (R.DeRead.view self.new.read) }
        ensures bounds { self.new.end ≡ end_of result }
        ensures far { IfOk result (λ h. h.start + h.length ≤ FARTHEST) }
    {
        self.end = BodyEnd::none();
        let header = self.read_header()?;
        self.end = BodyEnd::at(header.start + header.length);
        Ok(header)
    }
}
