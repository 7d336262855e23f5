ghost use Rattle.std.specs.Prelude.{◌≡◌};
ghost use Rattle.format.specs.Faults.{error_of};
ghost use Rattle.format.specs.Numbers.{number_of, read_number, layer_of, latching};
ghost use Rattle.format.specs.declared.refusal.Cause.TheVariants.{Read};

use read::Fault;
use source::SourceFault;

/// What was to begin where a byte was found that cannot begin it.
#[derive(Clone, Copy, PartialEq, Eq, Debug)]
pub enum Kind {
    Integer,
    NextItem,
    MapKey,
    KeyList,
    TemplateKey,
}

// The four of a reader's fault stand among the others, so that a refusal has one name and not three.
/// Why a read is refused.
#[derive(Clone, Copy, PartialEq, Eq, Debug)]
pub enum ReadError {
    /// The read passes the declared end of the body.
    End,
    /// The read passes the reader's stop, and no declared end.
    Stop,
    /// The text buffer is too short.
    Room,
    /// The data end before the read does.
    Short,
    /// The source has this fault.
    Source(SourceFault),
    /// These two bytes do not begin a PDU.
    Magic([u8; 2]),
    /// This byte cannot begin such an item.
    Byte(Kind, u8),
    /// A count or a length is negative.
    Negative,
    /// The declared body ends past 2^60.
    TooLong,
    /// The text is not UTF-8.
    NotText,
}

/// Why a call is refused.
#[derive(Clone, Copy, PartialEq, Eq, Debug)]
pub enum Cause {
    /// No PDU is open; of `open`, that one is.
    OutOfTurn,
    /// The token is not that of the open PDU.
    Token,
    /// A read was refused.
    Read(ReadError),
    /// All levels are taken.
    Depth,
    /// There is no key room left.
    KeyRoom,
    /// A template has rows and no keys.
    NoKeys,
    /// Not all events have passed.
    Unfinished,
    /// The body ends at this count, and not at the end expected.
    Length { expected: usize, count: usize },
}

/// The part of the program that refuses.
#[derive(Clone, Copy, PartialEq, Eq, Debug)]
pub enum Layer {
    Source,
    Reader,
    Decoder,
}

/// A refusal: its place in bytes from the reader's start, and its cause.
#[derive(Clone, Copy, PartialEq, Eq, Debug)]
pub struct Refusal {
    pub place: usize,
    pub cause: Cause,
}

impl Refusal {
    // A number and no enum: the cause is the enum, and this is what the documents call it.
    /// The number by which the documents name this refusal.
    pub fn number(&self) -> u8
        ensures { result ≡ number_of self.now.cause }
    {
        match self.cause {
            Cause::OutOfTurn => 1,
            Cause::Token => 2,
            Cause::Read(error) => error.number(),
            Cause::Depth => 10,
            Cause::KeyRoom => 11,
            Cause::NoKeys => 12,
            Cause::Unfinished => 15,
            Cause::Length { .. } => 16,
        }
    }

    /// The layer that refuses.
    pub fn layer(&self) -> Layer
        ensures { result ≡ layer_of self.now.cause }
    {
        match self.cause {
            Cause::Read(ReadError::Source(_)) => Layer::Source,
            Cause::Read(ReadError::Short | ReadError::Stop) => Layer::Reader,
            _ => Layer::Decoder,
        }
    }

    /// Whether later calls give this refusal again.
    pub fn latches(&self) -> bool
        ensures { result ≡ latching self.now.cause }
    {
        !matches!(
            self.cause,
            Cause::OutOfTurn | Cause::Token | Cause::Read(ReadError::Room)
        )
    }
}

impl ReadError {
    // A number and no enum: the error is the enum, and this is what the documents call it.
    /// The number by which the documents name this refusal.
    pub fn number(self) -> u8
        ensures { result ≡ read_number self }
    {
        match self {
            ReadError::Short => 3,
            ReadError::Source(_) => 4,
            ReadError::Magic(_) => 5,
            ReadError::Byte(_, _) => 6,
            ReadError::Negative => 7,
            ReadError::TooLong => 8,
            ReadError::End | ReadError::Stop => 9,
            ReadError::NotText => 13,
            ReadError::Room => 14,
        }
    }

    /// The refusal of a read that begins at this place.
    pub fn at(self, place: usize) -> Refusal
        ensures { result ≡ record { place = place; cause = Read self } }
    {
        Refusal {
            place,
            cause: Cause::Read(self),
        }
    }
}

impl From<Fault> for ReadError {
    ghost from_gives = { λ fault error. error ≡ error_of fault };

    fn from(fault: Fault) -> ReadError {
        match fault {
            Fault::Stop => ReadError::Stop,
            Fault::Room => ReadError::Room,
            Fault::Short => ReadError::Short,
            Fault::Source(fault) => ReadError::Source(fault),
        }
    }
}
