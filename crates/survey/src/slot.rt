//! An event in plain numbers, for callers that know no enum of Rattle.
ghost use Rattle.std.specs.Prelude.{◌≡◌};
ghost use Rattle.survey.specs.Slots.{bits_of, place_of, bare, spanned, slot_of};

use bunser::text::Span;
use de::event::Event;
use format::width::Width;
use read::Taken;

/// An event. What it has no use for is 0.
#[repr(C)]
#[derive(Clone, Copy, PartialEq, Eq, Debug)]
pub struct Slot {
    /// Which event it is, from 1 to 13 in the order of `Event`.
    pub kind: u32,
    /// How many bits an integer has.
    pub width: u32,
    /// An integer, as two's complement in 64 bits, or the eight bytes of a real as one number.
    pub value: u64,
    /// Where the bytes of a key, a byte string or a text begin in the table.
    pub place: usize,
    /// How many bytes they are.
    pub length: usize,
}

fn bits(width: Width) -> u32
    ensures { result ≡ bits_of width }
{
    match width {
        Width::W8 => 8,
        Width::W16 => 16,
        Width::W32 => 32,
        Width::W64 => 64,
    }
}

fn place(taken: Taken) -> usize
    ensures { result ≡ place_of taken }
{
    match taken {
        Taken::Lent(place) => place,
        Taken::Copied => 0,
    }
}

impl Slot {
    // An event of this kind that is only its kind.
    fn bare(kind: u32) -> Slot
        ensures { result ≡ bare kind }
    {
        Slot {
            kind,
            width: 0,
            value: 0,
            place: 0,
            length: 0,
        }
    }

    // An event of this kind whose bytes lie here.
    fn spanned(kind: u32, span: Span) -> Slot
        ensures { result ≡ spanned kind span }
    {
        Slot {
            place: place(span.taken),
            length: span.len,
            ..Slot::bare(kind)
        }
    }

    /// The event in plain numbers.
    pub fn of(event: Event) -> Slot
        ensures { result ≡ slot_of event }
    {
        match event {
            Event::ArrayBegin => Slot::bare(1),
            Event::ArrayEnd => Slot::bare(2),
            Event::MapBegin => Slot::bare(3),
            Event::MapEnd => Slot::bare(4),
            Event::Key(span) => Slot::spanned(5, span),
            Event::Int(width, value) => Slot {
                width: bits(width),
                value: value.cast_unsigned(),
                ..Slot::bare(6)
            },
            Event::Real(value) => Slot {
                value,
                ..Slot::bare(7)
            },
            Event::Bytes(span) => Slot::spanned(8, span),
            Event::Text(span) => Slot::spanned(9, span),
            Event::True => Slot::bare(10),
            Event::False => Slot::bare(11),
            Event::Null => Slot::bare(12),
            Event::Absent => Slot::bare(13),
        }
    }
}
