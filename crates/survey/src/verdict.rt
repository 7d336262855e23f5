//! What came of a table, in plain numbers.
ghost use Rattle.std.specs.Prelude.{◌≡◌};
ghost use Rattle.survey.specs.Verdicts.{kind_number, layer_number, kept_numbers, acceptance, refusal_verdict};

use format::refusal::{Cause, Kind, Layer, ReadError, Refusal};

/// Whether a PDU is accepted, or which refusal it met.
#[repr(C)]
#[derive(Clone, Copy, PartialEq, Eq, Debug)]
pub struct Verdict {
    /// 0 where it is accepted, and else the number of the refusal.
    pub number: u32,
    /// The layer that refuses: 1 the source, 2 the reader, 3 the decoder; 0 where it is accepted.
    pub layer: u32,
    /// The refusal's place.
    pub place: usize,
    /// The numbers that the cause keeps. Number, layer and these two are the whole cause.
    pub first: usize,
    pub second: usize,
    /// How many events have passed.
    pub events: usize,
    /// How many bytes of the table were taken: all of an accepted PDU, its header too.
    pub taken: usize,
}

fn kind_number(kind: Kind) -> usize
    ensures { result ≡ kind_number kind }
{
    match kind {
        Kind::Integer => 1,
        Kind::NextItem => 2,
        Kind::MapKey => 3,
        Kind::KeyList => 4,
        Kind::TemplateKey => 5,
    }
}

fn layer_number(layer: Layer) -> u32
    ensures { result ≡ layer_number layer }
{
    match layer {
        Layer::Source => 1,
        Layer::Reader => 2,
        Layer::Decoder => 3,
    }
}

fn kept_numbers(cause: Cause) -> (usize, usize)
    ensures { result ≡ kept_numbers cause }
{
    match cause {
        Cause::Read(ReadError::Source(fault)) => (fault.code() as usize, 0),
        Cause::Read(ReadError::Magic(bytes)) => (bytes[0] as usize, bytes[1] as usize),
        Cause::Read(ReadError::Byte(kind, byte)) => (kind_number(kind), byte as usize),
        Cause::Length { expected, count } => (expected, count),
        _ => (0, 0),
    }
}

impl Verdict {
    pub(crate) fn accepted(events: usize, taken: usize) -> Verdict
        ensures { result ≡ acceptance events taken }
    {
        Verdict {
            number: 0,
            layer: 0,
            place: 0,
            first: 0,
            second: 0,
            events,
            taken,
        }
    }

    pub(crate) fn refused(refusal: Refusal, events: usize, taken: usize) -> Verdict
        ensures { result ≡ refusal_verdict refusal events taken }
    {
        let (first, second) = kept_numbers(refusal.cause);
        Verdict {
            number: refusal.number() as u32,
            layer: layer_number(refusal.layer()),
            place: refusal.place,
            first,
            second,
            events,
            taken,
        }
    }
}
