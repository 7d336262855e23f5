//! Refusals in words that can be read to a customer over the telephone.
ghost use Rattle.std.specs.Prelude.{Some};
ghost use Rattle.format.specs.Words.{kind_words, layer_words, error_words, cause_words, refusal_words};

use super::refusal::*;
use std::fmt;

impl fmt::Display for Kind {
    ghost output = { λ kind. Some (kind_words kind) };

    fn fmt<W: fmt::Write>(&self, f: &mut fmt::Formatter<W>) -> fmt::Result {
        f.write_str(match self {
            Kind::Integer => "a whole number",
            Kind::NextItem => "a value",
            Kind::MapKey => "the name of a field",
            Kind::KeyList => "the list of column names",
            Kind::TemplateKey => "the name of a column",
        })
    }
}

impl fmt::Display for Layer {
    ghost output = { λ layer. Some (layer_words layer) };

    fn fmt<W: fmt::Write>(&self, f: &mut fmt::Formatter<W>) -> fmt::Result {
        f.write_str(match self {
            Layer::Source => "source",
            Layer::Reader => "reader",
            Layer::Decoder => "decoder",
        })
    }
}

impl fmt::Display for ReadError {
    ghost output = { λ error. Some (error_words error) };

    fn fmt<W: fmt::Write>(&self, f: &mut fmt::Formatter<W>) -> fmt::Result {
        match self {
            ReadError::End => f.write_str("the data run past the end that the table declares"),
            ReadError::Stop => f.write_str("the data run past the largest place that can be read"),
            ReadError::Room => f.write_str("the buffer for text is too short"),
            ReadError::Short => f.write_str("the file ends too early"),
            ReadError::Source(fault) => write!(
                f,
                "the data could not be fetched: the source reports fault {}",
                fault.code()
            ),
            ReadError::Magic([a, b]) => write!(
                f,
                "this is not a table: it should begin with the bytes 00 02 and begins with {a:02x} {b:02x}"
            ),
            ReadError::Byte(kind, byte) => write!(
                f,
                "here {kind} should begin, and the byte {byte:02x} cannot begin it"
            ),
            ReadError::Negative => f.write_str("a count or a length is below zero"),
            ReadError::TooLong => f.write_str(
                "the table declares more data than any table may have",
            ),
            ReadError::NotText => f.write_str("a text is not written in UTF-8"),
        }
    }
}

impl fmt::Display for Cause {
    ghost output = { λ cause. Some (cause_words cause) };

    fn fmt<W: fmt::Write>(&self, f: &mut fmt::Formatter<W>) -> fmt::Result {
        match self {
            Cause::OutOfTurn => f.write_str(
                "the call came out of turn: no table is open, or one is open already",
            ),
            Cause::Token => f.write_str("this table is not the one that is open"),
            Cause::Read(error) => error.fmt(f),
            Cause::Depth => f.write_str("the values are nested more than 128 deep"),
            Cause::KeyRoom => f.write_str(
                "there are more column names than the device has room for",
            ),
            Cause::NoKeys => f.write_str("a list of rows has no columns"),
            Cause::Unfinished => f.write_str("the table was closed before all of it was read"),
            Cause::Length { expected, count } => write!(
                f,
                "the table should end at byte {expected} and ends at byte {count}"
            ),
        }
    }
}

impl fmt::Display for Refusal {
    ghost output = { λ refusal. Some (refusal_words refusal) };

    fn fmt<W: fmt::Write>(&self, f: &mut fmt::Formatter<W>) -> fmt::Result {
        write!(
            f,
            "refusal {} at byte {}: {}",
            self.number(),
            self.place,
            self.cause
        )
    }
}
