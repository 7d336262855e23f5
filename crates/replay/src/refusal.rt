//! Refusals in numbers, for a program to read.
use format::refusal::{Cause, Kind, ReadError, Refusal};
use std::fmt;

/// A refusal, with all that it keeps.
#[derive(Clone, Copy)]
pub struct Told(pub Refusal);

impl fmt::Display for Told {
    fn fmt<W: fmt::Write>(&self, f: &mut fmt::Formatter<W>) -> fmt::Result {
        let refusal = self.0;
        let kept = Kept(refusal.cause);
        write!(
            f,
            "refused {} at {} by {} {kept}",
            refusal.number(),
            refusal.place,
            refusal.layer()
        )
    }
}

/// What a cause keeps, or `-` for nothing.
#[derive(Clone, Copy)]
struct Kept(Cause);

impl fmt::Display for Kept {
    fn fmt<W: fmt::Write>(&self, f: &mut fmt::Formatter<W>) -> fmt::Result {
        match self.0 {
            Cause::Read(ReadError::Source(fault)) => write!(f, "code={}", fault.code()),
            Cause::Read(ReadError::Magic(bytes)) => {
                write!(f, "magic={:04x}", u16::from_be_bytes(bytes))
            }
            Cause::Read(ReadError::Byte(kind, byte)) => {
                let kind = word_of(kind);
                write!(f, "kind={kind} byte={byte:02x}")
            }
            Cause::Length { expected, count } => write!(f, "expected={expected} count={count}"),
            _ => f.write_str("-"),
        }
    }
}

fn word_of(kind: Kind) -> &'static str {
    match kind {
        Kind::Integer => "integer",
        Kind::NextItem => "next-item",
        Kind::MapKey => "map-key",
        Kind::KeyList => "key-list",
        Kind::TemplateKey => "template-key",
    }
}
