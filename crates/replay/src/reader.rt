//! The line with which a script begins: the reader of its decoder.
ghost use Rattle.std.specs.Prelude.{◌≡◌};

use super::fields::{Fields, LineError};
use source::SourceFault;
use source::piece::PieceSource;
use std::alloc::Global;

/// Bytes that come in pieces, and how they end.
#[derive(Drop)]
pub struct Pieces {
    most: usize,
    ending: Option<SourceFault>,
    bytes: Vec<u8>,
}

impl Pieces {
    fn parse(alloc: Global, fields: &mut Fields<'_>) -> Result<Pieces, LineError> {
        Ok(Pieces {
            most: fields.number()?,
            ending: fields.ending()?,
            bytes: fields.bytes(alloc)?,
        })
    }

    pub(crate) fn source(&self) -> PieceSource<'_>
        ensures { (result.slice.rest.now ≡ self.now.bytes.items) × (result.most ≡ self.now.most) × (result.ending ≡ self.now.ending) }
    {
        PieceSource::new(self.bytes.as_slice(), self.most, self.ending)
    }
}

/// A reader, by what it is made of. A fence has its stop first.
#[derive(Drop)]
pub enum Reader {
    Slice(Vec<u8>),
    Pieces(Pieces),
    Chain(Pieces, Pieces),
    FencedSlice(usize, Vec<u8>),
    FencedPieces(usize, Pieces),
}

impl Reader {
    pub(crate) fn parse(alloc: Global, text: &str) -> Result<Reader, LineError> {
        let mut fields = Fields::new(text);
        let reader = match fields.word()? {
            "slice" => Reader::Slice(fields.bytes(alloc)?),
            "pieces" => Reader::Pieces(Pieces::parse(alloc, &mut fields)?),
            "chain" => {
                let first = Pieces::parse(alloc, &mut fields)?;
                let second = Pieces::parse(alloc, &mut fields)?;
                Reader::Chain(first, second)
            }
            "fenced" => fenced(alloc, &mut fields)?,
            _ => return Err(LineError::Unknown),
        };
        fields.end()?;
        Ok(reader)
    }
}

fn fenced(alloc: Global, fields: &mut Fields<'_>) -> Result<Reader, LineError> {
    let stop = fields.number()?;
    match fields.word()? {
        "slice" => Ok(Reader::FencedSlice(stop, fields.bytes(alloc)?)),
        "pieces" => Ok(Reader::FencedPieces(stop, Pieces::parse(alloc, fields)?)),
        _ => Err(LineError::Unknown),
    }
}
