//! The fields of a line, which one space parts.
ghost use Rattle.std.specs.Prelude.{◌≡◌, ◌↔◌};
ghost use Rattle.hex.specs.declared.error.FromHexError.TheVariants as hex_error;
ghost use Rattle.replay.specs.declared.fields.LineError.TheVariants as line_error;

use hex::FromHexError;
use source::SourceFault;
use std::alloc::{AllocError, Global};
use std::str::Split;

/// Why a line has no answer of its own.
#[derive(Clone, Copy, PartialEq, Eq, Debug)]
pub enum LineError {
    /// It is none of the lines of a script.
    Unknown,
    /// There is no memory for its bytes.
    OutOfMemory,
}

impl From<AllocError> for LineError {
    ghost from_gives = { λ _ error. error ≡ line_error.OutOfMemory };

    fn from(_error: AllocError) -> LineError {
        LineError::OutOfMemory
    }
}

impl From<FromHexError> for LineError {
    ghost from_gives = { λ e error. (error ≡ line_error.OutOfMemory) ↔ (e ≡ hex_error.OutOfMemory) };

    fn from(error: FromHexError) -> LineError {
        match error {
            FromHexError::OutOfMemory => LineError::OutOfMemory,
            _ => LineError::Unknown,
        }
    }
}

/// What is left of the fields of a line.
#[derive(Drop)]
pub struct Fields<'a>(Split<'a, char>);

impl<'a> Fields<'a> {
    pub(crate) fn new(line: &'a str) -> Fields<'a> {
        Fields(line.split(' '))
    }

    pub(crate) fn word(&mut self) -> Result<&'a str, LineError> {
        self.0.next().ok_or(LineError::Unknown)
    }

    /// A number without a sign.
    pub(crate) fn number(&mut self) -> Result<usize, LineError> {
        number(self.word()?)
    }

    /// The code of a fault, or 0 for a clean end.
    pub(crate) fn ending(&mut self) -> Result<Option<SourceFault>, LineError> {
        let code = u16::try_from(self.number()?).map_err(|_| LineError::Unknown)?;
        Ok(SourceFault::new(code))
    }

    /// Bytes in hexadecimal digits, or `-` for none.
    pub(crate) fn bytes(&mut self, alloc: Global) -> Result<Vec<u8>, LineError> {
        match self.word()? {
            "-" => Ok(Vec::new(alloc)),
            "" => Err(LineError::Unknown),
            digits => Ok(hex::decode(alloc, digits)?),
        }
    }

    /// No field is left.
    pub(crate) fn end(&mut self) -> Result<(), LineError> {
        match self.0.next() {
            None => Ok(()),
            Some(_) => Err(LineError::Unknown),
        }
    }
}

/// The number that a field says without a sign.
pub(crate) fn number(word: &str) -> Result<usize, LineError> {
    if word.starts_with('+') {
        return Err(LineError::Unknown);
    }
    word.parse::<usize>().map_err(|_| LineError::Unknown)
}
