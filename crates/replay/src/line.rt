//! The lines that call the decoder of a script.
use super::fields::{Fields, LineError, number};

/// Which token is given to `close`.
#[derive(Clone, Copy, PartialEq, Eq, Debug)]
pub enum Token {
    /// The newest that was not spent.
    Newest,
    /// The one at this place among those that were not spent, the oldest being the first.
    Oldest(usize),
    /// One of another decoder.
    Other,
}

impl Token {
    // What stands behind `close`, or nothing.
    fn parse(fields: &mut Fields<'_>) -> Result<Token, LineError> {
        match fields.word() {
            Err(_) => Ok(Token::Newest),
            Ok("other") => Ok(Token::Other),
            Ok(word) => Ok(Token::Oldest(number(word)?)),
        }
    }
}

/// A call of a decoder.
#[derive(Clone, Copy, PartialEq, Eq, Debug)]
pub enum Call {
    Open,
    /// With a text buffer of so many bytes.
    Next(usize),
    Skip,
    Close(Token),
    /// How many events have passed, and how many body bytes were taken.
    Asked,
}

impl Call {
    fn parse(word: &str, fields: &mut Fields<'_>) -> Result<Call, LineError> {
        match word {
            "open" => Ok(Call::Open),
            "next" => Ok(Call::Next(fields.number()?)),
            "skip" => Ok(Call::Skip),
            "close" => Ok(Call::Close(Token::parse(fields)?)),
            "asked" => Ok(Call::Asked),
            _ => Err(LineError::Unknown),
        }
    }
}

/// A line of a script behind the first.
#[derive(Clone, Copy, PartialEq, Eq, Debug)]
pub enum Line {
    Call(Call),
    End,
}

impl Line {
    pub(crate) fn parse(text: &str) -> Result<Line, LineError> {
        let mut fields = Fields::new(text);
        let line = match fields.word()? {
            "end" => Line::End,
            word => Line::Call(Call::parse(word, &mut fields)?),
        };
        fields.end()?;
        Ok(line)
    }
}
