//! Events in words.
use de::event::Event;
use format::width::Width;
use read::Taken;
use std::fmt;

/// Bytes in hexadecimal digits, or `-` for none.
#[derive(Clone, Copy)]
pub struct Hex<'a>(pub &'a [u8]);

impl fmt::Display for Hex<'_> {
    fn fmt<W: fmt::Write>(&self, f: &mut fmt::Formatter<W>) -> fmt::Result {
        if self.0.is_empty() {
            return f.write_str("-");
        }
        for byte in self.0 {
            write!(f, "{byte:02x}")?;
        }
        Ok(())
    }
}

/// Where the bytes of an event lie.
#[derive(Clone, Copy)]
struct Place(Taken);

impl fmt::Display for Place {
    fn fmt<W: fmt::Write>(&self, f: &mut fmt::Formatter<W>) -> fmt::Result {
        match self.0 {
            Taken::Lent(place) => write!(f, "at {place}"),
            Taken::Copied => f.write_str("in text"),
        }
    }
}

/// An event, with the bytes that it hands out.
#[derive(Clone, Copy)]
pub struct Given<'a> {
    pub event: Event,
    pub bytes: &'a [u8],
}

impl Given<'_> {
    // Bytes under this word, and where they lie.
    fn text<W: fmt::Write>(
        &self,
        f: &mut fmt::Formatter<W>,
        word: &str,
        taken: Taken,
    ) -> fmt::Result {
        let bytes = Hex(self.bytes);
        let place = Place(taken);
        write!(f, "{word} {bytes} {place}")
    }
}

fn bits(width: Width) -> u8 {
    match width {
        Width::W8 => 8,
        Width::W16 => 16,
        Width::W32 => 32,
        Width::W64 => 64,
    }
}

impl fmt::Display for Given<'_> {
    fn fmt<W: fmt::Write>(&self, f: &mut fmt::Formatter<W>) -> fmt::Result {
        match self.event {
            Event::ArrayBegin => f.write_str("array-begin"),
            Event::ArrayEnd => f.write_str("array-end"),
            Event::MapBegin => f.write_str("map-begin"),
            Event::MapEnd => f.write_str("map-end"),
            Event::Key(span) => self.text(f, "key", span.taken),
            Event::Int(width, value) => write!(f, "int {} {value}", bits(width)),
            Event::Real(number) => write!(f, "real {number:016x}"),
            Event::Bytes(span) => self.text(f, "bytes", span.taken),
            Event::Text(span) => self.text(f, "text", span.taken),
            Event::True => f.write_str("true"),
            Event::False => f.write_str("false"),
            Event::Null => f.write_str("null"),
            Event::Absent => f.write_str("absent"),
        }
    }
}
