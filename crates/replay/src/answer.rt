//! What a line of a script answers.
use super::event::Given;
use super::refusal::Told;
use bunser::Header;
use de::pdu::Closed;
use format::refusal::Refusal;
use std::fmt;

/// An answer, which is printed as one line.
#[derive(Clone, Copy)]
pub enum Answer<'a> {
    /// A decoder was made.
    New,
    Opened(Header),
    Gave(Given<'a>),
    Done,
    /// So many events were passed over.
    Skipped(usize),
    Closed(Closed),
    /// There is no such token.
    NoToken,
    /// How many events have passed, and how many body bytes were taken.
    Tally(usize, usize),
    Refused(Refusal),
}

impl fmt::Display for Answer<'_> {
    fn fmt<W: fmt::Write>(&self, f: &mut fmt::Formatter<W>) -> fmt::Result {
        match *self {
            Answer::New => f.write_str("new"),
            Answer::Opened(header) => write!(
                f,
                "opened capabilities={:08x} start={} length={}",
                header.capabilities, header.start, header.length
            ),
            Answer::Gave(given) => given.fmt(f),
            Answer::Done => f.write_str("done"),
            Answer::Skipped(passed) => write!(f, "skipped {passed}"),
            Answer::Closed(closed) => {
                write!(
                    f,
                    "closed events={} length={}",
                    closed.events, closed.length
                )
            }
            Answer::NoToken => f.write_str("no token"),
            Answer::Tally(events, bytes) => write!(f, "events={events} bytes={bytes}"),
            Answer::Refused(refusal) => Told(refusal).fmt(f),
        }
    }
}
