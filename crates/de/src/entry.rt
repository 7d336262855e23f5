ghost use Rattle.std.specs.Prelude.{◌≡◌};
ghost use Rattle.de.specs.Rooms.{room_of};

use super::event::Event;
use super::pdu::{Closed, Extent};
use bunser::Header;
use format::refusal::Refusal;

/// A call by value. A token is given by the extent that it names, so that any token can be given.
#[derive(Clone, Copy, PartialEq, Eq, Debug)]
pub enum Call {
    Open,
    /// `next` with a text buffer of so many bytes.
    Next(usize),
    Skip,
    Close(Extent),
}

impl Call {
    // How much room the text buffer of this call has.
    pub(crate) fn room(self) -> usize
        ensures { result ≡ room_of self }
    {
        match self {
            Call::Next(room) => room,
            _ => 0,
        }
    }
}

/// What a call answered.
#[derive(Clone, Copy, PartialEq, Eq, Debug)]
pub enum Answer {
    Opened(Header),
    Gave(Event),
    Done,
    Skipped(usize),
    Closed(Closed),
    Refused(Refusal),
}

/// One call, what it answered, and what can be seen then.
#[derive(Drop)]
pub struct Entry {
    pub call: Call,
    pub answer: Answer,
    /// The reader's count.
    pub count: usize,
    /// What the question tells.
    pub events: usize,
    pub bytes: usize,
    /// The text buffer, which was zero before the call.
    pub text: Vec<u8>,
}
