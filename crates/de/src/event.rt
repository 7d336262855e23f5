use bunser::text::{Span, Unread};
use format::width::Width;

/// What `next` gives. A span says where the bytes lie.
#[derive(Clone, Copy, PartialEq, Eq, Debug)]
pub enum Event {
    ArrayBegin,
    ArrayEnd,
    MapBegin,
    MapEnd,
    Key(Span),
    Int(Width, i64),
    /// The eight bytes of a real as one number.
    Real(u64),
    Bytes(Span),
    Text(Span),
    True,
    False,
    Null,
    /// A gap: there is no value under the key before it.
    Absent,
}

/// What comes next of a body, before the bytes of a text are read.
#[derive(Clone, Copy, PartialEq, Eq, Debug)]
pub enum Ahead {
    /// Nothing more.
    Nothing,
    /// An event, which has passed.
    Passed(Event),
    /// A text, whose event has not passed.
    Text(Unread),
    /// The key of a column, whose event has not passed.
    Column,
}

/// What a cell is that is passed over, before the bytes of a text are.
#[derive(Clone, Copy, PartialEq, Eq, Debug)]
pub enum Plain {
    /// It is no plain one: a container, or something that is read by itself. Its tag was shown alone.
    Other,
    /// A value or a gap, which is taken.
    Passed(Event),
    /// A text, whose bytes are to come.
    Text(Unread),
}

/// How far a row was passed over, and how many events that is.
#[derive(Clone, Copy, PartialEq, Eq, Debug)]
pub enum RowPass {
    /// All of it.
    Whole(usize),
    /// Up to a cell that is no plain one.
    Part(usize),
}

/// A call was refused. The decoder tells the refusal with its place and its cause.
#[derive(Clone, Copy, PartialEq, Eq, Debug)]
pub struct Refused {
    // A number and not the refusal, which is many times as large and which each call would hand out,
    // nor one more enum of its sixteen names.
    /// The number by which the documents name the refusal.
    pub number: u8,
}
