//! What a body holds, found event by event.
ghost use Rattle.std.specs.Prelude.{◌≡◌, OnOk};
ghost use Rattle.tablecheck.specs.declared.content.Content.TheVariants as content;
ghost use Rattle.tablecheck.specs.Surveys.{depth_behind};

use super::table::Table;
use super::words::Count;
use de::event::Event;
use std::alloc::{AllocError, Global};
use std::fmt;

/// What a body holds.
#[derive(PartialEq, Drop)]
pub enum Content {
    Nothing,
    Whole(i64),
    Real,
    Bytes(usize),
    Text(usize),
    True,
    False,
    Null,
    Table(Table),
    /// A list that is no table, of so many values.
    List(usize),
    /// So many values, each with a name.
    Fields(usize),
}

impl Content {
    // What the first event of a body begins.
    fn begun(event: Event) -> Content {
        match event {
            Event::ArrayBegin => Content::List(0),
            Event::MapBegin => Content::Fields(0),
            Event::Int(_, value) => Content::Whole(value),
            Event::Real(_) => Content::Real,
            Event::Bytes(span) => Content::Bytes(span.len),
            Event::Text(span) => Content::Text(span.len),
            Event::True => Content::True,
            Event::False => Content::False,
            Event::Null => Content::Null,
            Event::ArrayEnd | Event::MapEnd | Event::Key(_) | Event::Absent => Content::Nothing,
        }
    }

    // An event directly in the outermost container. A list whose first value has fields is a table
    // until it has a value that is no row of it.
    fn note_member(&mut self, alloc: Global, event: Event) {
        match self {
            Content::Table(table) => match event {
                Event::ArrayEnd => {}
                Event::MapBegin => table.begin_row(),
                _ => *self = Content::List(table.rows().saturating_add(1)),
            },
            Content::List(values) => match event {
                Event::ArrayEnd => {}
                Event::MapBegin if *values == 0 => *self = Content::Table(Table::new(alloc)),
                _ => *values = values.saturating_add(1),
            },
            Content::Fields(fields) => {
                if let Event::Key(_) = event {
                    *fields = fields.saturating_add(1);
                }
            }
            _ => {}
        }
    }

    // An event of a member of the outermost container, which may be a row.
    fn note_inner(&mut self, event: Event, key: &[u8]) -> Result<(), AllocError> {
        if let Content::Table(table) = self
            && !table.note(event, key)?
        {
            *self = Content::List(table.rows());
        }
        Ok(())
    }
}

impl fmt::Display for Content {
    fn fmt<W: fmt::Write>(&self, f: &mut fmt::Formatter<W>) -> fmt::Result {
        match self {
            Content::Nothing => f.write_str("nothing"),
            Content::Whole(value) => write!(f, "the whole number {value}"),
            Content::Real => f.write_str("a real number"),
            Content::Bytes(n) => write!(f, "a string of {}", Count(*n, "byte")),
            Content::Text(n) => write!(f, "a text of {}", Count(*n, "byte")),
            Content::True => f.write_str("true"),
            Content::False => f.write_str("false"),
            Content::Null => f.write_str("null"),
            Content::Table(table) => table.fmt(f),
            Content::List(0) => f.write_str("an empty list"),
            Content::List(n) => write!(f, "a list of {}, not a table", Count(*n, "value")),
            Content::Fields(n) => write!(f, "{}, not a table", Count(*n, "named value")),
        }
    }
}

/// Takes in the events of a body, one by one.
#[derive(Drop)]
pub struct Survey {
    alloc: Global,
    content: Content,
    /// How many containers are open.
    depth: usize,
}

// How many containers are open behind an event.
fn depth_behind(event: Event, depth: usize) -> usize
    ensures { result ≡ depth_behind event depth }
{
    match event {
        Event::ArrayBegin | Event::MapBegin => depth.saturating_add(1),
        Event::ArrayEnd | Event::MapEnd => depth.saturating_sub(1),
        _ => depth,
    }
}

impl Survey {
    pub fn new(alloc: Global) -> Survey
        ensures { (result.content ≡ content.Nothing) × (result.depth ≡ 0) }
    {
        Survey {
            alloc,
            content: Content::Nothing,
            depth: 0,
        }
    }

    /// The next event, with the bytes of a key.
    pub fn note(&mut self, event: Event, key: &[u8]) -> Result<(), AllocError>
        ensures { OnOk result (self.new.depth ≡ depth_behind event self.old.depth) }
    {
        match self.depth {
            0 => self.content = Content::begun(event),
            1 => self.content.note_member(self.alloc, event),
            2 => self.content.note_inner(event, key)?,
            _ => {}
        }
        self.depth = depth_behind(event, self.depth);
        Ok(())
    }

    pub fn into_content(self) -> Content
        ensures { result ≡ self.content }
    {
        let Survey {
            alloc: _,
            content,
            depth: _,
        } = self;
        content
    }
}
