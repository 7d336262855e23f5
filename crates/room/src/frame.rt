//! What stands innermost of a body, and how its events change it.
ghost use Rattle.std.specs.Prelude.{◌≡◌, ◌+◌, ◌≤◌, List, ◌∷◌, length, MatchOption};
ghost use Rattle.room.specs.Open.{Column, Open, due, filled, keyed, row_turned, row_columns, within_row, past_row};
ghost use Rattle.room.specs.Frames.{over, Fits, Limited, Over, column_at, below, in_row};

use super::due::Due;

/// The columns of a template: so many keys of key room from an index on.
#[derive(Clone, Copy)]
pub(crate) struct Table {
    pub(crate) first: usize,
    pub(crate) len: usize,
}

/// What is open at one level, or of the body itself below all levels.
#[derive(Clone, Copy)]
pub(crate) enum Frame {
    /// Nothing more is to come.
    Done,
    /// The one value of the body is to come.
    Start,
    /// An array with so many values to come.
    Items(usize),
    /// An object before a key, with so many pairs to come.
    Pairs(usize),
    /// An object before a value, with so many pairs to come behind it.
    Field(usize),
    /// A template before a row, with so many rows to come.
    Rows(Table, usize),
    // The index stands last, so that the number of rows stays where it is when a row begins and ends.
    /// A template in a row, with so many rows to come, before the key of the column at an index.
    Row(Table, usize, usize),
    /// The same before the cell in front of the column at an index.
    Cell(Table, usize, usize),
}

impl Frame {
    pub(crate) fn due(&self) -> Due
        ensures { (held : List Column) (s : List (Open Column)) → Fits held self.now → result ≡ due (over held self.now s) }
    {
        match *self {
            Frame::Done => Due::Done,
            Frame::Items(0) | Frame::Rows(_, 0) => Due::ArrayEnd,
            Frame::Start | Frame::Items(_) | Frame::Field(_) => Due::Value,
            Frame::Pairs(0) => Due::MapEnd,
            Frame::Pairs(_) => Due::MapKey,
            Frame::Rows(_, _) => Due::RowBegin,
            Frame::Row(table, _, next) if next >= table.len => Due::RowEnd,
            Frame::Row(_, _, _) => Due::RowKey,
            Frame::Cell(_, _, _) => Due::Cell,
        }
    }

    // A value has begun.
    pub(crate) fn fill(&mut self)
        ensures fills { (held : List Column) (s : List (Open Column)) → filled (over held self.old s) ≡ over held self.new s }
        ensures over { Over self.old self.new }
        ensures rows { in_row self.new ≡ in_row self.old }
    {
        match *self {
            Frame::Start => *self = Frame::Done,
            Frame::Items(left) => *self = Frame::Items(left.saturating_sub(1)),
            Frame::Field(left) => *self = Frame::Pairs(left),
            Frame::Cell(table, left, next) => *self = Frame::Row(table, left, next),
            _ => {}
        }
    }

    // The key of a pair has passed.
    pub(crate) fn key(&mut self)
        ensures keys { (held : List Column) (s : List (Open Column)) → keyed (over held self.old s) ≡ over held self.new s }
        ensures over { Over self.old self.new }
        ensures rows { in_row self.new ≡ in_row self.old }
    {
        if let Frame::Pairs(left) = *self
            && left > 0
        {
            *self = Frame::Field(left - 1);
        }
    }

    // A row begins, the key of a column passes, or a row ends.
    pub(crate) fn turn(&mut self)
        ensures turns { (held : List Column) (s : List (Open Column)) → Fits held self.old → row_turned (over held self.old s) ≡ over held self.new s }
        ensures over { Over self.old self.new }
    {
        match *self {
            Frame::Rows(table, left) if left > 0 => *self = Frame::Row(table, left - 1, 0),
            Frame::Row(table, left, next) if next < table.len => {
                *self = Frame::Cell(table, left, next + 1);
            }
            Frame::Row(table, left, _) => *self = Frame::Rows(table, left),
            _ => {}
        }
    }

    // How many columns the row has that begins next.
    pub(crate) fn row_columns(&self) -> Option<usize>
        requires { Limited self.now }
        ensures few { MatchOption result (Unit {0}) (λ n. n ≤ 256) }
        ensures told { (held : List Column) (s : List (Open Column)) → Fits held self.now → result ≡ row_columns (over held self.now s) }
    {
        match *self {
            Frame::Rows(table, left) if left > 0 => Some(table.len),
            _ => None,
        }
    }

    // The row that begins next has begun, and so many cells of it have passed.
    pub(crate) fn enter_row(&mut self, cells: usize)
        ensures turns { (held : List Column) (s : List (Open Column)) → within_row cells (over held self.old s) ≡ over held self.new s }
        ensures over { Over self.old self.new }
    {
        if let Frame::Rows(table, left) = *self
            && left > 0
        {
            *self = Frame::Row(table, left - 1, cells);
        }
    }

    // The row that begins next has passed.
    pub(crate) fn pass_row(&mut self)
        ensures turns { (held : List Column) (s : List (Open Column)) → past_row (over held self.old s) ≡ over held self.new s }
        ensures over { Over self.old self.new }
        ensures rows { in_row self.new ≡ in_row self.old }
    {
        if let Frame::Rows(_, left) = self
            && *left > 0
        {
            *left -= 1;
        }
    }

    // 1 in a row, which is a level of its own for a skip.
    pub(crate) fn rows(&self) -> usize
        ensures { result ≡ in_row self.now }
    {
        match *self {
            Frame::Row(_, _, _) | Frame::Cell(_, _, _) => 1,
            _ => 0,
        }
    }

    // How many keys the templates below hold, where this one and they hold so many.
    pub(crate) fn below(&self, own: usize) -> usize
        ensures { result ≡ below self.now own }
    {
        match *self {
            Frame::Rows(table, _) | Frame::Row(table, _, _) | Frame::Cell(table, _, _) =>
                table.first,
            _ => own,
        }
    }

    // Where key room has the key that comes next.
    pub(crate) fn column(&self) -> Option<usize>
        requires { Limited self.now }
        ensures { result ≡ column_at self.now }
    {
        match *self {
            Frame::Row(table, _, next) if next < table.len => Some(table.first + next),
            _ => None,
        }
    }
}
