//! A table, and how it is found in the events of a list.
ghost use Rattle.std.specs.Prelude.{◌≡◌, ◌≢◌, ◌==◌, [], Ok, vec_len, IfOk, true, false, IsTrue, ◌↔◌, Some, slice_get, option_map, string_bytes};
ghost use Rattle.de.specs.declared.event.Event.TheVariants.{MapEnd, Absent};
ghost use Rattle.tablecheck.specs.Surveys.{more, is_key};

use super::words::{Count, Names};
use de::event::Event;
use std::alloc::{AllocError, Global};
use std::fmt;

/// Rows that have the same columns in the same order.
#[derive(PartialEq, Drop)]
pub struct Table {
    columns: Vec<String>,
    rows: usize,
    /// How many cells have no value.
    gaps: usize,
    /// How many cells of the last row have begun.
    cells: usize,
}

impl Table {
    /// A table whose first row begins.
    pub fn new(alloc: Global) -> Table
        ensures counts { (result.rows ≡ 1) × (result.gaps ≡ 0) × (result.cells ≡ 0) }
        ensures columns { result.columns.items ≡ [] }
    {
        Table {
            columns: Vec::new(alloc),
            rows: 1,
            gaps: 0,
            cells: 0,
        }
    }

    pub fn rows(&self) -> usize
        ensures { result ≡ self.now.rows }
    {
        self.rows
    }

    pub fn begin_row(&mut self)
        ensures { self.new ≡ record self.old { rows = more self.old.rows; cells = 0 } }
    {
        self.rows = self.rows.saturating_add(1);
        self.cells = 0;
    }

    /// An event of a row, with the bytes of a key. Tells whether the row still has the table's columns.
    pub fn note(&mut self, event: Event, key: &[u8]) -> Result<bool, AllocError>
        ensures gap { event ≡ Absent → self.new.gaps ≡ more self.old.gaps }
        ensures value { event ≢ Absent → self.new.gaps ≡ self.old.gaps }
        ensures rows { self.new.rows ≡ self.old.rows }
        ensures columns { self.old.rows ≢ 1 → self.new.columns.items ≡ self.old.columns.items }
        ensures whole { event ≡ MapEnd → result ≡ Ok (self.old.cells == vec_len self.old.columns) }
        ensures cells { is_key event ≡ true → self.new.cells ≡ more self.old.cells }
        ensures first { is_key event ≡ true → self.old.rows ≡ 1 → IfOk result (λ same. same ≡ true) }
        ensures later { is_key event ≡ true → self.old.rows ≢ 1 → IfOk result (λ same. IsTrue same ↔ (option_map string_bytes (slice_get self.old.columns.items self.old.cells) ≡ Some key.now)) }
        ensures other { is_key event ≡ false → self.new.cells ≡ self.old.cells }
        ensures rest { is_key event ≡ false → event ≢ MapEnd → result ≡ Ok true }
    {
        match event {
            Event::Key(_) => self.begin_cell(key),
            Event::Absent => {
                self.gaps = self.gaps.saturating_add(1);
                Ok(true)
            }
            Event::MapEnd => Ok(self.cells == self.columns.len()),
            _ => Ok(true),
        }
    }

    // Whether this is the key of the column that is due.
    fn is_due(&self, key: &[u8]) -> bool
        ensures { IsTrue result ↔ (option_map string_bytes (slice_get self.now.columns.items self.now.cells) ≡ Some key.now) }
    {
        match self.columns.get(self.cells) {
            Some(name) => name.as_bytes() == key,
            None => false,
        }
    }

    // A cell begins; those of the first row say what the columns are.
    fn begin_cell(&mut self, key: &[u8]) -> Result<bool, AllocError>
        ensures gaps { self.new.gaps ≡ self.old.gaps }
        ensures rows { self.new.rows ≡ self.old.rows }
        ensures cells { self.new.cells ≡ more self.old.cells }
        ensures columns { self.old.rows ≢ 1 → self.new.columns.items ≡ self.old.columns.items }
        ensures first { self.old.rows ≡ 1 → IfOk result (λ same. same ≡ true) }
        ensures later { self.old.rows ≢ 1 → IfOk result (λ same. IsTrue same ↔ (option_map string_bytes (slice_get self.old.columns.items self.old.cells) ≡ Some key.now)) }
    {
        let due = self.is_due(key);
        self.cells = self.cells.saturating_add(1);
        if self.rows != 1 {
            return Ok(due);
        }
        let alloc = *self.columns.allocator();
        self.columns.push(String::from_utf8_lossy(alloc, key)?)?;
        Ok(true)
    }

    /// The columns by their names.
    pub(crate) fn columns(&self) -> Names<'_> {
        Names(self.columns.as_slice())
    }

    pub fn gaps(&self) -> usize
        ensures { result ≡ self.now.gaps }
    {
        self.gaps
    }
}

impl fmt::Display for Table {
    fn fmt<W: fmt::Write>(&self, f: &mut fmt::Formatter<W>) -> fmt::Result {
        let rows = Count(self.rows, "row");
        let columns = Count(self.columns.len(), "column");
        write!(f, "a table of {rows} and {columns}")
    }
}
