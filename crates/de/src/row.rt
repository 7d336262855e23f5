//! Rows that are passed over: the cells are read one after the other, and what is open changes once for all of them.
ghost use Rattle.std.specs.Prelude.{◌≡◌, ℕ, ◌+◌, ◌*◌, ◌≤◌, Some, None, List, IfOk};
ghost use Rattle.room.specs.Open.{Column, Open, due, row_columns};
ghost use Rattle.room.specs.declared.due.Due.TheVariants.{Cell};
ghost use Rattle.de.specs.declared.event.Event.TheVariants.{Int};
ghost use Rattle.de.specs.declared.event.Ahead.TheVariants.{Passed, Text};
ghost use Rattle.de.specs.Steps.{int_comes, text_comes, found, Finds};
ghost use Rattle.de.specs.Rows.{staged, counted_by, at_cell, RowTold, Untouched, taken_up, PlainTold, BytesTold, CellTold, AtHandTold};
ghost use Rattle.de.specs.Held.{body_of};

use super::at_hand::plain_cells;
use super::coming::kind_of;
use super::event::{Event, Plain, RowPass};
use super::events::Events;
use bunser::placed;
use bunser::text::{TextKind, Unread};
use format::refusal::Refusal;
use format::tags::Tag;
use format::width::Width;
use read::DeRead;

impl<R: DeRead> Events<R> {
    // An integer behind its tag, which was shown.
    #[tactic(auto, using(crate::proofs::Finding::then_finds, crate::proofs::Finding::stop_finds), unfolding(crate::specs::Steps::int_comes))]
    fn plain_int(&mut self, width: Width) -> Result<i64, Refusal>
        ensures told { (o : List (Open Column)) (n : ℕ) → Finds (int_comes R.DeRead.lends width (staged (body_of R.DeRead.view self.old) o n)) (found (λ z. Passed (Int width z)) result) (taken_up (found (λ z. Passed (Int width z)) result) (staged (body_of R.DeRead.view self.new) o n)) }
        ensures same { Untouched (body_of R.DeRead.view self.old) (body_of R.DeRead.view self.new) }
        ensures calm { (body_of R.DeRead.view self.new).unread ≡ (body_of R.DeRead.view self.old).unread }
    {
        let place = self.bunser.read_count();
        self.bunser.discard();
        placed(self.bunser.next_int::<3>(width), place)
    }

    // The length of a text behind its tag, which was shown.
    #[tactic(auto, using(crate::proofs::Finding::then_finds, crate::proofs::Finding::stop_finds), unfolding(crate::specs::Steps::text_comes))]
    fn plain_text(&mut self, kind: TextKind) -> Result<usize, Refusal>
        ensures told { (o : List (Open Column)) (n : ℕ) → Finds (text_comes R.DeRead.lends kind (staged (body_of R.DeRead.view self.old) o n)) (found (λ k. Text (record { kind = kind; len = k })) result) (taken_up (found (λ k. Text (record { kind = kind; len = k })) result) (staged (body_of R.DeRead.view self.new) o n)) }
        ensures same { Untouched (body_of R.DeRead.view self.old) (body_of R.DeRead.view self.new) }
        ensures calm { (body_of R.DeRead.view self.new).unread ≡ (body_of R.DeRead.view self.old).unread }
    {
        self.bunser.discard();
        self.bunser.placed_count::<3>()
    }

    // A cell behind its tag, which was shown.
    #[tactic(auto, using(crate::proofs::Rows::kind_fills), unfolding(crate::specs::Steps::tagged, crate::specs::Steps::tag_comes))]
    fn plain(&mut self, tag: u8) -> Result<Plain, Refusal>
        ensures told { (o : List (Open Column)) (n : ℕ) → PlainTold R.DeRead.lends tag (staged (body_of R.DeRead.view self.old) o n) result (staged (body_of R.DeRead.view self.new) o n) }
        ensures same { Untouched (body_of R.DeRead.view self.old) (body_of R.DeRead.view self.new) }
        ensures calm { (body_of R.DeRead.view self.new).unread ≡ (body_of R.DeRead.view self.old).unread }
    {
        match Tag::try_from(tag) {
            Ok(Tag::Int(width)) => {
                let value = self.plain_int(width)?;
                Ok(Plain::Passed(Event::Int(width, value)))
            }
            Ok(text @ (Tag::ByteString | Tag::Utf8String)) => {
                let kind = kind_of(text);
                let len = self.plain_text(kind)?;
                Ok(Plain::Text(Unread { kind, len }))
            }
            Ok(Tag::Skip) => {
                self.bunser.discard();
                Ok(Plain::Passed(Event::Absent))
            }
            _ => Ok(Plain::Other),
        }
    }

    // The bytes of a text are passed over. It is awaited where they are refused.
    fn pass_bytes(&mut self, text: Unread) -> Result<bool, Refusal>
        ensures told { (o : List (Open Column)) (n : ℕ) → BytesTold R.DeRead.lends text (staged (body_of R.DeRead.view self.old) o n) result (staged (body_of R.DeRead.view self.new) o n) }
        ensures same { Untouched (body_of R.DeRead.view self.old) (body_of R.DeRead.view self.new) }
        ensures calm { IfOk result (λ k. (body_of R.DeRead.view self.new).unread ≡ (body_of R.DeRead.view self.old).unread) }
    {
        let place = self.bunser.read_count();
        match placed(self.bunser.pass_text(text), place) {
            Ok(()) => Ok(true),
            Err(refusal) => {
                self.unread = Some(text);
                Err(refusal)
            }
        }
    }

    // The next cell of a row, while what is open is still as before the row. Where it is no plain one its tag is shown alone.
    fn pass_cell(&mut self) -> Result<bool, Refusal>
        requires { (body_of R.DeRead.view self.old).unread ≡ None }
        ensures told { (o : List (Open Column)) (n : ℕ) → due o ≡ Cell → CellTold R.DeRead.lends (staged (body_of R.DeRead.view self.old) o n) result (staged (body_of R.DeRead.view self.new) o n) }
        ensures same { Untouched (body_of R.DeRead.view self.old) (body_of R.DeRead.view self.new) }
        ensures calm { IfOk result (λ k. (body_of R.DeRead.view self.new).unread ≡ (body_of R.DeRead.view self.old).unread) }
    {
        let place = self.bunser.read_count();
        let tag = placed(self.bunser.peek(), place)?;
        match self.plain(tag)? {
            Plain::Other => Ok(false),
            Plain::Passed(_) => Ok(true),
            Plain::Text(text) => self.pass_bytes(text),
        }
    }

    /// Passes the row over that begins next, if all of its cells are plain ones and at hand. Else nothing changes.
    pub(crate) fn skip_at_hand(&mut self) -> Option<usize>
        ensures { AtHandTold R.DeRead.lends (body_of R.DeRead.view self.old) result (body_of R.DeRead.view self.new) }
    {
        if self.unread.is_some() {
            return None;
        }
        let columns = self.opens.row_columns()?;
        let (cells, size) = plain_cells(self.bunser.ahead(), columns);
        if cells < columns || !self.bunser.pass(size) {
            return None;
        }
        let events = 2 + 2 * columns;
        self.opens.pass_row();
        self.count(events);
        Some(events)
    }

    // So many events pass, of which none is a text.
    fn count(&mut self, events: usize)
        ensures { body_of R.DeRead.view self.new ≡ staged (body_of R.DeRead.view self.old) (body_of R.DeRead.view self.old).opens (counted_by events (body_of R.DeRead.view self.old).events) }
    {
        self.passed = self.passed.saturating_add(events);
    }

    // The row has begun, so many cells of it have passed, and the key of the next: so many events.
    fn stop_in_row(&mut self, cells: usize) -> usize
        requires { cells ≤ 256 }
        ensures stops { body_of R.DeRead.view self.new ≡ at_cell cells (body_of R.DeRead.view self.old) }
        ensures tells { result ≡ 2 + 2 * cells }
    {
        let events = 2 + 2 * cells;
        self.opens.enter_row(cells);
        self.opens.turn();
        self.count(events);
        events
    }

    /// Passes the row over that begins next, which has so many columns.
    pub(crate) fn skip_row(&mut self, columns: usize) -> Result<RowPass, Refusal>
        requires calm { (body_of R.DeRead.view self.old).unread ≡ None }
        requires begins { row_columns (body_of R.DeRead.view self.old).opens ≡ Some columns }
        requires few { columns ≤ 256 }
        ensures { RowTold R.DeRead.lends (body_of R.DeRead.view self.old) result (body_of R.DeRead.view self.new) }
    {
        let mut cells = 0usize;
        while cells < columns {
            match self.pass_cell() {
                Ok(true) => cells += 1,
                Ok(false) => return Ok(RowPass::Part(self.stop_in_row(cells))),
                Err(refusal) => {
                    let _events = self.stop_in_row(cells);
                    return Err(refusal);
                }
            }
        }
        let events = 2 + 2 * columns;
        self.opens.pass_row();
        self.count(events);
        Ok(RowPass::Whole(events))
    }
}
