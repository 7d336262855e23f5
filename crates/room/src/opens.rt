//! What is open of a body, in fixed memory.
ghost use Rattle.std.specs.Prelude.{◌≡◌, ◌+◌, ◌-◌, ◌<◌, ◌≤◌, List, [], ◌∷◌, length, set, nat_lt, MatchOption};
ghost use Rattle.bunser.specs.Outcome.{BodyRead};
ghost use Rattle.room.specs.Open.{Open, start, items, pairs, rows, due, filled, keyed, row_turned, row_columns, within_row, past_row, ended, column, depth, nesting, keys_held, bytes_held, column_bytes};
ghost use Rattle.room.specs.KeyList.{listed_read, key_list_read, KeysTold, ListTold};
ghost use Rattle.room.specs.Opened.{with_opens, if_free};
ghost use Rattle.room.specs.Frames.{over, Plain};
ghost use Rattle.room.specs.Shown.{name_of};

use super::depth::{Depth, LEVELS, Level};
use super::due::Due;
use super::frame::{Frame, Table};
use super::keys::{KEYS, KeyRoom, Name};
use bunser::{Bunser, placed};
use format::refusal::{Cause, Kind, ReadError, Refusal};
use format::tags::Tag;
use read::DeRead;
use std::marker::Model;

/// The open levels, and the keys of the open templates.
#[derive(Drop)]
pub struct Opens {
    // By itself, since almost every event is about it alone.
    /// What stands innermost.
    top: Frame,
    /// What stands below it, the lowest first.
    frames: [Frame; LEVELS],
    depth: Depth,
    /// How many rows are open.
    rows: usize,
    keys: KeyRoom,
    /// How many keys the open templates hold: those behind them have no template yet.
    own: usize,
}

impl Model for Opens {
    ghost use Rattle.room.specs.Opened.{Opened};

    ghost Value = { Opened };

    ghost use Rattle.room.specs.Opens.{opened, Kept};

    ghost view = { opened };

    ghost invariant = { Kept };
}

// A level is taken. What stood innermost stands below it.
fn push(frames: &mut [Frame; LEVELS], depth: &mut Depth, below: Frame)
    requires free { 0 < depth.old.free }
    requires all { (depth.old.free ≤ 128) × (length frames.old ≡ 128) }
    ensures there { frames.new ≡ set frames.old (128 - depth.old.free) below }
    ensures less { depth.new.free ≡ depth.old.free - 1 }
{
    frames[depth.taken()] = below;
    depth.free -= 1;
}

// The keys of a list, whose level is given back on every way out. The list begins with its tag, which was shown.
fn read_listed<R: DeRead>(
    keys: &mut KeyRoom,
    bunser: &mut Bunser<R>,
    level: Level<'_>,
) -> Result<(), Refusal>
    requires { level.0.now.free < 255 }
    ensures level { level.exit.0.now.free ≡ level.entry.0.now.free + 1 }
    ensures few { length keys.new ≤ KEYS }
    ensures reads { BodyRead R.DeRead.view bunser.old bunser.new (λ end v. KeysTold (listed_read R.DeRead.lends end (length keys.old) (column_bytes keys.old) v) keys.old result keys.new) }
{
    let held = keys.len();
    bunser.discard();
    let place = bunser.read_count();
    let count = bunser.placed_count::<0>()?;
    if count > KEYS - held {
        return Err(Refusal {
            place,
            cause: Cause::KeyRoom,
        });
    }
    keys.read_keys(bunser, count)
}

impl Opens {
    pub fn new() -> Opens
        ensures { result ≡ record { opens = []; listed = [] } }
    {
        Opens {
            top: Frame::Done,
            frames: [Frame::Done; LEVELS],
            depth: Depth { free: 128 },
            rows: 0,
            keys: KeyRoom::new(),
            own: 0,
        }
    }

    /// One value is to come, and nothing else is open.
    pub fn begin(&mut self)
        ensures { self.new ≡ record { opens = start ∷ []; listed = [] } }
    {
        self.keys.truncate(0);
        self.top = Frame::Start;
        self.depth.free = 128;
        self.rows = 0;
        self.own = 0;
    }

    /// Whether a level is free.
    pub fn is_free(&self) -> bool
        ensures { result ≡ nat_lt (depth self.now.opens) LEVELS }
    {
        self.depth.free > 0
    }

    /// How many arrays, objects, templates and rows are open.
    pub fn nesting(&self) -> usize
        ensures { result ≡ nesting self.now.opens }
    {
        self.depth.taken() + self.rows
    }

    /// How many keys have been read of a list whose template has not begun.
    pub fn listed(&self) -> usize
        ensures { result ≡ length self.now.listed }
    {
        self.keys.len() - self.own
    }

    /// What comes next.
    pub fn due(&self) -> Due
        ensures { result ≡ due self.now.opens }
    {
        self.top.due()
    }

    /// The column whose key comes next.
    pub fn column(&self) -> Name<'_>
        ensures { name_of result ≡ column self.now.opens }
    {
        match self.top.column() {
            Some(index) => self.keys.name(index),
            None => Name::Copied(&[]),
        }
    }

    /// A value has begun.
    pub fn fill(&mut self)
        ensures { self.new ≡ with_opens self.old (filled self.old.opens) }
    {
        self.top.fill();
    }

    /// The key of a pair has passed.
    pub fn key(&mut self)
        ensures { self.new ≡ with_opens self.old (keyed self.old.opens) }
    {
        self.top.key();
    }

    /// A row begins, the key of a column passes, or a row ends.
    pub fn turn(&mut self)
        ensures { self.new ≡ with_opens self.old (row_turned self.old.opens) }
    {
        let rows = self.rows - self.top.rows();
        self.top.turn();
        self.rows = rows + self.top.rows();
    }

    /// How many columns the row has that begins next, if one does.
    pub fn row_columns(&self) -> Option<usize>
        ensures told { result ≡ row_columns self.now.opens }
        ensures few { MatchOption result (Unit {0}) (λ n. n ≤ 256) }
    {
        self.top.row_columns()
    }

    /// The row that begins next has begun, and so many cells of it have passed.
    pub fn enter_row(&mut self, cells: usize)
        ensures { self.new ≡ with_opens self.old (within_row cells self.old.opens) }
    {
        let rows = self.rows - self.top.rows();
        self.top.enter_row(cells);
        self.rows = rows + self.top.rows();
    }

    /// The row that begins next has passed.
    pub fn pass_row(&mut self)
        ensures { self.new ≡ with_opens self.old (past_row self.old.opens) }
    {
        self.top.pass_row();
    }

    // The innermost level is given back.
    fn pop(&mut self)
        ensures { self.new.opens ≡ ended self.old.opens }
    {
        let taken = self.depth.taken();
        if taken > 0 {
            self.rows -= self.top.rows();
            self.own = self.top.below(self.own);
            self.top = self.frames[taken - 1];
            self.depth.free += 1;
        } else {
            self.top = Frame::Done;
        }
    }

    // Keys that no template holds are given back.
    fn forget(&mut self)
        ensures { self.new ≡ record { opens = self.old.opens; listed = [] } }
    {
        let own = self.own;
        self.keys.truncate(own);
    }

    /// The innermost has ended. A template gives its keys back.
    pub fn end(&mut self)
        ensures { self.new ≡ record { opens = ended self.old.opens; listed = [] } }
    {
        self.pop();
        self.forget();
    }

    // A level is taken by an array or an object, whose place is taken.
    fn push(&mut self, frame: Frame)
        requires free { depth self.old.opens < LEVELS }
        requires plain { Plain frame }
        ensures { self.new ≡ with_opens self.old (over [] frame (filled self.old.opens)) }
    {
        self.fill();
        push(&mut self.frames, &mut self.depth, self.top);
        self.top = frame;
    }

    /// An array of n values begins. Where no level is free it does not.
    pub fn items(&mut self, n: usize)
        ensures { self.new ≡ if_free self.old (with_opens self.old (items n ∷ filled self.old.opens)) }
    {
        if self.is_free() {
            self.push(Frame::Items(n));
        }
    }

    /// An object of n pairs begins. Where no level is free it does not.
    pub fn pairs(&mut self, n: usize)
        ensures { self.new ≡ if_free self.old (with_opens self.old (pairs n ∷ filled self.old.opens)) }
    {
        if self.is_free() {
            self.push(Frame::Pairs(n));
        }
    }

    // The list behind its tag, which was shown, where two levels are free: the template's own and the list's.
    fn read_list<R: DeRead>(&mut self, bunser: &mut Bunser<R>) -> Result<(), Refusal>
        requires free { depth self.old.opens + 1 < LEVELS }
        requires none { self.old.listed ≡ [] }
        ensures { BodyRead R.DeRead.view bunser.old bunser.new (λ end v. ListTold (listed_read R.DeRead.lends end (keys_held self.old.opens) (bytes_held column_bytes self.old.opens) v) self.old.opens result self.new) }
    {
        let mut depth = self.depth.below();
        let read = {
            let level = Level(&mut depth);
            read_listed(&mut self.keys, bunser, level)
        };
        self.depth = depth.above();
        match read {
            Ok(()) => Ok(()),
            Err(refusal) => {
                self.forget();
                Err(refusal)
            }
        }
    }

    /// Reads the key list of a template. It has a level of its own, behind the template's.
    pub fn read_keys<R: DeRead>(&mut self, bunser: &mut Bunser<R>) -> Result<(), Refusal>
        ensures { BodyRead R.DeRead.view bunser.old bunser.new (λ end v. ListTold (key_list_read R.DeRead.lends end (depth self.old.opens) (keys_held self.old.opens) (bytes_held column_bytes self.old.opens) v) self.old.opens result self.new) }
    {
        self.forget();
        let place = bunser.read_count();
        let tag = placed(bunser.peek(), place)?;
        if tag != u8::from(Tag::Array) {
            return Err(ReadError::Byte(Kind::KeyList, tag).at(place));
        }
        if !self.depth.has_two() {
            return Err(Refusal {
                place,
                cause: Cause::Depth,
            });
        }
        self.read_list(bunser)
    }

    // A level is taken by a template, whose columns are the keys that were listed.
    fn push_rows(&mut self, n: usize)
        requires { depth self.old.opens < LEVELS }
        ensures { self.new ≡ record { opens = rows self.old.listed n ∷ filled self.old.opens; listed = [] } }
    {
        self.fill();
        let first = self.own;
        let own = self.keys.len();
        let table = Table {
            first,
            len: own - first,
        };
        push(&mut self.frames, &mut self.depth, self.top);
        self.top = Frame::Rows(table, n);
        self.own = own;
    }

    /// A template of n rows begins: its columns are the keys that were listed. Where no level is free it does not.
    pub fn rows(&mut self, n: usize)
        ensures { self.new ≡ if_free self.old (record { opens = rows self.old.listed n ∷ filled self.old.opens; listed = [] }) }
    {
        if self.is_free() {
            self.push_rows(n);
        }
    }
}
