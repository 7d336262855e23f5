//! Key room: the keys of the open templates, in fixed memory.
ghost use Rattle.std.specs.Prelude.{◌≡◌, ◌+◌, ◌<◌, ◌≤◌, List, [], ◌∷◌, ◌++◌, length, take, drop, ◌-◌};
ghost use Rattle.bunser.specs.Outcome.{BodyRead};
ghost use Rattle.room.specs.Open.{Column, lent, column_bytes};
ghost use Rattle.room.specs.KeyList.{key_text_read, key_read, keys_read, KeyTold, KeysTold};
ghost use Rattle.room.specs.Shown.{name_of};

use super::slot::{KEY_BYTES, Slot, held, read_slot};
use bunser::Bunser;
use format::refusal::{Kind, Refusal};
use read::DeRead;
use std::marker::Model;

/// How many keys the open templates may hold together.
pub const KEYS: usize = 256;

/// The name of a column, as it is handed out.
#[derive(Clone, Copy)]
pub enum Name<'k> {
    Lent(usize, usize),
    Copied(&'k [u8]),
}

/// The keys of the open templates, those of the innermost last.
#[derive(Drop)]
pub(crate) struct KeyRoom {
    slots: [Slot; KEYS],
    count: usize,
    bytes: [u8; KEY_BYTES],
    used: usize,
}

impl Model for KeyRoom {
    ghost use Rattle.std.specs.Prelude.{List};
    ghost use Rattle.room.specs.Open.{Column};

    ghost Value = { List Column };

    ghost use Rattle.room.specs.Keys.{columns_of, Kept};

    ghost view = { columns_of };

    ghost invariant = { Kept };
}

impl KeyRoom {
    pub(crate) fn new() -> KeyRoom
        ensures { result ≡ [] }
    {
        KeyRoom {
            slots: [Slot::Lent(0, 0); KEYS],
            count: 0,
            bytes: [0; KEY_BYTES],
            used: 0,
        }
    }

    pub(crate) fn len(&self) -> usize
        ensures many { result ≡ length self.now }
        ensures few { result ≤ KEYS }
    {
        self.count
    }

    /// The column at an index.
    pub(crate) fn name(&self, index: usize) -> Name<'_>
        requires { index < length self.now }
        ensures { drop index self.now ≡ name_of result ∷ drop (index + 1) self.now }
    {
        let slots = &self.slots;
        let slot = slots[index];
        match slot {
            Slot::Lent(place, len) => Name::Lent(place, len),
            Slot::Held(first, len) => Name::Copied(held(&self.bytes, first, len)),
        }
    }

    fn pop(&mut self)
        requires { 0 < length self.old }
        ensures { self.new ≡ take (length self.old - 1) self.old }
    {
        self.count -= 1;
        let slot = self.slots[self.count];
        self.used = slot.begin(self.used);
    }

    /// Keeps the first n keys alone.
    pub(crate) fn truncate(&mut self, n: usize)
        requires { n ≤ length self.old }
        ensures { self.new ≡ take n self.old }
    {
        while self.len() > n {
            self.pop();
        }
    }

    // The text of a key goes behind the keys that are there.
    fn read_text<R: DeRead>(&mut self, bunser: &mut Bunser<R>, len: usize) -> Result<(), Refusal>
        requires { length self.old < KEYS }
        ensures { BodyRead R.DeRead.view bunser.old bunser.new (λ end v. KeyTold (key_text_read R.DeRead.lends end (column_bytes self.old) len v) self.old result self.new) }
    {
        let slot = read_slot(bunser, &mut self.bytes, self.used, len)?;
        self.slots[self.count] = slot;
        self.count += 1;
        self.used = slot.end(self.used);
        Ok(())
    }

    fn read_key<R: DeRead>(&mut self, bunser: &mut Bunser<R>) -> Result<(), Refusal>
        requires { length self.old < KEYS }
        ensures { BodyRead R.DeRead.view bunser.old bunser.new (λ end v. KeyTold (key_read R.DeRead.lends end (column_bytes self.old) v) self.old result self.new) }
    {
        let len = bunser.key_len(Kind::TemplateKey)?;
        self.read_text(bunser, len)
    }

    /// Reads n keys, for which there is room by number.
    pub(crate) fn read_keys<R: DeRead>(
        &mut self,
        bunser: &mut Bunser<R>,
        n: usize,
    ) -> Result<(), Refusal>
        requires { length self.old + n ≤ KEYS }
        ensures few { length self.new ≤ KEYS }
        ensures reads { BodyRead R.DeRead.view bunser.old bunser.new (λ end v. KeysTold (keys_read R.DeRead.lends end (column_bytes self.old) n v) self.old result self.new) }
    {
        for _ in 0..n {
            self.read_key(bunser)?;
        }
        Ok(())
    }
}
