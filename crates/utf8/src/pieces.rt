//! The same check over a text that comes in pieces.
ghost use Rattle.std.specs.Prelude.{◌≡◌};
ghost use Rattle.utf8.specs.Utf8.{first, further};
ghost use Rattle.utf8.specs.Pieces.{await, turned, all_turned, complete};

/// What may come next in a text of which a part was checked.
#[derive(Clone, Copy, PartialEq, Eq, Debug)]
pub enum Awaited {
    /// A character, or the end.
    Character,
    /// A byte from `low` to `high`, and then `more` from 80 to bf.
    Range { low: u8, high: u8, more: u8 },
    /// Nothing: what came is not UTF-8.
    Nothing,
}

// What follows the first byte of a character.
pub(crate) fn behind_first(byte: u8) -> Awaited
    ensures { await result ≡ first byte }
{
    let (low, high, more) = match byte {
        0x00..=0x7f => return Awaited::Character,
        0xc2..=0xdf => (0x80, 0xbf, 0),
        0xe0 => (0xa0, 0xbf, 1),
        0xed => (0x80, 0x9f, 1),
        0xe1..=0xef => (0x80, 0xbf, 1),
        0xf0 => (0x90, 0xbf, 2),
        0xf1..=0xf3 => (0x80, 0xbf, 2),
        0xf4 => (0x80, 0x8f, 2),
        _ => return Awaited::Nothing,
    };
    Awaited::Range { low, high, more }
}

// What follows when so many bytes of a character are still to come.
fn behind(more: u8) -> Awaited
    ensures { await result ≡ further more }
{
    match more {
        0 => Awaited::Character,
        _ => Awaited::Range {
            low: 0x80,
            high: 0xbf,
            more: more - 1,
        },
    }
}

impl Awaited {
    // One byte has come.
    fn turn(self, byte: u8) -> Awaited
        ensures { await result ≡ turned (await self) byte }
    {
        match self {
            Awaited::Character => behind_first(byte),
            Awaited::Range { low, high, more } if (low..=high).contains(&byte) => behind(more),
            Awaited::Range { .. } | Awaited::Nothing => Awaited::Nothing,
        }
    }

    /// What may come next once these bytes have come too.
    pub fn after(self, piece: &[u8]) -> Awaited
        ensures { await result ≡ all_turned (await self) piece.now }
    {
        piece.iter().fold(self, |state, byte| state.turn(*byte))
    }

    /// Whether the text may end here.
    pub fn is_complete(self) -> bool
        ensures { result ≡ complete (await self) }
    {
        matches!(self, Awaited::Character)
    }
}
