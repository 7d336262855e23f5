//! Where one key of key room lies, and how its text is read.
ghost use Rattle.std.specs.Prelude.{◌≡◌, ◌+◌, ◌≤◌, take, drop};
ghost use Rattle.bunser.specs.Outcome.{BodyRead};
ghost use Rattle.room.specs.KeyList.{room_refusal, room_result, key_text_read};
ghost use Rattle.room.specs.Slots.{begin_of, end_of, SlotTold};

use bunser::Bunser;
use format::refusal::{Cause, ReadError, Refusal};
use read::{DeRead, Taken};

/// How many bytes of copied keys the open templates may hold together.
pub const KEY_BYTES: usize = 4096;

/// Where the bytes of a key lie, and how many they are.
#[derive(Clone, Copy)]
pub(crate) enum Slot {
    /// The reader keeps them from this place on.
    Lent(usize, usize),
    /// Key room holds them from this index on.
    Held(usize, usize),
}

impl Slot {
    // How many bytes are used before this key, where so many are behind it.
    pub(crate) fn begin(self, used: usize) -> usize
        ensures { result ≡ begin_of self used }
    {
        match self {
            Slot::Lent(_, _) => used,
            Slot::Held(first, _) => first,
        }
    }

    // How many bytes are used behind this key, where so many are before it.
    pub(crate) fn end(self, used: usize) -> usize
        requires { end_of self used ≤ KEY_BYTES }
        ensures { result ≡ end_of self used }
    {
        match self {
            Slot::Lent(_, _) => used,
            Slot::Held(first, len) => first + len,
        }
    }
}

// So many bytes from an index on.
pub(crate) fn held(bytes: &[u8; KEY_BYTES], first: usize, len: usize) -> &[u8]
    requires { first + len ≤ KEY_BYTES }
    ensures { result.now ≡ take len (drop first bytes.now) }
{
    &bytes[first..first + len]
}

// Want of room for a key is want of key room.
fn refusal(error: ReadError, place: usize) -> Refusal
    ensures { result ≡ room_refusal place error }
{
    match error {
        ReadError::Room => Refusal {
            place,
            cause: Cause::KeyRoom,
        },
        _ => error.at(place),
    }
}

fn in_key_room(read: Result<Taken, ReadError>, place: usize) -> Result<Taken, Refusal>
    ensures { result ≡ room_result place read }
{
    read.map_err(|error| refusal(error, place))
}

// The text of a key goes to the bytes that are free.
pub(crate) fn read_slot<R: DeRead>(
    bunser: &mut Bunser<R>,
    bytes: &mut [u8; KEY_BYTES],
    used: usize,
    len: usize,
) -> Result<Slot, Refusal>
    requires { used ≤ KEY_BYTES }
    ensures { BodyRead R.DeRead.view bunser.old bunser.new (λ end v. SlotTold (key_text_read R.DeRead.lends end used len v) used bytes.old result bytes.new) }
{
    let place = bunser.read_count();
    let taken = in_key_room(bunser.next_text(len, &mut bytes[used..]), place)?;
    Ok(match taken {
        Taken::Lent(place) => Slot::Lent(place, len),
        Taken::Copied => Slot::Held(used, len),
    })
}
