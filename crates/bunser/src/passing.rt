//! Texts that are passed over, of which nothing is kept.
ghost use Rattle.std.specs.Prelude.{◌≡◌, ◌+◌, true, false, []};
ghost use Rattle.utf8.specs.Pieces.{await, complete};
ghost use Rattle.read.specs.Reader.{past, room, put};
ghost use Rattle.bunser.specs.Outcome.{Tells, BodyRead};
ghost use Rattle.bunser.specs.Passing.{verdict_of, whole_read, whole_fronts, text_passed};
ghost use Rattle.bunser.specs.Texts.{checked};

use super::Bunser;
use super::text::{TextKind, Unread};
use format::refusal::ReadError;
use read::{DeRead, Taken};
use utf8::pieces::Awaited;

const PIECE: usize = 64;

// A text that is checked has to end where a character does.
fn verdict(kind: TextKind, awaited: Awaited) -> Result<(), ReadError>
    ensures { result ≡ verdict_of (checked kind) (complete (await awaited)) }
{
    if kind.is_checked() && !awaited.is_complete() {
        return Err(ReadError::NotText);
    }
    Ok(())
}

impl<R: DeRead> Bunser<R> {
    // A text of a reader that copies, where it is known to stay before the end and the stop.
    fn pass_pieces(&mut self, text: Unread) -> Result<(), ReadError>
        requires copies { R.DeRead.lends ≡ false }
        requires ends { past self.old.end ((R.DeRead.view self.old.read).count + text.len) ≡ false }
        requires stops { past (R.DeRead.view self.old.read).stop ((R.DeRead.view self.old.read).count + text.len) ≡ false }
        ensures { BodyRead R.DeRead.view self.old self.new (λ end v. Tells (text_passed R.DeRead.lends end text v) result) }
    {
        let mut piece = [0u8; PIECE];
        let mut awaited = Awaited::Character;
        for _ in 0..text.len / PIECE {
            let _taken = self.read_bytes(PIECE, &mut piece)?;
            awaited = awaited.after(&piece);
        }
        let left = text.len % PIECE;
        let _taken = self.read_bytes(left, &mut piece)?;
        verdict(text.kind, awaited.after(&piece[..left]))
    }

    /// Takes a text whose tag and length were taken, in one read.
    pub fn take_text(&mut self, text: Unread, buf: &mut [u8]) -> Result<Taken, ReadError>
        ensures reads { BodyRead R.DeRead.view self.old self.new (λ end v. Tells (whole_read (checked text.kind) R.DeRead.lends end (room R.DeRead.lends buf.old) text.len v) result) }
        ensures puts { buf.new ≡ put R.DeRead.lends (whole_fronts (checked text.kind) self.old.end (room R.DeRead.lends buf.old) text.len (R.DeRead.view self.old.read)) buf.old }
    {
        // An `if` and no closure: each of the two borrows all of the reader.
        if text.kind.is_checked() {
            self.next_text(text.len, buf)
        } else {
            self.read_bytes(text.len, buf)
        }
    }

    /// Passes a text over: in one read where the reader lends, else in pieces.
    pub fn pass_text(&mut self, text: Unread) -> Result<(), ReadError>
        ensures { BodyRead R.DeRead.view self.old self.new (λ end v. Tells (text_passed R.DeRead.lends end text v) result) }
    {
        // One `match` in the other: three arms were tried, and the proof did not close, since in the last
        // the error is not known to be another than `Room`.
        match self.take_text(text, &mut []) {
            Ok(_) => Ok(()),
            Err(error) => match error {
                ReadError::Room => self.pass_pieces(text),
                _ => Err(error),
            },
        }
    }
}
