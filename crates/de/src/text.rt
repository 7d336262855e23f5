//! The bytes of a text, and the key of a column.
ghost use Rattle.std.specs.Prelude.{◌≡◌, length, Some};
ghost use Rattle.source.specs.Feed.{fronted};
ghost use Rattle.room.specs.Open.{column};
ghost use Rattle.de.specs.Steps.{awaiting, opened, text_event, behind_text, text_step, column_step, step, puts, Says};
ghost use Rattle.de.specs.Held.{body_of, column_shown, column_front};

use super::event::{Ahead, Event};
use super::events::Events;
use bunser::placed;
use bunser::text::{Span, TextKind, Unread};
use format::refusal::{ReadError, Refusal};
use read::{DeRead, Taken};
use room::keys::Name;

// The event of a text of this kind.
fn event_of(kind: TextKind, span: Span) -> Event
    ensures { result ≡ text_event kind span }
{
    match kind {
        TextKind::Bytes => Event::Bytes(span),
        TextKind::Text => Event::Text(span),
        TextKind::Key => Event::Key(span),
    }
}

impl<R: DeRead> Events<R> {
    // A text has come: a value, or a key, which is followed by its value.
    pub(crate) fn move_on(&mut self, kind: TextKind)
        ensures { body_of R.DeRead.view self.new ≡ opened (body_of R.DeRead.view self.old) (behind_text kind (body_of R.DeRead.view self.old).opens) }
    {
        match kind {
            TextKind::Bytes | TextKind::Text => self.opens.fill(),
            TextKind::Key => self.opens.key(),
        }
    }

    // A text that has come before its event, which it awaits where it is refused.
    #[tactic(auto, unfolding(crate::specs::Steps::text_step))]
    fn read_text(&mut self, text: Unread, buf: &mut [u8]) -> Result<Option<Event>, Refusal>
        ensures says { Says (text_step R.DeRead.lends (Some (length buf.old)) text (awaiting (body_of R.DeRead.view self.old) (body_of R.DeRead.view self.old).reader text)) result (body_of R.DeRead.view self.new) }
        ensures puts { buf.new ≡ fronted (puts (text_step R.DeRead.lends (Some (length buf.old)) text (awaiting (body_of R.DeRead.view self.old) (body_of R.DeRead.view self.old).reader text))) buf.old }
    {
        let place = self.bunser.read_count();
        let taken = match placed(self.bunser.take_text(text, buf), place) {
            Ok(taken) => taken,
            Err(refusal) => {
                self.unread = Some(text);
                return Err(refusal);
            }
        };
        let span = Span {
            taken,
            len: text.len,
        };
        self.move_on(text.kind);
        self.pass();
        Ok(Some(event_of(text.kind, span)))
    }

    // A key that was copied goes to the front of the buffer.
    fn show_column(&self, buf: &mut [u8]) -> Result<Span, Refusal>
        ensures gives { result ≡ column_shown (column (body_of R.DeRead.view self.now).opens) (body_of R.DeRead.view self.now).reader.count (length buf.old) }
        ensures puts { buf.new ≡ fronted (column_front (column (body_of R.DeRead.view self.now).opens) (length buf.old)) buf.old }
    {
        let place = self.bunser.read_count();
        match self.opens.column() {
            Name::Lent(place, len) => Ok(Span {
                taken: Taken::Lent(place),
                len,
            }),
            Name::Copied(bytes) => {
                let len = bytes.len();
                if len > buf.len() {
                    return Err(ReadError::Room.at(place));
                }
                buf[..len].copy_from_slice(bytes);
                Ok(Span {
                    taken: Taken::Copied,
                    len,
                })
            }
        }
    }

    #[tactic(auto, unfolding(crate::specs::Steps::column_step))]
    fn read_column(&mut self, buf: &mut [u8]) -> Result<Option<Event>, Refusal>
        ensures says { Says (column_step (Some (length buf.old)) (body_of R.DeRead.view self.old)) result (body_of R.DeRead.view self.new) }
        ensures puts { buf.new ≡ fronted (puts (column_step (Some (length buf.old)) (body_of R.DeRead.view self.old))) buf.old }
    {
        let span = self.show_column(buf)?;
        self.opens.turn();
        self.pass();
        Ok(Some(Event::Key(span)))
    }

    /// The next event, whose bytes go to the front of the buffer where they are copied.
    #[tactic(auto, unfolding(crate::specs::Steps::step))]
    pub(crate) fn next(&mut self, buf: &mut [u8]) -> Result<Option<Event>, Refusal>
        ensures says { Says (step R.DeRead.lends (Some (length buf.old)) (body_of R.DeRead.view self.old)) result (body_of R.DeRead.view self.new) }
        ensures puts { buf.new ≡ fronted (puts (step R.DeRead.lends (Some (length buf.old)) (body_of R.DeRead.view self.old))) buf.old }
    {
        match self.coming::<1>()? {
            Ahead::Nothing => Ok(None),
            Ahead::Passed(event) => {
                self.pass();
                Ok(Some(event))
            }
            Ahead::Text(text) => self.read_text(text, buf),
            Ahead::Column => self.read_column(buf),
        }
    }
}
