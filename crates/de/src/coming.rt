//! What comes of a body, by what is open and by the tag.
ghost use Rattle.std.specs.Prelude.{◌≡◌, Ok};
ghost use Rattle.de.specs.Steps.{tagged, item_comes, coming, Finds, settled};
ghost use Rattle.de.specs.Held.{body_of, may_gap, kind_of};

use super::event::{Ahead, Event};
use super::events::Events;
use bunser::placed;
use bunser::text::TextKind;
use format::refusal::{Kind, ReadError, Refusal};
use format::tags::Tag;
use read::DeRead;
use room::due::Due;

// What begins with the tag of byte strings, or else with that of texts.
pub(crate) fn kind_of(tag: Tag) -> TextKind
    ensures { result ≡ kind_of tag }
{
    match tag {
        Tag::ByteString => TextKind::Bytes,
        _ => TextKind::Text,
    }
}

// `COPY` changes nothing of what comes. With it `next` and `skip` have a copy each, which the compiler lays out in line
// where it is called; one copy for both took twice the time.
impl<R: DeRead> Events<R> {
    // An item by its tag, which was shown: a gap may stand where a cell is due.
    #[tactic(auto, unfolding(crate::specs::Steps::tagged))]
    fn tagged<const COPY: usize>(&mut self, due: Due, tag: u8) -> Result<Ahead, Refusal>
        ensures { Finds (tagged R.DeRead.lends (may_gap due) tag (body_of R.DeRead.view self.old)) result (settled result (body_of R.DeRead.view self.new)) }
    {
        match (due, Tag::try_from(tag)) {
            (_, Ok(Tag::Array)) => {
                self.array()?;
                Ok(Ahead::Passed(Event::ArrayBegin))
            }
            (_, Ok(Tag::Object)) => {
                self.object()?;
                Ok(Ahead::Passed(Event::MapBegin))
            }
            (_, Ok(Tag::Template)) => {
                self.template()?;
                Ok(Ahead::Passed(Event::ArrayBegin))
            }
            (_, Ok(text @ (Tag::ByteString | Tag::Utf8String))) => {
                Ok(Ahead::Text(self.text::<COPY>(kind_of(text))?))
            }
            (_, Ok(Tag::Int(width))) => {
                let value = self.int::<COPY>(width)?;
                Ok(Ahead::Passed(Event::Int(width, value)))
            }
            (_, Ok(Tag::Real)) => Ok(Ahead::Passed(Event::Real(self.real()?))),
            (_, Ok(Tag::True)) => Ok(self.only_tag(Event::True)),
            (_, Ok(Tag::False)) => Ok(self.only_tag(Event::False)),
            (_, Ok(Tag::Null)) => Ok(self.only_tag(Event::Null)),
            (Due::Cell, Ok(Tag::Skip)) => Ok(self.only_tag(Event::Absent)),
            (_, Ok(Tag::Skip) | Err(_)) => {
                Err(ReadError::Byte(Kind::NextItem, tag).at(self.bunser.read_count()))
            }
        }
    }

    #[tactic(auto, using(crate::proofs::Finding::then_finds, crate::proofs::Finding::stop_finds), unfolding(crate::specs::Steps::item_comes))]
    fn item<const COPY: usize>(&mut self, due: Due) -> Result<Ahead, Refusal>
        ensures { Finds (item_comes R.DeRead.lends (may_gap due) (body_of R.DeRead.view self.old)) result (settled result (body_of R.DeRead.view self.new)) }
    {
        let place = self.bunser.read_count();
        let tag = placed(self.bunser.peek(), place)?;
        self.tagged::<COPY>(due, tag)
    }

    /// What comes next. An event that needs no text has passed then.
    #[tactic(auto, unfolding(crate::specs::Steps::coming))]
    pub(crate) fn coming<const COPY: usize>(&mut self) -> Result<Ahead, Refusal>
        ensures { Finds (coming R.DeRead.lends (body_of R.DeRead.view self.old)) result (settled result (body_of R.DeRead.view self.new)) }
    {
        if let Some(text) = self.unread {
            return Ok(Ahead::Text(text));
        }
        match self.opens.due() {
            Due::Done => Ok(Ahead::Nothing),
            due @ (Due::Value | Due::Cell) => self.item::<COPY>(due),
            Due::MapKey => Ok(Ahead::Text(self.map_key()?)),
            Due::RowBegin => Ok(self.turn(Event::MapBegin)),
            Due::RowKey => Ok(Ahead::Column),
            Due::RowEnd => Ok(self.turn(Event::MapEnd)),
            Due::MapEnd => Ok(self.end(Event::MapEnd)),
            Due::ArrayEnd => Ok(self.end(Event::ArrayEnd)),
        }
    }
}
