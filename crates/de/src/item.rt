//! Items: numbers, texts and what is only a tag, behind a tag that was shown.
ghost use Rattle.de.specs.Steps.{int_comes, real_comes, text_comes, tag_comes, moved, opened, found, Finds, settled};
ghost use Rattle.std.specs.Prelude.{◌≡◌, Ok};
ghost use Rattle.read.specs.Reader.{discarded};
ghost use Rattle.room.specs.Open.{filled};
ghost use Rattle.de.specs.Held.{body_of};
ghost use Rattle.de.specs.declared.event.Event.TheVariants.{Int, Real};
ghost use Rattle.de.specs.declared.event.Ahead.TheVariants.{Passed, Text};

use super::event::{Ahead, Event};
use super::events::Events;
use bunser::placed;
use bunser::text::{TextKind, Unread};
use format::refusal::Refusal;
use format::width::Width;
use read::DeRead;

impl<R: DeRead> Events<R> {
    #[tactic(auto, using(crate::proofs::Finding::then_finds, crate::proofs::Finding::stop_finds), unfolding(crate::specs::Steps::int_comes))]
    pub(crate) fn int<const COPY: usize>(&mut self, width: Width) -> Result<i64, Refusal>
        ensures { Finds (int_comes R.DeRead.lends width (body_of R.DeRead.view self.old)) (found (λ z. Passed (Int width z)) result) (settled (found (λ z. Passed (Int width z)) result) (body_of R.DeRead.view self.new)) }
    {
        let place = self.bunser.read_count();
        self.bunser.discard();
        let value = placed(self.bunser.next_int::<COPY>(width), place)?;
        self.opens.fill();
        Ok(value)
    }

    #[tactic(auto, using(crate::proofs::Finding::then_finds, crate::proofs::Finding::stop_finds), unfolding(crate::specs::Steps::real_comes))]
    pub(crate) fn real(&mut self) -> Result<u64, Refusal>
        ensures { Finds (real_comes R.DeRead.lends (body_of R.DeRead.view self.old)) (found (λ n. Passed (Real n)) result) (settled (found (λ n. Passed (Real n)) result) (body_of R.DeRead.view self.new)) }
    {
        let place = self.bunser.read_count();
        self.bunser.discard();
        let number = placed(self.bunser.next_real(), place)?;
        self.opens.fill();
        Ok(number)
    }

    // A text, once its length is known. It is awaited where its event does not pass.
    #[tactic(auto, using(crate::proofs::Finding::then_finds, crate::proofs::Finding::stop_finds), unfolding(crate::specs::Steps::text_comes))]
    pub(crate) fn text<const COPY: usize>(&mut self, kind: TextKind) -> Result<Unread, Refusal>
        ensures { Finds (text_comes R.DeRead.lends kind (body_of R.DeRead.view self.old)) (found Text result) (settled (found Text result) (body_of R.DeRead.view self.new)) }
    {
        self.bunser.discard();
        let len = self.bunser.placed_count::<COPY>()?;
        Ok(Unread { kind, len })
    }

    // A value that is only its tag is taken.
    fn take_tag(&mut self)
        ensures { body_of R.DeRead.view self.new ≡ opened (moved (body_of R.DeRead.view self.old) (discarded R.DeRead.lends (body_of R.DeRead.view self.old).reader)) (filled (body_of R.DeRead.view self.old).opens) }
    {
        self.bunser.discard();
        self.opens.fill();
    }

    // A value that is only its tag. What it does is a call of its own, so that this one is small enough to be laid out in line.
    #[tactic(auto, unfolding(crate::specs::Steps::tag_comes))]
    pub(crate) fn only_tag(&mut self, event: Event) -> Ahead
        ensures { Finds (tag_comes R.DeRead.lends event (body_of R.DeRead.view self.old)) (Ok result) (settled (Ok result) (body_of R.DeRead.view self.new)) }
    {
        self.take_tag();
        Ahead::Passed(event)
    }
}
