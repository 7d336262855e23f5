//! Arrays and objects, behind a tag that was shown.
ghost use Rattle.std.specs.Prelude.{◌≡◌};
ghost use Rattle.room.specs.Open.{items, pairs, ended, row_turned};
ghost use Rattle.de.specs.Steps.{array_comes, object_comes, key_comes, turns, refuse, found, Finds, settled};
ghost use Rattle.de.specs.Held.{body_of};
ghost use Rattle.de.specs.declared.event.Ahead.TheVariants.{Passed, Text};
ghost use Rattle.de.specs.declared.event.Event.TheVariants.{ArrayBegin, MapBegin};
ghost use Rattle.format.specs.declared.refusal.Cause.TheVariants.{Depth};
ghost use Rattle.std.specs.Prelude.{Ok};

use super::event::{Ahead, Event};
use super::events::Events;
use bunser::text::{TextKind, Unread};
use format::refusal::{Cause, Kind, Refusal};
use read::DeRead;

impl<R: DeRead> Events<R> {
    // The refusal of a container for which no level is free.
    pub(crate) fn too_deep(&self) -> Refusal
        ensures { result ≡ refuse Depth (body_of R.DeRead.view self.now).reader.count }
    {
        Refusal {
            place: self.bunser.read_count(),
            cause: Cause::Depth,
        }
    }

    #[tactic(auto, using(crate::proofs::Finding::then_finds, crate::proofs::Finding::stop_finds), unfolding(crate::specs::Steps::array_comes))]
    pub(crate) fn array(&mut self) -> Result<(), Refusal>
        ensures { Finds (array_comes R.DeRead.lends (body_of R.DeRead.view self.old)) (found (λ _. Passed ArrayBegin) result) (settled (found (λ _. Passed ArrayBegin) result) (body_of R.DeRead.view self.new)) }
    {
        if !self.opens.is_free() {
            return Err(self.too_deep());
        }
        self.bunser.discard();
        let n = self.bunser.placed_count::<0>()?;
        self.opens.items(n);
        Ok(())
    }

    #[tactic(auto, using(crate::proofs::Finding::then_finds, crate::proofs::Finding::stop_finds), unfolding(crate::specs::Steps::object_comes))]
    pub(crate) fn object(&mut self) -> Result<(), Refusal>
        ensures { Finds (object_comes R.DeRead.lends (body_of R.DeRead.view self.old)) (found (λ _. Passed MapBegin) result) (settled (found (λ _. Passed MapBegin) result) (body_of R.DeRead.view self.new)) }
    {
        if !self.opens.is_free() {
            return Err(self.too_deep());
        }
        self.bunser.discard();
        let n = self.bunser.placed_count::<0>()?;
        self.opens.pairs(n);
        Ok(())
    }

    // The key of a pair, once the length of its text is known.
    #[tactic(auto, using(crate::proofs::Finding::then_finds, crate::proofs::Finding::stop_finds), unfolding(crate::specs::Steps::key_comes))]
    pub(crate) fn map_key(&mut self) -> Result<Unread, Refusal>
        ensures { Finds (key_comes R.DeRead.lends (body_of R.DeRead.view self.old)) (found Text result) (settled (found Text result) (body_of R.DeRead.view self.new)) }
    {
        let len = self.bunser.key_len(Kind::MapKey)?;
        Ok(Unread {
            kind: TextKind::Key,
            len,
        })
    }

    // The innermost has ended.
    pub(crate) fn end(&mut self, event: Event) -> Ahead
        ensures { Finds (turns event (body_of R.DeRead.view self.old) (ended (body_of R.DeRead.view self.old).opens)) (Ok result) (settled (Ok result) (body_of R.DeRead.view self.new)) }
    {
        self.opens.end();
        Ahead::Passed(event)
    }
}
