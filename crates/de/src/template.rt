//! Templates, behind a tag that was shown, and their rows.
ghost use Rattle.std.specs.Prelude.{◌<◌, Ok};
ghost use Rattle.room.specs.Open.{depth, row_turned};
ghost use Rattle.de.specs.Steps.{template_comes, rows_come, turns, found, Finds, settled};
ghost use Rattle.de.specs.Held.{body_of};
ghost use Rattle.de.specs.declared.event.Ahead.TheVariants.{Passed};
ghost use Rattle.de.specs.declared.event.Event.TheVariants.{ArrayBegin};

use super::event::{Ahead, Event};
use super::events::Events;
use format::refusal::{Cause, Refusal};
use read::DeRead;

impl<R: DeRead> Events<R> {
    // The rows of a template whose keys were listed.
    #[tactic(auto, using(crate::proofs::Finding::then_finds, crate::proofs::Finding::stop_finds), unfolding(crate::specs::Steps::rows_come))]
    fn rows(&mut self) -> Result<(), Refusal>
        requires { depth self.old.opens.opens < 128 }
        ensures { Finds (rows_come R.DeRead.lends self.old.opens.listed (body_of R.DeRead.view self.old) (body_of R.DeRead.view self.old).reader) (found (λ _. Passed ArrayBegin) result) (settled (found (λ _. Passed ArrayBegin) result) (body_of R.DeRead.view self.new)) }
    {
        let place = self.bunser.read_count();
        let n = self.bunser.placed_count::<0>()?;
        if n > 0 && self.opens.listed() == 0 {
            return Err(Refusal {
                place,
                cause: Cause::NoKeys,
            });
        }
        self.opens.rows(n);
        Ok(())
    }

    #[tactic(auto, using(crate::proofs::Finding::then_finds, crate::proofs::Finding::stop_finds), unfolding(crate::specs::Steps::template_comes))]
    pub(crate) fn template(&mut self) -> Result<(), Refusal>
        ensures { Finds (template_comes R.DeRead.lends (body_of R.DeRead.view self.old)) (found (λ _. Passed ArrayBegin) result) (settled (found (λ _. Passed ArrayBegin) result) (body_of R.DeRead.view self.new)) }
    {
        if !self.opens.is_free() {
            return Err(self.too_deep());
        }
        self.bunser.discard();
        self.opens.read_keys(&mut self.bunser)?;
        self.rows()
    }

    // A row begins or ends.
    pub(crate) fn turn(&mut self, event: Event) -> Ahead
        ensures { Finds (turns event (body_of R.DeRead.view self.old) (row_turned (body_of R.DeRead.view self.old).opens)) (Ok result) (settled (Ok result) (body_of R.DeRead.view self.new)) }
    {
        self.opens.turn();
        Ahead::Passed(event)
    }
}
