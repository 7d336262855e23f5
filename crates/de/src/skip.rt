//! Events that are passed over.
ghost use Rattle.std.specs.Prelude.{None};
ghost use Rattle.de.specs.Steps.{awaiting, text_step, step};
ghost use Rattle.de.specs.Calls.{PassesOver, Skip};
ghost use Rattle.de.specs.Held.{body_of};

use super::event::{Ahead, RowPass};
use super::events::Events;
use bunser::placed;
use bunser::text::{TextKind, Unread};
use format::refusal::Refusal;
use read::DeRead;

impl<R: DeRead> Events<R> {
    // A text passes over, of which nothing is kept. It is awaited where it is refused.
    fn skip_text(&mut self, text: Unread) -> Result<bool, Refusal>
        ensures { PassesOver R.DeRead.lends (text_step R.DeRead.lends None text (awaiting (body_of R.DeRead.view self.old) (body_of R.DeRead.view self.old).reader text)) result (body_of R.DeRead.view self.new) }
    {
        let place = self.bunser.read_count();
        match placed(self.bunser.pass_text(text), place) {
            Ok(()) => {
                self.move_on(text.kind);
                self.pass();
                Ok(true)
            }
            Err(refusal) => {
                self.unread = Some(text);
                Err(refusal)
            }
        }
    }

    // The next event passes over. False where there is none.
    fn skip_one(&mut self) -> Result<bool, Refusal>
        ensures { PassesOver R.DeRead.lends (step R.DeRead.lends None (body_of R.DeRead.view self.old)) result (body_of R.DeRead.view self.new) }
    {
        match self.coming::<2>()? {
            Ahead::Nothing => Ok(false),
            Ahead::Passed(_) => {
                self.pass();
                Ok(true)
            }
            Ahead::Text(text) => self.skip_text(text),
            Ahead::Column => {
                self.opens.turn();
                self.pass();
                Ok(true)
            }
        }
    }

    /// Passes events over until no more is open than now, and tells how many.
    pub(crate) fn skip(&mut self) -> Result<usize, Refusal>
        ensures { Skip R.DeRead.lends (body_of R.DeRead.view self.old) result (body_of R.DeRead.view self.new) }
    {
        if let Some(events) = self.skip_at_hand() {
            return Ok(events);
        }
        let down = self.opens.nesting();
        let mut passed = 0usize;
        if self.unread.is_none()
            && let Some(columns) = self.opens.row_columns()
        {
            match self.skip_row(columns)? {
                RowPass::Whole(events) => return Ok(events),
                RowPass::Part(events) => passed = events,
            }
        }
        while self.skip_one()? {
            passed = passed.saturating_add(1);
            if self.opens.nesting() <= down {
                return Ok(passed);
            }
        }
        Ok(passed)
    }
}
