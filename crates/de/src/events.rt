//! The events of a body, one after the other.
ghost use Rattle.std.specs.Prelude.{◌≡◌, ◌+◌, ◌≤◌, IfOk};
ghost use Rattle.room.specs.Open.{start, filled, keyed, row_turned, ended};
ghost use Rattle.de.specs.Steps.{behind, due_comes, item_comes, coming, Finds};
ghost use Rattle.bunser.specs.Reads.{header_read};
ghost use Rattle.de.specs.Calls.{finished};
ghost use Rattle.de.specs.Held.{body_of, unread_body, HeaderTold};

use bunser::text::Unread;
use bunser::{Bunser, Header};
use format::refusal::Refusal;
use read::DeRead;
use room::due::Due;
use room::opens::Opens;

/// A body that is read event by event.
#[derive(Drop)]
pub struct Events<R: DeRead> {
    pub(crate) bunser: Bunser<R>,
    pub(crate) opens: Opens,
    /// A text whose tag and length were taken, and whose event has not passed.
    pub(crate) unread: Option<Unread>,
    /// How many events have passed.
    pub(crate) passed: usize,
}

impl<R: DeRead> Events<R> {
    pub(crate) fn new(reader: R) -> Events<R>
        ensures { body_of R.DeRead.view result ≡ unread_body (R.DeRead.view reader) }
    {
        Events {
            bunser: Bunser::new(reader),
            opens: Opens::new(),
            unread: None,
            passed: 0,
        }
    }

    // An event passes, and no text is awaited.
    pub(crate) fn pass(&mut self)
        ensures { body_of R.DeRead.view self.new ≡ behind (body_of R.DeRead.view self.old) (body_of R.DeRead.view self.old).reader (body_of R.DeRead.view self.old).opens }
    {
        // A test and no plain write: in most places it is known that none is awaited, and then nothing is written.
        if self.unread.is_some() {
            self.unread = None;
        }
        self.passed = self.passed.saturating_add(1);
    }

    // The header of a PDU; its one value is to come.
    pub(crate) fn open(&mut self) -> Result<Header, Refusal>
        ensures told { HeaderTold (header_read R.DeRead.lends (body_of R.DeRead.view self.old).reader) (body_of R.DeRead.view self.old) result (body_of R.DeRead.view self.new) }
        ensures bounds { IfOk result (λ h. h.start + h.length ≤ 1152921504606846976) }
    {
        let header = self.bunser.read_pdu()?;
        self.opens.begin();
        self.unread = None;
        self.passed = 0;
        Ok(header)
    }

    // All events have passed.
    pub(crate) fn is_finished(&self) -> bool
        ensures { result ≡ finished (body_of R.DeRead.view self.now) }
    {
        self.unread.is_none() && matches!(self.opens.due(), Due::Done)
    }
}
