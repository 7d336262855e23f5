//! A call that is made by value.
ghost use Rattle.std.specs.Prelude.{◌≡◌, length, IsSome, MatchResult};
ghost use Rattle.source.specs.Feed.{fronted};
ghost use Rattle.de.specs.Calls.{Meets, open_call, next_call, next_puts, SkipCall, close_call};
ghost use Rattle.de.specs.Made.{AsTold, OpenAnswer, NextAnswer, SkipAnswer, CloseAnswer, Made, MadeWith, Logged, token, moment};
ghost use Rattle.de.specs.Decoding.{state_of, latched_of};

use super::decoder::Decoder;
use super::entry::{Answer, Call, Entry};
use super::pdu::{Extent, PduInfo};
use bunser::Header;
use read::DeRead;
use std::alloc::{AllocError, Global};

impl<R: DeRead> Decoder<R> {
    // The answer of a call that was refused.
    fn told(&self) -> Answer
        requires { IsSome (state_of R.DeRead.view self.now).refused }
        ensures { AsTold (state_of R.DeRead.view self.now).refused result }
    {
        Answer::Refused(self.refused.unwrap())
    }

    fn made_open(&mut self) -> Answer
        ensures { Made (Meets (open_call R.DeRead.lends (state_of R.DeRead.view self.old))) OpenAnswer result (state_of R.DeRead.view self.new) }
    {
        match self.open() {
            Ok(info) => {
                let PduInfo { header } = info;
                Answer::Opened(header)
            }
            Err(_) => self.told(),
        }
    }

    fn made_next(&mut self, text: &mut [u8]) -> Answer
        ensures says { Made (Meets (next_call R.DeRead.lends (length text.old) (state_of R.DeRead.view self.old))) NextAnswer result (state_of R.DeRead.view self.new) }
        ensures puts { text.new ≡ fronted (next_puts (latched_of self.old.turn) R.DeRead.lends (length text.old) (state_of R.DeRead.view self.old)) text.old }
    {
        match self.next(text) {
            Ok(Some(event)) => Answer::Gave(event),
            Ok(None) => Answer::Done,
            Err(_) => self.told(),
        }
    }

    fn made_skip(&mut self) -> Answer
        ensures { Made (SkipCall R.DeRead.lends (state_of R.DeRead.view self.old)) SkipAnswer result (state_of R.DeRead.view self.new) }
    {
        match self.skip() {
            Ok(passed) => Answer::Skipped(passed),
            Err(_) => self.told(),
        }
    }

    fn made_close(&mut self, extent: Extent) -> Answer
        ensures { Made (Meets (close_call (token 0 extent) (state_of R.DeRead.view self.old))) CloseAnswer result (state_of R.DeRead.view self.new) }
    {
        let info = PduInfo {
            header: Header {
                capabilities: 0,
                start: extent.start,
                length: extent.length,
            },
        };
        match self.close(info) {
            Ok(closed) => Answer::Closed(closed),
            Err(_) => self.told(),
        }
    }

    // The text buffer is for `next` alone.
    fn answer(&mut self, call: Call, text: &mut [u8]) -> Answer
        ensures { MadeWith R.DeRead.lends (state_of R.DeRead.view self.old) call result text.old text.new (state_of R.DeRead.view self.new) }
    {
        match call {
            Call::Open => self.made_open(),
            Call::Next(_) => self.made_next(text),
            Call::Skip => self.made_skip(),
            Call::Close(extent) => self.made_close(extent),
        }
    }

    /// Makes a call, and keeps what it answered and what can be seen then. Where memory is wanting, no call is made.
    pub fn make(&mut self, alloc: Global, call: Call) -> Result<Entry, AllocError>
        ensures { MatchResult result (λ e. (e.call ≡ call) × Logged R.DeRead.lends (state_of R.DeRead.view self.old) (moment e) (state_of R.DeRead.view self.new)) (λ _. state_of R.DeRead.view self.new ≡ state_of R.DeRead.view self.old) }
    {
        let mut text = vec![in alloc; 0u8; call.room()]?;
        let answer = self.answer(call, &mut text);
        let (events, bytes) = self.tally();
        let count = self.events.bunser.read_count();
        Ok(Entry {
            call,
            answer,
            count,
            events,
            bytes,
            text,
        })
    }
}
