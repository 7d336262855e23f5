//! The four calls, and the question.
ghost use Rattle.std.specs.Prelude.{◌≡◌, length, Some, None, MatchResult};
ghost use Rattle.format.specs.declared.refusal.ReadError.TheVariants.{Room};
ghost use Rattle.bunser.specs.Outcome.{at};
ghost use Rattle.bunser.specs.Texts.{spanned, referred, bytes_of, is_borrowed, is_lent};
ghost use Rattle.de.specs.Shown.{span_bytes};
ghost use Rattle.source.specs.Feed.{fronted};
ghost use Rattle.de.specs.Calls.{fresh, here, latch, telling, refused_of, Meets, open_call, next_call, next_puts, SkipCall, close_body, close_call, tally};
ghost use Rattle.de.specs.Decoding.{state_of, extent_of, latched_of};
ghost use Rattle.de.specs.Turns.{InTurn};

use super::decoder::Decoder;
use super::event::{Event, Refused};
use super::events::Events;
use super::pdu::{Closed, Extent, OpenPdu, PduInfo};
use super::turn::Turn;
use bunser::text::{Reference, Span};
use format::refusal::{Cause, ReadError, Refusal};
use read::DeRead;

impl<R: DeRead> Decoder<R> {
    pub fn new(reader: R) -> Decoder<R>
        ensures { state_of R.DeRead.view result ≡ fresh (R.DeRead.view reader) }
    {
        Decoder {
            events: Events::new(reader),
            turn: Turn::Closed,
            last: Extent {
                start: 0,
                length: 0,
            },
            refused: None,
        }
    }

    // The refusal is told, and can be asked for.
    fn tell(&mut self, refusal: Refusal) -> Refused
        ensures tells { result ≡ refused_of refusal }
        ensures keeps { state_of R.DeRead.view self.new ≡ telling refusal (state_of R.DeRead.view self.old) }
    {
        self.refused = Some(refusal);
        Refused {
            number: refusal.number(),
        }
    }

    // A refusal by the call itself.
    fn here(&self, cause: Cause) -> Refusal
        ensures { result ≡ here cause (state_of R.DeRead.view self.now) }
    {
        Refusal {
            place: self.events.bunser.read_count(),
            cause,
        }
    }

    // The refusal latches, if it is of that kind, and is told.
    fn refuse(&mut self, refusal: Refusal) -> Refused
        ensures tells { result ≡ refused_of refusal }
        ensures keeps { state_of R.DeRead.view self.new ≡ telling refusal (latch refusal (state_of R.DeRead.view self.old)) }
    {
        if refusal.latches() {
            self.turn = Turn::Latched(refusal, self.turn.pdu());
        }
        self.tell(refusal)
    }

    // Before any question of `next` and `skip`: a refusal that has latched, then whether a PDU is open.
    fn is_open(&mut self) -> Result<(), Refused>
        ensures { InTurn (latched_of self.old.turn) (state_of R.DeRead.view self.old) result (state_of R.DeRead.view self.new) }
    {
        let refusal = match self.turn {
            Turn::Open(_) => return Ok(()),
            Turn::Closed => self.here(Cause::OutOfTurn),
            Turn::Latched(refusal, _) => refusal,
        };
        Err(self.tell(refusal))
    }

    /// Reads the header of the next PDU.
    pub fn open(&mut self) -> Result<PduInfo, Refused>
        ensures { Meets (open_call R.DeRead.lends (state_of R.DeRead.view self.old)) result (state_of R.DeRead.view self.new) }
    {
        if let Some(refusal) = self.turn.latched() {
            return Err(self.tell(refusal));
        }
        if self.turn.pdu().is_some() {
            let refusal = self.here(Cause::OutOfTurn);
            return Err(self.tell(refusal));
        }
        match self.events.open() {
            Ok(header) => {
                self.turn = Turn::Open(OpenPdu {
                    start: header.start,
                    length: header.length,
                });
                self.last = Extent {
                    start: header.start,
                    length: header.length,
                };
                Ok(PduInfo { header })
            }
            Err(refusal) => Err(self.refuse(refusal)),
        }
    }

    /// Gives the next event, or none behind the last. Bytes that are copied go to the front of the buffer.
    pub fn next(&mut self, buf: &mut [u8]) -> Result<Option<Event>, Refused>
        ensures says { Meets (next_call R.DeRead.lends (length buf.old) (state_of R.DeRead.view self.old)) result (state_of R.DeRead.view self.new) }
        ensures puts { buf.new ≡ fronted (next_puts (latched_of self.old.turn) R.DeRead.lends (length buf.old) (state_of R.DeRead.view self.old)) buf.old }
    {
        self.is_open()?;
        match self.events.next(buf) {
            Ok(event) => Ok(event),
            Err(refusal) => Err(self.refuse(refusal)),
        }
    }

    /// Passes the next event over and, if that begins a container or a row, all up to its end. Tells how many passed.
    pub fn skip(&mut self) -> Result<usize, Refused>
        ensures { SkipCall R.DeRead.lends (state_of R.DeRead.view self.old) result (state_of R.DeRead.view self.new) }
    {
        self.is_open()?;
        match self.events.skip() {
            Ok(passed) => Ok(passed),
            Err(refusal) => Err(self.refuse(refusal)),
        }
    }

    /// Ends the PDU that the token is of. The token is spent either way.
    pub fn close(&mut self, info: PduInfo) -> Result<Closed, Refused>
        ensures { Meets (close_call info (state_of R.DeRead.view self.old)) result (state_of R.DeRead.view self.new) }
    {
        let PduInfo { header } = info;
        let Some(pdu) = self.turn.pdu() else {
            let refusal = self.here(Cause::Token);
            return Err(self.tell(refusal));
        };
        let owns = header.start == pdu.start && header.length == pdu.length;
        if let Some(refusal) = self.turn.latched()
            && owns
        {
            self.turn = Turn::Latched(refusal, None);
            return Err(self.tell(refusal));
        }
        if !owns {
            let refusal = self.here(Cause::Token);
            return Err(self.tell(refusal));
        }
        self.turn = Turn::Closed;
        self.end(pdu)
    }

    // All events have passed, and the body ends where it should.
    fn end(&mut self, pdu: OpenPdu) -> Result<Closed, Refused>
        ensures { Meets (close_body (extent_of pdu) (state_of R.DeRead.view self.old)) result (state_of R.DeRead.view self.new) }
    {
        if !self.events.is_finished() {
            let refusal = self.here(Cause::Unfinished);
            return Err(self.refuse(refusal));
        }
        let expected = pdu.start + pdu.length;
        let count = self.events.bunser.read_count();
        if count != expected {
            let refusal = self.here(Cause::Length { expected, count });
            return Err(self.refuse(refusal));
        }
        Ok(Closed {
            events: self.events.passed,
            length: pdu.length,
        })
    }

    /// The refusal that was told last.
    pub fn refusal(&self) -> Option<Refusal>
        ensures { result ≡ (state_of R.DeRead.view self.now).refused }
    {
        self.refused
    }

    /// How many events have passed and how many body bytes were taken, of the PDU opened last.
    pub fn tally(&self) -> (usize, usize)
        ensures { result ≡ tally (state_of R.DeRead.view self.now) }
    {
        let count = match self.turn.latched() {
            Some(refusal) => refusal.place,
            None => self.events.bunser.read_count(),
        };
        let bytes = count.saturating_sub(self.last.start).min(self.last.length);
        (self.events.passed, bytes)
    }

    /// The bytes that an event names, as a part of the input or of the text buffer that the event was given.
    pub fn part<'r>(&self, span: Span, input: &'r [u8], buf: &'r [u8]) -> Result<&'r [u8], Refusal>
        ensures { MatchResult result (λ s. (spanned span input.now buf.now ≡ Some s.now) × (s.now ≡ span_bytes input.now buf.now span)) (λ f. (spanned span input.now buf.now ≡ None) × (f ≡ at Room (state_of R.DeRead.view self.now).body.reader.count)) }
    {
        self.events.bunser.part(span, input, buf)
    }

    /// The bytes that an event names, as the reader keeps them or as the text buffer has them.
    pub fn reference<'b, 'c>(
        &'b self,
        span: Span,
        buf: &'c [u8],
    ) -> Result<Reference<'b, 'c>, ReadError>
        ensures { MatchResult result (λ x. (referred R.DeRead.lends (state_of R.DeRead.view self.now).body.reader span buf.now ≡ Some (bytes_of x)) × (is_borrowed x ≡ is_lent span.taken)) (λ e. (referred R.DeRead.lends (state_of R.DeRead.view self.now).body.reader span buf.now ≡ None) × (e ≡ Room)) }
    {
        self.events.bunser.reference(span, buf)
    }

    /// Gives the reader back.
    pub fn into_inner(self) -> R
        ensures { R.DeRead.view result ≡ (state_of R.DeRead.view self).body.reader }
    {
        let Decoder { events, .. } = self;
        let Events { bunser, .. } = events;
        bunser.into_inner()
    }
}
