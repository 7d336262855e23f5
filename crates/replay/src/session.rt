//! A decoder on which the calls of one script are made.
ghost use Rattle.std.specs.Prelude.{IsSome, OnErr};
ghost use Rattle.de.specs.Decoding.{state_of};

use super::answer::Answer;
use super::event::{Given, Hex};
use super::line::Token;
use de::decoder::Decoder;
use de::event::{Event, Refused};
use de::pdu::PduInfo;
use format::refusal::Refusal;
use read::DeRead;
use read::slice::SliceRead;
use std::alloc::{AllocError, AllocFailed, Global};
use std::io;

// What stands in a text buffer before the call.
const BLANK: u8 = 0xee;

// The PDU of another decoder: it begins at 8 and has one byte.
const OTHER: [u8; 9] = [0, 2, 0, 0, 0, 0, 3, 1, 0x0a];

/// A decoder, and the tokens that were not spent, the oldest first.
pub struct Session<'i, R: DeRead> {
    decoder: Decoder<R>,
    /// What a reader that lends lends. One that copies needs none.
    input: &'i [u8],
    tokens: Vec<PduInfo>,
}

impl<'i, R: DeRead + Drop> Session<'i, R> {
    pub(crate) fn new(alloc: Global, reader: R, input: &'i [u8]) -> Session<'i, R> {
        Session {
            decoder: Decoder::new(reader),
            input,
            tokens: Vec::new(alloc),
        }
    }

    // The refusal of the call that was refused.
    fn told(&self) -> Refusal
        requires { IsSome (state_of R.DeRead.view self.now.decoder).refused }
    {
        self.decoder.refusal().unwrap()
    }

    // Keeps a token until it is spent. Where memory is wanting it is spent at once.
    fn keep(&mut self, info: PduInfo) -> Result<(), AllocError> {
        match self.tokens.push(info) {
            Ok(()) => Ok(()),
            Err(AllocFailed { value }) => {
                let _closed = self.decoder.close(value);
                Err(AllocError)
            }
        }
    }

    pub(crate) fn open(&mut self) -> Result<Answer<'static>, AllocError> {
        match self.decoder.open() {
            Ok(info) => {
                let header = info.header();
                self.keep(info)?;
                Ok(Answer::Opened(header))
            }
            Err(_) => Ok(Answer::Refused(self.told())),
        }
    }

    // An event, with the bytes that the decoder hands out for it.
    fn given<'a>(&'a self, event: Event, text: &'a [u8]) -> Answer<'a> {
        let bytes = match event {
            Event::Key(span) | Event::Bytes(span) | Event::Text(span) => {
                self.decoder.part(span, self.input, text)
            }
            _ => Ok(&[] as &[u8]),
        };
        match bytes {
            Ok(bytes) => Answer::Gave(Given { event, bytes }),
            Err(refusal) => Answer::Refused(refusal),
        }
    }

    // What `next` has answered.
    fn stepped<'a>(&'a self, step: Result<Option<Event>, Refused>, text: &'a [u8]) -> Answer<'a>
        requires { OnErr step (IsSome (state_of R.DeRead.view self.now.decoder).refused) }
    {
        match step {
            Ok(Some(event)) => self.given(event, text),
            Ok(None) => Answer::Done,
            Err(_) => Answer::Refused(self.told()),
        }
    }

    // Prints what `next` has answered, and what the text buffer has then.
    fn print_step<'a>(
        &'a self,
        rt: &impl Print,
        step: Result<Option<Event>, Refused>,
        text: &'a [u8],
    ) -> io::Result<()>
        requires { OnErr step (IsSome (state_of R.DeRead.view self.now.decoder).refused) }
    {
        let answer = self.stepped(step, text);
        println!(rt; "{answer} | {}", Hex(text))
    }

    /// Calls `next` with a text buffer of so many bytes.
    pub(crate) fn next(&mut self, rt: &(impl Print + AllocGlobal), room: usize) -> io::Result<()> {
        let mut text = vec![in rt.alloc(); BLANK; room]?;
        let step = self.decoder.next(&mut text);
        self.print_step(rt, step, &text)
    }

    pub(crate) fn skip(&mut self) -> Answer<'static> {
        match self.decoder.skip() {
            Ok(passed) => Answer::Skipped(passed),
            Err(_) => Answer::Refused(self.told()),
        }
    }

    // Takes a token out of those that were not spent.
    fn take(&mut self, token: Token) -> Option<PduInfo> {
        match token {
            Token::Newest => self.tokens.pop(),
            Token::Oldest(k) => {
                let index = k.checked_sub(1)?;
                if index < self.tokens.len() {
                    Some(self.tokens.remove(index))
                } else {
                    None
                }
            }
            Token::Other => token_of_another(),
        }
    }

    pub(crate) fn close(&mut self, token: Token) -> Answer<'static> {
        let Some(info) = self.take(token) else {
            return Answer::NoToken;
        };
        match self.decoder.close(info) {
            Ok(closed) => Answer::Closed(closed),
            Err(_) => Answer::Refused(self.told()),
        }
    }

    pub(crate) fn asked(&self) -> Answer<'static> {
        let (events, bytes) = self.decoder.tally();
        Answer::Tally(events, bytes)
    }

    /// Spends what was not spent.
    pub(crate) fn finish(self) {
        let Session {
            mut decoder,
            input: _,
            mut tokens,
        } = self;
        while let Some(info) = tokens.pop() {
            let _closed = decoder.close(info);
        }
        tokens.destroy_empty();
    }
}

// A token of a decoder that is made for it.
fn token_of_another() -> Option<PduInfo> {
    let mut decoder = Decoder::new(SliceRead::new(&OTHER));
    match decoder.open() {
        Ok(info) => Some(info),
        Err(_) => None,
    }
}
