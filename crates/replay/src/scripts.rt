//! Scripts, one after the other.
use super::answer::Answer;
use super::fields::LineError;
use super::line::{Call, Line};
use super::reader::Reader;
use super::session::Session;
use anyhow::{Result, anyhow};
use read::DeRead;
use read::fence::Fence;
use read::io::IoRead;
use read::slice::SliceRead;
use source::chain::Chain;
use std::io::{BufRead, Lines};

/// The lines that are still to be read, of one script after the other.
#[derive(Drop)]
pub struct Scripts<B: BufRead + Drop> {
    lines: Lines<B>,
}

// A line that is none of those of a script; or there was no memory for it.
fn unknown(rt: &impl Print, line: &str, error: LineError) -> Result<()> {
    match error {
        LineError::Unknown => println!(rt; "unknown: {line}")?,
        LineError::OutOfMemory => return Err(anyhow!("out of memory")),
    }
    Ok(())
}

// Makes one call, and prints what it answers.
fn answer<R: DeRead + Drop>(
    rt: &(impl Print + AllocGlobal),
    session: &mut Session<'_, R>,
    call: Call,
) -> Result<()> {
    let answer = match call {
        Call::Open => session.open()?,
        Call::Next(room) => return Ok(session.next(rt, room)?),
        Call::Skip => session.skip(),
        Call::Close(token) => session.close(token),
        Call::Asked => session.asked(),
    };
    println!(rt; "{answer}")?;
    Ok(())
}

impl<B: BufRead + Drop> Scripts<B> {
    pub(crate) fn new(lines: Lines<B>) -> Scripts<B> {
        Scripts { lines }
    }

    // The calls of one script, up to its end.
    fn calls<R: DeRead + Drop>(
        &mut self,
        rt: &(impl Print + AllocGlobal),
        session: &mut Session<'_, R>,
    ) -> Result<()> {
        for line in &mut self.lines {
            let line = line?;
            match Line::parse(&line) {
                Ok(Line::End) => break,
                Ok(Line::Call(call)) => answer(rt, session, call)?,
                Err(error) => unknown(rt, &line, error)?,
            }
        }
        Ok(())
    }

    // One script, over its reader.
    fn session<R: DeRead + Drop>(
        &mut self,
        rt: &(impl Print + AllocGlobal),
        reader: R,
        input: &[u8],
    ) -> Result<()> {
        println!(rt; "{}", Answer::New)?;
        let mut session = Session::new(rt.alloc(), reader, input);
        let made = self.calls(rt, &mut session);
        session.finish();
        made
    }

    fn script(&mut self, rt: &(impl Print + AllocGlobal), reader: &Reader) -> Result<()> {
        match reader {
            Reader::Slice(bytes) => self.session(rt, SliceRead::new(bytes), bytes),
            Reader::Pieces(pieces) => self.session(rt, IoRead::new(pieces.source()), &[]),
            Reader::Chain(first, second) => {
                let chain = Chain::new(first.source(), second.source());
                self.session(rt, IoRead::new(chain), &[])
            }
            Reader::FencedSlice(stop, bytes) => {
                let below = SliceRead::new(bytes);
                self.session(rt, Fence::new(below, *stop), bytes)
            }
            Reader::FencedPieces(stop, pieces) => {
                let below = IoRead::new(pieces.source());
                self.session(rt, Fence::new(below, *stop), &[])
            }
        }
    }

    // A line behind a script: the reader of the next one.
    fn begin(&mut self, rt: &(impl Print + AllocGlobal), line: &str) -> Result<()> {
        match Reader::parse(rt.alloc(), line) {
            Ok(reader) => self.script(rt, &reader),
            Err(_) if line == "end" => Ok(()),
            Err(error) => unknown(rt, line, error),
        }
    }

    /// Plays every script.
    pub(crate) fn play(&mut self, rt: &(impl Print + AllocGlobal)) -> Result<()> {
        for _ in 0..u64::MAX {
            let Some(line) = self.lines.next() else {
                break;
            };
            self.begin(rt, &line?)?;
        }
        Ok(())
    }
}
