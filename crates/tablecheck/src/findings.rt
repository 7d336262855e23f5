//! A file, read by two kinds of readers.
ghost use Rattle.std.specs.Prelude.{◌≡◌, ◌≢◌, ◌↔◌, IsTrue, true, [], Some, None, IfOk, OnOk};
ghost use Rattle.format.specs.declared.refusal.ReadError.TheVariants.{Room};
ghost use Rattle.format.specs.declared.refusal.Cause.TheVariants.{Read};
ghost use Rattle.bunser.specs.Outcome.{TellsAt};
ghost use Rattle.bunser.specs.Reads.{header_read};
ghost use Rattle.de.specs.Calls.{fresh};
ghost use Rattle.de.specs.Decoding.{state_of};
ghost use Rattle.read.specs.Reader.{View};
ghost use Rattle.tablecheck.specs.Reports.{IsGood, file_view, header_told, first_header};
ghost use Rattle.tablecheck.specs.contracts.report.FileReportPartialEq.TheImpl as reports;

use super::content::{Content, Survey};
use super::header::{Headers, copying};
use super::report::{FileReport, PduReport};
use de::decoder::Decoder;
use de::event::Event;
use de::pdu::PduInfo;
use format::refusal::{Cause, ReadError, Refusal};
use read::DeRead;
use read::slice::SliceRead;
use std::alloc::{AllocError, Global};
use std::fmt;

fn is_room(refusal: &Refusal) -> bool
    ensures { IsTrue result ↔ (refusal.now.cause ≡ Read Room) }
{
    refusal.cause == Cause::Read(ReadError::Room)
}

/// A file that is read by a decoder, with room for its texts.
#[derive(Drop)]
struct Reading<'a, R: DeRead> {
    alloc: Global,
    file: &'a [u8],
    text: Vec<u8>,
    /// How much room for a text there may be at most.
    most: usize,
    decoder: Decoder<R>,
}

impl<'a, R: DeRead + Drop> Reading<'a, R> {
    fn lacks_room(&self) -> bool {
        self.decoder
            .refusal()
            .is_some_and(|refusal| is_room(&refusal))
    }

    // Whether reading goes on behind a refusal. The room grows, for a reader that copies to as many
    // bytes as the file has. A text that is longer cannot be there; passing it over tells why.
    fn goes_on(&mut self) -> Result<bool, AllocError> {
        if !self.lacks_room() {
            return Ok(false);
        }
        let room = self.text.len();
        if room >= self.most {
            return Ok(self.decoder.skip().is_ok());
        }
        let more = room.saturating_mul(2).max(64).min(self.most);
        // The old room goes first, so that both never stand side by side.
        self.text = Vec::new(self.alloc);
        self.text = vec![in self.alloc; 0u8; more]?;
        Ok(true)
    }

    // The bytes of a key, and none of another event.
    fn key_of(&self, event: Event) -> Result<&[u8], Refusal> {
        match event {
            Event::Key(span) => self.decoder.part(span, self.file, &self.text),
            _ => Ok(&[]),
        }
    }

    // Reads the open PDU to its last event or to a refusal.
    fn survey(&mut self) -> Result<Content, AllocError> {
        let mut survey = Survey::new(self.alloc);
        for _ in 0..u64::MAX {
            match self.decoder.next(&mut self.text) {
                Ok(Some(event)) => {
                    let Ok(key) = self.key_of(event) else {
                        break;
                    };
                    survey.note(event, key)?;
                }
                Err(_) if self.goes_on()? => {}
                Ok(None) | Err(_) => break,
            }
        }
        Ok(survey.into_content())
    }

    // The PDU of this token.
    fn read_pdu(&mut self, info: PduInfo) -> Result<PduReport, AllocError>
        ensures header { IfOk result (λ r. r.header ≡ info.header) }
        ensures events { IfOk result (λ r. IfOk r.outcome (λ closed. closed.events ≡ r.events)) }
    {
        let header = info.header();
        let content = self.survey();
        let outcome = match self.decoder.close(info) {
            Ok(closed) => Ok(closed),
            Err(_) => Err(self.decoder.refusal().unwrap()),
        };
        let (events, _) = self.decoder.tally();
        Ok(PduReport {
            header,
            content: content?,
            events,
            outcome,
        })
    }

    // The PDU that comes next. Tells whether another may stand behind it.
    fn read_next(&mut self, report: &mut FileReport) -> Result<bool, AllocError>
        ensures first { (v : View) → state_of R.DeRead.view self.old.decoder ≡ fresh v → report.old.pdus.items ≡ [] → OnOk result (first_header report.new ≡ Some (header_told (header_read R.DeRead.lends v))) }
        ensures kept { report.old.pdus.items ≢ [] → OnOk result (first_header report.new ≡ first_header report.old) }
        ensures more { IfOk result (λ more. IsTrue more → report.new.pdus.items ≢ []) }
    {
        match self.decoder.open() {
            Ok(info) => {
                let pdu = self.read_pdu(info)?;
                let place = pdu.header.start.saturating_add(pdu.header.length);
                let more = pdu.is_accepted() && place < self.file.len();
                report.pdus.push(pdu)?;
                Ok(more)
            }
            Err(_) => {
                report.unopened = Some(self.decoder.refusal().unwrap());
                Ok(false)
            }
        }
    }

    // All PDUs of the file, up to its end or to a refusal.
    fn read_file(&mut self) -> Result<FileReport, AllocError>
        ensures first { (v : View) → state_of R.DeRead.view self.old.decoder ≡ fresh v → self.old.file.now ≢ [] → IfOk result (λ r. first_header r ≡ Some (header_told (header_read R.DeRead.lends v))) }
        ensures empty { self.old.file.now ≡ [] → IfOk result (λ r. first_header r ≡ None) }
    {
        let mut report = FileReport {
            pdus: Vec::new(self.alloc),
            unopened: None,
        };
        if self.file.is_empty() {
            return Ok(report);
        }
        let mut more = self.read_next(&mut report)?;
        // Each PDU takes bytes, so there are no more PDUs than bytes.
        for _ in 1..self.file.len() {
            if !more {
                break;
            }
            more = self.read_next(&mut report)?;
        }
        Ok(report)
    }
}

// What this reader finds in a file.
fn found<R: DeRead + Drop>(
    alloc: Global,
    file: &[u8],
    reader: R,
    most: usize,
) -> Result<FileReport, AllocError>
    ensures first { file.now ≢ [] → IfOk result (λ r. first_header r ≡ Some (header_told (header_read R.DeRead.lends (R.DeRead.view reader)))) }
    ensures empty { file.now ≡ [] → IfOk result (λ r. first_header r ≡ None) }
{
    let mut reading = Reading {
        alloc,
        file,
        text: Vec::new(alloc),
        most,
        decoder: Decoder::new(reader),
    };
    reading.read_file()
}

/// What two readers found in one file.
#[derive(Drop)]
pub struct Findings {
    headers: Headers,
    lent: FileReport,
    copied: FileReport,
}

impl Findings {
    pub(crate) fn of(alloc: Global, file: &[u8]) -> Result<Findings, AllocError>
        ensures reads { IfOk result (λ found. (w : View) × TellsAt (header_read true (file_view file.now)) found.headers.lent w) }
        ensures same { IfOk result (λ found. found.headers.lent ≡ found.headers.copied) }
        ensures lent { file.now ≢ [] → IfOk result (λ found. first_header found.lent ≡ Some found.headers.lent) }
        ensures copied { file.now ≢ [] → IfOk result (λ found. first_header found.copied ≡ Some found.headers.copied) }
        ensures empty { file.now ≡ [] → IfOk result (λ found. (first_header found.lent ≡ None) × (first_header found.copied ≡ None)) }
    {
        Ok(Findings {
            headers: Headers::of(file),
            lent: found(alloc, file, SliceRead::new(file), 0)?,
            copied: found(alloc, file, copying(file), file.len())?,
        })
    }

    fn agree(&self) -> bool
        ensures same { IsTrue result → IsTrue (reports.eq-value.it self.now.lent self.now.copied) }
        ensures all { IsTrue (reports.eq-value.it self.now.lent self.now.copied) → IsTrue result }
    {
        self.headers.agree() && self.lent == self.copied
    }

    /// Both readers accept every PDU, and come to the same.
    pub fn is_good(&self) -> bool
        ensures good { IsTrue result → IsGood self.now.lent × IsGood self.now.copied }
        ensures all { IsTrue (reports.eq-value.it self.now.lent self.now.copied) → IsGood self.now.lent → IsGood self.now.copied → IsTrue result }
    {
        self.agree() && self.lent.is_good() && self.copied.is_good()
    }
}

impl fmt::Display for Findings {
    fn fmt<W: fmt::Write>(&self, f: &mut fmt::Formatter<W>) -> fmt::Result {
        writeln!(f, "{}", self.lent)?;
        if self.agree() {
            write!(f, "  both readers agree")
        } else {
            write!(
                f,
                "  a reader that copies comes to something else:\n{}",
                self.copied
            )
        }
    }
}
