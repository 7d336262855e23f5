//! What is said of a file.
ghost use Rattle.std.specs.Prelude.{◌≡◌, ◌↔◌, is_ok, IsTrue};
ghost use Rattle.tablecheck.specs.Reports.{IsGood};

use super::content::Content;
use super::words::Count;
use bunser::Header;
use de::pdu::Closed;
use format::refusal::Refusal;
use std::fmt;

/// What became of a PDU whose header was accepted.
#[derive(PartialEq, Drop)]
pub struct PduReport {
    pub header: Header,
    pub content: Content,
    pub events: usize,
    pub outcome: Result<Closed, Refusal>,
}

impl PduReport {
    pub fn is_accepted(&self) -> bool
        ensures { result ≡ is_ok self.now.outcome }
    {
        self.outcome.is_ok()
    }
}

/// What one reader found in a file.
#[derive(PartialEq, Drop)]
pub struct FileReport {
    pub pdus: Vec<PduReport>,
    /// Why the header behind these was refused, if there was more to read.
    pub unopened: Option<Refusal>,
}

impl FileReport {
    /// There are PDUs, all were accepted, and the file ends behind them.
    pub fn is_good(&self) -> bool
        ensures { IsTrue result ↔ IsGood self.now }
    {
        !self.pdus.is_empty()
            && self.unopened.is_none()
            && self.pdus.iter().all(|pdu| pdu.is_accepted())
    }

    // How many PDUs begin in the file, as far as it was read.
    fn found(&self) -> usize {
        self.pdus.len().saturating_add(self.unopened.iter().count())
    }

    fn accepted(&self) -> usize {
        self.pdus.iter().filter(|pdu| pdu.is_accepted()).count()
    }
}

// One line of a report.
fn line<W: fmt::Write>(
    f: &mut fmt::Formatter<W>,
    label: &str,
    value: impl fmt::Display + Drop,
) -> fmt::Result {
    writeln!(f, "    {label:<17}{value}")
}

impl fmt::Display for PduReport {
    fn fmt<W: fmt::Write>(&self, f: &mut fmt::Formatter<W>) -> fmt::Result {
        let header = self.header;
        writeln!(f, "    capabilities     {:08x}", header.capabilities)?;
        writeln!(f, "    body starts at   byte {}", header.start)?;
        line(f, "declared length", Count(header.length, "byte"))?;
        let body = if self.is_accepted() {
            "body"
        } else {
            "body so far"
        };
        line(f, body, &self.content)?;
        if let Content::Table(table) = &self.content {
            line(f, "columns", table.columns())?;
            line(f, "gaps", table.gaps())?;
        }
        line(f, "events", self.events)?;
        match &self.outcome {
            Ok(_) => line(f, "outcome", "accepted"),
            Err(refusal) => line(f, "outcome", refusal),
        }
    }
}

impl fmt::Display for FileReport {
    fn fmt<W: fmt::Write>(&self, f: &mut fmt::Formatter<W>) -> fmt::Result {
        let mut number = 1u64;
        for pdu in &self.pdus {
            write!(f, "  PDU {number}\n{pdu}")?;
            number = number.saturating_add(1);
        }
        if let Some(refusal) = &self.unopened {
            writeln!(f, "  PDU {number}")?;
            line(f, "outcome", refusal)?;
        }
        let found = Count(self.found(), "PDU");
        let accepted = self.accepted();
        if self.is_good() {
            write!(f, "  {found}: all accepted")
        } else if self.found() == 0 {
            write!(f, "  no PDU: the file is empty")
        } else {
            write!(
                f,
                "  {found}: {accepted} accepted, and one refused, where reading stopped"
            )
        }
    }
}
