//! Headers, read without a decoder.
ghost use Rattle.std.specs.Prelude.{◌≡◌, ◌++◌, IsTrue, true, None};
ghost use Rattle.bunser.specs.Outcome.{TellsAt};
ghost use Rattle.bunser.specs.Reads.{header_read};
ghost use Rattle.read.specs.Reader.{View};
ghost use Rattle.tablecheck.specs.Reports.{file_view};

use bunser::{Bunser, Header};
use format::refusal::Refusal;
use read::DeRead;
use read::io::IoRead;
use read::slice::SliceRead;
use source::Source;
use source::chain::Chain;
use source::piece::PieceSource;

// The header that this reader comes to, for every kind of reader.
fn header_of<R: DeRead + Drop>(read: R) -> Result<Header, Refusal>
    ensures { (w : View) × TellsAt (header_read R.DeRead.lends (R.DeRead.view read)) result w }
{
    let mut bunser = Bunser::new(read);
    bunser.read_pdu()
}

/// A reader that copies these bytes: a chain of two halves, in pieces of 7 and of 64 bytes.
pub fn copying(bytes: &[u8]) -> IoRead<Chain<PieceSource<'_>, PieceSource<'_>>>
    ensures parts { result.source.first.slice.rest.now ++ result.source.second.slice.rest.now ≡ bytes.now }
    ensures pieces { (result.source.first.most ≡ 7) × (result.source.second.most ≡ 64) }
    ensures clean { (result.source.first.ending ≡ None) × (result.source.second.ending ≡ None) }
    ensures fresh { (result.peeked ≡ None) × (result.read_count ≡ 0) }
{
    let (front, back) = bytes.split_at(bytes.len() / 2);
    let first = PieceSource::new(front, 7, None);
    let second = PieceSource::new(back, 64, None);
    IoRead::new(Chain::new(first, second))
}

/// The header at the start of a file, as two kinds of readers read it.
#[derive(Drop)]
pub struct Headers {
    lent: Result<Header, Refusal>,
    copied: Result<Header, Refusal>,
    /// Both come to the same.
    ghost same: { lent ≡ copied },
}

impl Headers {
    /// Both come to the same.
    pub fn of(bytes: &[u8]) -> Headers
        ensures reads { (w : View) × TellsAt (header_read true (file_view bytes.now)) result.lent w }
        ensures same { result.lent ≡ result.copied }
    {
        Headers {
            lent: header_of(SliceRead::new(bytes)),
            copied: header_of(copying(bytes)),
        }
    }

    pub(crate) fn agree(&self) -> bool
        ensures { IsTrue result }
    {
        self.lent == self.copied
    }
}
