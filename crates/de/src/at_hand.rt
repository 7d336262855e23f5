//! Plain cells by their bytes alone, where the reader has these at hand.
ghost use Rattle.std.specs.Prelude.{◌≡◌, ◌≤◌};
ghost use Rattle.format.specs.Tags.{tag_of};
ghost use Rattle.de.specs.AtHand.{short_len, utf8_size, fixed_size, text_size, plain_size, PlainCells};

use format::tags::Tag;
use format::width::Width;
use read::part_of;
use utf8::is_utf8;

// How many bytes a cell has, by its tag: 0 where none begins or the tag does not say.
const FIXED: [u8; 256] = [
    0, 0, 0, 2, 3, 5, 9, 9, 1, 1, 1, 0, 1, 0, 0, 0, 0, 0, 0, 0, 0, 0, 0, 0, 0, 0, 0, 0, 0, 0, 0, 0,
    0, 0, 0, 0, 0, 0, 0, 0, 0, 0, 0, 0, 0, 0, 0, 0, 0, 0, 0, 0, 0, 0, 0, 0, 0, 0, 0, 0, 0, 0, 0, 0,
    0, 0, 0, 0, 0, 0, 0, 0, 0, 0, 0, 0, 0, 0, 0, 0, 0, 0, 0, 0, 0, 0, 0, 0, 0, 0, 0, 0, 0, 0, 0, 0,
    0, 0, 0, 0, 0, 0, 0, 0, 0, 0, 0, 0, 0, 0, 0, 0, 0, 0, 0, 0, 0, 0, 0, 0, 0, 0, 0, 0, 0, 0, 0, 0,
    0, 0, 0, 0, 0, 0, 0, 0, 0, 0, 0, 0, 0, 0, 0, 0, 0, 0, 0, 0, 0, 0, 0, 0, 0, 0, 0, 0, 0, 0, 0, 0,
    0, 0, 0, 0, 0, 0, 0, 0, 0, 0, 0, 0, 0, 0, 0, 0, 0, 0, 0, 0, 0, 0, 0, 0, 0, 0, 0, 0, 0, 0, 0, 0,
    0, 0, 0, 0, 0, 0, 0, 0, 0, 0, 0, 0, 0, 0, 0, 0, 0, 0, 0, 0, 0, 0, 0, 0, 0, 0, 0, 0, 0, 0, 0, 0,
    0, 0, 0, 0, 0, 0, 0, 0, 0, 0, 0, 0, 0, 0, 0, 0, 0, 0, 0, 0, 0, 0, 0, 0, 0, 0, 0, 0, 0, 0, 0, 0,
];

// A text's tag, and its length with a tag of its own.
const SHORT_HEAD: usize = 3;

// The length of the text whose tag is the first of these, if it is written in one byte.
fn short_len(bytes: &[u8]) -> Option<usize>
    ensures { result ≡ short_len bytes.now }
{
    let tag = *bytes.get(1)?;
    let len = *bytes.get(2)?;
    if tag == u8::from(Tag::Int(Width::W8)) && len < 128 {
        Some(usize::from(len))
    } else {
        None
    }
}

// How many bytes such a text has, which has to be UTF-8.
fn utf8_size(bytes: &[u8]) -> Option<usize>
    ensures { result ≡ utf8_size bytes.now }
{
    let len = short_len(bytes)?;
    let text = part_of(bytes, SHORT_HEAD, len)?;
    if is_utf8(text) {
        Some(SHORT_HEAD + len)
    } else {
        None
    }
}

// How many bytes a cell has whose tag alone says so, and else 0.
#[tactic(auto, using(crate::proofs::Sizes::size_at))]
fn fixed_size(tag: u8) -> usize
    ensures { result ≡ fixed_size (tag_of tag) }
{
    usize::from(FIXED[usize::from(tag)])
}

// How many bytes the text has that begins here, if one does whose length is written in one byte.
fn text_size(tag: u8, bytes: &[u8]) -> Option<usize>
    ensures { result ≡ text_size (tag_of tag) bytes.now }
{
    match Tag::try_from(tag) {
        Ok(Tag::ByteString) => Some(SHORT_HEAD + short_len(bytes)?),
        Ok(Tag::Utf8String) => utf8_size(bytes),
        _ => None,
    }
}

// How many bytes the cell has that begins here, if it is a plain one.
fn plain_size(bytes: &[u8]) -> Option<usize>
    ensures { result ≡ plain_size bytes.now }
{
    let tag = *bytes.first()?;
    match fixed_size(tag) {
        0 => text_size(tag, bytes),
        size => Some(size),
    }
}

/// How many plain cells begin here, of at most so many, and how many bytes they have.
pub(crate) fn plain_cells(bytes: &[u8], most: usize) -> (usize, usize)
    ensures few { result.0 ≤ most }
    ensures plain { PlainCells bytes.now result.0 result.1 }
{
    let mut cells = 0usize;
    let mut taken = 0usize;
    let mut rest = bytes;
    while cells < most {
        let Some(size) = plain_size(rest) else {
            return (cells, taken);
        };
        let Some(behind) = rest.get(size..) else {
            return (cells, taken);
        };
        rest = behind;
        taken += size;
        cells += 1;
    }
    (cells, taken)
}
