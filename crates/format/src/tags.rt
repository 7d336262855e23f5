//! The byte with which each item of BSER begins.
ghost use Rattle.std.specs.Prelude.{◌≡◌};
ghost use Rattle.format.specs.Tags.{tag_of, byte_of};

use super::width::Width;

/// What an item is, by the byte with which it begins.
#[derive(Clone, Copy, PartialEq, Eq, Debug)]
pub enum Tag {
    Array,
    Object,
    ByteString,
    Int(Width),
    Real,
    True,
    False,
    Null,
    Template,
    Skip,
    Utf8String,
}

/// A byte with which no item begins.
#[derive(Clone, Copy, PartialEq, Eq, Debug)]
pub struct NoTag(pub u8);

impl TryFrom<u8> for Tag {
    type Error = NoTag;

    ghost try_from_gives = { λ b r. r ≡ tag_of b };

    fn try_from(byte: u8) -> Result<Tag, NoTag> {
        Ok(match byte {
            0x00 => Tag::Array,
            0x01 => Tag::Object,
            0x02 => Tag::ByteString,
            0x03 => Tag::Int(Width::W8),
            0x04 => Tag::Int(Width::W16),
            0x05 => Tag::Int(Width::W32),
            0x06 => Tag::Int(Width::W64),
            0x07 => Tag::Real,
            0x08 => Tag::True,
            0x09 => Tag::False,
            0x0a => Tag::Null,
            0x0b => Tag::Template,
            0x0c => Tag::Skip,
            0x0d => Tag::Utf8String,
            _ => return Err(NoTag(byte)),
        })
    }
}

impl From<Tag> for u8 {
    ghost from_gives = { λ tag b. b ≡ byte_of tag };

    fn from(tag: Tag) -> u8 {
        match tag {
            Tag::Array => 0x00,
            Tag::Object => 0x01,
            Tag::ByteString => 0x02,
            Tag::Int(Width::W8) => 0x03,
            Tag::Int(Width::W16) => 0x04,
            Tag::Int(Width::W32) => 0x05,
            Tag::Int(Width::W64) => 0x06,
            Tag::Real => 0x07,
            Tag::True => 0x08,
            Tag::False => 0x09,
            Tag::Null => 0x0a,
            Tag::Template => 0x0b,
            Tag::Skip => 0x0c,
            Tag::Utf8String => 0x0d,
        }
    }
}

/// The two bytes with which a PDU begins.
pub const MAGIC: [u8; 2] = [0x00, 0x02];

/// No body ends past this count.
pub const FARTHEST: usize = 1 << 60;
