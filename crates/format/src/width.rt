ghost use Rattle.std.specs.Prelude.{◌≡◌};
ghost use Rattle.format.specs.Integers.{bytes_of, width_of};

use super::tags::Tag;

/// How many bits an integer has.
#[derive(Clone, Copy, PartialEq, Eq, Debug)]
pub enum Width {
    W8,
    W16,
    W32,
    W64,
}

impl Width {
    /// The width that a tag announces, or none where the tag begins no integer.
    pub fn of_tag(tag: u8) -> Option<Width>
        ensures { result ≡ width_of tag }
    {
        match Tag::try_from(tag) {
            Ok(Tag::Int(width)) => Some(width),
            _ => None,
        }
    }

    /// How many bytes stand behind the tag.
    pub fn bytes(self) -> usize
        ensures { result ≡ bytes_of self }
    {
        match self {
            Width::W8 => 1,
            Width::W16 => 2,
            Width::W32 => 4,
            Width::W64 => 8,
        }
    }
}
