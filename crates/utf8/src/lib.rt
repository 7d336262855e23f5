//! Well-formed UTF-8, by Table 3-7 of the Unicode Standard.
#![tactic(auto)]

ghost use Rattle.std.specs.Prelude.{◌≡◌, ℕ, ◌+◌, ◌-◌, ◌≤◌, false, ◌&&◌, List, ◌++◌, length, drop, IfSome, MatchOption};
ghost use Rattle.std.specs.List.{list_all};
ghost use Rattle.utf8.specs.Utf8.{utf8, utf8_after, within, first, announced, allows};

pub mod pieces;

use pieces::{Awaited, behind_first};

// How many bytes a character has, by its first byte: 0 where none begins, so that an entry is one byte.
const WIDTH: [u8; 256] = [
    1, 1, 1, 1, 1, 1, 1, 1, 1, 1, 1, 1, 1, 1, 1, 1, 1, 1, 1, 1, 1, 1, 1, 1, 1, 1, 1, 1, 1, 1, 1, 1,
    1, 1, 1, 1, 1, 1, 1, 1, 1, 1, 1, 1, 1, 1, 1, 1, 1, 1, 1, 1, 1, 1, 1, 1, 1, 1, 1, 1, 1, 1, 1, 1,
    1, 1, 1, 1, 1, 1, 1, 1, 1, 1, 1, 1, 1, 1, 1, 1, 1, 1, 1, 1, 1, 1, 1, 1, 1, 1, 1, 1, 1, 1, 1, 1,
    1, 1, 1, 1, 1, 1, 1, 1, 1, 1, 1, 1, 1, 1, 1, 1, 1, 1, 1, 1, 1, 1, 1, 1, 1, 1, 1, 1, 1, 1, 1, 1,
    0, 0, 0, 0, 0, 0, 0, 0, 0, 0, 0, 0, 0, 0, 0, 0, 0, 0, 0, 0, 0, 0, 0, 0, 0, 0, 0, 0, 0, 0, 0, 0,
    0, 0, 0, 0, 0, 0, 0, 0, 0, 0, 0, 0, 0, 0, 0, 0, 0, 0, 0, 0, 0, 0, 0, 0, 0, 0, 0, 0, 0, 0, 0, 0,
    0, 0, 2, 2, 2, 2, 2, 2, 2, 2, 2, 2, 2, 2, 2, 2, 2, 2, 2, 2, 2, 2, 2, 2, 2, 2, 2, 2, 2, 2, 2, 2,
    3, 3, 3, 3, 3, 3, 3, 3, 3, 3, 3, 3, 3, 3, 3, 3, 4, 4, 4, 4, 4, 0, 0, 0, 0, 0, 0, 0, 0, 0, 0, 0,
];

/// How many bytes a character has that begins with this byte; none where no character does.
#[tactic(auto, using(crate::proofs::Widths::no_width, crate::proofs::Widths::a_width))]
pub fn width_of(byte: u8) -> Option<usize>
    ensures { result ≡ announced byte }
{
    match WIDTH[usize::from(byte)] {
        0 => None,
        width => Some(usize::from(width)),
    }
}

fn continues(byte: u8) -> bool
    ensures { result ≡ within 0x80 0xbf byte }
{
    matches!(byte, 0x80..=0xbf)
}

fn all_continue(bytes: &[u8]) -> bool
    ensures { result ≡ list_all (within 0x80 0xbf) bytes.now }
{
    bytes.iter().all(|byte| continues(*byte))
}

// Whether this byte may stand behind that first byte.
fn may_follow(lead: u8, byte: u8) -> bool
    ensures { result ≡ allows (first lead) byte }
{
    match behind_first(lead) {
        Awaited::Range { low, high, .. } => (low..=high).contains(&byte),
        Awaited::Character | Awaited::Nothing => false,
    }
}

// Whether these bytes, as many as `lead` announces behind it, complete the character.
#[tactic(auto, using(crate::proofs::Characters::alone, crate::proofs::Characters::followed))]
fn completes(lead: u8, others: &[u8]) -> bool
    requires { announced lead ≡ Some (length others.now + 1) }
    ensures { (rest : List ℕ) → utf8_after (first lead) (others.now ++ rest) ≡ (result && utf8 rest) }
{
    match others {
        [] => true,
        [second, later @ ..] => may_follow(lead, *second) && all_continue(later),
    }
}

// What stands behind the character that begins with `lead` and goes on in `tail`;
// none where they make no character.
fn behind_character(lead: u8, tail: &[u8]) -> Option<&[u8]>
    ensures formed { MatchOption result
        (utf8_after (first lead) tail.now ≡ false)
        (λ rest. utf8_after (first lead) tail.now ≡ utf8 rest.now) }
    ensures suffix { IfSome result (λ rest.
        (length rest.now ≤ length tail.now) × (rest.now ≡ drop (length tail.now - length rest.now) tail.now)) }
{
    let width = width_of(lead)?;
    let (others, rest) = tail.split_at_checked(width - 1)?;
    completes(lead, others).then_some(rest)
}

// Beside `Awaited`, which holds a state at each byte: the table wants one look-up for a character.
/// Whether the bytes are well-formed UTF-8.
#[tactic(auto, unfolding(crate::specs::Utf8::utf8))]
pub fn is_utf8(s: &[u8]) -> bool
    ensures { result ≡ utf8 s.now }
{
    let mut rest = s;
    while let Some((lead, tail)) = rest.split_first() {
        let Some(behind) = behind_character(*lead, tail) else {
            return false;
        };
        rest = behind;
    }
    true
}
