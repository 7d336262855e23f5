//! Compares the check for UTF-8 with the standard library's on every sequence of up to three bytes
//! and around every boundary of the four-byte forms.
#![tactic(auto)]

ghost use Rattle.std.specs.Prelude.{◌<◌, length};

use std::fmt;
use std::str::from_utf8;
use utf8::is_utf8;

// Bytes at the edges of the ranges in which a second or later byte may lie.
const EDGES: [u8; 10] = [0x00, 0x7f, 0x80, 0x8f, 0x90, 0x9f, 0xa0, 0xbf, 0xc0, 0xff];

/// How many sequences were tried, how many are well formed, and on how many the two checks differ.
#[derive(Clone, Copy, Default)]
struct Tally {
    tried: u64,
    formed: u64,
    differ: u64,
}

impl Tally {
    fn note(&mut self, bytes: &[u8]) {
        let ours = is_utf8(bytes);
        self.tried = self.tried.saturating_add(1);
        if ours {
            self.formed = self.formed.saturating_add(1);
        }
        if ours != from_utf8(bytes).is_ok() {
            self.differ = self.differ.saturating_add(1);
        }
    }
}

impl fmt::Display for Tally {
    fn fmt<W: fmt::Write>(&self, f: &mut fmt::Formatter<W>) -> fmt::Result {
        write!(
            f,
            "{} tried, {} well formed, {} differ",
            self.tried, self.formed, self.differ
        )
    }
}

/// A tally for each length of a sequence.
#[derive(Default, Drop)]
struct Tallies([Tally; 5]);

impl Tallies {
    fn note(&mut self, bytes: &[u8])
        requires { length bytes.now < 5 }
    {
        self.0[bytes.len()].note(bytes);
    }

    // A first byte, and every byte behind it, and every two.
    fn up_to_three(&mut self, a: u8) {
        self.note(&[a]);
        for b in 0..=255u8 {
            self.note(&[a, b]);
            for c in 0..=255u8 {
                self.note(&[a, b, c]);
            }
        }
    }

    fn four(&mut self, a: u8, b: u8) {
        for c in EDGES {
            for d in EDGES {
                self.note(&[a, b, c, d]);
            }
        }
    }
}

// Each line is printed as soon as its count stands.
fn main(rt: HostRuntime) -> anyhow::Result<()> {
    let mut tallies = Tallies::default();
    tallies.note(&[]);
    println!(rt; "0 bytes: {}", tallies.0[0])?;
    for a in 0..=255u8 {
        tallies.up_to_three(a);
    }
    for (length, tally) in tallies.0.iter().enumerate().take(4).skip(1) {
        println!(rt; "{length} bytes: {tally}")?;
    }
    for a in 0xee..=0xf7u8 {
        for b in 0..=255u8 {
            tallies.four(a, b);
        }
    }
    println!(rt; "4 bytes: {}", tallies.0[4])?;
    Ok(())
}
