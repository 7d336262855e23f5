//! replay < SCRIPTS: makes the calls of scripts on real decoders and prints what each answers.
//!
//! A script is a line that names a reader, a line for each call, and `end`:
//!
//!     slice 0002000000000303000300
//!     open
//!     next 0
//!     close
//!     end
//!
//! docs/REPLAY.md has every line and its answer.
#![tactic(auto)]

mod answer;
mod event;
mod fields;
mod line;
mod reader;
mod refusal;
mod scripts;
mod session;

use scripts::Scripts;
use std::io::{BufRead, BufReader};

fn main(rt: HostRuntime) -> anyhow::Result<()> {
    let input = BufReader::new(rt.alloc(), rt.reader())?;
    let mut scripts = Scripts::new(input.lines(rt.alloc()));
    scripts.play(&rt)
}
