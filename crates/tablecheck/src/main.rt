//! tablecheck FILE..: says in plain words what each table file holds.
#![tactic(auto)]

mod content;
mod findings;
mod header;
mod report;
mod table;
mod words;

use anyhow::anyhow;
use findings::Findings;
use std::{env, fs};

// Says what one file holds, and whether all is well with it.
fn examine(rt: &HostRuntime, path: &str) -> anyhow::Result<bool> {
    println!(rt; "{path}")?;
    match fs::read(rt, path) {
        Ok(bytes) => match Findings::of(rt.alloc(), bytes.as_slice()) {
            Ok(findings) => {
                println!(rt; "{findings}")?;
                Ok(findings.is_good())
            }
            Err(error) => {
                println!(rt; "  cannot be read: {error}")?;
                Ok(false)
            }
        },
        Err(error) => {
            println!(rt; "  cannot be read: {error}")?;
            Ok(false)
        }
    }
}

fn run(rt: &HostRuntime) -> anyhow::Result<()> {
    let mut paths = env::args(rt)?.skip(1).peekable();
    if paths.peek().is_none() {
        return Err(anyhow!("usage: tablecheck FILE.."));
    }
    let mut good = true;
    for path in paths {
        good &= examine(rt, path.as_str())?;
    }
    if !good {
        return Err(anyhow!("not all is well with every file"));
    }
    Ok(())
}

fn main(rt: HostRuntime) -> anyhow::Result<()> {
    run(&rt)
}
