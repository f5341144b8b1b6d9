// Reports each job that is named, a line for its name and then its lines.
#![tactic(auto)]

use report::lines::lines;
use std::{env, fs};

fn show(rt: HostRuntime, name: &str) -> anyhow::Result<()> {
    println!(rt; "{name}")?;
    let bytes = fs::read(&rt, name)?;
    let text = lines(rt.alloc(), bytes)?;
    for line in text.lines() {
        println!(rt; "  {line}")?;
    }
    Ok(())
}

fn main(rt: HostRuntime) -> anyhow::Result<()> {
    for name in env::args(&rt)?.skip(1) {
        show(rt, name.as_str())?;
    }
    Ok(())
}
