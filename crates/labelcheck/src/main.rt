// Reads a job from standard input and writes a line for each query, or one line for its first bad record.
#![tactic(auto)]

use job::limits::MOST_BYTES;
use report::lines::lines;
use std::io::Read;

fn main(rt: HostRuntime) -> anyhow::Result<()> {
    let mut bytes = Vec::new(rt.alloc());
    rt.stdin()
        .take(MOST_BYTES as u64 + 1)
        .read_to_end(&mut bytes)?;
    let text = lines(rt.alloc(), bytes)?;
    print!(rt; "{text}")?;
    Ok(())
}
