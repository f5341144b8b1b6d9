// Replays recorded jobs: each has its length in four bytes in front of it.
#![tactic(auto)]

ghost use Rattle.std.specs.Prelude.{length};
ghost use Rattle.std.specs.Iterator.{at_most};

use report::lines::lines;
use std::fs;

// The jobs that are still to come.
#[derive(Drop)]
struct Jobs<'a> {
    rest: &'a [u8],
}

impl<'a> Iterator for Jobs<'a> {
    type Item = &'a [u8];

    ghost remaining = { λ jobs. at_most (length jobs.rest.now) };

    fn next(&mut self) -> Option<&'a [u8]> {
        let [a, b, c, d, after @ ..] = self.rest else {
            return None;
        };
        let len = u32::from_be_bytes([*a, *b, *c, *d]) as usize;
        let (job, rest) = after.split_at_checked(len)?;
        self.rest = rest;
        Some(job)
    }
}

fn show(rt: HostRuntime, job: &[u8]) -> anyhow::Result<()> {
    let text = lines(rt.alloc(), job.to_vec(rt.alloc())?)?;
    print!(rt; "{text}")?;
    Ok(())
}

fn main(rt: HostRuntime) -> anyhow::Result<()> {
    let all = fs::read(&rt, "vectors.jobs")?;
    for job in (Jobs { rest: &all }) {
        show(rt, job)?;
    }
    Ok(())
}
