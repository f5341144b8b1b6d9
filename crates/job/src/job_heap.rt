ghost use Rattle.job_format.specs.Bodies.{cell_in};
ghost use Rattle.job_format.specs.Contents.{job_cells};
ghost use Rattle.job.specs.Held.{job_bytes};
ghost use Rattle.std.proofs.Common.{arith};
ghost use Rattle.std.proofs.lemmas.List.{length-map};
ghost use Rattle.job_format.specs.Frames.{records};
ghost use Rattle.job_format.specs.Bodies;
ghost use Rattle.job_format.proofs.Finding.{few_of, job_formed, job_closed};

use crate::verified::Job;
use values::head::Head;
use values::heap::Heap;
use values::refusal::Refusal;
use values::value::Value;

impl Heap for Job {
    ghost cells = { λ j. job_cells (job_bytes j) };

    ghost closed = { λ j. job_closed j.bytes.items j.sound };

    ghost few = { λ j. omega (arith, length-map (Bodies.bodies 1 (records j.bytes.items)) cell_in, few_of 1 (records j.bytes.items) j.follow) };

    ghost formed = { λ j. job_formed j.bytes.items j.sound };

    fn count(&self) -> usize {
        self.cells
    }

    #[inline]
    fn head(&self, v: Value) -> Result<Head, Refusal> {
        Ok(self.cell(v.0)?.head)
    }

    #[inline]
    fn len(&self, v: Value) -> Result<usize, Refusal> {
        Ok(self.cell(v.0)?.parts.len())
    }

    #[inline]
    fn part(&self, v: Value, i: usize) -> Result<Value, Refusal> {
        let part = self.cell(v.0)?.part(i).ok_or(Refusal::NoValue)?;
        Ok(Value(part))
    }
}
