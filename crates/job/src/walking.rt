ghost use Rattle.std.specs.Prelude.{◌≡◌, ◌≤◌, length, MatchResult};
ghost use Rattle.values.specs.Held.{Lies};
ghost use Rattle.job_format.specs.Tags.{tag_number};
ghost use Rattle.job_format.specs.Frames.{records};
ghost use Rattle.job_format.specs.Order.{Verified};
ghost use Rattle.job_format.specs.Contents.{job_cells};
ghost use Rattle.job.specs.Walked.{numbered, numbered_left};
ghost use Rattle.job.specs.Held.{raw_bytes, job_bytes, cell_held};

use crate::cell_body::CellBody;
use crate::frames::tagged;
use crate::raw::RawJob;
use crate::records::Tagged;
use crate::verified::Job;
use job_format::tag::Tag;
use values::refusal::Refusal;

impl RawJob {
    // A job that the test found good, moved.
    pub fn verified(self) -> Job
        requires { Verified (raw_bytes self) }
        ensures { job_bytes result ≡ raw_bytes self }
    {
        let cells = tagged(self.bytes.as_slice(), Tag::Cell).count();
        Job {
            bytes: self.bytes,
            cells,
        }
    }
}

impl Job {
    // The records with this tag.
    #[inline]
    pub(crate) fn tagged(&self, tag: Tag) -> Tagged<'_>
        ensures { numbered_left result ≡ numbered (tag_number tag) 0 (records (job_bytes self.now)) }
    {
        tagged(self.bytes.as_slice(), tag)
    }

    // The cell with the number v.
    #[inline]
    pub(crate) fn cell(&self, v: usize) -> Result<CellBody<'_>, Refusal>
        ensures { MatchResult result (λ c. Lies (job_cells (job_bytes self.now)) v (cell_held c)) (λ why. (why ≡ Refusal.NoValue) × (length (job_cells (job_bytes self.now)) ≤ v)) }
    {
        let record = self.tagged(Tag::Cell).nth(v).ok_or(Refusal::NoValue)?;
        Ok(CellBody::new(record.body))
    }
}
