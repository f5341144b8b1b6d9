ghost use Rattle.std.specs.Prelude.{◌≡◌, ◌≤◌, length, MatchResult, Err};
ghost use Rattle.job_format.specs.Limits.{most_bytes};
ghost use Rattle.job_format.specs.Frames.{records};
ghost use Rattle.job_format.specs.Order.{Framed, cell_count};
ghost use Rattle.job.specs.Judged.{Judged, Accepts};
ghost use Rattle.job.specs.Held.{raw_bytes};

use crate::cell_body::CellBody;
use crate::fault::JobFault;
use crate::frames::records;
use crate::limits::MOST_BYTES;
use crate::raw::RawJob;
use crate::tally::Seen;
use job_format::tag::Tag;

// The first pass: frames, order and counts. How many cells there are, or the first wrong record.
fn test_frames(bytes: &[u8]) -> Result<usize, JobFault>
    requires { length bytes.now ≤ most_bytes }
    ensures { MatchResult result (λ n. Framed bytes.now × (n ≡ cell_count (records bytes.now))) (λ fault. Judged bytes.now (Err fault)) }
{
    let mut walk = records(bytes);
    let mut seen = Seen::default();
    while let Some(record) = walk.next() {
        if !seen.can_follow(record.tag, record.body.len()) {
            return Err(JobFault::Frame(record.number));
        }
        seen = seen.with_record(record.tag);
    }
    if !walk.rest.is_empty() {
        return Err(JobFault::Frame(walk.number));
    }
    Ok(seen.cells)
}

// The second pass: each cell. The first that is turned down, with its record.
fn test_cells(bytes: &[u8], cells: usize) -> Result<(), JobFault>
    requires framed { Framed bytes.now }
    requires cells { cells ≡ cell_count (records bytes.now) }
    ensures { Judged bytes.now result }
{
    let cell = u8::from(Tag::Cell);
    for record in records(bytes) {
        if record.tag == cell {
            CellBody::new(record.body)
                .test(cells)
                .map_err(|why| JobFault::Cell(record.number, why))?;
        }
    }
    Ok(())
}

// Both passes, after the size.
fn first_fault(bytes: &[u8]) -> Result<(), JobFault>
    ensures { Judged bytes.now result }
{
    if bytes.len() > MOST_BYTES {
        return Err(JobFault::Frame(0));
    }
    let cells = test_frames(bytes)?;
    test_cells(bytes, cells)
}

// The same, with what it says of the jobs that are written so: that a parameter's bytes are below 256 is known.
fn judge(bytes: &[u8]) -> Result<(), JobFault>
    ensures judged { Judged bytes.now result }
    ensures exact { Accepts bytes.now result }
{
    first_fault(bytes)
}

impl RawJob {
    // A job that is still to be tested.
    pub fn new(bytes: Vec<u8>) -> RawJob
        ensures { raw_bytes result ≡ bytes.items }
    {
        RawJob { bytes }
    }

    // Whether the job is good, or its first fault.
    pub fn test(&self) -> Result<(), JobFault>
        ensures judged { Judged (raw_bytes self.now) result }
        ensures exact { Accepts (raw_bytes self.now) result }
    {
        judge(self.bytes.as_slice())
    }
}
