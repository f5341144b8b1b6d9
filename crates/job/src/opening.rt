ghost use Rattle.std.specs.Prelude.{◌≡◌, IfOk, Ok, Err, MatchResult};
ghost use Rattle.job.specs.Judged.{Judged, Accepts, fault_says};
ghost use Rattle.job.specs.Held.{raw_bytes, job_bytes};

use crate::fault::{JobFault, Report};
use crate::raw::RawJob;
use crate::verified::Job;

// The reason of a fault of size, frame, order or count.
const WRONG_FRAME: u8 = 12;

// The way of every job: tested, then moved.
pub fn opened(raw: RawJob) -> Result<Job, JobFault>
    ensures same { IfOk result (λ j. job_bytes j ≡ raw_bytes raw) }
    ensures judged { MatchResult result (λ _. Judged (raw_bytes raw) (Ok tt)) (λ e. Judged (raw_bytes raw) (Err e)) }
    ensures exact { MatchResult result (λ _. Accepts (raw_bytes raw) (Ok tt)) (λ e. Accepts (raw_bytes raw) (Err e)) }
{
    raw.test()?;
    Ok(raw.verified())
}

impl From<JobFault> for Report {
    ghost from_gives = { λ fault said. said ≡ fault_says fault };

    // What is written of the fault.
    fn from(fault: JobFault) -> Report {
        match fault {
            JobFault::Frame(record) => Report {
                record,
                number: WRONG_FRAME,
                byte: 0,
            },
            JobFault::Cell(record, why) => Report {
                record,
                number: u8::from(why),
                byte: 0,
            },
        }
    }
}
