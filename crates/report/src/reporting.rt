// What is reported of a job.
ghost use Rattle.std.specs.Prelude.{◌≡◌, IfOk};
ghost use Rattle.job.specs.Held.{job_bytes};
ghost use Rattle.job_format.specs.Order.{Verified};
ghost use Rattle.matcher.specs.Held.{sharing_nodes, sharing_limit};
ghost use Rattle.report.specs.Entering.{blank};
ghost use Rattle.report.specs.Held.{state_of};
ghost use Rattle.report.specs.Reports.{Reports, bad_says, most_places};
ghost use Rattle.report.specs.ByCalls.{ReportsByCalls};

use crate::asking::{ask, queries_of};
use crate::bad::BadRecord;
use crate::reported::Reported;
use crate::tables::Tables;
use custom::pair::Pair;
use job::fault::Report;
use job::opening::opened;
use job::raw::RawJob;
use job::verified::Job;
use matcher::stores::SharingStore;
use std::alloc::{AllocError, Global};

// The places of the store that a job's texts are compiled into.
const PLACES: u16 = 8192;

// Tables with no text entered, over a store that shares.
fn blank_tables(memory: Global) -> Result<Tables<SharingStore>, AllocError>
    ensures { IfOk result (λ t. (state_of sharing_nodes t ≡ blank) × (sharing_limit t.store ≡ most_places)) }
{
    Tables::over(memory, SharingStore::new(memory, PLACES)?)
}

// The texts of a verified job are entered into tables, which become a working set over its cells, and its queries are performed on that.
fn report_verified(memory: Global, job: Job) -> Result<Reported, AllocError>
    requires { Verified (job_bytes job) }
    ensures reports { IfOk result (Reports (job_bytes job)) }
    ensures by_calls { IfOk result (ReportsByCalls (job_bytes job)) }
{
    let customs = Pair::new(job.marks(memory)?, job.ranges(memory)?);
    let mut tables = blank_tables(memory)?;
    if let Err(bad) = tables.enter_all(&customs, &job) {
        return Ok(Reported::Bad(bad));
    }
    let queries = queries_of(memory, &job)?;
    let mut set = tables.into_set(memory, job, customs)?;
    Ok(Reported::Answers(ask(memory, &mut set, &queries)?))
}

// An answer for each query of a job, or its first bad record.
pub fn report(memory: Global, bytes: Vec<u8>) -> Result<Reported, AllocError>
    ensures reports { IfOk result (Reports bytes.items) }
    ensures by_calls { IfOk result (ReportsByCalls bytes.items) }
{
    match opened(RawJob::new(bytes)) {
        Ok(job) => report_verified(memory, job),
        Err(fault) => Ok(Reported::Bad(BadRecord::from(fault))),
    }
}

impl From<BadRecord> for Report {
    ghost from_gives = { λ bad said. said ≡ bad_says bad };

    // The record, the number of the reason, and the byte of a text's fault, else 0.
    fn from(bad: BadRecord) -> Report {
        match bad {
            BadRecord::Job(fault) => Report::from(fault),
            BadRecord::Text(record, fault) => Report {
                record,
                number: fault.code(),
                byte: fault.byte(),
            },
            BadRecord::Compiling(record, why) => Report {
                record,
                number: u8::from(why),
                byte: 0,
            },
        }
    }
}
