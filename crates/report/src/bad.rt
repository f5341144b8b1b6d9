ghost use Rattle.std.specs.Prelude.{◌≡◌};
ghost use Rattle.report.specs.declared.bad.BadRecord.{BadRecord};

use annotation::fault::TextFault;
use job::fault::JobFault;
use values::refusal::Refusal;

// The first bad record of a job.
#[derive(Clone, Copy)]
pub enum BadRecord {
    // The job's size, or a frame, an order, a count or a cell.
    Job(JobFault),
    // The text of this record.
    Text(usize, TextFault),
    // The text of this record is read, and its type can't be compiled.
    Compiling(usize, Refusal),
}

// The fault of a record's text, with the number of the record.
#[derive(Clone, Copy)]
pub(crate) struct InRecord<E> {
    pub(crate) number: usize,
    pub(crate) fault: E,
}

impl From<JobFault> for BadRecord {
    ghost from_gives = { λ x y. y ≡ BadRecord.Job x };

    fn from(value: JobFault) -> BadRecord {
        BadRecord::Job(value)
    }
}

impl From<InRecord<TextFault>> for BadRecord {
    ghost from_gives = { λ x y. y ≡ BadRecord.Text x.number x.fault };

    fn from(value: InRecord<TextFault>) -> BadRecord {
        BadRecord::Text(value.number, value.fault)
    }
}

impl From<InRecord<Refusal>> for BadRecord {
    ghost from_gives = { λ x y. y ≡ BadRecord.Compiling x.number x.fault };

    fn from(value: InRecord<Refusal>) -> BadRecord {
        BadRecord::Compiling(value.number, value.fault)
    }
}
