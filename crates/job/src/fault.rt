use values::refusal::Refusal;

// Why a job is turned down, and at which record.
#[derive(Clone, Copy, PartialEq, Eq, Debug)]
pub enum JobFault {
    // The size of the job, or the frame, the order or the count at a record.
    Frame(usize),
    // The cell of a record.
    Cell(usize, Refusal),
}

// What is written of a fault: the record, the number of the reason, and the byte of a text where that is at fault, else 0.
#[derive(Clone, Copy, PartialEq, Eq, Debug)]
pub struct Report {
    pub record: usize,
    pub number: u8,
    pub byte: usize,
}
