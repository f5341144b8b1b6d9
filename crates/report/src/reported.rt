use crate::answer::Answer;
use crate::bad::BadRecord;

// What is reported of a job: an answer for each query, or its first bad record.
// No Result: a bad record is reported as well, and `report` fails only for want of memory.
#[derive(Drop)]
pub enum Reported {
    Bad(BadRecord),
    Answers(Vec<Answer>),
}
