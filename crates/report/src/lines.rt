// The lines that are written of a report.
ghost use Rattle.std.specs.Prelude.{◌≡◌, cond, ◌++◌, IfOk, Some, string_bytes, codes, OnOk};
ghost use Rattle.report.specs.Reports.{bad_says};
ghost use Rattle.report.specs.Lines.{answer_text, bad_text, answer_lines, report_lines, Lines};

use crate::answer::Answer;
use crate::bad::BadRecord;
use crate::reported::Reported;
use crate::reporting::report;
use job::fault::Report;
use std::alloc::{AllocError, Global};
use std::fmt;

// The word for the answer of a check.
fn yes_or_no(is_member: bool) -> &'static str
    ensures { result.now ≡ cond is_member (codes "yes") (codes "no") }
{
    if is_member { "yes" } else { "no" }
}

impl fmt::Display for Answer {
    ghost output = { λ a. Some (answer_text a) };

    fn fmt<W: fmt::Write>(&self, f: &mut fmt::Formatter<W>) -> fmt::Result {
        let Answer {
            annotation,
            value,
            says,
        } = *self;
        match says {
            Ok(is_member) => write!(f, "{annotation} {value} {}", yes_or_no(is_member)),
            Err(why) => write!(f, "{annotation} {value} refused {why}"),
        }
    }
}

impl fmt::Display for BadRecord {
    ghost output = { λ b. Some (bad_text (bad_says b)) };

    fn fmt<W: fmt::Write>(&self, f: &mut fmt::Formatter<W>) -> fmt::Result {
        let bad = Report::from(*self);
        write!(f, "bad {} {} {}", bad.record, bad.number, bad.byte)
    }
}

// Adds a line for each answer.
fn add_answers(text: &mut String, answers: &[Answer]) -> Result<(), AllocError>
    ensures { OnOk result (string_bytes text.new ≡ string_bytes text.old ++ answer_lines answers.now) }
{
    for answer in answers {
        writeln!(text, "{answer}")?;
    }
    Ok(())
}

// The lines of a report.
fn written(memory: Global, reported: &Reported) -> Result<String, AllocError>
    ensures { IfOk result (λ t. string_bytes t ≡ report_lines reported.now) }
{
    match reported {
        Reported::Bad(bad) => format!(in memory; "{bad}\n"),
        Reported::Answers(answers) => {
            let mut text = String::new(memory);
            add_answers(&mut text, answers)?;
            Ok(text)
        }
    }
}

// The lines that are written of the bytes of a job: one for each query, or one for the first bad record.
pub fn lines(memory: Global, bytes: Vec<u8>) -> Result<String, AllocError>
    ensures { IfOk result (λ t. Lines bytes.items (string_bytes t)) }
{
    let reported = report(memory, bytes)?;
    written(memory, &reported)
}
