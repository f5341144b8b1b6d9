// Queries, asked of a working set.
ghost use Rattle.std.specs.Prelude.{◌≡◌, map, length, IfOk};
ghost use Rattle.runs.specs.Acts.{check_told};
ghost use Rattle.working_set.specs.Words.{act, told};
ghost use Rattle.working_set.specs.Sets.{state_of};
ghost use Rattle.job.specs.Held.{job_bytes};
ghost use Rattle.job_format.specs.Contents.{job_queries};
ghost use Rattle.report.specs.Asking.{asks, tells, query_of, OfCheck, OfChecks, Asked};

use crate::answer::Answer;
use custom::ty_custom::TyCustom;
use job::verified::Job;
use job_format::query::Query;
use matcher::alloc::TypeMatcherAlloc;
use std::alloc::{AllocError, Global};
use type_compiled::annotations::TypeCompiled;
use values::heap::Heap;
use values::refusal::Refusal;
use values::value::Value;
use working_set::calls::Call;
use working_set::outcomes::{Granted, Outcome};
use working_set::set::WorkingSet;

// The queries of a job, in their order.
pub(crate) fn queries_of(memory: Global, job: &Job) -> Result<Vec<Query>, AllocError>
    ensures { IfOk result (λ qs. qs.items ≡ job_queries (job_bytes job.now)) }
{
    job.queries_in_order().collect(memory)
}

// The calls that ask the queries.
fn calls_of(memory: Global, queries: &[Query]) -> Result<Vec<Call>, AllocError>
    ensures { IfOk result (λ cs. map act cs.items ≡ map asks queries.now) }
{
    queries
        .iter()
        .map(|query| {
            let annotation = TypeCompiled(query.annotation as usize);
            let value = Value(query.value as usize);
            Call::Check(annotation, value)
        })
        .collect(memory)
}

// What a check said.
fn said(outcome: Outcome) -> Result<bool, Refusal>
    requires { OfCheck (told outcome) }
    ensures { check_told result ≡ told outcome }
{
    match outcome? {
        Granted::Says(is_member) => Ok(is_member),
        _ => unreachable!(),
    }
}

// The answers that the outcomes of the queries are.
fn answers_of(
    memory: Global,
    queries: &[Query],
    outcomes: &[Outcome],
) -> Result<Vec<Answer>, AllocError>
    requires checks { OfChecks (map told outcomes.now) }
    requires each { length outcomes.now ≡ length queries.now }
    ensures { IfOk result (λ xs. (map query_of xs.items ≡ queries.now) × (map tells xs.items ≡ map told outcomes.now)) }
{
    let mut all = Vec::with_capacity(memory, queries.len())?;
    for (query, outcome) in queries.iter().zip(outcomes) {
        all.push_reserved(Answer {
            annotation: query.annotation,
            value: query.value,
            says: said(*outcome),
        });
    }
    Ok(all)
}

// Asks the queries in turn.
pub(crate) fn ask<H: Heap, S: TypeMatcherAlloc, C: TyCustom>(
    memory: Global,
    set: &mut WorkingSet<H, S, C>,
    queries: &[Query],
) -> Result<Vec<Answer>, AllocError>
    ensures { IfOk result (λ xs. Asked (C.custom set.old.customs) S.sharing (state_of H.cells S.nodes S.limit set.old) queries.now xs.items) }
{
    let calls = calls_of(memory, queries)?;
    let mut outcomes = Vec::with_capacity(memory, queries.len())?;
    set.perform(&calls, &mut outcomes).unwrap();
    answers_of(memory, queries, &outcomes)
}
