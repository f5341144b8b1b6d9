ghost use Rattle.std.specs.Prelude.{◌≡◌, ◌≤◌, length, map, IfOk, MatchOption};
ghost use Rattle.custom.specs.Held.{entries_in, marks_in, ranges_in};
ghost use Rattle.job_format.specs.Tags.{tag_number, text_tag};
ghost use Rattle.job_format.specs.Frames.{records};
ghost use Rattle.job_format.specs.Bodies.{bodies};
ghost use Rattle.job_format.specs.Contents.{job_marks, job_ranges, job_texts, job_queries, query_in_lem, Stood, TextAt};
ghost use Rattle.job.specs.Held.{job_bytes};
ghost use Rattle.job.specs.Walked.{numbered};
ghost use Rattle.job.specs.Entered.{texts_left, entries_left};

use crate::entries::{Entries, Queries, Texts};
use crate::from_body::FromBody;
use crate::text::Text;
use crate::verified::Job;
use custom::list::Entries as Tests;
use custom::marks::Marks;
use custom::ranges::Ranges;
use job_format::query::Query;
use job_format::tag::Tag;
use std::alloc::{AllocError, Global};
use std::marker::PhantomData;

impl Job {
    // What the records with one tag say, from the first on.
    fn entries<T: FromBody>(&self) -> Entries<'_, T>
        ensures { entries_left T.read result ≡ map T.read (bodies (tag_number T.TAG) (records (job_bytes self.now))) }
    {
        Entries {
            tagged: self.tagged(T::TAG),
            of: PhantomData,
        }
    }

    // All texts, from the first on.
    pub fn texts_in_order(&self) -> Texts<'_>
        ensures { texts_left result ≡ numbered text_tag 0 (records (job_bytes self.now)) }
    {
        Texts {
            tagged: self.tagged(Tag::Text),
        }
    }

    // How many texts there are.
    pub fn texts(&self) -> usize
        ensures { result ≡ length (job_texts (job_bytes self.now)) }
    {
        self.texts_in_order().count()
    }

    // The text with the number v, and its record.
    pub fn text(&self, v: usize) -> Option<Text<'_>>
        ensures { MatchOption result (length (job_texts (job_bytes self.now)) ≤ v) (λ t. TextAt (job_bytes self.now) v t.record t.bytes.now) }
    {
        self.texts_in_order().nth(v)
    }

    // All queries, from the first on.
    pub fn queries_in_order(&self) -> Queries<'_>
        ensures { entries_left query_in_lem result ≡ job_queries (job_bytes self.now) }
    {
        self.entries()
    }

    // How many queries there are.
    pub fn queries(&self) -> usize
        ensures { result ≡ length (job_queries (job_bytes self.now)) }
    {
        self.queries_in_order().count()
    }

    // The query with the number v.
    pub fn query(&self, v: usize) -> Option<Query>
        ensures { MatchOption result (length (job_queries (job_bytes self.now)) ≤ v) (λ q. Stood (job_queries (job_bytes self.now)) v q) }
    {
        self.queries_in_order().nth(v)
    }

    // The tests that the entries of one kind make.
    fn tests<T: FromBody>(&self, heap: Global) -> Result<Tests<T>, AllocError>
        ensures { IfOk result (λ m. entries_in m ≡ map T.read (bodies (tag_number T.TAG) (records (job_bytes self.now)))) }
    {
        let entries = self.entries().collect(heap)?;
        Ok(Tests::new(entries).unwrap())
    }

    // The Marks of the job.
    pub fn marks(&self, heap: Global) -> Result<Marks, AllocError>
        ensures { IfOk result (λ m. marks_in m ≡ job_marks (job_bytes self.now)) }
    {
        self.tests(heap)
    }

    // The Ranges of the job.
    pub fn ranges(&self, heap: Global) -> Result<Ranges, AllocError>
        ensures { IfOk result (λ m. ranges_in m ≡ job_ranges (job_bytes self.now)) }
    {
        self.tests(heap)
    }
}
