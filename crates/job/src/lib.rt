// A job: raw bytes, tested once, then a heap, customs, texts and queries.
#![tactic(auto)]

mod bodies;
mod cell_body;
mod contents;
pub mod entries;
pub mod fault;
mod frames;
mod from_body;
pub mod job_heap;
pub mod limits;
pub mod opening;
pub mod raw;
mod reading;
mod records;
mod seen;
mod tally;
mod testing;
pub mod text;
pub mod verified;
mod walking;
