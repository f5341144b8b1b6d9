// The job format: which bytes are a good job, and what they say.
#![tactic(auto)]

pub mod exact;
pub mod query;
pub mod tag;
