// From the bytes of a job to its answers, or to its first bad record, and to the lines that are written.
#![tactic(auto)]

pub mod answer;
mod asking;
pub mod bad;
mod entering;
pub mod lines;
pub mod reported;
pub mod reporting;
mod tables;
