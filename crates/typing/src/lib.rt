#![tactic(auto)]

pub mod basic;
pub mod calls;
pub mod limits;
pub mod questions;
pub mod rows;
pub mod tuples;
pub mod types;
pub mod unions;
