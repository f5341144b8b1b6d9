// How types are compiled to matchers: the steps, what they write, and that it is right.
#![tactic(auto)]

pub mod annotation;
pub mod laws;
pub mod tasks;
