// Annotations compiled to matchers.
#![tactic(auto)]

pub mod annotations;
mod choose;
pub mod compile;
mod compiler;
pub mod entries;
mod expand;
pub mod factory;
pub mod scratch;
mod steps;
