// The text of an annotation, read into a type.
#![tactic(auto)]

mod builder;
mod builders;
pub mod calls;
pub mod fault;
pub mod reader;
