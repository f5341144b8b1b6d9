// The grammar of annotations: which texts are valid, and where any other goes wrong.
#![tactic(auto)]

pub mod fault;
mod readers;
pub mod stages;
pub mod text;
pub mod tokens;
pub mod words;
