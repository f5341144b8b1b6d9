// Matchers: kinds of nodes, what a store of nodes is, and two stores.
#![tactic(auto)]

pub mod alloc;
pub mod kind;
pub mod node;
mod rows;
pub mod stores;
mod tables;
