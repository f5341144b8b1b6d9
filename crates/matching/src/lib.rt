// Whether a node of a store accepts a value of a heap.
#![tactic(auto)]

mod asked;
mod frames;
pub mod running;
mod setting;
mod shapes;
mod subject;
