// Heaps: lists of cells, asked through one trait.
#![tactic(auto)]

pub mod built_in;
mod calls;
pub mod empty;
pub mod form;
pub mod head;
pub mod heap;
pub mod live;
pub mod live_heap;
mod own;
mod own_calls;
mod own_cells;
pub mod refusal;
pub mod value;
