// A working set, its calls one by one and in lists, and the law of every run of calls.
#![tactic(auto)]

pub mod calls;
pub mod checking;
pub mod heap_calls;
pub mod making;
pub mod outcomes;
pub mod performing;
pub mod set;
pub mod type_calls;
