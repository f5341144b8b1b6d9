// Calls on a working set, what each comes to, and the law of every run of calls.
#![tactic(auto)]

pub mod laws;
