// Customs: a host's own tests, asked through one trait.
#![tactic(auto)]

pub mod entries;
pub mod entry;
pub mod list;
pub mod making;
pub mod marks;
pub mod pair;
pub mod ranges;
pub mod ty_custom;
