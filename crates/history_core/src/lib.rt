//! Histories: logs merged by ticket, and the entries of one core or place.
#![tactic(auto)]

mod behind;
mod merging;
mod select;

pub use behind::merge_behind;
pub use merging::merge;
pub use select::{of_core, of_place};

#[cfg(test)]
mod tests;
