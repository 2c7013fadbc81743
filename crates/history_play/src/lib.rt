//! The entries of a report, played on the plain machine, and texts compared.
#![tactic(auto)]

mod compare;
mod play;

pub use compare::first_difference;
pub use play::{AfterPlay, PlayFailure, play_entries, rows_of};

#[cfg(test)]
mod tests;
