//! The last state of a run, saved.
#![tactic(auto)]

mod saved;

pub use saved::save_run;
