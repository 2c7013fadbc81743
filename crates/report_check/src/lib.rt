//! The check of a report of an image that boots, on the plain machine.
#![tactic(auto)]

mod check;
mod error;
mod text;

pub use check::check_report;
pub use error::CheckError;
