//! The audit of a report on the plain machine, on one thread.
#![tactic(auto)]

mod boots;
mod error;
mod reports;

pub use error::AuditError;
pub use reports::audit;

#[cfg(test)]
mod tests;
