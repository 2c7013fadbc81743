//! Batches of page-state entries, and their exchange with a host that is not trusted.
#![tactic(auto)]

mod batch;
mod buffer;
mod error;
mod exchange;
mod host;
mod laws;
mod spans;
#[cfg(test)]
mod tests;

pub use batch::Batch;
pub use error::PscError;
pub use host::Host;
pub use laws::good_exchanges_answer_once;
