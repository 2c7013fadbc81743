//! The exits by which the host learns which vCPUs a wave created and deleted.
#![tactic(auto)]

mod announcing;
mod exits;
mod law;
#[cfg(test)]
mod tests;
mod text;
mod wave;

pub use announcing::announce;
pub use exits::{ApError, ApExit};
pub use law::exits_end_as_due;
pub use text::put_ap;
pub use wave::differences;
