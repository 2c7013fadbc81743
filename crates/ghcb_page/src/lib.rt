//! The GHCB page, which is shared with the host, and the fields of an exit in it.
#![tactic(auto)]

pub mod bytes;
mod exit;
mod page;
#[cfg(test)]
mod tests;

pub use page::{GhcbPage, HostSaid};
