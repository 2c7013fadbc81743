//! Values of the GHCB MSR: what the module sends, and which answers are right.
#![tactic(auto)]

mod msr;
mod request;
#[cfg(test)]
mod tests;

pub use msr::{put, read};
pub use request::{MsrReply, MsrRequest, Wrong};
