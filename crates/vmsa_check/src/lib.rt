//! Whether a page may become the VMSA of a vCPU.
#![tactic(auto)]

#[cfg(test)]
mod tests;
mod vmsa;

pub use vmsa::check;
