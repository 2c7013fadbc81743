//! The module's own table of one region: who owns each page, and which pages it has recorded as validated.
#![tactic(auto)]

mod fill;
mod owners;
mod table;
#[cfg(test)]
mod tests;

pub use table::OwnerMap;
