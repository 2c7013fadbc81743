//! The order of a history: whether each core made its script's steps, and the cores ran in waves.
//!
//! A core is read by itself: what its world answers is filled in, so that its run is a tree with one step at each place, and the
//! history has the answers.
#![tactic(auto)]

mod call;
mod core_read;
mod exits;
mod order;
mod reader;
mod request;
#[cfg(test)]
mod tests;
mod wave;

pub use core_read::{CoreRead, read_core};
pub use order::{Order, WholeOrder, order_of};
pub use reader::{CoreEntries, Stop};
