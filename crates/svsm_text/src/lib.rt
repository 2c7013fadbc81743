//! Numbers and lines of a text.
#![tactic(auto)]

mod fields;
mod law;
mod lines;
mod numbers;

pub use fields::{MOST, few_fields_of, fields_of};
pub use law::reads_what_was_put;
pub use lines::next_line;
pub use numbers::{put_hex, read_hex, write_digits};

#[cfg(test)]
mod tests;
