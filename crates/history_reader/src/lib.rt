//! The history part of a report, read back to its entries.
//!
//! An entry has one text, so a line tells one entry or none. The reader takes a line apart loosely, prints what it found, and
//! compares: so a number in another form, or a space too many, is no entry.
#![tactic(auto)]

mod answer;
mod entry;
mod formed;
mod history;
mod law;
mod line;
mod step;
mod words;

pub use history::{HistoryError, read_history};
pub use law::{entries_have_own_texts, texts_have_one_history, texts_tell_entries};

#[cfg(test)]
mod tests;
