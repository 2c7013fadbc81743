//! The report of a run.
#![tactic(auto)]

mod cores;
mod history;
mod law;
mod line;
mod pages;
mod summary;
mod text;
mod whole;

pub use cores::put_report;
pub use history::{entry_before, put_history};
pub use law::runs_tell_pages;
pub use pages::put_rmp;
pub use summary::{count_replies, count_valid, put_summary, summary_of};
pub use text::{put_newline, put_number, put_text, put_word};
pub use whole::report_of;

#[cfg(test)]
mod tests;
