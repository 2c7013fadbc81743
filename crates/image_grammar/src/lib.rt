//! The grammar of the text of an image: what a text tells, or the first line that is wrong and why.
//!
//! It stands in `specs/`, for readers and writers alike: `Kept` the lines that count, `Words` and `Forms` the table of line forms,
//! `Grammar` one line behind another, `End` what is tried at the end, and `Image` the whole.
#![tactic(auto)]

mod head;
mod item;
mod kind;
mod words;

pub use head::Levels;
pub use item::Item;
pub use kind::{ImageError, ImageKind, LineError};
pub use words::{EventWord, Format, LineWord, ValueWord};
