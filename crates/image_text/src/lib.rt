//! A last state, saved as the text of an image.
#![tactic(auto)]

mod collect;
mod error;
mod fill;
mod image;
mod law;
mod text;
mod write;

pub use collect::{Saying, put_page, ranges_of};
pub use error::SaveError;
pub use fill::put_filled;
pub use image::put_image;
pub use law::{boots_into, reads_again, saves_readable, tidy_pages_are_said, worked_save};
