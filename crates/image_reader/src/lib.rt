//! The text of an image: the machine that it describes, or the first line that is wrong and why.
//!
//! What an image is stands in `image_grammar`; here is its reader, and in `specs/` what the reader keeps while it reads.
#![tactic(auto)]

mod blocks;
mod core_line;
mod digits;
mod draft;
mod end;
mod fill_line;
mod head;
mod host_line;
mod item;
mod lanes;
mod lines;
mod map_line;
mod place;
mod pool_line;
mod range_line;
mod read;
mod tables;
mod told;
mod words;

pub use image_grammar::{ImageError, ImageKind};
pub use read::read_image;
