//! The outside: where files come from, and where text goes.
#![tactic(auto)]

mod file_shelf;
mod memory_shelf;
mod memory_sink;
mod shelf;
mod sink;
mod stream_sink;
mod write;

pub use file_shelf::FileShelf;
pub use memory_shelf::MemoryShelf;
pub use memory_sink::MemorySink;
pub use shelf::{LoadError, Shelf};
pub use sink::Sink;
pub use stream_sink::StreamSink;
pub use write::append_all;

#[cfg(test)]
mod tests;
