//! Why an exchange is refused.
use thiserror::Error;

/// Why a page-state exchange ended without success. An index is that of an entry in its batch.
#[derive(Clone, Copy, Debug, PartialEq, Eq, Error)]
pub enum PscError {
    /// The host said an error in the exit's info values.
    #[error("the host said {info1:#x} {info2:#x}")]
    Said { info1: u64, info2: u64 },
    /// The index of the last entry came back changed.
    #[error("last index {sent:#x} came back as {got:#x}")]
    End { sent: u16, got: u16 },
    /// The host went back from the index that was sent.
    #[error("the host went back from {sent:#x} to {got:#x}")]
    Back { sent: u16, got: u16 },
    /// The host went past the end.
    #[error("the host went past the end {end:#x} to {got:#x}")]
    Past { end: u16, got: u16 },
    /// An entry came back changed.
    #[error("entry {index:#x} came back as {got:#x} in place of {sent:#x}")]
    Changed { index: u16, sent: u64, got: u64 },
    /// 64 exits in a row came back with this index, which they had sent.
    #[error("no advance from {cur:#x}")]
    Stalled { cur: u16 },
}
