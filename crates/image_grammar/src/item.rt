//! What one line tells by itself.
use svsm_types::{CoreLine, FaultAt, Fill, HostLine, Page, Range, Size, Span};

/// What a line behind the first five tells.
#[derive(Debug, Drop)]
pub enum Item {
    Range(Range),
    Large(u64),
    Accept(Span),
    Core(CoreLine),
    Bytes(Fill),
    Fault(FaultAt),
    Host(HostLine),
    /// The pool splits 2M blocks.
    Split,
    Block((Page, Size)),
    /// The host is told of vCPUs that come and go.
    Announce,
}
