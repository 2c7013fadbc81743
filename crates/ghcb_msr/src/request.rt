//! Requests and replies.
use svsm_types::{Page, Vmpl};

/// What the module asks of the host in the GHCB MSR.
#[derive(Clone, Copy, Debug, PartialEq, Eq)]
pub enum MsrRequest {
    /// The versions of the protocol, and the place of the C-bit.
    Info,
    /// The features of the hypervisor.
    Features,
    /// The GHCB page is this one, below 2^40.
    Register(Page),
    /// A change of the state of one page below 2^40: operation 1 makes it private, 2 shared; at most 15.
    Change { page: Page, operation: u8 },
    /// Runs the guest at this level.
    Run(Vmpl),
    /// The guest is to be ended. The set is at most 15.
    Terminate { set: u8, reason: u8 },
}

/// A right answer.
#[derive(Clone, Copy, Debug, PartialEq, Eq)]
pub enum MsrReply {
    Info { greatest: u16, least: u16, cbit: u8 },
    Features(u64),
    Registered,
    Changed,
    Ran,
}

/// A value that was sent, and an answer that is not right for it.
#[derive(Clone, Copy, Debug, PartialEq, Eq)]
pub struct Wrong {
    pub sent: u64,
    pub got: u64,
}
