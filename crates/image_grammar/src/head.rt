//! The VMPLs that the first five lines name.
use svsm_types::Vmpl;

/// The VMPLs of the guest: one, or two that differ.
#[derive(Clone, Copy, Debug, PartialEq, Eq)]
pub struct Levels {
    pub first: Vmpl,
    pub second: Option<Vmpl>,
}
