//! Why a last state is not saved.
ghost use Rattle.std.specs.Prelude.{◌≡◌};
ghost use Rattle.image_text.specs.declared.error.SaveError.TheVariants as save_errors;

use svsm_types::{NoMemory, Page};
use thiserror::Error;

/// Why a last state is not saved.
#[derive(Clone, Copy, Debug, PartialEq, Eq, Error)]
pub enum SaveError {
    /// This core, the first of those, ended by a fault or by a wrong answer of the host.
    #[error("core {core:#x}")]
    Core { core: u32 },
    /// The host refused an exit that announced a vCPU, with these two values.
    #[error("host {info1:#x} {info2:#x}")]
    Host { info1: u64, info2: u64 },
    /// The record of this page, the first of those, differs from its being validated; or it is the GHCB page, and assigned.
    #[error("page {:#x}", .page.0)]
    Page { page: Page },
    /// The text is longer than an image may be.
    #[error("long")]
    Long,
    #[error("out of memory")]
    NoMemory,
}

impl From<NoMemory> for SaveError {
    ghost from_gives = { λ _ error. error ≡ save_errors.NoMemory };

    fn from(_: NoMemory) -> Self {
        SaveError::NoMemory
    }
}
