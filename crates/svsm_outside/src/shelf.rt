//! Where files come from.
ghost use Rattle.std.specs.Prelude.{◌≡◌, ◌≤◌, length, IfOk, IfSome};
ghost use Rattle.svsm_outside.specs.declared.shelf.LoadError.TheVariants as load_errors;
ghost use Rattle.svsm_outside.specs.Views.{ShelfView};
ghost use Rattle.svsm_outside.specs.Outside.{Loads, LoadCause, Asks};

use std::alloc::{AllocError, AllocFailed, Global};
use thiserror::Error;

/// Why a file was not loaded.
#[derive(Clone, Copy, Debug, PartialEq, Eq, Error)]
pub enum LoadError {
    /// The file is not there, or could not be read.
    #[error("the load failed")]
    Failed,
    #[error("the file is too long")]
    TooLong,
    #[error("out of memory")]
    NoMemory,
}

impl From<AllocError> for LoadError {
    ghost from_gives = { λ _ e. e ≡ load_errors.NoMemory };

    fn from(_: AllocError) -> Self {
        LoadError::NoMemory
    }
}

impl<T: Drop> From<AllocFailed<T>> for LoadError {
    ghost from_gives = { λ _ e. e ≡ load_errors.NoMemory };

    fn from(_: AllocFailed<T>) -> Self {
        LoadError::NoMemory
    }
}

/// Named files.
pub trait Shelf {
    ghost seen: { Self → ShelfView };

    /// The bytes under a name, whole, where they are at most so many.
    fn load(&mut self, alloc: Global, name: &str, limit: u64) -> Result<Vec<u8>, LoadError>
        ensures same { (seen self.new).told ≡ (seen self.old).told }
        ensures fits { IfOk result (λ v. length v.items ≤ limit) }
        ensures bytes { IfSome ((seen self.old).told name.now) (λ told. Loads (λ v. v.items) told limit result) }
        ensures cause { LoadCause name.now (seen self.old) (seen self.new) result }
        ensures asked { Asks name.now (seen self.old) (seen self.new) result };
}
