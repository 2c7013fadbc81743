//! Why a text is no image.
use std::alloc::AllocFailed;
use svsm_types::NoMemory;

/// What is wrong. The first six are of a line, tried in this order; the next, and `Missing` where the text ends too soon, are of the
/// whole text, tried in this order; the last is of a file, and no reader gives it.
#[derive(Clone, Copy, Debug, PartialEq, Eq)]
pub enum ImageKind {
    /// One of the first five lines is another, or is not there.
    Missing,
    /// An unknown word, or a wrong number of fields.
    Line,
    /// A field is no number, or the contents are not whole words.
    Number,
    /// A number is outside its limit or the map.
    Range,
    /// A page, an APIC id or a VMSA page stood before, or there is a 65th core.
    Overlap,
    /// Owner, state and rights do not go together.
    State,
    /// The pages of a region that is held as 2M differ, or are VMSA pages.
    Large,
    /// The GHCB page is not the module's and assigned.
    Ghcb,
    /// An accepted page is not the guest's and shared.
    Accept,
    /// There is no core, or the VMSA pages are not just those of the cores.
    Core,
    /// The pages of the listed blocks are not just those of the pool, each once, or a 2M block begins no region that is held as 2M.
    Block,
    /// A file is too long.
    Long,
}

/// A text that is no image.
#[derive(Clone, Copy, Debug, PartialEq, Eq)]
pub enum ImageError {
    /// The number of the first line that fails, from 1, or 0 for the whole text.
    Bad { line: u64, kind: ImageKind },
    NoMemory,
}

/// A line that fails.
#[derive(Clone, Copy, Debug, PartialEq, Eq)]
pub enum LineError {
    Bad(ImageKind),
    NoMemory,
}

impl From<NoMemory> for LineError {
    ghost use Rattle.std.specs.Prelude.{◌≡◌};
    ghost use Rattle.image_grammar.specs.declared.kind.LineError.TheVariants.{NoMemory as none};

    ghost from_gives = { λ _ e. e ≡ none };

    fn from(_: NoMemory) -> Self {
        LineError::NoMemory
    }
}

impl<T: Drop> From<AllocFailed<T>> for LineError {
    ghost use Rattle.std.specs.Prelude.{◌≡◌};
    ghost use Rattle.image_grammar.specs.declared.kind.LineError.TheVariants.{NoMemory as none};

    ghost from_gives = { λ _ e. e ≡ none };

    fn from(_: AllocFailed<T>) -> Self {
        LineError::NoMemory
    }
}

impl From<NoMemory> for ImageError {
    ghost use Rattle.std.specs.Prelude.{◌≡◌};
    ghost use Rattle.image_grammar.specs.declared.kind.ImageError.TheVariants.{NoMemory as none};

    ghost from_gives = { λ _ e. e ≡ none };

    fn from(_: NoMemory) -> Self {
        ImageError::NoMemory
    }
}

impl From<ImageKind> for LineError {
    ghost use Rattle.std.specs.Prelude.{◌≡◌};
    ghost use Rattle.image_grammar.specs.declared.kind.LineError.TheVariants.{Bad as bad};

    ghost from_gives = { λ kind e. e ≡ bad kind };

    fn from(kind: ImageKind) -> Self {
        LineError::Bad(kind)
    }
}
