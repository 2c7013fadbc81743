//! Why a report is not that of a run.
use svsm_types::NoMemory;

/// The first reason. The number of an entry is its index in the history part, from 0, and not its printed ticket.
#[derive(Clone, Copy, Debug, PartialEq, Eq)]
pub enum CheckError {
    /// This line of the report, from 1, is missing from its history part, or is not the text of its number or of an entry with a
    /// well-formed step; 0 where no line begins a history part.
    Report { line: u64 },
    /// The entry has a wrong ticket, a wrong place, or an answer that the machine does not give.
    Play { ticket: u64 },
    /// The entry does not fault as it is due to.
    Due { ticket: u64 },
    /// The entry does not stand where its core's script and the waves have it. The number of all entries: some are missing.
    Order { ticket: u64 },
    /// The text of the run differs first at this byte, from 0, or one of the texts ends there.
    Text { at: u64 },
    /// No memory was found.
    NoMemory,
}

impl From<NoMemory> for CheckError {
    ghost use Rattle.std.specs.Prelude.{◌≡◌};
    ghost use Rattle.report_check.specs.declared.error.CheckError.TheVariants.{NoMemory as none};

    ghost from_gives = { λ _ e. e ≡ none };

    fn from(_: NoMemory) -> Self {
        CheckError::NoMemory
    }
}
