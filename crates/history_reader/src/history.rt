//! The history part of a report.
ghost use Rattle.std.specs.Prelude.{◌≡◌, ◌≤◌, ◌<◌, ◌+◌, ◌∷◌, ◌++◌, [], ℕ, true, IfOk, OnOk, drop, length, slice_range, List};
ghost use Rattle.svsm_steps.specs.Formed.{AreWellFormed};
ghost use Rattle.svsm_text.specs.Lines.{lines};
ghost use Rattle.history_reader.specs.Texts.{begins_history};
ghost use Rattle.history_reader.specs.Read.{Reads, CountsFrom};

use crate::line::{begins_history, read_count, read_entry};
use std::alloc::Global;
use svsm_steps::Entry;
use svsm_text::next_line;
use svsm_types::NoMemory;

/// Why a text has no history part.
#[derive(Clone, Copy, Debug, PartialEq, Eq)]
pub enum HistoryError {
    /// The line with this number, from 1, is missing or is not as it has to be; 0 where no line begins a history.
    Line(u64),
    NoMemory,
}

impl From<NoMemory> for HistoryError {
    ghost use Rattle.std.specs.Prelude.{◌≡◌};
    ghost use Rattle.history_reader.specs.declared.history.HistoryError.TheVariants.{NoMemory as none};

    ghost from_gives = { λ _ e. e ≡ none };

    fn from(_: NoMemory) -> Self {
        HistoryError::NoMemory
    }
}

fn push_entry(entries: &mut Vec<Entry>, entry: Entry) -> Result<(), NoMemory>
    ensures { OnOk result (entries.new.items ≡ entries.old.items ++ entry ∷ []) }
{
    entries.push(entry)?;
    Ok(())
}

// The entries of so many lines, of which the first begins at `from` and has this number.
fn read_entries(
    alloc: Global,
    regions: u64,
    report: &[u8],
    from: usize,
    first: u64,
    count: u64,
) -> Result<Vec<Entry>, HistoryError>
    requires regions { regions ≤ 512 }
    requires within { from ≤ length report.now }
    requires few { first ≤ from + 1 }
    ensures { CountsFrom (λ entries. entries.items) regions first count (lines (drop from report.now)) result }
{
    let mut entries = Vec::new(alloc);
    let mut room = [0u8; 256];
    let mut at = from;
    let mut number = first;
    let mut left = count;
    'entries: while left > 0 {
        let Some((end, next)) = next_line(report, at) else {
            return Err(HistoryError::Line(number));
        };
        let Some(entry) = read_entry(alloc, regions, &report[at..end], &mut room)? else {
            return Err(HistoryError::Line(number));
        };
        push_entry(&mut entries, entry)?;
        at = next;
        number += 1;
        left -= 1;
    }
    Ok(entries)
}

// The history part that begins with the line from `at` to `end`, which has this number.
fn read_part(
    alloc: Global,
    regions: u64,
    report: &[u8],
    at: usize,
    end: usize,
    next: usize,
    number: u64,
) -> Result<Vec<Entry>, HistoryError>
    requires regions { regions ≤ 512 }
    requires front { at ≤ end }
    requires end { end ≤ length report.now }
    requires within { next ≤ length report.now }
    requires goes { at < next }
    requires few { number ≤ at + 1 }
    requires line { lines (drop at report.now) ≡ slice_range report.now at end ∷ lines (drop next report.now) }
    requires begins { begins_history (slice_range report.now at end) ≡ true }
    ensures { Reads (λ entries. entries.items) regions number (lines (drop at report.now)) result }
{
    let mut text = Vec::new(alloc);
    let Some(count) = read_count(&report[at..end], &mut text)? else {
        return Err(HistoryError::Line(number));
    };
    read_entries(alloc, regions, report, next, number + 1, count)
}

/// The entries of the history part of a report: its first line that begins with `history `, and as many lines after it as that
/// one counts. In an error, the first of these that is missing, or is not the text of its number or of an entry with a well-formed
/// step, is told by its number, from 1; 0 where there is no first line.
pub fn read_history(alloc: Global, regions: u64, report: &[u8]) -> Result<Vec<Entry>, HistoryError>
    requires { regions ≤ 512 }
    ensures reads { Reads (λ entries. entries.items) regions 1 (lines report.now) result }
    ensures formed { IfOk result (λ entries. AreWellFormed regions entries.items) }
{
    seek(alloc, regions, report)
}

// The same, from the first line on.
fn seek(alloc: Global, regions: u64, report: &[u8]) -> Result<Vec<Entry>, HistoryError>
    requires { regions ≤ 512 }
    ensures { Reads (λ entries. entries.items) regions 1 (lines report.now) result }
{
    let mut at = 0;
    let mut number = 1;
    'lines: while let Some((end, next)) = next_line(report, at) {
        if begins_history(&report[at..end]) {
            return read_part(alloc, regions, report, at, end, next, number);
        }
        at = next;
        number += 1;
    }
    Err(HistoryError::Line(0))
}
