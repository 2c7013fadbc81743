//! Logs merged by ticket.
ghost use Rattle.std.specs.Prelude.{◌≡◌, ℕ, ◌≤◌, ◌++◌, List, length, min, IfOk, OnOk, IsPermutation};
ghost use Rattle.svsm_steps.specs.declared.entry.Entry.{Entry};
ghost use Rattle.history_core.specs.Merged.{times, entries_in, IsRising, AreLogsOf};

use std::alloc::Global;
use svsm_steps::Entry;
use svsm_types::NoMemory;

/// All entries of the logs, by ticket. The logs of the places of one history give that history.
///
/// The entries are moved, in time n log n.
pub fn merge(alloc: Global, logs: Vec<Vec<Entry>>) -> Result<Vec<Entry>, NoMemory>
    requires { (ticket : ℕ) → times ticket (entries_in logs.items) ≤ 1 }
    ensures permutation { IfOk result (λ run. IsPermutation (entries_in logs.items) run.items) }
    ensures rising { IfOk result (λ run. IsRising run.items) }
    ensures history { IfOk result (λ run. (regions : ℕ) (history : List Entry) → AreLogsOf regions history logs.items → run.items ≡ history) }
{
    let mut all = joined(alloc, logs)?;
    all.sort_by_key(|entry| entry.ticket)?;
    Ok(all)
}

// How many entries the logs have, or the greatest number where that is less.
pub(crate) fn count_of(logs: &[Vec<Entry>]) -> usize
    ensures { result ≡ min (length (entries_in logs.now)) usize.MAX }
{
    let mut count = 0usize;
    'logs: for log in logs {
        count = count.saturating_add(log.len());
    }
    count
}

// The entries, log after log. Room for all is made at once, so that none is moved twice.
fn joined(alloc: Global, logs: Vec<Vec<Entry>>) -> Result<Vec<Entry>, NoMemory>
    ensures { IfOk result (λ all. all.items ≡ entries_in logs.items) }
{
    let mut all = Vec::with_capacity(alloc, count_of(&logs))?;
    'logs: for mut log in logs {
        all.append(&mut log)?;
    }
    Ok(all)
}
