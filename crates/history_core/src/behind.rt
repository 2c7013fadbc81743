//! Logs behind a history, by ticket.
ghost use Rattle.std.specs.Prelude.{◌≡◌, ℕ, ◌+◌, ◌<◌, ◌≤◌, ◌∷◌, ◌++◌, List, [], length, map, All, reverse, vec_len, vec_capacity, IfOk, OnOk, IfSome, IfNone};
ghost use Rattle.svsm_steps.specs.declared.entry.Entry.{Entry};
ghost use Rattle.history_core.specs.Merged.{entries_in, AreLogsOf};
ghost use Rattle.history_core.specs.Marked.{marked, places_in};
ghost use Rattle.history_core.specs.Turned.{contents, IsTurned};
ghost use Rattle.history_core.specs.Raised.{raised};

use crate::merging::count_of;
use std::alloc::Global;
use svsm_steps::Entry;
use svsm_types::NoMemory;

// After so many entries of a log, the memory that they had is given back.
const STRIDE: usize = 1024;

/// The entries of `past`, and behind them the history that the logs have between them, with its tickets raised by the number of
/// the entries in `past`.
///
/// Each entry of the logs is moved once, and a log gives its memory back while it is read, so that hardly an entry is held twice.
/// Those of `past` are moved where no room is behind them.
pub fn merge_behind(past: Vec<Entry>, logs: Vec<Vec<Entry>>) -> Result<Vec<Entry>, NoMemory>
    requires { (regions : ℕ) × (history : List Entry) × AreLogsOf regions history logs.items }
    ensures { IfOk result (λ all. (regions : ℕ) (history : List Entry) → AreLogsOf regions history logs.items
        → all.items ≡ past.items ++ raised (length past.items) history) }
{
    let alloc = *past.allocator();
    let order = order_of(alloc, &logs)?;
    let mut all = past;
    all.try_reserve(order.len())?;
    let mut logs = logs;
    turn(&mut logs);
    pour(&mut all, &mut logs, &order);
    Ok(all)
}

// The place of each entry, in the order of the tickets. A place that 16 bits do not hold is passed over as want of memory.
fn order_of(alloc: Global, logs: &[Vec<Entry>]) -> Result<Vec<u16>, NoMemory>
    requires { (regions : ℕ) × (history : List Entry) × AreLogsOf regions history logs.now }
    ensures { IfOk result (λ order. (regions : ℕ) (history : List Entry) → AreLogsOf regions history logs.now
        → order.items ≡ places_in history) }
{
    let mut order = Vec::from_elem(alloc, 0u16, count_of(logs))?;
    mark_all(&mut order, logs)?;
    Ok(order)
}

// The place of each entry of the logs, at the index of its ticket.
fn mark_all(order: &mut [u16], logs: &[Vec<Entry>]) -> Result<(), NoMemory>
    requires { All (λ entry. entry.ticket < length order.old) (entries_in logs.now) }
    ensures { OnOk result (order.new ≡ marked (entries_in logs.now) order.old) }
{
    'logs: for log in logs {
        mark(order, log)?;
    }
    Ok(())
}

// The place of each entry of a log, at the index of its ticket.
fn mark(order: &mut [u16], log: &[Entry]) -> Result<(), NoMemory>
    requires { All (λ entry. entry.ticket < length order.old) log.now }
    ensures { OnOk result (order.new ≡ marked log.now order.old) }
{
    'entries: for entry in log {
        if entry.place > 65535 {
            return Err(NoMemory);
        }
        order[entry.ticket as usize] = entry.place as u16;
    }
    Ok(())
}

// Each log with its last entry first.
fn turn(logs: &mut [Vec<Entry>])
    ensures { contents logs.new ≡ map (λ (entries : List Entry). reverse entries) (contents logs.old) }
{
    'logs: for log in logs.iter_mut() {
        log.reverse();
    }
}

// The next entry of a turned log. The memory behind it is given back now and then.
fn next_of(log: &mut Vec<Entry>) -> Option<Entry>
    ensures some { IfSome result (λ entry. log.old.items ≡ log.new.items ++ entry ∷ []) }
    ensures none { IfNone result (log.old.items ≡ []) }
{
    let next = log.pop();
    if log.len() % STRIDE == 0 {
        log.shrink_to_fit();
    }
    next
}

// The entries of turned logs in the order of the tickets, each with its index as its ticket.
fn pour(all: &mut Vec<Entry>, logs: &mut [Vec<Entry>], order: &[u16])
    requires room { vec_len all.old + length order.now ≤ vec_capacity all.old }
    requires turned { (history : List Entry) × IsTurned history logs.old order.now }
    ensures { (history : List Entry) → IsTurned history logs.old order.now
        → all.new.items ≡ all.old.items ++ raised (length all.old.items) history }
{
    'steps: for place in order {
        let Some(entry) = next_of(&mut logs[*place as usize]) else {
            unreachable!()
        };
        let ticket = all.len() as u64;
        all.push_reserved(Entry { ticket, ..entry });
    }
}
