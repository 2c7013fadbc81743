//! One line of a history.
ghost use Rattle.std.specs.Prelude.{◌≡◌, ◌≤◌, ◌++◌, ◌∷◌, ◌↔◌, [], ℕ, IfOk, IsTrue, MatchOption, List};
ghost use Rattle.svsm_steps.specs.declared.entry.Entry.{Entry};
ghost use Rattle.history_reader.specs.Texts.{begins_history, Counts, IsEntryLine, IsPrinted};

use crate::entry::entry_in;
use crate::formed::is_formed;
use report::entry_before;
use std::alloc::Global;
use svsm_steps::Entry;
use svsm_text::{fields_of, put_hex, read_hex};
use svsm_types::NoMemory;

/// Whether a line begins a history.
pub fn begins_history(line: &[u8]) -> bool
    ensures { result ≡ begins_history line.now }
{
    line.starts_with(b"history ")
}

// Whether a text is this line and its newline.
fn is_line(line: &[u8], text: &[u8]) -> bool
    ensures { IsTrue result ↔ (line.now ++ 10 ∷ [] ≡ text.now) }
{
    match text {
        [front @ .., last] => *last == b'\n' && front == line,
        [] => false,
    }
}

// The number of a field, in the form in which numbers are printed. `text` is overwritten.
fn printed_number(field: &[u8], text: &mut Vec<u8>) -> Result<Option<u64>, NoMemory>
    ensures { IfOk result (IsPrinted field.now) }
{
    let Some(value) = read_hex(field) else {
        return Ok(None);
    };
    text.clear();
    put_hex(text, value)?;
    if text.as_slice() == field {
        Ok(Some(value))
    } else {
        Ok(None)
    }
}

/// How many entries the first line of a history counts. None where it is no such line. `text` is overwritten.
pub fn read_count(line: &[u8], text: &mut Vec<u8>) -> Result<Option<u64>, NoMemory>
    ensures { IfOk result (λ told. MatchOption told
        ((count : ℕ) → Counts line.now count → ⊥)
        (λ count. Counts line.now count)) }
{
    match line.strip_prefix(b"history ") {
        None => Ok(None),
        Some(field) => printed_number(field, text),
    }
}

/// The entry whose text a line is, where its step is well formed. None where it is that of no such entry. `room` is overwritten.
pub fn read_entry(
    alloc: Global,
    regions: u64,
    line: &[u8],
    room: &mut [u8; 256],
) -> Result<Option<Entry>, NoMemory>
    requires { regions ≤ 512 }
    ensures { IfOk result (λ told. MatchOption told
        ((entry : Entry) → IsEntryLine regions line.now entry → ⊥)
        (λ entry. IsEntryLine regions line.now entry)) }
{
    let fields = fields_of(alloc, line)?;
    let Some(entry) = entry_in(&fields) else {
        return Ok(None);
    };
    if !is_formed(regions, &entry.step) {
        return Ok(None);
    }
    let start = entry_before(room, &entry);
    if is_line(line, &room[start..]) {
        Ok(Some(entry))
    } else {
        Ok(None)
    }
}
