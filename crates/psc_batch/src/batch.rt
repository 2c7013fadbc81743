//! Batches.
ghost use Rattle.std.specs.Prelude.{◌≡◌, ◌+◌, ◌*◌, ◌^◌, ◌<◌, ◌≤◌, All, IfOk, take, drop, min, length};
ghost use Rattle.psc_batch.specs.Entries.{entry_words, batch_at, batches_of, IsLow};

use crate::spans::all_words;
use std::alloc::Global;
use std::marker::Model;
use svsm_types::{NoMemory, Span};

// So many entries have room in the shared buffer.
const ROOM: usize = 253;

/// One to 253 page-state entries. A contract sees their words.
#[derive(Drop)]
pub struct Batch {
    entries: Vec<u64>,
}

impl Model for Batch {
    ghost use Rattle.std.specs.Prelude.{List, ℕ, ◌≤◌, length};

    ghost Value = { List ℕ };

    ghost view = { λ b. b.entries.items };

    ghost invariant = { λ b. (1 ≤ length b.entries.items) × (length b.entries.items ≤ 253) };
}

impl Batch {
    /// Its entries, as words.
    pub fn entries(&self) -> &[u64]
        ensures value { result.now ≡ self.now }
        ensures some { 1 ≤ length self.now }
        ensures most { length self.now ≤ 253 }
    {
        &self.entries
    }

    /// The entries that make the pages of all spans private, in order, in batches of 253: one in 2M for each whole region of a span, and
    /// one in 4K for each other page.
    pub fn of_spans(alloc: Global, spans: &[Span]) -> Result<Vec<Batch>, NoMemory>
        requires { All IsLow spans.now }
        ensures { IfOk result (λ batches. batches.items ≡ batches_of (entry_words spans.now)) }
    {
        let words = all_words(alloc, spans)?;
        cut(alloc, &words)
    }
}

fn of_entries(alloc: Global, entries: &[u64]) -> Result<Batch, NoMemory>
    requires some { 0 < length entries.now }
    requires most { length entries.now ≤ 253 }
    ensures { IfOk result (λ batch. batch ≡ entries.now) }
{
    Ok(Batch {
        entries: Vec::from_slice(alloc, entries)?,
    })
}

// The batch that begins with the word at an index.
fn batch_from(alloc: Global, words: &[u64], from: usize) -> Result<Batch, NoMemory>
    requires { from < length words.now }
    ensures { IfOk result (λ batch. batch ≡ take 253 (drop from words.now)) }
{
    let rest = &words[from..];
    if rest.len() < ROOM {
        of_entries(alloc, rest)
    } else {
        of_entries(alloc, &rest[..ROOM])
    }
}

// Words in batches.
fn cut(alloc: Global, words: &[u64]) -> Result<Vec<Batch>, NoMemory>
    ensures { IfOk result (λ batches. batches.items ≡ batches_of words.now) }
{
    let mut batches = Vec::new(alloc);
    'batches: for number in 0..(words.len() + 252) / 253 {
        batches.push(batch_from(alloc, words, 253 * number)?)?;
    }
    Ok(batches)
}
