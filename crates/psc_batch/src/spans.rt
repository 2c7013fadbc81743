//! The entries of spans.
ghost use Rattle.std.specs.Prelude.{◌≡◌, ◌+◌, ◌-◌, ◌*◌, ◌^◌, ◌<◌, ◌≤◌, ◌++◌, All, OnOk, IfOk, map, length};
ghost use Rattle.svsm_steps.specs.Image.{small_entries, large_entries, entries_between};
ghost use Rattle.psc_batch.specs.Entries.{entry_word, entry_words, batches_of, IsLow};

use std::alloc::Global;
use svsm_types::{NoMemory, Size, Span};

const PRIVATE: u64 = 0x10_0000_0000_0000;

const LARGE: u64 = 0x100_0000_0000_0000;

// The entry that makes a page or region private, as a word.
fn entry_word(page: u64, size: Size) -> u64
    requires { page < 2 ^ 40 }
    ensures { result ≡ entry_word (page, size) }
{
    let size_bit = match size {
        Size::Small => 0,
        Size::Large => LARGE,
    };
    page * 0x1000 + (PRIVATE + size_bit)
}

// Adds one entry in 4K for each page from `first` to `last`, that one left out.
fn push_small(words: &mut Vec<u64>, first: u64, last: u64) -> Result<(), NoMemory>
    requires order { first ≤ last }
    requires low { last ≤ 2 ^ 40 }
    ensures { OnOk result (words.new.items ≡ words.old.items ++ map entry_word (small_entries first (last - first))) }
{
    'pages: for page in first..last {
        words.push(entry_word(page, Size::Small))?;
    }
    Ok(())
}

// Adds one entry in 2M for each region from `from` to `to`, that one left out.
fn push_large(words: &mut Vec<u64>, from: u64, to: u64) -> Result<(), NoMemory>
    requires order { from ≤ to }
    requires low { 512 * to ≤ 2 ^ 40 }
    ensures { OnOk result (words.new.items ≡ words.old.items ++ map entry_word (large_entries from (to - from))) }
{
    'regions: for region in from..to {
        words.push(entry_word(512 * region, Size::Large))?;
    }
    Ok(())
}

// Adds the entries of the pages from `first` to `last`, that one left out: in 2M where a whole region is left.
fn push_between(words: &mut Vec<u64>, first: u64, last: u64) -> Result<(), NoMemory>
    requires order { first ≤ last }
    requires low { last ≤ 2 ^ 40 }
    ensures { OnOk result (words.new.items ≡ words.old.items ++ map entry_word (entries_between first last)) }
{
    let from = (first + 511) / 512;
    let to = last / 512;
    if from < to {
        push_small(words, first, 512 * from)?;
        push_large(words, from, to)?;
        push_small(words, 512 * to, last)?;
    } else {
        push_small(words, first, last)?;
    }
    Ok(())
}

/// The entries of all spans, in order.
pub(crate) fn all_words(alloc: Global, spans: &[Span]) -> Result<Vec<u64>, NoMemory>
    requires { All IsLow spans.now }
    ensures { IfOk result (λ words. words.items ≡ entry_words spans.now) }
{
    let mut words = Vec::new(alloc);
    'spans: for span in spans {
        push_between(&mut words, span.first.0, span.first.0 + span.count)?;
    }
    Ok(words)
}
