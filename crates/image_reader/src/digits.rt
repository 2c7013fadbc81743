//! Hex digits, 16 for a word of memory.
ghost use Rattle.std.specs.Prelude.{◌≡◌, ◌/◌, ◌%◌, List, ℕ, Err, length, option_map, IfOk, IfErr};
ghost use Rattle.hex.specs.Hex.{decode_of};
ghost use Rattle.image_grammar.specs.Told.{told, Tells};
ghost use Rattle.image_grammar.specs.Forms.{whole_words};
ghost use Rattle.image_reader.specs.Digits.{words_told, AreWords};

use crate::lanes::word_of;
use image_grammar::{ImageKind, LineError};
use std::alloc::Global;
use svsm_types::NoMemory;

// How many digits a word has.
const DIGITS: usize = 16;

// The words of the digits, where each byte is a digit.
fn words_read(alloc: Global, digits: &[u8]) -> Result<Option<Vec<u64>>, NoMemory>
    requires { length digits.now % 16 ≡ 0 }
    ensures { IfOk result (λ words. option_map (λ found. found.items) words ≡ words_told (length digits.now / 16) digits.now) }
{
    let mut words = Vec::with_capacity(alloc, digits.len() / DIGITS)?;
    let mut rest = digits;
    'words: while rest.len() >= DIGITS {
        let (first, after) = rest.split_at(DIGITS);
        let Some(word) = word_of(first) else {
            return Ok(None);
        };
        words.push_reserved(word);
        rest = after;
    }
    Ok(Some(words))
}

/// The words of the digits: one word or more, and no digit besides.
pub fn words_of(alloc: Global, digits: &[u8]) -> Result<Vec<u64>, LineError>
    ensures words { IfOk result (λ words. AreWords digits.now words.items) }
    ensures failed { IfErr result (λ error. Tells (λ (bytes : List ℕ). bytes) (told ImageKind.Number (whole_words (decode_of digits.now))) (Err error)) }
{
    if digits.is_empty() || digits.len() % DIGITS != 0 {
        return Err(LineError::Bad(ImageKind::Number));
    }
    match words_read(alloc, digits)? {
        Some(words) => Ok(words),
        None => Err(LineError::Bad(ImageKind::Number)),
    }
}
