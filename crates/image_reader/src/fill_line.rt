//! Lines that name the contents of memory.
ghost use Rattle.std.specs.Prelude.{◌≡◌, ◌≤◌, ◌+◌, ◌*◌, ◌&&◌, nat_le, map, IfOk, IsTrue};
ghost use Rattle.svsm_types.specs.Pages.{is_multiple};
ghost use Rattle.svsm_steps.specs.Sound.{is_sound_fill};
ghost use Rattle.image_grammar.specs.Told.{Tells};
ghost use Rattle.image_grammar.specs.Forms.{fill_in, fill_line};

use crate::digits::words_of;
use crate::told::{holds, number};
use image_grammar::{ImageKind, LineError};
use std::alloc::Global;
use svsm_types::{Fill, Gpa, Sequence};

// So many words of the map, from their place on.
fn is_within(regions: u64, gpa: u64, words: usize) -> bool
    requires { regions ≤ 512 }
    ensures { result ≡ is_multiple 8 gpa && nat_le (gpa + 8 * words) (4096 * (512 * regions)) }
{
    let end = 4096 * (512 * regions);
    let words = words as u64;
    gpa.is_multiple_of(8) && words <= end / 8 && gpa <= end - 8 * words
}

fn fill_in(alloc: Global, regions: u64, gpa: &[u8], digits: &[u8]) -> Result<Fill, LineError>
    requires { regions ≤ 512 }
    ensures told { Tells (λ fill. fill) (fill_in regions gpa.now digits.now) result }
    ensures within { IfOk result (λ fill. IsTrue (is_sound_fill regions fill)) }
{
    let gpa = number(gpa)?;
    let words = words_of(alloc, digits)?;
    holds(ImageKind::Range, is_within(regions, gpa, words.len()))?;
    Ok(Fill {
        gpa: Gpa(gpa),
        words: Sequence::from_vec(words),
    })
}

/// The contents of a `bytes` line, by the fields behind the word.
pub fn fill_line(alloc: Global, regions: u64, fields: &[&[u8]]) -> Result<Fill, LineError>
    requires { regions ≤ 512 }
    ensures told { Tells (λ fill. fill) (fill_line regions (map (λ field. field.now) fields.now)) result }
    ensures within { IfOk result (λ fill. IsTrue (is_sound_fill regions fill)) }
{
    match fields {
        [gpa, digits] => fill_in(alloc, regions, gpa, digits),
        _ => Err(LineError::Bad(ImageKind::Line)),
    }
}
