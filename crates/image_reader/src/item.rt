//! What one line tells by itself.
ghost use Rattle.std.specs.Prelude.{◌≡◌, ◌≤◌, Some, map, IfOk, IsTrue};
ghost use Rattle.image_grammar.specs.Told.{Tells};
ghost use Rattle.image_grammar.specs.Forms.{form_of, item_line};
ghost use Rattle.image_reader.specs.SoFar.{is_in_place};

use crate::core_line::core_line;
use crate::fill_line::fill_line;
use crate::host_line::host_line;
use crate::map_line::{accept_line, fault_line, large_line};
use crate::pool_line::{announce_line, block_line, pool_line};
use crate::range_line::range_line;
use crate::words::line_word;
use image_grammar::{ImageKind, Item, LineError, LineWord};
use std::alloc::Global;
use svsm_types::Image;

fn form_of(
    alloc: Global,
    image: &Image,
    word: LineWord,
    fields: &[&[u8]],
) -> Result<Item, LineError>
    requires { image.now.regions ≤ 512 }
    ensures told { Tells (λ item. item) (form_of image.now (Some word) (map (λ field. field.now) fields.entry.now)) result }
    ensures within { IfOk result (λ item. IsTrue (is_in_place image.now item)) }
{
    let regions = image.regions;
    Ok(match word {
        LineWord::Range => Item::Range(range_line(regions, fields)?),
        LineWord::Large => Item::Large(large_line(regions, fields)?),
        LineWord::Accept => Item::Accept(accept_line(regions, fields)?),
        LineWord::Core => Item::Core(core_line(image, fields)?),
        LineWord::Bytes => Item::Bytes(fill_line(alloc, regions, fields)?),
        LineWord::Fault => Item::Fault(fault_line(regions, fields)?),
        LineWord::Host => Item::Host(host_line(fields)?),
        LineWord::Pool => {
            pool_line(fields)?;
            Item::Split
        }
        LineWord::Block => Item::Block(block_line(regions, fields)?),
        LineWord::Announce => {
            announce_line(fields)?;
            Item::Announce
        }
    })
}

/// What a line tells, by its fields.
pub fn item_line(alloc: Global, image: &Image, fields: &[&[u8]]) -> Result<Item, LineError>
    requires { image.now.regions ≤ 512 }
    ensures told { Tells (λ item. item) (item_line image.now (map (λ field. field.now) fields.entry.now)) result }
    ensures within { IfOk result (λ item. IsTrue (is_in_place image.now item)) }
{
    match fields {
        [word, rest @ ..] => match line_word(word) {
            Some(word) => form_of(alloc, image, word, rest),
            None => Err(LineError::Bad(ImageKind::Line)),
        },
        [] => Err(LineError::Bad(ImageKind::Line)),
    }
}
