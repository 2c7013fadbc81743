//! Lines of the pool, and the line that has the host told of vCPUs.
ghost use Rattle.std.specs.Prelude.{◌≡◌, ◌≤◌, map};
ghost use Rattle.image_grammar.specs.Forms.{pool_line, size_of, block_line, announce_line};

use crate::told::{holds, number};
use crate::words::is_word;
use image_grammar::ImageKind;
use svsm_types::{Page, Size, in_map};

/// The line `pool split`, by the fields behind the first word.
pub fn pool_line(fields: &[&[u8]]) -> Result<(), ImageKind>
    ensures { result ≡ pool_line (map (λ field. field.now) fields.entry.now) }
{
    match fields {
        [split] => holds(ImageKind::Line, is_word(split, "split")),
        _ => Err(ImageKind::Line),
    }
}

fn size_of(number: u64) -> Option<Size>
    ensures { result ≡ size_of number }
{
    match number {
        0 => Some(Size::Small),
        1 => Some(Size::Large),
        _ => None,
    }
}

/// The block of a `block` line, by the fields behind the word.
pub fn block_line(regions: u64, fields: &[&[u8]]) -> Result<(Page, Size), ImageKind>
    requires { regions ≤ 512 }
    ensures { result ≡ block_line regions (map (λ field. field.now) fields.entry.now) }
{
    match fields {
        [page, size] => {
            let page = Page(number(page)?);
            let size = number(size)?;
            holds(ImageKind::Range, in_map(regions, page))?;
            let size = size_of(size).ok_or(ImageKind::Range)?;
            Ok((page, size))
        }
        _ => Err(ImageKind::Line),
    }
}

/// The line `announce`, by the fields behind the word: there are none.
pub fn announce_line(fields: &[&[u8]]) -> Result<(), ImageKind>
    ensures { result ≡ announce_line (map (λ field. field.now) fields.entry.now) }
{
    holds(ImageKind::Line, fields.is_empty())
}
