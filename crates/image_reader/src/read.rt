//! Reading a whole text.
ghost use Rattle.std.specs.Prelude.{◌≡◌, IfOk};
ghost use Rattle.svsm_steps.specs.Sound.{IsSound};
ghost use Rattle.image_grammar.specs.Told.{Answers};
ghost use Rattle.image_grammar.specs.Image.{image_of};

use crate::draft::Draft;
use crate::head::read_head;
use crate::lines::{failing, read_lines};
use image_grammar::ImageError;
use std::alloc::Global;
use svsm_types::Image;

/// The image of a text. In an error, the first line that fails is told by its number, from 1, with the first kind that it
/// fails by, and line 0 stands for the whole text, which is tried last.
pub fn read_image(alloc: Global, bytes: &[u8]) -> Result<Image, ImageError>
    ensures told { Answers (λ image. image) (image_of bytes.now) result }
    ensures sound { IfOk result IsSound }
{
    let head = read_head(alloc, bytes)?;
    let empty = Draft::new(alloc, head.regions, head.levels, head.features, head.ghcb)?;
    let draft = read_lines(alloc, bytes, head.next, empty)?;
    match draft.try_end(alloc) {
        Ok(()) => Ok(draft.image),
        Err(error) => Err(failing(0, error)),
    }
}
