//! The text that is saved, or why none is.
ghost use Rattle.std.specs.Prelude.{◌≡◌, ◌⊎◌, ◌*◌, ◌^◌, ◌<◌, IsTrue, IfOk, OnOk, Ok, Err, MatchResult};
ghost use Rattle.std.specs.List.{list_all};
ghost use Rattle.svsm_steps.specs.Mapped.{AreRows};
ghost use Rattle.svsm_steps.specs.State.{rmp_rows};
ghost use Rattle.image_text.specs.Collected.{has_four_bits};
ghost use Rattle.image_text.specs.Fits.{FitsIn64Bits};
ghost use Rattle.image_text.specs.Refused.{save_told};
ghost use Rattle.image_text.specs.Saved.{saved};
ghost use Rattle.image_save.specs.Standing.{standing, AreStanding};

use crate::cores::{first_core, seated_cores};
use crate::pages::{first_unsaid, large_regions, page_rows};
use crate::places::{blocks_at, rows_at};
use crate::words::page_fills;
use image_text::{SaveError, put_image, ranges_of};
use place_core::Place;
use std::alloc::Global;
use svsm_steps::CoreRun;
use svsm_types::{Image, NoMemory, RmpRow, Sequence};

const LONGEST: usize = 16_777_216;

// What the contracts of its caller do not know of a number of the code.
fn has_64_bits(_value: u64)
    ensures { _value < 2 ^ 64 }
{}

// The image of the state.
fn saved_image(
    alloc: Global,
    image: &Image,
    rows: &[RmpRow],
    places: &[Place],
) -> Result<Image, NoMemory>
    requires stand { AreStanding image.now.regions places.now }
    requires bits { IsTrue (list_all has_four_bits rows.now) }
    requires rows { rows.now ≡ rmp_rows image.now.regions (standing image.now.regions places.now) }
    ensures saved { IfOk result (λ now. now ≡ saved image.now (standing image.now.regions places.now)) }
    ensures fits { OnOk result (FitsIn64Bits image.now (standing image.now.regions places.now)) }
{
    has_64_bits(image.features);
    let vcpus = rows_at(places, image.regions as usize + 1);
    let ranges = ranges_of(alloc, image.ghcb, rows)?;
    let large = large_regions(alloc, image, places)?;
    let cores = seated_cores(alloc, vcpus, image.cores.as_slice())?;
    let fills = page_fills(alloc, image, places)?;
    let blocks = blocks_at(alloc, places, image.regions as usize)?;
    Ok(Image {
        regions: image.regions,
        vmpl: image.vmpl,
        second: image.second,
        features: image.features,
        ghcb: image.ghcb,
        ranges: Sequence::from_vec(ranges),
        large: Sequence::from_vec(large),
        accepts: Sequence::new(alloc),
        cores: Sequence::from_vec(cores),
        fills: Sequence::from_vec(fills),
        faults: Sequence::new(alloc),
        host: Sequence::new(alloc),
        split: image.split,
        blocks: Sequence::from_vec(blocks),
        announce: image.announce,
    })
}

/// The text of the state in which the places of a run stand, or why it is not saved. The causes are tried in this order: a core that
/// ended by a fault or a wrong answer of the host, an exit that the host refused, a page that no image can say, a text that is too long.
pub fn save(
    alloc: Global,
    image: &Image,
    cores: &[CoreRun],
    places: &[Place],
    refused: Option<(u64, u64)>,
) -> Result<Vec<u8>, SaveError>
    requires stand { AreStanding image.now.regions places.now }
    requires bits { IsTrue (list_all has_four_bits (rmp_rows image.now.regions (standing image.now.regions places.now))) }
    requires rows { AreRows image.now.regions (standing image.now.regions places.now).rows }
    ensures told { MatchResult result
        (λ text. save_told image.now cores.now refused (standing image.now.regions places.now) ≡ Ok text.items)
        (λ error. (error ≡ SaveError.NoMemory)
        ⊎ (save_told image.now cores.now refused (standing image.now.regions places.now) ≡ Err error)) }
    ensures fits { OnOk result (FitsIn64Bits image.now (standing image.now.regions places.now)) }
{
    if let Some(core) = first_core(cores) {
        return Err(SaveError::Core { core });
    }
    if let Some((info1, info2)) = refused {
        return Err(SaveError::Host { info1, info2 });
    }
    let rows = page_rows(alloc, image, places)?;
    if let Some(page) = first_unsaid(image.ghcb, &rows) {
        return Err(SaveError::Page { page });
    }
    let now = saved_image(alloc, image, &rows, places)?;
    let mut text = Vec::new(alloc);
    put_image(&mut text, &now)?;
    if text.len() > LONGEST {
        return Err(SaveError::Long);
    }
    Ok(text)
}
