//! The words that are not 0.
ghost use Rattle.std.specs.Prelude.{◌≡◌, ◌*◌, ◌≤◌, ◌<◌, ◌^◌, IfOk, OnOk};
ghost use Rattle.svsm_types.specs.Pages.{region_of};
ghost use Rattle.rmp_table.specs.PackedKnown.{packed_known};
ghost use Rattle.image_text.specs.Saved.{saved_fills};
ghost use Rattle.image_text.specs.Collected.{words_put, EndBy};
ghost use Rattle.image_save.specs.Standing.{standing, AreStanding};
ghost use Rattle.image_text.specs.Fits.{FitBeforePage};
ghost use Rattle.image_save.specs.Gathered.{page_words, PageFits};

use crate::places::region_at;
use image_text::put_filled;
use place_core::Place;
use region_core::Region;
use rmp_table::PackedRmp;
use std::alloc::Global;
use svsm_types::{Fill, Gpa, Image, NoMemory, Page};

fn put_page_words(
    fills: &mut Vec<Fill>,
    alloc: Global,
    region: &Region<PackedRmp>,
    page: Page,
) -> Result<(), NoMemory>
    requires here { region_of page.0 ≡ (packed_known region.now.scene).region }
    requires few { page.0 < 2 ^ 18 }
    requires ends { EndBy (512 * page.0) fills.old.items }
    ensures put { OnOk result (fills.new.items ≡ words_put fills.old.items (512 * page.0)
        (page_words page.0 (packed_known region.now.scene).hw.words)) }
    ensures fit { OnOk result (PageFits page.0 (packed_known region.now.scene).hw.words) }
{
    if !region.touched(page) {
        return Ok(());
    }
    'words: for column in 0..512 {
        let at = 512 * page.0 + column;
        let word = region.word(Gpa(8 * at));
        if word != 0 {
            put_filled(fills, alloc, at, word)?;
        }
    }
    Ok(())
}

/// The runs of words that are not 0.
pub(crate) fn page_fills(
    alloc: Global,
    image: &Image,
    places: &[Place],
) -> Result<Vec<Fill>, NoMemory>
    requires { AreStanding image.now.regions places.now }
    ensures fills { IfOk result (λ fills. fills.items ≡ saved_fills image.now (standing image.now.regions places.now)) }
    ensures fit { OnOk result (FitBeforePage (512 * image.now.regions) (standing image.now.regions places.now)) }
{
    let mut fills = Vec::new(alloc);
    'pages: for page in 0..512 * image.regions {
        let region = region_at(places, (page / 512) as usize);
        put_page_words(&mut fills, alloc, region, Page(page))?;
    }
    Ok(fills)
}
