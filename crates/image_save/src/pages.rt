//! What is said of the pages.
ghost use Rattle.std.specs.Prelude.{◌≡◌, ◌*◌, ◌≤◌, IfOk, ◌&&◌, ◌||◌, ◌==◌, not, find};
ghost use Rattle.std.specs.List.{range_with_len};
ghost use Rattle.svsm_types.specs.Hardware.{same_truth};
ghost use Rattle.svsm_steps.specs.State.{rmp_rows};
ghost use Rattle.image_text.specs.Saved.{saved_large};
ghost use Rattle.image_save.specs.Standing.{standing, AreStanding};
ghost use Rattle.image_save.specs.Gathered.{is_unsaid, first_unsaid};

use crate::places::region_at;
use place_core::Place;
use std::alloc::Global;
use svsm_types::{Image, NoMemory, Page, RmpRow};

/// All that stands of each page, in the order of the pages.
pub(crate) fn page_rows(
    alloc: Global,
    image: &Image,
    places: &[Place],
) -> Result<Vec<RmpRow>, NoMemory>
    requires { AreStanding image.now.regions places.now }
    ensures { IfOk result (λ rows. rows.items ≡ rmp_rows image.now.regions (standing image.now.regions places.now)) }
{
    let mut rows = Vec::new(alloc);
    'pages: for page in 0..512 * image.regions {
        let region = region_at(places, (page / 512) as usize);
        rows.push(region.row(Page(page)))?;
    }
    Ok(rows)
}

/// The regions that are held as 2M.
pub(crate) fn large_regions(
    alloc: Global,
    image: &Image,
    places: &[Place],
) -> Result<Vec<u64>, NoMemory>
    requires { AreStanding image.now.regions places.now }
    ensures { IfOk result (λ large. large.items ≡ saved_large image.now (standing image.now.regions places.now)) }
{
    let mut large = Vec::new(alloc);
    'regions: for number in 0..image.regions {
        let region = region_at(places, number as usize);
        if region.row(Page(512 * number)).large {
            large.push(number)?;
        }
    }
    Ok(large)
}

fn is_unsaid(ghcb: Page, page: Page, row: &RmpRow) -> bool
    ensures { result ≡ is_unsaid ghcb.0 page.0 row.now }
{
    row.recorded != row.state.validated || (page.0 == ghcb.0 && row.state.assigned)
}

/// The first page that no image can say.
pub(crate) fn first_unsaid(ghcb: Page, rows: &[RmpRow]) -> Option<Page>
    ensures { result ≡ first_unsaid ghcb.0 0 rows.now }
{
    for (number, row) in rows.iter().enumerate() {
        let page = Page(number as u64);
        if is_unsaid(ghcb, page, row) {
            return Some(page);
        }
    }
    None
}
