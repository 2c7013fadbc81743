//! The regions and the registry, by their places.
ghost use Rattle.std.specs.Prelude.{◌≡◌, IfOk, map};
ghost use Rattle.image_text.specs.Saved.{saved_block};
ghost use Rattle.rmp_table.specs.PackedKnown.{packed_known};
ghost use Rattle.region_core.specs.Whole.{whole};
ghost use Rattle.image_save.specs.Standing.{opened_at, region_held, rows_held, pool_held, IsPoolAt, IsRegionAt, IsRegistryAt};

use place_core::Place;
use region_core::Region;
use rmp_table::PackedRmp;
use std::alloc::Global;
use svsm_types::{NoMemory, Page, Row, Size};

/// The region with this number.
pub(crate) fn region_at(places: &[Place], number: usize) -> &Region<PackedRmp>
    requires { IsRegionAt places.now number }
    ensures here { (packed_known result.now.scene).region ≡ number }
    ensures stands { whole (packed_known result.now.scene) result.now.owners ≡ region_held (opened_at places.now number) }
{
    let place = &places[number];
    let _ = place.rested();
    let Some(region) = place.region() else {
        unreachable!()
    };
    region
}

/// The rows of the registry, which stands at this number.
pub(crate) fn rows_at(places: &[Place], number: usize) -> &[Row]
    requires { IsRegistryAt places.now number }
    ensures { result.now ≡ rows_held (opened_at places.now number) }
{
    let place = &places[number];
    let _ = place.rested();
    let Some(registry) = place.registry() else {
        unreachable!()
    };
    registry.rows()
}

/// The blocks of the pool, which stands at this number, in its order.
pub(crate) fn blocks_at(
    alloc: Global,
    places: &[Place],
    number: usize,
) -> Result<Vec<(Page, Size)>, NoMemory>
    requires { IsPoolAt places.now number }
    ensures { IfOk result (λ blocks. blocks.items ≡ map saved_block (pool_held (opened_at places.now number))) }
{
    let place = &places[number];
    let _ = place.rested();
    place.blocks(alloc)
}
