//! The table itself.
ghost use Rattle.std.specs.Prelude.{length, IfOk};

use std::alloc::Global;
use std::marker::Model;
use svsm_types::{NoMemory, Owner};

/// The owners of a region's 512 pages, and which of them are recorded as validated, by a page's index in the region.
#[derive(Drop)]
pub struct OwnerMap {
    pub(crate) owners: Vec<Owner>,
    pub(crate) recorded: Vec<bool>,
}

impl Model for OwnerMap {
    ghost use Rattle.std.specs.Prelude.{◌≡◌, length};
    ghost use Rattle.owner_map.specs.Owners.{Owners};

    ghost Value = { Owners };

    ghost view = { λ map. record { owner = map.owners.items; recorded = map.recorded.items } };

    ghost invariant = { λ map. (length map.owners.items ≡ 512) × (length map.recorded.items ≡ 512) };
}

impl OwnerMap {
    ghost use Rattle.std.specs.Prelude.{◌≡◌};

    /// A table of these owners and marks, one of each for each of the 512 pages.
    pub fn new(alloc: Global, owners: &[Owner], recorded: &[bool]) -> Result<OwnerMap, NoMemory>
        requires owners { length owners.now ≡ 512 }
        requires recorded { length recorded.now ≡ 512 }
        ensures { IfOk result (λ map. map ≡ record { owner = owners.now; recorded = recorded.now }) }
    {
        Ok(OwnerMap {
            owners: Vec::from_slice(alloc, owners)?,
            recorded: Vec::from_slice(alloc, recorded)?,
        })
    }
}
