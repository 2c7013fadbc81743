//! The entries of one core, and of one place.
ghost use Rattle.std.specs.Prelude.{◌≡◌, IfOk};
ghost use Rattle.svsm_steps.specs.Partition.{of_core};
ghost use Rattle.svsm_steps.specs.Places.{of_place};

use std::alloc::Global;
use svsm_steps::Entry;
use svsm_types::NoMemory;

/// The entries of a core, in their order.
pub fn of_core(alloc: Global, run: &[Entry], core: u32) -> Result<Vec<Entry>, NoMemory>
    ensures { IfOk result (λ entries. entries.items ≡ of_core core run.now) }
{
    Ok(
        run.iter()
            .filter(|entry| entry.core == core)
            .copied()
            .collect(alloc)?,
    )
}

/// The entries of a place, in their order.
pub fn of_place(alloc: Global, run: &[Entry], place: u64) -> Result<Vec<Entry>, NoMemory>
    ensures { IfOk result (λ entries. entries.items ≡ of_place place run.now) }
{
    Ok(
        run.iter()
            .filter(|entry| entry.place == place)
            .copied()
            .collect(alloc)?,
    )
}
