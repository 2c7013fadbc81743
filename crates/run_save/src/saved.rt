//! The text of a run's last state, or why none is saved.
ghost use Rattle.std.specs.Prelude.{◌≡◌, ◌⊎◌, ◌≤◌, Ok, Err, MatchResult, OnOk};
ghost use Rattle.svsm_laws.specs.Consistent.{IsConsistent};
ghost use Rattle.svsm_waves.specs.InTurn.{AreBegun, StandFor};
ghost use Rattle.image_text.specs.Fits.{FitsIn64Bits};
ghost use Rattle.image_text.specs.Refused.{save_told};
ghost use Rattle.save_laws.specs.Saved.{last_state};

use image_save::save;
use image_text::SaveError;
use std::alloc::Global;
use svsm_types::Image;
use svsm_waves::ImageRun;

/// The text that is saved of the last state of a run, or why none is: the first core that ended early, the exit that the host refused,
/// the first page that no image can say, or a text that is too long.
pub fn save_run(alloc: Global, image: &Image, run: &ImageRun) -> Result<Vec<u8>, SaveError>
    requires most { image.now.regions ≤ 512 }
    requires begun { AreBegun image.now run.now.places.items }
    requires stand { StandFor image.now run.now.trace run.now.places.items }
    requires consistent { IsConsistent image.now.regions (last_state image.now run.now.trace) }
    ensures told { MatchResult result
        (λ text. save_told image.now run.now.cores run.now.refused (last_state image.now run.now.trace) ≡ Ok text.items)
        (λ error. (error ≡ SaveError.NoMemory)
        ⊎ (save_told image.now run.now.cores run.now.refused (last_state image.now run.now.trace) ≡ Err error)) }
    ensures fits { OnOk result (FitsIn64Bits image.now (last_state image.now run.now.trace)) }
{
    save(alloc, image, run.cores.as_slice(), &run.places, run.refused)
}
