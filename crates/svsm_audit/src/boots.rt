//! Whether an image boots.
ghost use Rattle.std.specs.Prelude.{◌≡◌, ◌⊎◌, Err, OnOk, IfErr};
ghost use Rattle.svsm_steps.specs.Sound.{IsSound};
ghost use Rattle.boot_core.specs.declared.error.BootError.{BootError};
ghost use Rattle.boot_core.specs.Boots.{BootEnds, Boots};
ghost use Rattle.svsm_audit.specs.declared.error.AuditError.TheVariants as errors;
ghost use Rattle.svsm_audit.specs.Audit.{boot_error};

use crate::error::AuditError;
use boot_core::{BootError, boot_image};
use place_core::open_regions;
use std::alloc::Global;
use svsm_types::Image;

fn boot(alloc: Global, image: &Image) -> Result<(), BootError>
    requires { IsSound image.now }
    ensures boots { OnOk result (Boots image.now) }
    ensures refused { IfErr result (λ error. (error ≡ BootError.NoMemory) ⊎ BootEnds image.now (Err error)) }
{
    let mut regions = open_regions(alloc, image)?;
    boot_image(alloc, &mut regions, image)
}

fn boot_error(error: BootError) -> AuditError
    ensures { result ≡ boot_error error }
{
    match error {
        BootError::NoMemory => AuditError::NoMemory,
        _ => AuditError::Boot,
    }
}

/// Boots the image against the host of its lines.
pub fn try_boot(alloc: Global, image: &Image) -> Result<(), AuditError>
    requires { IsSound image.now }
    ensures boots { OnOk result (Boots image.now) }
    ensures refused { IfErr result (λ error. (error ≡ errors.NoMemory) ⊎ ((error ≡ errors.Boot) × (Boots image.now → ⊥))) }
{
    match boot(alloc, image) {
        Ok(()) => Ok(()),
        Err(error) => Err(boot_error(error)),
    }
}
