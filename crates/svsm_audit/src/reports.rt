//! The audit.
ghost use Rattle.std.specs.Prelude.{◌≡◌, ◌⊎◌, Ok, Err, Result};
ghost use Rattle.svsm_steps.specs.Sound.{IsSound};
ghost use Rattle.svsm_steps.specs.Requests.{AreScripts};
ghost use Rattle.svsm_audit.specs.declared.error.AuditError.{AuditError};
ghost use Rattle.svsm_audit.specs.declared.error.AuditError.TheVariants as errors;
ghost use Rattle.svsm_audit.specs.Audit.{Audits, audit_error};

use crate::boots::try_boot;
use crate::error::AuditError;
use report_check::{CheckError, check_report};
use std::alloc::Global;
use svsm_types::{Image, Request, Sequence};

fn audit_error(error: CheckError) -> AuditError
    ensures { result ≡ audit_error error }
{
    match error {
        CheckError::Report { line } => AuditError::Report { line },
        CheckError::Play { ticket } => AuditError::Play { ticket },
        CheckError::Due { ticket } => AuditError::Due { ticket },
        CheckError::Order { ticket } => AuditError::Order { ticket },
        CheckError::Text { at } => AuditError::Text { at },
        CheckError::NoMemory => AuditError::NoMemory,
    }
}

// Boots the image, and then checks the report.
fn try_audit(
    alloc: Global,
    image: &Image,
    scripts: &[Sequence<Request>],
    report: &[u8],
) -> Result<(), AuditError>
    requires image { IsSound image.now }
    requires scripts { AreScripts scripts.now }
    ensures { Audits image.now scripts.now report.now result }
{
    try_boot(alloc, image)?;
    match check_report(alloc, image, scripts, report) {
        Ok(()) => Ok(()),
        Err(error) => Err(audit_error(error)),
    }
}

/// Audits a report without trust in it: the image has to boot, and the report has to be the text of a run of it with these scripts, as
/// the plain machine, the scripts and the waves have it. An error is the first reason why it is not. On `Ok` the run is safe.
pub fn audit(
    alloc: Global,
    image: &Image,
    scripts: &[Sequence<Request>],
    report: &[u8],
) -> Result<(), AuditError>
    requires image { IsSound image.now }
    requires scripts { AreScripts scripts.now }
    ensures audits { Audits image.now scripts.now report.now result }

    // No other answer has its cause, so each comes exactly where it has it; want of memory aside.
    ensures only { (other : Result (Unit {0}) AuditError) → Audits image.now scripts.now report.now other
        → (result ≡ other) ⊎ ((result ≡ Err errors.NoMemory) ⊎ (other ≡ Err errors.NoMemory)) }
{
    try_audit(alloc, image, scripts, report)
}
