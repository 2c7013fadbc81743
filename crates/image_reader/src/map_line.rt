//! Lines of regions and pages: `large`, `accept` and `fault`.
ghost use Rattle.std.specs.Prelude.{◌≡◌, ◌≤◌, nat_lt, map, IfOk, IsTrue};
ghost use Rattle.svsm_steps.specs.Sound.{is_sound_span};
ghost use Rattle.image_grammar.specs.Forms.{large_line, accept_line, fault_line};

use crate::range_line::is_run;
use crate::told::{holds, number};
use image_grammar::ImageKind;
use svsm_types::{FaultAt, Page, Span};

/// The region of a `large` line.
pub fn large_line(regions: u64, fields: &[&[u8]]) -> Result<u64, ImageKind>
    ensures told { result ≡ large_line regions (map (λ field. field.now) fields.entry.now) }
    ensures within { IfOk result (λ region. IsTrue (nat_lt region regions)) }
{
    match fields {
        [region] => {
            let region = number(region)?;
            holds(ImageKind::Range, region < regions)?;
            Ok(region)
        }
        _ => Err(ImageKind::Line),
    }
}

/// The pages of an `accept` line.
pub fn accept_line(regions: u64, fields: &[&[u8]]) -> Result<Span, ImageKind>
    requires { regions ≤ 512 }
    ensures told { result ≡ accept_line regions (map (λ field. field.now) fields.entry.now) }
    ensures within { IfOk result (λ span. IsTrue (is_sound_span regions span)) }
{
    match fields {
        [first, count] => {
            let first = number(first)?;
            let count = number(count)?;
            holds(ImageKind::Range, is_run(regions, first, count))?;
            Ok(Span {
                first: Page(first),
                count,
            })
        }
        _ => Err(ImageKind::Line),
    }
}

/// The operation of a `fault` line.
pub fn fault_line(regions: u64, fields: &[&[u8]]) -> Result<FaultAt, ImageKind>
    ensures told { result ≡ fault_line regions (map (λ field. field.now) fields.entry.now) }
    ensures within { IfOk result (λ fault. IsTrue (nat_lt fault.region regions)) }
{
    match fields {
        [region, operation] => {
            let region = number(region)?;
            let number = number(operation)?;
            holds(ImageKind::Range, region < regions)?;
            Ok(FaultAt { region, number })
        }
        _ => Err(ImageKind::Line),
    }
}
