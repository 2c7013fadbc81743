//! Lines of cores.
ghost use Rattle.std.specs.Prelude.{◌≡◌, ◌≤◌, ◌^◌, ◌&&◌, nat_lt, map, IfOk, IsTrue};
ghost use Rattle.svsm_steps.specs.Sound.{is_sound_core, is_level};
ghost use Rattle.image_grammar.specs.Told.{told};
ghost use Rattle.image_grammar.specs.Forms.{is_level_form, level_in, level_of, parked_in, is_seat, seated_in, seated_line, core_line};

use crate::told::{holds, number};
use crate::words::is_word;
use image_grammar::ImageKind;
use svsm_types::{CoreLine, Gpa, Image, Vmpl, aligned, in_map, page_of};

const PAGE: u64 = 4096;

const WORD: u64 = 8;

// The form of the fields of a core's VMPL: none where the image has one VMPL, else `vmpl U`.
fn is_level_form(second: Option<Vmpl>, level: &[&[u8]]) -> bool
    ensures { result ≡ is_level_form second (map (λ field. field.now) level.entry.now) }
{
    match (second, level) {
        (None, []) => true,
        (Some(_), [word, _]) => is_word(word, "vmpl"),
        _ => false,
    }
}

// The number of a core's VMPL.
fn level_in(image: &Image, level: &[&[u8]]) -> Result<u64, ImageKind>
    ensures { result ≡ told ImageKind.Number (level_in image.now (map (λ field. field.now) level.entry.now)) }
{
    match level {
        [_, level] => number(level),
        _ => Ok(u64::from(image.vmpl.0)),
    }
}

// The VMPL of the image with this number.
fn level_of(image: &Image, number: u64) -> Option<Vmpl>
    ensures { result ≡ level_of image.now number }
{
    if number == u64::from(image.vmpl.0) {
        return Some(image.vmpl);
    }
    match image.second {
        Some(second) if number == u64::from(second.0) => Some(second),
        _ => None,
    }
}

fn is_apic(apic: u64) -> bool
    ensures { result ≡ nat_lt apic (2 ^ 32) }
{
    apic <= 0xffff_ffff
}

// A VMSA page and a calling area, both in the map.
fn is_seat(regions: u64, vmsa: Gpa, area: Gpa) -> bool
    requires { regions ≤ 512 }
    ensures { result ≡ is_seat regions vmsa.0 area.0 }
{
    let is_page = aligned(vmsa, PAGE) && in_map(regions, page_of(vmsa));
    let is_area = aligned(area, WORD) && in_map(regions, page_of(area));
    is_page && is_area
}

fn parked_in(image: &Image, apic: &[u8], level: &[&[u8]]) -> Result<CoreLine, ImageKind>
    ensures told { result ≡ parked_in image.now apic.now (map (λ field. field.now) level.entry.now) }
    ensures within { IfOk result (λ core. IsTrue (is_sound_core image.now.regions core && is_level image.now core.vmpl)) }
{
    holds(ImageKind::Line, is_level_form(image.second, level))?;
    let apic = number(apic)?;
    let level = level_in(image, level)?;
    holds(ImageKind::Range, is_apic(apic))?;
    let vmpl = level_of(image, level).ok_or(ImageKind::Range)?;
    Ok(CoreLine {
        apic: apic as u32,
        seat: None,
        vmpl,
    })
}

fn seated_in(
    image: &Image,
    apic: &[u8],
    vmsa: &[u8],
    page: &[u8],
    caa: &[u8],
    area: &[u8],
    level: &[&[u8]],
) -> Result<CoreLine, ImageKind>
    requires { image.now.regions ≤ 512 }
    ensures told { result ≡ seated_in image.now apic.now vmsa.now page.now caa.now area.now (map (λ field. field.now) level.entry.now) }
    ensures within { IfOk result (λ core. IsTrue (is_sound_core image.now.regions core && is_level image.now core.vmpl)) }
{
    holds(
        ImageKind::Line,
        is_word(vmsa, "vmsa") && is_word(caa, "caa") && is_level_form(image.second, level),
    )?;
    let apic = number(apic)?;
    let page = Gpa(number(page)?);
    let area = Gpa(number(area)?);
    let level = level_in(image, level)?;
    holds(
        ImageKind::Range,
        is_apic(apic) && is_seat(image.regions, page, area),
    )?;
    let vmpl = level_of(image, level).ok_or(ImageKind::Range)?;
    Ok(CoreLine {
        apic: apic as u32,
        seat: Some((page_of(page), area)),
        vmpl,
    })
}

fn seated_line(
    image: &Image,
    apic: &[u8],
    vmsa: &[u8],
    fields: &[&[u8]],
) -> Result<CoreLine, ImageKind>
    requires { image.now.regions ≤ 512 }
    ensures told { result ≡ seated_line image.now apic.now vmsa.now (map (λ field. field.now) fields.entry.now) }
    ensures within { IfOk result (λ core. IsTrue (is_sound_core image.now.regions core && is_level image.now core.vmpl)) }
{
    match fields {
        [page, caa, area, level @ ..] => seated_in(image, apic, vmsa, page, caa, area, level),
        _ => Err(ImageKind::Line),
    }
}

/// The core of a `core` line, by the fields behind the word.
pub fn core_line(image: &Image, fields: &[&[u8]]) -> Result<CoreLine, ImageKind>
    requires { image.now.regions ≤ 512 }
    ensures told { result ≡ core_line image.now (map (λ field. field.now) fields.entry.now) }
    ensures within { IfOk result (λ core. IsTrue (is_sound_core image.now.regions core && is_level image.now core.vmpl)) }
{
    match fields {
        [apic, word, rest @ ..] => {
            if is_word(word, "parked") {
                parked_in(image, apic, rest)
            } else {
                seated_line(image, apic, word, rest)
            }
        }
        _ => Err(ImageKind::Line),
    }
}
