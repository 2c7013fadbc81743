//! The first five lines.
ghost use Rattle.std.specs.Prelude.{◌≡◌, ◌≤◌, ◌<◌, ◌*◌, ◌∷◌, [], Ok, Err, map, IfOk, MatchResult};
ghost use Rattle.svsm_text.specs.Lines.{fields};
ghost use Rattle.image_grammar.specs.Told.{Tells, Answers};
ghost use Rattle.image_grammar.specs.Image.{title, number_line, behind, head_line, is_vmpl, levels_in, levels_line, first_told, image_with, head_told};
ghost use Rattle.image_reader.specs.SoFar.{AreLevels};
ghost use Rattle.image_grammar.specs.Kept.{kept_lines};
ghost use Rattle.image_reader.specs.Draft.{rest_of, IsPlace};

use crate::lines::failing;
use crate::place::{Place, next_kept};
use crate::told::{holds, number};
use crate::words::{format_word, is_word};
use image_grammar::{Format, ImageError, ImageKind, Levels, LineError};
use std::alloc::Global;
use svsm_text::fields_of;
use svsm_types::{Page, Vmpl};

/// What the first five lines tell, and where the lines behind them begin.
#[derive(Clone, Copy)]
pub struct Head {
    pub regions: u64,
    pub levels: Levels,
    pub features: u64,
    pub ghcb: Page,
    pub next: Place,
}

// What a line tells, and where the next line begins.
#[derive(Clone, Copy)]
struct HeadFormat {
    format: Format,
    next: Place,
}

#[derive(Clone, Copy)]
struct HeadNumber {
    value: u64,
    next: Place,
}

#[derive(Clone, Copy)]
struct HeadLevels {
    levels: Levels,
    next: Place,
}

fn title(fields: &[&[u8]]) -> Result<Format, ImageKind>
    ensures { result ≡ title (map (λ field. field.now) fields.entry.now) }
{
    match fields {
        [word, format] => {
            holds(ImageKind::Missing, is_word(word, "svsm-image"))?;
            format_word(format).ok_or(ImageKind::Missing)
        }
        _ => Err(ImageKind::Missing),
    }
}

fn title_line(alloc: Global, line: &[u8]) -> Result<Format, LineError>
    ensures { Tells (λ format. format) (title (fields line.now)) result }
{
    let fields = fields_of(alloc, line)?;
    let format = title(&fields)?;
    Ok(format)
}

// The fields behind the word that is expected here.
fn behind<'a, 'b>(fields: &'a [&'b [u8]], word: &str) -> Result<&'a [&'b [u8]], ImageKind>
    ensures { MatchResult result
        (λ rest. behind word.now (map (λ field. field.now) fields.entry.now) ≡ Ok (map (λ field. field.now) rest.now))
        (λ kind. behind word.now (map (λ field. field.now) fields.entry.now) ≡ Err kind) }
{
    match fields {
        [first, rest @ ..] => {
            if is_word(first, word) {
                Ok(rest)
            } else {
                Err(ImageKind::Missing)
            }
        }
        [] => Err(ImageKind::Missing),
    }
}

fn number_line(fields: &[&[u8]], least: u64, most: u64) -> Result<u64, ImageKind>
    ensures told { result ≡ number_line least most (map (λ field. field.now) fields.entry.now) }
    ensures within { IfOk result (λ number. (least ≤ number) × (number ≤ most)) }
{
    match fields {
        [field] => {
            let number = number(field)?;
            holds(ImageKind::Range, least <= number && number <= most)?;
            Ok(number)
        }
        _ => Err(ImageKind::Line),
    }
}

fn head_fields(fields: &[&[u8]], word: &str, least: u64, most: u64) -> Result<u64, ImageKind>
    ensures told { result ≡ head_line word.now least most (map (λ field. field.now) fields.entry.now) }
    ensures within { IfOk result (λ number. (least ≤ number) × (number ≤ most)) }
{
    let rest = behind(fields, word)?;
    number_line(rest, least, most)
}

fn head_line(
    alloc: Global,
    line: &[u8],
    word: &str,
    least: u64,
    most: u64,
) -> Result<u64, LineError>
    ensures told { Tells (λ number. number) (head_line word.now least most (fields line.now)) result }
    ensures within { IfOk result (λ number. (least ≤ number) × (number ≤ most)) }
{
    let fields = fields_of(alloc, line)?;
    let number = head_fields(&fields, word, least, most)?;
    Ok(number)
}

fn is_vmpl(number: u64) -> bool
    ensures { result ≡ is_vmpl number }
{
    1 <= number && number <= 3
}

fn one_level(first: &[u8]) -> Result<Levels, ImageKind>
    ensures told { result ≡ levels_in Format.One (first.now ∷ []) }
    ensures within { IfOk result AreLevels }
{
    let first = number(first)?;
    holds(ImageKind::Range, is_vmpl(first))?;
    Ok(Levels {
        first: Vmpl(first as u8),
        second: None,
    })
}

fn two_levels(first: &[u8], second: &[u8]) -> Result<Levels, ImageKind>
    ensures told { result ≡ levels_in Format.Two (first.now ∷ second.now ∷ []) }
    ensures within { IfOk result AreLevels }
{
    let first = number(first)?;
    let second = number(second)?;
    holds(
        ImageKind::Range,
        is_vmpl(first) && is_vmpl(second) && second != first,
    )?;
    Ok(Levels {
        first: Vmpl(first as u8),
        second: Some(Vmpl(second as u8)),
    })
}

fn levels_in(format: Format, fields: &[&[u8]]) -> Result<Levels, ImageKind>
    ensures told { result ≡ levels_in format (map (λ field. field.now) fields.entry.now) }
    ensures within { IfOk result AreLevels }
{
    match (format, fields) {
        (Format::One, [first]) => one_level(first),
        (Format::Two, [first, second]) => two_levels(first, second),
        _ => Err(ImageKind::Line),
    }
}

fn levels_fields(format: Format, fields: &[&[u8]]) -> Result<Levels, ImageKind>
    ensures told { result ≡ levels_line format (map (λ field. field.now) fields.entry.now) }
    ensures within { IfOk result AreLevels }
{
    let rest = behind(fields, "vmpl")?;
    levels_in(format, rest)
}

fn levels_line(alloc: Global, line: &[u8], format: Format) -> Result<Levels, LineError>
    ensures told { Tells (λ levels. levels) (levels_line format (fields line.now)) result }
    ensures within { IfOk result AreLevels }
{
    let fields = fields_of(alloc, line)?;
    let levels = levels_fields(format, &fields)?;
    Ok(levels)
}

const TOO_SHORT: ImageError = ImageError::Bad {
    line: 0,
    kind: ImageKind::Missing,
};

// The first line, which names the format.
fn read_title(alloc: Global, bytes: &[u8], place: Place) -> Result<HeadFormat, ImageError>
    requires { IsPlace bytes.now place }
    ensures told { Answers (λ head. (head.format, rest_of bytes.now head.next)) (first_told title (rest_of bytes.now place)) result }
    ensures place { IfOk result (λ head. IsPlace bytes.now head.next) }
{
    let Some(kept) = next_kept(bytes, place) else {
        return Err(TOO_SHORT);
    };
    match title_line(alloc, kept.line) {
        Ok(format) => Ok(HeadFormat {
            format,
            next: kept.next,
        }),
        Err(error) => Err(failing(kept.number, error)),
    }
}

// The number of the next line, which begins with the word.
fn read_number(
    alloc: Global,
    bytes: &[u8],
    place: Place,
    word: &str,
    least: u64,
    most: u64,
) -> Result<HeadNumber, ImageError>
    requires { IsPlace bytes.now place }
    ensures told { Answers (λ head. (head.value, rest_of bytes.now head.next)) (first_told (head_line word.now least most) (rest_of bytes.now place)) result }
    ensures place { IfOk result (λ head. IsPlace bytes.now head.next) }
    ensures within { IfOk result (λ head. (least ≤ head.value) × (head.value ≤ most)) }
{
    let Some(kept) = next_kept(bytes, place) else {
        return Err(TOO_SHORT);
    };
    match head_line(alloc, kept.line, word, least, most) {
        Ok(value) => Ok(HeadNumber {
            value,
            next: kept.next,
        }),
        Err(error) => Err(failing(kept.number, error)),
    }
}

// The VMPLs of the next line, in this format.
fn read_levels(
    alloc: Global,
    bytes: &[u8],
    place: Place,
    format: Format,
) -> Result<HeadLevels, ImageError>
    requires { IsPlace bytes.now place }
    ensures told { Answers (λ head. (head.levels, rest_of bytes.now head.next)) (first_told (levels_line format) (rest_of bytes.now place)) result }
    ensures place { IfOk result (λ head. IsPlace bytes.now head.next) }
    ensures within { IfOk result (λ head. AreLevels head.levels) }
{
    let Some(kept) = next_kept(bytes, place) else {
        return Err(TOO_SHORT);
    };
    match levels_line(alloc, kept.line, format) {
        Ok(levels) => Ok(HeadLevels {
            levels,
            next: kept.next,
        }),
        Err(error) => Err(failing(kept.number, error)),
    }
}

/// The first five lines.
pub fn read_head(alloc: Global, bytes: &[u8]) -> Result<Head, ImageError>
    ensures told { Answers (λ head. (image_with head.regions head.levels head.features head.ghcb.0, rest_of bytes.now head.next)) (head_told (kept_lines bytes.now)) result }
    ensures place { IfOk result (λ head. IsPlace bytes.now head.next) }
    ensures regions { IfOk result (λ head. (1 ≤ head.regions) × (head.regions ≤ 512)) }
    ensures levels { IfOk result (λ head. AreLevels head.levels) }
    ensures ghcb { IfOk result (λ head. head.ghcb.0 < 512 * head.regions) }
{
    let start = Place { at: 0, before: 0 };
    let title = read_title(alloc, bytes, start)?;
    let regions = read_number(alloc, bytes, title.next, "regions", 1, 512)?;
    let levels = read_levels(alloc, bytes, regions.next, title.format)?;
    let features = read_number(alloc, bytes, levels.next, "features", 0, u64::MAX)?;
    let last = 512 * regions.value - 1;
    let ghcb = read_number(alloc, bytes, features.next, "ghcb", 0, last)?;
    Ok(Head {
        regions: regions.value,
        levels: levels.levels,
        features: features.value,
        ghcb: Page(ghcb.value),
        next: ghcb.next,
    })
}
