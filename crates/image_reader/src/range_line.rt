//! Lines that name the owner and the state of pages.
ghost use Rattle.std.specs.Prelude.{◌≡◌, ◌≤◌, ◌&&◌, nat_le, map, IfOk, IsTrue};
ghost use Rattle.svsm_steps.specs.Sound.{is_range_in_map};
ghost use Rattle.image_grammar.specs.Told.{told};
ghost use Rattle.image_grammar.specs.Words.{owner_word, state_word};
ghost use Rattle.image_grammar.specs.Forms.{is_run, range_in, range_line};

use crate::told::{holds, number};
use crate::words::{owner_word, state_word};
use image_grammar::ImageKind;
use svsm_types::{HwState, Owner, Page, Range};

const MOST_RIGHTS: u64 = 0xfff;

fn owner_of(field: &[u8]) -> Result<Owner, ImageKind>
    ensures { result ≡ told ImageKind.Line (owner_word field.now) }
{
    owner_word(field).ok_or(ImageKind::Line)
}

fn state_of(field: &[u8]) -> Result<HwState, ImageKind>
    ensures { result ≡ told ImageKind.Line (state_word field.now) }
{
    state_word(field).ok_or(ImageKind::Line)
}

/// One page or more, all in the map.
pub fn is_run(regions: u64, first: u64, count: u64) -> bool
    requires { regions ≤ 512 }
    ensures { result ≡ is_run regions first count }
{
    let pages = 512 * regions;
    0 < count && count <= pages && first <= pages - count
}

// The run is in the map, and the rights are of three levels.
fn is_range(regions: u64, first: u64, count: u64, rights: u64) -> bool
    requires { regions ≤ 512 }
    ensures { result ≡ is_run regions first count && nat_le rights 0xfff }
{
    is_run(regions, first, count) && rights <= MOST_RIGHTS
}

fn range_in(
    regions: u64,
    first: &[u8],
    count: &[u8],
    owner: &[u8],
    state: &[u8],
    rights: &[u8],
) -> Result<Range, ImageKind>
    requires { regions ≤ 512 }
    ensures told { result ≡ range_in regions first.now count.now owner.now state.now rights.now }
    ensures within { IfOk result (λ range. IsTrue (is_range_in_map regions range)) }
{
    let owner = owner_of(owner)?;
    let state = state_of(state)?;
    let first = number(first)?;
    let count = number(count)?;
    let rights = number(rights)?;
    holds(ImageKind::Range, is_range(regions, first, count, rights))?;
    Ok(Range {
        first: Page(first),
        count,
        owner,
        state,
        rights: rights as u16,
    })
}

/// The range of a `range` line, by the fields behind the word.
pub fn range_line(regions: u64, fields: &[&[u8]]) -> Result<Range, ImageKind>
    requires { regions ≤ 512 }
    ensures told { result ≡ range_line regions (map (λ field. field.now) fields.entry.now) }
    ensures within { IfOk result (λ range. IsTrue (is_range_in_map regions range)) }
{
    match fields {
        [first, count, owner, state, rights] => {
            range_in(regions, first, count, owner, state, rights)
        }
        _ => Err(ImageKind::Line),
    }
}
