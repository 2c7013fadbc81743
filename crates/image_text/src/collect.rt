//! The ranges of pages, put together page by page.
ghost use Rattle.std.specs.Prelude.{◌≡◌, ◌+◌, ◌<◌, ◌^◌, OnOk, IfOk, IsTrue};
ghost use Rattle.std.specs.List.{list_all};
ghost use Rattle.image_text.specs.Saved.{same_saying, hw_state, rights_of, ranges_from};
ghost use Rattle.image_text.specs.Collected.{says_of, page_put, row_saying, rows_saying, has_four_bits, AreUpTo};

use std::alloc::Global;
use svsm_types::{HwState, NoMemory, Owner, Page, PageState, Range, RmpRow};

/// What a range line says of a page.
#[derive(Clone, Copy)]
pub struct Saying {
    pub owner: Owner,
    pub state: HwState,
    pub rights: u16,
}

fn says_same(range: &Range, saying: &Saying) -> bool
    ensures { result ≡ same_saying (says_of range.now) (record { owner = saying.now.owner; state = saying.now.state; rights = saying.now.rights }) }
{
    range.owner == saying.owner && (range.state == saying.state && range.rights == saying.rights)
}

/// Adds the page behind the last of the ranges: it joins the last where it says the same.
pub fn put_page(ranges: &mut Vec<Range>, page: Page, saying: &Saying) -> Result<(), NoMemory>
    requires few { page.0 + 1 < 2 ^ 64 }
    requires up { AreUpTo page.0 ranges.old.items }
    ensures { OnOk result (ranges.new.items ≡ page_put ranges.old.items page.0 (record { owner = saying.now.owner; state = saying.now.state; rights = saying.now.rights })) }
{
    let range = Range {
        first: page,
        count: 1,
        owner: saying.owner,
        state: saying.state,
        rights: saying.rights,
    };
    let Some(last) = ranges.pop() else {
        ranges.push(range)?;
        return Ok(());
    };
    if says_same(&last, saying) {
        let count = last.count + 1;
        ranges.push_reserved(Range { count, ..last });
        return Ok(());
    }
    ranges.push_reserved(last);
    ranges.push(range)?;
    Ok(())
}

fn hw_state(page: &PageState) -> HwState
    ensures { result ≡ hw_state page.now }
{
    if page.validated {
        HwState::Valid
    } else if page.assigned {
        HwState::Assigned
    } else {
        HwState::Shared
    }
}

fn rights_of(row: &RmpRow) -> u16
    requires { IsTrue (has_four_bits row.now) }
    ensures { result ≡ rights_of row.now.state }
{
    let [first, second, third] = row.state.rights;
    u16::from(first.0) + 16 * u16::from(second.0) + 256 * u16::from(third.0)
}

fn row_saying(ghcb: Page, page: Page, row: &RmpRow) -> Saying
    requires { IsTrue (has_four_bits row.now) }
    ensures owner { result.owner ≡ row.now.owner }
    ensures says { row_saying ghcb.0 page.0 row.now ≡ record { owner = result.owner; state = result.state; rights = result.rights } }
{
    Saying {
        owner: row.owner,
        state: if page.0 == ghcb.0 {
            HwState::Assigned
        } else {
            hw_state(&row.state)
        },
        rights: rights_of(row),
    }
}

/// The ranges of the pages from 0 on, by their rows; the GHCB page is said to be assigned.
pub fn ranges_of(alloc: Global, ghcb: Page, rows: &[RmpRow]) -> Result<Vec<Range>, NoMemory>
    requires { IsTrue (list_all has_four_bits rows.now) }
    ensures { IfOk result (λ ranges. ranges.items ≡ ranges_from 0 (rows_saying ghcb.0 0 rows.now)) }
{
    let mut ranges = Vec::new(alloc);
    for (page, row) in rows.iter().enumerate() {
        let page = Page(page as u64);
        put_page(&mut ranges, page, &row_saying(ghcb, page, row))?;
    }
    Ok(ranges)
}
