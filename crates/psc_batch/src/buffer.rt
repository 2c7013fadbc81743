//! The shared buffer of the GHCB page.
ghost use Rattle.std.specs.Prelude.{◌≡◌, ◌+◌, ◌*◌, ◌≤◌, Some, None, [], ◌∷◌, length};
ghost use Rattle.ghcb_page.specs.Bytes.{with_bytes, with_u16};
ghost use Rattle.psc_batch.specs.Exchange.{sent_page, with_entries, change_from, exchange_refusal, cur_of, end_of, entry_of, end_index};

use crate::PscError;
use ghcb_page::GhcbPage;
use ghcb_page::bytes::{put_bytes, put_u16, put_u64, u16_at, u64_at};

const CUR: usize = 0x800;

const END: usize = 0x802;

const RESERVED: usize = 0x804;

const ENTRIES: usize = 0x808;

// The exit that has page states changed.
const PAGE_STATES: u64 = 0x8000_0010;

fn put_entries(bytes: &mut [u8], entries: &[u64])
    requires sized { length bytes.old ≡ 4096 }
    requires most { length entries.now ≤ 253 }
    ensures { bytes.new ≡ with_entries 0x808 entries.now bytes.old }
{
    let mut at = ENTRIES;
    'all: for entry in entries {
        put_u64(bytes, at, *entry);
        at += 8;
    }
}

// The header and the entries.
fn put_buffer(bytes: &mut [u8], entries: &[u64], cur: u16)
    requires sized { length bytes.old ≡ 4096 }
    requires some { 1 ≤ length entries.now }
    requires most { length entries.now ≤ 253 }
    ensures { bytes.new ≡ with_entries 0x808 entries.now (with_bytes 0x804 (0 ∷ (0 ∷ (0 ∷ (0 ∷ [])))) (with_u16 0x802 (end_index entries.now) (with_u16 0x800 cur bytes.old))) }
{
    put_u16(bytes, CUR, cur);
    put_u16(bytes, END, (entries.len() - 1) as u16);
    put_bytes(bytes, RESERVED, &[0, 0, 0, 0]);
    put_entries(bytes, entries);
}

/// Makes the page ready to be sent: the exit of these entries from the index `cur` on.
#[tactic(auto, unfolding(crate::specs::Exchange::sent_page))]
pub(crate) fn prepare(page: &mut GhcbPage, entries: &[u64], cur: u16, buffer: u64)
    requires some { 1 ≤ length entries.now }
    requires most { length entries.now ≤ 253 }
    ensures { page.new ≡ sent_page buffer entries.now cur page.old }
{
    put_buffer(page.bytes_mut(), entries, cur);
    page.begin_exit(PAGE_STATES, 0, 0, buffer);
}

/// The index that came back.
pub(crate) fn cur_of(page: &GhcbPage) -> u16
    ensures { result ≡ cur_of page.now }
{
    u16_at(page.bytes(), CUR)
}

// The first entry that came back changed.
fn change(entries: &[u64], bytes: &[u8]) -> Option<PscError>
    requires sized { length bytes.now ≡ 4096 }
    requires most { length entries.now ≤ 253 }
    ensures { result ≡ change_from 0 entries.now bytes.now }
{
    'all: for (index, entry) in entries.iter().enumerate() {
        let got = u64_at(bytes, ENTRIES + 8 * index);
        if *entry / 0x1000 != got / 0x1000 {
            return Some(PscError::Changed {
                index: index as u16,
                sent: *entry,
                got,
            });
        }
    }
    None
}

/// What refuses the page that came back, where the index `cur` was sent.
pub(crate) fn refusal(page: &GhcbPage, entries: &[u64], cur: u16) -> Option<PscError>
    requires some { 1 ≤ length entries.now }
    requires most { length entries.now ≤ 253 }
    ensures { result ≡ exchange_refusal entries.now cur page.now }
{
    if let Err(said) = page.end_exit() {
        return Some(PscError::Said {
            info1: said.info1,
            info2: said.info2,
        });
    }
    let bytes = page.bytes();
    let end = (entries.len() - 1) as u16;
    let end_back = u16_at(bytes, END);
    if end_back != end {
        return Some(PscError::End {
            sent: end,
            got: end_back,
        });
    }
    let back = u16_at(bytes, CUR);
    if back < cur {
        return Some(PscError::Back {
            sent: cur,
            got: back,
        });
    }
    if end + 1 < back {
        return Some(PscError::Past { end, got: back });
    }
    change(entries, bytes)
}
