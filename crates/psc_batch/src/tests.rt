use super::*;
use crate::buffer::prepare;
use ghcb_page::GhcbPage;
use ghcb_page::bytes::{put_u16, put_u64, u16_at};
use std::alloc::Global;
use std::test::Fail;
use svsm_types::{Gpa, NoMemory, Page, Span};

// What a host does with one exit.
#[derive(Clone, Copy)]
enum Move {
    // Carries out so many entries.
    Perform(u16),
    // Gives back another index, or another index of the last entry.
    Cur(u16),
    End(u16),
    // Writes a word over the entry 1.
    Entry(u64),
    // Says so in the info values.
    Said(u64, u64),
}

// A host that makes its moves in order, and then carries out all that is left.
#[derive(Drop)]
struct Mover<'a> {
    moves: &'a [Move],
    exits: usize,
}

impl Host for Mover<'_> {
    ghost use Rattle.std.specs.Prelude.{⊤};

    ghost answers = { λ _ _ _ _. ⊤ };

    ghost returns = { λ _ _ _ _. ⊤ };

    fn msr(&mut self, _sent: u64) -> u64 {
        0
    }

    fn exit(&mut self, page: &mut GhcbPage) {
        let bytes = page.bytes_mut();
        let cur = u16_at(bytes, 0x800);
        let all = u16_at(bytes, 0x802).saturating_add(1);
        match self.moves.get(self.exits) {
            None => put_u16(bytes, 0x800, all),
            Some(Move::Perform(count)) => put_u16(bytes, 0x800, cur.saturating_add(*count)),
            Some(Move::Cur(index)) => put_u16(bytes, 0x800, *index),
            Some(Move::End(index)) => put_u16(bytes, 0x802, *index),
            Some(Move::Entry(word)) => put_u64(bytes, 0x810, *word),
            Some(Move::Said(info1, info2)) => {
                put_u64(bytes, 0x398, *info1);
                put_u64(bytes, 0x3A0, *info2);
            }
        }
        self.exits = self.exits.saturating_add(1);
    }
}

fn batches(alloc: Global, first: u64, count: u64) -> Result<Vec<Batch>, NoMemory> {
    if first > 0x1000 || count > 0x1000 {
        return Ok(Vec::new(alloc));
    }
    let first = Page(first);
    Batch::of_spans(alloc, &[Span { first, count }])
}

// How an exchange of three entries ends against a host with these moves, and after how many exits.
fn ends(alloc: Global, moves: &[Move]) -> Result<(Option<Result<(), PscError>>, usize), NoMemory> {
    let mut page = GhcbPage::new(alloc)?;
    let mut host = Mover { moves, exits: 0 };
    let mut batches = batches(alloc, 0x200, 3)?;
    let end = match batches.first_mut() {
        None => None,
        Some(batch) => Some(batch.exchange(&mut page, Gpa(0x5800), &mut host)),
    };
    Ok((end, host.exits))
}

#[test]
fn batches_hold_253_entries_or_whole_regions(rt: HostRuntime) -> Result<(), Fail> {
    let made = batches(rt.alloc(), 0x200, 0x12c)?;
    assert_eq!(rt; made.len(), 2);
    assert_eq!(rt; made[0].entries().len(), 253);
    assert_eq!(rt; made[0].entries()[0], 0x0010_0000_0020_0000);
    assert_eq!(rt; made[1].entries().len(), 47);
    assert_eq!(rt; made[1].entries()[0], 0x0010_0000_002f_d000);
    let large = batches(rt.alloc(), 0x200, 0x200)?;
    assert_eq!(rt; large.len(), 1);
    assert_eq!(rt; large[0].entries(), [0x0110_0000_0020_0000].as_slice());
    let mut page = GhcbPage::new(rt.alloc())?;
    prepare(&mut page, made[0].entries(), 0, 0x5800);
    assert_eq!(rt;
        &page.bytes()[0x800..0x808],
        [0, 0, 0xfc, 0, 0, 0, 0, 0].as_slice()
    );
    Ok(())
}

#[test]
fn bad_hosts_are_refused(rt: HostRuntime) -> Result<(), Fail> {
    let sent = 0x0010_0000_0020_1000;
    let tries = [
        ([Move::Perform(1), Move::Perform(1)], Ok(()), 3),
        (
            [Move::Said(0, 5), Move::Cur(0)],
            Err(PscError::Said { info1: 0, info2: 5 }),
            1,
        ),
        (
            [Move::End(3), Move::Cur(0)],
            Err(PscError::End { sent: 2, got: 3 }),
            1,
        ),
        (
            [Move::Perform(2), Move::Cur(1)],
            Err(PscError::Back { sent: 2, got: 1 }),
            2,
        ),
        (
            [Move::Cur(4), Move::Cur(0)],
            Err(PscError::Past { end: 2, got: 4 }),
            1,
        ),
        (
            [Move::Entry(sent ^ 0x1000), Move::Cur(0)],
            Err(PscError::Changed {
                index: 1,
                sent,
                got: sent ^ 0x1000,
            }),
            1,
        ),
        ([Move::Entry(sent + 0xfff), Move::Cur(3)], Ok(()), 2),
    ];
    for (moves, end, exits) in tries {
        assert_eq!(rt; ends(rt.alloc(), &moves)?, (Some(end), exits));
    }
    Ok(())
}

#[test]
fn a_host_may_stall_63_times(rt: HostRuntime) -> Result<(), Fail> {
    let alloc = rt.alloc();
    for (count, end) in [(63, Ok(())), (64, Err(PscError::Stalled { cur: 0 }))] {
        let moves = vec![in alloc; Move::Perform(0); count]?;
        assert_eq!(rt; ends(alloc, &moves)?, (Some(end), 64));
    }
    Ok(())
}
