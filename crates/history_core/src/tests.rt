ghost use Rattle.std.specs.Prelude.{◌≡◌, IfOk};
ghost use Rattle.history_core.specs.Merged.{AreLogsOf};
ghost use Rattle.history_core.specs.Small.{popped, small};

use super::*;
use std::alloc::Global;
use std::test::Fail;
use svsm_steps::{Answer, Entry, Step};
use svsm_types::{NoMemory, Size};

fn popped(ticket: u64, core: u32, place: u64) -> Entry
    ensures { result ≡ popped ticket core place }
{
    Entry {
        ticket,
        core,
        place,
        step: Step::PoolPop { size: Size::Small },
        answer: Answer::Empty { left: 0 },
    }
}

fn logs(alloc: Global) -> Result<Vec<Vec<Entry>>, NoMemory>
    ensures { IfOk result (λ logs. AreLogsOf 0 small logs.items) }
{
    let first = vec![in alloc; popped(0, 0, 0), popped(3, 1, 0)]?;
    let second = vec![in alloc; popped(1, 1, 1), popped(2, 0, 1)]?;
    Ok(vec![in alloc; first, second]?)
}

fn merged(alloc: Global) -> Result<Vec<Entry>, NoMemory> {
    let logs = logs(alloc)?;
    merge(alloc, logs)
}

#[test]
fn logs_in_one(rt: HostRuntime) -> Result<(), Fail> {
    let alloc = rt.alloc();
    let run = merged(alloc)?;
    let tickets = [0, 1, 2, 3];
    for (entry, ticket) in run.iter().zip(tickets) {
        assert_eq!(rt; entry.ticket, ticket);
    }
    assert_eq!(rt; run.len(), 4);
    let core = of_core(alloc, &run, 0)?;
    assert_eq!(rt;
        core.as_slice(),
        [popped(0, 0, 0), popped(2, 0, 1)].as_slice()
    );
    let place = of_place(alloc, &run, 1)?;
    assert_eq!(rt;
        place.as_slice(),
        [popped(1, 1, 1), popped(2, 0, 1)].as_slice()
    );
    Ok(())
}

#[test]
fn behind_nothing_they_are_merged(rt: HostRuntime) -> Result<(), Fail> {
    let alloc = rt.alloc();
    let merged = merged(alloc)?;
    let all = merge_behind(Vec::new(alloc), logs(alloc)?)?;
    assert_eq!(rt; all.as_slice(), merged.as_slice());
    Ok(())
}

#[test]
fn behind_others_their_tickets_follow(rt: HostRuntime) -> Result<(), Fail> {
    let alloc = rt.alloc();
    let past = [popped(0, 5, 0), popped(1, 6, 1), popped(2, 7, 0)];
    let merged = merged(alloc)?;
    let all = merge_behind(Vec::from_slice(alloc, &past)?, logs(alloc)?)?;
    assert_eq!(rt; all.len(), 7);
    for (entry, before) in all.iter().zip(past) {
        assert_eq!(rt; *entry, before);
    }
    for (entry, plain) in all.iter().skip(3).zip(&merged) {
        let ticket = plain.ticket.wrapping_add(3);
        assert_eq!(rt; *entry, Entry { ticket, ..*plain });
    }
    Ok(())
}
