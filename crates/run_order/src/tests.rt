ghost use Rattle.std.specs.Prelude.{IsTrue};
ghost use Rattle.svsm_steps.specs.declared.call.Got.TheVariants.{Answer as Answered};
ghost use Rattle.call_decode.specs.Goes.{IsInMap};

use super::*;
use std::process::Abort;
use std::test::Fail;
use svsm_steps::{Answer, Caller, CoreEnd, Entry, Outcome, Step};
use svsm_types::{Gpa, Page, Request, Vmpl};

const CALLER: Caller = Caller {
    core: 4,
    apic: 7,
    vmpl: Vmpl(2),
    caa: Gpa(0x20000),
    regions: 2,
    features: 1,
};

fn is_in_map(entry: &Entry) -> bool
    ensures { IsTrue result → IsInMap (Answered entry.now.answer) }
{
    match entry.answer {
        Answer::Block { page, .. } => page.0 < 0x40000,
        _ => true,
    }
}

fn entry(core: u32, step: Step) -> Entry {
    Entry {
        ticket: 0,
        core,
        place: 3,
        step,
        answer: Answer::Done,
    }
}

// Core 4 shares a page and leaves, where another core acts too: how far it is read, with so many entries.
fn reads(
    rt: &impl Abort,
    alloc: std::alloc::Global,
    count: usize,
) -> Result<(usize, CoreRead), Fail> {
    let page = Page(0x12);
    let share = Step::HostShare { page };
    let leave = Step::Leave { apic: 7 };
    let all = [
        entry(5, leave),
        entry(4, share),
        entry(5, share),
        entry(4, leave),
        entry(4, share),
    ];
    let entries = all.get(..count).unwrap_or(&[]);
    assert!(rt; entries.iter().all(is_in_map));
    let source = CoreEntries { core: 4, entries };
    let mut at = 0;
    let read = read_core(
        alloc,
        &source,
        &mut at,
        &[],
        CALLER,
        &[Request::Share { page }],
    )?;
    Ok((at, read))
}

#[test]
fn a_core_is_read_to_its_end(rt: HostRuntime) -> Result<(), Fail> {
    let alloc = rt.alloc();
    match reads(&rt, alloc, 5)? {
        (at, CoreRead::Ended { outcomes, end }) => {
            assert_eq!(rt; at, 4);
            assert_eq!(rt; outcomes.as_slice(), [Outcome::Done].as_slice());
            assert_eq!(rt; end, CoreEnd::Done);
        }
        _ => assert!(rt; false),
    }
    match reads(&rt, alloc, 3)? {
        (at, CoreRead::Stopped(stop)) => {
            assert_eq!(rt; at, 2);
            assert_eq!(rt; stop, Stop::Waits);
        }
        _ => assert!(rt; false),
    }
    Ok(())
}
