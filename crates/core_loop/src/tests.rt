ghost use Rattle.std.specs.Prelude.{IsTrue};
ghost use Rattle.svsm_steps.specs.Formed.{IsVmpl};
ghost use Rattle.svsm_steps.specs.Requests.{IsRequest};

mod listed;

use super::*;
use listed::ListStepper;
use std::alloc::Global;
use std::process::Abort;
use std::sync::Wait;
use std::test::Fail;
use svsm_steps::{Caller, CoreEnd, CoreRun, Outcome, Step};
use svsm_types::{Gpa, HostLine, Image, NoMemory, Page, Regs, Request, Sequence, Size, Vmpl};

const CALLER: Caller = Caller {
    core: 0,
    apic: 0,
    vmpl: Vmpl(2),
    caa: Gpa(0x20000),
    regions: 2,
    features: 1,
};

const NEVER: u64 = 1000;

fn regs(rax: u64, rcx: u64) -> Regs {
    Regs {
        rax,
        rcx,
        rdx: 0,
        r8: 0,
        r9: 0,
    }
}

// An exit with a PVALIDATE list at 0x21000, of which the second poll is to be interrupted.
fn list_exit() -> Request {
    let regs = regs(1, 0x21000);
    Request::Exit { regs, poll: 2 }
}

fn list_stepper(
    alloc: Global,
    words: &[u64],
    faults_at: u64,
    full_at: u64,
) -> Result<ListStepper, NoMemory> {
    let mut list = Vec::new(alloc);
    list.extend_from_slice(words)?;
    Ok(ListStepper {
        words: list,
        faults_at,
        full_at,
        entries: Vec::new(alloc),
    })
}

// The world of core 0 under an image with this host line.
fn world(alloc: Global, line: HostLine) -> Result<ScriptWorld, NoMemory> {
    let mut host = Sequence::new(alloc);
    host.push(line)?;
    let image = Image {
        regions: 2,
        vmpl: Vmpl(2),
        second: None,
        features: 1,
        ghcb: Page(5),
        ranges: Sequence::new(alloc),
        large: Sequence::new(alloc),
        accepts: Sequence::new(alloc),
        cores: Sequence::new(alloc),
        fills: Sequence::new(alloc),
        faults: Sequence::new(alloc),
        host,
        split: false,
        blocks: Sequence::new(alloc),
        announce: false,
    };
    ScriptWorld::new(alloc, &image, 0)
}

fn run_line(number: u64, got: u64) -> HostLine {
    let core = 0;
    HostLine::Run { core, number, got }
}

fn is_level(vmpl: Vmpl) -> bool
    ensures { IsTrue result → IsVmpl vmpl }
{
    1 <= vmpl.0 && vmpl.0 <= 3
}

fn is_request(request: &Request) -> bool
    ensures { IsTrue result → IsRequest request.now }
{
    match *request {
        Request::Write { vmpl, gpa, .. } | Request::Read { vmpl, gpa } => {
            is_level(vmpl) && gpa.0 % 8 == 0
        }
        Request::Adjust { vmpl, page, .. } => is_level(vmpl) && page.0 < 0x10_0000_0000_0000,
        Request::Share { page } | Request::Assign { page } => page.0 < 0x10_0000_0000_0000,
        Request::Call { .. } | Request::Exit { .. } => true,
    }
}

// The run of core 0 under an image with this host line.
fn run_script<R: Abort + Wait>(
    rt: &R,
    alloc: Global,
    stepper: &mut ListStepper,
    requests: &[Request],
    line: HostLine,
) -> Result<CoreRun, NoMemory> {
    assert!(rt; stepper.entries.is_empty());
    assert!(rt; requests.len() <= 128);
    assert!(rt; requests.iter().all(is_request));
    let mut world = world(alloc, line)?;
    run_steps(rt, alloc, stepper, CALLER, requests, &mut world)
}

#[test]
fn each_request_has_its_steps_and_its_outcome(rt: HostRuntime) -> Result<(), Fail> {
    let alloc = rt.alloc();
    let vmpl = Vmpl(2);
    let gpa = Gpa(0x21000);
    let page = Page(0x200);
    let requests = [
        Request::Write { vmpl, gpa, word: 7 },
        Request::Read { vmpl, gpa },
        Request::Read {
            vmpl,
            gpa: Gpa(0x400000),
        },
        Request::Adjust {
            vmpl,
            page,
            target: 3,
            mask: 1,
        },
        Request::Share { page },
        Request::Assign { page },
        Request::Call {
            regs: regs(6, 1),
            poll: 0,
        },
        list_exit(),
        list_exit(),
    ];
    let words = [0, 0x201004, 0x200004, 5, 1, 1, 7];
    let mut stepper = list_stepper(alloc, &words, NEVER, NEVER)?;
    let run = run_script(&rt, alloc, &mut stepper, &requests, run_line(3, 0))?;
    let outcomes = [
        Outcome::Done,
        Outcome::Word(7),
        Outcome::Denied,
        Outcome::Done,
        Outcome::Done,
        Outcome::Done,
        Outcome::Reply(regs(0, 0x200000001)),
        Outcome::Reply(regs(0x80000000, 0x21000)),
        Outcome::Spurious,
    ];
    assert_eq!(rt; run.outcomes.as_slice(), outcomes.as_slice());
    assert_eq!(rt; run.end, CoreEnd::Done);
    let size = Size::Small;
    let on = true;
    let steps = [
        Step::GuestWrite { vmpl, gpa, word: 7 },
        Step::GuestRead { vmpl, gpa },
        Step::GuestAdjust {
            vmpl,
            page,
            target: 3,
            mask: 1,
        },
        Step::HostShare { page },
        Step::HostAssign { page },
        Step::GuestPend {
            vmpl,
            gpa: Gpa(0x20000),
        },
        Step::TakePending {
            vmpl,
            gpa: Gpa(0x20000),
        },
        Step::TakePending {
            vmpl,
            gpa: Gpa(0x20000),
        },
        Step::LoadWord { vmpl, gpa },
        Step::LoadWord {
            vmpl,
            gpa: Gpa(0x21008),
        },
        Step::Validate {
            vmpl,
            page,
            size,
            on,
        },
        Step::LoadWord {
            vmpl,
            gpa: Gpa(0x21010),
        },
        Step::Validate {
            vmpl,
            page: Page(0x201),
            size,
            on,
        },
        Step::StoreNext { vmpl, gpa, next: 2 },
        Step::TakePending {
            vmpl,
            gpa: Gpa(0x20000),
        },
        Step::Leave { apic: 0 },
    ];
    assert_eq!(rt; stepper.entries.len(), steps.len());
    for (entry, step) in stepper.entries.iter().zip(&steps) {
        assert_eq!(rt; entry.step, *step);
    }
    Ok(())
}

#[test]
fn an_empty_script_leaves_at_once(rt: HostRuntime) -> Result<(), Fail> {
    let alloc = rt.alloc();
    let mut stepper = list_stepper(alloc, &[], NEVER, NEVER)?;
    let run = run_script(&rt, alloc, &mut stepper, &[], run_line(0, 0))?;
    assert_eq!(rt; run.end, CoreEnd::Done);
    assert_eq!(rt; run.outcomes.len(), 0);
    assert_eq!(rt; stepper.entries.len(), 1);
    Ok(())
}

#[test]
fn a_fault_ends_the_core_without_leave(rt: HostRuntime) -> Result<(), Fail> {
    let alloc = rt.alloc();
    let mut stepper = list_stepper(alloc, &[5, 1], 2, NEVER)?;
    let requests = [list_exit(), list_exit()];
    let run = run_script(&rt, alloc, &mut stepper, &requests, run_line(1, 0))?;
    assert_eq!(rt; run.end, CoreEnd::Faulted { ticket: 2 });
    assert_eq!(rt; run.outcomes.len(), 0);
    assert_eq!(rt; stepper.entries.len(), 3);
    Ok(())
}

#[test]
fn a_wrong_host_answer_ends_the_core(rt: HostRuntime) -> Result<(), Fail> {
    let alloc = rt.alloc();
    let mut stepper = list_stepper(alloc, &[0], NEVER, NEVER)?;
    let requests = [list_exit()];
    let run = run_script(
        &rt,
        alloc,
        &mut stepper,
        &requests,
        run_line(0, 0x100000017),
    )?;
    let sent = 0x200000016;
    let got = 0x100000017;
    assert_eq!(rt; run.end, CoreEnd::Host { sent, got });
    assert_eq!(rt; run.outcomes.len(), 0);
    assert_eq!(rt; stepper.entries.len(), 0);
    Ok(())
}

#[test]
fn want_of_memory_in_a_call_keeps_its_steps(rt: HostRuntime) -> Result<(), Fail> {
    let alloc = rt.alloc();
    let mut stepper = list_stepper(alloc, &[0x200004, 5, 1], NEVER, 2)?;
    let requests = [list_exit()];
    let run = run_script(&rt, alloc, &mut stepper, &requests, run_line(1, 0));
    assert!(rt; run.is_err());
    assert_eq!(rt; stepper.entries.len(), 2);
    Ok(())
}
