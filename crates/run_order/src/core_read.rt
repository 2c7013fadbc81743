//! All requests of a core.
ghost use Rattle.std.specs.Prelude.{◌≡◌, ◌≤◌, ◌<◌, ◌^◌, IfOk, length};
ghost use Rattle.svsm_calls.specs.CoreRun.{run_value, is_run_answer, is_call};
ghost use Rattle.svsm_calls.specs.World.{run_answer};
ghost use Rattle.run_order.specs.Finds.{AreInMap};
ghost use Rattle.run_order.specs.Reads.{AsksRun, CoreReads};

use crate::reader::{CoreEntries, Found, Stop};
use crate::request::{PieceEnd, read_request};
use std::alloc::Global;
use svsm_steps::{Caller, CoreEnd, Outcome, Step};
use svsm_types::{HostLine, NoMemory, Request, Sequence};

/// How a core ended, or where its entries leave it.
#[derive(Drop)]
pub enum CoreRead {
    Ended {
        outcomes: Sequence<Outcome>,
        end: CoreEnd,
    },
    Stopped(Stop),
}

/// How the run request before a request is answered.
#[derive(Clone, Copy, Debug)]
enum Asked {
    /// The core goes on, and its next run request has this number.
    Goes(u64),
    /// It ends.
    Wrong(CoreEnd),
}

// The answer to a core's run request with this number.
fn run_answer(lines: &[HostLine], of: u32, next: u64) -> u64
    ensures { result ≡ run_answer lines.now of next }
{
    for line in lines {
        if let HostLine::Run { core, number, got } = *line {
            if core == of && number == next {
                return got;
            }
        }
    }
    0x17
}

// What a run request sends.
fn run_value(caller: &Caller) -> u64
    ensures { result ≡ run_value caller.now }
{
    (u64::from(caller.vmpl.0) << 32) + 0x16
}

// Whether a run request was answered right.
fn is_run_answer(got: u64) -> bool
    ensures { result ≡ is_run_answer got }
{
    got % 0x1000 == 0x17 && got / 0x1_0000_0000 == 0
}

fn is_call(request: &Request) -> bool
    ensures { result ≡ is_call request.now }
{
    matches!(*request, Request::Call { .. } | Request::Exit { .. })
}

// Sends the run request with this number where it is due.
fn ask_run(lines: &[HostLine], due: bool, now: &Caller, number: u64) -> Asked
    requires { number < 2 ^ 32 }
    ensures { AsksRun lines.now due now.now number result }
{
    if !due {
        return Asked::Goes(number);
    }
    let got = run_answer(lines, now.core, number);
    if is_run_answer(got) {
        return Asked::Goes(number + 1);
    }
    let sent = run_value(now);
    Asked::Wrong(CoreEnd::Host { sent, got })
}

/// Reads the entries of a core after its Enter, as far as they are those of a run of its script.
pub fn read_core(
    alloc: Global,
    source: &CoreEntries,
    at: &mut usize,
    lines: &[HostLine],
    caller: Caller,
    script: &[Request],
) -> Result<CoreRead, NoMemory>
    requires regions { caller.regions ≤ 512 }
    requires few { length script.now ≤ 128 }
    requires in_map { AreInMap source.now.entries.now }
    ensures { IfOk result (λ read. CoreReads source.now.core source.now.entries.now lines.now caller script.now at.old read at.new) }
{
    let mut now = caller;
    let mut due = true;
    let mut number = 0;
    let mut outcomes = Sequence::new(alloc);
    for request in script {
        match ask_run(lines, due, &now, number) {
            Asked::Goes(next) => number = next,
            Asked::Wrong(end) => return Ok(CoreRead::Ended { outcomes, end }),
        }
        match read_request(source, at, &now, request) {
            PieceEnd::Done { area, outcome } => {
                outcomes.push(outcome)?;
                now.caa = area;
                due = is_call(request);
            }
            PieceEnd::Faulted { ticket } => {
                let end = CoreEnd::Faulted { ticket };
                return Ok(CoreRead::Ended { outcomes, end });
            }
            PieceEnd::Stopped(stop) => return Ok(CoreRead::Stopped(stop)),
        }
    }
    let apic = caller.apic;
    match source.read(at, &Step::Leave { apic }) {
        Found::Made {
            ticket: _,
            answer: _,
        } => {
            let end = CoreEnd::Done;
            Ok(CoreRead::Ended { outcomes, end })
        }
        Found::Not(stop) => Ok(CoreRead::Stopped(stop)),
    }
}
