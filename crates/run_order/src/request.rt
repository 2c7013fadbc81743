//! One request.
ghost use Rattle.std.specs.Prelude.{◌≡◌, ◌≤◌, IfOk};
ghost use Rattle.svsm_calls.specs.CoreRun.{step_outcome};
ghost use Rattle.run_trees.specs.Tree.{plain_outcome};
ghost use Rattle.run_order.specs.Steps.{one_step, piece_end};
ghost use Rattle.run_order.specs.Finds.{AreInMap};
ghost use Rattle.run_order.specs.Reads.{StepReads, RequestReads};

use crate::call::{CallEnd, read_call};
use crate::reader::{CoreEntries, Found, Stop};
use svsm_steps::{Answer, Caller, Outcome, Step};
use svsm_types::{Gpa, Page, Request, in_map, page_of};

/// How a request ended, or where its entries leave it.
#[derive(Clone, Copy, Debug)]
pub enum PieceEnd {
    /// It is over, and leaves this calling area.
    Done { area: Gpa, outcome: Outcome },
    /// Its last step faulted.
    Faulted { ticket: u64 },
    Stopped(Stop),
}

// The outcome of a guest or host step.
fn plain_outcome(answer: Answer) -> Outcome
    ensures { result ≡ plain_outcome (step_outcome answer) }
{
    match answer {
        Answer::Done => Outcome::Done,
        Answer::Word(word) => Outcome::Word(word),
        _ => Outcome::Denied,
    }
}

// The page and the step of a request that is no call.
fn step_of(request: &Request) -> Option<(Page, Step)>
    ensures { result ≡ one_step request.now }
{
    match *request {
        Request::Call { .. } | Request::Exit { .. } => None,
        Request::Write { vmpl, gpa, word } => {
            Some((page_of(gpa), Step::GuestWrite { vmpl, gpa, word }))
        }
        Request::Read { vmpl, gpa } => Some((page_of(gpa), Step::GuestRead { vmpl, gpa })),
        Request::Adjust {
            vmpl,
            page,
            target,
            mask,
        } => {
            let step = Step::GuestAdjust {
                vmpl,
                page,
                target,
                mask,
            };
            Some((page, step))
        }
        Request::Share { page } => Some((page, Step::HostShare { page })),
        Request::Assign { page } => Some((page, Step::HostAssign { page })),
    }
}

fn piece_end(end: CallEnd) -> PieceEnd
    ensures { result ≡ piece_end end }
{
    match end {
        CallEnd::Over { area, outcome } => PieceEnd::Done { area, outcome },
        CallEnd::Faulted { ticket } => PieceEnd::Faulted { ticket },
        CallEnd::Stopped(stop) => PieceEnd::Stopped(stop),
    }
}

// Reads the entry of a guest or host step, where its page is in the map.
fn read_step(
    source: &CoreEntries,
    at: &mut usize,
    now: &Caller,
    page: Page,
    step: &Step,
) -> PieceEnd
    requires regions { now.now.regions ≤ 512 }
    requires in_map { AreInMap source.now.entries.now }
    ensures { StepReads source.now.core source.now.entries.now now.now page.0 step.now at.old result at.new }
{
    let area = now.caa;
    if !in_map(now.regions, page) {
        let outcome = Outcome::Denied;
        return PieceEnd::Done { area, outcome };
    }
    match source.read(at, step) {
        Found::Made { ticket: _, answer } => {
            let outcome = plain_outcome(answer);
            PieceEnd::Done { area, outcome }
        }
        Found::Not(stop) => PieceEnd::Stopped(stop),
    }
}

/// Reads the entries of a request, after its run request.
pub fn read_request(
    source: &CoreEntries,
    at: &mut usize,
    now: &Caller,
    request: &Request,
) -> PieceEnd
    requires regions { now.now.regions ≤ 512 }
    requires in_map { AreInMap source.now.entries.now }
    ensures { RequestReads source.now.core source.now.entries.now now.now request.now at.old result at.new }
{
    if let Some((page, step)) = step_of(request) {
        return read_step(source, at, now, page, &step);
    }
    match *request {
        Request::Call { regs, poll } => piece_end(read_call(source, at, true, now, &regs, poll)),
        Request::Exit { regs, poll } => piece_end(read_call(source, at, false, now, &regs, poll)),
        _ => unreachable!(),
    }
}
