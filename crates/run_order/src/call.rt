//! One call.
ghost use Rattle.std.specs.Prelude.{◌≤◌};
ghost use Rattle.run_order.specs.Finds.{AreInMap};
ghost use Rattle.run_order.specs.Reads.{CallReads};

use crate::reader::{CoreEntries, Found, Stop};
use call_core::{answered, polled, start};
use svsm_steps::{Answer, Caller, Do, Outcome};
use svsm_types::{Gpa, Regs};

/// How a call ended, or where its entries leave it.
#[derive(Clone, Copy, Debug)]
pub enum CallEnd {
    /// It is over, and leaves this calling area.
    Over { area: Gpa, outcome: Outcome },
    /// Its last step faulted.
    Faulted { ticket: u64 },
    Stopped(Stop),
}

/// Reads the entries of a call, or, where `pend` is false, of an exit, of which the poll with this number is interrupted, from 1.
pub fn read_call(
    source: &CoreEntries,
    at: &mut usize,
    pend: bool,
    caller: &Caller,
    regs: &Regs,
    wanted: u32,
) -> CallEnd
    requires regions { caller.now.regions ≤ 512 }
    requires in_map { AreInMap source.now.entries.now }
    ensures { CallReads source.now.core source.now.entries.now pend caller.now regs.now wanted at.old result at.new }
{
    let (mut state, mut asked) = start(pend, caller, regs);
    let mut polls: u64 = 0;
    'steps: loop {
        match asked {
            Do::Step(step) => match source.read(at, &step) {
                Found::Made { ticket, answer } => {
                    if let Answer::Fault { .. } = answer {
                        return CallEnd::Faulted { ticket };
                    }
                    answered(&mut state, answer, &mut asked);
                }
                Found::Not(stop) => return CallEnd::Stopped(stop),
            },
            Do::Poll => {
                polls += 1;
                polled(&mut state, polls == wanted as u64, &mut asked);
            }
            Do::Reply(regs) => {
                let area = state.caa();
                let outcome = Outcome::Reply(regs);
                return CallEnd::Over { area, outcome };
            }
            Do::Spurious => {
                let area = state.caa();
                let outcome = Outcome::Spurious;
                return CallEnd::Over { area, outcome };
            }
        }
    }
}
