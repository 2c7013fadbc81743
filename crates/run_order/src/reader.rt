//! The entries of one core, in their order.
ghost use Rattle.std.specs.Prelude.{◌≡◌, ◌<◌, ◌+◌, ◌^◌, ◌↔◌, IsTrue, IfSome};
ghost use Rattle.run_order.specs.Finds.{AreInMap, IsNext, Finds};

use svsm_steps::{Answer, Entry, Step};

/// Where the entries of a core leave it before its end.
#[derive(Clone, Copy, Debug, PartialEq, Eq)]
pub enum Stop {
    /// It asks for a step, and has no further entry.
    Waits,
    /// The entry with this index, its next, has another step than it asks for.
    Breaks(usize),
}

/// What a core's next entry is to the step that it asks for.
#[derive(Clone, Copy, Debug)]
pub enum Found {
    /// The step was made.
    Made { ticket: u64, answer: Answer },
    /// It was not.
    Not(Stop),
}

/// The entries of one core, among those of others.
#[derive(Clone, Copy, Debug)]
pub struct CoreEntries<'a> {
    pub core: u32,
    pub entries: &'a [Entry],
}

/// Whether two steps are the same.
pub fn same_step(a: &Step, b: &Step) -> bool
    ensures { IsTrue result ↔ (a.now ≡ b.now) }
{
    *a == *b
}

impl CoreEntries<'_> {
    // The index of the core's next entry from this one on.
    fn next(&self, from: usize) -> Option<usize>
        ensures next { IsNext self.now.core self.now.entries.now from result }
        ensures fits { IfSome result (λ at. at + 1 < 2 ^ 64) }
    {
        let mut at = from;
        'seek: while at < self.entries.len() {
            if self.entries[at].core == self.core {
                return Some(at);
            }
            at += 1;
        }
        None
    }

    /// Reads the core's next entry where it has this step, and goes behind it.
    pub fn read(&self, at: &mut usize, step: &Step) -> Found
        requires { AreInMap self.now.entries.now }
        ensures { Finds self.now.core self.now.entries.now at.old step.now result at.new }
    {
        let Some(next) = self.next(*at) else {
            return Found::Not(Stop::Waits);
        };
        let entry = self.entries[next];
        if !same_step(&entry.step, step) {
            return Found::Not(Stop::Breaks(next));
        }
        *at = next + 1;
        Found::Made {
            ticket: entry.ticket,
            answer: entry.answer,
        }
    }
}
