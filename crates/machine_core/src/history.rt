//! Whole histories.
ghost use Rattle.std.specs.Prelude.{◌≡◌, ◌≤◌, ◌+◌, ◌↔◌, length, IfOk, OnOk, OnErr, IfErr, true, IsTrue, IsSome, false, ℕ};
ghost use Rattle.svsm_steps.specs.Region.{fault_at};
ghost use Rattle.svsm_steps.specs.Formed.{IsWellFormed, AreWellFormed};
ghost use Rattle.machine_core.specs.Views.{state_of, constants_of, numbers_of};
ghost use Rattle.svsm_steps.specs.Sound.{IsSound};
ghost use Rattle.svsm_steps.specs.Safe.{AlwaysSafe};
ghost use Rattle.svsm_steps.specs.Image.{booted, constants_of as constants_in};
ghost use Rattle.machine_region.specs.Kinds.{is_of_region, is_of_pool, is_of_registry};
ghost use Rattle.machine_core.specs.Performed.{Answers, MakesAs};
ghost use Rattle.svsm_steps.specs.DueFaults.{due_at};
ghost use Rattle.svsm_steps.specs.OneAnswer.{unlisted};
ghost use Rattle.svsm_steps.specs.NextEntry.{IsDue};
ghost use Rattle.svsm_steps.specs.Machine.{kind};
ghost use Rattle.machine_core.specs.Played.{Counted, FailsAt, Fails, Followed, Played};
ghost use Rattle.machine_core.specs.Standing.{Unchanged, booted_of, standing_of};

use crate::kinds::{is_of_pool, is_of_region};
use crate::play_error::PlayError;
use crate::{Machine, pool};
use std::alloc::Global;
use svsm_steps::{Answer, Entry, Step, place_of};
use svsm_types::Image;

// The micro-operation at which an answer says that a fault struck.
fn fault_at(answer: &Answer) -> Option<u8>
    ensures { result ≡ fault_at answer.now }
{
    match *answer {
        Answer::Fault { done } => Some(done),
        _ => None,
    }
}

fn same_answer(one: &Answer, other: &Answer) -> bool
    ensures { IsTrue result ↔ (one.now ≡ other.now) }
{
    *one == *other
}

impl Machine {
    /// The answer of a step of a core, in which at most one micro-operation is struck by a fault.
    fn answer(&self, core: u32, step: &Step, struck: Option<u8>) -> Answer
        requires { IsWellFormed (constants_of self.now).regions step.now }
        ensures { Answers struck core step.now result (standing_of self.now) }
    {
        if is_of_region(step) {
            self.region_answer(core, step, struck)
        } else if is_of_pool(step) {
            self.pool_answer(core, step, struck)
        } else {
            self.registry_answer(core, step, struck)
        }
    }

    fn region_answer(&self, core: u32, step: &Step, struck: Option<u8>) -> Answer
        requires formed { IsWellFormed (constants_of self.now).regions step.now }
        requires region { is_of_region step.now ≡ true }
        ensures { Answers struck core step.now result (standing_of self.now) }
    {
        let place = place_of(self.regions.len() as u64, step);
        self.regions[place as usize].answer(step, struck)
    }

    fn pool_answer(&self, core: u32, step: &Step, struck: Option<u8>) -> Answer
        requires { is_of_pool step.now ≡ true }
        ensures { Answers struck core step.now result (standing_of self.now) }
    {
        pool::answer(&self.blocks, self.split, step)
    }

    fn registry_answer(&self, core: u32, step: &Step, struck: Option<u8>) -> Answer
        requires { is_of_registry step.now ≡ true }
        ensures { Answers struck core step.now result (standing_of self.now) }
    {
        self.registry.answer(core, step)
    }

    // Carries out one entry of a history, at which this ticket is wanted: how many operations of the platform it made.
    fn follow_entry(&mut self, want: u64, entry: &Entry) -> Result<u64, PlayError>
        requires { IsWellFormed (constants_of self.old).regions entry.now.step }
        ensures ok { OnOk result (Followed want entry.now (standing_of self.old) (standing_of self.new)) }
        ensures makes { IfOk result (MakesAs (kind entry.now.step) (constants_of self.old) (state_of self.old) entry.now.step entry.now.answer) }
        ensures err { IfErr result (λ error. FailsAt (constants_of self.old) want (state_of self.old) entry.now error) }
        ensures kept { OnErr result (Unchanged (standing_of self.old) (standing_of self.new)) }
        ensures constants { constants_of self.new ≡ constants_of self.old }
    {
        if entry.ticket != want {
            return Err(PlayError::Gap {
                want,
                got: entry.ticket,
            });
        }
        let place = place_of(self.regions.len() as u64, &entry.step);
        if entry.place != place {
            return Err(PlayError::Place {
                ticket: entry.ticket,
                want: place,
                got: entry.place,
            });
        }
        let struck = fault_at(&entry.answer);
        let computed = self.answer(entry.core, &entry.step, struck);
        if !same_answer(&computed, &entry.answer) {
            return Err(PlayError::Illegal {
                ticket: entry.ticket,
                kept: entry.answer,
                computed,
            });
        }
        let carried = self.step_as(entry.core, &entry.step, struck)?;
        Ok(u64::from(carried.operations))
    }

    // Whether an entry answers a fault just where the platform's table faults.
    fn faults_by_table(&self, entry: &Entry) -> bool
        requires { IsWellFormed (constants_of self.now).regions entry.now.step }
        ensures { IsTrue result ↔ (IsSome (fault_at entry.now.answer)
            × (fault_at entry.now.answer
            ≡ due_at (kind entry.now.step) (constants_of self.now) unlisted (state_of self.now) entry.now.step)) }
    {
        let Some(done) = fault_at(&entry.answer) else {
            return false;
        };
        let alone = self.answer(entry.core, &entry.step, None);
        fault_at(&alone) == Some(done)
    }

    /// Carries out one entry of a history, at which this ticket is wanted: how many operations of the platform it made, the one
    /// that faulted among them, and whether the platform's table faults the last of them. An error leaves the machine as it was.
    pub fn follow(
        &mut self,
        _alloc: Global,
        want: u64,
        entry: &Entry,
    ) -> Result<(u64, bool), PlayError>
        requires { IsWellFormed (constants_of self.old).regions entry.now.step }
        ensures ok { OnOk result (Followed want entry.now (standing_of self.old) (standing_of self.new)) }
        ensures counted { IfOk result (Counted entry.now (standing_of self.old)) }
        ensures err { IfErr result (λ error. FailsAt (constants_of self.old) want (state_of self.old) entry.now error) }
        ensures kept { OnErr result (Unchanged (standing_of self.old) (standing_of self.new)) }
        ensures constants { constants_of self.new ≡ constants_of self.old }
    {
        let by_table = self.faults_by_table(entry);
        let operations = self.follow_entry(want, entry)?;
        Ok((operations, by_table))
    }

    /// Whether an entry faults where one of its operations is due to fault, by the numbers that the machine has counted.
    pub fn is_due(&self, entry: &Entry) -> bool
        requires { IsWellFormed (constants_of self.now).regions entry.now.step }
        ensures { IsTrue result ↔ IsDue (constants_of self.now) (numbers_of self.now) (state_of self.now) entry.now }
    {
        let struck = self.listed(&entry.step);
        let due = self.answer(entry.core, &entry.step, struck);
        fault_at(&due) == fault_at(&entry.answer)
    }

    /// Carries out the entries of a history, of which the first has the ticket 0.
    pub(crate) fn carry_all(&mut self, run: &[Entry]) -> Result<(), PlayError>
        requires { AreWellFormed (constants_of self.old).regions run.now }
        ensures ok { OnOk result (Played run.now (standing_of self.old) (standing_of self.new)) }
        ensures err { IfErr result (λ error. Fails (constants_of self.old) 0 (state_of self.old) run.now error) }
        ensures constants { constants_of self.new ≡ constants_of self.old }
    {
        let mut want = 0;
        let mut rest = run;
        'run: while let [entry, after @ ..] = rest {
            self.follow_entry(want, entry)?;
            want += 1;
            rest = after;
        }
        Ok(())
    }
}

#[tactic(auto, using(crate::proofs::PlayLemmas::no_memory))]
/// Plays a history from the booted machine of an image. It does not look at scripts or at the faults that the image lists.
pub fn play(alloc: Global, image: &Image, run: &[Entry]) -> Result<Machine, PlayError>
    requires image { IsSound image.now }
    requires formed { AreWellFormed image.now.regions run.now }
    ensures played { IfOk result (λ machine. Played run.now (booted_of image.now) (standing_of machine)) }
    ensures constants { IfOk result (λ machine. constants_of machine ≡ constants_in image.now) }
    ensures safe { IfOk result (λ machine. AlwaysSafe (constants_in image.now) (booted image.now) run.now) }
    ensures err { IfErr result (λ error. Fails (constants_in image.now) 0 (booted image.now) run.now error) }
{
    let Ok(mut machine) = Machine::of_image(alloc, image) else {
        return Err(PlayError::NoMemory);
    };
    machine.carry_all(run)?;
    Ok(machine)
}
