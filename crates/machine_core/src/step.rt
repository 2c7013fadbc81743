//! The steps of the machine.
ghost use Rattle.std.specs.Prelude.{◌≡◌, ◌≤◌, ◌<◌, ◌*◌, length, IfOk, OnOk, OnErr, true};
ghost use Rattle.svsm_steps.specs.State.{row_at};
ghost use Rattle.svsm_steps.specs.Formed.{IsWellFormed};
ghost use Rattle.vcpu_registry.specs.Spare.{HasSpareFor};
ghost use Rattle.machine_region.specs.Kinds.{is_of_region, is_of_pool, is_of_registry};
ghost use Rattle.machine_core.specs.Boots.{counted_at};
ghost use Rattle.machine_core.specs.Performed.{Carries, MakesAs, Stepped, SteppedAs, listed_in};
ghost use Rattle.svsm_steps.specs.Machine.{kind};
ghost use Rattle.machine_core.specs.Standing.{Unchanged, standing_of};
ghost use Rattle.machine_core.specs.Views.{state_of, constants_of, numbers_of};

use crate::kinds::{is_of_pool, is_of_region};
use crate::{Machine, pool};
use machine_region::Carried;
use std::alloc::Global;
use svsm_steps::{Answer, Step, place_of};
use svsm_types::{NoMemory, Page, RmpRow, Row, region_of};

// The pool and the registry have no operations.
fn uncounted(answer: Answer) -> Carried
    ensures answer { result.answer ≡ answer }
    ensures operations { result.operations ≡ 0 }
{
    Carried {
        answer,
        operations: 0,
    }
}

impl Machine {
    fn carry_out(&mut self, step: &Step, struck: Option<u8>) -> Result<Carried, NoMemory>
        requires formed { IsWellFormed (constants_of self.old).regions step.now }
        requires region { is_of_region step.now ≡ true }
        ensures ok { IfOk result (λ carried. Carries struck step.now carried (standing_of self.old) (standing_of self.new)) }
        ensures err { OnErr result (Unchanged (standing_of self.old) (standing_of self.new)) }
        ensures constants { constants_of self.new ≡ constants_of self.old }
    {
        let place = place_of(self.regions.len() as u64, step);
        self.regions[place as usize].step(step, struck)
    }

    fn count(&mut self, region: u64, operations: u8)
        requires { region < (constants_of self.old).regions }
        ensures numbers { numbers_of self.new ≡ counted_at region operations (numbers_of self.old) }
        ensures state { state_of self.new ≡ state_of self.old }
        ensures constants { constants_of self.new ≡ constants_of self.old }
    {
        self.operations[region as usize].count(operations);
    }

    fn region_step(
        &mut self,
        core: u32,
        step: &Step,
        struck: Option<u8>,
    ) -> Result<Carried, NoMemory>
        requires formed { IsWellFormed (constants_of self.old).regions step.now }
        requires region { is_of_region step.now ≡ true }
        ensures ok { IfOk result (λ carried. SteppedAs struck core step.now carried.answer (standing_of self.old) (standing_of self.new)) }
        ensures makes { IfOk result (λ carried.
            MakesAs (kind step.now) (constants_of self.old) (state_of self.old) step.now carried.answer carried.operations) }
        ensures err { OnErr result (Unchanged (standing_of self.old) (standing_of self.new)) }
        ensures constants { constants_of self.new ≡ constants_of self.old }
    {
        let carried = self.carry_out(step, struck)?;
        let place = place_of(self.regions.len() as u64, step);
        self.count(place, carried.operations);
        Ok(carried)
    }

    fn pool_step(&mut self, core: u32, step: &Step, struck: Option<u8>) -> Result<Carried, NoMemory>
        requires formed { IsWellFormed (constants_of self.old).regions step.now }
        requires pool { is_of_pool step.now ≡ true }
        ensures ok { IfOk result (λ carried. SteppedAs struck core step.now carried.answer (standing_of self.old) (standing_of self.new)) }
        ensures makes { IfOk result (λ carried.
            MakesAs (kind step.now) (constants_of self.old) (state_of self.old) step.now carried.answer carried.operations) }
        ensures err { OnErr result (Unchanged (standing_of self.old) (standing_of self.new)) }
        ensures constants { constants_of self.new ≡ constants_of self.old }
    {
        let answer = pool::step(&mut self.blocks, self.split, step)?;
        Ok(uncounted(answer))
    }

    // Makes room for the row that a Reserve adds.
    fn make_room(&mut self, step: &Step) -> Result<(), NoMemory>
        ensures spare { OnOk result (HasSpareFor step.now self.new.registry.spare) }
        ensures machine { Unchanged (standing_of self.old) (standing_of self.new) }
    {
        match *step {
            Step::Reserve { .. } => self.registry.reserve(),
            _ => Ok(()),
        }
    }

    fn registry_step(
        &mut self,
        core: u32,
        step: &Step,
        struck: Option<u8>,
    ) -> Result<Carried, NoMemory>
        requires { is_of_registry step.now ≡ true }
        ensures ok { IfOk result (λ carried. SteppedAs struck core step.now carried.answer (standing_of self.old) (standing_of self.new)) }
        ensures makes { IfOk result (λ carried.
            MakesAs (kind step.now) (constants_of self.old) (state_of self.old) step.now carried.answer carried.operations) }
        ensures err { OnErr result (Unchanged (standing_of self.old) (standing_of self.new)) }
        ensures constants { constants_of self.new ≡ constants_of self.old }
    {
        self.make_room(step)?;
        let answer = self.registry.act(core, step);
        Ok(uncounted(answer))
    }

    /// Carries out a step of a core, in which at most one micro-operation is struck by a fault.
    pub(crate) fn step_as(
        &mut self,
        core: u32,
        step: &Step,
        struck: Option<u8>,
    ) -> Result<Carried, NoMemory>
        requires formed { IsWellFormed (constants_of self.old).regions step.now }
        ensures ok { IfOk result (λ carried. SteppedAs struck core step.now carried.answer (standing_of self.old) (standing_of self.new)) }
        ensures makes { IfOk result (λ carried.
            MakesAs (kind step.now) (constants_of self.old) (state_of self.old) step.now carried.answer carried.operations) }
        ensures err { OnErr result (Unchanged (standing_of self.old) (standing_of self.new)) }
        ensures constants { constants_of self.new ≡ constants_of self.old }
    {
        if is_of_region(step) {
            self.region_step(core, step, struck)
        } else if is_of_pool(step) {
            self.pool_step(core, step, struck)
        } else {
            self.registry_step(core, step, struck)
        }
    }

    fn region_listed(&self, step: &Step) -> Option<u8>
        requires formed { IsWellFormed (constants_of self.now).regions step.now }
        requires region { is_of_region step.now ≡ true }
        ensures { result ≡ listed_in (standing_of self.now) step.now }
    {
        let place = place_of(self.regions.len() as u64, step);
        self.regions[place as usize].first_listed(step, &self.operations[place as usize])
    }

    /// The micro-operation at which a listed operation strikes a step.
    pub(crate) fn listed(&self, step: &Step) -> Option<u8>
        requires formed { IsWellFormed (constants_of self.now).regions step.now }
        ensures { result ≡ listed_in (standing_of self.now) step.now }
    {
        if is_of_region(step) {
            self.region_listed(step)
        } else {
            None
        }
    }

    /// The machine's one answer to a step of a core. Want of memory leaves the machine as it was.
    pub fn step(&mut self, _alloc: Global, core: u32, step: &Step) -> Result<Answer, NoMemory>
        requires { IsWellFormed (constants_of self.old).regions step.now }
        ensures ok { IfOk result (λ answer. Stepped core step.now answer (standing_of self.old) (standing_of self.new)) }
        ensures err { OnErr result (Unchanged (standing_of self.old) (standing_of self.new)) }
        ensures constants { constants_of self.new ≡ constants_of self.old }
    {
        let struck = self.listed(step);
        let carried = self.step_as(core, step, struck)?;
        Ok(carried.answer)
    }

    /// All that stands of a page.
    pub fn row(&self, page: Page) -> RmpRow
        requires { page.0 < 512 * (constants_of self.now).regions }
        ensures { result ≡ row_at page.0 (state_of self.now) }
    {
        self.regions[region_of(page) as usize].row(page)
    }

    /// The vCPUs, in the order of their reservation.
    pub fn vcpus(&self) -> &[Row]
        ensures { result.now ≡ (state_of self.now).rows }
    {
        self.registry.rows()
    }
}
