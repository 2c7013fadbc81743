//! The operations of the plain form.
ghost use Rattle.std.specs.Prelude.{◌≡◌, ◌≤◌, Some, []};
ghost use Rattle.svsm_types.specs.Pages.{page_of, index_of};
ghost use Rattle.svsm_types.specs.Hardware.{page_holding, fits as fits_in, large_after, guest_may, guest_may_adjust, pvalidate_answer, validated_pages};
ghost use Rattle.svsm_types.specs.Numbers.{counted};
ghost use Rattle.platform_trait.specs.Known.{Rose};
ghost use Rattle.platform_trait.specs.PlainKnown.{plain_known, plain_hw};

use crate::pages::{
    adjust, are_assigned, are_usable, are_validated, assign, has_bit, is_usable, reaches, right_of,
    validate, with_right,
};
use crate::{PlainRmp, Rmp, Scene};
use std::alloc::Global;
use svsm_types::{Faulted, Gpa, HwCode, NoMemory, Page, PageState, Perms, Size, Vmpl, page_of};

/// The index of a page in its region.
fn index_of(page: Page) -> usize
    ensures { result ≡ index_of page.0 }
{
    (page.0 % 512) as usize
}

impl PlainRmp {
    // One more operation.
    fn count(&mut self)
        ensures { plain_known self.new ≡ record (plain_known self.old)
            { told = Some (counted (record { made = self.old.made; faulting = [] })) } }
    {
        self.made = self.made.saturating_add(1);
    }

    // One more operation, which faults.
    fn fault(&mut self) -> Faulted
        ensures known { plain_known self.new ≡ record (plain_known self.old)
            { told = Some (counted (record { made = self.old.made; faulting = [] })); faults = self.new.faults } }
        ensures rose { Rose self.old.faults self.new.faults }
    {
        self.count();
        self.faults = self.faults.saturating_add(1);
        Faulted
    }

    fn fits(&self, size: Size) -> bool
        ensures { result ≡ fits_in size self.now.large }
    {
        matches!(size, Size::Small) || self.large
    }

    // The 2M entry is split, where the operation is in 4K.
    fn split(&mut self, size: Size)
        ensures { plain_known self.new ≡ record (plain_known self.old)
            { hw = record (plain_hw self.old) { large = large_after size self.old.large } } }
    {
        if matches!(size, Size::Small) {
            self.large = false;
        }
    }

    // What PVALIDATE answers.
    #[tactic(auto, unfolding(svsm_types::specs::Hardware::pvalidate_answer))]
    fn code(&self, page: Page, size: Size, on: bool) -> HwCode
        ensures { result ≡ pvalidate_answer size page.0 on (plain_hw self.now) }
    {
        let index = index_of(page);
        if !self.fits(size) {
            HwCode::Fail(6)
        } else if !are_assigned(&self.pages, size, index) {
            HwCode::Fail(1)
        } else if are_validated(&self.pages, size, index, on) {
            HwCode::Unchanged
        } else {
            HwCode::Changed
        }
    }

    // What it does to the pages.
    #[tactic(auto, unfolding(svsm_types::specs::Hardware::validated_pages))]
    fn set_validity(&mut self, page: Page, size: Size, on: bool, code: HwCode)
        ensures { plain_known self.new ≡ record (plain_known self.old)
            { hw = record (plain_hw self.old) { pages = validated_pages size page.0 on code self.old.pages.items } } }
    {
        if matches!(code, HwCode::Changed) {
            validate(&mut self.pages, size, index_of(page), on);
        }
    }

    fn at(&self, gpa: Gpa) -> PageState
        ensures { result ≡ page_holding gpa.0 (plain_hw self.now) }
    {
        self.pages[index_of(page_of(gpa))]
    }

    fn guest_may(&self, bit: u8, vmpl: Vmpl, gpa: Gpa) -> bool
        requires bit { 1 ≤ bit }
        requires vmpl { (1 ≤ vmpl.0) × (vmpl.0 ≤ 3) }
        ensures { result ≡ guest_may bit vmpl.0 gpa.0 (plain_hw self.now) }
    {
        let page = self.at(gpa);
        reaches(vmpl, &page) && has_bit(bit, right_of(&page, vmpl))
    }

    fn guest_may_adjust(&self, vmpl: Vmpl, page: Page, target: u8, mask: u8) -> bool
        requires { (1 ≤ vmpl.0) × (vmpl.0 ≤ 3) }
        ensures { result ≡ guest_may_adjust vmpl.0 page.0 target mask (plain_hw self.now) }
    {
        let page = self.pages[index_of(page)];
        reaches(vmpl, &page)
            && vmpl.0 < target
            && target <= 3
            && mask <= 15
            && mask & right_of(&page, vmpl) == mask
    }
}

impl Rmp for PlainRmp {
    ghost known = { plain_known };

    ghost sized = { λ p. p.sized };

    fn large(&self) -> bool {
        self.large
    }

    fn state(&self, page: Page) -> PageState {
        self.pages[index_of(page)]
    }

    fn room(&mut self, _alloc: Global, page: Page) -> Result<(), NoMemory> {
        self.words.room(page)
    }

    #[tactic(auto, unfolding(svsm_types::specs::Hardware::word_faults))]
    fn read(&mut self, gpa: Gpa) -> Result<u64, Faulted> {
        if !is_usable(&self.at(gpa)) {
            return Err(self.fault());
        }
        self.count();
        Ok(self.words.word(gpa))
    }

    #[tactic(auto, unfolding(svsm_types::specs::Hardware::word_faults))]
    fn write(&mut self, gpa: Gpa, word: u64) -> Result<(), Faulted> {
        if !is_usable(&self.at(gpa)) {
            return Err(self.fault());
        }
        self.count();
        self.words.set(gpa, word);
        Ok(())
    }

    #[tactic(auto, unfolding(svsm_types::specs::Hardware::clear_faults))]
    fn clear(&mut self, page: Page, size: Size) -> Result<(), Faulted> {
        if !are_usable(&self.pages, size, index_of(page)) {
            return Err(self.fault());
        }
        self.count();
        self.words.clear(page, size);
        Ok(())
    }

    fn pvalidate(&mut self, page: Page, size: Size, on: bool) -> Result<HwCode, Faulted> {
        let code = self.code(page, size, on);
        self.count();
        self.split(size);
        self.set_validity(page, size, on, code);
        Ok(code)
    }

    #[tactic(auto, unfolding(svsm_types::specs::Hardware::rmpadjust_faults, svsm_types::specs::Hardware::adjusted_pages))]
    fn rmpadjust(
        &mut self,
        page: Page,
        size: Size,
        vmpl: Vmpl,
        perms: Perms,
        vmsa: bool,
    ) -> Result<(), Faulted> {
        let index = index_of(page);
        if !(self.fits(size) && are_usable(&self.pages, size, index)) {
            return Err(self.fault());
        }
        self.count();
        self.split(size);
        adjust(&mut self.pages, size, index, vmpl, perms, vmsa);
        Ok(())
    }
}

impl Scene for PlainRmp {
    fn word(&self, gpa: Gpa) -> u64 {
        self.words.word(gpa)
    }

    fn touched(&self, page: Page) -> bool {
        self.words.has_word(page)
    }

    fn guest_read(&self, vmpl: Vmpl, gpa: Gpa) -> Option<u64> {
        if self.guest_may(1, vmpl, gpa) {
            Some(self.words.word(gpa))
        } else {
            None
        }
    }

    fn guest_write(&mut self, vmpl: Vmpl, gpa: Gpa, word: u64) -> bool {
        let may = self.guest_may(2, vmpl, gpa);
        if may {
            self.words.set(gpa, word);
        }
        may
    }

    fn guest_adjust(&mut self, vmpl: Vmpl, page: Page, target: u8, mask: u8) -> bool {
        let may = self.guest_may_adjust(vmpl, page, target, mask);
        if may {
            let index = index_of(page);
            self.pages[index] = with_right(self.pages[index], Vmpl(target), Perms(mask));
            self.large = false;
        }
        may
    }

    fn set_assigned(&mut self, page: Page, size: Size, on: bool) {
        assign(&mut self.pages, size, index_of(page), on);
        self.large = matches!(size, Size::Large);
    }
}
