//! The operations of the packed form.
ghost use Rattle.std.specs.Prelude.{◌≡◌, ◌≤◌, true};
ghost use Rattle.svsm_types.specs.Hardware.{pvalidate_answer, after_pvalidate, after_rmpadjust, does_change, fits, with_right, with_vmsa, with_validity};
ghost use Rattle.rmp_word.specs.Packed.{HasRights};
ghost use Rattle.rmp_table.specs.PackedKnown.{code_of, packed_hw, packed_known};
ghost use Rattle.rmp_table.specs.Sized.{sized};

use crate::PackedRmp;
use crate::cells::index_of;
use platform_trait::Rmp;
use std::alloc::Global;
use svsm_types::{Faulted, Gpa, HwCode, NoMemory, Page, PageState, Perms, Size, Vmpl, page_of};

// What PVALIDATE answers at a page, or at the pages of a 2M entry.
fn code_at(page: &PageState, on: bool) -> HwCode
    ensures { result ≡ code_of page.now on }
{
    if !page.assigned {
        HwCode::Fail(1)
    } else if page.validated == on {
        HwCode::Unchanged
    } else {
        HwCode::Changed
    }
}

#[inline(always)]
fn adjusted(page: PageState, vmpl: Vmpl, right: Perms, vmsa: bool) -> PageState
    requires vmpl { (1 ≤ vmpl.0) × (vmpl.0 ≤ 3) }
    requires right { right.0 ≤ 15 }
    requires rights { HasRights page }
    ensures value { result ≡ with_vmsa vmsa (with_right vmpl.0 right.0 page) }
    ensures rights { HasRights result }
{
    let mut rights = page.rights;
    rights[vmpl.0 as usize - 1] = right;
    PageState {
        rights,
        vmsa,
        ..page
    }
}

fn with_validity(page: PageState, on: bool) -> PageState
    requires { HasRights page }
    ensures value { result ≡ with_validity on page }
    ensures rights { HasRights result }
{
    PageState {
        validated: on,
        ..page
    }
}

fn changes(code: HwCode) -> bool
    ensures { result ≡ does_change code }
{
    matches!(code, HwCode::Changed)
}

impl PackedRmp {
    // What PVALIDATE answers.
    #[inline(always)]
    fn code(&self, page: Page, size: Size, on: bool) -> HwCode
        ensures { result ≡ pvalidate_answer size page.0 on (packed_hw self.now) }
    {
        if !self.fits(size) {
            return HwCode::Fail(6);
        }
        code_at(&self.at(index_of(page)), on)
    }

    // What it does to the pages. A 2M entry is split by an operation in 4K, whatever the answer.
    #[inline(always)]
    fn set_validity(&mut self, page: Page, size: Size, on: bool, code: HwCode)
        requires { code ≡ pvalidate_answer size page.0 on (packed_hw self.old) }
        ensures { packed_known self.new ≡ record (packed_known self.old)
            { hw = after_pvalidate size page.0 on (packed_hw self.old) } }
    {
        if changes(code) {
            let index = index_of(page);
            let state = self.at(index);
            self.put(size, index, &with_validity(state, on));
        } else {
            self.split_for(size);
        }
    }

    // What RMPADJUST does where it does not fault.
    #[inline(always)]
    fn set_rights(&mut self, page: Page, size: Size, vmpl: Vmpl, right: Perms, vmsa: bool)
        requires fits { fits size (packed_hw self.old).large ≡ true }
        requires vmpl { (1 ≤ vmpl.0) × (vmpl.0 ≤ 3) }
        requires right { right.0 ≤ 15 }
        ensures { packed_known self.new ≡ record (packed_known self.old)
            { hw = after_rmpadjust size page.0 vmpl.0 right.0 vmsa (packed_hw self.old) } }
    {
        let index = index_of(page);
        let state = self.at(index);
        self.put(size, index, &adjusted(state, vmpl, right, vmsa));
    }
}

impl Rmp for PackedRmp {
    ghost known = { packed_known };

    ghost sized = { λ p. sized p.head p.entries.items p.sized };

    fn large(&self) -> bool {
        self.head.is_some()
    }

    #[inline(always)]
    fn state(&self, page: Page) -> PageState {
        self.at(index_of(page))
    }

    fn room(&mut self, _alloc: Global, page: Page) -> Result<(), NoMemory> {
        self.words.room(page)
    }

    #[inline(always)]
    #[tactic(auto, unfolding(svsm_types::specs::Hardware::word_faults))]
    fn read(&mut self, gpa: Gpa) -> Result<u64, Faulted> {
        let faults = !self.is_usable_at(index_of(page_of(gpa)));
        self.begin(faults)?;
        Ok(self.words.word(gpa))
    }

    #[inline(always)]
    #[tactic(auto, unfolding(svsm_types::specs::Hardware::word_faults))]
    fn write(&mut self, gpa: Gpa, word: u64) -> Result<(), Faulted> {
        let faults = !self.is_usable_at(index_of(page_of(gpa)));
        self.begin(faults)?;
        self.words.set(gpa, word);
        Ok(())
    }

    #[inline(always)]
    fn clear(&mut self, page: Page, size: Size) -> Result<(), Faulted> {
        let faults = self.clear_faults(page, size);
        self.begin(faults)?;
        self.words.clear(page, size);
        Ok(())
    }

    #[inline(always)]
    fn pvalidate(&mut self, page: Page, size: Size, on: bool) -> Result<HwCode, Faulted> {
        let code = self.code(page, size, on);
        self.begin(false)?;
        self.set_validity(page, size, on, code);
        Ok(code)
    }

    #[inline(always)]
    fn rmpadjust(
        &mut self,
        page: Page,
        size: Size,
        vmpl: Vmpl,
        perms: Perms,
        vmsa: bool,
    ) -> Result<(), Faulted> {
        let faults = self.adjust_faults(page, size);
        self.begin(faults)?;
        self.set_rights(page, size, vmpl, perms, vmsa);
        Ok(())
    }
}
