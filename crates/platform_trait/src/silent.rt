//! A platform that hides its operation numbers.
ghost use Rattle.std.specs.Prelude.{None};

use crate::{Rmp, Scene};
use std::alloc::Global;
use svsm_types::{Faulted, Gpa, HwCode, NoMemory, Page, PageState, Perms, Size, Vmpl};

/// A platform that does what another one does, and does not tell its operation numbers: of a fault it tells only that the count rose.
#[derive(Drop)]
pub struct Silent<R>(pub R);

impl<R: Rmp> Rmp for Silent<R> {
    ghost known = { λ p. record (R.known p.0) { told = None } };

    ghost sized = { λ p. R.sized p.0 };

    fn large(&self) -> bool {
        self.0.large()
    }

    fn state(&self, page: Page) -> PageState {
        self.0.state(page)
    }

    fn room(&mut self, alloc: Global, page: Page) -> Result<(), NoMemory> {
        self.0.room(alloc, page)
    }

    fn read(&mut self, gpa: Gpa) -> Result<u64, Faulted> {
        self.0.read(gpa)
    }

    fn write(&mut self, gpa: Gpa, word: u64) -> Result<(), Faulted> {
        self.0.write(gpa, word)
    }

    fn clear(&mut self, page: Page, size: Size) -> Result<(), Faulted> {
        self.0.clear(page, size)
    }

    fn pvalidate(&mut self, page: Page, size: Size, on: bool) -> Result<HwCode, Faulted> {
        self.0.pvalidate(page, size, on)
    }

    fn rmpadjust(
        &mut self,
        page: Page,
        size: Size,
        vmpl: Vmpl,
        perms: Perms,
        vmsa: bool,
    ) -> Result<(), Faulted> {
        self.0.rmpadjust(page, size, vmpl, perms, vmsa)
    }
}

impl<R: Scene> Scene for Silent<R> {
    fn word(&self, gpa: Gpa) -> u64 {
        self.0.word(gpa)
    }

    fn touched(&self, page: Page) -> bool {
        self.0.touched(page)
    }

    fn guest_read(&self, vmpl: Vmpl, gpa: Gpa) -> Option<u64> {
        self.0.guest_read(vmpl, gpa)
    }

    fn guest_write(&mut self, vmpl: Vmpl, gpa: Gpa, word: u64) -> bool {
        self.0.guest_write(vmpl, gpa, word)
    }

    fn guest_adjust(&mut self, vmpl: Vmpl, page: Page, target: u8, mask: u8) -> bool {
        self.0.guest_adjust(vmpl, page, target, mask)
    }

    fn set_assigned(&mut self, page: Page, size: Size, on: bool) {
        self.0.set_assigned(page, size, on);
    }
}
