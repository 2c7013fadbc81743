//! What is tried where all lines have been read.
ghost use Rattle.std.specs.Prelude.{◌≡◌, ◌≤◌, ◌<◌, ◌*◌, ◌&&◌, ◌||◌, nat_lt, not, length};
ghost use Rattle.std.specs.List.{list_all, list_any};
ghost use Rattle.svsm_steps.specs.Image.{range_of, owner_in, is_held_large, pages_of};
ghost use Rattle.svsm_steps.specs.Sound.{is_accepted, has_vmsa};
ghost use Rattle.image_grammar.specs.Told.{holds, Tells};
ghost use Rattle.image_grammar.specs.End.{state_in, rights_in, are_alike, are_same, is_vmsa_page, is_even, are_even, is_module_assigned, is_guest_shared, are_free, same, are_seats, end_told};
ghost use Rattle.image_reader.specs.Draft.{IsDraft};

use crate::draft::{Draft, is_seat};
use crate::told::holds;
use image_grammar::{ImageKind, LineError};
use std::alloc::Global;
use svsm_types::{HwState, Owner, Page, Range};

pub fn owner_in(range: Option<Range>) -> Owner
    ensures { result ≡ owner_in range }
{
    match range {
        None => Owner::Guest,
        Some(range) => range.owner,
    }
}

fn state_in(range: Option<Range>) -> HwState
    ensures { result ≡ state_in range }
{
    match range {
        None => HwState::Shared,
        Some(range) => range.state,
    }
}

fn rights_in(range: Option<Range>) -> u16
    ensures { result ≡ rights_in range }
{
    match range {
        None => 0,
        Some(range) => range.rights,
    }
}

fn are_alike(a: Option<Range>, b: Option<Range>) -> bool
    ensures { result ≡ are_alike a b }
{
    owner_in(a) == owner_in(b) && state_in(a) == state_in(b) && rights_in(a) == rights_in(b)
}

fn is_vmsa(page: Option<Range>) -> bool
    ensures { result ≡ is_vmsa_page page }
{
    owner_in(page) == Owner::Vmsa
}

fn is_module_assigned(page: Option<Range>) -> bool
    ensures { result ≡ is_module_assigned page }
{
    owner_in(page) == Owner::Module && state_in(page) == HwState::Assigned
}

fn is_guest_shared(page: Option<Range>) -> bool
    ensures { result ≡ is_guest_shared page }
{
    owner_in(page) == Owner::Guest && state_in(page) == HwState::Shared
}

impl Draft {
    // Whether the pages of a region are alike.
    fn are_same(&self, region: u64) -> bool
        requires whole { IsDraft self.now }
        requires within { region < self.now.image.regions }
        ensures { result ≡ are_same self.now.image region }
    {
        let first = 512 * region as usize;
        let page = self.ranges[first];
        self.ranges[first..first + 512]
            .iter()
            .all(|other| are_alike(page, *other))
    }

    // The range of a page of the map.
    pub fn range_at(&self, page: u64) -> Option<Range>
        requires whole { IsDraft self.now }
        requires within { page < 512 * self.now.image.regions }
        ensures { result ≡ range_of self.now.image page }
    {
        self.ranges[page as usize]
    }

    // Whether a page of the map is accepted.
    fn is_accepted(&self, page: u64) -> bool
        requires whole { IsDraft self.now }
        requires within { page < 512 * self.now.image.regions }
        ensures { result ≡ is_accepted self.now.image page }
    {
        self.accepts[page as usize]
    }

    // Whether a region of the map is held as 2M.
    pub fn is_large(&self, region: u64) -> bool
        requires whole { IsDraft self.now }
        requires within { region < self.now.image.regions }
        ensures { result ≡ is_held_large self.now.image region }
    {
        self.large[region as usize]
    }

    // Whether the pages of a region are alike, and none is of a vCPU.
    fn is_even(&self, region: u64) -> bool
        requires whole { IsDraft self.now }
        requires within { region < self.now.image.regions }
        ensures { result ≡ is_even self.now.image region }
    {
        self.are_same(region) && !is_vmsa(self.range_at(512 * region))
    }

    // Whether a region is even, if it is held as 2M.
    fn is_right_region(&self, region: u64) -> bool
        requires whole { IsDraft self.now }
        requires within { region < self.now.image.regions }
        ensures { result ≡ not (is_held_large self.now.image region) || is_even self.now.image region }
    {
        !self.is_large(region) || self.is_even(region)
    }

    // Whether a page is the guest's and shared, if it is accepted.
    fn is_right_accept(&self, page: u64) -> bool
        requires whole { IsDraft self.now }
        requires within { page < 512 * self.now.image.regions }
        ensures { result ≡ not (is_accepted self.now.image page) || is_guest_shared (range_of self.now.image page) }
    {
        !self.is_accepted(page) || is_guest_shared(self.range_at(page))
    }

    // Whether a page is of owner vmsa just where a core has it.
    fn is_right_seat(&self, page: u64) -> bool
        requires whole { IsDraft self.now }
        requires within { page < 512 * self.now.image.regions }
        ensures { result ≡ same (list_any (has_vmsa page) self.now.image.cores) (is_vmsa_page (range_of self.now.image page)) }
    {
        is_seat(self.image.cores.as_slice(), Page(page)) == is_vmsa(self.range_at(page))
    }

    // Whether each region that is held as 2M is even.
    fn are_even(&self) -> bool
        requires { IsDraft self.now }
        ensures { result ≡ are_even self.now.image }
    {
        'regions: for region in 0..self.image.regions {
            if !self.is_right_region(region) {
                return false;
            }
        }
        true
    }

    // Whether each accepted page is the guest's and shared.
    fn are_free(&self) -> bool
        requires { IsDraft self.now }
        ensures { result ≡ are_free self.now.image }
    {
        'pages: for page in 0..512 * self.image.regions {
            if !self.is_right_accept(page) {
                return false;
            }
        }
        true
    }

    // Whether the pages of owner vmsa are just those of the cores.
    fn are_seats(&self) -> bool
        requires { IsDraft self.now }
        ensures { result ≡ are_seats self.now.image }
    {
        'pages: for page in 0..512 * self.image.regions {
            if !self.is_right_seat(page) {
                return false;
            }
        }
        true
    }

    fn has_cores(&self) -> bool
        requires { IsDraft self.now }
        ensures { result ≡ nat_lt 0 (length self.now.image.cores) && are_seats self.now.image }
    {
        self.image.cores.len() > 0 && self.are_seats()
    }

    fn has_ghcb(&self) -> bool
        requires { IsDraft self.now }
        ensures { result ≡ is_module_assigned (range_of self.now.image self.now.image.ghcb.0) }
    {
        is_module_assigned(self.range_at(self.image.ghcb.0))
    }

    /// The tests of the whole image, in their order.
    pub fn try_end(&self, alloc: Global) -> Result<(), LineError>
        requires { IsDraft self.now }
        ensures { Tells (λ _. self.now.image) (end_told self.now.image) result }
    {
        holds(ImageKind::Large, self.are_even())?;
        holds(ImageKind::Ghcb, self.has_ghcb())?;
        holds(ImageKind::Accept, self.are_free())?;
        holds(ImageKind::Core, self.has_cores())?;
        let has_blocks = self.has_blocks(alloc)?;
        holds(ImageKind::Block, has_blocks)?;
        Ok(())
    }
}
