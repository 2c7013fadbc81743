//! What is asked of the table. `Small` speaks of the page at an index, `Large` of all 512.
ghost use Rattle.std.specs.Prelude.{◌≡◌, ◌<◌, false, not, slice_index_or, find};
ghost use Rattle.std.specs.List.{list_all};
ghost use Rattle.svsm_types.specs.Pages.{changed_at, covered};
ghost use Rattle.svsm_steps.specs.Checks.{same_owner};
ghost use Rattle.owner_map.specs.Owners.{is_marked};

use crate::OwnerMap;
use crate::fill::{is_marked, is_of, mark_all, own_all};
use svsm_types::{Owner, Size};

impl OwnerMap {
    /// The owner of the page at an index.
    pub fn owner(&self, at: usize) -> Owner
        requires { at < 512 }
        ensures { result ≡ slice_index_or self.now.owner at Owner.Guest }
    {
        self.owners[at]
    }

    /// Whether the page at an index is recorded.
    pub fn recorded(&self, at: usize) -> bool
        requires { at < 512 }
        ensures { result ≡ slice_index_or self.now.recorded at false }
    {
        self.recorded[at]
    }

    /// Makes it the owner of the page, or of all.
    pub fn set_owner(&mut self, at: usize, size: Size, owner: Owner)
        requires { at < 512 }
        ensures { self.new ≡ record self.old { owner = changed_at Owner.Guest size at (λ _. owner) self.old.owner } }
    {
        match size {
            Size::Small => self.owners[at] = owner,
            Size::Large => own_all(&mut self.owners, owner),
        }
    }

    /// Records the page, or all, as validated or as not.
    pub fn set_recorded(&mut self, at: usize, size: Size, on: bool)
        requires { at < 512 }
        ensures { self.new ≡ record self.old { recorded = changed_at false size at (λ _. on) self.old.recorded } }
    {
        match size {
            Size::Small => self.recorded[at] = on,
            Size::Large => mark_all(&mut self.recorded, on),
        }
    }

    /// Whether the page, or each, has this owner.
    pub fn all_are(&self, at: usize, size: Size, owner: Owner) -> bool
        requires { at < 512 }
        ensures { result ≡ list_all (λ one. same_owner one owner) (covered Owner.Guest size at self.now.owner) }
    {
        match size {
            Size::Small => is_of(self.owners[at], owner),
            Size::Large => self.owners.iter().all(|one| is_of(*one, owner)),
        }
    }

    /// The first owner of the page, or of all, that is another.
    pub fn first_other(&self, at: usize, size: Size, owner: Owner) -> Option<Owner>
        requires { at < 512 }
        ensures { result ≡ find (λ one. not (same_owner one owner)) (covered Owner.Guest size at self.now.owner) }
    {
        match size {
            Size::Small => {
                let one = self.owners[at];
                if is_of(one, owner) { None } else { Some(one) }
            }
            Size::Large => self.owners.iter().copied().find(|one| !is_of(*one, owner)),
        }
    }

    /// Whether the page, or each, is recorded, or is not.
    pub fn all_recorded(&self, at: usize, size: Size, on: bool) -> bool
        requires { at < 512 }
        ensures { result ≡ list_all (is_marked on) (covered false size at self.now.recorded) }
    {
        match size {
            Size::Small => is_marked(on, self.recorded[at]),
            Size::Large => self.recorded.iter().all(|one| is_marked(on, *one)),
        }
    }
}
