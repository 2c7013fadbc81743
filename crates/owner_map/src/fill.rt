//! All entries of a list, and the same of one.
ghost use Rattle.std.specs.Prelude.{◌≡◌, map};
ghost use Rattle.svsm_steps.specs.Checks.{same_owner};
ghost use Rattle.owner_map.specs.Owners.{is_marked};

use svsm_types::Owner;

pub(crate) fn is_of(one: Owner, other: Owner) -> bool
    ensures { result ≡ same_owner one other }
{
    one == other
}

pub(crate) fn is_marked(on: bool, recorded: bool) -> bool
    ensures { result ≡ is_marked on recorded }
{
    on == recorded
}

pub(crate) fn own_all(all: &mut [Owner], owner: Owner)
    ensures { all.new ≡ map (λ _. owner) all.old }
{
    'all: for one in all.iter_mut() {
        *one = owner;
    }
}

pub(crate) fn mark_all(all: &mut [bool], on: bool)
    ensures { all.new ≡ map (λ _. on) all.old }
{
    'all: for one in all.iter_mut() {
        *one = on;
    }
}
