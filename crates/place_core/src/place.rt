//! A place, with its log and what it was made as.
ghost use Rattle.std.specs.Prelude.{◌≡◌, ◌<◌, ◌≤◌, ◌+◌, ℕ, [], map, None, Some, true, false, IfOk, IfSome, MatchOption};
ghost use Rattle.svsm_steps.specs.Mapped.{AreBlocks, AreRows};
ghost use Rattle.svsm_steps.specs.Lawful.{IsReplayOf};
ghost use Rattle.rmp_table.specs.PackedKnown.{packed_known};
ghost use Rattle.deposit_pool.specs.Pairs.{pair_of};
ghost use Rattle.place_core.specs.declared.kind.Kind.{Kind};
ghost use Rattle.place_core.specs.Kinds.{value_of, numbers_of, is_region, is_pool, is_registry, blocks_held, IsPlaced, IsMappedAt};
ghost use Rattle.place_core.specs.Numbered.{NumbersAlong};
ghost use Rattle.place_core.specs.PlaceView.{new_place};

use crate::Kind;
use crate::kinds::{act_on, room_for};
use deposit_pool::Pool;
use pool_split::SplitPool;
use region_core::Region;
use rmp_table::PackedRmp;
use std::alloc::Global;
use std::marker::Model;
use std::snapshot::Snapshot;
use svsm_steps::{Answer, Entry, Pending, PlaceState, Step};
use svsm_types::{NoMemory, Page, Size};
use vcpu_registry::Registry;

/// What a place is in memory.
#[derive(Drop)]
pub struct Kept {
    number: u64,
    regions: u64,
    kind: Kind,
    log: Vec<Entry>,
}

/// A region, the deposit pool or the registry of vCPUs, with the log of its answers since it was made.
///
/// What it was made as, the pending step and the step for which room was made are known to contracts alone. All else is behind one
/// pointer, so that a place moves in and out of the slot of its lock at the cost of a word.
#[derive(Drop)]
pub struct Place {
    kept: Box<Kept>,
    opening: Snapshot<Kind>,
    pending: Snapshot<Option<Pending>>,
    spare: Snapshot<Option<Step>>,
}

impl Model for Place {
    ghost use Rattle.place_core.specs.PlaceView.{PlaceView};

    ghost Value = { PlaceView };

    ghost use Rattle.place_core.specs.PlaceInside.{view_of, IsWhole};

    ghost view = { view_of };

    ghost invariant = { IsWhole };
}

impl Place {
    // A place with an empty log.
    pub(crate) fn begin(
        alloc: Global,
        regions: u64,
        number: u64,
        kind: Kind,
    ) -> Result<Place, NoMemory>
        requires least { 1 ≤ regions }
        requires most { regions ≤ 512 }
        requires placed { IsPlaced regions number kind }
        requires mapped { IsMappedAt regions (value_of kind) }
        ensures { IfOk result (λ place. place ≡ new_place regions number kind) }
    {
        let log = Vec::with_capacity(alloc, 1)?;
        let opening = Snapshot::of(&kind);
        let kept = Kept {
            number,
            regions,
            kind,
            log,
        };
        Ok(Place {
            kept: Box::new(alloc, kept)?,
            opening,
            pending: Snapshot::of(&None),
            spare: Snapshot::of(&None),
        })
    }

    /// The place of a region of the map, by the region's own number.
    pub fn new_region(
        alloc: Global,
        regions: u64,
        region: Region<PackedRmp>,
    ) -> Result<Place, NoMemory>
        requires most { regions ≤ 512 }
        requires within { (packed_known region.scene).region < regions }
        ensures { IfOk result (λ place. place ≡ new_place regions (packed_known region.scene).region (Kind.Region region)) }
    {
        let number = region.scene.number();
        Place::begin(alloc, regions, number, Kind::Region(region))
    }

    /// The place of the deposit pool, whose number is that of the regions.
    pub fn new_pool(alloc: Global, regions: u64, pool: Pool) -> Result<Place, NoMemory>
        requires least { 1 ≤ regions }
        requires most { regions ≤ 512 }
        requires blocks { AreBlocks regions pool.blocks }
        ensures { IfOk result (λ place. place ≡ new_place regions regions (Kind.Pool pool)) }
    {
        Place::begin(alloc, regions, regions, Kind::Pool(pool))
    }

    /// The place of a deposit pool that splits, in the place of the other.
    pub fn new_split(alloc: Global, regions: u64, pool: SplitPool) -> Result<Place, NoMemory>
        requires least { 1 ≤ regions }
        requires most { regions ≤ 512 }
        requires blocks { AreBlocks regions pool.blocks }
        ensures { IfOk result (λ place. place ≡ new_place regions regions (Kind.Split pool)) }
    {
        Place::begin(alloc, regions, regions, Kind::Split(pool))
    }

    /// The place of the registry, with the number after the pool's.
    pub fn new_registry(alloc: Global, regions: u64, registry: Registry) -> Result<Place, NoMemory>
        requires least { 1 ≤ regions }
        requires most { regions ≤ 512 }
        requires rows { AreRows regions registry.rows }
        ensures { IfOk result (λ place. place ≡ new_place regions (regions + 1) (Kind.Registry registry)) }
    {
        Place::begin(alloc, regions, regions + 1, Kind::Registry(registry))
    }

    /// The region; None where it is another place.
    pub fn region(&self) -> Option<&Region<PackedRmp>>
        ensures kind { MatchOption result (is_region self.now.kind ≡ false) (λ region. self.now.kind ≡ Kind.Region region.now) }
        ensures here { IfSome result (λ region. (packed_known region.now.scene).region ≡ self.now.number) }
    {
        match &self.kept.kind {
            Kind::Region(region) => Some(region),
            Kind::Pool(_) | Kind::Split(_) | Kind::Registry(_) => None,
        }
    }

    /// The pool that does not split; None where it is another place.
    pub fn pool(&self) -> Option<&Pool>
        ensures { MatchOption result (is_pool self.now.kind ≡ false) (λ pool. self.now.kind ≡ Kind.Pool pool.now) }
    {
        match &self.kept.kind {
            Kind::Pool(pool) => Some(pool),
            Kind::Region(_) | Kind::Split(_) | Kind::Registry(_) => None,
        }
    }

    /// The blocks of the pool, be it one that splits, from the first that was pushed.
    pub fn blocks(&self, alloc: Global) -> Result<Vec<(Page, Size)>, NoMemory>
        requires { self.now.number ≡ self.now.regions }
        ensures { IfOk result (λ blocks. blocks.items ≡ map pair_of (blocks_held self.now.kind)) }
    {
        match &self.kept.kind {
            Kind::Pool(pool) => pool.blocks(alloc),
            Kind::Split(pool) => pool.blocks(alloc),
            Kind::Region(_) | Kind::Registry(_) => unreachable!(),
        }
    }

    /// The registry; None where it is another place.
    pub fn registry(&self) -> Option<&Registry>
        ensures { MatchOption result (is_registry self.now.kind ≡ false) (λ registry. self.now.kind ≡ Kind.Registry registry.now) }
    {
        match &self.kept.kind {
            Kind::Registry(registry) => Some(registry),
            Kind::Region(_) | Kind::Pool(_) | Kind::Split(_) => None,
        }
    }

    /// The log of a place at rest. Its state and its operation numbers are those after the log, and each fault in it was due.
    pub fn rested(&self) -> &[Entry]
        requires { self.now.pending ≡ None }
        ensures log { result.now ≡ self.now.log }
        ensures replay { IsReplayOf (value_of self.now.opening) self.now.log (value_of self.now.kind) }
        ensures numbers { NumbersAlong (numbers_of self.now.opening) (value_of self.now.opening) self.now.log (numbers_of self.now.kind) }
    {
        self.kept.log.as_slice()
    }

    /// The place as it stands now, with an empty log, and the log that led to it. Want of memory gives the place up.
    pub fn reopen(self, alloc: Global) -> Result<(Place, Vec<Entry>), NoMemory>
        requires { self.pending ≡ None }
        ensures place { IfOk result (λ made. made.0 ≡ new_place self.regions self.number self.kind) }
        ensures log { IfOk result (λ made. made.1.items ≡ self.log) }
        ensures replay { IsReplayOf (value_of self.opening) self.log (value_of self.kind) }
        ensures numbers { NumbersAlong (numbers_of self.opening) (value_of self.opening) self.log (numbers_of self.kind) }
    {
        let Place {
            kept,
            opening: _,
            pending: _,
            spare: _,
        } = self;
        let kept = Box::into_inner(kept);
        let place = Place::begin(alloc, kept.regions, kept.number, kept.kind)?;
        Ok((place, kept.log))
    }
}

impl PlaceState for Place {
    ghost use Rattle.std.specs.Prelude.{◌≡◌, ◌∷◌, ◌++◌, [], Some, None, OnOk};
    ghost use Rattle.svsm_steps.specs.Formed.{IsAnswer};
    ghost use Rattle.svsm_steps.specs.Lawful.{IsAskedOf, IsAbove, IsLawful, pending_of};
    ghost use Rattle.svsm_steps.specs.declared.step.Step.{Step};
    ghost use Rattle.svsm_steps.specs.PlaceFaults.{FollowsAt};
    ghost use Rattle.place_core.specs.Kinds.{value_of, numbers_of};

    ghost number = { λ p. p.number };

    ghost regions = { λ p. p.regions };

    ghost opening = { λ p. value_of p.opening };

    ghost numbers = { λ p. numbers_of p.opening };

    ghost state = { λ p. value_of p.kind };

    ghost log = { λ p. p.log };

    ghost pending = { λ p. p.pending };

    ghost spare = { λ p. p.spare };

    #[inline(always)]
    fn reserve(&mut self, alloc: Global, step: &Step) -> Result<(), NoMemory>
        requires asked { IsAskedOf self.old.regions self.old.number step.now }
        ensures number { self.new.number ≡ self.old.number }
        ensures regions { self.new.regions ≡ self.old.regions }
        ensures opening { self.new.opening ≡ self.old.opening }
        ensures numbers { numbers_of self.new.opening ≡ numbers_of self.old.opening }
        ensures log { self.new.log ≡ self.old.log }
        ensures pending { self.new.pending ≡ self.old.pending }
        ensures state { value_of self.new.kind ≡ value_of self.old.kind }
        ensures spare { OnOk result (self.new.spare ≡ Some step.now) }
    {
        self.spare = Snapshot::of(&None);
        let kept = &mut *self.kept;
        room_for(&mut kept.kind, alloc, kept.regions, kept.number, step)?;
        kept.log.reserve(1)?;
        self.spare = Snapshot::of(&Some(*step));
        Ok(())
    }

    fn act(&mut self, core: u32, step: &Step) -> Answer
        requires asked { IsAskedOf self.old.regions self.old.number step.now }
        requires spare { self.old.spare ≡ Some step.now }
        requires none { self.old.pending ≡ None }
        ensures number { self.new.number ≡ self.old.number }
        ensures regions { self.new.regions ≡ self.old.regions }
        ensures opening { self.new.opening ≡ self.old.opening }
        ensures numbers { numbers_of self.new.opening ≡ numbers_of self.old.opening }
        ensures log { self.new.log ≡ self.old.log }
        ensures spare { self.new.spare ≡ self.old.spare }
        ensures answer { IsAnswer self.old.regions step.now result }
        ensures pending { self.new.pending ≡ Some (record { core = core; step = step.now; answer = result }) }
    {
        let kept = &mut *self.kept;
        let answer = act_on(&mut kept.kind, kept.regions, kept.number, core, step);
        let pending = Pending {
            core,
            step: *step,
            answer,
        };
        self.pending = Snapshot::of(&Some(pending));
        answer
    }

    #[inline(always)]
    fn put(&mut self, entry: Entry)
        requires spare { (step : Step) × (self.old.spare ≡ Some step) }
        requires pending { self.old.pending ≡ Some (pending_of entry) }
        requires place { entry.place ≡ self.old.number }
        requires ticket { IsAbove entry.ticket self.old.log }
        ensures number { self.new.number ≡ self.old.number }
        ensures regions { self.new.regions ≡ self.old.regions }
        ensures opening { self.new.opening ≡ self.old.opening }
        ensures numbers { numbers_of self.new.opening ≡ numbers_of self.old.opening }
        ensures log { self.new.log ≡ self.old.log ++ entry ∷ [] }
        ensures state { value_of self.new.kind ≡ value_of self.old.kind }
        ensures pending { self.new.pending ≡ None }
        ensures spare { self.new.spare ≡ None }
    {
        let kept = &mut *self.kept;
        kept.log.push_reserved(entry);
        self.pending = Snapshot::of(&None);
        self.spare = Snapshot::of(&None);
    }

    fn entries(&self) -> &[Entry]
        ensures log { result.now ≡ self.now.log }
        ensures law { IsLawful (value_of self.now.opening) self.now.log self.now.pending (value_of self.now.kind) }
        ensures due { FollowsAt (numbers_of self.now.opening) (value_of self.now.opening) self.now.log }
    {
        self.kept.log.as_slice()
    }
}
