//! The moves of a seat, one by one, and a whole step out of them.
ghost use Rattle.std.specs.Prelude.{◌≡◌, ℕ, ◌+◌, ◌^◌, ◌<◌, ◌≤◌, true, List, [], ◌∷◌, ◌++◌, length, Some, None, IfOk, OnErr};
ghost use Rattle.svsm_steps.specs.declared.entry.Entry.{Entry};
ghost use Rattle.svsm_steps.specs.Place.{place_of};
ghost use Rattle.svsm_steps.specs.Formed.{IsWellFormed, IsAnswer};
ghost use Rattle.svsm_steps.specs.Lawful.{IsAbove};
ghost use Rattle.range_locks.specs.Lines.{lock_word, slot_of};
ghost use Rattle.range_locks.specs.Plays.{ticketed};
ghost use Rattle.range_locks.specs.Views.{is_core, core_in, entries_in};
ghost use Rattle.range_locks.specs.declared.view.Hand.TheVariants.{Free, Held};
ghost use Rattle.range_locks.specs.declared.view.View.TheVariants.{Core};

use crate::lines::{lock_word, slot_of};
use crate::plays::{Draw, GiveBack, Take};
use crate::rule::{LockSeat, SharedTable};
use std::alloc::Global;
use std::sync::Wait;
use std::thread;
use std::time::Duration;
use svsm_steps::{Answer, Entry, Gate, Pending, PlaceState, Step, place_of};
use svsm_types::NoMemory;

// How long a core sleeps between two tries of a lock.
const MICROSECONDS: u64 = 50;

// Waits before the next try of a lock: a core yields once, and then sleeps.
fn wait_a_little<R: Wait>(rt: &R, yielded: bool) {
    if yielded {
        thread::Parker::new().park_timeout(rt, Duration::from_micros(MICROSECONDS));
    } else {
        thread::yield_now();
    }
}

// Takes the lock of a place, and tries until it has it. The seat then has the slot of the place.
#[inline(always)]
fn lock<P: PlaceState, R: Wait>(rt: &R, shared: &SharedTable<P>, seat: &mut LockSeat<P>, place: u64)
    requires table { seat.old.table_id ≡ shared.now.table_id }
    requires words { shared.now.table_id.words ≡ lock_word (length shared.now.key.value.items) }
    requires slots { shared.now.table_id.slots ≡ slot_of (length shared.now.key.value.items) }
    requires place { place < length shared.now.key.value.items }
    requires few { length shared.now.key.value.items < 1024 }
    requires core { is_core seat.old.me.0 ≡ true }
    requires idle { seat.old.me.1 ≡ [] }
    ensures table { (seat.new.table_id ≡ seat.old.table_id) × (seat.new.id ≡ seat.old.id) }
    ensures holds { (x : P)
        × (seat.new.me
        ≡ (Core (core_in seat.old.me.0) (entries_in seat.old.me.0) (Held place x (P.log x)), (slot_of place, Some x) ∷ []))
        × (P.number x ≡ place)
        × (P.regions x + 2 ≡ length shared.now.key.value.items)
        × (P.pending x ≡ None) }
{
    let mut yielded = false;
    for _ in rt.forever() {
        if shared.compare_exchange::<Take>(seat, lock_word(place), 0, 1) == 0 {
            return;
        }
        wait_a_little(rt, yielded);
        yielded = true;
    }
    unreachable!()
}

// Moves the place out of its slot.
#[inline(always)]
fn take_out<P: PlaceState>(shared: &SharedTable<P>, seat: &mut LockSeat<P>, place: u64) -> P
    requires table { seat.old.table_id ≡ shared.now.table_id }
    requires few { place < 1024 }
    requires slot { (x : P) × (seat.old.me.1 ≡ (slot_of place, Some x) ∷ []) }
    ensures table { (seat.new.table_id ≡ seat.old.table_id) × (seat.new.id ≡ seat.old.id) }
    ensures slot { seat.old.me.1 ≡ (slot_of place, Some result) ∷ [] }
    ensures empty { seat.new.me ≡ (seat.old.me.0, (slot_of place, None) ∷ []) }
{
    let slot = shared.exchange(seat, slot_of(place), None);
    let Some(value) = slot else { unreachable!() };
    value
}

// Moves the place back into its slot.
#[inline(always)]
fn put_in<P: PlaceState>(shared: &SharedTable<P>, seat: &mut LockSeat<P>, place: u64, value: P)
    requires table { seat.old.table_id ≡ shared.now.table_id }
    requires few { place < 1024 }
    requires slot { seat.old.me.1 ≡ (slot_of place, None) ∷ [] }
    ensures table { (seat.new.table_id ≡ seat.old.table_id) × (seat.new.id ≡ seat.old.id) }
    ensures full { seat.new.me ≡ (seat.old.me.0, (slot_of place, Some value) ∷ []) }
{
    let slot = shared.exchange(seat, slot_of(place), Some(value));
    let None = slot else { unreachable!() };
}

// Puts the place back and frees its lock.
#[inline(always)]
fn release<P: PlaceState>(shared: &SharedTable<P>, seat: &mut LockSeat<P>, place: u64, value: P)
    requires table { seat.old.table_id ≡ shared.now.table_id }
    requires words { shared.now.table_id.words ≡ lock_word (length shared.now.key.value.items) }
    requires place { place < length shared.now.key.value.items }
    requires few { length shared.now.key.value.items < 1024 }
    requires holds { (x : P)
        × (seat.old.me
        ≡ (Core (core_in seat.old.me.0) (entries_in seat.old.me.0) (Held place x (P.log value)), (slot_of place, None) ∷ []))
        × (P.number value ≡ P.number x)
        × (P.regions value ≡ P.regions x)
        × (P.opening value ≡ P.opening x)
        × (P.numbers value ≡ P.numbers x)
        × (P.pending value ≡ None) }
    ensures table { (seat.new.table_id ≡ seat.old.table_id) × (seat.new.id ≡ seat.old.id) }
    ensures idle { seat.new.me ≡ (Core (core_in seat.old.me.0) (entries_in seat.old.me.0) Free, []) }
{
    put_in(shared, seat, place, value);
    shared.store::<GiveBack>(seat, lock_word(place), 0);
}

// Draws the ticket of the pending step. The place lies in its slot meanwhile, since a seat tells nothing of a value that it
// has moved out.
#[inline(always)]
fn draw<P: PlaceState>(
    shared: &SharedTable<P>,
    seat: &mut LockSeat<P>,
    place: u64,
    value: P,
    regions: u64,
    pending: Pending,
) -> (u64, P)
    requires table { seat.old.table_id ≡ shared.now.table_id }
    requires words { shared.now.table_id.words ≡ lock_word (length shared.now.key.value.items) }
    requires regions { (regions + 2 ≡ length shared.now.key.value.items) × (regions ≤ 512) }
    requires formed { IsWellFormed regions pending.step }
    requires place { place ≡ place_of regions pending.step }
    requires few { length (entries_in seat.old.me.0) < 2 ^ 32 }
    requires pending { P.pending value ≡ Some pending }
    requires core { pending.core ≡ core_in seat.old.me.0 }
    requires holds { (x : P) × (log : List Entry)
        × (seat.old.me
        ≡ (Core (core_in seat.old.me.0) (entries_in seat.old.me.0) (Held place x log), (slot_of place, None) ∷ [])) }
    ensures table { (seat.new.table_id ≡ seat.old.table_id) × (seat.new.id ≡ seat.old.id) }
    ensures same { result.1 ≡ value }
    ensures drew { (x : P) (log : List Entry)
        → seat.old.me ≡ (Core (core_in seat.old.me.0) (entries_in seat.old.me.0) (Held place x log), (slot_of place, None) ∷ [])
        → (seat.new.me
        ≡ (
          Core (core_in seat.old.me.0) (entries_in seat.old.me.0 ++ ticketed result.0 place pending ∷ [])
              (Held place x (log ++ ticketed result.0 place pending ∷ [])),
          (slot_of place, None) ∷ [],
        ))
        × IsAbove result.0 log
        × IsAbove result.0 (entries_in seat.old.me.0)
        × (result.0 < 2 ^ 43) }
{
    put_in(shared, seat, place, value);
    let ticket = shared.fetch_add::<Draw>(seat, 0, 1);
    let value = take_out(shared, seat, place);
    (ticket, value)
}

// Makes a step of a core, which has made so many before. It waits for the step's place, and draws the ticket while it
// holds it.
#[inline(always)]
pub(crate) fn make<P: PlaceState, R: Wait, G: Gate>(
    rt: &R,
    alloc: Global,
    shared: &SharedTable<P>,
    seat: &mut LockSeat<P>,
    gate: &G,
    regions: u64,
    core: u32,
    made: u64,
    step: &Step,
) -> Result<(u64, Answer), NoMemory>
    requires table { seat.old.table_id ≡ shared.now.table_id }
    requires words { shared.now.table_id.words ≡ lock_word (length shared.now.key.value.items) }
    requires slots { shared.now.table_id.slots ≡ slot_of (length shared.now.key.value.items) }
    requires regions { (regions + 2 ≡ length shared.now.key.value.items) × (regions ≤ 512) }
    requires split { is_core seat.old.me.0 ≡ true }
    requires idle { seat.old.me.1 ≡ [] }
    requires core { core ≡ core_in seat.old.me.0 }
    requires few { length (entries_in seat.old.me.0) < 2 ^ 32 }
    requires step { IsWellFormed regions step.now }
    ensures table { (seat.new.table_id ≡ seat.old.table_id) × (seat.new.id ≡ seat.old.id) }
    ensures ok { IfOk result (λ told. seat.new.me
        ≡ (
          Core core (entries_in seat.old.me.0
              ++ ticketed told.0 (place_of regions step.now) (record { core = core; step = step.now; answer = told.1 }) ∷ [])
              Free,
          [],
        )) }
    ensures later { IfOk result (λ told. IsAbove told.0 (entries_in seat.old.me.0)) }
    ensures far { IfOk result (λ told. told.0 < 2 ^ 43) }
    ensures answer { IfOk result (λ told. IsAnswer regions step.now told.1) }
    ensures err { OnErr result (seat.new.me ≡ seat.old.me) }
{
    let place = place_of(regions, step);
    lock(rt, shared, seat, place);
    let mut value = take_out(shared, seat, place);
    if value.reserve(alloc, step).is_err() {
        release(shared, seat, place, value);
        return Err(NoMemory);
    }
    gate.pass(core, place, made);
    let answer = value.act(core, step);
    let step = *step;
    let pending = Pending { core, step, answer };
    let (ticket, mut acted) = draw(shared, seat, place, value, regions, pending);
    acted.put(Entry {
        ticket,
        core,
        place,
        step,
        answer,
    });
    release(shared, seat, place, acted);
    Ok((ticket, answer))
}
