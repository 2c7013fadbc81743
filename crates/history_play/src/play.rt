//! Playing the entries of a report.
ghost use Rattle.std.specs.Prelude.{◌≡◌, ◌*◌, ◌≤◌, ◌⊎◌, None, Some, IfOk, IfErr, MatchOption};
ghost use Rattle.svsm_steps.specs.State.{rmp_rows};
ghost use Rattle.svsm_steps.specs.Machine.{state_after};
ghost use Rattle.svsm_steps.specs.DueFaults.{FollowsPlatform};
ghost use Rattle.svsm_steps.specs.Formed.{IsWellFormed, AreWellFormed};
ghost use Rattle.svsm_steps.specs.Sound.{IsSound};
ghost use Rattle.svsm_steps.specs.Image.{booted, booted_numbers, constants_of as constants_in};
ghost use Rattle.machine_core.specs.Played.{Played};
ghost use Rattle.machine_core.specs.Standing.{booted_of, standing_of};
ghost use Rattle.machine_core.specs.Views.{constants_of, state_of};
ghost use Rattle.history_play.specs.declared.play.PlayFailure.TheVariants as failures;
ghost use Rattle.history_play.specs.Plays.{BreaksPlay, BreaksDue};
ghost use Rattle.history_play.specs.Fails.{FailsSo, PlaysOne, FailsOne, undue_after};

use machine_core::{Machine, PlayError};
use std::alloc::Global;
use svsm_steps::Entry;
use svsm_types::{Image, NoMemory, Page, RmpRow};

/// The machine after a history, and the first entry of it that does not fault as it is due to.
#[derive(Drop)]
pub struct AfterPlay {
    pub machine: Machine,
    pub undue: Option<u64>,
}

/// Why the entries were not played to their end.
#[derive(Clone, Copy, Debug, PartialEq, Eq)]
pub enum PlayFailure {
    /// The entry with this index has a wrong ticket, a wrong place, or an answer that the machine does not give.
    Entry(u64),
    NoMemory,
}

impl From<NoMemory> for PlayFailure {
    ghost use Rattle.std.specs.Prelude.{◌≡◌};
    ghost use Rattle.history_play.specs.declared.play.PlayFailure.TheVariants.{NoMemory as none};

    ghost from_gives = { λ _ e. e ≡ none };

    fn from(_: NoMemory) -> Self {
        PlayFailure::NoMemory
    }
}

// Why the entry with this index is not followed.
fn failing(at: u64, error: PlayError) -> PlayFailure
    ensures { FailsSo at error result }
{
    match error {
        PlayError::NoMemory => PlayFailure::NoMemory,
        _ => PlayFailure::Entry(at),
    }
}

// The first undue index, with that of one entry more.
fn undue_after(one: Option<u64>, due: bool, at: u64) -> Option<u64>
    ensures { result ≡ undue_after one due at }
{
    match one {
        Some(first) => Some(first),
        None => { if due { None } else { Some(at) } }
    }
}

// Plays one entry: the first entry that does not fault as it is due to, with this one.
fn play_one(
    alloc: Global,
    machine: &mut Machine,
    at: u64,
    entry: &Entry,
    undue: Option<u64>,
) -> Result<Option<u64>, PlayFailure>
    requires { IsWellFormed (constants_of machine.old).regions entry.now.step }
    ensures ok { IfOk result (PlaysOne at entry.now undue (standing_of machine.old) (standing_of machine.new)) }
    ensures err { IfErr result (FailsOne at entry.now (standing_of machine.old)) }
{
    let due = machine.is_due(entry);
    match machine.follow(alloc, at, entry) {
        Ok(_) => Ok(undue_after(undue, due, at)),
        Err(error) => Err(failing(at, error)),
    }
}

/// Plays the entries from the booted machine of an image.
pub fn play_entries(
    alloc: Global,
    image: &Image,
    entries: &[Entry],
) -> Result<AfterPlay, PlayFailure>
    requires image { IsSound image.now }
    requires formed { AreWellFormed image.now.regions entries.now }
    ensures played { IfOk result (λ after. Played entries.now (booted_of image.now) (standing_of after.machine)) }
    ensures due { IfOk result (λ after. MatchOption after.undue
        (FollowsPlatform (constants_in image.now) (booted_numbers image.now) (booted image.now) entries.now)
        (BreaksDue (constants_in image.now) 0 (booted_numbers image.now) (booted image.now) entries.now)) }
    ensures constants { IfOk result (λ after. constants_of after.machine ≡ constants_in image.now) }
    ensures err { IfErr result (λ error. (error ≡ failures.NoMemory)
        ⊎ ((at : _) × (error ≡ failures.Entry at) × BreaksPlay (constants_in image.now) 0 (booted image.now) entries.now at)) }
{
    let mut machine = Machine::of_image(alloc, image)?;
    let mut undue = None;
    let mut at = 0;
    for entry in entries {
        match play_one(alloc, &mut machine, at, entry, undue) {
            Ok(next) => undue = next,
            Err(failure) => return Err(failure),
        }
        at += 1;
    }
    Ok(AfterPlay { machine, undue })
}

/// All that stands of each page of a machine.
pub fn rows_of(alloc: Global, machine: &Machine, regions: u64) -> Result<Vec<RmpRow>, NoMemory>
    requires few { regions ≤ 512 }
    requires all { (constants_of machine.now).regions ≡ regions }
    ensures { IfOk result (λ rows. rows.items ≡ rmp_rows regions (state_of machine.now)) }
{
    let mut rows = Vec::new(alloc);
    for page in 0..512 * regions {
        rows.push(machine.row(Page(page)))?;
    }
    Ok(rows)
}
