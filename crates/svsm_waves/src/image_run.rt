//! The run of an image.
ghost use Rattle.std.specs.Prelude.{◌≡◌, ◌⊎◌, Err, All, IfOk, IfErr, OnOk};
ghost use Rattle.svsm_steps.specs.State.{rmp_rows};
ghost use Rattle.svsm_steps.specs.Machine.{state_after};
ghost use Rattle.svsm_steps.specs.Image.{constants_of, booted};
ghost use Rattle.svsm_steps.specs.Safe.{AlwaysSafe};
ghost use Rattle.svsm_steps.specs.Sound.{IsSound};
ghost use Rattle.svsm_steps.specs.Requests.{AreScripts};
ghost use Rattle.svsm_calls.specs.Run.{IsRun};
ghost use Rattle.ap_start.specs.Exits.{IsLow, taken, refused_exit};
ghost use Rattle.svsm_waves.specs.InTurn.{AreBegun, StandFor};
ghost use Rattle.boot_core.specs.Boots.{BootEnds, Boots};

use crate::InTurn;
use crate::waves::{Ended, run_all};
use ap_start::ApExit;
use boot_core::BootError;
use place_core::Place;
use std::alloc::Global;
use std::sync::Wait;
use std::thread::Threads;
use svsm_steps::{CoreRun, Entry, Gate};
use svsm_types::{Image, NoMemory, Request, RmpRow, Sequence};

/// A run: its history, what each core gave, all that stands at its end, and what the host was told.
#[derive(Drop)]
pub struct ImageRun {
    pub trace: Sequence<Entry>,
    pub cores: Sequence<CoreRun>,
    /// All that stands of each page, in the order of the pages.
    pub rows: Sequence<RmpRow>,
    /// The regions, the pool and the registry, with empty logs.
    pub places: Vec<Place>,
    /// The exits by which the host learned of the vCPUs, up to the one that it refused.
    pub exits: Sequence<ApExit>,
    /// Both info values of the refused one.
    pub refused: Option<(u64, u64)>,
}

/// Boots an image against the host of its lines, and runs the scripts on its cores: the i-th script is that of core i, and a core
/// without one has no requests. The cores of a wave run at the same time, and each passes the gate before each step. In an image that
/// announces its vCPUs the host of the lines is told of them after each wave, and the run ends where it refuses an exit. An error is that
/// of the boot, or want of memory.
pub fn run_image<R: Threads + Wait + Sync, G: Gate + Sync>(
    rt: &R,
    alloc: Global,
    image: &Image,
    scripts: &[Sequence<Request>],
    gate: &G,
) -> Result<ImageRun, BootError>
    requires sound { IsSound image.now }
    requires scripts { AreScripts scripts.now }
    ensures boots { OnOk result (Boots image.now) }
    ensures run { IfOk result (λ run. (is : IsRun image.now scripts.now run.trace run.cores)
        × (run.exits ≡ taken image.now is.exits) × (run.refused ≡ refused_exit image.now is.exits)) }
    ensures low { IfOk result (λ run. All IsLow run.exits) }
    ensures safe { IfOk result (λ run. AlwaysSafe (constants_of image.now) (booted image.now) run.trace) }
    ensures rows { IfOk result (λ run. run.rows
        ≡ rmp_rows image.now.regions (state_after (constants_of image.now) (booted image.now) run.trace)) }
    ensures places { IfOk result (λ run. AreBegun image.now run.places.items) }
    ensures stand { IfOk result (λ run. StandFor image.now run.trace run.places.items) }
    ensures refused { IfErr result (λ error. (error ≡ BootError.NoMemory) ⊎ BootEnds image.now (Err error)) }
{
    let places = InTurn::of_image(alloc, image)?;
    let ended = run_all(rt, alloc, gate, places, image, scripts)?;
    let Ended {
        places,
        cores,
        exits,
        refused,
    } = ended;
    let rows = places.page_rows(alloc)?;
    let (trace, places) = places.into_parts(alloc)?;
    Ok(ImageRun {
        trace: Sequence::from_vec(trace),
        cores: Sequence::from_vec(cores),
        rows: Sequence::from_vec(rows),
        places,
        exits: Sequence::from_vec(exits),
        refused,
    })
}
