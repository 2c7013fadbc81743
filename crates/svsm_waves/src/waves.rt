//! All waves of a run.
ghost use Rattle.std.specs.Prelude.{◌≡◌, [], map, length, All, IfOk};
ghost use Rattle.std.specs.List.{range_with_len};
ghost use Rattle.svsm_steps.specs.Sound.{IsSound};
ghost use Rattle.svsm_steps.specs.Requests.{AreScripts};
ghost use Rattle.ap_start.specs.Exits.{IsLow};
ghost use Rattle.svsm_waves.specs.InTurn.{trace_of};
ghost use Rattle.svsm_waves.specs.Told.{IsToldRun};
ghost use Rattle.svsm_waves.specs.Wave.{unstarted};

use crate::entering::enter_all;
use crate::next::next_cores;
use crate::running::run_entered;
use crate::telling::{rows_before, tell_wave};
use crate::{History, InTurn};
use ap_start::ApExit;
use std::alloc::Global;
use std::sync::Wait;
use std::thread::Threads;
use svsm_steps::{CoreEnd, CoreRun, Gate};
use svsm_types::{Image, NoMemory, Request, Sequence};

// What stands for each core before it runs.
fn unstarted(alloc: Global, image: &Image) -> Result<Vec<CoreRun>, NoMemory>
    requires { IsSound image.now }
    ensures { IfOk result (λ runs. runs.items ≡ map unstarted (range_with_len 0 (length image.now.cores))) }
{
    let mut runs = Vec::new(alloc);
    for core in 0..image.cores.len() as u32 {
        let outcomes = Sequence::new(alloc);
        let end = CoreEnd::Unstarted;
        runs.push(CoreRun {
            core,
            outcomes,
            end,
        })?;
    }
    Ok(runs)
}

/// How all waves of a run ended.
#[derive(Drop)]
pub struct Ended<'a> {
    /// The places, with their history.
    pub places: InTurn<'a>,
    /// What each core gave, in the order of the core lines.
    pub cores: Vec<CoreRun>,
    /// The exits that the host took.
    pub exits: Vec<ApExit>,
    /// What the host said where it refused one.
    pub refused: Option<(u64, u64)>,
}

/// Runs all cores, in waves. The cores of a wave run at the same time. In an image that announces its vCPUs the host is told after each
/// wave which were created and deleted, and no wave follows where it refuses an exit.
pub fn run_all<'a, R: Threads + Wait + Sync, G: Gate + Sync>(
    rt: &R,
    alloc: Global,
    gate: &G,
    first: InTurn<'a>,
    image: &Image,
    scripts: &[Sequence<Request>],
) -> Result<Ended<'a>, NoMemory>
    requires image { first.image.now ≡ image.now }
    requires sound { IsSound image.now }
    requires scripts { AreScripts scripts.now }
    requires fresh { trace_of first.past.items first.turns ≡ [] }
    ensures run { IfOk result (λ ended. IsToldRun image.now scripts.now (trace_of ended.places.past.items ended.places.turns)
        ended.cores.items ended.exits.items ended.refused) }
    ensures low { IfOk result (λ ended. All IsLow ended.exits.items) }
    ensures image { IfOk result (λ ended. ended.places.image.now ≡ image.now) }
{
    let mut places = first;
    let mut runs = unstarted(alloc, image)?;
    let mut exits = Vec::new(alloc);
    let mut ran = Vec::new(alloc);
    'waves: loop {
        let cores = next_cores(alloc, image, &ran, places.rows())?;
        let wave = cores.as_slice();
        if wave.is_empty() {
            return Ok(Ended {
                places,
                cores: runs,
                exits,
                refused: None,
            });
        }
        let before = rows_before(alloc, image, places.rows())?;
        let callers = enter_all(alloc, gate, &mut places, image, wave)?;
        let inside = callers.as_slice();
        places = run_entered(rt, alloc, gate, places, scripts, inside, &mut runs)?;
        ran.extend_from_slice(wave)?;
        let refused = tell_wave(alloc, image, &mut exits, &before, places.rows())?;
        if refused.is_some() {
            return Ok(Ended {
                places,
                cores: runs,
                exits,
                refused,
            });
        }
    }
}
