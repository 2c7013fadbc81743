//! The host is told after a wave which vCPUs it created and deleted.
ghost use Rattle.std.specs.Prelude.{◌≡◌, ◌+◌, ◌++◌, ◌<◌, ◌^◌, true, List, Option, None, All, IfOk, OnOk, map, length};
ghost use Rattle.svsm_steps.specs.Announced.{Announced, refused_at};
ghost use Rattle.svsm_steps.specs.Sound.{IsSound};
ghost use Rattle.ap_start.specs.Exits.{IsLow, exit_of};
ghost use Rattle.ap_start.specs.Due.{end_by};
ghost use Rattle.svsm_waves.specs.Told.{AreRegistered, told_between, IsTold, taken_by, said_by, EndsWithin};

use ap_start::{ApError, ApExit, announce, differences};
use boot_core::HostSim;
use ghcb_page::GhcbPage;
use std::alloc::Global;
use svsm_types::{Image, NoMemory, Row};

/// A copy of the rows before a wave, where the host is told what becomes of them.
pub(crate) fn rows_before(alloc: Global, image: &Image, rows: &[Row]) -> Result<Vec<Row>, NoMemory>
    ensures { IfOk result (λ kept. image.now.announce ≡ true → kept.items ≡ rows.now) }
{
    if !image.announce {
        return Ok(Vec::new(alloc));
    }
    Ok(Vec::from_slice(alloc, rows)?)
}

// Makes the exits behind a wave against the host of the image's lines, which took `number` exits before: how they end.
fn make_exits(
    alloc: Global,
    image: &Image,
    number: u64,
    exits: &[ApExit],
) -> Result<Result<(), ApError>, NoMemory>
    requires low { All IsLow exits.now }
    requires few { number + length exits.now < 2 ^ 64 }
    ensures { IfOk result (λ end. (told : List Announced) → exits.now ≡ map (exit_of image.now.cores) told
        → end ≡ end_by image.now.host number (refused_at image.now.host number told)) }
{
    let mut page = GhcbPage::new(alloc)?;
    let mut host = HostSim::behind(alloc, image, number)?;
    Ok(announce(&mut page, &mut host, image.features, exits))
}

// Adds the exits that the host took: what it said where it refused the one behind them.
fn take_exits(
    exits: &mut Vec<ApExit>,
    news: &[ApExit],
    end: Result<(), ApError>,
) -> Result<Option<(u64, u64)>, NoMemory>
    requires { EndsWithin (length news.now) end }
    ensures taken { OnOk result (exits.new.items ≡ exits.old.items ++ taken_by end news.now) }
    ensures said { IfOk result (λ said. said ≡ said_by end) }
{
    match end {
        Ok(()) => {
            exits.extend_from_slice(news)?;
            Ok(None)
        }
        Err(
            ApError::Said {
                index,
                info1,
                info2,
            },
        ) => {
            exits.extend_from_slice(&news[..index as usize])?;
            Ok(Some((info1, info2)))
        }
    }
}

/// Tells the host what a wave created and deleted, in an image that announces it: adds the exits that it took, and gives what it said
/// where it refused one.
pub(crate) fn tell_wave(
    alloc: Global,
    image: &Image,
    exits: &mut Vec<ApExit>,
    before: &[Row],
    after: &[Row],
) -> Result<Option<(u64, u64)>, NoMemory>
    requires sound { IsSound image.now }
    requires before { image.now.announce ≡ true → AreRegistered image.now before.now }
    requires after { AreRegistered image.now after.now }
    requires low { All IsLow exits.old.items }
    ensures told { IfOk result (λ refused. (told : List Announced) → IsTold image.now told exits.old.items None
        → IsTold image.now (told ++ told_between image.now before.now after.now) exits.new.items refused) }
    ensures low { OnOk result (All IsLow exits.new.items) }
{
    if !image.announce {
        return Ok(None);
    }
    let news = differences(alloc, image.cores.as_slice(), before, after)?;
    let end = make_exits(alloc, image, exits.len() as u64, &news)?;
    take_exits(exits, &news, end)
}
