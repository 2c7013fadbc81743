//! The check of a report.
ghost use Rattle.std.specs.Prelude.{◌≡◌, ◌≤◌, ◌⊎◌, false, All, Result, Ok, Err, IfOk, IfErr, MatchOption};
ghost use Rattle.svsm_steps.specs.Image.{booted, booted_numbers, constants_of};
ghost use Rattle.svsm_steps.specs.Machine.{IsRunFrom};
ghost use Rattle.svsm_steps.specs.DueFaults.{FollowsPlatform};
ghost use Rattle.svsm_steps.specs.Formed.{AreWellFormed};
ghost use Rattle.svsm_steps.specs.Sound.{IsSound};
ghost use Rattle.svsm_steps.specs.Requests.{AreScripts};
ghost use Rattle.svsm_text.specs.Lines.{lines};
ghost use Rattle.machine_core.specs.Played.{Played};
ghost use Rattle.machine_core.specs.Standing.{booted_of, standing_of};
ghost use Rattle.machine_core.specs.Views.{constants_of as machine_constants};
ghost use Rattle.history_play.specs.Plays.{BreaksDue};
ghost use Rattle.history_reader.specs.Texts.{HistoryIs};
ghost use Rattle.report.specs.Report.{report_text};
ghost use Rattle.ap_start.specs.Exits.{IsLow};
ghost use Rattle.ap_start.specs.Text.{ap_text};
ghost use Rattle.run_order.specs.Orders.{IsWhole};
ghost use Rattle.report_check.specs.declared.error.CheckError.{CheckError};
ghost use Rattle.report_check.specs.declared.error.CheckError.TheVariants as errors;
ghost use Rattle.report_check.specs.Check.{Checks, IsRunText};
ghost use Rattle.report_check.specs.Fails.{FailsReport, FailsPlay, FailsOrder};

use crate::error::CheckError;
use crate::text::text_difference;
use history_play::{AfterPlay, PlayFailure, play_entries, rows_of};
use history_reader::{HistoryError, read_history};
use run_order::{Order, WholeOrder, order_of};
use std::alloc::Global;
use svsm_steps::Entry;
use svsm_types::{Image, NoMemory, Request, RmpRow, Sequence};

// The entries of the history part.
fn entries_of(alloc: Global, regions: u64, report: &[u8]) -> Result<Vec<Entry>, CheckError>
    requires { regions ≤ 512 }
    ensures part { IfOk result (λ entries. HistoryIs regions (lines report.now) entries.items) }
    ensures formed { IfOk result (λ entries. AreWellFormed regions entries.items) }
    ensures err { IfErr result (FailsReport regions report.now) }
{
    match read_history(alloc, regions, report) {
        Ok(entries) => Ok(entries),
        Err(HistoryError::Line(line)) => Err(CheckError::Report { line }),
        Err(HistoryError::NoMemory) => Err(CheckError::NoMemory),
    }
}

// The machine after the entries.
fn played(alloc: Global, image: &Image, entries: &[Entry]) -> Result<AfterPlay, CheckError>
    requires image { IsSound image.now }
    requires formed { AreWellFormed image.now.regions entries.now }
    ensures played { IfOk result (λ after. Played entries.now (booted_of image.now) (standing_of after.machine)) }
    ensures due { IfOk result (λ after. MatchOption after.undue
        (FollowsPlatform (constants_of image.now) (booted_numbers image.now) (booted image.now) entries.now)
        (BreaksDue (constants_of image.now) 0 (booted_numbers image.now) (booted image.now) entries.now)) }
    ensures constants { IfOk result (λ after. machine_constants after.machine ≡ constants_of image.now) }
    ensures err { IfErr result (FailsPlay image.now entries.now) }
{
    match play_entries(alloc, image, entries) {
        Ok(after) => Ok(after),
        Err(PlayFailure::Entry(ticket)) => Err(CheckError::Play { ticket }),
        Err(PlayFailure::NoMemory) => Err(CheckError::NoMemory),
    }
}

// What the cores gave, and what the host was told.
fn whole_order(
    alloc: Global,
    image: &Image,
    scripts: &[Sequence<Request>],
    entries: &[Entry],
) -> Result<WholeOrder, CheckError>
    requires sound { IsSound image.now }
    requires scripts { AreScripts scripts.now }
    requires formed { AreWellFormed image.now.regions entries.now }
    requires legal { IsRunFrom (constants_of image.now) 0 (booted image.now) entries.now }
    ensures ok { IfOk result (IsWhole image.now scripts.now entries.now) }
    ensures err { IfErr result (FailsOrder image.now scripts.now entries.now) }
{
    match order_of(alloc, image, scripts, entries)? {
        Order::Whole(order) => Ok(order),
        Order::Breaks(ticket) => Err(CheckError::Order { ticket }),
    }
}

fn try_report(
    alloc: Global,
    image: &Image,
    scripts: &[Sequence<Request>],
    report: &[u8],
) -> Result<(), CheckError>
    requires image { IsSound image.now }
    requires scripts { AreScripts scripts.now }
    ensures { Checks image.now scripts.now report.now result }
{
    let entries = entries_of(alloc, image.regions, report)?;
    let after = played(alloc, image, &entries)?;
    if let Some(ticket) = after.undue {
        return Err(CheckError::Due { ticket });
    }
    let order = whole_order(alloc, image, scripts, &entries)?;
    let rows = rows_of(alloc, &after.machine, image.regions)?;
    match text_difference(alloc, report, &order, &entries, &rows)? {
        None => Ok(()),
        Some(at) => Err(CheckError::Text { at: at as u64 }),
    }
}

/// Checks that a report is the text of a run of an image with these scripts, with its history. It does not trust the report: it plays
/// the entries that the report tells on the plain machine, follows each core through its script, and prints the run anew.
pub fn check_report(
    alloc: Global,
    image: &Image,
    scripts: &[Sequence<Request>],
    report: &[u8],
) -> Result<(), CheckError>
    requires image { IsSound image.now }
    requires scripts { AreScripts scripts.now }
    ensures checks { Checks image.now scripts.now report.now result }
    ensures yes { IsRunText image.now scripts.now report.now → (result ≡ Ok tt) ⊎ (result ≡ Err errors.NoMemory) }

    // No other answer has its cause, so each comes exactly where it has it; want of memory aside.
    ensures only { (other : Result (Unit {0}) CheckError) → Checks image.now scripts.now report.now other
        → (result ≡ other) ⊎ ((result ≡ Err errors.NoMemory) ⊎ (other ≡ Err errors.NoMemory)) }
{
    try_report(alloc, image, scripts, report)
}
