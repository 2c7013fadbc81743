//! A report against the text of a run. The text is made piece by piece, and never held whole.
ghost use Rattle.std.specs.Prelude.{◌≡◌, ◌≤◌, ◌++◌, ◌∷◌, [], false, All, IfOk, IfErr, MatchOption, OnOk, codes, flat_map, length};
ghost use Rattle.svsm_text.specs.Numbers.{number};
ghost use Rattle.report.specs.Text.{line};
ghost use Rattle.report.specs.History.{entry_line};
ghost use Rattle.report.specs.Report.{cores_text, report_text};
ghost use Rattle.report.specs.Pages.{pages_text};
ghost use Rattle.ap_start.specs.Exits.{IsLow};
ghost use Rattle.ap_start.specs.Text.{ap_text};
ghost use Rattle.history_play.specs.Differs.{DiffersAt};
ghost use Rattle.report_check.specs.Agrees.{Agrees};

use ap_start::put_ap;
use history_play::first_difference;
use report::{entry_before, put_newline, put_number, put_report, put_rmp, put_text};
use run_order::WholeOrder;
use std::alloc::Global;
use svsm_steps::{CoreRun, Entry};
use svsm_types::{NoMemory, RmpRow};

// The same, byte by byte.
fn agree_bytes(report: &[u8], at: usize, piece: &[u8]) -> Result<usize, usize>
    requires { at ≤ length report.now }
    ensures { Agrees report.now at piece.now result }
{
    match first_difference(&report[at..], piece) {
        None => Ok(report.len()),
        Some(place) if place == piece.len() => Ok(at + place),
        Some(place) => Err(at + place),
    }
}

// Up to where the report goes on as the piece does, from `at` on; or where it differs.
fn agree(report: &[u8], at: usize, piece: &[u8]) -> Result<usize, usize>
    requires { at ≤ length report.now }
    ensures { Agrees report.now at piece.now result }
{
    if report[at..].starts_with(piece) {
        return Ok(at + piece.len());
    }
    agree_bytes(report, at, piece)
}

fn agree_entries(report: &[u8], at: usize, entries: &[Entry]) -> Result<usize, usize>
    requires { at ≤ length report.now }
    ensures { Agrees report.now at (flat_map entry_line entries.now) result }
{
    let mut line = [0u8; 256];
    let mut end = at;
    for entry in entries {
        let from = entry_before(&mut line, entry);
        match agree(report, end, &line[from..]) {
            Ok(next) => end = next,
            Err(place) => return Err(place),
        }
    }
    Ok(end)
}

// The same of a text that has lines of entries between its head and its tail.
fn agree_all(report: &[u8], head: &[u8], entries: &[Entry], tail: &[u8]) -> Result<usize, usize>
    ensures { Agrees report.now 0 (head.now ++ (flat_map entry_line entries.now ++ tail.now)) result }
{
    let at = agree(report, 0, head)?;
    let at = agree_entries(report, at, entries)?;
    agree(report, at, tail)
}

fn difference(report: &[u8], head: &[u8], entries: &[Entry], tail: &[u8]) -> Option<usize>
    ensures { MatchOption result (report.now ≡ head.now ++ (flat_map entry_line entries.now ++ tail.now))
        (DiffersAt report.now (head.now ++ (flat_map entry_line entries.now ++ tail.now))) }
{
    match agree_all(report, head, entries, tail) {
        Ok(end) if end == report.len() => None,
        Ok(end) => Some(end),
        Err(place) => Some(place),
    }
}

// The lines of the cores, and the line that counts the entries.
fn head_of(alloc: Global, cores: &[CoreRun], entries: usize) -> Result<Vec<u8>, NoMemory>
    ensures { IfOk result (λ head. head.items ≡ cores_text cores.now ++ line (codes "history" ∷ number entries ∷ [])) }
{
    let mut head = Vec::new(alloc);
    put_report(&mut head, cores)?;
    put_text(&mut head, "history")?;
    put_number(&mut head, entries as u64)?;
    put_newline(&mut head)?;
    Ok(head)
}

// The lines of the pages, what the host was told, and the last line.
fn tail_of(alloc: Global, order: &WholeOrder, rows: &[RmpRow]) -> Result<Vec<u8>, NoMemory>
    requires { All IsLow order.now.exits }
    ensures { IfOk result (λ tail. tail.items
        ≡ pages_text rows.now ++ ap_text order.now.exits order.now.refused ++ line (codes "end" ∷ [])) }
{
    let mut tail = Vec::new(alloc);
    put_rmp(&mut tail, rows)?;
    put_ap(&mut tail, order.exits.as_slice(), order.refused)?;
    put_text(&mut tail, "end")?;
    put_newline(&mut tail)?;
    Ok(tail)
}

/// Where a report differs first from the text of a run that ended with these pages. None where it is that text.
pub fn text_difference(
    alloc: Global,
    report: &[u8],
    order: &WholeOrder,
    entries: &[Entry],
    rows: &[RmpRow],
) -> Result<Option<usize>, NoMemory>
    requires { All IsLow order.now.exits }
    ensures { IfOk result (λ place. MatchOption place
        (report.now ≡ report_text false order.now.cores entries.now rows.now (ap_text order.now.exits order.now.refused))
        (DiffersAt report.now (report_text false order.now.cores entries.now rows.now (ap_text order.now.exits order.now.refused)))) }
{
    let head = head_of(alloc, order.cores.as_slice(), entries.len())?;
    let tail = tail_of(alloc, order, rows)?;
    Ok(difference(report, &head, entries, &tail))
}
