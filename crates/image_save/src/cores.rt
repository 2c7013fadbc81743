//! How the cores ended, and where their vCPUs stand.
ghost use Rattle.std.specs.Prelude.{◌≡◌, ◌==◌, ◌&&◌, map, find, IfOk};
ghost use Rattle.svsm_types.specs.declared.vcpu.Row.{Row};
ghost use Rattle.image_text.specs.Refused.{ended_early, first_core};
ghost use Rattle.image_text.specs.Saved.{is_idle, seat_of, saved_core};
ghost use Rattle.image_save.specs.Gathered.{core_number};

use std::alloc::Global;
use svsm_steps::{CoreEnd, CoreRun};
use svsm_types::{CoreLine, Gpa, NoMemory, Page, Row, RowState};

fn ended_early(end: CoreEnd) -> bool
    ensures { result ≡ ended_early end }
{
    match end {
        CoreEnd::Done | CoreEnd::Unstarted => false,
        CoreEnd::Faulted { .. } | CoreEnd::Host { .. } => true,
    }
}

/// The first core that ended by a fault or a wrong answer of the host.
pub(crate) fn first_core(cores: &[CoreRun]) -> Option<u32>
    ensures { result ≡ core_number (first_core cores.now) }
{
    let run = cores.iter().find(|run| ended_early(run.end))?;
    Some(run.core)
}

fn is_idle(state: RowState) -> bool
    ensures { result ≡ is_idle state }
{
    match state {
        RowState::Ready | RowState::Left => true,
        RowState::Reserved | RowState::Entered => false,
    }
}

// The row of a vCPU with this APIC id that no core is in the middle of.
fn idle_row(apic: u32, rows: &[Row]) -> Option<Row>
    ensures { result ≡ find (λ (row : Row). (row.apic == apic) && is_idle row.state) rows.now }
{
    rows.iter()
        .copied()
        .find(|row| row.apic == apic && is_idle(row.state))
}

fn seat_of(apic: u32, rows: &[Row]) -> Option<(Page, Gpa)>
    ensures { result ≡ seat_of apic rows.now }
{
    match idle_row(apic, rows) {
        None => None,
        Some(row) => Some((row.page, row.caa)),
    }
}

/// The core lines, each with the seat of its vCPU as it stands.
pub(crate) fn seated_cores(
    alloc: Global,
    rows: &[Row],
    cores: &[CoreLine],
) -> Result<Vec<CoreLine>, NoMemory>
    ensures { IfOk result (λ seated. seated.items ≡ map (saved_core rows.now) cores.now) }
{
    let mut seated = Vec::new(alloc);
    'cores: for core in cores {
        seated.push(CoreLine {
            seat: seat_of(core.apic, rows),
            ..*core
        })?;
    }
    Ok(seated)
}
