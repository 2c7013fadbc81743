//! The exits of a wave.
ghost use Rattle.std.specs.Prelude.{◌≡◌, ◌++◌, ◌∷◌, [], All, IsTrue, IfOk, OnOk, map};
ghost use Rattle.std.specs.List.{list_any};
ghost use Rattle.svsm_steps.specs.Registry.{same_row_state};
ghost use Rattle.svsm_steps.specs.Announced.{same_pair, is_live, live_pairs, exits_between};
ghost use Rattle.ap_start.specs.Exits.{is_of, level_of_apic, exit_of, HasLine};
ghost use Rattle.ap_start.specs.Wave.{is_standing, pair_of, only_live};

use crate::ApExit;
use std::alloc::Global;
use svsm_types::{CoreLine, NoMemory, Row, RowState, Vmpl};

fn same_row_state(a: RowState, b: RowState) -> bool
    ensures { result ≡ same_row_state a b }
{
    a == b
}

fn is_standing(row: &Row) -> bool
    ensures { result ≡ is_standing row.now }
{
    !same_row_state(row.state, RowState::Reserved)
}

fn same_pair(a: &Row, b: &Row) -> bool
    ensures { result ≡ same_pair (pair_of a.now) (pair_of b.now) }
{
    a.apic == b.apic && a.page.0 == b.page.0
}

// Whether the row's pair is a live pair of the others.
fn stands_among(row: &Row, others: &[Row]) -> bool
    ensures { result ≡ is_live (live_pairs others.now) (pair_of row.now) }
{
    'others: for other in others {
        if is_standing(other) && same_pair(row, other) {
            return true;
        }
    }
    false
}

fn level_of(cores: &[CoreLine], apic: u32) -> Vmpl
    requires { IsTrue (list_any (is_of apic) cores.now) }
    ensures { result ≡ level_of_apic cores.now apic }
{
    'cores: for core in cores {
        if core.apic == apic {
            return core.vmpl;
        }
    }
    unreachable!()
}

// Adds an exit for the row where it stands and its pair is no live pair of the others.
fn push_if(
    exits: &mut Vec<ApExit>,
    cores: &[CoreLine],
    create: bool,
    row: &Row,
    others: &[Row],
) -> Result<(), NoMemory>
    requires { HasLine cores.now row.now }
    ensures { OnOk result (exits.new.items ≡ exits.old.items ++ map (exit_of cores.now) (only_live create (row.now ∷ []) others.now)) }
{
    let standing = is_standing(row);
    let among = stands_among(row, others);
    if standing && !among {
        exits.push(ApExit {
            create,
            apic: row.apic,
            vmpl: level_of(cores, row.apic),
            page: row.page,
        })?;
    }
    Ok(())
}

// Adds the exits of the rows that stand and whose pair is no live pair of the others.
fn push_only(
    exits: &mut Vec<ApExit>,
    cores: &[CoreLine],
    create: bool,
    rows: &[Row],
    others: &[Row],
) -> Result<(), NoMemory>
    requires { All (HasLine cores.now) rows.now }
    ensures { OnOk result (exits.new.items ≡ exits.old.items ++ map (exit_of cores.now) (only_live create rows.now others.now)) }
{
    'rows: for row in rows {
        push_if(exits, cores, create, row, others)?;
    }
    Ok(())
}

/// The exits after a wave, from the rows before and after it: a destroy for each vCPU that is gone, then a create for each that is new.
#[tactic(auto, using(crate::proofs::WaveLemmas::exits_are))]
pub fn differences(
    alloc: Global,
    cores: &[CoreLine],
    before: &[Row],
    after: &[Row],
) -> Result<Vec<ApExit>, NoMemory>
    requires before { All (HasLine cores.now) before.now }
    requires after { All (HasLine cores.now) after.now }
    ensures { IfOk result (λ exits. exits.items ≡ map (exit_of cores.now) (exits_between before.now after.now)) }
{
    let mut exits = Vec::new(alloc);
    push_only(&mut exits, cores, false, before, after)?;
    push_only(&mut exits, cores, true, after, before)?;
    Ok(exits)
}
