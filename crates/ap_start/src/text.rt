//! The lines of a report.
ghost use Rattle.std.specs.Prelude.{◌≡◌, ◌++◌, All, OnErr, OnOk, flat_map};
ghost use Rattle.report.specs.Text.{spaced, IsBegun};
ghost use Rattle.ap_start.specs.Exits.{IsLow};
ghost use Rattle.ap_start.specs.Text.{kind_text, exit_line, refused_line, ap_text};

use crate::ApExit;
use crate::announcing::address_of;
use report::{put_newline, put_number, put_text, put_word};
use svsm_types::NoMemory;

#[tactic(auto, unfolding(crate::specs::Text::kind_text))]
fn put_kind(out: &mut Vec<u8>, create: bool) -> Result<(), NoMemory>
    ensures ok { OnOk result (out.new.items ≡ out.old.items ++ spaced (kind_text create)) }
    ensures err { OnErr result (IsBegun out.old.items out.new.items) }
{
    put_word(out, if create { "create" } else { "destroy" })
}

#[tactic(auto, using(report::proofs::FrontLemmas::begun_on))]
fn put_exit(out: &mut Vec<u8>, exit: &ApExit) -> Result<(), NoMemory>
    requires { IsLow exit.now }
    ensures ok { OnOk result (out.new.items ≡ out.old.items ++ exit_line exit.now) }
    ensures err { OnErr result (IsBegun out.old.items out.new.items) }
{
    put_text(out, "ap")?;
    put_kind(out, exit.create)?;
    put_number(out, u64::from(exit.apic))?;
    put_number(out, u64::from(exit.vmpl.0))?;
    put_number(out, address_of(exit))?;
    put_newline(out)
}

fn put_exits(out: &mut Vec<u8>, exits: &[ApExit]) -> Result<(), NoMemory>
    requires { All IsLow exits.now }
    ensures ok { OnOk result (out.new.items ≡ out.old.items ++ flat_map exit_line exits.now) }
    ensures err { OnErr result (IsBegun out.old.items out.new.items) }
{
    'exits: for exit in exits {
        put_exit(out, exit)?;
    }
    Ok(())
}

#[tactic(auto, using(report::proofs::FrontLemmas::begun_on))]
fn put_refused(out: &mut Vec<u8>, end: Option<(u64, u64)>) -> Result<(), NoMemory>
    ensures ok { OnOk result (out.new.items ≡ out.old.items ++ refused_line end) }
    ensures err { OnErr result (IsBegun out.old.items out.new.items) }
{
    if let Some((info1, info2)) = end {
        put_text(out, "ap refused")?;
        put_number(out, info1)?;
        put_number(out, info2)?;
        put_newline(out)?;
    }
    Ok(())
}

#[tactic(auto, using(report::proofs::FrontLemmas::begun_on))]
fn append_ap(out: &mut Vec<u8>, exits: &[ApExit], end: Option<(u64, u64)>) -> Result<(), NoMemory>
    requires { All IsLow exits.now }
    ensures ok { OnOk result (out.new.items ≡ out.old.items ++ ap_text exits.now end) }
    ensures err { OnErr result (IsBegun out.old.items out.new.items) }
{
    put_exits(out, exits)?;
    put_refused(out, end)
}

/// Appends a line for each of these exits, and the line of the refused one with both info values where there is one. On want of memory
/// nothing is appended.
pub fn put_ap(out: &mut Vec<u8>, exits: &[ApExit], end: Option<(u64, u64)>) -> Result<(), NoMemory>
    requires { All IsLow exits.now }
    ensures ok { OnOk result (out.new.items ≡ out.old.items ++ ap_text exits.now end) }
    ensures err { OnErr result (out.new.items ≡ out.old.items) }
{
    let before = out.len();
    let put = append_ap(out, exits, end);
    if put.is_err() {
        out.truncate(before);
    }
    put
}
