//! Runs cases: what a person wrote of the program's words and files, and of what it has to answer, is tried on the top call.
#![tactic(auto)]

mod case;
mod compare;
mod number;
mod read;
mod request;
mod run;
mod short_sink;

use crate::case::Case;
use crate::read::read_cases;
use crate::run::try_case;
use anyhow::{Context, Result};
use std::process::ExitCode;
use std::sync::Wait;
use std::thread::Threads;
use std::{env, fs};

// Tries a case and prints a line on it.
fn show_case<R: Threads + Wait + Sync + Print + AllocGlobal>(rt: &R, case: &Case) -> Result<bool> {
    let name = case.name.as_str();
    let differs = try_case(rt, rt.alloc(), case)?;
    let as_wanted = differs.is_empty();
    if as_wanted {
        println!(rt; "{name} ok")?;
    } else {
        println!(rt; "{name}: {differs}")?;
    }
    Ok(as_wanted)
}

// How many cases are as they have to be, of those of a file.
fn show_cases<R: Threads + Wait + Sync + Print + AllocGlobal>(
    rt: &R,
    cases: &[Case],
) -> Result<u64> {
    let mut good = 0u64;
    for case in cases {
        if show_case(rt, case)? {
            good = good.saturating_add(1);
        }
    }
    Ok(good)
}

fn main(rt: HostRuntime) -> Result<ExitCode> {
    let mut tried = 0u64;
    let mut good = 0u64;
    for name in env::args(&rt)?.skip(1) {
        let text = fs::read_to_string(&rt, name.as_str())?;
        let cases = read_cases(rt.alloc(), text.as_str()).context(name.as_str())?;
        tried = tried.saturating_add(cases.len() as u64);
        good = good.saturating_add(show_cases(&rt, &cases)?);
    }
    println!(rt; "{good} of {tried} cases ok")?;
    Ok(if good == tried {
        ExitCode::SUCCESS
    } else {
        ExitCode::FAILURE
    })
}
