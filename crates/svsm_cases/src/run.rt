//! Runs of a case.
use crate::case::{Case, Limits, Wanted};
use crate::compare::{Given, difference};
use crate::short_sink::ShortSink;
use anyhow::{Result, anyhow};
use run_core_top::{OpenGate, svsm_top};
use std::alloc::Global;
use std::sync::Wait;
use std::thread::Threads;
use svsm_outside::{MemoryShelf, MemorySink};
use svsm_types::NoMemory;

fn shelf_of(alloc: Global, case: &Case) -> Result<MemoryShelf, NoMemory> {
    let mut shelf = MemoryShelf::new(alloc, &case.limits.failing_loads)?;
    for file in &case.files {
        shelf.put_file(file.name.as_str(), &file.bytes)?;
    }
    Ok(shelf)
}

// Runs the case with this room for the output, with writes of at most so many bytes, of which these fail.
fn run_within<R: Threads + Wait + Sync>(
    rt: &R,
    alloc: Global,
    case: &Case,
    room: usize,
    most: usize,
    failing: &[u64],
) -> Result<Given, NoMemory> {
    let mut shelf = shelf_of(alloc, case)?;
    let sink = MemorySink::new(alloc, room, failing)?;
    let mut out = ShortSink { most, sink };
    let mut err = MemorySink::new(alloc, case.limits.err_room, &[])?;
    let ran = svsm_top(
        rt,
        alloc,
        &case.words,
        &mut shelf,
        &mut out,
        &mut err,
        &OpenGate,
    );
    Ok(Given {
        status: ran.status,
        out: Vec::from_slice(alloc, out.sink.bytes())?,
        err: Vec::from_slice(alloc, err.bytes())?,
    })
}

// The case as it is written.
fn run_once<R: Threads + Wait + Sync>(rt: &R, alloc: Global, case: &Case) -> Result<String> {
    let Limits {
        room,
        most,
        failing_writes,
        ..
    } = &case.limits;
    let given = run_within(rt, alloc, case, *room, *most, failing_writes).map_err(|_| anyhow!(
        "out of memory"
    ))?;
    difference(alloc, &case.wanted, &given)
}

// What a run has to answer whose output is cut off there.
fn cut_off(alloc: Global, out: &[u8], end: usize) -> Result<Wanted> {
    Ok(Wanted {
        status: 6,
        out: Some(Vec::from_slice(alloc, &out[..end.min(out.len())])?),
        parts: Vec::new(alloc),
        err: Vec::from_slice(alloc, b"svsm_run: write\n")?,
    })
}

// Each thirteenth room that is too small for the output.
fn run_rooms<R: Threads + Wait + Sync>(
    rt: &R,
    alloc: Global,
    case: &Case,
    out: &[u8],
) -> Result<String> {
    for room in (0..out.len()).step_by(13) {
        let given = run_within(rt, alloc, case, room, out.len(), &[]).map_err(|_| anyhow!(
            "out of memory"
        ))?;
        let differs = difference(alloc, &cut_off(alloc, out, room)?, &given)?;
        if !differs.is_empty() {
            return Ok(format!(in alloc; "room {room}: {differs}")?);
        }
    }
    Ok(String::new(alloc))
}

// Each write of seven bytes of the output.
fn run_writes<R: Threads + Wait + Sync>(
    rt: &R,
    alloc: Global,
    case: &Case,
    out: &[u8],
) -> Result<String> {
    for (number, end) in (0..out.len()).step_by(7).enumerate() {
        let given = run_within(rt, alloc, case, out.len(), 7, &[number as u64]).map_err(|_| anyhow!(
            "out of memory"
        ))?;
        let differs = difference(alloc, &cut_off(alloc, out, end)?, &given)?;
        if !differs.is_empty() {
            return Ok(format!(in alloc; "write {number}: {differs}")?);
        }
    }
    Ok(String::new(alloc))
}

/// Tries a case. Gives the first thing that is not as it has to be; an empty text where all is.
pub fn try_case<R: Threads + Wait + Sync>(rt: &R, alloc: Global, case: &Case) -> Result<String> {
    let differs = run_once(rt, alloc, case)?;
    match &case.wanted.out {
        Some(out) if case.limits.each && differs.is_empty() => {
            let differs = run_rooms(rt, alloc, case, out)?;
            if !differs.is_empty() {
                return Ok(differs);
            }
            run_writes(rt, alloc, case, out)
        }
        _ => Ok(differs),
    }
}
