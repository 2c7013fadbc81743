//! What a run gave, beside what it has to give.
use crate::case::Wanted;
use anyhow::Result;
use std::alloc::Global;
use std::str;

/// What a run gave.
#[derive(Drop)]
pub struct Given {
    pub status: u8,
    pub out: Vec<u8>,
    pub err: Vec<u8>,
}

// The first line in which the texts differ.
fn text_difference(alloc: Global, name: &str, wanted: &[u8], given: &[u8]) -> Result<String> {
    if wanted == given {
        return Ok(String::new(alloc));
    }
    let mut rest = str::from_utf8(given)?.lines();
    for line in str::from_utf8(wanted)?.lines() {
        let got = rest.next().unwrap_or("nothing");
        if got != line {
            return Ok(format!(in alloc; "{name} has [{got}] for [{line}]")?);
        }
    }
    let got = rest.next().unwrap_or("no end of the line");
    Ok(format!(in alloc; "{name} has [{got}] behind its end")?)
}

// The first part that does not stand behind the ones before it.
fn missing_part(alloc: Global, out: &str, parts: &[String]) -> Result<String> {
    let mut rest = out;
    for part in parts {
        match rest.split_once(part.as_str()) {
            Some((_, after)) => rest = after,
            None => return Ok(format!(in alloc; "out lacks [{part}]")?),
        }
    }
    Ok(String::new(alloc))
}

/// The first thing that is not as it has to be; an empty text where all is.
pub fn difference(alloc: Global, wanted: &Wanted, given: &Given) -> Result<String> {
    let (status, right) = (given.status, wanted.status);
    if status != right {
        return Ok(format!(in alloc; "status {status} for {right}")?);
    }
    let in_err = text_difference(alloc, "err", &wanted.err, &given.err)?;
    if !in_err.is_empty() {
        return Ok(in_err);
    }
    if let Some(out) = &wanted.out {
        let in_out = text_difference(alloc, "out", out, &given.out)?;
        if !in_out.is_empty() {
            return Ok(in_out);
        }
    }
    missing_part(alloc, str::from_utf8(&given.out)?, &wanted.parts)
}
