//! Requests in the form of `tools/script`, as records of 48 bytes.
use crate::number::number_of;
use anyhow::{Context, Result, bail};
use std::str::SplitWhitespace;

// The calls of the core protocol, by RAX.
const CALLS: [&str; 7] = [
    "remap",
    "pvalidate",
    "create",
    "delete",
    "deposit",
    "withdraw",
    "query",
];

fn next_number(words: &mut SplitWhitespace<'_>) -> Result<u64> {
    number_of(words.next().context("a number is missing")?)
}

// The number of the call of this name, or the number itself.
fn call_of(name: &str) -> Result<u64> {
    match CALLS.iter().position(|call| *call == name) {
        Some(rax) => Ok(rax as u64),
        None => number_of(name),
    }
}

// The values of `KEY=VALUE`, in the order of the keys; those that are not there stay as given.
fn values_of(words: SplitWhitespace<'_>, keys: &[&str], mut values: [u64; 5]) -> Result<[u64; 5]> {
    for word in words {
        let (key, value) = word
            .split_once('=')
            .context(format_args!("no value: {word}"))?;
        let place = keys.iter().position(|other| *other == key).unwrap_or(5);
        let value = number_of(value)?;
        *values
            .get_mut(place)
            .context(format_args!("not of this request: {key}"))? = value;
    }
    Ok(values)
}

fn call_record(kind: u64, mut words: SplitWhitespace<'_>) -> Result<[u64; 6]> {
    let rax = call_of(words.next().context("a call is missing")?)?;
    let keys = ["rcx", "rdx", "r8", "r9", "poll"];
    let [rcx, rdx, r8, r9, poll] = values_of(words, &keys, [0; 5])?;
    let poll = u32::try_from(poll)?;
    Ok([kind | (u64::from(poll) << 32), rax, rcx, rdx, r8, r9])
}

fn access_record(
    kind: u64,
    address: u64,
    word: u64,
    words: SplitWhitespace<'_>,
) -> Result<[u64; 6]> {
    let [vmpl, ..] = values_of(words, &["vmpl"], [2, 0, 0, 0, 0])?;
    Ok([kind, address, word, vmpl, 0, 0])
}

fn adjust_record(mut words: SplitWhitespace<'_>) -> Result<[u64; 6]> {
    let address = next_number(&mut words)?;
    let keys = ["vmpl", "target", "mask"];
    let [vmpl, target, mask, ..] = values_of(words, &keys, [2, 0, 0, 0, 0])?;
    Ok([5, address, target, vmpl, mask, 0])
}

fn host_record(kind: u64, mut words: SplitWhitespace<'_>) -> Result<[u64; 6]> {
    let address = next_number(&mut words)?;
    values_of(words, &[], [0; 5])?;
    Ok([kind, address, 0, 0, 0, 0])
}

// A record whose words are given as numbers.
fn plain_record(mut words: SplitWhitespace<'_>) -> Result<[u64; 6]> {
    let mut record = [0; 6];
    for word in record.iter_mut() {
        *word = next_number(&mut words)?;
    }
    values_of(words, &[], [0; 5])?;
    Ok(record)
}

/// The six words of a request.
pub fn record_of(line: &str) -> Result<[u64; 6]> {
    let mut words = line.split_whitespace();
    match words.next().unwrap_or("") {
        "write" => {
            let address = next_number(&mut words)?;
            let word = next_number(&mut words)?;
            access_record(1, address, word, words)
        }
        "read" => {
            let address = next_number(&mut words)?;
            access_record(4, address, 0, words)
        }
        "call" => call_record(2, words),
        "exit" => call_record(3, words),
        "adjust" => adjust_record(words),
        "share" => host_record(6, words),
        "assign" => host_record(7, words),
        "record" => plain_record(words),
        _ => bail!("no such line: {line}"),
    }
}
