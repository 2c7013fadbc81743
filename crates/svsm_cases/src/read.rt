//! Files of cases, line by line.
use crate::case::{Case, File};
use crate::number::number_of;
use crate::request::record_of;
use anyhow::{Context, Result, bail};
use std::alloc::Global;
use std::str;

// What a line that begins with a bar, or a request, belongs to.
#[derive(Drop)]
enum Target {
    Nothing,
    File(String),
    Script(String),
    Out,
    Part,
    Err,
}

// What was read. The files that stand before the first case are each case's.
#[derive(Drop)]
struct Draft {
    common: Case,
    cases: Vec<Case>,
    target: Target,
}

fn words_of(alloc: Global, rest: &str) -> Result<Vec<String>> {
    let mut words = Vec::new(alloc);
    for word in rest.split_whitespace() {
        words.push(String::from_str(alloc, word)?)?;
    }
    Ok(words)
}

fn numbers_of(alloc: Global, rest: &str) -> Result<Vec<u64>> {
    let mut numbers = Vec::new(alloc);
    for word in rest.split_whitespace() {
        numbers.push(number_of(word)?)?;
    }
    Ok(numbers)
}

fn size_of(rest: &str) -> Result<usize> {
    Ok(usize::try_from(number_of(rest)?)?)
}

// The first lines of a text.
fn first_lines(alloc: Global, bytes: &[u8], count: usize) -> Result<Vec<u8>> {
    let mut kept = Vec::new(alloc);
    for line in str::from_utf8(bytes)?.lines().take(count) {
        kept.extend_from_slice(line.as_bytes())?;
        kept.push(b'\n')?;
    }
    Ok(kept)
}

// Opens the file, script or text that the lines which follow belong to.
fn open(alloc: Global, case: &mut Case, head: &str, rest: &str) -> Result<Option<Target>> {
    match head {
        "file" => {
            case.bytes_of(alloc, rest)?.clear();
            Ok(Some(Target::File(String::from_str(alloc, rest)?)))
        }
        "more" => Ok(Some(Target::File(String::from_str(alloc, rest)?))),
        "script" => {
            case.bytes_of(alloc, rest)?.clear();
            Ok(Some(Target::Script(String::from_str(alloc, rest)?)))
        }
        "out" => {
            case.wanted.out = Some(Vec::new(alloc));
            Ok(Some(Target::Out))
        }
        "part" => {
            case.wanted.parts.push(String::new(alloc))?;
            Ok(Some(Target::Part))
        }
        "err" => Ok(Some(Target::Err)),
        _ => Ok(None),
    }
}

// Makes or cuts a file: its name and a number follow.
fn shape(alloc: Global, case: &mut Case, head: &str, rest: &str) -> Result<()> {
    let (name, count) = rest.split_once(' ').context("a number is missing")?;
    let count = size_of(count)?;
    let bytes = case.bytes_of(alloc, name)?;
    *bytes = match head {
        "lines" => first_lines(alloc, bytes, count)?,
        _ => vec![in alloc; 0u8; count]?,
    };
    Ok(())
}

// Takes a line that says one thing. Tells whether it is of this kind.
fn set(alloc: Global, case: &mut Case, head: &str, rest: &str) -> Result<bool> {
    match head {
        "words" => case.words = words_of(alloc, rest)?,
        "status" => case.wanted.status = u8::try_from(number_of(rest)?)?,
        "loads-fail" => case.limits.failing_loads = numbers_of(alloc, rest)?,
        "writes-fail" => case.limits.failing_writes = numbers_of(alloc, rest)?,
        "most" => case.limits.most = size_of(rest)?,
        "room" => case.limits.room = size_of(rest)?,
        "err-room" => case.limits.err_room = size_of(rest)?,
        "each" => case.limits.each = true,
        "zeros" | "lines" => shape(alloc, case, head, rest)?,
        _ => return Ok(false),
    }
    Ok(true)
}

fn add_text(alloc: Global, case: &mut Case, target: &Target, text: &str) -> Result<()> {
    match target {
        Target::File(name) => case
            .bytes_of(alloc, name.as_str())?
            .extend_from_slice(text.as_bytes())?,
        Target::Out => {
            if let Some(out) = &mut case.wanted.out {
                out.extend_from_slice(text.as_bytes())?;
            }
        }
        Target::Part => {
            if let Some(part) = case.wanted.parts.last_mut() {
                part.push_str(text)?;
            }
        }
        Target::Err => case.wanted.err.extend_from_slice(text.as_bytes())?,
        Target::Nothing | Target::Script(_) => bail!("a text that belongs to nothing: {text}"),
    }
    Ok(())
}

fn put_record(bytes: &mut Vec<u8>, record: [u64; 6]) -> Result<()> {
    for word in record {
        bytes.extend_from_slice(&word.to_le_bytes())?;
    }
    Ok(())
}

// Adds a request, once or, behind `N times`, so many times.
fn add_request(alloc: Global, case: &mut Case, target: &Target, line: &str) -> Result<()> {
    let Target::Script(name) = target else {
        bail!("no such line: {line}");
    };
    let (count, request) = match line.split_once(" times ") {
        Some((count, request)) => (number_of(count)?, request),
        None => (1, line),
    };
    let record = record_of(request)?;
    let bytes = case.bytes_of(alloc, name.as_str())?;
    for _ in 0..count {
        put_record(bytes, record)?;
    }
    Ok(())
}

// The text of a line that begins with a bar.
fn text_of(alloc: Global, line: &str) -> Result<Option<String>> {
    if line == "|" {
        return Ok(Some(String::from_str(alloc, "\n")?));
    }
    if let Some(text) = line.strip_prefix("| ") {
        return Ok(Some(format!(in alloc; "{text}\n")?));
    }
    match line.strip_prefix("|- ") {
        Some(text) => Ok(Some(String::from_str(alloc, text)?)),
        None => Ok(None),
    }
}

// Takes a line of words on this case, and tells what the next ones belong to.
fn take_words(
    alloc: Global,
    case: &mut Case,
    target: &Target,
    line: &str,
) -> Result<Option<Target>> {
    let (head, rest) = line.split_once(' ').unwrap_or((line, ""));
    if let Some(next) = open(alloc, case, head, rest)? {
        return Ok(Some(next));
    }
    if set(alloc, case, head, rest)? {
        return Ok(Some(Target::Nothing));
    }
    add_request(alloc, case, target, line)?;
    Ok(None)
}

fn begin_case(alloc: Global, draft: &mut Draft, name: &str) -> Result<()> {
    let case = Case::on(alloc, name, &draft.common.files)?;
    draft.cases.push(case)?;
    draft.target = Target::Nothing;
    Ok(())
}

// The case that was begun last, or what is common to all.
fn latest<'a>(cases: &'a mut Vec<Case>, common: &'a mut Case) -> &'a mut Case {
    match cases.last_mut() {
        Some(case) => case,
        None => common,
    }
}

fn take_line(alloc: Global, draft: &mut Draft, whole: &str) -> Result<()> {
    let line = whole
        .split_once('#')
        .map(|cut| cut.0)
        .unwrap_or(whole)
        .trim();
    if let Some(name) = line.strip_prefix("case ") {
        return begin_case(alloc, draft, name);
    }
    let case = latest(&mut draft.cases, &mut draft.common);
    if let Some(text) = text_of(alloc, whole)? {
        return add_text(alloc, case, &draft.target, text.as_str());
    }
    if line.is_empty() {
        return Ok(());
    }
    if let Some(next) = take_words(alloc, case, &draft.target, line)? {
        draft.target = next;
    }
    Ok(())
}

/// The cases of a file.
pub fn read_cases(alloc: Global, text: &str) -> Result<Vec<Case>> {
    let mut draft = Draft {
        common: Case::on(alloc, "", &[])?,
        cases: Vec::new(alloc),
        target: Target::Nothing,
    };
    for (number, line) in text.lines().enumerate() {
        take_line(alloc, &mut draft, line).context(format_args!("line {}", number + 1))?;
    }
    Ok(draft.cases)
}
