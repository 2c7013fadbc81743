//! An audit, carried out.
ghost use Rattle.std.specs.Prelude.{◌≡◌, ◌++◌, ◌+◌, ◌<◌, ◌≤◌, ◌^◌, [], ◌∷◌, flat_map, length, IfOk, IfErr, OnOk};
ghost use Rattle.command_words.specs.Seen.{audit_seen};
ghost use Rattle.report.specs.Text.{spaced};
ghost use Rattle.run_core_top.specs.Task.{of_audit};
ghost use Rattle.run_core_top.specs.Asked.{task_names, AsksFor};
ghost use Rattle.run_core_top.specs.Audited.{reason_fields, answer_fields, answer_line, answer_status, IsReportFile, IsAuditTold, ReportCause};
ghost use Rattle.run_core_top.specs.Causes.{AuditCause};

use crate::carried::{Report, words_of_run};
use crate::load::load_files;
use crate::stop::{Stop, put_one};
use command_words::AuditWords;
use report::{put_newline, put_text, put_word};
use std::alloc::Global;
use svsm_audit::{AuditError, audit};
use svsm_outside::{LoadError, Shelf};
use svsm_types::{NoMemory, Sequence};

const REPORT_LIMIT: u64 = 1_073_741_824;

// Loads the report, which is the file with this number.
fn load_report<S: Shelf>(
    alloc: Global,
    shelf: &mut S,
    number: u64,
    name: &str,
) -> Result<Vec<u8>, Stop>
    ensures same { (S.seen shelf.new).told ≡ (S.seen shelf.old).told }
    ensures calm { OnOk result ((S.seen shelf.new).faults ≡ (S.seen shelf.old).faults) }
    ensures read { IfOk result (λ report. IsReportFile ((S.seen shelf.old).told name.now) report.items) }
    ensures stop { IfErr result (ReportCause number (S.seen shelf.old) (S.seen shelf.new) name.now) }
    ensures asked { AsksFor (name.now ∷ []) (S.seen shelf.old) (S.seen shelf.new) result }
{
    match shelf.load(alloc, name, REPORT_LIMIT) {
        Ok(bytes) => Ok(bytes),
        Err(LoadError::TooLong) => Err(Stop::Report),
        Err(LoadError::Failed) => Err(Stop::Read(number)),
        Err(LoadError::NoMemory) => Err(Stop::Memory),
    }
}

fn put_reason(out: &mut Vec<u8>, reason: AuditError) -> Result<(), NoMemory>
    ensures { OnOk result (out.new.items ≡ out.old.items ++ flat_map spaced (reason_fields reason)) }
{
    match reason {
        AuditError::Boot => put_one(out, "boot", 0),
        AuditError::Report { line } => put_one(out, "report", line),
        AuditError::Play { ticket } => put_one(out, "play", ticket),
        AuditError::Due { ticket } => put_one(out, "due", ticket),
        AuditError::Order { ticket } => put_one(out, "order", ticket),
        AuditError::Text { at } => put_one(out, "text", at),
        AuditError::NoMemory => put_one(out, "memory", 0),
    }
}

fn put_answer(out: &mut Vec<u8>, answer: Result<(), AuditError>) -> Result<(), NoMemory>
    ensures { OnOk result (out.new.items ≡ out.old.items ++ flat_map spaced (answer_fields answer)) }
{
    match answer {
        Ok(()) => put_word(out, "yes"),
        Err(reason) => {
            put_word(out, "no")?;
            put_reason(out, reason)
        }
    }
}

// The line that tells an answer.
fn answer_line(alloc: Global, answer: Result<(), AuditError>) -> Result<Vec<u8>, NoMemory>
    ensures { IfOk result (λ line. line.items ≡ answer_line answer) }
{
    let mut line = Vec::new(alloc);
    put_text(&mut line, "svsm_audit:")?;
    put_answer(&mut line, answer)?;
    put_newline(&mut line)?;
    Ok(line)
}

fn answer_status(answer: Result<(), AuditError>) -> u8
    ensures { result ≡ answer_status answer }
{
    match answer {
        Ok(()) => 0,
        Err(_) => 1,
    }
}

/// Loads the files of a run and then the report, audits it, and tells the answer.
pub fn carry_out_audit<S: Shelf>(
    alloc: Global,
    shelf: &mut S,
    words: &AuditWords<'_>,
) -> Result<Report, Stop>
    ensures same { (S.seen shelf.new).told ≡ (S.seen shelf.old).told }
    ensures calm { OnOk result ((S.seen shelf.new).faults ≡ (S.seen shelf.old).faults) }
    ensures report { IfOk result (λ report. IsAuditTold (S.seen shelf.old).told (audit_seen words.now) report.trace report.text.items report.status) }
    ensures status { IfOk result (λ report. report.status ≤ 1) }
    ensures stop { IfErr result (AuditCause (S.seen shelf.old) (S.seen shelf.new) (audit_seen words.now)) }
    ensures asked { AsksFor (task_names (of_audit (audit_seen words.now))) (S.seen shelf.old) (S.seen shelf.new) result }
{
    let run = words_of_run(alloc, words.image, &words.scripts)?;
    let files = load_files(alloc, shelf, &run)?;
    let number = words.scripts.len() as u64 + 1;
    let report = load_report(alloc, shelf, number, words.report)?;
    let answer = audit(alloc, &files.image, files.scripts.as_slice(), &report);
    if let Err(AuditError::NoMemory) = answer {
        return Err(Stop::Memory);
    }
    let text = answer_line(alloc, answer)?;
    Ok(Report {
        trace: Sequence::new(alloc),
        text,
        status: answer_status(answer),
    })
}
