//! The text of a history.
ghost use Rattle.std.specs.Prelude.{◌≡◌, ◌≤◌, ◌+◌, ◌∷◌, [], ◌++◌, codes, drop, OnErr, OnOk, flat_map};
ghost use Rattle.report.specs.Text.{spaced, IsBegun};
ghost use Rattle.report.specs.History.{size_number, on_number, owner_text, step_fields, answer_fields, entry_line, history_text};

use crate::line::{byte_before, fields_before, numbers_before, text_before, word_before};
use crate::text::{put_newline, put_number, put_text};
use svsm_steps::{Answer, Entry, Step};
use svsm_types::{NoMemory, Owner, Size};

fn size_number(size: Size) -> u64
    ensures { result ≡ size_number size }
{
    match size {
        Size::Small => 0,
        Size::Large => 1,
    }
}

fn on_number(on: bool) -> u64
    ensures { result ≡ on_number on }
{
    if on { 1 } else { 0 }
}

#[tactic(auto, unfolding(crate::specs::History::owner_text))]
pub fn owner_text(owner: Owner) -> &'static str
    ensures { result.now ≡ owner_text owner }
{
    match owner {
        Owner::Guest => "guest",
        Owner::Module => "module",
        Owner::Pool => "pool",
        Owner::Vmsa => "vmsa",
    }
}

#[tactic(auto, unfolding(crate::specs::History::validate_text))]
fn step_before(line: &mut [u8; 256], end: usize, step: &Step) -> usize
    requires least { 100 ≤ end }
    requires most { end ≤ 256 }
    ensures low { end ≤ result + 100 }
    ensures high { result ≤ end }
    ensures line { drop result line.new ≡ flat_map spaced (step_fields step.now) ++ drop end line.old }
{
    match *step {
        Step::GuestWrite { vmpl, gpa, word } => fields_before(
            line,
            end,
            "write",
            &[u64::from(vmpl.0), gpa.0, word],
        ),
        Step::GuestPend { vmpl, gpa } => fields_before(
            line,
            end,
            "pend",
            &[u64::from(vmpl.0), gpa.0],
        ),
        Step::GuestRead { vmpl, gpa } => fields_before(
            line,
            end,
            "read",
            &[u64::from(vmpl.0), gpa.0],
        ),
        Step::GuestAdjust {
            vmpl,
            page,
            target,
            mask,
        } => fields_before(
            line,
            end,
            "adjust",
            &[
                u64::from(vmpl.0),
                page.0,
                u64::from(target),
                u64::from(mask),
            ],
        ),
        Step::HostShare { page } => fields_before(line, end, "share", &[page.0]),
        Step::HostAssign { page } => fields_before(line, end, "assign", &[page.0]),
        Step::TakePending { vmpl, gpa } => fields_before(
            line,
            end,
            "take",
            &[u64::from(vmpl.0), gpa.0],
        ),
        Step::LoadWord { vmpl, gpa } => fields_before(
            line,
            end,
            "load",
            &[u64::from(vmpl.0), gpa.0],
        ),
        Step::StoreNext { vmpl, gpa, next } => fields_before(
            line,
            end,
            "next",
            &[u64::from(vmpl.0), gpa.0, u64::from(next)],
        ),
        Step::StoreEntry { vmpl, gpa, word } => fields_before(
            line,
            end,
            "entry",
            &[u64::from(vmpl.0), gpa.0, word],
        ),
        Step::SetAvail { vmpl, gpa, on } => fields_before(
            line,
            end,
            "avail",
            &[u64::from(vmpl.0), gpa.0, on_number(on)],
        ),
        Step::ClearCaa { vmpl, gpa } => fields_before(
            line,
            end,
            "caa",
            &[u64::from(vmpl.0), gpa.0],
        ),
        Step::Validate {
            vmpl,
            page,
            size,
            on: true,
        } => fields_before(
            line,
            end,
            "validate",
            &[u64::from(vmpl.0), page.0, size_number(size)],
        ),
        Step::Validate {
            vmpl,
            page,
            size,
            on: false,
        } => fields_before(
            line,
            end,
            "invalidate",
            &[u64::from(vmpl.0), page.0, size_number(size)],
        ),
        Step::Deposit { vmpl, page, size } => fields_before(
            line,
            end,
            "deposit",
            &[u64::from(vmpl.0), page.0, size_number(size)],
        ),
        Step::Release { vmpl, page, size } => fields_before(
            line,
            end,
            "release",
            &[u64::from(vmpl.0), page.0, size_number(size)],
        ),
        Step::VmsaTake {
            vmpl,
            page,
            features,
        } => fields_before(line, end, "vmsa", &[u64::from(vmpl.0), page.0, features]),
        Step::VmsaDrop { vmpl, page } => fields_before(
            line,
            end,
            "drop",
            &[u64::from(vmpl.0), page.0],
        ),
        Step::PoolPush { page, size } => fields_before(
            line,
            end,
            "push",
            &[page.0, size_number(size)],
        ),
        Step::PoolPop { size } => fields_before(line, end, "pop", &[size_number(size)]),
        Step::Reserve { apic, page, caa } => fields_before(
            line,
            end,
            "reserve",
            &[u64::from(apic), page.0, caa.0],
        ),
        Step::Commit { page } => fields_before(line, end, "commit", &[page.0]),
        Step::Cancel { page } => fields_before(line, end, "cancel", &[page.0]),
        Step::Retire { page } => fields_before(line, end, "retire", &[page.0]),
        Step::Remap { apic, caa } => fields_before(line, end, "remap", &[u64::from(apic), caa.0]),
        Step::Enter { apic } => fields_before(line, end, "enter", &[u64::from(apic)]),
        Step::Leave { apic } => fields_before(line, end, "leave", &[u64::from(apic)]),
    }
}

fn answer_before(line: &mut [u8; 256], end: usize, answer: &Answer) -> usize
    requires least { 50 ≤ end }
    requires most { end ≤ 256 }
    ensures low { end ≤ result + 50 }
    ensures high { result ≤ end }
    ensures line { drop result line.new ≡ flat_map spaced (answer_fields answer.now) ++ drop end line.old }
{
    match *answer {
        Answer::Done => word_before(line, end, "done"),
        Answer::Word(word) => fields_before(line, end, "word", &[word]),
        Answer::Denied => word_before(line, end, "denied"),
        Answer::Refused => word_before(line, end, "refused"),
        Answer::Unchanged => word_before(line, end, "unchanged"),
        Answer::Hw(code) => fields_before(line, end, "hw", &[u64::from(code)]),
        Answer::BadVmsa => word_before(line, end, "badvmsa"),
        Answer::Strange(owner) => strange_before(line, end, owner),
        Answer::Held(count) => fields_before(line, end, "held", &[count]),
        Answer::Block { page, left } => fields_before(line, end, "block", &[page.0, left]),
        Answer::Empty { left } => fields_before(line, end, "empty", &[left]),
        Answer::Seen { page, caa } => fields_before(line, end, "seen", &[page.0, caa.0]),
        Answer::Taken => word_before(line, end, "taken"),
        Answer::Unknown => word_before(line, end, "unknown"),
        Answer::Running => word_before(line, end, "running"),
        Answer::Fault { done } => fields_before(line, end, "fault", &[u64::from(done)]),
    }
}

#[tactic(auto, unfolding(crate::specs::History::owner_text))]
fn owner_before(line: &mut [u8; 256], end: usize, owner: Owner) -> usize
    requires least { 7 ≤ end }
    requires most { end ≤ 256 }
    ensures low { end ≤ result + 7 }
    ensures high { result ≤ end }
    ensures line { drop result line.new ≡ spaced (owner_text owner) ++ drop end line.old }
{
    match owner {
        Owner::Guest => word_before(line, end, "guest"),
        Owner::Module => word_before(line, end, "module"),
        Owner::Pool => word_before(line, end, "pool"),
        Owner::Vmsa => word_before(line, end, "vmsa"),
    }
}

fn strange_before(line: &mut [u8; 256], end: usize, owner: Owner) -> usize
    requires least { 50 ≤ end }
    requires most { end ≤ 256 }
    ensures low { end ≤ result + 50 }
    ensures high { result ≤ end }
    ensures line { drop result line.new ≡ flat_map spaced (answer_fields (Answer.Strange owner)) ++ drop end line.old }
{
    let at = owner_before(line, end, owner);
    word_before(line, at, "strange")
}

// The step and the answer of an entry, at the end of the room.
fn told_before(line: &mut [u8; 256], step: &Step, answer: &Answer) -> usize
    ensures low { 100 ≤ result }
    ensures high { result ≤ 256 }
    ensures line { drop result line.new ≡ flat_map spaced (step_fields step.now ++ codes "->" ∷ answer_fields answer.now) ++ 10 ∷ [] }
{
    let at = byte_before(line, 256, b'\n');
    let at = answer_before(line, at, answer);
    let at = word_before(line, at, "->");
    step_before(line, at, step)
}

/// Writes the line of an entry at the end of the room, and answers where it begins.
pub fn entry_before(line: &mut [u8; 256], entry: &Entry) -> usize
    ensures high { result ≤ 256 }
    ensures line { drop result line.new ≡ entry_line entry.now }
{
    let at = told_before(line, &entry.step, &entry.answer);
    let at = numbers_before(
        line,
        at,
        &[entry.ticket, u64::from(entry.core), entry.place],
    );
    text_before(line, at, "step")
}

fn put_entry(out: &mut Vec<u8>, line: &mut [u8; 256], entry: &Entry) -> Result<(), NoMemory>
    ensures ok { OnOk result (out.new.items ≡ out.old.items ++ entry_line entry.now) }
    ensures err { OnErr result (IsBegun out.old.items out.new.items) }
{
    let at = entry_before(line, entry);
    out.extend_from_slice(&line[at..])?;
    Ok(())
}

fn put_entries(out: &mut Vec<u8>, run: &[Entry]) -> Result<(), NoMemory>
    ensures ok { OnOk result (out.new.items ≡ out.old.items ++ flat_map entry_line run.now) }
    ensures err { OnErr result (IsBegun out.old.items out.new.items) }
{
    let mut line = [0u8; 256];
    for entry in run {
        put_entry(out, &mut line, entry)?;
    }
    Ok(())
}

// On want of memory a front of it stands.
#[tactic(auto, using(crate::proofs::FrontLemmas::begun_on))]
fn append_history(out: &mut Vec<u8>, run: &[Entry]) -> Result<(), NoMemory>
    ensures ok { OnOk result (out.new.items ≡ out.old.items ++ history_text run.now) }
    ensures err { OnErr result (IsBegun out.old.items out.new.items) }
{
    put_text(out, "history")?;
    put_number(out, run.len() as u64)?;
    put_newline(out)?;
    put_entries(out, run)
}

/// Appends the history: how many entries, and a line for each. On want of memory nothing is appended.
pub fn put_history(out: &mut Vec<u8>, run: &[Entry]) -> Result<(), NoMemory>
    ensures ok { OnOk result (out.new.items ≡ out.old.items ++ history_text run.now) }
    ensures err { OnErr result (out.new.items ≡ out.old.items) }
{
    let before = out.len();
    let put = append_history(out, run);
    if put.is_err() {
        out.truncate(before);
    }
    put
}
