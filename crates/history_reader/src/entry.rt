//! An entry, by the fields of its line.
ghost use Rattle.std.specs.Prelude.{◌≡◌, map};
ghost use Rattle.history_reader.specs.Fields.{answered, with_one, with_two, with_three, with_four, pair_in, numbered_entry, entry_in};

use crate::answer::answer_in;
use crate::step::{id_in, step_of_four, step_of_one, step_of_three, step_of_two};
use crate::words::{StepWord, is_word, step_word};
use svsm_steps::{Answer, Entry, Step};
use svsm_text::read_hex;

fn answered(step: Step, arrow: &[u8], fields: &[&[u8]]) -> Option<(Step, Answer)>
    ensures { result ≡ answered step arrow.now (map (λ field. field.now) fields.entry.now) }
{
    if !is_word(arrow, "->") {
        return None;
    }
    let answer = answer_in(fields)?;
    Some((step, answer))
}

fn with_one(word: StepWord, fields: &[&[u8]]) -> Option<(Step, Answer)>
    ensures { result ≡ with_one word (map (λ field. field.now) fields.entry.now) }
{
    match fields {
        [a, arrow, rest @ ..] => {
            let a = read_hex(a)?;
            let step = step_of_one(word, a)?;
            answered(step, arrow, rest)
        }
        _ => None,
    }
}

fn with_two(word: StepWord, fields: &[&[u8]]) -> Option<(Step, Answer)>
    ensures { result ≡ with_two word (map (λ field. field.now) fields.entry.now) }
{
    match fields {
        [a, b, arrow, rest @ ..] => {
            let a = read_hex(a)?;
            let b = read_hex(b)?;
            let step = step_of_two(word, a, b)?;
            answered(step, arrow, rest)
        }
        _ => None,
    }
}

fn with_three(word: StepWord, fields: &[&[u8]]) -> Option<(Step, Answer)>
    ensures { result ≡ with_three word (map (λ field. field.now) fields.entry.now) }
{
    match fields {
        [a, b, c, arrow, rest @ ..] => {
            let a = read_hex(a)?;
            let b = read_hex(b)?;
            let c = read_hex(c)?;
            let step = step_of_three(word, a, b, c)?;
            answered(step, arrow, rest)
        }
        _ => None,
    }
}

fn with_four(fields: &[&[u8]]) -> Option<(Step, Answer)>
    ensures { result ≡ with_four (map (λ field. field.now) fields.entry.now) }
{
    match fields {
        [a, b, c, d, arrow, rest @ ..] => {
            let a = read_hex(a)?;
            let b = read_hex(b)?;
            let c = read_hex(c)?;
            let d = read_hex(d)?;
            let step = step_of_four(a, b, c, d)?;
            answered(step, arrow, rest)
        }
        _ => None,
    }
}

fn pair_in(word: StepWord, fields: &[&[u8]]) -> Option<(Step, Answer)>
    ensures { result ≡ pair_in word (map (λ field. field.now) fields.entry.now) }
{
    match word {
        StepWord::Adjust => with_four(fields),
        StepWord::Share
        | StepWord::Assign
        | StepWord::Pop
        | StepWord::Commit
        | StepWord::Cancel
        | StepWord::Retire
        | StepWord::Enter
        | StepWord::Leave => with_one(word, fields),
        StepWord::Push
        | StepWord::Remap
        | StepWord::Pend
        | StepWord::Read
        | StepWord::Take
        | StepWord::Load
        | StepWord::Caa
        | StepWord::Drop => with_two(word, fields),
        _ => with_three(word, fields),
    }
}

fn numbered_entry(
    ticket: u64,
    core: u64,
    place: u64,
    word: &[u8],
    fields: &[&[u8]],
) -> Option<Entry>
    ensures { result ≡ numbered_entry ticket core place word.now (map (λ field. field.now) fields.entry.now) }
{
    let core = id_in(core)?;
    let word = step_word(word)?;
    let (step, answer) = pair_in(word, fields)?;
    Some(Entry {
        ticket,
        core,
        place,
        step,
        answer,
    })
}

/// The entry that these fields write, whatever the form of their numbers.
pub fn entry_in(fields: &[&[u8]]) -> Option<Entry>
    ensures { result ≡ entry_in (map (λ field. field.now) fields.entry.now) }
{
    match fields {
        [step, ticket, core, place, word, rest @ ..] => {
            if !is_word(step, "step") {
                return None;
            }
            let ticket = read_hex(ticket)?;
            let core = read_hex(core)?;
            let place = read_hex(place)?;
            numbered_entry(ticket, core, place, word, rest)
        }
        _ => None,
    }
}
