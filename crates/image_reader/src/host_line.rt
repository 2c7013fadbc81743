//! Lines on what the host answers.
ghost use Rattle.std.specs.Prelude.{◌≡◌, map, IfOk, IsTrue};
ghost use Rattle.svsm_steps.specs.Sound.{is_in_limits};
ghost use Rattle.image_grammar.specs.Told.{told};
ghost use Rattle.image_grammar.specs.Words.{value_word, event_word};
ghost use Rattle.image_grammar.specs.Forms.{host_value, event_of, limited, value_in, ap_in, event_in, host_line};

use crate::told::{holds, number};
use crate::words::{event_word, is_word, value_word};
use image_grammar::{EventWord, ImageKind, ValueWord};
use svsm_types::HostLine;

const MOST_ENTRIES: u64 = 253;

const MOST_CORES: u64 = 64;

fn value_named(field: &[u8]) -> Result<ValueWord, ImageKind>
    ensures { result ≡ told ImageKind.Line (value_word field.now) }
{
    value_word(field).ok_or(ImageKind::Line)
}

fn event_named(field: &[u8]) -> Result<EventWord, ImageKind>
    ensures { result ≡ told ImageKind.Line (event_word field.now) }
{
    event_word(field).ok_or(ImageKind::Line)
}

fn value_of(word: ValueWord, value: u64) -> Result<HostLine, ImageKind>
    ensures told { result ≡ limited (host_value word value) }
    ensures within { IfOk result (λ line. IsTrue (is_in_limits line)) }
{
    match word {
        ValueWord::Info => Ok(HostLine::Info(value)),
        ValueWord::Features => Ok(HostLine::Features(value)),
        ValueWord::Share => Ok(HostLine::Share(value)),
        ValueWord::Ghcb => Ok(HostLine::Ghcb(value)),
        ValueWord::Step => {
            holds(ImageKind::Range, value <= MOST_ENTRIES)?;
            Ok(HostLine::Pace(value))
        }
    }
}

fn exit_of(number: u64, cur: u64, error: u64) -> Result<HostLine, ImageKind>
    ensures told { result ≡ limited (event_of EventWord.Exit number cur error) }
    ensures within { IfOk result (λ line. IsTrue (is_in_limits line)) }
{
    holds(ImageKind::Range, cur <= 0xffff)?;
    Ok(HostLine::Exit {
        number,
        cur: cur as u16,
        error,
    })
}

fn change_of(number: u64, index: u64, word: u64) -> Result<HostLine, ImageKind>
    ensures told { result ≡ limited (event_of EventWord.Change number index word) }
    ensures within { IfOk result (λ line. IsTrue (is_in_limits line)) }
{
    holds(ImageKind::Range, index < MOST_ENTRIES)?;
    Ok(HostLine::Change {
        number,
        index: index as u16,
        word,
    })
}

fn run_of(core: u64, number: u64, got: u64) -> Result<HostLine, ImageKind>
    ensures told { result ≡ limited (event_of EventWord.Run core number got) }
    ensures within { IfOk result (λ line. IsTrue (is_in_limits line)) }
{
    holds(ImageKind::Range, core < MOST_CORES)?;
    Ok(HostLine::Run {
        core: core as u32,
        number,
        got,
    })
}

fn event_of(word: EventWord, a: u64, b: u64, c: u64) -> Result<HostLine, ImageKind>
    ensures told { result ≡ limited (event_of word a b c) }
    ensures within { IfOk result (λ line. IsTrue (is_in_limits line)) }
{
    match word {
        EventWord::Exit => exit_of(a, b, c),
        EventWord::Change => change_of(a, b, c),
        EventWord::Run => run_of(a, b, c),
    }
}

fn value_in(word: &[u8], value: &[u8]) -> Result<HostLine, ImageKind>
    ensures told { result ≡ value_in word.now value.now }
    ensures within { IfOk result (λ line. IsTrue (is_in_limits line)) }
{
    let word = value_named(word)?;
    let value = number(value)?;
    value_of(word, value)
}

fn ap_in(word: &[u8], exit: &[u8], error: &[u8]) -> Result<HostLine, ImageKind>
    ensures told { result ≡ ap_in word.now exit.now error.now }
    ensures within { IfOk result (λ line. IsTrue (is_in_limits line)) }
{
    holds(ImageKind::Line, is_word(word, "ap"))?;
    let exit = number(exit)?;
    let error = number(error)?;
    Ok(HostLine::Ap {
        number: exit,
        error,
    })
}

fn event_in(word: &[u8], a: &[u8], b: &[u8], c: &[u8]) -> Result<HostLine, ImageKind>
    ensures told { result ≡ event_in word.now a.now b.now c.now }
    ensures within { IfOk result (λ line. IsTrue (is_in_limits line)) }
{
    let word = event_named(word)?;
    let a = number(a)?;
    let b = number(b)?;
    let c = number(c)?;
    event_of(word, a, b, c)
}

/// The host line of these fields, behind the word.
pub fn host_line(fields: &[&[u8]]) -> Result<HostLine, ImageKind>
    ensures told { result ≡ host_line (map (λ field. field.now) fields.entry.now) }
    ensures within { IfOk result (λ line. IsTrue (is_in_limits line)) }
{
    match fields {
        [word, value] => value_in(word, value),
        [word, exit, error] => ap_in(word, exit, error),
        [word, a, b, c] => event_in(word, a, b, c),
        _ => Err(ImageKind::Line),
    }
}
