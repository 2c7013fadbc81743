//! The words of an image.
ghost use Rattle.std.specs.Prelude.{◌≡◌, bytes_eq};
ghost use Rattle.image_grammar.specs.Words.{line_word, format_word, owner_word, state_word, value_word, event_word};

use image_grammar::{EventWord, Format, LineWord, ValueWord};
use svsm_types::{HwState, Owner};

/// Whether a field is this word.
pub fn is_word(field: &[u8], word: &str) -> bool
    ensures { result ≡ bytes_eq field.now word.now }
{
    field == word.as_bytes()
}

pub fn line_word(word: &[u8]) -> Option<LineWord>
    ensures { result ≡ line_word word.now }
{
    if is_word(word, "range") {
        Some(LineWord::Range)
    } else if is_word(word, "large") {
        Some(LineWord::Large)
    } else if is_word(word, "accept") {
        Some(LineWord::Accept)
    } else if is_word(word, "core") {
        Some(LineWord::Core)
    } else if is_word(word, "bytes") {
        Some(LineWord::Bytes)
    } else if is_word(word, "fault") {
        Some(LineWord::Fault)
    } else if is_word(word, "host") {
        Some(LineWord::Host)
    } else if is_word(word, "pool") {
        Some(LineWord::Pool)
    } else if is_word(word, "block") {
        Some(LineWord::Block)
    } else if is_word(word, "announce") {
        Some(LineWord::Announce)
    } else {
        None
    }
}

pub fn format_word(word: &[u8]) -> Option<Format>
    ensures { result ≡ format_word word.now }
{
    if is_word(word, "1") {
        Some(Format::One)
    } else if is_word(word, "2") {
        Some(Format::Two)
    } else {
        None
    }
}

pub fn owner_word(word: &[u8]) -> Option<Owner>
    ensures { result ≡ owner_word word.now }
{
    if is_word(word, "guest") {
        Some(Owner::Guest)
    } else if is_word(word, "module") {
        Some(Owner::Module)
    } else if is_word(word, "pool") {
        Some(Owner::Pool)
    } else if is_word(word, "vmsa") {
        Some(Owner::Vmsa)
    } else {
        None
    }
}

pub fn state_word(word: &[u8]) -> Option<HwState>
    ensures { result ≡ state_word word.now }
{
    if is_word(word, "shared") {
        Some(HwState::Shared)
    } else if is_word(word, "assigned") {
        Some(HwState::Assigned)
    } else if is_word(word, "valid") {
        Some(HwState::Valid)
    } else {
        None
    }
}

pub fn value_word(word: &[u8]) -> Option<ValueWord>
    ensures { result ≡ value_word word.now }
{
    if is_word(word, "info") {
        Some(ValueWord::Info)
    } else if is_word(word, "features") {
        Some(ValueWord::Features)
    } else if is_word(word, "share") {
        Some(ValueWord::Share)
    } else if is_word(word, "ghcb") {
        Some(ValueWord::Ghcb)
    } else if is_word(word, "step") {
        Some(ValueWord::Step)
    } else {
        None
    }
}

pub fn event_word(word: &[u8]) -> Option<EventWord>
    ensures { result ≡ event_word word.now }
{
    if is_word(word, "exit") {
        Some(EventWord::Exit)
    } else if is_word(word, "change") {
        Some(EventWord::Change)
    } else if is_word(word, "run") {
        Some(EventWord::Run)
    } else {
        None
    }
}
