//! Which words are a command.
ghost use Rattle.std.specs.Prelude.{◌≡◌, map, string_bytes, is_some, not, ◌||◌, ◌&&◌, bytes_eq, codes};
ghost use Rattle.command_words.specs.Words.{is_flag, is_end, run_in, run_of, brief_in, flags, others, gen_in, gen_of, save_in, audit_in};
ghost use Rattle.command_words.specs.Scan.{is_number_at, are_plain};

use crate::decimal::{number_between, number_of};

fn is_flag(word: &str) -> bool
    ensures { result ≡ is_flag word.now }
{
    match word.as_bytes() {
        [first, ..] => *first == b'-',
        [] => false,
    }
}

fn is_end(word: &str) -> bool
    ensures { result ≡ is_end word.now }
{
    word == "--"
}

// Whether the word is a name: the flags are ended, or it is none.
fn is_name(ended: bool, word: &str) -> bool
    ensures { result ≡ (ended || not (is_flag word.now)) }
{
    ended || !is_flag(word)
}

// Whether the word is the flag, which was not given before.
fn is_first_brief(given: bool, word: &str) -> bool
    ensures { result ≡ (not given && bytes_eq word.now (codes "--brief")) }
{
    !given && word == "--brief"
}

// Whether the words after `run` are a run.
fn are_of_run(words: &[String]) -> bool
    ensures { result ≡ is_some (run_of (brief_in (flags (map string_bytes words.now))) (others (map string_bytes words.now))) }
{
    let mut ended = false;
    let mut brief = false;
    let mut names: usize = 0;
    for word in words {
        let text = word.as_str();
        if is_name(ended, text) {
            names += 1;
        } else if is_end(text) {
            ended = true;
        } else if is_first_brief(brief, text) {
            brief = true;
        } else {
            return false;
        }
    }
    (2..=65).contains(&names)
}

/// Whether the words ask for a run.
pub fn is_run(words: &[String]) -> bool
    ensures { result ≡ is_some (run_in (map string_bytes words.now)) }
{
    match words {
        [word, rest @ ..] if word.as_str() == "run" => are_of_run(rest),
        _ => false,
    }
}

// Whether the word is the number with this place: cores, requests, number.
fn is_number(place: usize, word: &str) -> bool
    ensures { result ≡ is_number_at place word.now }
{
    match place {
        0 => number_between(1, 16, word).is_some(),
        1 => number_between(1, 128, word).is_some(),
        2 => number_of(word).is_some(),
        _ => false,
    }
}

// Whether the words after `gen` are its numbers.
fn are_of_gen(words: &[String]) -> bool
    ensures { result ≡ is_some (gen_of (flags (map string_bytes words.now)) (others (map string_bytes words.now))) }
{
    let mut ended = false;
    let mut numbers: usize = 0;
    for word in words {
        let text = word.as_str();
        if is_name(ended, text) {
            if is_number(numbers, text) {
                numbers += 1;
            } else {
                return false;
            }
        } else if is_end(text) {
            ended = true;
        } else {
            return false;
        }
    }
    numbers == 3
}

// Whether the words after a name are no flags, and so many others.
fn are_plain(words: &[String], least: usize, most: usize) -> bool
    ensures { result ≡ are_plain least most (flags (map string_bytes words.now)) (others (map string_bytes words.now)) }
{
    let mut ended = false;
    let mut names: usize = 0;
    for word in words {
        let text = word.as_str();
        if is_name(ended, text) {
            names += 1;
        } else if is_end(text) {
            ended = true;
        } else {
            return false;
        }
    }
    least <= names && names <= most
}

/// Whether the words ask for a run to be saved.
pub fn is_save(words: &[String]) -> bool
    ensures { result ≡ is_some (save_in (map string_bytes words.now)) }
{
    match words {
        [word, rest @ ..] if word.as_str() == "save" => are_plain(rest, 2, 65),
        _ => false,
    }
}

/// Whether the words ask for an audit.
pub fn is_audit(words: &[String]) -> bool
    ensures { result ≡ is_some (audit_in (map string_bytes words.now)) }
{
    match words {
        [word, rest @ ..] if word.as_str() == "audit" => are_plain(rest, 3, 66),
        _ => false,
    }
}

/// Whether the words ask for generated scripts.
pub fn is_gen(words: &[String]) -> bool
    ensures { result ≡ is_some (gen_in (map string_bytes words.now)) }
{
    match words {
        [word, rest @ ..] if word.as_str() == "gen" => are_of_gen(rest),
        _ => false,
    }
}
