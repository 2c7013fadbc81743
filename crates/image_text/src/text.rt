//! Fields and lines of a text. On want of memory a front of them may stand.
ghost use Rattle.std.specs.Prelude.{◌≡◌, ◌∷◌, [], ◌++◌, OnOk};
ghost use Rattle.svsm_text.specs.Numbers.{number};
ghost use Rattle.image_text.specs.Written.{spaced, owner_field, state_field, words_field};

use svsm_text::put_hex;
use svsm_types::{HwState, NoMemory, Owner};

/// Appends the text.
pub fn put_text(out: &mut Vec<u8>, text: &str) -> Result<(), NoMemory>
    ensures { OnOk result (out.new.items ≡ out.old.items ++ text.now) }
{
    out.extend_from_slice(text.as_bytes())?;
    Ok(())
}

/// Appends a space and the word.
pub fn put_word(out: &mut Vec<u8>, word: &str) -> Result<(), NoMemory>
    ensures { OnOk result (out.new.items ≡ out.old.items ++ spaced word.now) }
{
    put_text(out, " ")?;
    put_text(out, word)
}

/// Appends a space and the number.
pub fn put_number(out: &mut Vec<u8>, value: u64) -> Result<(), NoMemory>
    ensures { OnOk result (out.new.items ≡ out.old.items ++ spaced (number value)) }
{
    put_text(out, " ")?;
    put_hex(out, value)
}

/// Ends the line.
pub fn put_newline(out: &mut Vec<u8>) -> Result<(), NoMemory>
    ensures { OnOk result (out.new.items ≡ out.old.items ++ 10 ∷ []) }
{
    out.push(b'\n')?;
    Ok(())
}

pub fn owner_field(owner: Owner) -> &'static str
    ensures { result.now ≡ owner_field owner }
{
    match owner {
        Owner::Guest => "guest",
        Owner::Module => "module",
        Owner::Pool => "pool",
        Owner::Vmsa => "vmsa",
    }
}

pub fn state_field(state: HwState) -> &'static str
    ensures { result.now ≡ state_field state }
{
    match state {
        HwState::Shared => "shared",
        HwState::Assigned => "assigned",
        HwState::Valid => "valid",
    }
}

/// Appends the words, each as 16 digits.
pub fn put_words(out: &mut Vec<u8>, words: &[u64]) -> Result<(), NoMemory>
    ensures { OnOk result (out.new.items ≡ out.old.items ++ words_field words.now) }
{
    for word in words {
        let mut digits = [0u8; 16];
        let _ = hex::encode_to_slice(word.to_le_bytes(), &mut digits);
        out.extend_from_slice(&digits)?;
    }
    Ok(())
}
