//! The runs of words that are not 0, put together word by word.
ghost use Rattle.std.specs.Prelude.{◌≡◌, ◌+◌, ◌*◌, ◌<◌, ◌^◌, ◌∷◌, [], OnOk, IfOk};
ghost use Rattle.image_text.specs.Collected.{word_put, EndBy};

use std::alloc::Global;
use svsm_types::{Fill, Gpa, NoMemory, Sequence};

fn one_fill(alloc: Global, at: u64, word: u64) -> Result<Fill, NoMemory>
    requires { 8 * at < 2 ^ 64 }
    ensures { IfOk result (λ fill. fill ≡ record { gpa = record { 0 = 8 * at }; words = word ∷ [] }) }
{
    let mut words = Sequence::new(alloc);
    words.push(word)?;
    Ok(Fill {
        gpa: Gpa(8 * at),
        words,
    })
}

/// Adds the word with this number, which is not 0, behind the last of the fills: it joins the last where it stands behind it.
pub fn put_filled(fills: &mut Vec<Fill>, alloc: Global, at: u64, word: u64) -> Result<(), NoMemory>
    requires few { 8 * at < 2 ^ 64 }
    requires ends { EndBy at fills.old.items }
    ensures { OnOk result (fills.new.items ≡ word_put fills.old.items at word) }
{
    let Some(last) = fills.pop() else {
        fills.push(one_fill(alloc, at, word)?)?;
        return Ok(());
    };
    if last.gpa.0 + 8 * last.words.len() as u64 == 8 * at {
        let mut longer = last;
        longer.words.push(word)?;
        fills.push_reserved(longer);
        return Ok(());
    }
    fills.push_reserved(last);
    fills.push(one_fill(alloc, at, word)?)?;
    Ok(())
}
