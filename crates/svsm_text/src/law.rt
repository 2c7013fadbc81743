//! Reading undoes writing.
ghost use Rattle.std.specs.Prelude.{◌≡◌, ℕ, ◌<◌, ◌^◌, Some};
ghost use Rattle.svsm_text.specs.Numbers.{number_in, number};

/// What is written of a number of 64 bits is read as the same number.
pub fn reads_what_was_put()
    ensures { (value : ℕ) → value < 2 ^ 64 → number_in (number value) ≡ Some value }
{}
