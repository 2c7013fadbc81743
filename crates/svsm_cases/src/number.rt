//! Numbers as a person writes them.
use anyhow::{Context, Result};

/// The value of decimal digits, or of hexadecimal ones behind `0x`.
pub fn number_of(word: &str) -> Result<u64> {
    match word.strip_prefix("0x") {
        Some(digits) => u64::from_str_radix(digits, 16).context(format_args!("no number: {word}")),
        None => word
            .parse::<u64>()
            .context(format_args!("no number: {word}")),
    }
}
