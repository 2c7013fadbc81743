//! Numbers of a text.
ghost use Rattle.std.specs.Prelude.{◌≡◌, ◌+◌, ◌<◌, ◌≤◌, ◌++◌, Some, None, false, length, drop, if◌then◌else◌, OnErr, OnOk, SomeIff};
ghost use Rattle.std.specs.List.{list_all};
ghost use Rattle.std.specs.Char.{digit_value, is_digit};
ghost use Rattle.std.specs.Fmt.{digit_glyph, digits};
ghost use Rattle.std.specs.Str.Parse.{digits_value};
ghost use Rattle.svsm_text.specs.Numbers.{number_in, number};

use svsm_types::NoMemory;

// The value of each byte as a hex digit, or 255.
static VALUES: [u8; 256] = [
    255, 255, 255, 255, 255, 255, 255, 255, 255, 255, 255, 255, 255, 255, 255, 255, 255, 255, 255,
    255, 255, 255, 255, 255, 255, 255, 255, 255, 255, 255, 255, 255, 255, 255, 255, 255, 255, 255,
    255, 255, 255, 255, 255, 255, 255, 255, 255, 255, 0, 1, 2, 3, 4, 5, 6, 7, 8, 9, 255, 255, 255,
    255, 255, 255, 255, 10, 11, 12, 13, 14, 15, 255, 255, 255, 255, 255, 255, 255, 255, 255, 255,
    255, 255, 255, 255, 255, 255, 255, 255, 255, 255, 255, 255, 255, 255, 255, 255, 10, 11, 12, 13,
    14, 15, 255, 255, 255, 255, 255, 255, 255, 255, 255, 255, 255, 255, 255, 255, 255, 255, 255,
    255, 255, 255, 255, 255, 255, 255, 255, 255, 255, 255, 255, 255, 255, 255, 255, 255, 255, 255,
    255, 255, 255, 255, 255, 255, 255, 255, 255, 255, 255, 255, 255, 255, 255, 255, 255, 255, 255,
    255, 255, 255, 255, 255, 255, 255, 255, 255, 255, 255, 255, 255, 255, 255, 255, 255, 255, 255,
    255, 255, 255, 255, 255, 255, 255, 255, 255, 255, 255, 255, 255, 255, 255, 255, 255, 255, 255,
    255, 255, 255, 255, 255, 255, 255, 255, 255, 255, 255, 255, 255, 255, 255, 255, 255, 255, 255,
    255, 255, 255, 255, 255, 255, 255, 255, 255, 255, 255, 255, 255, 255, 255, 255, 255, 255, 255,
    255, 255, 255, 255, 255, 255, 255, 255, 255, 255, 255, 255, 255, 255, 255, 255, 255, 255, 255,
    255, 255, 255,
];

// The value of a hex digit.
#[inline(always)]
fn digit_of(byte: u8) -> Option<u64>
    ensures { SomeIff result (digit_value byte < 16) (digit_value byte) }
{
    let value = VALUES[byte as usize];
    if value < 16 {
        Some(u64::from(value))
    } else {
        None
    }
}

// The number that at most 16 hex digits write. None where a byte is no digit.
fn value_of(digits: &[u8]) -> Option<u64>
    requires { length digits.now ≤ 16 }
    ensures { result ≡ (if list_all (λ c. is_digit c 16) digits.now then Some (digits_value 16 digits.now) else None) }
{
    let mut value = 0u64;
    for digit in digits {
        let digit = digit_of(*digit)?;
        value = value * 16 + digit;
    }
    Some(value)
}

/// The number of `0x` and 1 to 16 hex digits of either case. None exactly where the bytes are not of
/// this form.
pub fn read_hex(bytes: &[u8]) -> Option<u64>
    ensures { result ≡ number_in bytes.now }
{
    let digits = bytes.strip_prefix(b"0x")?;
    if digits.is_empty() || digits.len() > 16 {
        return None;
    }
    value_of(digits)
}

static GLYPHS: [u8; 16] = [
    b'0', b'1', b'2', b'3', b'4', b'5', b'6', b'7', b'8', b'9', b'a', b'b', b'c', b'd', b'e', b'f',
];

// The lower-case digit.
#[inline(always)]
fn glyph_of(digit: u64) -> u8
    requires { digit < 16 }
    ensures { result ≡ digit_glyph false digit }
{
    GLYPHS[digit as usize]
}

/// Writes the lower-case digits before `end`, and returns where they begin. All behind them stays.
pub fn write_digits(value: u64, text: &mut [u8], end: usize) -> usize
    requires least { 16 ≤ end }
    requires most { end ≤ length text.old }
    ensures low { end ≤ result + 16 }
    ensures high { result < end }
    ensures digits { drop result text.new ≡ digits 16 false value ++ drop end text.old }
{
    let mut at = end - 1;
    let mut rest = value;
    'digits: while rest >= 16 {
        text[at] = glyph_of(rest % 16);
        rest /= 16;
        at -= 1;
    }
    text[at] = glyph_of(rest);
    at
}

/// Appends `0x` and the lower-case digits, without leading zeros.
pub fn put_hex(out: &mut Vec<u8>, value: u64) -> Result<(), NoMemory>
    ensures appended { OnOk result (out.new.items ≡ out.old.items ++ number value) }
    ensures memory { OnErr result (out.new.items ≡ out.old.items) }
{
    let mut text = [0u8; 18];
    let at = write_digits(value, &mut text, 18);
    text[at - 1] = b'x';
    text[at - 2] = b'0';
    out.extend_from_slice(&text[at - 2..])?;
    Ok(())
}
