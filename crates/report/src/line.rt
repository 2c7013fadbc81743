//! A line, built from its end.
ghost use Rattle.std.specs.Prelude.{◌≡◌, ◌≤◌, ◌+◌, ◌*◌, ◌∷◌, ◌++◌, length, drop, map, flat_map};
ghost use Rattle.svsm_text.specs.Numbers.{number};
ghost use Rattle.report.specs.Text.{spaced};

use svsm_text::write_digits;

/// The bytes that stand before `at`, last of all those behind it.
pub(crate) fn byte_before(line: &mut [u8; 256], at: usize, byte: u8) -> usize
    requires least { 1 ≤ at }
    requires most { at ≤ 256 }
    ensures at { result + 1 ≡ at }
    ensures line { drop result line.new ≡ byte ∷ drop at line.old }
{
    line[at - 1] = byte;
    at - 1
}

pub(crate) fn bytes_before(line: &mut [u8; 256], end: usize, bytes: &[u8]) -> usize
    requires least { length bytes.now ≤ end }
    requires most { end ≤ 256 }
    ensures at { result + length bytes.now ≡ end }
    ensures line { drop result line.new ≡ bytes.now ++ drop end line.old }
{
    let mut at = end;
    let mut left = bytes.len();
    'bytes: while left > 0 {
        left -= 1;
        at = byte_before(line, at, bytes[left]);
    }
    at
}

pub(crate) fn text_before(line: &mut [u8; 256], end: usize, text: &str) -> usize
    requires least { length text.now ≤ end }
    requires most { end ≤ 256 }
    ensures at { result + length text.now ≡ end }
    ensures line { drop result line.new ≡ text.now ++ drop end line.old }
{
    bytes_before(line, end, text.as_bytes())
}

pub(crate) fn number_before(line: &mut [u8; 256], end: usize, value: u64) -> usize
    requires least { 19 ≤ end }
    requires most { end ≤ 256 }
    ensures low { end ≤ result + 19 }
    ensures high { result ≤ end }
    ensures line { drop result line.new ≡ spaced (number value) ++ drop end line.old }
{
    let at = write_digits(value, line, end);
    let at = byte_before(line, at, b'x');
    let at = byte_before(line, at, b'0');
    byte_before(line, at, b' ')
}

pub(crate) fn word_before(line: &mut [u8; 256], end: usize, word: &str) -> usize
    requires least { length word.now + 1 ≤ end }
    requires most { end ≤ 256 }
    ensures at { result + length word.now + 1 ≡ end }
    ensures line { drop result line.new ≡ spaced word.now ++ drop end line.old }
{
    let at = text_before(line, end, word);
    byte_before(line, at, b' ')
}

pub(crate) fn numbers_before(line: &mut [u8; 256], end: usize, numbers: &[u64]) -> usize
    requires least { 19 * length numbers.now ≤ end }
    requires most { end ≤ 256 }
    ensures low { end ≤ result + 19 * length numbers.now }
    ensures high { result ≤ end }
    ensures line { drop result line.new ≡ flat_map spaced (map number numbers.now) ++ drop end line.old }
{
    let mut at = end;
    let mut left = numbers.len();
    'numbers: while left > 0 {
        left -= 1;
        at = number_before(line, at, numbers[left]);
    }
    at
}

pub(crate) fn fields_before(line: &mut [u8; 256], end: usize, word: &str, numbers: &[u64]) -> usize
    requires least { length word.now + 1 + 19 * length numbers.now ≤ end }
    requires most { end ≤ 256 }
    ensures low { end ≤ result + (length word.now + 1 + 19 * length numbers.now) }
    ensures high { result ≤ end }
    ensures line { drop result line.new ≡ flat_map spaced (word.now ∷ map number numbers.now) ++ drop end line.old }
{
    let at = numbers_before(line, end, numbers);
    word_before(line, at, word)
}
