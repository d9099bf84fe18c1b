//! Parses and appends decimal numbers.
ghost use Rattle.std.specs.Prelude.{◌≡◌, ◌+◌, ◌-◌, ◌*◌, ◌^◌, ◌<◌, ◌≤◌, ◌++◌, true, decimal};
ghost use Rattle.std.specs.Prelude.{MatchOption, OnOk};
ghost use Rattle.std.specs.Char.{is_ascii_digit};
ghost use Rattle.text.specs.Numbers.{number_of};

use itoa::Buffer;
use std::alloc::AllocError;

/// Returns the value of a word of decimal digits, or `None` if the word is empty, has another byte,
/// or its value is 2^64 or more. Leading zeros are allowed; a sign is not.
///
/// Cost: the length of the word.
pub fn parse_number(word: &[u8]) -> Option<u64>
    ensures { result ≡ number_of word.now }
{
    if word.is_empty() {
        return None;
    }
    let mut value = 0u64;
    for digit in word {
        let Some(longer) = append_digit(value, *digit) else {
            return None;
        };
        value = longer;
    }
    Some(value)
}

/// Returns ten times a value plus a digit, or `None` if the byte is no digit or the result exceeds
/// `u64`.
fn append_digit(value: u64, digit: u8) -> Option<u64>
    ensures { MatchOption result
        (is_ascii_digit digit ≡ true → 2 ^ 64 ≤ value * 10 + (digit - 48))
        (λ longer. (is_ascii_digit digit ≡ true)
        × (longer ≡ value * 10 + (digit - 48)) × (longer < 2 ^ 64)) }
{
    if !digit.is_ascii_digit() {
        return None;
    }
    value.checked_mul(10)?.checked_add(u64::from(digit - b'0'))
}

/// Appends the digits of a number, without leading zeros.
///
/// Errors: an allocation fails; the text is then unspecified. Cost: amortized, a constant.
pub fn push_number(text: &mut Vec<u8>, number: u64) -> Result<(), AllocError>
    ensures { OnOk result (text.new.items ≡ text.old.items ++ decimal number) }
{
    let mut digits = Buffer::new();
    text.extend_from_slice(digits.format(number).as_bytes())
}
