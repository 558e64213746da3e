//! Numbers that digits spell.

ghost use Rattle.std.specs.Prelude.{◌≡◌, ◌+◌, ◌*◌, ◌^◌, ◌≤◌, min, IsTrue};
ghost use Rattle.std.specs.List.{list_all};
ghost use Rattle.std.specs.Char as char;
ghost use Rattle.std.specs.Str.Parse.{digits_value};
ghost use Rattle.rules.specs.Numbers as definitions;

/// Past every number of 64 bits; a greater one counts as this.
const LIMIT: u128 = 0x1_0000_0000_0000_0000;

/// The value of a digit, a letter counting from 10; 36 of what is none.
pub fn digit_value(byte: u8) -> u8
    ensures { result ≡ char.digit_value byte }
{
    match byte {
        b'0'..=b'9' => byte - b'0',
        b'A'..=b'Z' => byte - b'A' + 10,
        b'a'..=b'z' => byte - b'a' + 10,
        _ => 36,
    }
}

/// Whether a byte is a digit of a base.
pub fn is_digit(byte: u8, base: u8) -> bool
    ensures { result ≡ char.is_digit byte base }
{
    digit_value(byte) < base
}

fn are_digits(text: &[u8], base: u8) -> bool
    ensures { result ≡ list_all (λ d. char.is_digit d base) text.now }
{
    for byte in text {
        if !is_digit(*byte, base) {
            return false;
        }
    }
    true
}

/// A number with one more digit.
fn with_digit(number: u128, base: u8, digit: u8) -> u128
    requires { number ≤ 2 ^ 64 }
    ensures { result ≡ min (number * base + char.digit_value digit) (2 ^ 64) }
{
    number
        .saturating_mul(u128::from(base))
        .saturating_add(u128::from(digit_value(digit)))
        .min(LIMIT)
}

/// The number that digits spell; one past 2^64 counts as 2^64.
fn value(digits: &[u8], base: u8) -> u128
    requires { 1 ≤ base }
    ensures { result ≡ min (digits_value base digits.now) (2 ^ 64) }
{
    let mut number = 0u128;
    for digit in digits {
        number = with_digit(number, base, *digit);
    }
    number
}

/// The number that digits of a base spell, where there is one at least and 64 bits hold it.
pub fn digits_number(digits: &[u8], base: u8) -> Option<u64>
    requires { 1 ≤ base }
    ensures { result ≡ definitions.digits_number base digits.now }
{
    if digits.is_empty() || !are_digits(digits, base) {
        return None;
    }
    let number = value(digits, base);
    if number < LIMIT {
        Some(number as u64)
    } else {
        None
    }
}
