//! Numbers and distances as texts spell them.

ghost use Rattle.std.specs.Prelude.{◌≡◌, ◌+◌, ◌*◌, ◌-◌, ◌^◌, ◌≤◌, min, IsTrue, IfSome};
ghost use Rattle.std.specs.List.{list_all};
ghost use Rattle.std.specs.Char.{is_ascii_digit};
ghost use Rattle.std.specs.Str.Parse.{digits_value};
ghost use Rattle.bpf_asm.specs.Numbers as definitions;

/// Past every number that a line may have; a greater one counts as this.
const LIMIT: u128 = 0x1_0000_0000_0000_0000;

fn is_digit(byte: u8) -> bool
    ensures { result ≡ is_ascii_digit byte }
{
    byte.is_ascii_digit()
}

fn are_all_digits(text: &[u8]) -> bool
    ensures { result ≡ list_all is_ascii_digit text.now }
{
    text.iter().all(|byte| is_digit(*byte))
}

/// Whether a text is one decimal digit or more.
pub fn is_digits(text: &[u8]) -> bool
    ensures { result ≡ definitions.is_digits text.now }
{
    !text.is_empty() && are_all_digits(text)
}

/// Whether a text is digits, of which the first is 0 only where it is alone.
fn is_natural(text: &[u8]) -> bool
    ensures { result ≡ definitions.is_natural text.now }
{
    is_digits(text) && (text.len() == 1 || text[0] != b'0')
}

/// A number with one more digit.
fn with_digit(number: u128, digit: u8) -> u128
    requires number { number ≤ 2 ^ 64 }
    requires digit { IsTrue (is_ascii_digit digit) }
    ensures { result ≡ min (10 * number + (digit - 48)) (2 ^ 64) }
{
    (10 * number + u128::from(digit - b'0')).min(LIMIT)
}

/// The number that digits spell.
fn value(digits: &[u8]) -> u128
    requires { IsTrue (list_all is_ascii_digit digits.now) }
    ensures { result ≡ min (digits_value 10 digits.now) (2 ^ 64) }
{
    let mut number = 0u128;
    for digit in digits {
        number = with_digit(number, *digit);
    }
    number
}

/// The number that a text spells without a sign, if it spells one; one past 2^64 counts as 2^64.
pub fn natural(text: &[u8]) -> Option<u128>
    ensures is { result ≡ definitions.natural text.now }
    ensures is_small { IfSome result (λ n. n ≤ 2 ^ 64) }
{
    if !is_natural(text) {
        return None;
    }
    Some(value(text))
}

fn positive(number: Option<u128>) -> Option<i128>
    requires { IfSome number (λ n. n ≤ 2 ^ 64) }
    ensures { result ≡ definitions.positive number }
{
    match number {
        Some(number) => Some(number as i128),
        None => None,
    }
}

/// The number below 0; 0 has no sign.
fn negative(number: Option<u128>) -> Option<i128>
    requires { IfSome number (λ n. n ≤ 2 ^ 64) }
    ensures { result ≡ definitions.negative number }
{
    match number {
        Some(0) | None => None,
        Some(number) => Some(-(number as i128)),
    }
}

/// The number that a text spells, with `-` where it is below 0, if it spells one; one past 2^64 in
/// size counts as 2^64.
pub fn number(text: &[u8]) -> Option<i128>
    ensures { result ≡ definitions.written_number text.now }
{
    if text.first() == Some(&b'-') {
        negative(natural(&text[1..]))
    } else {
        positive(natural(text))
    }
}

/// The distance that a text spells, with `+` or `-`, if it spells one; one past 2^64 in size counts
/// as 2^64.
pub fn distance(text: &[u8]) -> Option<i128>
    ensures { result ≡ definitions.distance_of text.now }
{
    match text.first() {
        Some(b'+') => positive(natural(&text[1..])),
        Some(b'-') => negative(natural(&text[1..])),
        _ => None,
    }
}
