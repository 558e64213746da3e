//! Decimal numbers in a part.

ghost use Rattle.std.specs.Prelude.{◌≡◌, ◌^◌, ◌<◌, ◌≤◌, length, Some, None, if◌then◌else◌, IfSome, option_map};
ghost use Rattle.std.specs.List.{list_all};
ghost use Rattle.std.specs.Char.{is_ascii_digit};
ghost use Rattle.std.specs.Str.Parse.{digits_value};
ghost use Rattle.machine_spec.specs.Parts.{part_bytes};
ghost use Rattle.machine_spec.specs.Numbers.{are_digits, decimal_answer};

use crate::ranges::bytes_at;
use kafka_record::RecordRef;
use machine_spec::Part;

/// The most digits of a number that is read: 64 bits hold each such number.
pub const MAX_DIGITS: usize = 18;

/// The number that bytes write, if each is a digit.
fn number_of(bytes: &[u8]) -> Option<u64>
    requires { length bytes.now ≤ MAX_DIGITS }
    ensures number { result ≡ (if list_all is_ascii_digit bytes.now then Some (digits_value 10 bytes.now) else None) }
    ensures small { IfSome result (λ number. number < 10 ^ MAX_DIGITS) }
{
    let mut number = 0;
    for byte in bytes {
        if !byte.is_ascii_digit() {
            return None;
        }
        number = number * 10 + (*byte - b'0') as u64;
    }
    Some(number)
}

/// The number that `count` bytes from a place of a part on write in decimal, plus 1. It is 0 where `count` is
/// not 1 to 18, the part lacks one of the bytes, or one is no ASCII digit.
pub fn decimal(given: &RecordRef, part: Part, place: u64, count: u64) -> u64
    ensures { result ≡ decimal_answer (part_bytes given.now part) place count }
{
    if count == 0 || count > MAX_DIGITS as u64 {
        return 0;
    }
    let Some(bytes) = bytes_at(given, part, place, count) else {
        return 0;
    };
    match number_of(bytes) {
        Some(number) => number + 1,
        None => 0,
    }
}
