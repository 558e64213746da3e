//! What a record has of a part.

ghost use Rattle.std.specs.Prelude.{◌≡◌, option_map, find};
ghost use Rattle.std.specs.Str.{bytes_eq};
ghost use Rattle.rules.specs.Meaning as definitions;

use crate::rule::Part;
use kafka_record::{HeaderRef, HeadersRef, RecordRef};

/// The first of some headers with a key.
fn first_named<'a>(headers: &HeadersRef<'a>, key: &[u8]) -> Option<HeaderRef<'a>>
    ensures { result ≡ definitions.header_named key.now headers.now }
{
    let mut rest = headers.again();
    for _ in 0..headers.len() {
        let header = rest.take_first()?;
        if header.key == key {
            return Some(header);
        }
    }
    None
}

/// The value of the first header with a key, if there is one and it is not null.
fn header_bytes<'a>(headers: &HeadersRef<'a>, key: &[u8]) -> Option<&'a [u8]>
    ensures { option_map (λ b. b.now) result ≡ definitions.header_bytes (definitions.header_named key.now headers.now) }
{
    match first_named(headers, key) {
        Some(header) => header.value,
        None => None,
    }
}

/// The bytes of a part; none where it is null or absent.
pub fn part_bytes<'a>(part: &Part, given: &RecordRef<'a>) -> Option<&'a [u8]>
    ensures { option_map (λ b. b.now) result ≡ definitions.part_bytes part.now given.now }
{
    match part {
        Part::Value => given.value().as_slice(),
        Part::Key => given.key().as_slice(),
        Part::Header(key) => header_bytes(&given.headers(), &key.bytes),
    }
}

/// Whether the record has no such part.
pub fn is_absent(part: &Part, given: &RecordRef) -> bool
    ensures { result ≡ definitions.is_absent part.now given.now }
{
    match part {
        Part::Value | Part::Key => false,
        Part::Header(key) => first_named(&given.headers(), &key.bytes).is_none(),
    }
}

/// Whether a part is there and null.
pub fn is_null(part: &Part, given: &RecordRef) -> bool
    ensures { result ≡ definitions.is_null part.now given.now }
{
    !is_absent(part, given) && part_bytes(part, given).is_none()
}
