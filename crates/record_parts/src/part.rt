//! Which part of a record a number names.

ghost use Rattle.std.specs.Prelude.{◌≡◌};
ghost use Rattle.machine_spec.specs.Parts as definitions;

use kafka_record::{NullableBytes, RecordRef};
use machine_spec::Part;

/// The part of a record, if the record has it.
pub(crate) fn part_of<'a>(given: &RecordRef<'a>, part: Part) -> Option<NullableBytes<'a>>
    ensures { result ≡ definitions.part_in given.now part }
{
    match part {
        Part::Value => Some(given.value()),
        Part::Key => Some(given.key()),
        Part::HeaderKey(position) => {
            let header = given.headers().get(position)?;
            Some(NullableBytes::new(Some(header.key)))
        }
        Part::HeaderValue(position) => {
            let header = given.headers().get(position)?;
            Some(NullableBytes::new(header.value))
        }
    }
}

/// The bytes of a part. A null one has none, and so has one that the record hasn't.
pub fn part_bytes<'a>(given: &RecordRef<'a>, part: Part) -> &'a [u8]
    ensures { result.now ≡ definitions.part_bytes given.now part }
{
    match part_of(given, part) {
        Some(bytes) => bytes.as_slice().unwrap_or(&[]),
        None => &[],
    }
}

/// 0 where the record hasn't the part, 1 where it is null, else its length in bytes plus 2.
pub fn part_length(given: &RecordRef, part: Part) -> u64
    ensures { result ≡ definitions.part_length given.now part }
{
    match part_of(given, part) {
        Some(bytes) => match bytes.as_slice() {
            Some(bytes) => bytes.len() as u64 + 2,
            None => 1,
        },
        None => 0,
    }
}
