//! Headers by their keys.

ghost use Rattle.std.specs.Prelude.{◌≡◌};
ghost use Rattle.machine_spec.specs.Parts.{header_answer};

use kafka_record::RecordRef;

/// The position of the first header with this key, from 0, plus 1; else 0.
pub fn header(given: &RecordRef, key: &[u8]) -> u64
    ensures { result ≡ header_answer given.now key.now }
{
    match given.headers().position(key) {
        Some(position) => position as u64 + 1,
        None => 0,
    }
}
