//! What a run sees of a record's headers.
ghost use Rattle.std.specs.Prelude.{◌≡◌, length, slice_get};
ghost use Rattle.machine_spec.specs.Machine.{key_bytes, value_bytes, key_answer, value_answer};

use kafka_record::{HeaderRef, RecordRef};

/// What a program gets of a header: bytes of it, and the number that says what was found.
#[derive(Clone, Copy, Debug)]
pub struct HeaderPart<'a> {
    pub bytes: &'a [u8],
    pub answer: u64,
}

/// How many headers a record has.
pub fn header_count(given: &RecordRef) -> u64
    ensures { result ≡ length given.now.headers }
{
    given.headers().len() as u64
}

/// The key of a header, and its length plus 1; no bytes and 0 where there is no header.
fn key_of(header: Option<HeaderRef>) -> HeaderPart
    ensures bytes { result.bytes.now ≡ key_bytes header.entry }
    ensures answer { result.answer ≡ key_answer header.entry }
{
    match header {
        Some(header) => HeaderPart {
            bytes: header.key,
            answer: header.key.len() as u64 + 1,
        },
        None => HeaderPart {
            bytes: &[],
            answer: 0,
        },
    }
}

/// The value of a header, and its length plus 2, or 1 where it is null; no bytes and 0 where there is
/// no header.
fn value_of(header: Option<HeaderRef>) -> HeaderPart
    ensures bytes { result.bytes.now ≡ value_bytes header.entry }
    ensures answer { result.answer ≡ value_answer header.entry }
{
    match header {
        Some(header) => match header.value {
            Some(value) => HeaderPart {
                bytes: value,
                answer: value.len() as u64 + 2,
            },
            None => HeaderPart {
                bytes: &[],
                answer: 1,
            },
        },
        None => HeaderPart {
            bytes: &[],
            answer: 0,
        },
    }
}

/// The key of the header at a position, from 0. It answers the key's length plus 1, or 0 where there
/// is no such header.
pub fn header_key<'a>(given: &RecordRef<'a>, position: u64) -> HeaderPart<'a>
    ensures bytes { result.bytes.now ≡ key_bytes (slice_get given.now.headers position) }
    ensures answer { result.answer ≡ key_answer (slice_get given.now.headers position) }
{
    key_of(given.headers().get(position))
}

/// The value of the header at a position, from 0. It answers 0 where there is no such header, 1 where
/// the value is null, else the value's length plus 2.
pub fn header_value<'a>(given: &RecordRef<'a>, position: u64) -> HeaderPart<'a>
    ensures bytes { result.bytes.now ≡ value_bytes (slice_get given.now.headers position) }
    ensures answer { result.answer ≡ value_answer (slice_get given.now.headers position) }
{
    value_of(given.headers().get(position))
}
