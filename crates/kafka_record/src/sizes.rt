ghost use Rattle.std.specs.Prelude.{◌≡◌, ◌+◌, ◌*◌, ◌^◌, ◌<◌, ◌≤◌, pos, length, All, IfSome};
ghost use Rattle.std.specs.List.{flat_map};
ghost use Rattle.wire_spec.specs.Varint.{varint};
ghost use Rattle.wire_spec.specs.RecordSpelling.{HeaderFits, RecordFits, nullable, header, record_body, record_spelling};
ghost use Rattle.kafka_record.specs.Parts.{record_with};

use crate::headers::{HeadersIn, HeadersRef, spelled_bytes};
use crate::nullable::NullableBytes;
use varint::{len32, len64};
use wire_spec::{
    Header, MAX_BODY_SIZE, MAX_HEADER_SIZE, MAX_HEADERS, MAX_RECORD_SIZE, MAX_VALUE, Record,
};

/// How many bytes a length takes, and what it is the length of.
#[inline(always)]
pub(crate) fn string_len(len: usize) -> usize
    requires { len < 2 ^ 31 }
    ensures size { result ≡ length (varint (pos len)) + len }
    ensures small { result ≤ 5 + len }
{
    len32(len as i32) + len
}

fn nullable_len(part: &NullableBytes) -> usize
    requires { IfSome part.now (λ b. length b ≤ MAX_VALUE) }
    ensures { result ≡ length (nullable part.now) }
{
    match part.slice {
        Some(bytes) => string_len(bytes.len()),
        None => len32(-1),
    }
}

fn header_len(one: &Header) -> usize
    requires { HeaderFits one.now }
    ensures size { result ≡ length (header one.now) }
    ensures small { result ≤ MAX_HEADER_SIZE }
{
    string_len(one.key.len()) + nullable_len(&NullableBytes::of(&one.value))
}

fn headers_len(headers: &[Header]) -> usize
    requires few { length headers.now ≤ MAX_HEADERS }
    requires fit { All HeaderFits headers.now }
    ensures size { result ≡ length (flat_map header headers.now) }
    ensures small { result ≤ MAX_HEADER_SIZE * length headers.now }
{
    let mut len = 0;
    for one in headers {
        len += header_len(one);
    }
    len
}

/// How many bytes headers take.
fn all_len(headers: &HeadersRef) -> usize
    requires few { length headers.now ≤ MAX_HEADERS }
    requires fit { All HeaderFits headers.now }
    ensures size { result ≡ length (flat_map header headers.now) }
    ensures small { result ≤ MAX_HEADER_SIZE * length headers.now }
{
    match headers.source {
        HeadersIn::List(list) => headers_len(list),
        HeadersIn::Spelled {
            bytes,
            start,
            end,
            count,
        } => spelled_bytes(bytes.as_slice(), start, end, count).len(),
    }
}

/// How many bytes follow the length of the record with this offset delta and these parts: what the
/// length says.
pub fn body_len(
    timestamp_delta: i64,
    key: &NullableBytes,
    value: &NullableBytes,
    headers: &HeadersRef,
    delta: i32,
) -> usize
    requires { RecordFits (record_with timestamp_delta key.now value.now headers.now) }
    ensures size { result ≡ length (record_body delta (record_with timestamp_delta key.now value.now headers.now)) }
    ensures small { result ≤ MAX_BODY_SIZE }
{
    let timestamp = len64(timestamp_delta);
    let offset = len32(delta);
    let key = nullable_len(key);
    let value = nullable_len(value);
    let count = len32(headers.len() as i32);
    let headers = all_len(headers);
    1 + timestamp + offset + (key + value) + count + headers
}

/// How many bytes the record with this offset delta and these parts takes, its length among them.
pub fn size_of_parts(
    timestamp_delta: i64,
    key: &NullableBytes,
    value: &NullableBytes,
    headers: &HeadersRef,
    delta: i32,
) -> usize
    requires { RecordFits (record_with timestamp_delta key.now value.now headers.now) }
    ensures size { result ≡ length (record_spelling delta (record_with timestamp_delta key.now value.now headers.now)) }
    ensures small { result ≤ MAX_RECORD_SIZE }
{
    string_len(body_len(timestamp_delta, key, value, headers, delta))
}

/// How many bytes the record with this offset delta takes, its length among them.
pub fn size(record: &Record, delta: i32) -> usize
    requires { RecordFits «record».now }
    ensures size { result ≡ length (record_spelling delta «record».now) }
    ensures small { result ≤ MAX_RECORD_SIZE }
{
    size_of_parts(
        record.timestamp_delta,
        &NullableBytes::of(&record.key),
        &NullableBytes::of(&record.value),
        &HeadersRef::of(&record.headers),
        delta,
    )
}
