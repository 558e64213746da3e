ghost use Rattle.std.specs.Prelude.{◌≡◌, ◌≤◌, ◌↔◌, IsUtf8, All, IfSome, IsTrue, length};
ghost use Rattle.std.specs.Str.{is_utf8};
ghost use Rattle.wire_spec.specs.RecordSpelling.{RecordFits, HeaderFits};

use bytes::Bytes;
use wire_spec::{
    Header, Headers, MAX_HEADER_KEY, MAX_HEADER_VALUE, MAX_HEADERS, MAX_KEY, MAX_VALUE, Record,
};

fn is_within(part: &Option<Bytes>, limit: usize) -> bool
    ensures { IsTrue result ↔ IfSome part.now (λ b. length b ≤ limit) }
{
    match part {
        Some(bytes) => bytes.len() <= limit,
        None => true,
    }
}

/// Whether the bytes are UTF-8, as the key of a header is.
pub fn is_text(bytes: &[u8]) -> bool
    ensures text { IsTrue result ↔ IsUtf8 bytes.now }
    ensures test { result ≡ is_utf8 bytes.now }
{
    std::str::from_utf8(bytes).is_ok()
}

fn header_fits(header: &Header) -> bool
    ensures { IsTrue result ↔ HeaderFits header.now }
{
    header.key.len() <= MAX_HEADER_KEY
        && is_text(&header.key)
        && is_within(&header.value, MAX_HEADER_VALUE)
}

fn headers_fit(headers: &[Header]) -> bool
    ensures { IsTrue result ↔ All HeaderFits headers.now }
{
    for header in headers {
        if !header_fits(header) {
            return false;
        }
    }
    true
}

/// The headers as a slice.
fn slice_of(headers: &Headers) -> &[Header]
    ensures { result.now ≡ headers.now }
{
    &headers.list
}

/// Whether the record is within the limits: a key of at most 4,096 bytes, a value of at most 65,536, at
/// most 16 headers, each with a key of at most 255 bytes of UTF-8 and a value of at most 4,096 bytes.
pub fn fits(record: &Record) -> bool
    ensures { IsTrue result ↔ RecordFits «record».now }
{
    let _delta = record.timestamp_delta;
    if !is_within(&record.key, MAX_KEY) {
        return false;
    }
    if !is_within(&record.value, MAX_VALUE) {
        return false;
    }
    let headers = slice_of(&record.headers);
    headers.len() <= MAX_HEADERS && headers_fit(headers)
}
