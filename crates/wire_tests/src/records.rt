use crate::verdicts::all_hold;
use bytes::Bytes;
use kafka_record::{
    Header, Headers, Record, RecordFault, fits, read, read_span, share, size, write,
};
use std::alloc::Global;
use std::test::*;

/// A byte 9, and behind it the record as it is written. None where it does not fit.
fn written(alloc: Global, record: &Record, delta: i32) -> Option<Vec<u8>> {
    if !fits(record) {
        return None;
    }
    let mut out = Vec::new(alloc);
    out.push(9).ok()?;
    write(record, delta, &mut out).ok()?;
    Some(out)
}

fn has_size(record: &Record, delta: i32, count: usize) -> bool {
    fits(record) && size(record, delta) == count
}

/// Whether the record is written as these bytes, behind what was there.
fn is_written_as(alloc: Global, record: &Record, delta: i32, bytes: &[u8]) -> bool {
    match written(alloc, record, delta) {
        Some(out) => has_size(record, delta, bytes.len()) && out.get(1..) == Some(bytes),
        None => false,
    }
}

/// The record of all these bytes. None where there is none, or it is not written as them again.
fn round_trip(alloc: Global, bytes: &'static [u8], delta: i32) -> Option<Record> {
    let (record, used) = read(alloc, &Bytes::from_static(bytes), 0, delta).ok()?;
    if used == bytes.len() && is_written_as(alloc, &record, delta, bytes) {
        Some(record)
    } else {
        None
    }
}

/// Whether no record begins there that is read as a span of the bytes.
fn is_bad_span(bytes: &[u8], at: usize, delta: i32) -> bool {
    if at > bytes.len() || bytes.len() > 1_000 {
        return at > bytes.len();
    }
    matches!(read_span(bytes, at, delta), Err(RecordFault::Bad))
}

fn is_bad(alloc: Global, bytes: &'static [u8], at: usize, delta: i32) -> bool {
    let whole = read(alloc, &Bytes::from_static(bytes), at, delta);
    matches!(whole, Err(RecordFault::Bad)) && is_bad_span(bytes, at, delta)
}

fn has_text(text: &Option<Bytes>, want: Option<&[u8]>) -> bool {
    match (text, want) {
        (Some(text), Some(want)) => text.as_slice() == want,
        (None, None) => true,
        _ => false,
    }
}

/// Whether a record has this timestamp delta, this key and this value.
fn is_of(record: &Record, delta: i64, key: Option<&[u8]>, value: Option<&[u8]>) -> bool {
    record.timestamp_delta == delta && has_text(&record.key, key) && has_text(&record.value, value)
}

/// Whether there is one header, with the key `h` and this value.
fn is_one_header(headers: &Headers, value: Option<&[u8]>) -> bool {
    match headers.list.as_slice() {
        [header] => { header.key.as_slice() == b"h".as_slice() && has_text(&header.value, value) }
        _ => false,
    }
}

/// Whether the bytes are read as a record of these, with no headers.
fn is_read_as(
    alloc: Global,
    bytes: &'static [u8],
    key: Option<&[u8]>,
    value: Option<&[u8]>,
) -> bool {
    match round_trip(alloc, bytes, 0) {
        Some(record) => is_of(&record, 0, key, value) && record.headers.list.is_empty(),
        None => false,
    }
}

const KEY_AND_VALUE: &[u8] = &[0x10, 0, 0, 0, 0x02, 0x6b, 0x02, 0x76, 0];

#[test]
fn a_key_and_a_value(rt: HostRuntime) {
    assert!(rt; is_read_as(rt.alloc(), KEY_AND_VALUE, Some(b"k"), Some(b"v")));
}

const LATER: &[u8] = &[0x10, 0, 0, 2, 0x02, 0x6b, 0x02, 0x76, 0];

#[test]
fn an_offset_delta(rt: HostRuntime) {
    assert!(rt; round_trip(rt.alloc(), LATER, 1).is_some());
    assert!(rt; is_bad(rt.alloc(), LATER, 0, 0));
}

/// A null key and an empty value.
const NULL_KEY: &[u8] = &[0x0c, 0, 0, 0, 0x01, 0, 0];

/// A null key, a null value and one header with a null value.
const NULLS: &[u8] = &[0x12, 0, 0, 0, 0x01, 0x01, 0x02, 0x02, 0x68, 0x01];

fn nulls_are_read(alloc: Global) -> bool {
    match round_trip(alloc, NULLS, 0) {
        Some(record) => is_of(&record, 0, None, None) && is_one_header(&record.headers, None),
        None => false,
    }
}

#[test]
fn nulls(rt: HostRuntime) {
    assert!(rt; is_read_as(rt.alloc(), NULL_KEY, None, Some(b"")));
    assert!(rt; nulls_are_read(rt.alloc()));
}

static REFUSED: [&[u8]; 8] = [
    // nothing, and a record cut short
    &[],
    &[0x10, 0, 0, 0, 0x02, 0x6b, 0x02, 0x76],
    // a length one too small, and one too great
    &[0x0e, 0, 0, 0, 0x02, 0x6b, 0x02, 0x76, 0],
    &[0x12, 0, 0, 0, 0x02, 0x6b, 0x02, 0x76, 0, 0],
    // attributes that are not 0
    &[0x10, 1, 0, 0, 0x02, 0x6b, 0x02, 0x76, 0],
    // a key of length -2
    &[0x0c, 0, 0, 0, 0x03, 0, 0],
    // a header with a null key, and one whose key is no text
    &[0x10, 0, 0, 0, 0x01, 0x01, 0x02, 0x01, 0x01],
    &[0x12, 0, 0, 0, 0x01, 0x01, 0x02, 0x02, 0xff, 0x01],
];

/// The number of the first row that is not refused.
fn first_taken(alloc: Global, rows: &[&'static [u8]]) -> Option<usize> {
    for (k, bytes) in rows.iter().enumerate() {
        if !is_bad(alloc, bytes, 0, 0) {
            return Some(k);
        }
    }
    None
}

#[test]
fn refusals(rt: HostRuntime) {
    all_hold(&rt, first_taken(rt.alloc(), &REFUSED));
}

const ENDS: [usize; 3] = [0, 1, usize::MAX];

fn are_past_the_end(alloc: Global, places: &[usize]) -> bool {
    for at in places {
        if !is_bad(alloc, &[], *at, 0) {
            return false;
        }
    }
    true
}

/// Past the end of the bytes no record begins.
#[test]
fn past_the_end(rt: HostRuntime) {
    assert!(rt; are_past_the_end(rt.alloc(), &ENDS));
}

/// The bytes of a record without key and value, whose headers have keys of no bytes and null values.
fn with_headers(alloc: Global, count: usize, start: &[u8]) -> Option<Vec<u8>> {
    let mut bytes = Vec::from_slice(alloc, start).ok()?;
    for _ in 0..count {
        bytes.extend_from_slice(&[0, 0x01]).ok()?;
    }
    Some(bytes)
}

/// Whether a record with `count` headers is read, as it is and as a span; `None` if these differ.
fn is_read(alloc: Global, count: usize, start: &[u8]) -> Option<bool> {
    let bytes = Bytes::from_vec(with_headers(alloc, count, start)?).ok()?;
    let whole = read(alloc, &bytes, 0, 0).is_ok();
    if is_bad_span(bytes.as_slice(), 0, 0) == whole {
        return None;
    }
    Some(whole)
}

#[test]
fn at_most_sixteen_headers(rt: HostRuntime) {
    let alloc = rt.alloc();
    assert!(rt; is_read(alloc, 16, &[0x4c, 0, 0, 0, 0x01, 0x01, 0x20]) == Some(true));
    assert!(rt; is_read(alloc, 17, &[0x50, 0, 0, 0, 0x01, 0x01, 0x22]) == Some(false));
}

/// Whether a record with a key of this length and a null value fits.
fn key_fits(alloc: Global, length: usize) -> Option<bool> {
    let bytes = vec![in alloc; 7; length].ok()?;
    let key = Bytes::from_vec(bytes).ok()?;
    let record = Record {
        timestamp_delta: 0,
        key: Some(key),
        value: None,
        headers: Headers {
            list: Vec::new(alloc),
        },
    };
    Some(fits(&record))
}

#[test]
fn limits(rt: HostRuntime) {
    assert!(rt; key_fits(rt.alloc(), 4096) == Some(true));
    assert!(rt; key_fits(rt.alloc(), 4097) == Some(false));
}

/// A record of the key `key`, a null value and no headers.
fn bare(alloc: Global) -> Option<Record> {
    Some(Record {
        timestamp_delta: -7,
        key: Some(Bytes::copy_from_slice(alloc, b"key").ok()?),
        value: None,
        headers: Headers {
            list: Vec::new(alloc),
        },
    })
}

/// A share of a record that is gone.
fn share_of_gone(alloc: Global) -> Option<Record> {
    let mut given = bare(alloc)?;
    let header = Header {
        key: Bytes::from_static(b"h"),
        value: Some(Bytes::from_static(b"x")),
    };
    given.headers.list.push(header).ok()?;
    share(alloc, &given).ok()
}

fn is_shared(alloc: Global) -> bool {
    match share_of_gone(alloc) {
        Some(shared) => is_of(&shared, -7, Some(b"key"), None)
            && is_one_header(&shared.headers, Some(b"x")),
        None => false,
    }
}

#[test]
fn another_owner(rt: HostRuntime) {
    assert!(rt; is_shared(rt.alloc()));
}
