ghost use Rattle.std.specs.Prelude.{◌≡◌, ◌+◌, ◌^◌, ◌<◌, ◌≤◌, ℤ, pos, ◌∷◌, [], ◌++◌, length, vec_len, vec_capacity, All, IfOk, IfSome, OnOk, OnErr};
ghost use Rattle.std.specs.List.{flat_map};
ghost use Rattle.wire_spec.specs.Varint.{varint, varlong};
ghost use Rattle.wire_spec.specs.RecordSpelling.{HeaderFits, RecordFits, string, nullable, header, record_body, record_spelling};
ghost use Rattle.kafka_record.specs.Keeps.{Keeps};
ghost use Rattle.wire_spec.specs.declared.limits.TheConstants.{MAX_BODY_SIZE};
ghost use Rattle.kafka_record.specs.Parts.{record_with, spelling_with, WritesWithin};

use crate::headers::{HeadersIn, HeadersRef, spelled_bytes};
use crate::nullable::NullableBytes;
use crate::sizes::{body_len, string_len};
use std::alloc::AllocError;
use varint::{len32, len64, push32, push64, write32, write64};
use wire_spec::{Header, MAX_BODY_SIZE, Record};

/// Writes a length, of less than 2^31.
#[inline(always)]
fn put_len(len: usize, out: &mut Vec<u8>) -> Result<(), AllocError>
    requires { len < 2 ^ 31 }
    ensures ok { OnOk result (out.new.items ≡ out.old.items ++ varint (pos len)) }
    ensures kept { Keeps out.old.items out.new.items }
{
    write32(len as i32, out)
}

/// Writes bytes as they are.
#[inline(always)]
fn put_bytes(bytes: &[u8], out: &mut Vec<u8>) -> Result<(), AllocError>
    ensures ok { OnOk result (out.new.items ≡ out.old.items ++ bytes.now) }
    ensures kept { Keeps out.old.items out.new.items }
{
    out.extend_from_slice(bytes)
}

/// Writes a length and that many bytes.
#[inline(always)]
fn put_string(bytes: &[u8], out: &mut Vec<u8>) -> Result<(), AllocError>
    requires { length bytes.now < 2 ^ 31 }
    ensures ok { OnOk result (out.new.items ≡ out.old.items ++ string bytes.now) }
    ensures kept { Keeps out.old.items out.new.items }
{
    put_len(bytes.len(), out)?;
    put_bytes(bytes, out)
}

/// Writes a length and that many bytes, or the length -1 for null.
#[inline(always)]
fn put_nullable(part: &NullableBytes, out: &mut Vec<u8>) -> Result<(), AllocError>
    requires { IfSome part.now (λ b. length b < 2 ^ 31) }
    ensures ok { OnOk result (out.new.items ≡ out.old.items ++ nullable part.now) }
    ensures kept { Keeps out.old.items out.new.items }
{
    match part.slice {
        Some(bytes) => put_string(bytes, out),
        None => write32(-1, out),
    }
}

fn put_header(one: &Header, out: &mut Vec<u8>) -> Result<(), AllocError>
    requires { HeaderFits one.now }
    ensures ok { OnOk result (out.new.items ≡ out.old.items ++ header one.now) }
    ensures kept { Keeps out.old.items out.new.items }
{
    put_string(&one.key, out)?;
    put_nullable(&NullableBytes::of(&one.value), out)
}

fn put_headers(headers: &[Header], out: &mut Vec<u8>) -> Result<(), AllocError>
    requires { All HeaderFits headers.now }
    ensures ok { OnOk result (out.new.items ≡ out.old.items ++ flat_map header headers.now) }
    ensures kept { Keeps out.old.items out.new.items }
{
    for one in headers {
        put_header(one, out)?;
    }
    Ok(())
}

/// Writes headers. Those that are spelled in one piece are copied.
fn put_all(headers: &HeadersRef, out: &mut Vec<u8>) -> Result<(), AllocError>
    requires { All HeaderFits headers.now }
    ensures ok { OnOk result (out.new.items ≡ out.old.items ++ flat_map header headers.now) }
    ensures kept { Keeps out.old.items out.new.items }
{
    match headers.source {
        HeadersIn::List(list) => put_headers(list, out),
        HeadersIn::Spelled {
            bytes,
            start,
            end,
            count,
        } => put_bytes(spelled_bytes(bytes.as_slice(), start, end, count), out),
    }
}

/// Writes headers after their number.
fn put_counted(headers: &HeadersRef, out: &mut Vec<u8>) -> Result<(), AllocError>
    requires few { length headers.now < 2 ^ 31 }
    requires fit { All HeaderFits headers.now }
    ensures ok { OnOk result (out.new.items ≡ out.old.items ++ (varint (pos (length headers.now)) ++ flat_map header headers.now)) }
    ensures kept { Keeps out.old.items out.new.items }
{
    put_len(headers.len(), out)?;
    put_all(headers, out)
}

/// Writes the attributes, a record's timestamp delta and its offset delta.
#[inline(always)]
fn put_deltas(timestamp_delta: i64, delta: i32, out: &mut Vec<u8>) -> Result<(), AllocError>
    ensures ok { OnOk result (out.new.items ≡ out.old.items ++ 0 ∷ (varlong timestamp_delta ++ varint delta)) }
    ensures kept { Keeps out.old.items out.new.items }
{
    out.push(0)?;
    write64(timestamp_delta, out)?;
    write32(delta, out)
}

/// Writes what follows a record's length.
fn put_body(
    timestamp_delta: i64,
    key: &NullableBytes,
    value: &NullableBytes,
    headers: &HeadersRef,
    delta: i32,
    out: &mut Vec<u8>,
) -> Result<(), AllocError>
    requires { RecordFits (record_with timestamp_delta key.now value.now headers.now) }
    ensures ok { OnOk result (out.new.items ≡ out.old.items ++ record_body delta (record_with timestamp_delta key.now value.now headers.now)) }
    ensures kept { Keeps out.old.items out.new.items }
{
    put_deltas(timestamp_delta, delta, out)?;
    put_nullable(key, out)?;
    put_nullable(value, out)?;
    put_counted(headers, out)
}

fn put_record(
    timestamp_delta: i64,
    key: &NullableBytes,
    value: &NullableBytes,
    headers: &HeadersRef,
    delta: i32,
    out: &mut Vec<u8>,
) -> Result<(), AllocError>
    requires { RecordFits (record_with timestamp_delta key.now value.now headers.now) }
    ensures ok { OnOk result (out.new.items ≡ out.old.items ++ record_spelling delta (record_with timestamp_delta key.now value.now headers.now)) }
    ensures kept { Keeps out.old.items out.new.items }
{
    put_len(body_len(timestamp_delta, key, value, headers, delta), out)?;
    put_body(timestamp_delta, key, value, headers, delta, out)
}

/// Writes the record with this offset delta and these parts at the end, as `write` does. It fails only
/// where memory runs out; an `Err` leaves the bytes as they were.
pub fn write_parts(
    timestamp_delta: i64,
    key: &NullableBytes,
    value: &NullableBytes,
    headers: &HeadersRef,
    delta: i32,
    out: &mut Vec<u8>,
) -> Result<(), AllocError>
    requires { RecordFits (record_with timestamp_delta key.now value.now headers.now) }
    ensures ok { OnOk result (out.new.items ≡ out.old.items ++ record_spelling delta (record_with timestamp_delta key.now value.now headers.now)) }
    ensures err { OnErr result (out.new.items ≡ out.old.items) }
{
    let start = out.len();
    match put_record(timestamp_delta, key, value, headers, delta, out) {
        Ok(()) => Ok(()),
        Err(error) => {
            out.truncate(start);
            Err(error)
        }
    }
}

/// Writes a length at the end, where there is room for it.
#[inline(always)]
fn push_len(len: usize, out: &mut Vec<u8>)
    requires small { len < 2 ^ 31 }
    requires room { vec_len out.old + length (varint (pos len)) ≤ vec_capacity out.old }
    ensures items { out.new.items ≡ out.old.items ++ varint (pos len) }
    ensures len { vec_len out.new ≡ vec_len out.old + length (varint (pos len)) }
    ensures capacity { vec_capacity out.new ≡ vec_capacity out.old }
{
    push32(len as i32, out)
}

/// Writes the attributes, a record's timestamp delta and its offset delta, where there is room for them.
#[inline(always)]
fn push_deltas(timestamp_delta: i64, delta: i32, out: &mut Vec<u8>)
    requires { vec_len out.old + (1 + length (varlong timestamp_delta) + length (varint delta)) ≤ vec_capacity out.old }
    ensures items { out.new.items ≡ out.old.items ++ 0 ∷ (varlong timestamp_delta ++ varint delta) }
    ensures len { vec_len out.new ≡ vec_len out.old + (1 + length (varlong timestamp_delta) + length (varint delta)) }
    ensures capacity { vec_capacity out.new ≡ vec_capacity out.old }
{
    out.push_reserved(0);
    push64(timestamp_delta, out);
    push32(delta, out);
}

/// Writes the record with this timestamp delta and offset delta at the end, whose key, value and headers are
/// spelled so, if it takes at most so many bytes, and returns whether it does. It fails only where memory runs
/// out. Where no record is written, the bytes are as they were.
#[inline(always)]
pub fn write_spelled(
    timestamp_delta: i64,
    parts: &[u8],
    delta: i32,
    most: usize,
    out: &mut Vec<u8>,
) -> Result<bool, AllocError>
    requires { length parts.now ≤ MAX_BODY_SIZE }
    ensures ok { IfOk result (λ put. WritesWithin most put out.old.items out.new.items (spelling_with timestamp_delta parts.now delta)) }
    ensures err { OnErr result (out.new.items ≡ out.old.items) }
{
    let len = 1 + len64(timestamp_delta) + len32(delta) + parts.len();
    let size = string_len(len);
    if size > most {
        return Ok(false);
    }
    out.reserve(size)?;
    push_len(len, out);
    push_deltas(timestamp_delta, delta, out);
    out.extend_from_slice(parts)?;
    Ok(true)
}

/// Writes the record with this offset delta at the end (Kafka's message format, magic 2: "Record").
/// It fails only where memory runs out; an `Err` leaves the bytes as they were.
pub fn write(record: &Record, delta: i32, out: &mut Vec<u8>) -> Result<(), AllocError>
    requires { RecordFits «record».now }
    ensures ok { OnOk result (out.new.items ≡ out.old.items ++ record_spelling delta «record».now) }
    ensures err { OnErr result (out.new.items ≡ out.old.items) }
{
    write_parts(
        record.timestamp_delta,
        &NullableBytes::of(&record.key),
        &NullableBytes::of(&record.value),
        &HeadersRef::of(&record.headers),
        delta,
        out,
    )
}
