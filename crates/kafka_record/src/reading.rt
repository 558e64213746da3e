ghost use Rattle.std.specs.Prelude.{◌≡◌, ℕ, ◌+◌, ◌≤◌, ℤ, pos, List, ◌++◌, length, take, drop, Ok, ok_or, IfOk, IfErr, FitsSigned};
ghost use Rattle.std.specs.Int.{w32};
ghost use Rattle.std.specs.Ordering.{int_eq};
ghost use Rattle.wire_spec.specs.declared.record.Record.{Record};
ghost use Rattle.wire_spec.specs.RecordSpelling.{RecordFits, record_spelling};
ghost use Rattle.wire_spec.specs.RecordReading.{varint_at, varlong_at, bytes_at, nullable_bytes_at, string_at, nullable_at, header_at, headers_at, counted_at, attributes_at, delta_at, body_at, record_at};
ghost use Rattle.kafka_record.specs.declared.fault.RecordFault.TheVariants.{Bad, Memory};
ghost use Rattle.wire_spec.specs.Memory.{AnswersAs};

use crate::RecordFault;
use crate::limits::is_text;
use bytes::Bytes;
use std::alloc::Global;
use varint::{read32, read64};
use wire_spec::{
    Header, Headers, MAX_HEADER_KEY, MAX_HEADER_VALUE, MAX_HEADERS, MAX_KEY, MAX_VALUE, Record,
};

/// The varint at a place, and the place after it.
#[inline(always)]
pub(crate) fn varint_from(bytes: &[u8], at: usize) -> Result<(i32, usize), RecordFault>
    requires { at ≤ length bytes.now }
    ensures gives { AnswersAs Memory (λ x. (x.0, drop x.1 bytes.now)) result (ok_or (varint_at (drop at bytes.now)) Bad) }
    ensures within { IfOk result (λ x. (at ≤ x.1) × (x.1 ≤ length bytes.now)) }
    ensures bad { IfErr result (λ fault. fault ≡ Bad) }
{
    match read32(&bytes[at..]) {
        Ok((number, used)) => Ok((number, at + used)),
        Err(_) => Err(RecordFault::Bad),
    }
}

/// The varlong at a place, and the place after it.
#[inline(always)]
pub(crate) fn varlong_from(bytes: &[u8], at: usize) -> Result<(i64, usize), RecordFault>
    requires { at ≤ length bytes.now }
    ensures gives { AnswersAs Memory (λ x. (x.0, drop x.1 bytes.now)) result (ok_or (varlong_at (drop at bytes.now)) Bad) }
    ensures within { IfOk result (λ x. (at ≤ x.1) × (x.1 ≤ length bytes.now)) }
{
    match read64(&bytes[at..]) {
        Ok((number, used)) => Ok((number, at + used)),
        Err(_) => Err(RecordFault::Bad),
    }
}

/// That many bytes at a place, no more than the limit, and the place after them.
#[inline(always)]
fn bytes_from(
    bytes: &Bytes,
    at: usize,
    len: i32,
    limit: usize,
) -> Result<(Bytes, usize), RecordFault>
    requires { at ≤ length bytes.now }
    ensures gives { AnswersAs Memory (λ x. (x.0, drop x.1 bytes.now)) result (ok_or (bytes_at limit len (drop at bytes.now)) Bad) }
    ensures within { IfOk result (λ x. (at ≤ x.1) × (x.1 ≤ length bytes.now)) }
{
    if len < 0 {
        return Err(RecordFault::Bad);
    }
    let len = len as usize;
    if len > limit || bytes.len() - at < len {
        return Err(RecordFault::Bad);
    }
    Ok((bytes.slice(at..at + len)?, at + len))
}

/// The same, or null for the length -1.
#[inline(always)]
fn nullable_bytes_from(
    bytes: &Bytes,
    at: usize,
    len: i32,
    limit: usize,
) -> Result<(Option<Bytes>, usize), RecordFault>
    requires { at ≤ length bytes.now }
    ensures gives { AnswersAs Memory (λ x. (x.0, drop x.1 bytes.now)) result (ok_or (nullable_bytes_at limit len (drop at bytes.now)) Bad) }
    ensures within { IfOk result (λ x. (at ≤ x.1) × (x.1 ≤ length bytes.now)) }
{
    if len == -1 {
        return Ok((None, at));
    }
    let (part, at) = bytes_from(bytes, at, len, limit)?;
    Ok((Some(part), at))
}

#[tactic(auto, unfolding(wire_spec::specs::RecordReading::string_at))]
#[inline(always)]
fn string_from(bytes: &Bytes, at: usize, limit: usize) -> Result<(Bytes, usize), RecordFault>
    requires { at ≤ length bytes.now }
    ensures gives { AnswersAs Memory (λ x. (x.0, drop x.1 bytes.now)) result (ok_or (string_at limit (drop at bytes.now)) Bad) }
    ensures within { IfOk result (λ x. (at ≤ x.1) × (x.1 ≤ length bytes.now)) }
{
    let (len, at) = varint_from(bytes, at)?;
    bytes_from(bytes, at, len, limit)
}

#[tactic(auto, unfolding(wire_spec::specs::RecordReading::nullable_at))]
#[inline(always)]
fn nullable_from(
    bytes: &Bytes,
    at: usize,
    limit: usize,
) -> Result<(Option<Bytes>, usize), RecordFault>
    requires { at ≤ length bytes.now }
    ensures gives { AnswersAs Memory (λ x. (x.0, drop x.1 bytes.now)) result (ok_or (nullable_at limit (drop at bytes.now)) Bad) }
    ensures within { IfOk result (λ x. (at ≤ x.1) × (x.1 ≤ length bytes.now)) }
{
    let (len, at) = varint_from(bytes, at)?;
    nullable_bytes_from(bytes, at, len, limit)
}

#[tactic(auto, unfolding(wire_spec::specs::RecordReading::header_at))]
#[inline(always)]
fn header_from(bytes: &Bytes, at: usize) -> Result<(Header, usize), RecordFault>
    requires { at ≤ length bytes.now }
    ensures gives { AnswersAs Memory (λ x. (x.0, drop x.1 bytes.now)) result (ok_or (header_at (drop at bytes.now)) Bad) }
    ensures within { IfOk result (λ x. (at ≤ x.1) × (x.1 ≤ length bytes.now)) }
{
    let (key, at) = string_from(bytes, at, MAX_HEADER_KEY)?;
    let (value, at) = nullable_from(bytes, at, MAX_HEADER_VALUE)?;
    if !is_text(&key) {
        return Err(RecordFault::Bad);
    }
    Ok((Header { key, value }, at))
}

/// That many headers, and the place after them.
#[inline(never)]
pub(crate) fn headers_from(
    alloc: Global,
    bytes: &Bytes,
    at: usize,
    count: usize,
) -> Result<(Headers, usize), RecordFault>
    requires { at ≤ length bytes.now }
    ensures gives { AnswersAs Memory (λ x. (x.0, drop x.1 bytes.now)) result (ok_or (headers_at count (drop at bytes.now)) Bad) }
    ensures within { IfOk result (λ x. (at ≤ x.1) × (x.1 ≤ length bytes.now)) }
{
    let mut list = Vec::with_capacity(alloc, count)?;
    let mut place = at;
    for _ in 0..count {
        let (header, after) = header_from(bytes, place)?;
        list.push(header)?;
        place = after;
    }
    Ok((Headers { list }, place))
}

/// That many headers, and the place after them. Most records have none, which takes no call.
#[tactic(auto, unfolding(wire_spec::specs::RecordReading::headers_at))]
#[inline(always)]
fn counted_from(
    alloc: Global,
    bytes: &Bytes,
    at: usize,
    count: i32,
) -> Result<(Headers, usize), RecordFault>
    requires { at ≤ length bytes.now }
    ensures gives { AnswersAs Memory (λ x. (x.0, drop x.1 bytes.now)) result (ok_or (counted_at count (drop at bytes.now)) Bad) }
    ensures within { IfOk result (λ x. (at ≤ x.1) × (x.1 ≤ length bytes.now)) }
{
    if count == 0 {
        let list = Vec::new(alloc);
        return Ok((Headers { list }, at));
    }
    if count < 0 {
        return Err(RecordFault::Bad);
    }
    let count = count as usize;
    if count > MAX_HEADERS {
        return Err(RecordFault::Bad);
    }
    headers_from(alloc, bytes, at, count)
}

/// The place after the attributes, which are 0.
#[inline(always)]
pub(crate) fn attributes_from(bytes: &[u8], at: usize) -> Result<usize, RecordFault>
    requires { at ≤ length bytes.now }
    ensures gives { AnswersAs Memory (λ x. drop x bytes.now) result (ok_or (attributes_at (drop at bytes.now)) Bad) }
    ensures within { IfOk result (λ x. (at ≤ x) × (x ≤ length bytes.now)) }
{
    if at == bytes.len() {
        return Err(RecordFault::Bad);
    }
    if bytes[at] != 0 {
        return Err(RecordFault::Bad);
    }
    Ok(at + 1)
}

/// The place after the offset delta, which is this one.
#[tactic(auto, unfolding(wire_spec::specs::RecordReading::delta_at))]
#[inline(always)]
pub(crate) fn delta_from(bytes: &[u8], at: usize, delta: i32) -> Result<usize, RecordFault>
    requires { at ≤ length bytes.now }
    ensures gives { AnswersAs Memory (λ x. drop x bytes.now) result (ok_or (delta_at delta (drop at bytes.now)) Bad) }
    ensures within { IfOk result (λ x. (at ≤ x) × (x ≤ length bytes.now)) }
{
    let (number, at) = varint_from(bytes, at)?;
    if number != delta {
        return Err(RecordFault::Bad);
    }
    Ok(at)
}

/// What follows a record's length, and the place after it.
#[tactic(auto, unfolding(wire_spec::specs::RecordReading::body_at))]
#[inline(always)]
fn body_from(
    alloc: Global,
    bytes: &Bytes,
    at: usize,
    delta: i32,
) -> Result<(Record, usize), RecordFault>
    requires { at ≤ length bytes.now }
    ensures gives { AnswersAs Memory (λ x. (x.0, drop x.1 bytes.now)) result (ok_or (body_at delta (drop at bytes.now)) Bad) }
    ensures within { IfOk result (λ x. (at ≤ x.1) × (x.1 ≤ length bytes.now)) }
{
    let at = attributes_from(bytes, at)?;
    let (timestamp_delta, at) = varlong_from(bytes, at)?;
    let at = delta_from(bytes, at, delta)?;
    let (key, at) = nullable_from(bytes, at, MAX_KEY)?;
    let (value, at) = nullable_from(bytes, at, MAX_VALUE)?;
    let (count, at) = varint_from(bytes, at)?;
    let (headers, at) = counted_from(alloc, bytes, at, count)?;
    let record = Record {
        timestamp_delta,
        key,
        value,
        headers,
    };
    Ok((record, at))
}

/// Whether a record's length is the number of bytes that its fields take.
#[inline(always)]
pub(crate) fn is_filled(len: i32, used: usize) -> bool
    ensures { result ≡ int_eq len (pos used) }
{
    len >= 0 && len as usize == used
}

/// The record at a place, and how many bytes it takes. The slice is of the same bytes.
#[tactic(auto, unfolding(wire_spec::specs::RecordReading::record_at))]
#[inline(always)]
fn record_from(
    alloc: Global,
    bytes: &Bytes,
    slice: &[u8],
    at: usize,
    delta: i32,
) -> Result<(Record, usize), RecordFault>
    requires same { slice.now ≡ bytes.now }
    requires at { at ≤ length bytes.now }
    ensures exact { AnswersAs Memory (λ x. (x.0, drop (at + x.1) bytes.now)) result (ok_or (record_at delta (drop at bytes.now)) Bad) }
    ensures within { IfOk result (λ x. at + x.1 ≤ length bytes.now) }
{
    let (len, start) = varint_from(slice, at)?;
    let (record, end) = body_from(alloc, bytes, start, delta)?;
    if !is_filled(len, end - start) {
        return Err(RecordFault::Bad);
    }
    Ok((record, end - at))
}

/// The same, with what it says of the spelling.
#[inline(always)]
fn read_from(
    alloc: Global,
    bytes: &Bytes,
    slice: &[u8],
    at: usize,
    delta: i32,
) -> Result<(Record, usize), RecordFault>
    requires same { slice.now ≡ bytes.now }
    requires at { at ≤ length bytes.now }
    // What is read is spelled so.
    ensures found { IfOk result (λ x. RecordFits x.0 × (at + x.1 ≤ length bytes.now) × (take x.1 (drop at bytes.now) ≡ record_spelling delta x.0)) }
    // What is spelled so is read, whatever follows it, unless memory runs out.
    ensures only { (r : Record) (rest : List ℕ) → RecordFits r → drop at bytes.now ≡ record_spelling delta r ++ rest → AnswersAs Memory (λ x. x) result (Ok (r, length (record_spelling delta r))) }
    // Whether there is one.
    ensures exact { AnswersAs Memory (λ x. (x.0, drop (at + x.1) bytes.now)) result (ok_or (record_at delta (drop at bytes.now)) Bad) }
{
    record_from(alloc, bytes, slice, at, delta)
}

/// The record with this offset delta that begins at a place in the bytes, and how many bytes it takes.
/// Its keys and values share the bytes. It fails as `Bad` where no such record begins there, as past
/// the end of the bytes none does, and as `Memory` where memory runs out.
#[inline(always)]
pub fn read(
    alloc: Global,
    bytes: &Bytes,
    at: usize,
    delta: i32,
) -> Result<(Record, usize), RecordFault>
    // What is read is spelled so.
    ensures found { IfOk result (λ x. RecordFits x.0 × (at + x.1 ≤ length bytes.now) × (take x.1 (drop at bytes.now) ≡ record_spelling delta x.0)) }
    // What is spelled so is read, whatever follows it, unless memory runs out.
    ensures only { (r : Record) (rest : List ℕ) → RecordFits r → drop at bytes.now ≡ record_spelling delta r ++ rest → AnswersAs Memory (λ x. x) result (Ok (r, length (record_spelling delta r))) }
    // Whether there is one.
    ensures exact { AnswersAs Memory (λ x. (x.0, drop (at + x.1) bytes.now)) result (ok_or (record_at delta (drop at bytes.now)) Bad) }
{
    if at > bytes.len() {
        return Err(RecordFault::Bad);
    }
    read_from(alloc, bytes, bytes.as_slice(), at, delta)
}

/// A record has one spelling at an offset delta, and no spelling begins another.
pub fn one_spelling()
    ensures { (r s : Record) (c d : ℤ) (x y : List ℕ) → FitsSigned w32 c → FitsSigned w32 d → RecordFits r → RecordFits s → record_spelling c r ++ x ≡ record_spelling d s ++ y → (r ≡ s) × (c ≡ d) × (x ≡ y) }
{}
