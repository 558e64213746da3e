//! Reads headers where they are, with no list of them.

ghost use Rattle.std.specs.Prelude.{◌≡◌, ◌<◌, ◌≤◌, ◌^◌, length, drop, ok_or, IfOk, IfErr};
ghost use Rattle.wire_spec.specs.RecordReading.{string_at, header_at, headers_at, counted_at};
ghost use Rattle.wire_spec.specs.Memory.{AnswersAs};
ghost use Rattle.kafka_record.specs.declared.fault.RecordFault.TheVariants.{Bad, Memory};
ghost use Rattle.kafka_record.specs.Extents.{extent_bytes, IsExtentWithin, IsPartWithin};
ghost use Rattle.kafka_record.specs.SpelledHeaders.{any_header_at, spanned_header, headers_in, AreSpelled};

use crate::RecordFault;
use crate::limits::is_text;
use crate::reading::varint_from;
use crate::span_reading::{extent_from, part_from};
use crate::spans::{Extent, HeaderSpan};
use wire_spec::{MAX_HEADER_KEY, MAX_HEADER_VALUE, MAX_HEADERS};

/// The extent of a header's key after its length, and the place after it.
#[tactic(auto, unfolding(wire_spec::specs::RecordReading::string_at))]
#[inline(always)]
fn key_from(bytes: &[u8], at: usize) -> Result<(Extent, usize), RecordFault>
    requires at { at ≤ length bytes.now }
    requires small { length bytes.now < 2 ^ 32 }
    ensures gives { AnswersAs Memory (λ x. (extent_bytes bytes.now x.0, drop x.1 bytes.now)) result (ok_or (string_at MAX_HEADER_KEY (drop at bytes.now)) Bad) }
    ensures within { IfOk result (λ x. (at ≤ x.1) × (x.1 ≤ length bytes.now) × IsExtentWithin (length bytes.now) x.0) }
    ensures bad { IfErr result (λ fault. fault ≡ Bad) }
{
    let (len, at) = varint_from(bytes, at)?;
    extent_from(bytes, at, len, MAX_HEADER_KEY)
}

/// A header whose key may be no text, and the place after it.
#[tactic(auto, unfolding(crate::specs::SpelledHeaders::any_header_at))]
#[inline(always)]
pub(crate) fn any_header_from(bytes: &[u8], at: usize) -> Result<(HeaderSpan, usize), RecordFault>
    requires at { at ≤ length bytes.now }
    requires small { length bytes.now < 2 ^ 32 }
    ensures gives { AnswersAs Memory (λ x. (spanned_header bytes.now x.0, drop x.1 bytes.now)) result (ok_or (any_header_at (drop at bytes.now)) Bad) }
    ensures within { IfOk result (λ x. (at ≤ x.1) × (x.1 ≤ length bytes.now) × IsExtentWithin (length bytes.now) x.0.key × IsPartWithin (length bytes.now) x.0.value) }
    ensures bad { IfErr result (λ fault. fault ≡ Bad) }
{
    let (key, at) = key_from(bytes, at)?;
    let (value, at) = part_from(bytes, at, MAX_HEADER_VALUE)?;
    Ok((HeaderSpan { key, value }, at))
}

/// A header, and the place after it.
#[inline(always)]
fn header_span_from(bytes: &[u8], at: usize) -> Result<(HeaderSpan, usize), RecordFault>
    requires at { at ≤ length bytes.now }
    requires small { length bytes.now < 2 ^ 32 }
    ensures gives { AnswersAs Memory (λ x. (spanned_header bytes.now x.0, drop x.1 bytes.now)) result (ok_or (header_at (drop at bytes.now)) Bad) }
    ensures within { IfOk result (λ x. (at ≤ x.1) × (x.1 ≤ length bytes.now)) }
{
    let (header, after) = any_header_from(bytes, at)?;
    let key = header.key;
    if !is_text(&bytes[key.start as usize..key.end as usize]) {
        return Err(RecordFault::Bad);
    }
    Ok((header, after))
}

/// The place after that many headers, each of which is within the limits.
#[inline(never)]
fn headers_end_from(bytes: &[u8], at: usize, count: usize) -> Result<usize, RecordFault>
    requires at { at ≤ length bytes.now }
    requires small { length bytes.now < 2 ^ 32 }
    ensures gives { AnswersAs Memory (λ end. (headers_in count (drop at bytes.now), drop end bytes.now)) result (ok_or (headers_at count (drop at bytes.now)) Bad) }
    ensures within { IfOk result (λ end. (at ≤ end) × (end ≤ length bytes.now)) }
{
    let mut place = at;
    for _ in 0..count {
        let found = header_span_from(bytes, place)?;
        place = found.1;
    }
    Ok(place)
}

/// How many headers there are by their number, and the place after them. Most records have none, which
/// takes no call.
#[tactic(auto, unfolding(wire_spec::specs::RecordReading::headers_at))]
#[inline(always)]
pub(crate) fn counted_end_from(
    bytes: &[u8],
    at: usize,
    number: i32,
) -> Result<(u32, usize), RecordFault>
    requires at { at ≤ length bytes.now }
    requires small { length bytes.now < 2 ^ 32 }
    ensures gives { AnswersAs Memory (λ x. (headers_in x.0 (drop at bytes.now), drop x.1 bytes.now)) result (ok_or (counted_at number (drop at bytes.now)) Bad) }
    ensures spelled { IfOk result (λ x. AreSpelled bytes.now at x.1 x.0) }
{
    if number == 0 {
        return Ok((0, at));
    }
    if number < 0 {
        return Err(RecordFault::Bad);
    }
    let count = number as usize;
    if count > MAX_HEADERS {
        return Err(RecordFault::Bad);
    }
    let end = headers_end_from(bytes, at, count)?;
    Ok((count as u32, end))
}
