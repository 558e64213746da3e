//! Reads records as spans of the bytes that they are in.

ghost use Rattle.std.specs.Prelude.{◌≡◌, ◌+◌, ◌<◌, ◌≤◌, ◌^◌, length, drop, ok_or, option_map, IfOk, IfErr};
ghost use Rattle.wire_spec.specs.RecordReading.{bytes_at, nullable_bytes_at, nullable_at, body_at, record_at};
ghost use Rattle.wire_spec.specs.Memory.{AnswersAs};
ghost use Rattle.kafka_record.specs.declared.fault.RecordFault.TheVariants.{Bad, Memory};
ghost use Rattle.kafka_record.specs.Extents.{extent_bytes, IsExtentWithin, IsPartWithin};
ghost use Rattle.kafka_record.specs.Spans.{spanned, IsSpanOf};

use crate::RecordFault;
use crate::header_spans::counted_end_from;
use crate::reading::{attributes_from, delta_from, is_filled, varint_from, varlong_from};
use crate::spans::{Extent, Span};
use wire_spec::{MAX_KEY, MAX_VALUE};

/// That many bytes at a place, no more than the limit, and the place after them.
#[inline(always)]
pub(crate) fn extent_from(
    bytes: &[u8],
    at: usize,
    len: i32,
    limit: usize,
) -> Result<(Extent, usize), RecordFault>
    requires at { at ≤ length bytes.now }
    requires small { length bytes.now < 2 ^ 32 }
    ensures gives { AnswersAs Memory (λ x. (extent_bytes bytes.now x.0, drop x.1 bytes.now)) result (ok_or (bytes_at limit len (drop at bytes.now)) Bad) }
    ensures within { IfOk result (λ x. (at ≤ x.1) × (x.1 ≤ length bytes.now) × IsExtentWithin (length bytes.now) x.0) }
    ensures bad { IfErr result (λ fault. fault ≡ Bad) }
{
    if len < 0 {
        return Err(RecordFault::Bad);
    }
    let len = len as usize;
    if len > limit || bytes.len() - at < len {
        return Err(RecordFault::Bad);
    }
    let extent = Extent {
        start: at as u32,
        end: (at + len) as u32,
    };
    Ok((extent, at + len))
}

/// The same, or null for the length -1.
#[inline(always)]
fn nullable_extent_from(
    bytes: &[u8],
    at: usize,
    len: i32,
    limit: usize,
) -> Result<(Option<Extent>, usize), RecordFault>
    requires at { at ≤ length bytes.now }
    requires small { length bytes.now < 2 ^ 32 }
    ensures gives { AnswersAs Memory (λ x. (option_map (extent_bytes bytes.now) x.0, drop x.1 bytes.now)) result (ok_or (nullable_bytes_at limit len (drop at bytes.now)) Bad) }
    ensures within { IfOk result (λ x. (at ≤ x.1) × (x.1 ≤ length bytes.now) × IsPartWithin (length bytes.now) x.0) }
    ensures bad { IfErr result (λ fault. fault ≡ Bad) }
{
    if len == -1 {
        return Ok((None, at));
    }
    let (part, at) = extent_from(bytes, at, len, limit)?;
    Ok((Some(part), at))
}

/// The extent of a key or a value after its length, and the place after it.
#[tactic(auto, unfolding(wire_spec::specs::RecordReading::nullable_at))]
#[inline(always)]
pub(crate) fn part_from(
    bytes: &[u8],
    at: usize,
    limit: usize,
) -> Result<(Option<Extent>, usize), RecordFault>
    requires at { at ≤ length bytes.now }
    requires small { length bytes.now < 2 ^ 32 }
    ensures gives { AnswersAs Memory (λ x. (option_map (extent_bytes bytes.now) x.0, drop x.1 bytes.now)) result (ok_or (nullable_at limit (drop at bytes.now)) Bad) }
    ensures within { IfOk result (λ x. (at ≤ x.1) × (x.1 ≤ length bytes.now) × IsPartWithin (length bytes.now) x.0) }
    ensures bad { IfErr result (λ fault. fault ≡ Bad) }
{
    let (len, at) = varint_from(bytes, at)?;
    nullable_extent_from(bytes, at, len, limit)
}

/// What follows a record's length, and the place after it.
#[tactic(auto, unfolding(wire_spec::specs::RecordReading::body_at))]
#[inline(always)]
fn span_body_from(bytes: &[u8], at: usize, delta: i32) -> Result<(Span, usize), RecordFault>
    requires at { at ≤ length bytes.now }
    requires small { length bytes.now < 2 ^ 32 }
    ensures gives { AnswersAs Memory (λ x. (spanned bytes.now x.0, drop x.1 bytes.now)) result (ok_or (body_at delta (drop at bytes.now)) Bad) }
    ensures within { IfOk result (λ x. (at ≤ x.1) × (x.1 ≤ length bytes.now) × IsSpanOf bytes.now x.0) }
{
    let at = attributes_from(bytes, at)?;
    let (timestamp_delta, at) = varlong_from(bytes, at)?;
    let start = delta_from(bytes, at, delta)?;
    let (key, at) = part_from(bytes, start, MAX_KEY)?;
    let (value, at) = part_from(bytes, at, MAX_VALUE)?;
    let (number, first) = varint_from(bytes, at)?;
    let (count, end) = counted_end_from(bytes, first, number)?;
    let parts = Extent {
        start: start as u32,
        end: end as u32,
    };
    let span = Span {
        timestamp_delta,
        key,
        value,
        parts,
        headers: first as u32,
        count,
    };
    Ok((span, end))
}

/// The record with this offset delta that begins at a place in the bytes, as a span of them, and how many
/// bytes it takes. It fails as `read` does, and takes no memory.
#[tactic(auto, unfolding(wire_spec::specs::RecordReading::record_at))]
#[inline(always)]
pub fn read_span(bytes: &[u8], at: usize, delta: i32) -> Result<(Span, usize), RecordFault>
    requires at { at ≤ length bytes.now }
    requires small { length bytes.now < 2 ^ 32 }
    // Whether there is one, and which.
    ensures exact { AnswersAs Memory (λ x. (spanned bytes.now x.0, drop (at + x.1) bytes.now)) result (ok_or (record_at delta (drop at bytes.now)) Bad) }
    ensures within { IfOk result (λ x. (at + x.1 ≤ length bytes.now) × IsSpanOf bytes.now x.0) }
{
    let (len, start) = varint_from(bytes, at)?;
    let (span, end) = span_body_from(bytes, start, delta)?;
    if !is_filled(len, end - start) {
        return Err(RecordFault::Bad);
    }
    Ok((span, end - at))
}
