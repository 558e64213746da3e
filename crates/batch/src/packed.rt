//! Batches whose records stay in the bytes that they were read from.

ghost use Rattle.std.specs.Prelude.{◌≡◌, ℕ, ◌+◌, ◌<◌, ◌≤◌, ◌^◌, pos, List, ◌++◌, length, take, drop, slice_get, slice_index, Some, Ok, IfOk};
ghost use Rattle.wire_spec.specs.declared.record.Batch.{Batch as BatchIs};
ghost use Rattle.wire_spec.specs.declared.fault.BatchFault.TheVariants.{Memory};
ghost use Rattle.wire_spec.specs.BatchSpelling.{BatchFits, batch_spelling};
ghost use Rattle.wire_spec.specs.RecordReading.{record_at};
ghost use Rattle.wire_spec.specs.BatchReading.{is_mistimed, record_or, records_at, timed_at, whole_at, batch_at};
ghost use Rattle.wire_spec.specs.Memory.{AnswersAs};
ghost use Rattle.wire_spec.specs.declared.limits.TheConstants.{MAX_RECORDS};
ghost use Rattle.kafka_record.specs.Spans.{spanned, IsSpanOf};
ghost use Rattle.batch.specs.Packed.{span_records, AreSpansOf, IsHeadOf, IsWhole};

use crate::fields::{i16_at, i32_at, i64_at};
use crate::limits::HEADER;
use crate::reading::{batch_size, count_of, room_for};
use crate::times::{is_same, is_timestamp, latest_of_spans};
use bytes::Bytes;
use kafka_record::{RecordFault, RecordRef, Span, read_span};
use std::alloc::{AllocError, Global};
use std::marker::Model;
use wire_spec::{Batch, BatchFault, Records};

/// The fields of a batch's header that are kept as they came.
#[derive(Clone, Copy)]
struct Head {
    base_offset: i64,
    leader_epoch: i32,
    base_timestamp: i64,
    producer_id: i64,
    producer_epoch: i16,
    base_sequence: i32,
}

/// A record batch whose records stay in the bytes that they were read from: a record takes 48 bytes, and
/// no count of owners. A clause sees the batch.
#[derive(Drop)]
pub struct PackedBatch {
    head: Head,
    bytes: Bytes,
    spans: Vec<Span>,
}

impl Model for PackedBatch {
    ghost use Rattle.wire_spec.specs.declared.record.Batch.{Batch};
    ghost use Rattle.batch.specs.Packed.{span_records, headed, AreSpansOf, IsWhole};

    ghost Value = { Batch };

    ghost view = { λ b. headed b.head (span_records b.bytes b.spans.items) };

    ghost invariant = { λ b. AreSpansOf b.bytes b.spans.items
        × IsWhole b.bytes (headed b.head (span_records b.bytes b.spans.items)) };
}

impl PackedBatch {
    /// How many records there are.
    pub fn len(&self) -> usize
        ensures { result ≡ length self.now.records }
    {
        self.spans.len()
    }

    /// The field baseTimestamp, in milliseconds.
    pub fn base_timestamp(&self) -> i64
        ensures { result ≡ self.now.base_timestamp }
    {
        self.head.base_timestamp
    }

    /// The batch's bytes, all of them.
    pub fn bytes(&self) -> &Bytes
        ensures { IsWhole result.now self.now }
    {
        &self.bytes
    }

    /// The record with a number, from 0.
    #[inline(always)]
    pub fn record(&self, index: usize) -> RecordRef<'_>
        requires { index < length self.now.records }
        ensures { slice_get self.now.records index ≡ Some result }
    {
        RecordRef::packed(&self.bytes, &self.spans[index])
    }

    /// A batch with other owners of the same bytes. It fails only where memory runs out.
    pub fn to_batch(&self, alloc: Global) -> Result<Batch, AllocError>
        ensures { IfOk result (λ made. made ≡ self.now) }
    {
        let head = self.head;
        let spans = self.spans.as_slice();
        Ok(Batch {
            base_offset: head.base_offset,
            leader_epoch: head.leader_epoch,
            base_timestamp: head.base_timestamp,
            producer_id: head.producer_id,
            producer_epoch: head.producer_epoch,
            base_sequence: head.base_sequence,
            records: records_of(alloc, &self.bytes, spans)?,
        })
    }
}

/// The records of spans, other owners of their parts.
fn records_of(alloc: Global, bytes: &Bytes, spans: &[Span]) -> Result<Records, AllocError>
    requires { AreSpansOf bytes.now spans.now }
    ensures { IfOk result (λ made. made ≡ span_records bytes.now spans.now) }
{
    let mut list = Vec::with_capacity(alloc, spans.len())?;
    for span in spans {
        list.push(RecordRef::packed(bytes, span).to_record(alloc)?)?;
    }
    Ok(Records { list })
}

/// The record of this place, which begins at this byte, as a span, and how many bytes it takes.
#[inline(always)]
fn span_of(bytes: &[u8], at: usize, place: u32) -> Result<(Span, usize), BatchFault>
    requires within { at ≤ length bytes.now }
    requires size { length bytes.now < 2 ^ 32 }
    requires small { place < 2 ^ 31 }
    ensures gives { AnswersAs Memory (λ x. (spanned bytes.now x.0, drop (at + x.1) bytes.now)) result (record_or place (record_at (pos place) (drop at bytes.now))) }
    ensures within { IfOk result (λ x. (at + x.1 ≤ length bytes.now) × IsSpanOf bytes.now x.0) }
{
    match read_span(bytes, at, place as i32) {
        Ok(found) => Ok(found),
        Err(RecordFault::Bad) => Err(BatchFault::Record(place)),
        Err(RecordFault::Memory) => Err(BatchFault::Memory),
    }
}

/// The spans of that many records, which fill the bytes after the header.
fn spans_of(alloc: Global, bytes: &[u8], count: u32) -> Result<Vec<Span>, BatchFault>
    requires header { 61 ≤ length bytes.now }
    requires size { length bytes.now < 2 ^ 32 }
    requires few { count ≤ MAX_RECORDS }
    ensures gives { AnswersAs Memory (λ spans. span_records bytes.now spans.items) result (records_at count 0 (drop 61 bytes.now)) }
    ensures within { IfOk result (λ spans. AreSpansOf bytes.now spans.items) }
{
    let mut list = Vec::with_capacity(alloc, room_for(count, bytes.len()))?;
    let end = bytes.len();
    let mut at = HEADER;
    for place in 0..count {
        let (span, used) = span_of(bytes, at, place)?;
        list.push(span)?;
        at += used;
    }
    if at != end {
        return Err(BatchFault::Record(count));
    }
    Ok(list)
}

/// Whether the base timestamp or a record's is out of range, or maxTimestamp is not the greatest.
fn mistimed(bytes: &[u8], spans: &[Span]) -> bool
    requires { 61 ≤ length bytes.now }
    ensures { result ≡ is_mistimed bytes.now (span_records bytes.now spans.now) }
{
    let base = i64_at(bytes, 27);
    let greatest = i64_at(bytes, 35);
    match latest_of_spans(base, bytes, spans) {
        Some(time) => !is_timestamp(base) || !is_same(greatest, time),
        None => true,
    }
}

/// The fields of the header.
fn head_of(bytes: &[u8]) -> Head
    requires { 61 ≤ length bytes.now }
    ensures { IsHeadOf bytes.now result }
{
    Head {
        base_offset: i64_at(bytes, 0),
        leader_epoch: i32_at(bytes, 12),
        base_timestamp: i64_at(bytes, 27),
        producer_id: i64_at(bytes, 43),
        producer_epoch: i16_at(bytes, 51),
        base_sequence: i32_at(bytes, 53),
    }
}

/// The batch of the header and these records of these bytes.
fn timed_of(bytes: Bytes, spans: Vec<Span>) -> Result<PackedBatch, BatchFault>
    requires header { 61 ≤ length bytes }
    requires within { AreSpansOf bytes spans.items }
    requires whole { (b : BatchIs) → timed_at bytes (span_records bytes spans.items) ≡ Ok b → IsWhole bytes b }
    ensures { result ≡ timed_at bytes (span_records bytes spans.items) }
{
    let slice = bytes.as_slice();
    if mistimed(slice, spans.as_slice()) {
        return Err(BatchFault::Timestamp);
    }
    let head = head_of(slice);
    Ok(PackedBatch { head, bytes, spans })
}

/// The batch that has these bytes, all of them.
#[tactic(auto, unfolding(wire_spec::specs::BatchReading::whole_at))]
fn whole_of(alloc: Global, bytes: Bytes) -> Result<PackedBatch, BatchFault>
    requires header { 61 ≤ length bytes }
    requires size { length bytes < 2 ^ 32 }
    requires whole { (b : BatchIs) → whole_at bytes ≡ Ok b → IsWhole bytes b }
    ensures { AnswersAs Memory (λ b. b) result (whole_at bytes) }
{
    let count = count_of(&bytes)?;
    let spans = spans_of(alloc, bytes.as_slice(), count)?;
    timed_of(bytes, spans)
}

#[tactic(auto, unfolding(wire_spec::specs::BatchReading::batch_at))]
fn packed_of(alloc: Global, mut bytes: Bytes) -> Result<(PackedBatch, usize), BatchFault>
    ensures gives { AnswersAs Memory (λ x. x) result (batch_at bytes) }
    ensures header { IfOk result (λ x. 61 ≤ x.1) }
    ensures bytes { (i : ℕ) → slice_index bytes i < 256 }
{
    let size = batch_size(&bytes)?;
    bytes.truncate(size);
    let batch = whole_of(alloc, bytes)?;
    Ok((batch, size))
}

/// The batch at the front of the bytes, as `decode` reads it, and how many of them it takes. Its records
/// stay in the bytes. It fails as `decode` does.
pub fn decode_packed(alloc: Global, bytes: Bytes) -> Result<(PackedBatch, usize), BatchFault>
    // What is read is spelled so.
    ensures found { IfOk result (λ x. BatchFits x.0 × (x.1 ≤ length bytes) × (take x.1 bytes ≡ batch_spelling x.0)) }
    // What is spelled so is read, whatever follows it, unless memory runs out.
    ensures only { (b : BatchIs) (rest : List ℕ) → BatchFits b → bytes ≡ batch_spelling b ++ rest → AnswersAs Memory (λ x. x) result (Ok (b, length (batch_spelling b))) }
    // A batch has its header at least.
    ensures header { IfOk result (λ x. 61 ≤ x.1) }
    // Which refusal it is.
    ensures exact { AnswersAs Memory (λ x. x) result (batch_at bytes) }
{
    packed_of(alloc, bytes)
}
