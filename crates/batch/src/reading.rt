ghost use Rattle.std.specs.Prelude.{◌≡◌, ℕ, ◌+◌, ◌<◌, ◌≤◌, ◌^◌, ℤ, pos, ◌≤ℤ◌, List, ◌++◌, length, take, drop, slice_index, Ok, IfOk};
ghost use Rattle.wire_spec.specs.declared.record.Batch.{Batch};
ghost use Rattle.wire_spec.specs.BatchSpelling.{BatchFits, batch_spelling};
ghost use Rattle.wire_spec.specs.RecordReading.{record_at};
ghost use Rattle.wire_spec.specs.BatchReading.{with_front, is_miscounted, is_mistimed, count_at, record_or, records_at, timed_at, whole_at, size_at, batch_at};
ghost use Rattle.wire_spec.specs.Memory.{AnswersAs};
ghost use Rattle.wire_spec.specs.declared.fault.BatchFault.TheVariants.{Memory};

use crate::fields::{i16_at, i32_at, i64_at, u16_at, u32_at};
use crate::limits::{FRONT, HEADER};
use crate::times::{is_same, is_timestamp, latest};
use bytes::Bytes;
use kafka_record::RecordFault;
use std::alloc::Global;
use wire_spec::{Batch, BatchFault, MAX_BATCH, MAX_RECORDS, Record, Records};

// What batchLength counts at least: the rest of the header.
const MIN_LENGTH: i32 = 49;

// The bytes of a record without key, value and headers, whose numbers take one byte each.
const SHORTEST_RECORD: usize = 7;

/// How many bytes a batch of this batchLength has.
fn with_front_of(length: i32) -> usize
    requires { pos 0 ≤ℤ length }
    ensures { result ≡ with_front length }
{
    length as usize + FRONT
}

/// How many bytes the batch at the front takes, by its length, or why none is there by that: it fails with
/// `Length`, `TooLarge`, or `Short` where more bytes may make a part of a batch whole.
#[tactic(auto, unfolding(wire_spec::specs::BatchReading::size_at))]
pub fn batch_size(bytes: &[u8]) -> Result<usize, BatchFault>
    ensures gives { result ≡ size_at bytes.now }
    ensures within { IfOk result (λ n. (61 ≤ n) × (n ≤ length bytes.now)) }
    ensures small { IfOk result (λ n. n ≤ MAX_BATCH) }
    ensures bytes { (i : ℕ) → slice_index bytes.now i < 256 }
{
    if bytes.len() < FRONT {
        return Err(BatchFault::Short);
    }
    let length = i32_at(bytes, 8);
    if length < MIN_LENGTH {
        return Err(BatchFault::Length);
    }
    let size = with_front_of(length);
    if size > MAX_BATCH {
        return Err(BatchFault::TooLarge);
    }
    if bytes.len() < size {
        return Err(BatchFault::Short);
    }
    Ok(size)
}

/// Whether the number of records and lastOffsetDelta are out of range or don't match.
fn miscounted(bytes: &[u8]) -> bool
    requires { 61 ≤ length bytes.now }
    ensures test { result ≡ is_miscounted bytes.now }
{
    let count = u32_at(bytes, 57);
    let last = u32_at(bytes, 23);
    count == 0 || count > MAX_RECORDS || last != count - 1
}

/// The header's number of records.
#[tactic(auto, unfolding(wire_spec::specs::BatchReading::count_at))]
pub(crate) fn count_of(bytes: &[u8]) -> Result<u32, BatchFault>
    requires { 61 ≤ length bytes.now }
    ensures gives { result ≡ count_at bytes.now }
    ensures within { IfOk result (λ n. n ≤ MAX_RECORDS) }
{
    if bytes[16] != 2 {
        return Err(BatchFault::Magic);
    }
    if u32_at(bytes, 17) != crc32c::sum(&bytes[21..]) {
        return Err(BatchFault::Crc);
    }
    if u16_at(bytes, 21) != 0 {
        return Err(BatchFault::Attributes);
    }
    if miscounted(bytes) {
        return Err(BatchFault::Count);
    }
    Ok(u32_at(bytes, 57))
}

/// The record of this place, which begins at this byte, and how many bytes it takes.
#[inline(always)]
fn record_of(
    alloc: Global,
    bytes: &Bytes,
    at: usize,
    place: u32,
) -> Result<(Record, usize), BatchFault>
    requires within { at ≤ length bytes.now }
    requires small { place < 2 ^ 31 }
    ensures gives { AnswersAs Memory (λ x. (x.0, drop (at + x.1) bytes.now)) result (record_or place (record_at (pos place) (drop at bytes.now))) }
    ensures within { IfOk result (λ x. at + x.1 ≤ length bytes.now) }
{
    match kafka_record::read(alloc, bytes, at, place as i32) {
        Ok(found) => Ok(found),
        Err(RecordFault::Bad) => Err(BatchFault::Record(place)),
        Err(RecordFault::Memory) => Err(BatchFault::Memory),
    }
}

/// How many records to make room for: no more than the bytes after the header may hold, since the
/// shortest record has 7.
pub(crate) fn room_for(count: u32, bytes: usize) -> usize {
    (count as usize).min(bytes.saturating_sub(HEADER) / SHORTEST_RECORD + 1)
}

/// That many records, which fill the bytes after the header.
fn records_of(alloc: Global, bytes: &Bytes, count: u32) -> Result<Records, BatchFault>
    requires header { 61 ≤ length bytes.now }
    requires few { count ≤ MAX_RECORDS }
    ensures { AnswersAs Memory (λ rs. rs) result (records_at count 0 (drop 61 bytes.now)) }
{
    let mut list = Vec::with_capacity(alloc, room_for(count, bytes.len()))?;
    let end = bytes.len();
    let mut at = HEADER;
    for place in 0..count {
        let (record, used) = record_of(alloc, bytes, at, place)?;
        list.push(record)?;
        at += used;
    }
    if at != end {
        return Err(BatchFault::Record(count));
    }
    Ok(Records { list })
}

/// Whether the base timestamp or a record's is out of range, or maxTimestamp is not the greatest.
fn mistimed(bytes: &[u8], records: &[Record]) -> bool
    requires { 61 ≤ length bytes.now }
    ensures { result ≡ is_mistimed bytes.now records.now }
{
    let base = i64_at(bytes, 27);
    let greatest = i64_at(bytes, 35);
    match latest(base, records) {
        Some(time) => !is_timestamp(base) || !is_same(greatest, time),
        None => true,
    }
}

/// The batch of this header and these records.
#[tactic(auto, unfolding(wire_spec::specs::BatchReading::timed_at))]
fn timed_of(bytes: &[u8], records: Records) -> Result<Batch, BatchFault>
    requires { 61 ≤ length bytes.now }
    ensures { result ≡ timed_at bytes.now records }
{
    if mistimed(bytes, &records.list) {
        return Err(BatchFault::Timestamp);
    }
    Ok(Batch {
        base_offset: i64_at(bytes, 0),
        leader_epoch: i32_at(bytes, 12),
        base_timestamp: i64_at(bytes, 27),
        producer_id: i64_at(bytes, 43),
        producer_epoch: i16_at(bytes, 51),
        base_sequence: i32_at(bytes, 53),
        records,
    })
}

/// The batch that has these bytes, all of them.
#[tactic(auto, unfolding(wire_spec::specs::BatchReading::whole_at))]
fn whole_of(alloc: Global, bytes: &Bytes) -> Result<Batch, BatchFault>
    requires { 61 ≤ length bytes.now }
    ensures { AnswersAs Memory (λ b. b) result (whole_at bytes.now) }
{
    let count = count_of(bytes)?;
    let records = records_of(alloc, bytes, count)?;
    timed_of(bytes, records)
}

#[tactic(auto, unfolding(wire_spec::specs::BatchReading::batch_at))]
fn batch_of(alloc: Global, mut bytes: Bytes) -> Result<(Batch, usize), BatchFault>
    ensures gives { AnswersAs Memory (λ x. x) result (batch_at bytes) }
    ensures header { IfOk result (λ x. 61 ≤ x.1) }
    ensures bytes { (i : ℕ) → slice_index bytes i < 256 }
{
    let size = batch_size(&bytes)?;
    bytes.truncate(size);
    let batch = whole_of(alloc, &bytes)?;
    Ok((batch, size))
}

/// The batch at the front of the bytes (Kafka's message format, magic 2: "Record Batch"), and how
/// many of them it takes, at least 61. Its keys, values and headers share the bytes. It fails with
/// the first reason why no batch is there, in the order that `BatchFault` gives, or with `Memory`
/// at the first request for memory that is refused.
pub fn decode(alloc: Global, bytes: Bytes) -> Result<(Batch, usize), BatchFault>
    // What is read is spelled so.
    ensures found { IfOk result (λ x. BatchFits x.0 × (x.1 ≤ length bytes) × (take x.1 bytes ≡ batch_spelling x.0)) }
    // What is spelled so is read, whatever follows it, unless memory runs out.
    ensures only { (b : Batch) (rest : List ℕ) → BatchFits b → bytes ≡ batch_spelling b ++ rest → AnswersAs Memory (λ x. x) result (Ok (b, length (batch_spelling b))) }
    // A batch has its header at least.
    ensures header { IfOk result (λ x. 61 ≤ x.1) }
    // Which refusal it is.
    ensures exact { AnswersAs Memory (λ x. x) result (batch_at bytes) }
{
    batch_of(alloc, bytes)
}

/// A batch has one spelling, and no spelling begins another.
pub fn one_spelling()
    ensures { (b c : Batch) (x y : List ℕ) → BatchFits b → BatchFits c → batch_spelling b ++ x ≡ batch_spelling c ++ y → (b ≡ c) × (x ≡ y) }
{}
