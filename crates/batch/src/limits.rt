ghost use Rattle.std.specs.Prelude.{◌≡◌, ◌≤◌, ◌<◌, ◌↔◌, ◌*◌, pos, All, IsTrue, length};
ghost use Rattle.std.specs.List.{AllByRecursion};
ghost use Rattle.wire_spec.specs.RecordSpelling.{RecordFits, record_spelling};
ghost use Rattle.wire_spec.specs.BatchSpelling.{IsTimestamp, BatchFits, timestamps, records_spelling};

use crate::times::{base_of, is_timestamp, latest};
use wire_spec::{Batch, MAX_BATCH, MAX_RECORD_SIZE, MAX_RECORDS, Record};

/// The bytes up to the end of batchLength, which it does not count.
pub const FRONT: usize = 12;

/// The bytes of the header, before the records.
pub const HEADER: usize = 61;

/// Whether each record is within its limits.
fn records_fit(records: &[Record]) -> bool
    ensures { IsTrue result ↔ All RecordFits records.now }
{
    for record in records {
        if !kafka_record::fits(record) {
            return false;
        }
    }
    true
}

/// How many bytes the record with this place in its batch takes; the place, from 0, is its offset
/// delta.
pub fn record_len(record: &Record, place: usize) -> usize
    requires place { place < MAX_RECORDS }
    requires fits { RecordFits «record».now }
    ensures size { result ≡ length (record_spelling (pos place) «record».now) }
    ensures small { result ≤ MAX_RECORD_SIZE }
{
    kafka_record::size(record, place as i32)
}

/// How many bytes the records of a batch take, one after the other.
pub fn records_len(records: &[Record]) -> usize
    requires few { length records.now ≤ MAX_RECORDS }
    requires fit { All RecordFits records.now }
    ensures size { result ≡ length (records_spelling 0 records.now) }
    ensures small { result ≤ MAX_RECORD_SIZE * length records.now }
{
    let mut len = 0;
    for (place, record) in records.iter().enumerate() {
        len += record_len(record, place);
    }
    len
}

/// Whether the base timestamp and each record's are in range.
fn in_time(base: i64, records: &[Record]) -> bool
    ensures { IsTrue result ↔ (IsTimestamp base × AllByRecursion IsTimestamp (timestamps base records.now)) }
{
    if !is_timestamp(base) {
        return false;
    }
    match latest(base, records) {
        Some(_) => true,
        None => false,
    }
}

/// Whether the batch has a spelling: 1 to `MAX_RECORDS` records, each within its limits, timestamps from 0 to
/// 2^62 - 1 milliseconds, and at most `MAX_BATCH` bytes in all.
pub fn fits(batch: &Batch) -> bool
    ensures { IsTrue result ↔ BatchFits «batch».now }
{
    // Reading them shows the proof that they are in their types' ranges.
    let _offset = batch.base_offset;
    let _epoch = batch.leader_epoch;
    let _producer = batch.producer_id;
    let _producer_epoch = batch.producer_epoch;
    let _sequence = batch.base_sequence;
    let records = batch.records.list.as_slice();
    if records.is_empty() {
        return false;
    }
    if records.len() > MAX_RECORDS as usize {
        return false;
    }
    if !records_fit(records) {
        return false;
    }
    let base = base_of(batch);
    if !in_time(base, records) {
        return false;
    }
    HEADER + records_len(records) <= MAX_BATCH
}
