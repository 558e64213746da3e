ghost use Rattle.std.specs.Prelude.{◌≡◌, ◌+ℤ◌};
ghost use Rattle.std.specs.Ordering.{int_eq};
ghost use Rattle.wire_spec.specs.BatchReading.{is_timestamp as timestamp_test};
ghost use Rattle.batch.specs.Latest.{when_timestamp, latest_of};
ghost use Rattle.batch.specs.Packed.{span_records};

use kafka_record::Span;
use wire_spec::{Batch, Record, TIMESTAMP_END};

/// Whether this is a timestamp: 0 to 2^62 - 1 milliseconds.
pub fn is_timestamp(time: i64) -> bool
    ensures { result ≡ timestamp_test time }
{
    0 <= time && time < TIMESTAMP_END as i64
}

/// Whether two timestamps are the same.
pub fn is_same(time: i64, other: i64) -> bool
    ensures { result ≡ int_eq time other }
{
    time == other
}

/// The field baseTimestamp, in milliseconds.
pub fn base_of(batch: &Batch) -> i64
    ensures { result ≡ «batch».now.base_timestamp }
{
    batch.base_timestamp
}

/// The timestamp of a record with this delta, where it is one.
fn timestamp_of(base: i64, delta: i64) -> Option<i64>
    ensures { result ≡ when_timestamp (base +ℤ delta) }
{
    let time = base.checked_add(delta)?;
    if is_timestamp(time) { Some(time) } else { None }
}

/// The greatest timestamp of the records in milliseconds, 0 of none, or `None` where one of them is
/// out of range. A record's is `base` plus its delta.
pub fn latest(base: i64, records: &[Record]) -> Option<i64>
    ensures { result ≡ latest_of base records.now }
{
    let mut greatest = 0;
    for record in records {
        let time = timestamp_of(base, record.timestamp_delta)?;
        greatest = greatest.max(time);
    }
    Some(greatest)
}

/// The same of the records of spans.
pub(crate) fn latest_of_spans(base: i64, bytes: &[u8], spans: &[Span]) -> Option<i64>
    ensures { result ≡ latest_of base (span_records bytes.now spans.now) }
{
    let _bytes = bytes;
    let mut greatest = 0;
    for span in spans {
        let time = timestamp_of(base, span.timestamp_delta)?;
        greatest = greatest.max(time);
    }
    Some(greatest)
}
