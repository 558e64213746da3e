//! Batches whose records stay in the bytes that they came in.

ghost use Rattle.kafka_record.specs.Spans.{IsSpanOf};

use crate::batches::CLIENT_FOUR;
use batch::{HEADER, PackedBatch, decode_packed};
use bytes::Bytes;
use kafka_record::{RecordRef, Span, read_span};
use std::alloc::Global;
use std::test::*;

/// What a record has.
struct Want {
    delta: i64,
    key: Option<&'static [u8]>,
    value: Option<&'static [u8]>,
    headers: usize,
}

/// The first records of the batch that a Kafka client made.
static FIRST: [Want; 3] = [
    Want {
        delta: 0,
        key: Some(b"k"),
        value: Some(b"v"),
        headers: 0,
    },
    Want {
        delta: 5,
        key: None,
        value: Some(b""),
        headers: 2,
    },
    Want {
        delta: -1,
        key: Some(b""),
        value: None,
        headers: 0,
    },
];

fn is_record(record: &RecordRef, want: &Want) -> bool {
    let headers = record.headers();
    record.timestamp_delta() == want.delta
        && record.key().as_slice() == want.key
        && record.value().as_slice() == want.value
        && headers.len() == want.headers
}

fn are_first(batch: &PackedBatch) -> bool {
    if batch.len() < FIRST.len() {
        return false;
    }
    for (index, want) in FIRST.iter().enumerate() {
        if !is_record(&batch.record(index), want) {
            return false;
        }
    }
    true
}

/// How many records the batch has, and its base timestamp, if the first ones are those.
fn read(alloc: Global) -> Option<(usize, i64)> {
    let bytes = Bytes::copy_from_slice(alloc, CLIENT_FOUR).ok()?;
    match decode_packed(alloc, bytes) {
        Ok((batch, used)) if used == CLIENT_FOUR.len() && are_first(&batch) => {
            Some((batch.len(), batch.base_timestamp()))
        }
        _ => None,
    }
}

#[test]
fn records_stay_in_their_bytes(rt: HostRuntime) {
    assert!(rt; read(rt.alloc()) == Some((4, 1_700_000_000_000)));
}

/// Key, value and headers of the first record, as it spells them: `k`, `v` and none.
const FIRST_PARTS: &[u8] = &[2, b'k', 2, b'v', 0];

/// Whether the record is the first one, and has its parts in one piece.
fn is_spanned(bytes: &Bytes, span: &Span) -> bool
    requires { IsSpanOf bytes.now span.now }
{
    let record = RecordRef::packed(bytes, span);
    is_record(&record, &FIRST[0]) && record.parts() == Some(FIRST_PARTS)
}

/// How many bytes the first record takes, where it is read as a span of the batch's bytes.
fn first_span(alloc: Global) -> Option<usize> {
    let bytes = Bytes::copy_from_slice(alloc, CLIENT_FOUR).ok()?;
    if bytes.len() < HEADER || bytes.len() > 1_000 {
        return None;
    }
    match read_span(bytes.as_slice(), HEADER, 0) {
        Ok((span, used)) if is_spanned(&bytes, &span) => Some(used),
        _ => None,
    }
}

#[test]
fn a_span_is_read(rt: HostRuntime) {
    assert!(rt; first_span(rt.alloc()) == Some(9));
}
