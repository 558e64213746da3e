//! Headers that stay in the bytes of their batch.

use crate::batches::CLIENT_FOUR;
use batch::decode_packed;
use bytes::Bytes;
use kafka_record::{HeaderRef, HeadersRef, RecordRef};
use std::alloc::Global;
use std::test::*;

fn is_header(found: Option<HeaderRef>, key: &[u8], value: Option<&[u8]>) -> bool {
    match found {
        Some(header) => header.key == key && header.value == value,
        None => false,
    }
}

/// Whether these are `h`, which is null, and `ä`, as a Kafka client made them.
fn are_two(headers: &HeadersRef) -> bool {
    headers.len() == 2
        && is_header(headers.get(0), b"h", None)
        && is_header(headers.get(1), "ä".as_bytes(), Some(b"x\0"))
        && headers.get(2).is_none()
        && headers.get(u64::MAX).is_none()
}

/// Whether each is found by its key, and no other.
fn are_found(headers: &HeadersRef) -> bool {
    headers.position(b"h") == Some(0)
        && headers.position("ä".as_bytes()) == Some(1)
        && headers.position(b"x").is_none()
}

/// Whether they are taken in turn, and then there are none.
fn are_taken(headers: &HeadersRef) -> bool {
    let mut rest = headers.again();
    let first = is_header(rest.take_first(), b"h", None);
    let second = is_header(rest.take_first(), "ä".as_bytes(), Some(b"x\0"));
    first && second && rest.is_empty() && rest.take_first().is_none()
}

/// Whether a record's headers are those two, where they are and in a list.
fn has_both(alloc: Global, record: &RecordRef) -> Option<bool> {
    let headers = record.headers();
    let made = headers.to_headers(alloc).ok()?;
    let list = HeadersRef::of(&made);
    let spelled = are_two(&headers) && are_found(&headers) && are_taken(&headers);
    Some(spelled && are_two(&list) && are_found(&list) && are_taken(&list))
}

/// Whether the second record of the batch that a Kafka client made has them, and the first none.
fn are_read(alloc: Global) -> Option<bool> {
    let bytes = Bytes::copy_from_slice(alloc, CLIENT_FOUR).ok()?;
    let (batch, _) = decode_packed(alloc, bytes).ok()?;
    if batch.len() < 2 {
        return None;
    }
    let none = batch.record(0).headers().is_empty();
    Some(has_both(alloc, &batch.record(1))? && none)
}

#[test]
fn headers_stay_in_their_bytes(rt: HostRuntime) {
    assert!(rt; are_read(rt.alloc()) == Some(true));
}
