//! Streams of batches.

use batch::{Batch, Headers, Records, encode, fits};
use bytes::Bytes;
use std::alloc::{AllocError, Global};
use std::io;
use std::io::ErrorKind;
use wire_spec::{Header, Record};

/// How many batches a stream has, and what their records are like; the length is of bytes.
#[derive(Drop)]
pub struct Shape {
    pub name: &'static str,
    pub batches: usize,
    pub records: usize,
    pub value: usize,
    pub headers: usize,
}

/// The key of a record: its number in eight digits.
fn key(alloc: Global, number: usize) -> Result<Bytes, AllocError> {
    let digits = format!(in alloc; "{number:08}")?;
    Ok(Bytes::from_vec(digits.into_bytes())?)
}

/// A value whose first byte is one of two.
fn value(alloc: Global, len: usize, number: usize) -> Result<Bytes, AllocError> {
    let first = if number % 2 == 0 { b'A' } else { b'B' };
    Ok(Bytes::from_vec(vec![in alloc; first; len]?)?)
}

fn headers(alloc: Global, count: usize) -> Result<Headers, AllocError> {
    let mut list = Vec::new(alloc);
    for number in 0..count {
        list.push(Header {
            key: key(alloc, number)?,
            value: Some(value(alloc, 16, number)?),
        })?;
    }
    Ok(Headers { list })
}

fn records_of(alloc: Global, shape: &Shape) -> Result<Records, AllocError> {
    let mut list = Vec::new(alloc);
    for number in 0..shape.records {
        list.push(Record {
            timestamp_delta: 0,
            key: Some(key(alloc, number)?),
            value: Some(value(alloc, shape.value, number)?),
            headers: headers(alloc, shape.headers)?,
        })?;
    }
    Ok(Records { list })
}

/// The bytes of a stream of batches of this shape.
pub fn stream_of(alloc: Global, shape: &Shape) -> io::Result<Vec<u8>> {
    let batch = Batch {
        base_offset: 0,
        leader_epoch: 0,
        base_timestamp: 1_700_000_000_000,
        producer_id: -1,
        producer_epoch: -1,
        base_sequence: -1,
        records: records_of(alloc, shape)?,
    };
    if !fits(&batch) {
        return Err(ErrorKind::InvalidData.into());
    }
    let bytes = encode(alloc, &batch)?;
    let mut stream = Vec::new(alloc);
    for _ in 0..shape.batches {
        stream.extend_from_slice(&bytes)?;
    }
    Ok(stream)
}
