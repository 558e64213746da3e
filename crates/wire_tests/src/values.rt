use crate::verdicts::all_hold;
use batch::{Batch, BatchFault, Headers, Records, decode, encode, fits};
use bytes::Bytes;
use kafka_record::Record;
use std::alloc::{AllocError, Global};
use std::test::*;

/// One record without a key, with a value of this many bytes.
fn records_with(alloc: Global, length: usize) -> Result<Records, AllocError> {
    let value = Bytes::from_vec(vec![in alloc; 7; length]?)?;
    let mut list = Vec::new(alloc);
    list.push(Record {
        timestamp_delta: 0,
        key: None,
        value: Some(value),
        headers: Headers {
            list: Vec::new(alloc),
        },
    })?;
    Ok(Records { list })
}

fn batch_with(alloc: Global, length: usize) -> Result<Batch, AllocError> {
    Ok(Batch {
        base_offset: 0,
        leader_epoch: 0,
        base_timestamp: 1000,
        producer_id: -1,
        producer_epoch: -1,
        base_sequence: -1,
        records: records_with(alloc, length)?,
    })
}

/// The bytes of that batch, if it fits.
fn bytes_with(alloc: Global, length: usize) -> Option<Vec<u8>> {
    let batch = batch_with(alloc, length).ok()?;
    if fits(&batch) {
        encode(alloc, &batch).ok()
    } else {
        None
    }
}

/// How many bytes are read as a batch, or the refusal.
fn read_of(alloc: Global, bytes: &[u8]) -> Result<usize, BatchFault> {
    let Ok(bytes) = Bytes::copy_from_slice(alloc, bytes) else {
        return Err(BatchFault::Memory);
    };
    match decode(alloc, bytes) {
        Ok((_, used)) => Ok(used),
        Err(fault) => Err(fault),
    }
}

/// The value's length, and how many bytes a batch of it has.
static SIZES: [(usize, usize); 3] = [(65_536, 65_608), (65_537, 65_609), (1_048_576, 1_048_650)];

fn is_read(alloc: Global, length: usize, size: usize) -> bool {
    match bytes_with(alloc, length) {
        Some(bytes) => bytes.len() == size && read_of(alloc, &bytes) == Ok(size),
        None => false,
    }
}

/// The number of the first row whose value is not read so.
fn first_wrong(alloc: Global, rows: &[(usize, usize)]) -> Option<usize> {
    for (k, row) in rows.iter().enumerate() {
        if !is_read(alloc, row.0, row.1) {
            return Some(k);
        }
    }
    None
}

/// Whether a batch with a value of this length fits.
fn value_fits(alloc: Global, length: usize) -> Option<bool> {
    let batch = batch_with(alloc, length).ok()?;
    Some(fits(&batch))
}

#[test]
fn values_up_to_the_limit(rt: HostRuntime) {
    all_hold(&rt, first_wrong(rt.alloc(), &SIZES));
    assert!(rt; value_fits(rt.alloc(), 1_048_577) == Some(false));
}

/// The bytes at the places that hold the lowest seven bits of a length, and of batchLength's lowest
/// byte, one length longer.
fn lengthen(bytes: &mut [u8]) {
    for (place, more) in [(11, 1), (61, 2), (69, 2)] {
        if let Some(byte) = bytes.get_mut(place) {
            *byte = byte.wrapping_add(more);
        }
    }
}

/// Writes the checksum of the bytes after it.
fn seal(bytes: &mut [u8]) {
    let sum = crc32c::sum(bytes.get(21..).unwrap_or(&[]));
    if let Some(crc) = bytes.get_mut(17..21) {
        crc.copy_from_slice(&sum.to_be_bytes());
    }
}

/// The bytes of the batch with the longest value, whose value has one byte more.
fn one_too_long(alloc: Global) -> Option<Vec<u8>> {
    let mut bytes = bytes_with(alloc, 1_048_576)?;
    bytes.push(0).ok()?;
    lengthen(&mut bytes);
    seal(&mut bytes);
    Some(bytes)
}

fn is_refused(alloc: Global) -> bool {
    match one_too_long(alloc) {
        Some(bytes) => read_of(alloc, &bytes) == Err(BatchFault::Record(0)),
        None => false,
    }
}

#[test]
fn a_value_past_the_limit(rt: HostRuntime) {
    assert!(rt; is_refused(rt.alloc()));
}
