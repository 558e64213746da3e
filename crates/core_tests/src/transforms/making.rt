//! Streams and batches of the tests, and what is seen of an output.

ghost use Rattle.std.specs.Prelude.{IfSome};
ghost use Rattle.log_spec.specs.Logs.{FitsLog};

use crate::interrupted::Interrupted;
use batch::{Feed, PackedBatch, decode_packed, encode};
use broker_fixtures::program_of;
use bytes::Bytes;
use fixtures::{batch_of, batch_of_value, batch_with};
use log_item::Program;
use std::alloc::{AllocError, Global};
use transform::{Outlet, Transform};
use wire_spec::{Batch, TIMESTAMP_END};

fn outlets_of(alloc: Global, outputs: usize) -> Result<Vec<Outlet<Interrupted>>, AllocError> {
    let mut outlets = Vec::new(alloc);
    for _ in 0..outputs {
        let writer = Interrupted {
            taken: Vec::new(alloc),
            is_interrupted: false,
        };
        outlets.push(Outlet::new(alloc, writer))?;
    }
    Ok(outlets)
}

/// The number of the first row that is not right by the program of an image; 0 where there is no program.
pub(crate) fn first_wrong<T, F: Fn(&Program, &T) -> bool>(
    alloc: Global,
    image: &[u8],
    rows: &[T],
    is_right: F,
) -> Option<usize>
    requires { F.IsAlwaysCallable is_right }
{
    let Some(program) = program_of(alloc, image) else {
        return Some(0);
    };
    for (k, row) in rows.iter().enumerate() {
        if !is_right(&program, row) {
            return Some(k);
        }
    }
    None
}

/// A stream from an offset of an input partition into so many output partitions. None where there is no
/// such stream or memory ran out.
pub(crate) fn stream_of(
    alloc: Global,
    input: usize,
    offset: u64,
    outputs: usize,
) -> Option<Transform<Interrupted>> {
    let Ok(outlets) = outlets_of(alloc, outputs) else {
        return None;
    };
    if input >= 64 || offset > TIMESTAMP_END || outlets.is_empty() || outlets.len() > 64 {
        return None;
    }
    Some(Transform::new(alloc, input, offset, outlets))
}

/// The bytes of a batch. None where it has no spelling or memory ran out.
fn spelled(alloc: Global, batch: &Batch) -> Option<Vec<u8>> {
    if !batch::fits(batch) {
        return None;
    }
    encode(alloc, batch).ok()
}

/// A batch with this count of records and bytes of a value, as it is read of its bytes. None where it has
/// no spelling or memory ran out.
#[tactic(auto, using(log_spec::proofs::FittingBatches::fits_log))]
fn packed_with(alloc: Global, count: usize, bytes: usize) -> Option<PackedBatch>
    ensures { IfSome result FitsLog }
{
    let written = spelled(alloc, &batch_with(alloc, count, bytes)?)?;
    let (batch, _) = decode_packed(alloc, Bytes::from_vec(written).ok()?).ok()?;
    Some(batch)
}

/// Whether such a batch is taken.
pub(crate) fn is_pushed(
    alloc: Global,
    program: &Program,
    stream: &mut Transform<Interrupted>,
    count: usize,
    bytes: usize,
) -> bool {
    match packed_with(alloc, count, bytes) {
        Some(batch) => stream.push(program, batch).is_ok(),
        None => false,
    }
}

fn seen_of(batch: &Batch) -> (i64, usize) {
    (batch.base_offset, batch.records.list.len())
}

/// The base offset and the number of records of the next batch.
fn next(feed: &mut Feed) -> Option<(i64, usize)> {
    match feed.next() {
        Ok(Some(batch)) => Some(seen_of(&batch)),
        _ => None,
    }
}

fn is_read(feed: &mut Feed) -> bool {
    matches!(feed.next(), Ok(None))
}

fn gives(feed: &mut Feed, want: &[(i64, usize)]) -> bool {
    for batch in want {
        if next(feed) != Some(*batch) {
            return false;
        }
    }
    is_read(feed)
}

/// Whether the bytes are batches with these base offsets and numbers of records.
fn are_batches(alloc: Global, bytes: &[u8], want: &[(i64, usize)]) -> bool {
    let mut feed = Feed::new(alloc);
    feed.feed(bytes).is_ok() && gives(&mut feed, want)
}

/// Whether an output has these batches.
pub(crate) fn has(
    alloc: Global,
    stream: &Transform<Interrupted>,
    output: usize,
    want: &[(i64, usize)],
) -> bool {
    if output >= stream.outputs() {
        return false;
    }
    are_batches(alloc, stream.outlet(output).writer().taken.as_slice(), want)
}

/// A number of records, and the byte that is the value of each with the key `k`, or neither.
pub(crate) type Given = (usize, Option<u8>);

fn batch_given(alloc: Global, given: Given) -> Option<Batch> {
    match given.1 {
        Some(value) => batch_of_value(alloc, given.0, value),
        None => batch_of(alloc, given.0, 1000),
    }
}

/// The bytes of such batches. None where one doesn't fit or memory ran out.
pub(crate) fn bytes_of(alloc: Global, rows: &[Given]) -> Option<Vec<u8>> {
    let mut bytes = Vec::new(alloc);
    for given in rows {
        let written = spelled(alloc, &batch_given(alloc, *given)?)?;
        bytes.extend_from_slice(&written).ok()?;
    }
    Some(bytes)
}

/// Two batches of 3 and 2 records without key and value: 82 and 75 bytes.
pub(crate) static TWO: [Given; 2] = [(3, None), (2, None)];

/// The first `len` bytes of the two batches, one of them changed.
pub(crate) fn damaged(alloc: Global, len: usize, place: usize) -> Option<Vec<u8>> {
    let mut bytes = bytes_of(alloc, &TWO)?;
    bytes.truncate(len);
    if place < bytes.len() {
        bytes[place] ^= 1;
    }
    Some(bytes)
}
