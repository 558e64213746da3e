//! Rows as records: as many of them as one batch takes.

ghost use Rattle.std.specs.Prelude.{◌≡◌, ◌+◌, ◌<◌, ◌≤◌, ◌^◌, ◌-ℤ◌, ◌++◌, pos, length, take, drop, All, IfOk, OnOk, OnErr};
ghost use Rattle.log_spec.specs.Logs.{RowFits};
ghost use Rattle.wire_spec.specs.RecordSpelling.{record_spelling};
ghost use Rattle.row_batch.specs.RowBatches.{record_of};
ghost use Rattle.row_batch.specs.FirstRows.{PutsIfRoom, HasPut};

use crate::list::RowList;
use batch::{HEADER, MAX_BATCH, MAX_RECORDS};
use kafka_record::{HeadersRef, NullableBytes, size_of_parts, write_parts, write_spelled};
use log_spec::RowRef;
use std::alloc::AllocError;
use wire_spec::{MAX_HEADER_SIZE, TIMESTAMP_END};

/// About how many bytes a record has without its key, value and headers.
const LIKELY_RECORD: usize = 12;

/// About how many bytes a header has without its key and value.
const LIKELY_HEADER: usize = 2;

/// From this size on a batch may have no room for a row that fits by its likely size.
const NEARLY_FULL: usize = MAX_BATCH - 4_096;

/// How far a batch is filled: how many of the first rows it takes, and the greatest of their timestamps.
#[derive(Clone, Copy, Debug)]
pub struct Fill {
    pub count: usize,
    pub latest: u64,
}

/// How far a timestamp is past a base timestamp.
#[inline(always)]
fn delta(base: u64, timestamp: u64) -> i64
    requires base { base < TIMESTAMP_END }
    requires timestamp { timestamp < TIMESTAMP_END }
    ensures { result ≡ pos timestamp -ℤ pos base }
{
    timestamp as i64 - base as i64
}

/// Writes a row at the end, one part after the other, as the record with this place in a batch with this base
/// timestamp. An `Err` changes nothing.
#[inline(always)]
fn put_apart(base: u64, row: &RowRef, place: usize, out: &mut Vec<u8>) -> Result<(), AllocError>
    requires base { base < TIMESTAMP_END }
    requires place { place < MAX_RECORDS }
    requires row { RowFits row.now }
    ensures ok { OnOk result (out.new.items ≡ out.old.items ++ record_spelling (pos place) (record_of base row.now)) }
    ensures err { OnErr result (out.new.items ≡ out.old.items) }
{
    let delta = delta(base, row.timestamp);
    let key = NullableBytes::new(row.key());
    let value = NullableBytes::new(row.value());
    write_parts(delta, &key, &value, &row.headers(), place as i32, out)
}

/// How many bytes a row takes as the record with this place in a batch with this base timestamp.
#[inline(always)]
fn row_size(base: u64, row: &RowRef, place: usize) -> usize
    requires base { base < TIMESTAMP_END }
    requires place { place < MAX_RECORDS }
    requires row { RowFits row.now }
    ensures { result ≡ length (record_spelling (pos place) (record_of base row.now)) }
{
    let delta = delta(base, row.timestamp);
    let key = NullableBytes::new(row.key());
    let value = NullableBytes::new(row.value());
    size_of_parts(delta, &key, &value, &row.headers(), place as i32)
}

/// Whether a batch of this size may have no room for a row that is written one part after the other. A row that is
/// written beyond a batch's room makes the list grow, and is cut off again.
#[inline(always)]
fn may_be_full(size: usize, row: &RowRef) -> bool {
    let headers = row.headers().len().saturating_mul(MAX_HEADER_SIZE);
    let more = likely_apart(row).saturating_add(headers);
    size.saturating_add(more) > NEARLY_FULL
}

/// The same as `put_if_room`, one part after the other.
#[tactic(auto, using(crate::proofs::RoomLaws::cut_back, crate::proofs::RoomLaws::no_room))]
#[inline(always)]
fn put_apart_if_room(
    base: u64,
    row: &RowRef,
    place: usize,
    out: &mut Vec<u8>,
) -> Result<bool, AllocError>
    requires base { base < TIMESTAMP_END }
    requires place { place < MAX_RECORDS }
    requires row { RowFits row.now }
    ensures ok { IfOk result (λ put. PutsIfRoom put out.old.items out.new.items (record_spelling (pos place) (record_of base row.now))) }
    ensures err { OnErr result (out.new.items ≡ out.old.items) }
{
    let end = out.len();
    if may_be_full(end, row) {
        let more = row_size(base, row, place);
        if more > MAX_BATCH.saturating_sub(end) {
            return Ok(false);
        }
    }
    put_apart(base, row, place, out)?;
    let size = out.len();
    if size > MAX_BATCH {
        out.truncate(end);
        return Ok(false);
    }
    Ok(true)
}

/// Writes a row at the end, as the record with this place in a batch with this base timestamp, if a batch has room
/// for it then, and returns whether it has. An `Err` changes nothing.
#[inline(always)]
pub fn put_if_room(
    base: u64,
    row: &RowRef,
    place: usize,
    out: &mut Vec<u8>,
) -> Result<bool, AllocError>
    requires base { base < TIMESTAMP_END }
    requires place { place < MAX_RECORDS }
    requires row { RowFits row.now }
    ensures ok { IfOk result (λ put. PutsIfRoom put out.old.items out.new.items (record_spelling (pos place) (record_of base row.now))) }
    ensures err { OnErr result (out.new.items ≡ out.old.items) }
{
    match row.spelled() {
        Some(parts) => {
            let delta = delta(base, row.timestamp);
            let room = MAX_BATCH.saturating_sub(out.len());
            write_spelled(delta, parts, place as i32, room, out)
        }
        None => put_apart_if_room(base, row, place, out),
    }
}

/// Writes as many of `most` rows from number `first` on as one batch has room for, as its records, after
/// what is before them in a batch. A record's timestamp delta is the row's timestamp minus `base`. It fails
/// only where memory runs out.
pub fn put_most<L: RowList>(
    base: u64,
    rows: &L,
    first: usize,
    most: usize,
    out: &mut Vec<u8>,
) -> Result<Fill, AllocError>
    requires base { base < TIMESTAMP_END }
    requires there { first + most ≤ length (L.rows rows.now) }
    requires small { first + most < 2 ^ 63 }
    requires few { most ≤ MAX_RECORDS }
    requires fit { All RowFits (take most (drop first (L.rows rows.now))) }
    requires begun { length out.old.items ≡ 61 }
    ensures { IfOk result (λ made. HasPut base (take most (drop first (L.rows rows.now))) made.count made.latest out.old.items out.new.items) }
{
    let mut latest = 0;
    for count in 0..most {
        let row = rows.row(first + count);
        let put = put_if_room(base, &row, count, out)?;
        if !put {
            return Ok(Fill { count, latest });
        }
        latest = latest.max(row.timestamp);
    }
    Ok(Fill {
        count: most,
        latest,
    })
}

/// About how many bytes a row takes in a batch without its headers.
#[inline(always)]
fn likely_apart(row: &RowRef) -> usize {
    let key = row.key().map_or(0, |key| key.len());
    let value = row.value().map_or(0, |value| value.len());
    LIKELY_RECORD.saturating_add(key).saturating_add(value)
}

/// About how many bytes headers take.
fn likely_headers(headers: &HeadersRef) -> usize {
    let mut bytes: usize = 0;
    let mut rest = headers.again();
    for _ in 0..headers.len() {
        if let Some(header) = rest.take_first() {
            let value = header.value.map_or(0, |value| value.len());
            bytes = bytes
                .saturating_add(LIKELY_HEADER)
                .saturating_add(header.key.len())
                .saturating_add(value);
        }
    }
    bytes
}

/// About how many bytes a batch of `most` rows like this one has, and no more than a batch may have.
pub fn likely_size(row: &RowRef, most: usize) -> usize {
    let bytes = match row.spelled() {
        Some(parts) => LIKELY_RECORD.saturating_add(parts.len()),
        None => likely_apart(row).saturating_add(likely_headers(&row.headers())),
    };
    HEADER
        .saturating_add(bytes.saturating_mul(most))
        .min(MAX_BATCH)
}
