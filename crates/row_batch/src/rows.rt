//! The batch of rows from a place on.

ghost use Rattle.std.specs.Prelude.{◌≡◌, ◌+◌, ◌<◌, ◌≤◌, ◌^◌, ℕ, length, take, drop, All, IfOk, option_map};
ghost use Rattle.log_spec.specs.Logs.{RowFits};
ghost use Rattle.row_batch.specs.RowBatches.{head_of, IsFetched};
ghost use Rattle.row_batch.specs.FirstRows.{IsFirst};

use crate::front::{blank, with_front};
use crate::list::RowList;
use crate::records::{likely_size, put_most};
use batch::{MAX_RECORDS, begin, finish};
use std::alloc::{AllocError, Global};
use wire_spec::{Batch, Records, TIMESTAMP_END};

/// A batch of some rows: its bytes, and how many rows it has.
#[derive(Drop)]
pub struct FirstBatch {
    pub bytes: Vec<u8>,
    pub count: usize,
}

/// The fields of a batch of rows, whose records are not here. No producer is named.
pub fn head(alloc: Global, place: usize, base: u64) -> Batch
    requires place { place < 2 ^ 63 }
    requires base { base < TIMESTAMP_END }
    ensures { result ≡ head_of place base }
{
    Batch {
        base_offset: place as i64,
        leader_epoch: 0,
        base_timestamp: base as i64,
        producer_id: -1,
        producer_epoch: -1,
        base_sequence: -1,
        records: Records {
            list: Vec::new(alloc),
        },
    }
}

/// The bytes of the batch of the first of `most` rows from number `first` on, at least one and as many as
/// it has room for. Its base offset is `place`. The rows' bytes are copied once where the rows are about
/// as long as the first. It fails only where memory runs out.
pub fn first_batch<L: RowList>(
    alloc: Global,
    rows: &L,
    first: usize,
    most: usize,
    place: usize,
) -> Result<FirstBatch, AllocError>
    requires place { place < 2 ^ 63 }
    requires there { first + most ≤ length (L.rows rows.now) }
    requires small { first + most < 2 ^ 63 }
    requires some { 1 ≤ most }
    requires few { most ≤ MAX_RECORDS }
    requires fit { All RowFits (take most (drop first (L.rows rows.now))) }
    ensures { IfOk result (λ made. IsFirst place (take most (drop first (L.rows rows.now))) made.count made.bytes.items) }
{
    let earliest = rows.row(first);
    let base = earliest.timestamp;
    let mut bytes = blank(alloc, likely_size(&earliest, most))?;
    let put = put_most(base, rows, first, most, &mut bytes)?;
    let size = bytes.len();
    let head = head(alloc, place, base);
    let front = begin(alloc, &head, size, put.count as u32, put.latest as i64)?;
    let whole = with_front(front.as_slice(), bytes);
    Ok(FirstBatch {
        bytes: finish(whole),
        count: put.count,
    })
}

/// The bytes of a record batch of the rows from a place on: as many as are there, at most `max` and
/// `MAX_RECORDS`, with which the batch has at most `MAX_BATCH` bytes. None where no row has that place, or
/// where `max` is 0. The batch's base offset is the place, and its base timestamp the first row's.
/// The rows' bytes are copied as `first_batch` does, and the time does not depend on the rows before the
/// place. It fails only where memory runs out.
pub fn row_batch<L: RowList>(
    alloc: Global,
    rows: &L,
    place: usize,
    max: usize,
) -> Result<Option<Vec<u8>>, AllocError>
    requires { All RowFits (L.rows rows.now) }
    ensures { IfOk result (λ found. IsFetched (L.rows rows.now) place max (option_map (λ bytes. bytes.items) found)) }
{
    if place >= rows.len() || max == 0 {
        return Ok(None);
    }
    let left = rows.len() - place;
    let most = left.min(max).min(MAX_RECORDS as usize);
    Ok(Some(first_batch(alloc, rows, place, most, place)?.bytes))
}
