//! Batches of rows that are being filled: the record of each row is written at once.

ghost use Rattle.std.specs.Prelude.{◌≡◌, ◌+◌, ◌<◌, ◌≤◌, ◌^◌, ◌==◌, [], length, IfOk, OnOk, OnErr, true};
ghost use Rattle.log_spec.specs.Logs.{RowFits};
ghost use Rattle.wire_spec.specs.BatchSpelling.{batch_spelling, BatchFits};
ghost use Rattle.row_batch.specs.RowBatches.{batch_of};
ghost use Rattle.row_batch.specs.OpenBatches.{AddsIfRoom, base_with};

use crate::front::{ready, with_front};
use crate::records::put_if_room;
use crate::rows::head;
use batch::{HEADER, MAX_RECORDS, begin, finish};
use log_spec::RowRef;
use std::alloc::{AllocError, Global};
use std::marker::Model;
use std::mem;

/// A record batch of rows that is being filled. It keeps their records' bytes and no row, so that nothing
/// of the batches that the rows came from stays. Contracts see the rows as the batch shows them.
#[derive(Drop)]
pub struct OpenBatch {
    alloc: Global,
    // Room for what is before the records, and the records. Before the first row there may be no room.
    bytes: Vec<u8>,
    count: usize,
    // The first row's timestamp.
    base: u64,
    // The greatest of the rows' timestamps; 0 without rows.
    latest: u64,
}

impl Model for OpenBatch {
    ghost use Rattle.std.specs.Prelude.{List};
    ghost use Rattle.log_spec.specs.declared.row.Row.{Row};
    ghost use Rattle.row_batch.specs.OpenBatches.{rows_in, IsOpen};

    ghost Value = { List Row };

    ghost view = { λ b. rows_in b.base b.count b.bytes.items };

    ghost invariant = { λ b. IsOpen b.base b.count b.latest b.bytes.items };
}

impl OpenBatch {
    /// A batch without rows, which has no room yet.
    pub fn new(alloc: Global) -> OpenBatch
        ensures { result ≡ [] }
    {
        OpenBatch {
            alloc,
            bytes: Vec::new(alloc),
            count: 0,
            base: 0,
            latest: 0,
        }
    }

    /// How many rows it has.
    pub fn len(&self) -> usize
        ensures { result ≡ length self.now }
    {
        self.count
    }

    /// Whether it has no row.
    pub fn is_empty(&self) -> bool
        ensures { result ≡ (length self.now == 0) }
    {
        self.count == 0
    }

    /// Adds a row at the end, where the batch has room for it, and returns whether it has. The first always
    /// has. It fails only where memory runs out; then nothing changes.
    #[inline(always)]
    pub fn push(&mut self, row: &RowRef) -> Result<bool, AllocError>
        requires { RowFits row.now }
        ensures ok { IfOk result (λ added. AddsIfRoom added self.old row.now self.new) }
        ensures few { IfOk result (λ added. length self.new ≤ MAX_RECORDS) }
        ensures first { (self.old ≡ []) → IfOk result (λ added. added ≡ true) }
        ensures err { OnErr result (self.new ≡ self.old) }
    {
        if self.count == MAX_RECORDS as usize {
            return Ok(false);
        }
        let base = base_for(self.base, self.count, row);
        ready(&mut self.bytes)?;
        let put = put_if_room(base, row, self.count, &mut self.bytes)?;
        if !put {
            return Ok(false);
        }
        self.base = base;
        self.count += 1;
        self.latest = self.latest.max(row.timestamp);
        Ok(true)
    }

    /// The bytes of the batch, whose first row has this offset. Then it has no rows, and no room before
    /// `reuse`. It fails only where memory runs out; then nothing changes.
    pub fn take(&mut self, place: u64) -> Result<Vec<u8>, AllocError>
        requires place { place < 2 ^ 63 }
        requires some { 1 ≤ length self.old }
        ensures bytes { IfOk result (λ bytes. BatchFits (batch_of place self.old) × (bytes.items ≡ batch_spelling (batch_of place self.old))) }
        ensures none { OnOk result (self.new ≡ []) }
        ensures err { OnErr result (self.new ≡ self.old) }
    {
        let head = head(self.alloc, place as usize, self.base);
        let front = begin(
            self.alloc,
            &head,
            self.bytes.len(),
            self.count as u32,
            self.latest as i64,
        )?;
        let bytes = mem::replace(&mut self.bytes, Vec::new(self.alloc));
        self.count = 0;
        self.latest = 0;
        Ok(finish(with_front(front.as_slice(), bytes)))
    }

    /// Gives the room of these bytes to a batch without rows, for those to come.
    pub fn reuse(&mut self, mut bytes: Vec<u8>)
        requires { self.old ≡ [] }
        ensures { self.new ≡ [] }
    {
        bytes.truncate(HEADER);
        self.bytes = bytes;
    }
}

/// The base timestamp with one row more.
#[inline(always)]
fn base_for(base: u64, count: usize, row: &RowRef) -> u64
    ensures { result ≡ base_with base count row.now }
{
    if count == 0 { row.timestamp } else { base }
}
