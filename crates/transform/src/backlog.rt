//! The rows of an output partition on their way into record batches.

ghost use Rattle.std.specs.Prelude.{◌≡◌, ◌<◌, ◌≤◌, ◌+◌, ◌^◌, [], length, IfOk, OnErr};
ghost use Rattle.log_spec.specs.Logs.{RowFits};
ghost use Rattle.transform.specs.Backlogs.{waiting, TakesRow, GivesAll};

use log_spec::RowRef;
use row_batch::OpenBatch;
use std::alloc::{AllocError, Global};
use std::marker::Model;

/// Offsets of an output partition's rows are below this number.
const PLACE_END: u64 = 9_223_372_036_854_775_808;

/// The rows of an output partition that are in no batch yet, as one batch that is being filled.
/// Contracts see how many rows were in batches before, how many batches these are, and the rows that
/// wait.
#[derive(Drop)]
pub struct Backlog {
    // How many rows are in batches, and so the offset of the first that waits.
    place: u64,
    // How many batches these are.
    batches: u64,
    batch: OpenBatch,
}

impl Model for Backlog {
    ghost use Rattle.std.specs.Prelude.{◌≤◌, ◌+◌, ◌^◌, length};
    ghost use Rattle.transform.specs.Backlogs.{Waiting, waiting_after};

    ghost Value = { Waiting };

    ghost view = { λ b. waiting_after b.place b.batches b.batch };

    ghost invariant = { λ b. (b.place + length b.batch ≤ 2 ^ 63) × (b.batches ≤ b.place) };
}

impl Backlog {
    /// The backlog of an output partition without rows.
    pub fn new(alloc: Global) -> Backlog
        ensures { result ≡ waiting 0 [] }
    {
        Backlog {
            place: 0,
            batches: 0,
            batch: OpenBatch::new(alloc),
        }
    }

    /// How many batches were taken.
    pub fn batches(&self) -> u64
        ensures { result ≡ self.now.batches }
    {
        self.batches
    }

    /// How many rows were added, those that wait among them.
    pub fn rows(&self) -> u64
        ensures { result ≡ self.now.place + length self.now.rows }
    {
        self.place + self.len() as u64
    }

    /// How many rows wait.
    pub fn len(&self) -> usize
        ensures { result ≡ length self.now.rows }
    {
        self.batch.len()
    }

    /// How many rows may be added: offsets are below 2^63.
    pub fn room(&self) -> u64
        ensures { result + self.now.place + length self.now.rows ≡ 2 ^ 63 }
    {
        PLACE_END - self.place - self.batch.len() as u64
    }

    /// Adds a row at the end, where one batch has room for it and those that wait, and returns whether
    /// it has; it always has where none waits. It fails only where memory runs out; then nothing
    /// changes.
    #[inline(always)]
    pub fn push(&mut self, row: &RowRef) -> Result<bool, AllocError>
        requires fits { RowFits row.now }
        requires room { self.old.place + length self.old.rows < 2 ^ 63 }
        ensures takes { IfOk result (λ added. TakesRow added self.old row.now self.new) }
        ensures err { OnErr result (self.new ≡ self.old) }
    {
        self.batch.push(row)
    }

    /// The bytes of the batch of all rows that wait; none of them waits then. It fails only where
    /// memory runs out; then nothing changes.
    pub fn take(&mut self) -> Result<Vec<u8>, AllocError>
        requires { 1 ≤ length self.old.rows }
        ensures gives { IfOk result (λ bytes. GivesAll self.old bytes.items self.new) }
        ensures err { OnErr result (self.new ≡ self.old) }
    {
        let count = self.len() as u64;
        let bytes = self.batch.take(self.place)?;
        self.place += count;
        self.batches += 1;
        Ok(bytes)
    }

    /// Gives the room of these bytes to the next batch, where no row waits.
    pub fn reuse(&mut self, bytes: Vec<u8>)
        requires { self.old.rows ≡ [] }
        ensures { self.new ≡ self.old }
    {
        self.batch.reuse(bytes);
    }
}
