//! An output partition's rows as record batches in a writer.

ghost use Rattle.std.specs.Prelude.{◌≡◌, ◌<◌, ◌≤◌, ◌+◌, ◌^◌, List, [], ◌∷◌, length, drop, All};
ghost use Rattle.log_spec.specs.declared.row.Row.{Row};
ghost use Rattle.log_spec.specs.Logs.{RowFits};
ghost use Rattle.transform.specs.Backlogs.{waiting, with_rows};
ghost use Rattle.transform.specs.Outlets.{outflow, Writes, WritesSome, PutsRows, PutsFull, PutsFirst, PutsOpen, PutsRest};
ghost use Rattle.transform.specs.declared.outlet.OutletFault.TheVariants.{Write as Unwritten};

use crate::backlog::Backlog;
use item_rows::RowRefs;
use log_spec::RowRef;
use std::alloc::{AllocError, Global};
use std::io;
use std::io::Write;
use std::marker::Model;
use thiserror::Error;

/// Why an output partition's rows are not written.
#[derive(Clone, Copy, Debug, PartialEq, Eq, Drop, Error)]
pub enum OutletFault {
    /// The output partition's offsets are used up.
    #[error("full")]
    Full,
    /// Memory ran out.
    #[error("memory")]
    Memory,
    /// The writer failed, or took no byte.
    #[error("write")]
    Write,
}

impl From<AllocError> for OutletFault {
    ghost use Rattle.transform.specs.declared.outlet.OutletFault.TheVariants.{Memory};

    ghost from_gives = { λ _ fault. fault ≡ Memory };

    fn from(_error: AllocError) -> OutletFault {
        OutletFault::Memory
    }
}

/// An output partition that rows are put into: a writer, which has the batches of the first rows, and
/// the rows that wait for a batch. Contracts see what the writer holds, where that is known, and
/// what waits.
#[derive(Drop)]
pub struct Outlet<W: Write> {
    backlog: Backlog,
    writer: W,
}

impl<W: Write> Model for Outlet<W> {
    ghost use Rattle.transform.specs.Outlets.{Outflow, outflow};

    ghost Value = { Outflow };

    ghost view = { λ o. outflow (W.contents o.writer) o.backlog };
}

impl<W: Write> Outlet<W> {
    /// An output partition without rows, whose batches a writer will have.
    pub fn new(alloc: Global, writer: W) -> Outlet<W>
        ensures { result ≡ outflow (W.contents writer) (waiting 0 []) }
    {
        Outlet {
            backlog: Backlog::new(alloc),
            writer,
        }
    }

    /// The writer.
    pub fn writer(&self) -> &W
        ensures { W.contents result.now ≡ self.now.written }
    {
        &self.writer
    }

    /// The writer, by value. Rows that wait are lost.
    pub fn into_writer(self) -> W
        ensures { W.contents result ≡ self.written }
    {
        let Outlet { writer, backlog: _ } = self;
        writer
    }

    /// How many rows were put, those that wait among them.
    pub fn rows(&self) -> u64
        ensures { result ≡ self.now.waits.place + length self.now.waits.rows }
    {
        self.backlog.rows()
    }

    /// How many batches were written, one that failed among them.
    pub fn batches(&self) -> u64
        ensures { result ≡ self.now.waits.batches }
    {
        self.backlog.batches()
    }

    /// Adds rows at the end, one after the other, and writes the batch of those that wait before a row
    /// that it has no room for. It is full only where an offset would be 2^63 or more; then nothing
    /// changes. It fails otherwise only where memory runs out, and where the writer fails or takes no
    /// byte. Then whole batches were written of the rows that waited and of these, and where the
    /// writer failed, a beginning of one more; what waits is not said. The room is for values that are
    /// spelled for their rows.
    pub fn put(&mut self, rows: &RowRefs, room: &mut Vec<u8>) -> Result<(), OutletFault>
        requires { All RowFits rows.now }
        ensures { PutsRows self.old rows.now result self.new }
    {
        if rows.len() as u64 > self.backlog.room() {
            return Err(OutletFault::Full);
        }
        put_rows(rows, room, &mut self.backlog, &mut self.writer)
    }

    /// Writes the batch of all rows that wait; none waits then. It fails only where memory runs out, and
    /// where the writer fails or takes no byte. Then whole batches of those rows were written, and
    /// where the writer failed, a beginning of one more; what waits is not said.
    pub fn end(&mut self) -> Result<(), OutletFault>
        ensures { PutsRest self.old result self.new }
    {
        if self.backlog.len() == 0 {
            return Ok(());
        }
        put_open(&mut self.backlog, &mut self.writer)
    }
}

// Adds rows, and writes each batch that has no room for the next one.
#[inline(never)]
fn put_rows<W: Write>(
    rows: &RowRefs,
    room: &mut Vec<u8>,
    backlog: &mut Backlog,
    writer: &mut W,
) -> Result<(), OutletFault>
    requires fit { All RowFits rows.now }
    requires room { backlog.old.place + length backlog.old.rows + length rows.now ≤ 2 ^ 63 }
    ensures { PutsFull (with_rows backlog.old rows.now) (W.contents writer.old) result backlog.new (W.contents writer.new) }
{
    for index in 0..rows.len() {
        put_next(&*rows, index, room, backlog, writer)?;
    }
    Ok(())
}

// Adds the row with a number, as `put_row` does. The room is for its value.
#[inline(always)]
fn put_next<'r, W: Write>(
    rows: &'r RowRefs,
    index: usize,
    room: &'r mut Vec<u8>,
    backlog: &mut Backlog,
    writer: &mut W,
) -> Result<(), OutletFault>
    requires within { index < length rows.now }
    requires fit { All RowFits rows.now }
    requires room { backlog.old.place + length backlog.old.rows < 2 ^ 63 }
    ensures { PutsFirst (outflow (W.contents writer.old) backlog.old) (drop index rows.now) result (outflow (W.contents writer.new) backlog.new) (drop (index + 1) rows.now) }
{
    let row = rows.row(index, room)?;
    put_row(&row, backlog, writer)
}

// Adds a row, after the batch of those that wait was written where it has no room for it. Rows may come
// after it.
#[inline(always)]
fn put_row<W: Write>(row: &RowRef, backlog: &mut Backlog, writer: &mut W) -> Result<(), OutletFault>
    requires fits { RowFits row.now }
    requires room { backlog.old.place + length backlog.old.rows < 2 ^ 63 }
    ensures { (others : List Row) → PutsFirst (outflow (W.contents writer.old) backlog.old) (row.now ∷ others) result (outflow (W.contents writer.new) backlog.new) others }
{
    if backlog.push(row)? {
        return Ok(());
    }
    put_open(backlog, writer)?;
    backlog.push(row)?;
    Ok(())
}

// Writes the batch of all rows that wait. Its room is for the next one.
fn put_open<W: Write>(backlog: &mut Backlog, writer: &mut W) -> Result<(), OutletFault>
    requires { 1 ≤ length backlog.old.rows }
    ensures { PutsOpen backlog.old (W.contents writer.old) result backlog.new (W.contents writer.new) }
{
    let bytes = backlog.take()?;
    put_batch(&bytes, writer)?;
    backlog.reuse(bytes);
    Ok(())
}

// Writes a batch.
fn put_batch<W: Write>(bytes: &[u8], writer: &mut W) -> Result<(), OutletFault>
    ensures { Writes (W.contents writer.old) (W.contents writer.new) bytes.now result }
{
    let mut done = 0;
    for _ in 0..u64::MAX {
        if done == bytes.len() {
            return Ok(());
        }
        done += put_some(&bytes[done..], writer)?;
    }
    Err(OutletFault::Write)
}

// Writes the first of some bytes, and returns how many; none where the writer was interrupted.
#[tactic(auto, using(wire_spec::proofs::Beginnings::begun_kept, wire_spec::proofs::Beginnings::kept_none, wire_spec::proofs::Beginnings::begun_some))]
fn put_some<W: Write>(bytes: &[u8], writer: &mut W) -> Result<usize, OutletFault>
    ensures { WritesSome (W.contents writer.old) (W.contents writer.new) bytes.now result }
{
    match writer.write(bytes) {
        Ok(0) => Err(OutletFault::Write),
        Ok(count) => Ok(count),
        Err(error) => match error.kind() {
            io::ErrorKind::Interrupted => Ok(0),
            _ => Err(OutletFault::Write),
        },
    }
}
