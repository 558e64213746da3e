//! Record batches through a program, into output partitions.

ghost use Rattle.std.specs.Prelude.{◌≡◌, ℕ, ◌+◌, ◌<◌, ◌≤◌, length, slice_get, All, Some, OnOk};
ghost use Rattle.wire_spec.specs.declared.limits.TheConstants.{TIMESTAMP_END, MAX_RECORDS};
ghost use Rattle.log_spec.specs.Logs.{FitsLog, RowFits};
ghost use Rattle.item_rows.specs.ItemRows.{rows_in, IsOrigin};
ghost use Rattle.item_rows.specs.Blocks.{IsPartOf, GiveRows};
ghost use Rattle.transform.specs.Transforms.{flow, none_counted, origin_of, IsFlow, Pushes, PutsEach, PutsOne, EndsEach, EndsOne, EndsFlow};
ghost use Rattle.transform.specs.Parts.{IsAt, PutsPart, PushesPart};

use crate::outlet::{Outlet, OutletFault};
use batch::PackedBatch;
use fates::Counts;
use item_rows::{Blocks, ItemRefs, Origin, Part, RowRefs, drop_rest, part_refs_in};
use log_item::{LoggedBatch, Program};
use std::alloc::{AllocError, Global};
use std::io::Write;
use std::marker::Model;
use thiserror::Error;
use wire_spec::{MAX_RECORDS, TIMESTAMP_END};

/// Why a batch is not transformed.
#[derive(Clone, Copy, Debug, PartialEq, Eq, Drop, Error)]
pub enum TransformFault {
    /// The offsets of the input's records are used up.
    #[error("full")]
    Full,
    /// Memory ran out.
    #[error("memory")]
    Memory,
    /// The rows of an output partition are not written.
    #[error("output {output}: {fault}")]
    Output { output: usize, fault: OutletFault },
}

impl From<AllocError> for TransformFault {
    ghost use Rattle.transform.specs.declared.flow.TransformFault.TheVariants.{Memory};

    ghost from_gives = { λ _ fault. fault ≡ Memory };

    fn from(_error: AllocError) -> TransformFault {
        TransformFault::Memory
    }
}

/// A stream of record batches through a program. Contracts see the input partition's number, the
/// offset of the next record, the output partitions, and the counts of the records.
#[derive(Drop)]
pub struct Transform<W: Write> {
    input: usize,
    offset: u64,
    outlets: Vec<Outlet<W>>,
    counts: Counts,
    blocks: Blocks,
}

impl<W: Write> Model for Transform<W> {
    ghost use Rattle.transform.specs.Transforms.{Flow, flow, IsFlow};

    ghost Value = { Flow };

    ghost view = { λ t. flow t.input t.offset t.outlets.items t.counts };

    ghost invariant = { λ t. IsFlow (flow t.input t.offset t.outlets.items t.counts) };
}

impl<W: Write> Transform<W> {
    /// A stream before its first batch, whose first record has this offset, at most 2^62, in this
    /// input partition, below 64, into these 1 to 64 output partitions.
    pub fn new(alloc: Global, input: usize, offset: u64, outlets: Vec<Outlet<W>>) -> Transform<W>
        requires input { input < 64 }
        requires offset { offset ≤ TIMESTAMP_END }
        requires some { 1 ≤ length outlets.items }
        requires few { length outlets.items ≤ 64 }
        ensures { result ≡ flow input offset outlets.items none_counted }
    {
        Transform {
            input,
            offset,
            outlets,
            counts: Counts::new(alloc),
            blocks: Blocks::new(alloc),
        }
    }

    /// The offset of the next record: that of the first, and how many came since.
    pub fn offset(&self) -> u64
        ensures { result ≡ self.now.offset }
    {
        self.offset
    }

    /// What became of the records of the batches that were pushed, as a report counts them. Nothing is
    /// said of a batch at which an output partition failed.
    pub fn counts(&self) -> &Counts
        ensures { result.now ≡ self.now.counts }
    {
        &self.counts
    }

    /// How many output partitions there are.
    pub fn outputs(&self) -> usize
        ensures { result ≡ length self.now.outputs }
    {
        self.outlets.len()
    }

    /// An output partition.
    pub fn outlet(&self, output: usize) -> &Outlet<W>
        requires { output < length self.now.outputs }
        ensures { slice_get self.now.outputs output ≡ Some result.now }
    {
        &self.outlets[output]
    }

    /// The output partitions, by value.
    pub fn into_outlets(self) -> Vec<Outlet<W>>
        ensures { result.items ≡ self.outputs }
    {
        self.into_parts().0
    }

    /// The output partitions and the counts, by value.
    pub(crate) fn into_parts(self) -> (Vec<Outlet<W>>, Counts)
        ensures outlets { result.0.items ≡ self.outputs }
        ensures counts { result.1 ≡ self.counts }
    {
        let Transform {
            outlets,
            counts,
            ..
        } = self;
        (outlets, counts)
    }

    // Where the next batch is.
    fn origin(&self) -> Origin
        ensures origin { result ≡ origin_of self.now }
        ensures ranges { IsFlow self.now }
    {
        Origin {
            input: self.input,
            offset: self.offset,
            outputs: self.outlets.len(),
        }
    }

    // The allocator of what is run.
    fn alloc(&self) -> Global {
        self.blocks.alloc()
    }

    /// Runs a program on the records of the next batch, in order, each once, counts what became of
    /// them, and puts the rows into the output partitions, which write each batch that has no room for
    /// the next row. Rows that wait share no bytes with the batch. It takes memory for the rows of a part of
    /// the batch at a time. It fails where the batch might reach the offset 2^62; then nothing changes. It
    /// fails where memory runs out; then nothing changes, or the first records were pushed and counted, and
    /// no others. It fails with an output partition as `Outlet::put` does; then each output partition has
    /// written whole batches of its rows, and that one maybe a beginning of one more.
    pub fn push(&mut self, program: &Program, batch: PackedBatch) -> Result<(), TransformFault>
        requires { FitsLog batch }
        ensures pushes { Pushes program.now batch self.old result self.new }
        ensures counted { OnOk result (self.new.counts.records ≡ self.old.counts.records + length batch.records) }
    {
        if self.offset() > TIMESTAMP_END - MAX_RECORDS as u64 {
            return Err(TransformFault::Full);
        }
        let batch = LoggedBatch::packed(self.alloc(), batch)?;
        push_parts(program, &batch, self)
    }

    // Runs a program on some records of a batch, counts them, and puts their rows into the output partitions.
    // The origin is the whole batch's.
    fn put_part<'a>(
        &mut self,
        program: &'a Program,
        origin: &'a Origin,
        batch: &'a LoggedBatch,
        part: Part,
        rows: &mut ItemRefs<'a>,
    ) -> Result<(), TransformFault>
        requires at { IsAt origin.now part.first self.old }
        requires origin { IsOrigin origin.now }
        requires fits { FitsLog batch.now }
        requires part { IsPartOf (length batch.now.records) part }
        requires rows { length rows.old.rows ≡ origin.now.outputs }
        ensures puts { PutsPart program.now origin.now batch.now part self.old result self.new }
        ensures counted { OnOk result (self.new.counts.records ≡ self.old.counts.records + part.count) }
        ensures rows { OnOk result (length rows.new.rows ≡ origin.now.outputs) }
    {
        part_refs_in(&mut self.blocks, origin, program, batch, part, rows)?;
        self.counts.add_all(rows.counts())?;
        self.offset += part.count as u64;
        put_each(self.blocks.alloc(), rows, &mut self.outlets)
    }

    // Runs a program on the records of a batch from a number on, and drops what they emit.
    fn drop_rest(&mut self, program: &Program, origin: &Origin, batch: &LoggedBatch, first: usize)
        requires origin { IsOrigin origin.now }
        requires within { first ≤ length batch.now.records }
        ensures rows { GiveRows origin.now program.now batch.now first }
        ensures same { self.new ≡ self.old }
    {
        drop_rest(&mut self.blocks, origin, program, batch, first);
    }

    // The same as `put_part`. Where an output partition fails, the records after these are run too.
    fn push_part<'a>(
        &mut self,
        program: &'a Program,
        origin: &'a Origin,
        batch: &'a LoggedBatch,
        part: Part,
        rows: &mut ItemRefs<'a>,
    ) -> Result<(), TransformFault>
        requires at { IsAt origin.now part.first self.old }
        requires origin { IsOrigin origin.now }
        requires fits { FitsLog batch.now }
        requires part { IsPartOf (length batch.now.records) part }
        requires rows { length rows.old.rows ≡ origin.now.outputs }
        ensures pushes { PushesPart program.now origin.now batch.now part self.old result self.new }
        ensures counted { OnOk result (self.new.counts.records ≡ self.old.counts.records + part.count) }
        ensures rows { OnOk result (length rows.new.rows ≡ origin.now.outputs) }
    {
        let put = self.put_part(program, origin, batch, part, rows);
        if let Err(TransformFault::Output { .. }) = put {
            self.drop_rest(program, origin, batch, part.first + part.count);
        }
        put
    }

    /// Writes the batches of all rows that wait. It fails with an output partition as `Outlet::end`
    /// does; then each has written whole batches of its rows, and that one maybe a beginning of one
    /// more.
    pub fn end(&mut self) -> Result<(), TransformFault>
        ensures { EndsFlow self.old result self.new }
    {
        end_each(&mut self.outlets)
    }
}

// The records that a program is run on after the first `done` of so many, before their rows are written.
fn next_part(program: &Program, done: usize, records: usize) -> Part
    requires { done < records }
    ensures first { result.first ≡ done }
    ensures some { 1 ≤ result.count }
    ensures part { IsPartOf records result }
{
    Part::next(done, records.min(done.saturating_add(program.at_once())))
}

// Runs a program on the records of a batch, one part after the other, and puts the rows of each into the output
// partitions before the next one is run.
fn push_parts<W: Write>(
    program: &Program,
    batch: &LoggedBatch,
    stream: &mut Transform<W>,
) -> Result<(), TransformFault>
    requires { stream.old.offset + MAX_RECORDS ≤ TIMESTAMP_END }
    ensures pushes { Pushes program.now batch.now stream.old result stream.new }
    ensures counted { OnOk result (stream.new.counts.records ≡ stream.old.counts.records + length batch.now.records) }
{
    let total = batch.len();
    let origin = stream.origin();
    let mut rows = ItemRefs::none(stream.alloc(), origin.outputs, total)?;
    let mut done = 0;
    while done < total {
        let part = next_part(program, done, total);
        stream.push_part(program, &origin, batch, part, &mut rows)?;
        done += part.count;
    }
    Ok(())
}

// Puts rows into each output partition. Values that programs changed are spelled in one room, one after the other.
fn put_each<W: Write>(
    alloc: Global,
    rows: &ItemRefs,
    outlets: &mut [Outlet<W>],
) -> Result<(), TransformFault>
    requires count { length rows.now.rows ≡ length outlets.old }
    requires fit { (output : ℕ) → output < length outlets.old → All RowFits (rows_in rows.now.rows output) }
    ensures { PutsEach rows.now.rows outlets.old result outlets.new }
{
    let mut room = Vec::new(alloc);
    for output in 0..outlets.len() {
        put_one(output, rows.rows(output), &mut room, outlets)?;
    }
    Ok(())
}

// Puts rows into an output partition.
fn put_one<W: Write>(
    output: usize,
    rows: &RowRefs,
    room: &mut Vec<u8>,
    outlets: &mut [Outlet<W>],
) -> Result<(), TransformFault>
    requires within { output < length outlets.old }
    requires fit { All RowFits rows.now }
    ensures { PutsOne output rows.now outlets.old result outlets.new }
{
    match outlets[output].put(rows, room) {
        Ok(()) => Ok(()),
        Err(fault) => Err(TransformFault::Output { output, fault }),
    }
}

// Writes what waits in each output partition.
fn end_each<W: Write>(outlets: &mut [Outlet<W>]) -> Result<(), TransformFault>
    ensures { EndsEach outlets.old result outlets.new }
{
    for output in 0..outlets.len() {
        end_one(output, outlets)?;
    }
    Ok(())
}

// Writes what waits in an output partition.
fn end_one<W: Write>(output: usize, outlets: &mut [Outlet<W>]) -> Result<(), TransformFault>
    requires { output < length outlets.old }
    ensures { EndsOne output outlets.old result outlets.new }
{
    match outlets[output].end() {
        Ok(()) => Ok(()),
        Err(fault) => Err(TransformFault::Output { output, fault }),
    }
}
