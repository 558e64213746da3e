//! Record batches in memory through a program, into memory.

ghost use Rattle.std.specs.Prelude.{◌≡◌, ◌<◌, ◌≤◌, [], Some, length, map, replicate, IfOk};
ghost use Rattle.batch_reader.specs.Readings.{IsOpen};
ghost use Rattle.wire_spec.specs.declared.limits.TheConstants.{TIMESTAMP_END};
ghost use Rattle.transform.specs.{Backlogs.waiting, Outlets.outflow};
ghost use Rattle.transform.specs.Transformed.{TransformsBatches, content_of, content_in, IsStopOf, IsMadeOf};
ghost use Rattle.transform.specs.Transformed.{bytes_written, PushesWithin};

use crate::flow::{Transform, TransformFault};
use crate::outlet::Outlet;
use crate::stream::StreamFault;
use batch_reader::{BatchReader, Position, ReadFault};
use bytes::Bytes;
use fates::Counts;
use item_rows::Origin;
use log_item::Program;
use std::alloc::{AllocError, Global};
use std::io::Read;
use wire_spec::BatchFault;

/// How much of some bytes is whole batches that were transformed.
#[derive(Clone, Copy, Debug, PartialEq, Eq)]
pub struct BatchPlace {
    /// How many batches.
    pub batch: usize,
    /// How many bytes they have, and so where the next one begins.
    pub byte: usize,
}

/// Why a batch is not transformed.
#[derive(Clone, Copy, Debug, PartialEq, Eq, Drop)]
pub enum Stop {
    /// The bytes begin with no batch.
    Batch(BatchFault),
    /// A batch of 10,000 records would reach the offset 2^62.
    Full,
    /// The batches of the rows take more bytes than the caller's limit.
    Limit,
    /// Memory ran out.
    Memory,
}

impl From<AllocError> for Stop {
    ghost use Rattle.transform.specs.declared.memory.Stop.TheVariants.{Memory};

    ghost from_gives = { λ _ stop. stop ≡ Memory };

    fn from(_error: AllocError) -> Stop {
        Stop::Memory
    }
}

/// The rows of an output partition as record batches.
#[derive(Drop)]
pub struct OutputBatches {
    /// How many rows there are.
    pub rows: u64,
    /// How many batches they are in.
    pub batches: usize,
    /// The batches, one after the other.
    pub bytes: Vec<u8>,
}

/// What a program makes of record batches.
#[derive(Drop)]
pub struct Transformed {
    /// How many batches there are.
    pub batches: usize,
    /// What became of their records.
    pub counts: Counts,
    /// How many records each code rejected, by rising code. A code that rejected none is not listed.
    pub rejects: Vec<(u64, u64)>,
    /// The rows of each output partition.
    pub outputs: Vec<OutputBatches>,
}

// Output partitions without rows.
fn empty_outlets(alloc: Global, outputs: usize) -> Result<Vec<Outlet<Vec<u8>>>, AllocError>
    ensures { IfOk result (λ outlets. outlets.items ≡ replicate outputs (outflow (Some []) (waiting 0 []))) }
{
    let mut outlets = Vec::with_capacity(alloc, outputs)?;
    for _ in 0..outputs {
        outlets.push(Outlet::new(alloc, Vec::new(alloc)))?;
    }
    Ok(outlets)
}

// Why a transform stops whose stream ends so.
fn stop_of(fault: StreamFault) -> Stop
    ensures { IsStopOf fault result }
{
    match fault {
        StreamFault::Read(ReadFault::Batch(BatchFault::Memory)) => Stop::Memory,
        StreamFault::Read(ReadFault::Batch(why)) => Stop::Batch(why),
        StreamFault::Transform(TransformFault::Full) => Stop::Full,
        _ => Stop::Memory,
    }
}

// The batches of an output partition.
fn batches_of(outlet: Outlet<Vec<u8>>) -> OutputBatches
    ensures { content_in result ≡ content_of outlet }
{
    OutputBatches {
        rows: outlet.rows(),
        batches: outlet.batches() as usize,
        bytes: outlet.into_writer(),
    }
}

// The same of each output partition.
fn each_of(alloc: Global, outlets: Vec<Outlet<Vec<u8>>>) -> Result<Vec<OutputBatches>, AllocError>
    ensures { IfOk result (λ made. map content_in made.items ≡ map content_of outlets.items) }
{
    let mut outputs = Vec::with_capacity(alloc, outlets.len())?;
    for outlet in outlets {
        outputs.push(batches_of(outlet))?;
    }
    Ok(outputs)
}

// What a stream made of this many batches, whose rows are all written.
fn made_of(
    alloc: Global,
    batches: usize,
    stream: Transform<Vec<u8>>,
) -> Result<Transformed, AllocError>
    ensures { IfOk result (IsMadeOf batches stream) }
{
    let (outlets, counts) = stream.into_parts();
    let rejects = counts.rejects().iter();
    Ok(Transformed {
        batches,
        rejects: rejects.map(|(code, count)| (*code, *count)).collect(alloc)?,
        counts,
        outputs: each_of(alloc, outlets)?,
    })
}

// How many bytes the batches have that output partitions have written.
fn bytes_written(stream: &Transform<Vec<u8>>) -> u128
    requires { length stream.now.outputs ≤ 64 }
    ensures { result ≡ bytes_written stream.now.outputs }
{
    let mut sum = 0;
    for output in 0..stream.outputs() {
        sum += stream.outlet(output).writer().len() as u128;
    }
    sum
}

/// How far a reader's batches were pushed.
#[derive(Clone, Copy, Debug, PartialEq, Eq)]
enum Reached {
    /// To the end.
    End,
    /// To a batch with which more bytes than the limit were written.
    Limit,
}

// Runs a program on the batches of a reader, one after the other, until more bytes are written than the limit.
// The place is how much the reader had given with those that were pushed, unless an output partition failed.
fn push_within<R: Read>(
    program: &Program,
    reader: &mut BatchReader<R>,
    stream: &mut Transform<Vec<u8>>,
    limit: u64,
    place: &mut Position,
) -> Result<Reached, StreamFault>
    requires open { IsOpen reader.old }
    requires few { length stream.old.outputs ≤ 64 }
    ensures { PushesWithin program.now limit reader.old stream.old result reader.new stream.new place.new }
{
    *place = reader.position();
    for _ in 0..u64::MAX {
        match reader.next()? {
            None => return Ok(Reached::End),
            Some(batch) => stream.push(program, batch)?,
        }
        *place = reader.position();
        if bytes_written(stream) > limit as u128 {
            return Ok(Reached::Limit);
        }
    }
    Err(StreamFault::Read(ReadFault::Read))
}

/// Runs a program on all record batches of some bytes, where the batches of its rows take at most so many
/// bytes together. It is all or nothing: it fails where the bytes begin with no batch after some of them,
/// where a batch might reach the offset 2^62, where more bytes than the limit are written after a batch or
/// at the end, and where memory runs out. `place` is then how much was read before, with the batch that
/// passed the limit, unless memory ran out.
pub fn transform_batches(
    alloc: Global,
    program: &Program,
    origin: &Origin,
    bytes: &[u8],
    limit: u64,
    place: &mut BatchPlace,
) -> Result<Transformed, Stop>
    requires input { origin.now.input < 64 }
    requires offset { origin.now.offset ≤ TIMESTAMP_END }
    requires some { 1 ≤ origin.now.outputs }
    requires few { origin.now.outputs ≤ 64 }
    ensures { TransformsBatches program.now origin.now bytes.now limit result place.new }
{
    let mut reader = BatchReader::over(alloc, Bytes::copy_from_slice(alloc, bytes)?)?;
    let outlets = empty_outlets(alloc, origin.outputs)?;
    let mut stream = Transform::new(alloc, origin.input, origin.offset, outlets);
    let mut given = reader.position();
    let reached = push_within(program, &mut reader, &mut stream, limit, &mut given);
    let batch = given.batches as usize;
    let byte = given.bytes as usize;
    *place = BatchPlace { batch, byte };
    match reached {
        Err(fault) => return Err(stop_of(fault)),
        Ok(Reached::Limit) => return Err(Stop::Limit),
        Ok(Reached::End) => {}
    }
    let Ok(()) = stream.end() else {
        return Err(Stop::Memory);
    };
    if bytes_written(&stream) > limit as u128 {
        return Err(Stop::Limit);
    }
    Ok(made_of(alloc, batch, stream)?)
}
