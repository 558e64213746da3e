//! All batches of a reader through a program.

ghost use Rattle.std.specs.Prelude.{◌≡◌, List, [], ◌∷◌, Option, None};
ghost use Rattle.batch_reader.specs.Readings.{IsOpen};
ghost use Rattle.transform.specs.Streams.{is_broken, PushesWatched, TransformsAll, TransformsWatched};
ghost use Rattle.transform.specs.Tellings.{Telling, telling, AddsTellings};
ghost use Rattle.transform.specs.declared.stream.StreamFault.TheVariants.{Read as Unread, Transform as Stopped};

use crate::flow::{Transform, TransformFault};
use batch_reader::{BatchReader, Position, ReadFault};
use log_item::Program;
use std::io::{Read, Write};
use thiserror::Error;

/// Why no further batch of a reader is transformed.
#[derive(Clone, Copy, Debug, PartialEq, Eq, Drop, Error)]
pub enum StreamFault {
    /// No batch is read.
    #[error("{0}")]
    Read(ReadFault),
    /// The batch that was read is not transformed, or rows are not written.
    #[error("{0}")]
    Transform(TransformFault),
}

impl From<ReadFault> for StreamFault {
    ghost from_gives = { λ fault e. e ≡ Unread fault };

    fn from(fault: ReadFault) -> StreamFault {
        StreamFault::Read(fault)
    }
}

impl From<TransformFault> for StreamFault {
    ghost from_gives = { λ fault e. e ≡ Stopped fault };

    fn from(fault: TransformFault) -> StreamFault {
        StreamFault::Transform(fault)
    }
}

/// What looks at a stream after each batch.
pub trait Watch {
    /// What it was told, in order, where that is known.
    ghost told: { Self → Option (List Telling) } = { λ _. None };

    /// How much of the reader was given so far, and how many records were counted, with those before the
    /// stream's first batch. That is no offset: offsets may begin at another number than 0.
    fn batch_done(&mut self, position: Position, records: u64)
        ensures { AddsTellings (told self.old) (telling position records ∷ []) (told self.new) };
}

/// Looks at nothing.
#[derive(Drop)]
struct Unwatched;

impl Watch for Unwatched {
    fn batch_done(&mut self, _position: Position, _records: u64) {}
}

/// Runs a program on all batches of a reader, one after the other, counts what became of their
/// records, and writes all their rows. After a fault the rows of the batches before it are written too,
/// and their records counted, and where memory ran out those of the first records of the batch, unless an
/// output partition failed: then each output partition has written whole batches of its rows, and that one
/// maybe a beginning of one more. The reader gave no other batch but one that might reach the offset 2^62,
/// or at which memory ran out.
pub fn transform_all<R: Read, W: Write>(
    program: &Program,
    reader: &mut BatchReader<R>,
    stream: &mut Transform<W>,
) -> Result<(), StreamFault>
    requires { IsOpen reader.old }
    ensures { TransformsAll program.now reader.old stream.old result reader.new stream.new }
{
    transform_watched(program, reader, stream, &mut Unwatched)
}

/// The same. The watcher is told once after each batch that was pushed, and not of one at which an output
/// partition failed or memory ran out.
pub fn transform_watched<R: Read, W: Write, V: Watch>(
    program: &Program,
    reader: &mut BatchReader<R>,
    stream: &mut Transform<W>,
    watch: &mut V,
) -> Result<(), StreamFault>
    requires { IsOpen reader.old }
    ensures { TransformsWatched program.now reader.old stream.old result reader.new stream.new (V.told watch.old) (V.told watch.new) }
{
    let pushed = push_all(program, reader, stream, watch);
    if is_broken(&pushed) {
        return pushed;
    }
    match stream.end() {
        Ok(()) => pushed,
        Err(fault) => Err(StreamFault::Transform(fault)),
    }
}

// Whether an output partition failed.
fn is_broken(pushed: &Result<(), StreamFault>) -> bool
    ensures { result ≡ is_broken pushed.now }
{
    matches!(
        pushed,
        Err(StreamFault::Transform(TransformFault::Output { .. }))
    )
}

// Runs a program on all batches of a reader, and tells a watcher of each.
fn push_all<R: Read, W: Write, V: Watch>(
    program: &Program,
    reader: &mut BatchReader<R>,
    stream: &mut Transform<W>,
    watch: &mut V,
) -> Result<(), StreamFault>
    requires { IsOpen reader.old }
    ensures { PushesWatched program.now reader.old stream.old result reader.new stream.new (V.told watch.old) (V.told watch.new) }
{
    for _ in 0..u64::MAX {
        match reader.next()? {
            None => return Ok(()),
            Some(batch) => stream.push(program, batch)?,
        }
        watch.batch_done(reader.position(), stream.counts().records());
    }
    Err(StreamFault::Read(ReadFault::Read))
}
