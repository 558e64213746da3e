ghost use Rattle.std.specs.Prelude.{◌≡◌, ◌≤◌, [], length, Some, IfOk, IfSome, OnOk};
ghost use Rattle.std.specs.Io.KnownBytes.{prepend_known};
ghost use Rattle.wire_spec.specs.BatchSpelling.{BatchFits};
ghost use Rattle.batch.specs.Streams.{Open, pending_bytes, kept_bytes, Gives};
ghost use Rattle.batch_reader.specs.Readings.{none_given, with_batch, kept, inlet, IsOpen, ReadsBatch, Takes, BeginsWith, CountsGiven, ReadsSome, ReadsOn};
ghost use Rattle.batch_reader.specs.declared.reader.ReadFault.TheVariants.{Batch as Refused, Memory};

use batch::{Feed, HEADER, PackedBatch, batch_size};
use bytes::Bytes;
use std::alloc::{AllocError, Global};
use std::io;
use std::io::{Empty, Read};
use std::marker::Model;
use thiserror::Error;
use wire_spec::{BatchFault, MAX_PIECE};

/// Why no batch is read.
#[derive(Clone, Copy, Debug, PartialEq, Eq, Drop, Error)]
pub enum ReadFault {
    /// The reader failed.
    #[error("F1 Read")]
    Read,
    /// The bytes that follow begin with no batch, or end inside one.
    #[error("{0}")]
    Batch(BatchFault),
    /// Memory ran out.
    #[error("memory")]
    Memory,
}

impl From<BatchFault> for ReadFault {
    ghost from_gives = { λ fault e. e ≡ Refused fault };

    fn from(fault: BatchFault) -> ReadFault {
        ReadFault::Batch(fault)
    }
}

impl From<AllocError> for ReadFault {
    ghost from_gives = { λ _ e. e ≡ Memory };

    fn from(_error: AllocError) -> ReadFault {
        ReadFault::Memory
    }
}

/// How much of a reader was given. A number that would reach 2^64 stays at 2^64 - 1.
#[derive(Clone, Copy, Debug, PartialEq, Eq)]
pub struct Position {
    /// How many batches.
    pub batches: u64,
    /// How many bytes they have, and so where the next one begins.
    pub bytes: u64,
}

impl Position {
    // With one batch more, of this many bytes.
    fn with_batch(self, bytes: u64) -> Position
        ensures { result ≡ with_batch self bytes }
    {
        Position {
            batches: self.batches.saturating_add(1),
            bytes: self.bytes.saturating_add(bytes),
        }
    }
}

/// What was read in pieces of a reader whose bytes are record batches. Each call gets the reader. Contracts see
/// the bytes that were read and not given yet, and how much was given.
#[derive(Drop)]
pub struct Pieces {
    feed: Feed,
    buffer: Vec<u8>,
    position: Position,
}

impl Model for Pieces {
    ghost use Rattle.std.specs.Prelude.{◌≤◌, length};
    ghost use Rattle.batch_reader.specs.Readings.{Kept, kept};

    ghost Value = { Kept };

    ghost view = { λ p. kept p.feed p.position };

    ghost invariant = { λ p. 1 ≤ length p.buffer.items };
}

impl Pieces {
    /// Before a reader's first batch, where these bytes of it were fed before. At most `piece` bytes, 1 to
    /// `MAX_PIECE`, are read at once. It fails only where memory runs out.
    pub fn new(alloc: Global, feed: Feed, piece: usize) -> Result<Pieces, AllocError>
        requires { (1 ≤ piece) × (piece ≤ MAX_PIECE) }
        ensures { IfOk result (λ pieces. pieces ≡ kept feed none_given) }
    {
        Ok(Pieces {
            feed,
            buffer: vec![in alloc; 0u8; piece]?,
            position: Position {
                batches: 0,
                bytes: 0,
            },
        })
    }

    /// How much was given: each batch that `next` returned, and its bytes.
    pub fn position(&self) -> Position
        ensures { result ≡ self.now.given }
    {
        self.position
    }

    /// The next batch, or `None` at the reader's end; it may be called again after both, and keeps no
    /// bytes at the end. The batch's records stay in the bytes that were read. Bytes are read until they
    /// hold a whole batch; no bytes are kept beyond those of one batch and one piece. A read that was
    /// interrupted is tried again. It fails where the reader fails, where the bytes that follow begin
    /// with no batch or end inside one, and where memory runs out; it is not called again then. How much
    /// was given changes with a batch alone.
    pub fn next<R: Read>(&mut self, reader: &mut R) -> Result<Option<PackedBatch>, ReadFault>
        requires { self.old.stream ≡ Open (pending_bytes self.old.stream) }
        ensures gives { ReadsBatch (inlet self.old.stream (R.remaining reader.old) self.old.given) result
            (inlet self.new.stream (R.remaining reader.new) self.new.given) }
        ensures takes { Takes self.old.stream (R.remaining reader.old) result self.new.stream (R.remaining reader.new) }
        ensures fits { IfOk result (λ given. IfSome given BatchFits) }
    {
        let buffer = &mut self.buffer;
        next_of(&mut self.feed, reader, buffer, &mut self.position)
    }

    /// The bytes at which `next` refused a batch, as many as show that: a batch by its length, where they have
    /// one; their header, or as much of it as there is, where its length is refused, for which more may be
    /// read; else all that are left. It fails where the reader fails, and where memory runs out.
    pub fn refused<R: Read>(&mut self, reader: &mut R) -> Result<Bytes, ReadFault>
        ensures { IfOk result (λ first. BeginsWith (prepend_known (kept_bytes self.old.stream) (R.remaining reader.old)) first) }
    {
        let mut bytes = self.feed.kept()?;
        let buffer = &mut self.buffer;
        let size = show(reader, buffer, &mut bytes)?;
        bytes.truncate(size);
        match Bytes::from_vec(bytes) {
            Ok(bytes) => Ok(bytes),
            Err(_) => Err(ReadFault::Memory),
        }
    }
}

/// A reader whose bytes are record batches, read in pieces. Contracts see the bytes that were read and
/// not given yet, those that the reader has left, where they are known, and how much was given.
#[derive(Drop)]
pub struct BatchReader<R: Read> {
    pieces: Pieces,
    reader: R,
}

impl<R: Read> Model for BatchReader<R> {
    ghost use Rattle.batch_reader.specs.Readings.{Inlet, inlet};

    ghost Value = { Inlet };

    ghost view = { λ r. inlet r.pieces.stream (R.remaining r.reader) r.pieces.given };
}

impl<R: Read + Drop> BatchReader<R> {
    /// A reader before its first batch, of which at most `piece` bytes, 1 to `MAX_PIECE`, are read at once. It
    /// fails only where memory runs out.
    pub fn new(alloc: Global, reader: R, piece: usize) -> Result<BatchReader<R>, AllocError>
        requires { (1 ≤ piece) × (piece ≤ MAX_PIECE) }
        ensures { IfOk result (λ r. r ≡ inlet (Open []) (R.remaining reader) none_given) }
    {
        let pieces = Pieces::new(alloc, Feed::new(alloc), piece)?;
        Ok(BatchReader { pieces, reader })
    }
}

impl BatchReader<Empty> {
    /// A reader of bytes in memory, before their first batch. Batches are cut from them, without a copy. It
    /// fails only where memory runs out.
    pub fn over(alloc: Global, bytes: Bytes) -> Result<BatchReader<Empty>, AllocError>
        ensures { IfOk result (λ r. r ≡ inlet (Open bytes) (Some []) none_given) }
    {
        let pieces = Pieces::new(alloc, Feed::of(alloc, bytes), 1)?;
        Ok(BatchReader {
            pieces,
            reader: io::empty(),
        })
    }
}

impl<R: Read> BatchReader<R> {
    /// How much was given: each batch that `next` returned, and its bytes.
    pub fn position(&self) -> Position
        ensures { result ≡ self.now.given }
    {
        self.pieces.position()
    }

    /// The next batch, as `Pieces::next` reads it.
    pub fn next(&mut self) -> Result<Option<PackedBatch>, ReadFault>
        requires { IsOpen self.old }
        ensures gives { ReadsBatch self.old result self.new }
        ensures fits { IfOk result (λ given. IfSome given BatchFits) }
    {
        self.pieces.next(&mut self.reader)
    }

    /// The bytes at which `next` refused a batch, as `Pieces::refused` has them.
    pub fn refused(&mut self) -> Result<Bytes, ReadFault>
        ensures { IfOk result (λ first. BeginsWith (prepend_known (kept_bytes self.old.stream) self.old.rest) first) }
    {
        self.pieces.refused(&mut self.reader)
    }
}

// The next batch of a feed and of a reader, of which pieces of the buffer's length are read.
fn next_of<R: Read>(
    feed: &mut Feed,
    reader: &mut R,
    buffer: &mut [u8],
    position: &mut Position,
) -> Result<Option<PackedBatch>, ReadFault>
    requires open { feed.old ≡ Open (pending_bytes feed.old) }
    requires buffer { 1 ≤ length buffer.old }
    ensures takes { Takes feed.old (R.remaining reader.old) result feed.new (R.remaining reader.new) }
    ensures counts { CountsGiven position.old result position.new }
    ensures fits { IfOk result (λ given. IfSome given BatchFits) }
{
    if let Some(batch) = cut(feed, position)? {
        return Ok(Some(batch));
    }
    for _ in 0..u64::MAX {
        let count = read_some(reader, buffer)?;
        if count == 0 {
            // A stream ends between two batches.
            if feed.is_empty() {
                return Ok(None);
            }
            return Err(ReadFault::Batch(BatchFault::Short));
        }
        feed.feed(&buffer[..count])?;
        if let Some(batch) = cut(feed, position)? {
            return Ok(Some(batch));
        }
    }
    Err(ReadFault::Read)
}

// The batch that the fed bytes begin with, if they hold a whole one. It is counted.
fn cut(feed: &mut Feed, position: &mut Position) -> Result<Option<PackedBatch>, BatchFault>
    ensures gives { Gives feed.old result feed.new }
    ensures counts { CountsGiven position.old result position.new }
    ensures fits { IfOk result (λ given. IfSome given BatchFits) }
{
    let Some(batch) = feed.next_packed()? else {
        return Ok(None);
    };
    *position = position.with_batch(batch.bytes().len() as u64);
    Ok(Some(batch))
}

// Reads into the buffer, and returns how many bytes: none only at the reader's end.
fn read_some<R: Read>(reader: &mut R, buffer: &mut [u8]) -> Result<usize, ReadFault>
    requires { 1 ≤ length buffer.old }
    ensures reads { ReadsSome (R.remaining reader.old) result buffer.new (R.remaining reader.new) }
    ensures buffer { length buffer.new ≡ length buffer.old }
{
    for _ in 0..u64::MAX {
        match reader.read(buffer) {
            Ok(count) => return Ok(count),
            Err(error) => match error.kind() {
                io::ErrorKind::Interrupted => {}
                io::ErrorKind::OutOfMemory => return Err(ReadFault::Memory),
                _ => return Err(ReadFault::Read),
            },
        }
    }
    Err(ReadFault::Read)
}

// How many bytes show why these begin with no batch: of a refused length a header, or as much as there is, for
// which more may be read.
fn show<R: Read>(reader: &mut R, buffer: &mut [u8], bytes: &mut Vec<u8>) -> Result<usize, ReadFault>
    requires { 1 ≤ length buffer.old }
    ensures { OnOk result (ReadsOn bytes.old.items (R.remaining reader.old) bytes.new.items (R.remaining reader.new)) }
{
    for _ in 0..u64::MAX {
        match batch_size(bytes) {
            Ok(size) => return Ok(size),
            Err(BatchFault::Short) => return Ok(bytes.len()),
            Err(_) if bytes.len() >= HEADER => return Ok(HEADER),
            Err(_) => {}
        }
        let count = read_some(reader, buffer)?;
        if count == 0 {
            return Ok(bytes.len());
        }
        bytes.extend_from_slice(&buffer[..count])?;
    }
    Err(ReadFault::Read)
}
