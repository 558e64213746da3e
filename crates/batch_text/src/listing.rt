//! All batches of a reader, listed.

ghost use Rattle.std.specs.Prelude.{◌≡◌, ◌+◌, length, OnOk, IfOk, IfErr, string_bytes};
ghost use Rattle.std.specs.Io.KnownBytes.{Appends, prepend_known};
ghost use Rattle.wire_spec.specs.BatchSpelling.{batch_spelling};
ghost use Rattle.batch.specs.Streams.{kept_bytes};
ghost use Rattle.batch_text.specs.Listings as definitions;
ghost use Rattle.batch_text.specs.Listings.{Lists, IsUnlisted, StopsListing};
ghost use Rattle.batch_text.specs.declared.listing.ListFault.TheVariants.{Memory};

use crate::fields::batch_text;
use crate::records::record_text;
use batch::{Feed, PackedBatch};
use batch_reader::{Pieces, ReadFault};
use bytes::Bytes;
use std::alloc::{AllocError, Global};
use std::io;
use std::io::{Read, Write};
use wire_spec::{BatchFault, MAX_PIECE};

/// What is listed of record batches.
#[derive(Clone, Copy, Debug, PartialEq, Eq)]
pub enum Listing {
    /// A line for each batch.
    Batches,
    /// A line for each record.
    Records,
}

/// Bytes that begin with no batch.
#[derive(Drop)]
pub struct NoBatch {
    /// How many batches are before them.
    pub batches: u64,
    /// How many bytes those have.
    pub position: u64,
    /// Why they begin with none.
    pub fault: BatchFault,
    /// The first of them, as many as show that.
    pub bytes: Bytes,
}

/// Why no further batch is listed.
#[derive(Drop)]
pub enum ListFault {
    /// The bytes that follow begin with no batch, or end inside one.
    Batch(NoBatch),
    /// The reader failed, or gave 2^64 bytes.
    Read,
    /// The writer failed.
    Write,
    /// Memory ran out.
    Memory,
}

impl From<AllocError> for ListFault {
    ghost from_gives = { λ _ e. e ≡ Memory };

    fn from(_error: AllocError) -> ListFault {
        ListFault::Memory
    }
}

/// The text of a batch that begins at a position.
fn text_of(
    alloc: Global,
    listing: Listing,
    position: u64,
    batch: &PackedBatch,
) -> Result<String, AllocError>
    ensures { IfOk result (λ text. string_bytes text ≡ definitions.text_of listing position batch.now) }
{
    let bytes = batch.bytes();
    match listing {
        Listing::Batches => batch_text(alloc, position, bytes),
        Listing::Records => record_text(alloc, &batch.to_batch(alloc)?),
    }
}

/// Writes the text of a batch that begins at a position, and returns the position after it, or `Read` past
/// the greatest.
fn put<W: Write>(
    alloc: Global,
    listing: Listing,
    position: u64,
    batch: &PackedBatch,
    writer: &mut W,
) -> Result<u64, ListFault>
    ensures ok { OnOk result (Appends (W.contents writer.old) (W.contents writer.new) (definitions.text_of listing position batch.now)) }
    ensures after { IfOk result (λ after. after ≡ position + length (batch_spelling batch.now)) }
    ensures err { IfErr result IsUnlisted }
{
    let text = text_of(alloc, listing, position, batch)?;
    match writer.write_all(text.as_bytes()) {
        Ok(()) => {}
        Err(error) => match error.kind() {
            io::ErrorKind::OutOfMemory => return Err(ListFault::Memory),
            _ => return Err(ListFault::Write),
        },
    }
    match position.checked_add(batch.bytes().len() as u64) {
        Some(after) => Ok(after),
        None => Err(ListFault::Read),
    }
}

/// Why no further batch is listed, after so many batches of so many bytes.
fn fault_after<R: Read>(
    pieces: &mut Pieces,
    reader: &mut R,
    fault: ReadFault,
    batches: u64,
    position: u64,
) -> ListFault
    ensures { StopsListing (prepend_known (kept_bytes pieces.old.stream) (R.remaining reader.old)) batches position fault result }
{
    match fault {
        ReadFault::Read => ListFault::Read,
        ReadFault::Memory | ReadFault::Batch(BatchFault::Memory) => ListFault::Memory,
        ReadFault::Batch(fault) => match pieces.refused(reader) {
            Ok(bytes) => ListFault::Batch(NoBatch {
                batches,
                position,
                fault,
                bytes,
            }),
            Err(ReadFault::Read) => ListFault::Read,
            Err(_) => ListFault::Memory,
        },
    }
}

/// Writes the text of each batch of a reader, up to its end or to bytes that begin with no batch. Of the
/// reader's bytes those of one batch and of one piece are kept at a time.
pub fn list_all<R: Read, W: Write>(
    alloc: Global,
    listing: Listing,
    reader: &mut R,
    writer: &mut W,
) -> Result<(), ListFault>
    ensures { Lists listing (R.remaining reader.old) (W.contents writer.old) result (W.contents writer.new) }
{
    let mut pieces = Pieces::new(alloc, Feed::new(alloc), MAX_PIECE)?;
    let mut position = 0;
    for batches in 0..u64::MAX {
        match pieces.next(reader) {
            Ok(None) => return Ok(()),
            Ok(Some(batch)) => position = put(alloc, listing, position, &batch, writer)?,
            Err(fault) => return Err(fault_after(&mut pieces, reader, fault, batches, position)),
        }
    }
    Err(ListFault::Read)
}
