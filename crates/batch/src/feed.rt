//! Batches from a stream of bytes that arrives in pieces of any size.

ghost use Rattle.std.specs.Prelude.{◌≡◌, ◌≢◌, ◌↔◌, [], ◌++◌, length, IfOk, IfSome, OnOk, OnErr, IsTrue, Some, Ok, Err};
ghost use Rattle.wire_spec.specs.declared.fault.BatchFault.TheVariants.{Short};
ghost use Rattle.wire_spec.specs.BatchReading.{IsPart};
ghost use Rattle.wire_spec.specs.BatchSpelling.{BatchFits};
ghost use Rattle.batch.specs.Streams.{Open, pending_bytes, kept_bytes, with_piece, after_fault, Gives, Cuts, IsReady};

use crate::fields::i32_at;
use crate::limits::FRONT;
use crate::packed::{PackedBatch, decode_packed};
use crate::reading::{batch_size, decode};
use bytes::Bytes;
use std::alloc::{AllocError, Global};
use std::marker::Model;
use std::mem;
use wire_spec::{Batch, BatchFault, MAX_BATCH};

/// The bytes that were fed of a stream of record batches and not given yet. Contracts see those, and
/// the fault that ended the stream at them, if one did.
#[derive(Drop)]
pub struct Feed {
    alloc: Global,
    // The bytes that batches are cut from, without a copy.
    ready: Bytes,
    // The bytes after those.
    next: Vec<u8>,
    fault: Option<BatchFault>,
}

impl Model for Feed {
    ghost use Rattle.batch.specs.Streams.{Stream, stream};

    ghost Value = { Stream };

    ghost view = { λ f. stream f.ready f.next.items f.fault };
}

impl Feed {
    /// The start of a stream, with no bytes.
    pub fn new(alloc: Global) -> Feed
        ensures { result ≡ Open [] }
    {
        Feed {
            alloc,
            ready: Bytes::new(),
            next: Vec::new(alloc),
            fault: None,
        }
    }

    /// A stream of which these bytes were fed. Batches are cut from them, without a copy.
    #[tactic(auto, using(crate::proofs::FeedLaws::alone))]
    pub fn of(alloc: Global, bytes: Bytes) -> Feed
        ensures { result ≡ Open bytes }
    {
        Feed {
            alloc,
            ready: bytes,
            next: Vec::new(alloc),
            fault: None,
        }
    }

    /// Whether there is no byte to cut a batch from: every one that was fed was given, or a fault ended the
    /// stream.
    #[tactic(auto, using(crate::proofs::FeedLaws::none_of))]
    pub fn is_empty(&self) -> bool
        ensures { IsTrue result ↔ (pending_bytes self.now ≡ []) }
    {
        self.fault.is_some() || (self.ready.is_empty() && self.next.is_empty())
    }

    /// How many bytes there are to cut batches from: none, where a fault ended the stream.
    pub fn len(&self) -> usize
        ensures { result ≡ length (pending_bytes self.now) }
    {
        if self.fault.is_some() {
            return 0;
        }
        self.ready.len() + self.next.len()
    }

    /// The bytes that were fed and not given yet, or those at which a fault ended the stream. It fails only
    /// where memory runs out.
    pub fn kept(&self) -> Result<Vec<u8>, AllocError>
        ensures { IfOk result (λ bytes. bytes.items ≡ kept_bytes self.now) }
    {
        joined(self.alloc, &self.ready, &self.next)
    }

    /// Takes a piece of the stream: the bytes after those that were fed before. Its bytes are
    /// copied once, and those of a batch that goes on in a later piece once more. A stream that a
    /// fault ended takes none. It fails only where memory runs out; an `Err` changes nothing.
    pub fn feed(&mut self, piece: &[u8]) -> Result<(), AllocError>
        ensures ok { OnOk result (self.new ≡ with_piece self.old piece.now) }
        ensures err { OnErr result (self.new ≡ self.old) }
    {
        if self.fault.is_some() {
            return Ok(());
        }
        if self.next.is_empty() && is_part(&self.ready) {
            self.next = joined(self.alloc, &self.ready, piece)?;
            self.ready = Bytes::new();
            return Ok(());
        }
        append(&mut self.next, piece)
    }

    /// The next batch of the stream, as `decode` reads it, or `None` where the bytes so far hold no
    /// whole one. Its keys, values and headers share the bytes that were fed. The fault of bytes that
    /// begin with no batch ends the stream: every later call returns it again. A length that is out
    /// of range is such a fault as soon as its 12 bytes are fed. Where memory runs out, nothing
    /// changes.
    pub fn next(&mut self) -> Result<Option<Batch>, BatchFault>
        ensures gives { Gives self.old result self.new }
        ensures fits { IfOk result (λ given. IfSome given BatchFits) }
    {
        if let Some(fault) = self.fault {
            return Err(fault);
        }
        if !fill(self.alloc, &mut self.ready, &mut self.next)? {
            return Ok(None);
        }
        match cut(self.alloc, &mut self.ready) {
            Ok(batch) => Ok(Some(batch)),
            Err(fault) => Err(self.refuse(fault)),
        }
    }

    /// The same, of which the records stay in the bytes that were fed.
    pub fn next_packed(&mut self) -> Result<Option<PackedBatch>, BatchFault>
        ensures gives { Gives self.old result self.new }
        ensures fits { IfOk result (λ given. IfSome given BatchFits) }
    {
        if let Some(fault) = self.fault {
            return Err(fault);
        }
        if !fill(self.alloc, &mut self.ready, &mut self.next)? {
            return Ok(None);
        }
        match cut_packed(self.alloc, &mut self.ready) {
            Ok(batch) => Ok(Some(batch)),
            Err(fault) => Err(self.refuse(fault)),
        }
    }

    // Ends the stream with a fault, unless memory ran out. The bytes stay.
    fn refuse(&mut self, fault: BatchFault) -> BatchFault
        ensures fault { result ≡ fault }
        ensures new { self.new ≡ after_fault self.old fault }
    {
        match fault {
            BatchFault::Memory => fault,
            _ => {
                self.fault = Some(fault);
                fault
            }
        }
    }
}

/// Whether bytes to cut a batch from are ready, or a refusal of one. All bytes are moved there, unless
/// they are a part of a batch.
fn fill(alloc: Global, ready: &mut Bytes, next: &mut Vec<u8>) -> Result<bool, AllocError>
    ensures same { ready.new ++ next.new.items ≡ ready.old ++ next.old.items }
    ensures ready { IfOk result (λ whole. IsReady whole ready.new next.new.items) }
{
    if !is_part(ready) {
        return Ok(true);
    }
    // `feed` joins a part to the piece after it, and makes room for both.
    if next.is_empty() {
        return Ok(false);
    }
    if !ready.is_empty() {
        *next = joined(alloc, ready, next)?;
        *ready = Bytes::new();
    }
    if is_part(next) {
        return Ok(false);
    }
    match Bytes::from_vec(mem::replace(next, Vec::new(alloc))) {
        Ok(bytes) => {
            *ready = bytes;
            Ok(true)
        }
        Err(failed) => {
            *next = failed.value;
            Err(AllocError)
        }
    }
}

/// Cuts the batch off the front of the bytes. An `Err` leaves them.
fn cut(alloc: Global, ready: &mut Bytes) -> Result<Batch, BatchFault>
    requires { IsPart ready.old → ⊥ }
    ensures cuts { Cuts ready.old result ready.new }
    ensures fits { IfOk result BatchFits }
{
    match decode(alloc, ready.clone()?) {
        Ok((batch, used)) => {
            ready.advance(used);
            Ok(batch)
        }
        Err(fault) => Err(fault),
    }
}

/// The same of a batch whose records stay in the bytes.
fn cut_packed(alloc: Global, ready: &mut Bytes) -> Result<PackedBatch, BatchFault>
    requires { IsPart ready.old → ⊥ }
    ensures cuts { Cuts ready.old result ready.new }
    ensures fits { IfOk result BatchFits }
{
    match decode_packed(alloc, ready.clone()?) {
        Ok((batch, used)) => {
            ready.advance(used);
            Ok(batch)
        }
        Err(fault) => Err(fault),
    }
}

/// Whether the bytes are a part of a batch: more may make it whole.
fn is_part(bytes: &[u8]) -> bool
    ensures { IsTrue result ↔ IsPart bytes.now }
{
    match batch_size(bytes) {
        Err(BatchFault::Short) => true,
        _ => false,
    }
}

/// How many bytes of the batch at the front are not there yet; 0 where its length is not known.
fn missing(bytes: &[u8]) -> usize {
    if bytes.len() < FRONT {
        return 0;
    }
    let length = i32_at(bytes, 8).max(0) as usize;
    (FRONT + length).min(MAX_BATCH).saturating_sub(bytes.len())
}

/// Writes a piece at the end. Room is made for the rest of the batch at the front and for one piece
/// of this size after it, so that its bytes move no more.
fn append(bytes: &mut Vec<u8>, piece: &[u8]) -> Result<(), AllocError>
    ensures ok { OnOk result (bytes.new.items ≡ bytes.old.items ++ piece.now) }
    ensures err { OnErr result (bytes.new.items ≡ bytes.old.items) }
{
    bytes.reserve(missing(bytes).saturating_add(piece.len()))?;
    bytes.extend_from_slice(piece)
}

/// The bytes and the piece after them.
fn joined(alloc: Global, bytes: &[u8], piece: &[u8]) -> Result<Vec<u8>, AllocError>
    ensures { IfOk result (λ all. all.items ≡ bytes.now ++ piece.now) }
{
    let room = bytes
        .len()
        .saturating_add(missing(bytes))
        .saturating_add(piece.len());
    let mut all = Vec::with_capacity(alloc, room)?;
    all.extend_from_slice(bytes)?;
    all.extend_from_slice(piece)?;
    Ok(all)
}
