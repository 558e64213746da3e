//! Batches of a stream that is cut anywhere.

use crate::batches::{CLIENT_FOUR, ONE, TWO};
use crate::verdicts::all_hold;
use batch::{Batch, BatchFault, Feed, encode, fits};
use std::alloc::{AllocError, Global};
use std::test::*;

/// A stream, the batches that it gave, written one after the other, and why there is no further one.
#[derive(Drop)]
struct Stream {
    feed: Feed,
    written: Vec<u8>,
    fault: Option<BatchFault>,
}

/// Writes a batch at the end; a batch that doesn't fit is left out.
fn put(alloc: Global, out: &mut Vec<u8>, batch: &Batch) -> Result<(), AllocError> {
    if !fits(batch) {
        return Ok(());
    }
    let bytes = encode(alloc, batch)?;
    out.extend_from_slice(&bytes)
}

/// The next batch; of an odd number of bytes it is read packed.
fn next(alloc: Global, feed: &mut Feed) -> Result<Option<Batch>, BatchFault> {
    if feed.len() % 2 == 0 {
        return feed.next();
    }
    match feed.next_packed()? {
        Some(packed) => Ok(Some(packed.to_batch(alloc)?)),
        None => Ok(None),
    }
}

/// Writes the batches that are there now, and returns why there is no further one.
fn drain(
    alloc: Global,
    feed: &mut Feed,
    out: &mut Vec<u8>,
) -> Result<Option<BatchFault>, AllocError> {
    for _ in 0..1_000 {
        match next(alloc, feed) {
            Ok(Some(batch)) => put(alloc, out, &batch)?,
            Ok(None) => return Ok(None),
            Err(fault) => return Ok(Some(fault)),
        }
    }
    Ok(None)
}

impl Stream {
    fn new(alloc: Global) -> Stream {
        Stream {
            feed: Feed::new(alloc),
            written: Vec::new(alloc),
            fault: None,
        }
    }

    /// Writes the batches that are there now.
    fn drain(&mut self, alloc: Global) -> Result<(), AllocError> {
        self.fault = drain(alloc, &mut self.feed, &mut self.written)?;
        Ok(())
    }

    /// Feeds bytes in pieces of one size, and writes what is there after each.
    fn take(&mut self, alloc: Global, bytes: &[u8], size: usize) -> Result<(), AllocError> {
        for piece in bytes.chunks(size.max(1)) {
            self.feed.feed(piece)?;
            self.drain(alloc)?;
        }
        Ok(())
    }

    /// Feeds bytes in three parts, and then writes what is there.
    fn take_parts(
        &mut self,
        alloc: Global,
        bytes: &[u8],
        cut: usize,
        second: usize,
    ) -> Result<(), AllocError> {
        let (first, others) = bytes.split_at(cut.min(bytes.len()));
        let (second, third) = others.split_at(second.min(others.len()));
        self.feed.feed(first)?;
        self.feed.feed(second)?;
        self.feed.feed(third)?;
        self.drain(alloc)
    }

    /// Whether it gave these batches and then met this fault.
    fn is(&self, bytes: &[u8], fault: Option<BatchFault>) -> bool {
        self.written.as_slice() == bytes && self.fault == fault
    }
}

/// These bytes one after the other.
fn joined(alloc: Global, parts: &[&[u8]]) -> Option<Vec<u8>> {
    let mut bytes = Vec::new(alloc);
    for part in parts {
        bytes.extend_from_slice(part).ok()?;
    }
    Some(bytes)
}

static THREE: [&[u8]; 3] = [ONE, CLIENT_FOUR, TWO];

/// Whether the bytes are given where they come in pieces of this size.
fn is_given(alloc: Global, bytes: &[u8], size: usize) -> bool {
    let mut stream = Stream::new(alloc);
    stream.take(alloc, bytes, size).is_ok() && stream.is(bytes, None)
}

fn are_given(alloc: Global, bytes: &[u8]) -> bool {
    for size in 1..=bytes.len() {
        if !is_given(alloc, bytes, size) {
            return false;
        }
    }
    true
}

fn three_are_given(alloc: Global) -> bool {
    match joined(alloc, &THREE) {
        Some(bytes) => are_given(alloc, &bytes),
        None => false,
    }
}

#[test]
fn pieces_of_any_size(rt: HostRuntime) {
    assert!(rt; three_are_given(rt.alloc()));
}

/// Whether the bytes are given where they are cut there and after so many more.
fn is_given_at(alloc: Global, bytes: &[u8], cut: usize, second: usize) -> bool {
    let mut stream = Stream::new(alloc);
    stream.take_parts(alloc, bytes, cut, second).is_ok() && stream.is(bytes, None)
}

fn are_given_at_cuts(alloc: Global, bytes: &[u8]) -> bool {
    for cut in 0..=bytes.len() {
        if !is_given_at(alloc, bytes, cut, 1) || !is_given_at(alloc, bytes, cut, 75) {
            return false;
        }
    }
    true
}

fn three_are_given_at_cuts(alloc: Global) -> bool {
    match joined(alloc, &THREE) {
        Some(bytes) => are_given_at_cuts(alloc, &bytes),
        None => false,
    }
}

#[test]
fn parts_that_are_fed_at_once(rt: HostRuntime) {
    assert!(rt; three_are_given_at_cuts(rt.alloc()));
}

/// Whether a byte more gives a batch.
fn gives(feed: &mut Feed, piece: &[u8]) -> bool {
    feed.feed(piece).is_ok() && matches!(feed.next(), Ok(Some(_)))
}

/// After which byte of a stream each of two batches is given. None where another number of batches is.
fn ends_of_two(alloc: Global, bytes: &[u8]) -> Option<(usize, usize)> {
    let mut feed = Feed::new(alloc);
    let mut ends = (0, 0);
    let mut count = 0usize;
    for (index, piece) in bytes.chunks(1).enumerate() {
        if gives(&mut feed, piece) {
            ends = (ends.1, index.wrapping_add(1));
            count = count.wrapping_add(1);
        }
    }
    if count == 2 { Some(ends) } else { None }
}

fn ends_are(alloc: Global, want: (usize, usize)) -> bool {
    match joined(alloc, &[ONE, ONE]) {
        Some(bytes) => ends_of_two(alloc, &bytes) == Some(want),
        None => false,
    }
}

#[test]
fn byte_by_byte(rt: HostRuntime) {
    assert!(rt; ends_are(rt.alloc(), (70, 140)));
}

/// The number of the first piece after which a stream is refused in another way than with it in its row.
fn first_other(alloc: Global, rows: &[(&[u8], Option<BatchFault>)]) -> Option<usize> {
    let mut stream = Stream::new(alloc);
    for (k, row) in rows.iter().enumerate() {
        if stream.take(alloc, row.0, usize::MAX).is_err() || stream.fault != row.1 {
            return Some(k);
        }
    }
    None
}

/// The first bytes of a batch with a length that is refused, in two pieces, and a batch.
static REFUSED: [(&[u8], Option<BatchFault>); 3] = [
    (&[0, 0, 0, 0, 0, 0, 0, 0, 0, 0, 0], None),
    (&[48], Some(BatchFault::Length)),
    (ONE, Some(BatchFault::Length)),
];

#[test]
fn a_length_is_refused_at_once(rt: HostRuntime) {
    all_hold(&rt, first_other(rt.alloc(), &REFUSED));
}

/// Damaged bytes of the second of three batches, with its refusal. The places are from 0.
const DAMAGE: &[(usize, u8, BatchFault)] = &[
    (8, 0x80, BatchFault::Length),
    (9, 0x40, BatchFault::TooLarge),
    (11, 0x3b, BatchFault::Crc),
    (16, 1, BatchFault::Magic),
    (17, 0, BatchFault::Crc),
    (22, 7, BatchFault::Crc),
    (69, 1, BatchFault::Crc),
];

/// Puts a byte at a place, where there is such a place.
fn put_byte(bytes: &mut [u8], place: usize, byte: u8) {
    if let Some(old) = bytes.get_mut(place) {
        *old = byte;
    }
}

/// A batch, one that is damaged at a place, and another one.
fn damaged(alloc: Global, at: usize, byte: u8) -> Option<Vec<u8>> {
    let mut bytes = joined(alloc, &[TWO, ONE, ONE])?;
    put_byte(bytes.as_mut_slice(), at.saturating_add(TWO.len()), byte);
    Some(bytes)
}

/// Whether a stream gives the batch before the damage, and the fault twice.
fn is_refused(alloc: Global, bytes: &[u8], size: usize, fault: BatchFault) -> bool {
    let mut stream = Stream::new(alloc);
    stream.take(alloc, bytes, size).is_ok()
        && stream.is(TWO, Some(fault))
        && stream.drain(alloc).is_ok()
        && stream.is(TWO, Some(fault))
}

/// The same where the bytes come in pieces of some sizes.
fn is_refused_in_pieces(alloc: Global, bytes: &[u8], sizes: &[usize], fault: BatchFault) -> bool {
    for size in sizes {
        if !is_refused(alloc, bytes, *size, fault) {
            return false;
        }
    }
    true
}

/// The number of the first row whose damage does not end the stream.
fn first_wrong(alloc: Global, rows: &[(usize, u8, BatchFault)]) -> Option<usize> {
    for (k, row) in rows.iter().enumerate() {
        let Some(bytes) = damaged(alloc, row.0, row.1) else {
            return Some(k);
        };
        if !is_refused_in_pieces(alloc, &bytes, &[1, 7, 64, 300], row.2) {
            return Some(k);
        }
    }
    None
}

#[test]
fn damage_ends_the_stream(rt: HostRuntime) {
    all_hold(&rt, first_wrong(rt.alloc(), DAMAGE));
}
