//! A stream of many batches that is cut at random places.

use batch::{Feed, encode};
use std::alloc::Global;
use std::io;
use std::io::ErrorKind;

/// How many batches a stream has.
const BATCHES: usize = 1_000;

/// The greatest length of a piece. Most batches are longer, and some pieces have several.
const LONGEST: u64 = 400;

/// Numbers that look random, by a linear congruence.
#[derive(Drop)]
struct Random {
    state: u64,
}

impl Random {
    /// A number from 1 to `LONGEST`.
    fn length(&mut self) -> usize {
        self.state = self
            .state
            .wrapping_mul(6_364_136_223_846_793_005)
            .wrapping_add(1_442_695_040_888_963_407);
        ((self.state >> 33) % LONGEST + 1) as usize
    }
}

/// Writes the batches that are there now, as `encode` does.
fn put_ready(alloc: Global, feed: &mut Feed, out: &mut Vec<u8>) -> io::Result<()> {
    for _ in 0..BATCHES {
        match feed.next() {
            Ok(Some(batch)) => out.extend_from_slice(&encode(alloc, &batch)?)?,
            Ok(None) => return Ok(()),
            Err(_) => return Err(ErrorKind::InvalidData.into()),
        }
    }
    Ok(())
}

/// The bytes of the batches that a feed gives of a stream in pieces of random lengths.
fn of_random_pieces(alloc: Global, stream: &[u8], random: &mut Random) -> io::Result<Vec<u8>> {
    let mut feed = Feed::new(alloc);
    let mut out = Vec::with_capacity(alloc, stream.len())?;
    let mut rest = stream;
    for _ in 0..stream.len() {
        let (piece, others) = rest.split_at(random.length().min(rest.len()));
        feed.feed(piece)?;
        put_ready(alloc, &mut feed, &mut out)?;
        rest = others;
    }
    Ok(out)
}

/// A stream that repeats some batches.
fn repeated(alloc: Global, batches: &[Vec<u8>]) -> io::Result<Vec<u8>> {
    let mut stream = Vec::new(alloc);
    for place in 0..BATCHES {
        if let Some(bytes) = batches.get(place % batches.len().max(1)) {
            stream.extend_from_slice(bytes)?;
        }
    }
    Ok(stream)
}

/// How many of `times` random cuts of a stream of these batches gave other batches than it has.
pub fn wrong_cuts(alloc: Global, batches: &[Vec<u8>], times: u32) -> io::Result<u32> {
    let stream = repeated(alloc, batches)?;
    let mut random = Random { state: 1 };
    let mut wrong = 0u32;
    for _ in 0..times {
        if of_random_pieces(alloc, &stream, &mut random)? != stream {
            wrong = wrong.saturating_add(1);
        }
    }
    Ok(wrong)
}
