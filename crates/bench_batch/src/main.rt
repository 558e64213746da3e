//! Measures how fast `batch` reads and writes batches, and reads them of a stream in pieces, and how fast
//! `row_batch` writes rows. Given how many times to do so in a turn, it takes ten turns with each batch and
//! prints the bytes and records a second of the best. Given `crc32c` and a number, it measures checksums so.
//! Given `cuts` and a number, it cuts a stream of 1,000 batches at random places so often, and prints how
//! often other batches came out; given nothing, it prints nothing.
#![tactic(auto)]

mod checksums;
mod cuts;
mod rows;

ghost use Rattle.wire_spec.specs.BatchSpelling.{BatchFits};

use crate::rows::{Rows, rows_of};
use batch::{Batch, Feed, Headers, Records, decode, encode, fits};
use bytes::Bytes;
use kafka_record::{Header, Record};
use std::alloc::{AllocError, Global};
use std::io::ErrorKind;
use std::marker::Model;
use std::num::nearest_u64_to_f64;
use std::rt::Clock;
use std::time::{Duration, Instant};
use std::{env, io};

const TURNS: u32 = 10;

/// How many bytes of a stream are fed at once. No batch here is shorter.
const PIECE: usize = 65_536;

/// What the records of a batch are like; lengths are of bytes.
#[derive(Drop)]
struct Shape {
    name: &'static str,
    records: usize,
    key: Option<usize>,
    value: usize,
    headers: usize,
}

static SHAPES: [Shape; 4] = [
    Shape {
        name: "10,000 of 64 bytes",
        records: 10_000,
        key: Some(8),
        value: 64,
        headers: 0,
    },
    Shape {
        name: "15 of 65,536 bytes",
        records: 15,
        key: None,
        value: 65_536,
        headers: 0,
    },
    Shape {
        name: "3 of 1,048,576 bytes",
        records: 3,
        key: None,
        value: 1_048_576,
        headers: 0,
    },
    Shape {
        name: "1,000 of 4 headers",
        records: 1_000,
        key: Some(8),
        value: 64,
        headers: 4,
    },
];

const TINY: Shape = Shape {
    name: "a few of 16 bytes",
    records: 1,
    key: Some(4),
    value: 16,
    headers: 1,
};

/// `len` bytes, which are text.
fn text(alloc: Global, len: usize) -> Result<Bytes, AllocError> {
    let text = vec![in alloc; b'k'; len]?;
    Ok(Bytes::from_vec(text)?)
}

fn key(alloc: Global, len: Option<usize>) -> Result<Option<Bytes>, AllocError> {
    match len {
        Some(len) => Ok(Some(text(alloc, len)?)),
        None => Ok(None),
    }
}

fn header(alloc: Global) -> Result<Header, AllocError> {
    let key = text(alloc, 8)?;
    let value = text(alloc, 16)?;
    Ok(Header {
        key,
        value: Some(value),
    })
}

fn headers(alloc: Global, count: usize) -> Result<Headers, AllocError> {
    let mut list = Vec::new(alloc);
    for _ in 0..count {
        let header = header(alloc)?;
        list.push(header)?;
    }
    Ok(Headers { list })
}

fn record_of(alloc: Global, shape: &Shape) -> Result<Record, AllocError> {
    let key = key(alloc, shape.key)?;
    let value = text(alloc, shape.value)?;
    let headers = headers(alloc, shape.headers)?;
    Ok(Record {
        timestamp_delta: 0,
        key,
        value: Some(value),
        headers,
    })
}

fn records_of(alloc: Global, shape: &Shape) -> Result<Records, AllocError> {
    let mut list = Vec::new(alloc);
    for _ in 0..shape.records {
        let one = record_of(alloc, shape)?;
        list.push(one)?;
    }
    Ok(Records { list })
}

fn batch_of(alloc: Global, shape: &Shape) -> Result<Batch, AllocError> {
    let records = records_of(alloc, shape)?;
    Ok(Batch {
        base_offset: 0,
        leader_epoch: 0,
        base_timestamp: 1_700_000_000_000,
        producer_id: -1,
        producer_epoch: -1,
        base_sequence: -1,
        records,
    })
}

/// The lengths of a record's parts, and how many headers it has.
fn sum_of_record(one: &Record) -> u64 {
    let key = one.key.as_ref().map_or(0, |key| key.len() as u64);
    let value = one.value.as_ref().map_or(0, |value| value.len() as u64);
    let headers = one.headers.list.len() as u64;
    key.wrapping_add(value).wrapping_add(headers)
}

fn sum_of_batch(batch: &Batch) -> u64 {
    let mut sum: u64 = 0;
    for one in &batch.records.list {
        sum = sum.wrapping_add(sum_of_record(one));
    }
    sum
}

/// Reads the batch `times` times, and sums what was read.
fn read_turn(alloc: Global, bytes: &Bytes, times: u32) -> io::Result<u64> {
    let mut sum: u64 = 0;
    for _ in 0..times {
        let shared = bytes.clone()?;
        let Ok((batch, _)) = decode(alloc, shared) else {
            return Err(ErrorKind::InvalidData.into());
        };
        sum = sum.wrapping_add(sum_of_batch(&batch));
    }
    Ok(sum)
}

/// Reads the batch of a stream that repeats it `times` times, and sums what was read.
fn feed_turn(alloc: Global, bytes: &[u8], times: u32) -> io::Result<u64> {
    let mut feed = Feed::new(alloc);
    let mut sum: u64 = 0;
    for _ in 0..times {
        for piece in bytes.chunks(PIECE) {
            sum = sum.wrapping_add(fed(&mut feed, piece)?);
        }
    }
    Ok(sum)
}

/// Feeds a piece, and sums the batch that ends in it, if one does.
fn fed(feed: &mut Feed, piece: &[u8]) -> io::Result<u64> {
    feed.feed(piece)?;
    match feed.next() {
        Ok(Some(batch)) => Ok(sum_of_batch(&batch)),
        Ok(None) => Ok(0),
        Err(_) => Err(ErrorKind::InvalidData.into()),
    }
}

/// Writes the batch `times` times, and sums how many bytes there are.
fn write_turn(alloc: Global, batch: &Batch, times: u32) -> io::Result<u64>
    requires { BatchFits batch.now }
{
    let mut sum: u64 = 0;
    for _ in 0..times {
        let bytes = encode(alloc, batch)?;
        sum = sum.wrapping_add(bytes.len() as u64);
    }
    Ok(sum)
}

/// Writes the rows as a batch `times` times, and sums how many bytes there are.
fn rows_turn(alloc: Global, rows: &Rows, times: u32) -> io::Result<u64> {
    let mut sum: u64 = 0;
    for _ in 0..times {
        let Some(bytes) = rows.batch(alloc)? else {
            return Err(ErrorKind::InvalidData.into());
        };
        sum = sum.wrapping_add(bytes.len() as u64);
    }
    Ok(sum)
}

/// What is done in a turn.
#[derive(Clone, Copy, Drop)]
enum Work {
    Decode,
    Feed,
    Encode,
    Rows,
}

static WORKS: [(&str, Work); 4] = [
    ("  decode", Work::Decode),
    ("  feed", Work::Feed),
    ("  encode", Work::Encode),
    ("  rows", Work::Rows),
];

/// A batch that can be written, its bytes, and its records as rows.
#[derive(Drop)]
struct Given {
    batch: Batch,
    bytes: Bytes,
    rows: Rows,
}

impl Model for Given {
    ghost use Rattle.wire_spec.specs.declared.record.Batch.{Batch};
    ghost use Rattle.wire_spec.specs.BatchSpelling.{BatchFits};

    ghost Value = { Batch };

    ghost view = { λ g. g.batch };

    ghost invariant = { λ g. BatchFits g.batch };
}

fn turn(alloc: Global, given: &Given, work: Work, times: u32) -> io::Result<u64> {
    match work {
        Work::Decode => read_turn(alloc, &given.bytes, times),
        Work::Feed => feed_turn(alloc, given.bytes.as_slice(), times),
        Work::Encode => write_turn(alloc, &given.batch, times),
        Work::Rows => rows_turn(alloc, &given.rows, times),
    }
}

/// The shortest turn, and the sum of all.
fn shortest<R: Clock>(
    rt: &R,
    alloc: Global,
    given: &Given,
    work: Work,
    times: u32,
) -> io::Result<(Duration, u64)> {
    let mut shortest = Duration::MAX;
    let mut sum: u64 = 0;
    for _ in 0..TURNS {
        let start = Instant::now(rt)?;
        sum = sum.wrapping_add(turn(alloc, given, work, times)?);
        shortest = shortest.min(start.elapsed(rt)?);
    }
    Ok((shortest, sum))
}

/// The rows of a batch's records, which share its bytes.
fn read_rows(alloc: Global, bytes: &Bytes) -> io::Result<Rows> {
    match decode(alloc, bytes.clone()?) {
        Ok((batch, _)) => rows_of(alloc, batch),
        Err(_) => Err(ErrorKind::InvalidData.into()),
    }
}

/// Prints what a turn took: `times` times `bytes` bytes and `records` records.
fn show<R: Print>(
    rt: &R,
    name: &str,
    took: Duration,
    times: u32,
    bytes: usize,
    records: usize,
    sum: u64,
) -> io::Result<()> {
    let micros = took.as_secs_f64() * 1_000_000.0;
    let each = micros / f64::from(times);
    println!(rt;
        "{name}: {:6.0} MB/s  {:8.3} million records/s  (sum {sum})",
        nearest_u64_to_f64(bytes as u64) / each,
        nearest_u64_to_f64(records as u64) / each
    )
}

fn given_of(alloc: Global, shape: &Shape) -> io::Result<Given> {
    let batch = batch_of(alloc, shape)?;
    if !fits(&batch) {
        return Err(ErrorKind::InvalidData.into());
    }
    let bytes = Bytes::from_vec(encode(alloc, &batch)?)?;
    let rows = read_rows(alloc, &bytes)?;
    Ok(Given { batch, bytes, rows })
}

/// Prints the best turn of each work with a batch.
fn show_all<R: Print + Clock>(
    rt: &R,
    alloc: Global,
    given: &Given,
    shape: &Shape,
    times: u32,
) -> io::Result<()> {
    let bytes = given.bytes.len();
    println!(rt; "{}, {bytes} bytes in all", shape.name)?;
    for (name, work) in &WORKS {
        let (took, sum) = shortest(rt, alloc, given, *work, times)?;
        show(rt, name, took, times, bytes, shape.records, sum)?;
    }
    Ok(())
}

fn compare<R: Print + Clock>(rt: &R, alloc: Global, shape: &Shape, times: u32) -> io::Result<()> {
    let given = given_of(alloc, shape)?;
    show_all(rt, alloc, &given, shape, times)
}

fn compare_all<R: Print + Clock>(rt: &R, alloc: Global, times: u32) -> io::Result<()> {
    for shape in &SHAPES {
        compare(rt, alloc, shape, times)?;
    }
    Ok(())
}

/// The bytes of a batch of so many records.
fn bytes_of(alloc: Global, records: usize) -> io::Result<Vec<u8>> {
    let batch = batch_of(alloc, &Shape { records, ..TINY })?;
    if !fits(&batch) {
        return Err(ErrorKind::InvalidData.into());
    }
    Ok(encode(alloc, &batch)?)
}

/// Cuts a stream of batches of 1 to 20 records at random places.
fn cut_all<R: Print>(rt: &R, alloc: Global, times: u32) -> io::Result<()> {
    let mut batches = Vec::new(alloc);
    for records in 1..=20 {
        batches.push(bytes_of(alloc, records)?)?;
    }
    let wrong = cuts::wrong_cuts(alloc, &batches, times)?;
    println!(rt; "{times} cuts of 1,000 batches, {wrong} with other batches")
}

fn main(rt: HostRuntime) -> io::Result<()> {
    let mut words = env::args(&rt)?.skip(1);
    let Some(word) = words.next() else {
        return Ok(());
    };
    let Some(times) = words.next() else {
        return compare_all(&rt, rt.alloc(), word.parse::<u32>().unwrap_or(20));
    };
    if word.as_str() == "crc32c" {
        checksums::measure(&rt, rt.alloc(), times.parse::<u32>().unwrap_or(1_000))
    } else {
        cut_all(&rt, rt.alloc(), times.parse::<u32>().unwrap_or(100))
    }
}
