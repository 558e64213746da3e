//! Times record batches on their whole way through a program on one core: decoded, run, written as batches
//! of four output partitions. The first argument is how many turns are taken, the others name files of
//! images. Each turn takes the batches of a shape, once as they are in memory and once from a reader that
//! gives them in pieces, and the best turn is printed, beside one that decodes the batches alone. The
//! output partitions of a program are the same in all turns. With no argument the program does nothing.
#![tactic(auto)]

ghost use Rattle.std.specs.Prelude.{◌≡◌, length, IfOk, IfSome};
ghost use Rattle.log_spec.specs.Logs.{FitsLog};

mod sink;
mod stream;

use crate::sink::Sink;
use crate::stream::{Shape, stream_of};
use batch::{PackedBatch, decode_packed};
use batch_reader::BatchReader;
use bytes::Bytes;
use log_item::Program;
use machine_spec::Table;
use std::alloc::{AllocError, Global};
use std::io::{Cursor, ErrorKind};
use std::rt::Clock;
use std::time::Instant;
use std::{env, fs, io};
use transform::{Outlet, Transform, transform_all};
use wire_spec::MAX_PIECE;

const SHAPES: [Shape; 4] = [
    Shape {
        name: "10,000 of 64 bytes",
        batches: 10,
        records: 10_000,
        value: 64,
        headers: 0,
    },
    Shape {
        name: "15 of 65,536 bytes",
        batches: 10,
        records: 15,
        value: 65_536,
        headers: 0,
    },
    Shape {
        name: "1,000 of 4 headers",
        batches: 10,
        records: 1_000,
        value: 64,
        headers: 4,
    },
    Shape {
        name: "500 of 200 bytes",
        batches: 200,
        records: 500,
        value: 200,
        headers: 0,
    },
];

/// Output partitions without rows, whose bytes are counted.
fn outlets(alloc: Global) -> Result<Vec<Outlet<Sink>>, AllocError>
    ensures { IfOk result (λ made. length made.items ≡ 4) }
{
    let mut made = Vec::new(alloc);
    made.push(Outlet::new(alloc, Sink))?;
    made.push(Outlet::new(alloc, Sink))?;
    made.push(Outlet::new(alloc, Sink))?;
    made.push(Outlet::new(alloc, Sink))?;
    Ok(made)
}

/// The batch that the bytes begin with, which is cut off; none where no byte is left.
#[tactic(auto, using(log_spec::proofs::FittingBatches::fits_log))]
fn next_batch(alloc: Global, rest: &mut Bytes) -> io::Result<Option<PackedBatch>>
    ensures { IfOk result (λ given. IfSome given FitsLog) }
{
    if rest.is_empty() {
        return Ok(None);
    }
    match decode_packed(alloc, rest.clone()?) {
        Ok((batch, used)) => {
            rest.advance(used);
            Ok(Some(batch))
        }
        Err(_) => Err(ErrorKind::InvalidData.into()),
    }
}

/// Decodes a stream's batches, and returns how many records they have.
fn decoded(alloc: Global, bytes: &Bytes) -> io::Result<u64> {
    let mut rest = bytes.clone()?;
    let mut records = 0u64;
    for _ in 0..u64::MAX {
        let Some(batch) = next_batch(alloc, &mut rest)? else {
            return Ok(records);
        };
        records = records.wrapping_add(batch.len() as u64);
    }
    Ok(records)
}

/// Runs a program on a stream's batches as they are in memory.
fn push_all(
    alloc: Global,
    program: &Program,
    bytes: &Bytes,
    stream: &mut Transform<Sink>,
) -> io::Result<()> {
    let mut rest = bytes.clone()?;
    for _ in 0..u64::MAX {
        let Some(batch) = next_batch(alloc, &mut rest)? else {
            return Ok(());
        };
        if stream.push(program, batch).is_err() {
            return Err(ErrorKind::InvalidData.into());
        }
    }
    Ok(())
}

/// Runs a program on a stream's batches that a reader gives in pieces.
fn read_all(
    alloc: Global,
    program: &Program,
    bytes: &Bytes,
    stream: &mut Transform<Sink>,
) -> io::Result<()> {
    let mut reader = BatchReader::new(alloc, Cursor::new(bytes.as_slice()), MAX_PIECE)?;
    match transform_all(program, &mut reader, stream) {
        Ok(()) => Ok(()),
        Err(_) => Err(ErrorKind::InvalidData.into()),
    }
}

/// How long a record takes where `count` of them take so many nanoseconds, as text with one digit after
/// the point.
fn per_record(alloc: Global, nanos: u128, count: u64) -> Result<String, AllocError> {
    let tenths = nanos.saturating_mul(10) / u128::from(count.max(1));
    let (record, part) = (tenths / 10, tenths % 10);
    format!(in alloc; "{record}.{part}")
}

/// Times the decoding of a stream alone, and returns how many records it has.
fn time_decode<R: Print + Clock>(
    rt: &R,
    alloc: Global,
    bytes: &Bytes,
    turns: u32,
) -> io::Result<u64> {
    let mut best = u128::MAX;
    let mut records = 0u64;
    for _ in 0..turns {
        let start = Instant::now(rt)?;
        records = decoded(alloc, bytes)?;
        best = best.min(start.elapsed(rt)?.as_nanos());
    }
    let time = per_record(alloc, best, records)?;
    println!(rt; "  decoded alone: {time} ns a record")?;
    Ok(records)
}

/// Times a program on a stream of so many records.
fn time_program<R: Print + Clock>(
    rt: &R,
    alloc: Global,
    name: &str,
    program: &Program,
    bytes: &Bytes,
    records: u64,
    turns: u32,
) -> io::Result<()> {
    let mut best = u128::MAX;
    let mut best_read = u128::MAX;
    let mut stream = Transform::new(alloc, 0, 0, outlets(alloc)?);
    for _ in 0..turns {
        let start = Instant::now(rt)?;
        push_all(alloc, program, bytes, &mut stream)?;
        best = best.min(start.elapsed(rt)?.as_nanos());
        let start = Instant::now(rt)?;
        read_all(alloc, program, bytes, &mut stream)?;
        best_read = best_read.min(start.elapsed(rt)?.as_nanos());
    }
    let time = per_record(alloc, best, records)?;
    let read = per_record(alloc, best_read, records)?;
    let rows = rows_of(&stream);
    println!(rt; "  {name}: {time} ns a record, from a reader {read} ({rows} rows)")
}

/// How many rows all output partitions have.
fn rows_of(stream: &Transform<Sink>) -> u64 {
    let mut sum = 0u64;
    for output in 0..stream.outputs() {
        sum = sum.wrapping_add(stream.outlet(output).rows());
    }
    sum
}

/// The program of an image in a file.
fn program_of(rt: &HostRuntime, alloc: Global, name: &str) -> io::Result<Program> {
    let image = Bytes::from_vec(fs::read(rt, name)?)?;
    match Program::new(alloc, &image, Table::Three) {
        Ok(program) => Ok(program),
        Err(_) => Err(ErrorKind::InvalidData.into()),
    }
}

/// Times the decoding of a shape's stream, and each program on it.
fn time_shape<R: Print + Clock>(
    rt: &R,
    alloc: Global,
    shape: &Shape,
    programs: &[(String, Program)],
    turns: u32,
) -> io::Result<()> {
    let bytes = Bytes::from_vec(stream_of(alloc, shape)?)?;
    println!(rt; "{}", shape.name)?;
    let records = time_decode(rt, alloc, &bytes, turns)?;
    for (name, program) in programs {
        time_program(rt, alloc, name.as_str(), program, &bytes, records, turns)?;
    }
    Ok(())
}

fn main(rt: HostRuntime) -> io::Result<()> {
    let mut arguments = env::args(&rt)?.skip(1);
    let Some(turns) = arguments.next() else {
        return Ok(());
    };
    let turns: u32 = turns.as_str().parse().unwrap_or(1);
    let mut programs = Vec::new(rt.alloc());
    for name in arguments {
        let program = program_of(&rt, rt.alloc(), name.as_str())?;
        programs.push((name, program))?;
    }
    for shape in &SHAPES {
        time_shape(&rt, rt.alloc(), shape, &programs, turns)?;
    }
    Ok(())
}
