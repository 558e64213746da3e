//! How fast a broker's rows are fetched as batches.

ghost use Rattle.wire_spec.specs.BatchSpelling.{BatchFits};

use crate::brokers::{Figures, Subject, best};
use batch::{Batch, decode, encode};
use broker::{Broker, Ended, Until};
use broker_fixtures::{deploy, ends};
use bytes::Bytes;
use catalogue::Catalogue;
use fixtures::{FORWARD, batch_of_copies};
use part_log::Names;
use std::alloc::Global;
use std::io;
use std::marker::Model;
use std::num::nearest_u64_to_f64;
use std::rt::Clock;
use std::sync::Wait;
use std::thread::Threads;
use std::time::{CpuClock, Instant};
use worker::Open;

const TURNS: u32 = 10;

/// What is done in a turn: rows from a place on are fetched, bytes are copied, or a batch is written.
#[derive(Clone, Copy, Drop)]
enum Work {
    Fetch(usize),
    Copy,
    Encode,
}

/// The bytes of a batch, and the batch, which can be written.
#[derive(Drop)]
struct Given {
    bytes: Bytes,
    batch: Batch,
}

impl Model for Given {
    ghost use Rattle.wire_spec.specs.declared.record.Batch.{Batch};
    ghost use Rattle.wire_spec.specs.BatchSpelling.{BatchFits};

    ghost Value = { Batch };

    ghost view = { λ g. g.batch };

    ghost invariant = { λ g. BatchFits g.batch };
}

/// Appends a batch of records with this value.
fn append<Id: Names, C, R: Wait>(
    rt: &R,
    alloc: Global,
    broker: &Broker<Id, C>,
    rows: usize,
    value: &[u8],
) -> bool {
    match batch_of_copies(
        alloc,
        1_700_000_000_000,
        rows,
        Some(b"kkkkkkkk"),
        Some(value),
    ) {
        Some(batch) => broker.append(rt, alloc, 0, batch).is_ok(),
        None => false,
    }
}

/// Appends eight batches of so many records with this value.
fn append_all<Id: Names, C, R: Wait>(
    rt: &R,
    alloc: Global,
    broker: &Broker<Id, C>,
    rows: usize,
    value: &[u8],
) -> bool {
    for _ in 0..8 {
        if !append(rt, alloc, broker, rows, value) {
            return false;
        }
    }
    true
}

/// The bytes of the batch of the first rows, and the batch.
fn given_of<Id: Names, C, R: Wait>(
    rt: &R,
    alloc: Global,
    broker: &Broker<Id, C>,
    rows: usize,
) -> Option<Given> {
    let Ok(Some(first)) = broker.fetch(rt, 0, 0, rows) else {
        return None;
    };
    let bytes = Bytes::from_vec(first).ok()?;
    match decode(alloc, bytes.clone().ok()?) {
        Ok((batch, _used)) => Some(Given { bytes, batch }),
        Err(_) => None,
    }
}

/// Whether the work is done once.
fn is_done<Id: Names, C, R: Wait>(
    rt: &R,
    alloc: Global,
    broker: &Broker<Id, C>,
    given: &Given,
    work: Work,
    rows: usize,
) -> bool {
    match work {
        Work::Fetch(place) => match broker.fetch(rt, 0, place, rows) {
            Ok(found) => found.is_some(),
            Err(_) => false,
        },
        Work::Copy => match Vec::from_slice(alloc, given.bytes.as_slice()) {
            Ok(copy) => !copy.is_empty(),
            Err(_) => false,
        },
        Work::Encode => match encode(alloc, &given.batch) {
            Ok(bytes) => !bytes.is_empty(),
            Err(_) => false,
        },
    }
}

/// How many seconds the work takes so many times. None where it is refused.
fn turn<Id: Names, C, R: Wait + Clock>(
    rt: &R,
    alloc: Global,
    broker: &Broker<Id, C>,
    given: &Given,
    work: Work,
    rows: usize,
    times: u32,
) -> Option<f64> {
    let start = Instant::now(rt).ok()?;
    for _ in 0..times {
        if !is_done(rt, alloc, broker, given, work, rows) {
            return None;
        }
    }
    Some(start.elapsed(rt).ok()?.as_secs_f64())
}

/// The shortest of ten turns.
fn shortest<Id: Names, C, R: Wait + Clock>(
    rt: &R,
    alloc: Global,
    broker: &Broker<Id, C>,
    given: &Given,
    work: Work,
    rows: usize,
    times: u32,
) -> Option<f64> {
    let mut shortest = f64::INFINITY;
    for _ in 0..TURNS {
        shortest = shortest.min(turn(rt, alloc, broker, given, work, rows, times)?);
    }
    Some(shortest)
}

/// How many bytes the batch of the first rows has, and the shortest turns of fetching it and the last rows,
/// of copying it and of writing it.
fn time_all<Id: Names, C, R: Wait + Clock>(
    rt: &R,
    alloc: Global,
    broker: &Broker<Id, C>,
    given: &Given,
    rows: usize,
    times: u32,
) -> Option<Figures> {
    let size = nearest_u64_to_f64(given.bytes.len() as u64);
    let last = Work::Fetch(rows.wrapping_mul(7));
    // The copy comes first: the system's allocator keeps room of the size that was freed once.
    let copy = shortest(rt, alloc, broker, given, Work::Copy, rows, times)?;
    let encode = shortest(rt, alloc, broker, given, Work::Encode, rows, times)?;
    let first = shortest(rt, alloc, broker, given, Work::Fetch(0), rows, times)?;
    let last = shortest(rt, alloc, broker, given, last, rows, times)?;
    Some((size, first, last, copy, encode))
}

/// Gives output 0 of a new broker the rows of eight batches, and times what is done with them.
pub(crate) fn fill_and_time<Id: Names + Send + Sync, R: Threads + Wait + Clock + Sync>(
    rt: &R,
    alloc: Global,
    broker: &Broker<Id, Catalogue<&R>>,
    times: u32,
    rows: usize,
    value: usize,
) -> Option<Figures> {
    deploy(rt, alloc, broker, 0, &FORWARD)?;
    let is_full = match vec![in alloc; b'v'; value] {
        Ok(value) => append_all(rt, alloc, broker, rows, value.as_slice()),
        Err(_) => false,
    };
    if !is_full || !ends(rt, alloc, broker, Until::Drained, &Open, &[Ended::Done(9)]) {
        return None;
    }
    match given_of(rt, alloc, broker, rows) {
        Some(given) => time_all(rt, alloc, broker, &given, rows, times),
        None => None,
    }
}

/// Prints what a turn took that gave so many bytes and rows each time.
fn show<R: Print>(
    rt: &R,
    name: &str,
    seconds: f64,
    times: u32,
    bytes: f64,
    rows: usize,
) -> io::Result<()> {
    let each = seconds * 1_000_000.0 / f64::from(times);
    println!(rt;
        "  {name}: {:6.0} MB/s  {:8.3} million rows/s",
        bytes / each,
        nearest_u64_to_f64(rows as u64) / each
    )
}

/// Prints how fast so many rows with values of this length are fetched, copied and written.
fn measure<R: Threads + Wait + Print + Clock + CpuClock + Sync>(
    rt: &R,
    alloc: Global,
    name: &str,
    rows: usize,
    value: usize,
    times: u32,
) -> io::Result<()> {
    let subject = Subject::Fetches(times, rows, value);
    let (size, first, last, copy, encode) = best(rt, alloc, 1, 1, 256, subject, 1);
    println!(rt; "{name}, {size:.0} bytes in all")?;
    show(rt, "fetch, first", first, times, size, rows)?;
    show(rt, "fetch, last ", last, times, size, rows)?;
    show(rt, "copy        ", copy, times, size, rows)?;
    show(rt, "encode      ", encode, times, size, rows)
}

/// Prints how fast the rows of both shapes are fetched.
pub(crate) fn measure_all<R: Threads + Wait + Print + Clock + CpuClock + Sync>(
    rt: &R,
    alloc: Global,
    times: u32,
) -> io::Result<()> {
    measure(rt, alloc, "10,000 rows of 64 bytes", 10_000, 64, times)?;
    measure(rt, alloc, "15 rows of 65,536 bytes", 15, 65_536, times)
}
