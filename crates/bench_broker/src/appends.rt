//! How fast threads append to logs.

ghost use Rattle.std.specs.Prelude.{◌≤◌};
ghost use Rattle.broker.specs.Layouts.{IsCount};

use crate::brokers::{Figures, Subject, best, each};
use broker::Broker;
use catalogue::Catalogue;
use fixtures::batch_of_copies;
use part_log::{LoggedBatch, Names};
use std::alloc::Global;
use std::rt::Clock;
use std::sync::Wait;
use std::thread::Threads;
use std::time::{CpuClock, Instant};
use std::{io, thread};

/// How many cells the largest log has.
const MOST_CELLS: usize = 65_536;

/// The timestamp of each batch.
const TIMESTAMP: i64 = 1_700_000_000_000;

/// Appends batches of one record of 64 bytes, the producer's own, until those were `most`, or one is
/// refused; how many appends that were.
fn fill<Id: Names, C, R: Wait>(
    rt: &R,
    alloc: Global,
    broker: &Broker<Id, C>,
    input: usize,
    most: usize,
) -> u64 {
    match batch_of_copies(alloc, TIMESTAMP, 1, None, Some(&[b'v'; 64])) {
        Some(first) => match LoggedBatch::new(alloc, first) {
            Ok(logged) => fill_with(rt, alloc, broker, input, most, &logged),
            Err(_) => 0,
        },
        None => 0,
    }
}

fn fill_with<Id: Names, C, R: Wait>(
    rt: &R,
    alloc: Global,
    broker: &Broker<Id, C>,
    input: usize,
    most: usize,
    logged: &LoggedBatch,
) -> u64 {
    let mut count = 0u64;
    for _ in 0..most {
        if !append(rt, alloc, broker, input, logged) {
            break;
        }
        count = count.wrapping_add(1);
    }
    count
}

/// Appends the batch of another item; false where it is refused.
fn append<Id: Names, C, R: Wait>(
    rt: &R,
    alloc: Global,
    broker: &Broker<Id, C>,
    input: usize,
    logged: &LoggedBatch,
) -> bool {
    let _fits = logged.len();
    match logged.to_batch(alloc) {
        Ok(batch) => broker.append(rt, alloc, input, batch).is_ok(),
        Err(_) => false,
    }
}

/// What an append took while the producers filled the logs of a new broker.
pub(crate) fn fill_all<Id: Names + Send + Sync, R: Threads + Wait + Clock + Sync>(
    rt: &R,
    alloc: Global,
    broker: &Broker<Id, Catalogue<&R>>,
    producers: usize,
) -> Option<Figures> {
    let inputs = broker.inputs();
    let producer = move |number: usize| -> u64 {
        fill(rt, alloc, broker, number % inputs, MOST_CELLS)
    };
    let start = Instant::now(rt).ok()?;
    let appends = match thread::map_indices(rt, alloc, producers, &producer) {
        Ok(counts) => sum(&counts),
        Err(_) => return None,
    };
    Some((each(rt, &start, appends)?, 0.0, 0.0, 0.0, 0.0))
}

fn sum(counts: &[u64]) -> u64 {
    let mut all = 0u64;
    for count in counts {
        all = all.wrapping_add(*count);
    }
    all
}

/// Prints the least that an append took in a turn.
fn measure<R: Threads + Wait + Clock + CpuClock + Print + Sync>(
    rt: &R,
    alloc: Global,
    inputs: usize,
    cells: usize,
    producers: usize,
    turns: u32,
) -> io::Result<()>
    requires inputs { IsCount inputs }
    requires cells { (1 ≤ cells) × (cells ≤ 65536) }
{
    let subject = Subject::Appends(producers);
    let least = best(rt, alloc, inputs, 1, cells, subject, turns).0;
    println!(rt;
        "{producers} producers, {inputs} logs of {cells:6} cells: {least:6.1} ns an append, {:7.3} million appends/s",
        1_000.0 / least
    )
}

/// What an append took among the first thousand of a log, and among its last thousand.
pub(crate) fn ends<Id: Names, C, R: Wait + Clock>(
    rt: &R,
    alloc: Global,
    broker: &Broker<Id, C>,
) -> Option<Figures> {
    let first = fill_some(rt, alloc, broker)?;
    fill(rt, alloc, broker, 0, MOST_CELLS - 2_000);
    let last = fill_some(rt, alloc, broker)?;
    Some((first, last, 0.0, 0.0, 0.0))
}

/// What an append took among the next thousand of the first log.
fn fill_some<Id: Names, C, R: Wait + Clock>(
    rt: &R,
    alloc: Global,
    broker: &Broker<Id, C>,
) -> Option<f64> {
    let start = Instant::now(rt).ok()?;
    let count = fill(rt, alloc, broker, 0, 1_000);
    each(rt, &start, count)
}

/// Prints what an append took at both ends of a log, and in logs of several sizes.
pub(crate) fn measure_all<R: Threads + Wait + Clock + CpuClock + Print + Sync>(
    rt: &R,
    alloc: Global,
    turns: u32,
) -> io::Result<()> {
    let (first, last, _, _, _) = best(rt, alloc, 1, 1, MOST_CELLS, Subject::Ends, turns);
    println!(rt;
        "the first 1,000 of {MOST_CELLS}: {first:6.1} ns an append, the last 1,000: {last:6.1} ns"
    )?;
    for cells in [1_000, 10_000, MOST_CELLS] {
        measure(rt, alloc, 1, cells, 1, turns)?;
        for producers in [2, 4] {
            measure(rt, alloc, producers, cells, producers, turns)?;
            measure(rt, alloc, 1, cells, producers, turns)?;
        }
    }
    Ok(())
}
