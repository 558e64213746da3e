//! How many records a second workers make rows of.

ghost use Rattle.std.specs.Prelude.{IfSome};
ghost use Rattle.log_spec.specs.Logs.{FitsLog};
ghost use Rattle.broker.specs.Layouts.{IsCount};

use crate::brokers::{Figures, Subject, best};
use crate::memory::peak_memory;
use broker::Broker;
use broker_fixtures::{deploy, drain};
use bytes::Bytes;
use catalogue::Catalogue;
use fixtures::{FORWARD, batch_at, record_of};
use part_log::{Names, Receipt};
use std::alloc::{Alloc, AllocError, Global};
use std::fs::Files;
use std::num::nearest_u64_to_f64;
use std::rt::Clock;
use std::sync::Wait;
use std::thread::Threads;
use std::time::{CpuClock, Instant};
use std::{io, thread};
use wire_spec::{Batch, Record, Records};

/// How many bytes a record's value has.
const SIZE: usize = 64;

/// How many records a batch has in most measures.
pub(crate) const RECORDS: usize = 100;

/// call 9; mov64 r1, r0; call 3; exit: each record goes to the output of its input's number as it is.
static TO_OWN: [u8; 32] = [
    0x85, 0, 0, 0, 9, 0, 0, 0, 0xbf, 1, 0, 0, 0, 0, 0, 0, 0x85, 0, 0, 0, 3, 0, 0, 0, 0x95, 0, 0, 0,
    0, 0, 0, 0,
];

/// How many cells a log has.
const CELLS: usize = 65_536;

/// How many batches all logs have together.
const BATCHES: usize = 8_000;

/// Records whose values share one buffer.
fn records(alloc: Global, count: usize) -> Result<Records, AllocError> {
    let mut list = Vec::with_capacity(alloc, count)?;
    let mut rest = Bytes::from_vec(vec![in alloc; b'v'; count.wrapping_mul(SIZE)]?)?;
    for _ in 0..count {
        list.push(first_of(alloc, &mut rest)?)?;
    }
    Ok(Records { list })
}

/// A record whose value is the first of these bytes, which are then taken off.
fn first_of(alloc: Global, rest: &mut Bytes) -> Result<Record, AllocError> {
    if rest.len() < SIZE {
        return Err(AllocError);
    }
    let value = rest.split_to(SIZE)?;
    Ok(record_of(alloc, 0, None, Some(value)))
}

/// A batch of that number of records. None where memory ran out.
pub(crate) fn batch_of(alloc: Global, count: usize) -> Option<Batch>
    ensures { IfSome result (λ batch. FitsLog batch) }
{
    batch_at(1000, records(alloc, count).ok()?)
}

/// Appends batches of that number of records. None where one is refused.
pub(crate) fn fill<Id: Names, C, R: Wait>(
    rt: &R,
    alloc: Global,
    broker: &Broker<Id, C>,
    input: usize,
    batches: usize,
    records: usize,
) -> Option<()> {
    for _ in 0..batches {
        if append(rt, alloc, broker, input, records).is_none() {
            return None;
        }
    }
    Some(())
}

/// Appends a batch of that number of records. None where it is refused.
pub(crate) fn append<Id: Names, C, R: Wait>(
    rt: &R,
    alloc: Global,
    broker: &Broker<Id, C>,
    input: usize,
    records: usize,
) -> Option<Receipt<Id>> {
    let batch = batch_of(alloc, records)?;
    broker.append(rt, alloc, input, batch).ok()
}

/// How many rows all output partitions have.
fn rows<Id: Names, C, R: Wait>(rt: &R, broker: &Broker<Id, C>) -> usize {
    let mut rows = 0usize;
    for output in 0..broker.outputs() {
        rows = rows.wrapping_add(broker.book(output).lock(rt).len());
    }
    rows
}

/// What the appends and the workers of a new broker took in all, then the workers alone, and the processor
/// time of both, in seconds. None where a call is refused, or a record has no row.
pub(crate) fn time_all<Id: Names + Send + Sync, R: Threads + Wait + Clock + CpuClock + Sync>(
    rt: &R,
    alloc: Global,
    broker: &Broker<Id, Catalogue<&R>>,
    batches: usize,
    to_own: bool,
) -> Option<Figures> {
    let image: &[u8] = if to_own { &TO_OWN } else { &FORWARD };
    let each = batches / broker.inputs();
    let before = rt.process_cpu_time().ok()?;
    let appends = append_all(rt, alloc, broker, image, each)?;
    let workers = work(rt, alloc, broker)?;
    let used = rt.process_cpu_time().ok()?.saturating_sub(before);
    let all = each.wrapping_mul(broker.inputs()).wrapping_mul(RECORDS);
    if rows(rt, broker) != all {
        return None;
    }
    Some((appends + workers, workers, used.as_secs_f64(), 0.0, 0.0))
}

/// What it took to append that number of batches to each log by a thread of its own.
fn append_all<Id: Names + Send + Sync, R: Threads + Wait + Clock + Sync>(
    rt: &R,
    alloc: Global,
    broker: &Broker<Id, Catalogue<&R>>,
    image: &[u8],
    each: usize,
) -> Option<f64> {
    let inputs = broker.inputs();
    for input in 0..inputs {
        deploy(rt, alloc, broker, input, image)?;
    }
    let one = move |input: usize| -> bool {
        fill(rt, alloc, broker, input, each, RECORDS).is_some()
    };
    let start = Instant::now(rt).ok()?;
    let is_full = match thread::map_indices(rt, alloc, inputs, &one) {
        Ok(filled) => are_full(&filled),
        Err(_) => false,
    };
    let took = start.elapsed(rt).ok()?.as_secs_f64();
    if is_full { Some(took) } else { None }
}

/// Whether each log was filled.
fn are_full(filled: &[bool]) -> bool {
    for is_full in filled {
        if !*is_full {
            return false;
        }
    }
    true
}

/// What the workers took.
fn work<Id: Names + Send + Sync, R: Threads + Wait + Clock + Sync>(
    rt: &R,
    alloc: Global,
    broker: &Broker<Id, Catalogue<&R>>,
) -> Option<f64> {
    let start = Instant::now(rt).ok()?;
    let is_done = drain(rt, alloc, broker);
    let took = start.elapsed(rt).ok()?.as_secs_f64();
    if is_done { Some(took) } else { None }
}

/// Nanoseconds a record.
fn nanos(seconds: f64) -> f64 {
    seconds * 1_000_000_000.0 / nearest_u64_to_f64((BATCHES * RECORDS) as u64)
}

/// Millions of records a second.
fn rate(seconds: f64) -> f64 {
    nearest_u64_to_f64((BATCHES * RECORDS) as u64) / seconds / 1_000_000.0
}

/// Prints the best turn of one, two and four input partitions, with that number of output partitions.
fn measure_cores<R: Threads + Wait + Clock + CpuClock + Print + Sync>(
    rt: &R,
    alloc: Global,
    outputs: usize,
    to_own: bool,
    turns: u32,
) -> io::Result<()>
    requires { IsCount outputs }
{
    let subject = Subject::Workers(BATCHES, to_own);
    let one = best(rt, alloc, 1, outputs, CELLS, subject, turns);
    print_cores(rt, 1, one, one)?;
    let two = best(rt, alloc, 2, outputs, CELLS, subject, turns);
    print_cores(rt, 2, two, one)?;
    let four = best(rt, alloc, 4, outputs, CELLS, subject, turns);
    print_cores(rt, 4, four, one)
}

/// Prints each rate and the processor time, and beside it how many times that of one input partition it is.
fn print_cores<R: Print>(rt: &R, inputs: usize, times: Figures, one: Figures) -> io::Result<()> {
    println!(rt;
        "{inputs} inputs: {:6.3} million records/s, {:5.2} of one; workers alone {:6.3}, {:5.2} of one",
        rate(times.0),
        one.0 / times.0,
        rate(times.1),
        one.1 / times.1
    )?;
    println!(rt;
        "          processor time {:6.1} ns a record, {:5.2} of one",
        nanos(times.2),
        times.2 / one.2
    )
}

/// Prints the best turn of one input partition, with that number of output partitions.
fn measure_outputs<R: Threads + Wait + Clock + CpuClock + Print + Sync>(
    rt: &R,
    alloc: Global,
    outputs: usize,
    turns: u32,
) -> io::Result<()>
    requires { IsCount outputs }
{
    let subject = Subject::Workers(BATCHES, false);
    let (all, workers, _, _, _) = best(rt, alloc, 1, outputs, CELLS, subject, turns);
    println!(rt;
        "1 input, {outputs:2} outputs: {:6.3} million records/s; workers alone {:6.3}",
        rate(all),
        rate(workers)
    )
}

/// Prints the best turns with several numbers of input and output partitions.
pub(crate) fn measure_all<R: Threads + Wait + Clock + CpuClock + Print + Sync>(
    rt: &R,
    alloc: Global,
    turns: u32,
) -> io::Result<()> {
    println!(rt; "from append to row, all to 1 output:")?;
    measure_cores(rt, alloc, 1, false, turns)?;
    println!(rt; "from append to row, each input to 1 of 4 outputs:")?;
    measure_cores(rt, alloc, 4, true, turns)?;
    println!(rt; "from append to row, all to the first of some outputs:")?;
    for outputs in [1, 8, 64] {
        measure_outputs(rt, alloc, outputs, turns)?;
    }
    Ok(())
}

/// Keeps the records of batches and their rows, and prints the memory that a record and its row take.
pub(crate) fn keep<R: Threads + Wait + Clock + CpuClock + Files + Alloc + Print + Sync>(
    rt: &R,
    alloc: Global,
    batches: usize,
) -> io::Result<()> {
    let before = peak_memory(rt)?;
    let subject = Subject::Workers(batches, false);
    if best(rt, alloc, 1, 1, CELLS, subject, 1).0 == f64::INFINITY {
        return println!(rt; "a call was refused");
    }
    let taken = peak_memory(rt)?.saturating_sub(before).wrapping_mul(1024);
    let records = batches.wrapping_mul(RECORDS) as u64;
    println!(rt;
        "{records} records of {SIZE} bytes, each with its row: {:6.1} bytes a record",
        nearest_u64_to_f64(taken) / nearest_u64_to_f64(records)
    )
}
