//! What a load of a name costs, among the first of many and among the last, and the memory that they
//! take.

use crate::memory::peak_memory;
use broker_fixtures::NAME;
use bytes::Bytes;
use catalogue::Catalogue;
use fixtures::FORWARD;
use machine_spec::Table;
use std::alloc::{Alloc, AllocError, Global};
use std::fs::Files;
use std::io;
use std::num::nearest_u64_to_f64;
use std::rt::Clock;
use std::sync::Wait;
use std::time::Instant;

/// How many loads are timed, at the start and at the end.
const SOME: u64 = 1_000;

/// How many loads there are between these.
const BETWEEN: u64 = 98_000;

/// Loads the name so often; what a load took, in microseconds.
fn load<W: Wait + Drop, R: Clock>(
    rt: &R,
    alloc: Global,
    catalogue: &mut Catalogue<W>,
    count: u64,
) -> io::Result<f64> {
    let image = Bytes::copy_from_slice(alloc, &FORWARD)?;
    let start = Instant::now(rt)?;
    for _ in 0..count {
        if catalogue.load(alloc, NAME, &image, Table::One).is_err() {
            return Err(AllocError.into());
        }
    }
    let took = start.elapsed(rt)?.as_secs_f64();
    Ok(took * 1_000_000.0 / nearest_u64_to_f64(count))
}

/// Prints what a load took at both ends of 100,000, and the memory after each.
pub(crate) fn measure<R: Wait + Clock + Files + Alloc + Print>(
    rt: &R,
    alloc: Global,
) -> io::Result<()> {
    let mut catalogue = Catalogue::new(rt, alloc)?;
    measure_on(rt, alloc, &mut catalogue)
}

fn measure_on<W: Wait + Drop, R: Clock + Files + Alloc + Print>(
    rt: &R,
    alloc: Global,
    catalogue: &mut Catalogue<W>,
) -> io::Result<()> {
    let first = load(rt, alloc, catalogue, SOME)?;
    let before = peak_memory(rt)?;
    load(rt, alloc, catalogue, BETWEEN)?;
    let last = load(rt, alloc, catalogue, SOME)?;
    let after = peak_memory(rt)?;
    println!(rt;
        "the first 1,000 loads of 100,000: {first:6.2} us a load, {before} kB; \
            the last 1,000: {last:6.2} us, {after} kB"
    )
}
