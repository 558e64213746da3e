//! What calls of a book take after 1,000 rows and after 1,000,000.

use crate::brokers::{Figures, Subject, best};
use crate::{deliveries, locks, steps};
use std::alloc::Global;
use std::io;
use std::rt::Clock;
use std::sync::Wait;
use std::thread::Threads;
use std::time::CpuClock;

/// How many items of 100 rows a short book has, and a long one.
const FEW: usize = 10;

const MANY: usize = 10_000;

/// Prints what a call took in a short book and in a long one, and how many times that is.
fn show<R: Print>(rt: &R, call: &str, few: f64, many: f64) -> io::Result<()> {
    println!(rt;
        "{call}: {few:8.1} ns after 1,000 rows, {many:8.1} ns after 1,000,000, {:5.2} times",
        many / few
    )
}

fn show_reads<R: Print>(rt: &R, few: Figures, many: Figures) -> io::Result<()> {
    show(rt, "an audit that finds 100 rows", few.0, many.0)?;
    show(rt, "a fetch of 100 rows         ", few.1, many.1)?;
    show(rt, "a search for an offset      ", few.2, many.2)?;
    println!(rt;
        "a search looks at {:.0} places, and at {:.0}",
        few.3, many.3
    )
}

/// Prints the least of some turns for each call.
pub(crate) fn measure<R: Threads + Wait + Clock + CpuClock + Print + Sync>(
    rt: &R,
    alloc: Global,
    turns: u32,
) -> io::Result<()> {
    let few = deliveries::least(rt, alloc, FEW, turns);
    let many = deliveries::least(rt, alloc, MANY, turns);
    show(rt, "a delivery of 100 rows      ", few, many)?;
    let few = best(rt, alloc, 1, 1, 65_536, Subject::Reads(FEW), turns);
    let many = best(rt, alloc, 1, 1, 65_536, Subject::Reads(MANY), turns);
    show_reads(rt, few, many)?;
    locks::measure(rt, alloc, turns)?;
    steps::measure(rt, alloc, turns)
}
