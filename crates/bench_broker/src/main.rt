//! Measures a broker. The first argument is a subject, the second how often it is measured:
//! - `log TURNS` fills logs of several sizes by one, two and four producers and prints what an append
//!   took in the best turn, then how many programs one and four readers find a second while a writer
//!   loads, and what a load takes.
//! - `worker TURNS` prints how many records a second went from the append to the row in the best turn,
//!   and the processor time that they took, with one, two and four input partitions and as many threads;
//!   then with 1, 8 and 64 output partitions. With a number of batches after TURNS it keeps their records
//!   and rows instead, and prints the memory that these take.
//! - `book TURNS` prints what a delivery of 100 rows, an audit, a fetch and a search for an offset took in
//!   the best turn with a book of 1,000 rows and with one of 1,000,000; then how long a book is locked for
//!   a delivery beside three others, and what a step of a book took after 1,000 and after 60,000 items.
//! - `idle ITEMS` lets ten workers wait, prints the share of a core that they take, then appends that many
//!   items, each when all workers sleep, and prints how long they took from the append to the row.
//! - `fetch TIMES` fetches rows as batches that many times in each of ten turns, and prints the bytes
//!   and rows a second of the best, beside the writing of the same batch by `batch` and a copy.
//!
//! Given nothing, it prints nothing.
#![tactic(auto)]

mod appends;
mod books;
mod brokers;
mod deliveries;
mod fetches;
mod finds;
mod idle;
mod loads;
mod locks;
mod memory;
mod reads;
mod steps;
mod turns;

use std::alloc::{Alloc, Global};
use std::fs::Files;
use std::rt::Clock;
use std::sync::Wait;
use std::thread::Threads;
use std::time::CpuClock;
use std::{env, io};

/// The number that a word is.
fn number_of(word: Option<String>) -> Option<u32> {
    match word {
        Some(word) => word.parse::<u32>().ok(),
        None => None,
    }
}

/// Appends, then finds and loads.
fn measure_logs<R: Threads + Wait + Clock + CpuClock + Files + Alloc + Print + Sync>(
    rt: &R,
    alloc: Global,
    turns: u32,
) -> io::Result<()> {
    appends::measure_all(rt, alloc, turns)?;
    finds::measure(rt, alloc, 1, turns)?;
    finds::measure(rt, alloc, 4, turns)?;
    loads::measure(rt, alloc)
}

/// Measures a subject.
fn measure<R: Threads + Wait + Clock + CpuClock + Files + Alloc + Print + Sync>(
    rt: &R,
    alloc: Global,
    subject: &str,
    count: Option<u32>,
    kept: Option<u32>,
) -> io::Result<()> {
    match subject {
        "log" => measure_logs(rt, alloc, count.unwrap_or(20)),
        "worker" => match kept {
            Some(batches) => turns::keep(rt, alloc, batches as usize),
            None => turns::measure_all(rt, alloc, count.unwrap_or(3)),
        },
        "book" => books::measure(rt, alloc, count.unwrap_or(3)),
        "idle" => idle::measure(rt, alloc, count.unwrap_or(1_000)),
        "fetch" => fetches::measure_all(rt, alloc, count.unwrap_or(20)),
        _ => println!(rt; "the subjects are log, worker, book, idle and fetch"),
    }
}

fn main(rt: HostRuntime) -> io::Result<()> {
    let mut words = env::args(&rt)?.skip(1);
    let Some(subject) = words.next() else {
        return Ok(());
    };
    let count = number_of(words.next());
    let kept = number_of(words.next());
    measure(&rt, rt.alloc(), subject.as_str(), count, kept)
}
