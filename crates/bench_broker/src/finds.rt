//! How many programs readers find a second while a writer loads.

use crate::brokers::{Figures, Subject, best};
use broker::Broker;
use broker_fixtures::{NAME, load};
use bytes::Bytes;
use catalogue::{Catalogue, Finder, Known};
use fixtures::FORWARD;
use machine_spec::Table;
use part_log::Names;
use std::alloc::Global;
use std::num::nearest_u64_to_f64;
use std::rt::Clock;
use std::sync::Wait;
use std::sync::atomic::{AtomicU64, Ordering};
use std::thread::Threads;
use std::time::{CpuClock, Instant};
use std::{io, thread};

/// How often a reader finds.
const FINDS: u64 = 200_000;

/// How often the writer loads at most.
const LOADS: u64 = 4_000;

/// Finds the name; how many programs were found.
fn find(finder: &mut Finder, known: &Known) -> Option<u64> {
    let found = finder.find(known.name(), known).ok()?;
    Some(found.is_some() as u64)
}

/// Finds the name again and again; how often a second.
fn find_all<Id: Names, H: Wait + Drop, R: Wait + Clock>(
    rt: &R,
    alloc: Global,
    broker: &Broker<Id, Catalogue<H>>,
    known: &Known,
    ended: &AtomicU64,
) -> Option<f64> {
    let work = match broker.finder(rt, alloc) {
        Ok(mut finder) => find_by(rt, &mut finder, known),
        Err(_) => None,
    };
    ended.fetch_add(1, Ordering::SeqCst);
    work
}

/// Finds the name by one finder again and again; how often a second.
fn find_by<R: Clock>(rt: &R, finder: &mut Finder, known: &Known) -> Option<f64> {
    let start = Instant::now(rt).ok()?;
    let mut count = 0u64;
    for _ in 0..FINDS {
        count = count.wrapping_add(find(finder, known)?);
    }
    let seconds = start.elapsed(rt).ok()?.as_secs_f64();
    Some(nearest_u64_to_f64(count) / seconds)
}

/// Loads the name once more.
fn load_again<Id: Names, H: Wait + Drop, R: Wait>(
    rt: &R,
    alloc: Global,
    broker: &Broker<Id, Catalogue<H>>,
    image: &Bytes,
) -> Option<()> {
    let loaded = broker.load(rt, alloc, NAME, image, Table::One);
    if loaded.is_ok() { Some(()) } else { None }
}

/// Loads the name again and again, until all readers have ended; how often a second.
fn load_all<Id: Names, H: Wait + Drop, R: Wait + Clock>(
    rt: &R,
    alloc: Global,
    broker: &Broker<Id, Catalogue<H>>,
    image: &Bytes,
    readers: u64,
    ended: &AtomicU64,
) -> Option<f64> {
    let start = Instant::now(rt).ok()?;
    let mut count = 0u64;
    for _ in 0..LOADS {
        if ended.load(Ordering::SeqCst) >= readers {
            break;
        }
        load_again(rt, alloc, broker, image)?;
        count = count.wrapping_add(1);
    }
    let seconds = start.elapsed(rt).ok()?.as_secs_f64();
    Some(nearest_u64_to_f64(count) / seconds)
}

/// How many programs were found a second, below zero, and how many loads there were beside.
pub(crate) fn run<Id: Names + Send + Sync, R: Threads + Wait + Clock + Sync>(
    rt: &R,
    alloc: Global,
    broker: &Broker<Id, Catalogue<&R>>,
    readers: usize,
) -> Option<Figures> {
    let (_version, known) = load(rt, alloc, broker, &FORWARD)?;
    let image = Bytes::copy_from_slice(alloc, &FORWARD).ok()?;
    let (loads, finds) = run_beside(rt, alloc, broker, &known, &image, readers)?;
    Some((0.0 - finds, loads, 0.0, 0.0, 0.0))
}

/// How often a second the writer loaded, and how often all readers of a name found, in threads of their own.
fn run_beside<Id: Names + Send + Sync, R: Threads + Wait + Clock + Sync>(
    rt: &R,
    alloc: Global,
    broker: &Broker<Id, Catalogue<&R>>,
    known: &Known,
    image: &Bytes,
    readers: usize,
) -> Option<(f64, f64)> {
    let ended = &AtomicU64::new(0);
    let one = move |number: usize| -> Option<f64> {
        if number == 0 {
            load_all(rt, alloc, broker, image, readers as u64, ended)
        } else {
            find_all(rt, alloc, broker, known, ended)
        }
    };
    match thread::map_indices(rt, alloc, readers.wrapping_add(1), &one) {
        Ok(works) => Some(rates(&works)),
        Err(_) => None,
    }
}

/// Prints the most finds a second of all readers together in a turn, and the loads beside them.
pub(crate) fn measure<R: Threads + Wait + Clock + CpuClock + Print + Sync>(
    rt: &R,
    alloc: Global,
    readers: usize,
    turns: u32,
) -> io::Result<()> {
    let best = best(rt, alloc, 1, 1, 1, Subject::Finds(readers), turns);
    println!(rt;
        "{readers} readers: {:7.3} million finds/s, {:6.0} loads/s beside them",
        best.0 / -1_000_000.0,
        best.1
    )
}

/// How often a second the first thread loaded, and how often all others found.
fn rates(works: &[Option<f64>]) -> (f64, f64) {
    match works.split_first() {
        Some((loads, finds)) => (loads.unwrap_or(0.0), rate_of_all(finds)),
        None => (0.0, 0.0),
    }
}

fn rate_of_all(works: &[Option<f64>]) -> f64 {
    let mut rate = 0.0;
    for work in works {
        rate += work.unwrap_or(0.0);
    }
    rate
}
