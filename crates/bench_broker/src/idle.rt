//! What workers cost that wait for items, and how soon they deliver one.

use crate::brokers::{Figures, Subject, best};
use broker::{Broker, Until};
use broker_fixtures::{deploy, put};
use catalogue::Catalogue;
use fixtures::FORWARD;
use part_log::Names;
use std::alloc::Global;
use std::rt::Clock;
use std::sync::Wait;
use std::thread::Threads;
use std::time::{CpuClock, Duration, Instant};
use std::{io, thread};
use worker::Open;

/// How many input partitions there are.
const INPUTS: usize = 10;

/// How many milliseconds nothing is appended while processor time is counted.
const IDLE: u64 = 2_000;

/// How many milliseconds nothing is appended before an item, so that all workers sleep.
const REST: u64 = 1;

/// How often a row is looked for before it counts as lost.
const LOOKS: usize = 10_000_000;

/// The share of a core that the process takes while nothing is appended.
fn idle_share<R: Clock + CpuClock>(rt: &R) -> Option<f64> {
    let start = Instant::now(rt).ok()?;
    let before = rt.process_cpu_time().ok()?;
    thread::sleep(rt, Duration::from_millis(IDLE));
    let used = rt.process_cpu_time().ok()?.saturating_sub(before);
    Some(used.as_secs_f64() / start.elapsed(rt).ok()?.as_secs_f64())
}

/// Waits until the book of output partition 0 has this number of rows. None where that takes too long.
fn wait_for_rows<Id: Names, C, R: Wait>(rt: &R, broker: &Broker<Id, C>, rows: usize) -> Option<()> {
    let _some = broker.outputs();
    for _ in 0..LOOKS {
        if broker.book(0).lock(rt).len() >= rows {
            return Some(());
        }
        thread::yield_now();
    }
    None
}

/// How long a record takes from its append to its row, which is the book's last. None where it is refused or lost.
fn time_one<Id: Names, C, R: Wait + Clock>(
    rt: &R,
    alloc: Global,
    broker: &Broker<Id, C>,
    number: usize,
) -> Option<Duration> {
    thread::sleep(rt, Duration::from_millis(REST));
    let Ok(start) = Instant::now(rt) else {
        return None;
    };
    if put(rt, alloc, broker, number % INPUTS, b'v').is_none() {
        return None;
    }
    wait_for_rows(rt, broker, number.wrapping_add(1))?;
    start.elapsed(rt).ok()
}

/// The share of a core that idle workers take, then the least, the median and the greatest times in
/// microseconds of items that they get one by one.
fn watch<Id: Names, C, R: Wait + Clock + CpuClock>(
    rt: &R,
    alloc: Global,
    broker: &Broker<Id, C>,
    items: usize,
) -> Option<Figures> {
    thread::sleep(rt, Duration::from_millis(IDLE));
    let share = idle_share(rt)?;
    let Ok(mut took) = vec![in alloc; Duration::from_millis(0); items] else {
        return None;
    };
    time_each(rt, alloc, broker, &mut took)?;
    took.sort_unstable();
    let middle = micros(took.get(took.len() / 2));
    let (first, last) = (micros(took.first()), micros(took.last()));
    Some((share, first, middle, last, 0.0))
}

fn time_each<Id: Names, C, R: Wait + Clock>(
    rt: &R,
    alloc: Global,
    broker: &Broker<Id, C>,
    took: &mut [Duration],
) -> Option<()> {
    for number in 0..took.len() {
        took[number] = time_one(rt, alloc, broker, number)?;
    }
    Some(())
}

/// Closes each log, which ends its worker.
fn close_all<Id: Names, C, R: Wait>(rt: &R, alloc: Global, broker: &Broker<Id, C>) -> Option<()> {
    for input in 0..broker.inputs() {
        broker.close(rt, alloc, input).ok()?;
    }
    Some(())
}

/// Watches idle workers, gives them items, and closes the logs, whatever came of these.
fn watch_and_close<Id: Names, C, R: Wait + Clock + CpuClock>(
    rt: &R,
    alloc: Global,
    broker: &Broker<Id, C>,
    items: usize,
) -> Option<Figures> {
    let idle = watch(rt, alloc, broker, items);
    close_all(rt, alloc, broker)?;
    idle
}

/// Runs the workers of a broker and watches them from another thread.
pub(crate) fn watch_beside<Id: Names + Send + Sync, R: Threads + Wait + Clock + CpuClock + Sync>(
    rt: &R,
    alloc: Global,
    broker: &Broker<Id, Catalogue<&R>>,
    items: usize,
) -> Option<Figures> {
    for input in 0..broker.inputs() {
        deploy(rt, alloc, broker, input, &FORWARD)?;
    }
    let work = move || broker.start(rt, alloc, Until::Closed, &Open).is_ok();
    let look = move || -> Option<Figures> { watch_and_close(rt, alloc, broker, items) };
    let (_ended, idle) = thread::join(rt, work, look);
    idle
}

fn micros(took: Option<&Duration>) -> f64 {
    match took {
        Some(took) => took.as_secs_f64() * 1_000_000.0,
        None => f64::INFINITY,
    }
}

/// Prints the share of a core that ten waiting workers take, and the least, median and greatest times of items.
pub(crate) fn measure<R: Threads + Wait + Clock + CpuClock + Print + Sync>(
    rt: &R,
    alloc: Global,
    items: u32,
) -> io::Result<()> {
    let subject = Subject::Idle(items as usize);
    let (share, least, median, most, _) = best(rt, alloc, INPUTS, 1, 65_536, subject, 1);
    if share == f64::INFINITY {
        return println!(rt; "a call was refused");
    }
    println!(rt; "{INPUTS} waiting workers take {share:7.5} of a core")?;
    println!(rt;
        "from append to row: {least:7.1} µs at least, {median:7.1} in the median, {most:7.1} at most, of {items} items"
    )
}
