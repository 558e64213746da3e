//! What a step of a book takes, after few and after many items.

use crate::brokers::{Figures, Subject, best, each};
use crate::turns::fill;
use broker::{Broker, Stepped};
use broker_fixtures::{deploy, drain, step_book};
use catalogue::Catalogue;
use fixtures::FORWARD;
use out_book::Book;
use part_log::Names;
use std::alloc::Global;
use std::io;
use std::rt::Clock;
use std::sync::Wait;
use std::thread::Threads;
use std::time::{CpuClock, Instant};

/// How many cells the log has.
const CELLS: usize = 65_536;

/// How many steps are measured together.
const STEPS: usize = 1_000;

/// What a step of a new broker took in nanoseconds, after so many items.
pub(crate) fn step_after<Id: Names + Send + Sync, R: Threads + Wait + Clock + Sync>(
    rt: &R,
    alloc: Global,
    broker: &Broker<Id, Catalogue<&R>>,
    items: usize,
) -> Option<Figures> {
    deploy(rt, alloc, broker, 0, &FORWARD)?;
    fill(rt, alloc, broker, 0, items.wrapping_sub(1), 1)?;
    if !drain(rt, alloc, broker) {
        return None;
    }
    fill(rt, alloc, broker, 0, STEPS, 1)?;
    Some((step_all(rt, alloc, broker)?, 0.0, 0.0, 0.0, 0.0))
}

/// What a step took in nanoseconds, over the next steps of the first book.
fn step_all<Id: Names, C, R: Wait + Clock>(
    rt: &R,
    alloc: Global,
    broker: &Broker<Id, C>,
) -> Option<f64> {
    let _some = broker.outputs();
    let mut book = broker.book(0).lock(rt);
    step_book_on(rt, alloc, broker, &mut *book)
}

/// What a step took in nanoseconds, over the next steps of a book.
fn step_book_on<Id: Names, C, R: Clock>(
    rt: &R,
    alloc: Global,
    broker: &Broker<Id, C>,
    book: &mut Book<Id>,
) -> Option<f64> {
    let start = Instant::now(rt).ok()?;
    for _ in 0..STEPS {
        if !is_added(alloc, broker, book) {
            return None;
        }
    }
    each(rt, &start, STEPS as u64)
}

/// Whether a step of a book adds rows.
fn is_added<Id: Names, C>(alloc: Global, broker: &Broker<Id, C>, book: &mut Book<Id>) -> bool {
    matches!(
        step_book(alloc, broker, book, 0),
        Some(Ok(Stepped::Added(_)))
    )
}

/// Prints the least that a step took after 1,000 and after 60,000 items.
pub(crate) fn measure<R: Threads + Wait + Clock + CpuClock + Print + Sync>(
    rt: &R,
    alloc: Global,
    turns: u32,
) -> io::Result<()> {
    let few = best(rt, alloc, 1, 1, CELLS, Subject::Steps(1_000), turns).0;
    let many = best(rt, alloc, 1, 1, CELLS, Subject::Steps(60_000), turns).0;
    println!(rt;
        "a step of one record after 1,000 items: {few:6.1} ns, after 60,000 items: {many:6.1} ns"
    )
}
