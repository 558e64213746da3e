//! How long a book is locked for the rows of an item, after few rows and after many.

ghost use Rattle.std.specs.Prelude.{◌≡◌};

use crate::turns::{RECORDS, batch_of};
use broker_fixtures::{NAME, advance, program_of};
use fixtures::FORWARD;
use log_spec::Name;
use out_book::{Book, Delivered, Room};
use part_log::{Cells, Names, PartLog};
use std::alloc::Global;
use std::marker::Brand;
use std::num::nearest_u64_to_f64;
use std::rt::Clock;
use std::sync::{Mutex, Wait};
use std::time::Instant;
use worker::{Delivery, Walk, process_for};

/// How many deliveries are measured together.
const DELIVERIES: usize = 100;

/// The rows of the item at a walk's position, by value. None where it has no item, the log is of another
/// partition, or memory ran out.
fn delivery_of<Id: Names>(alloc: Global, log: &PartLog<Id>, walk: &Walk<Id>) -> Option<Delivery<Id>>
    requires { Id.outputs ≡ 1 }
{
    if walk.partition() != log.partition() {
        return None;
    }
    if walk.partition() >= 64 {
        return None;
    }
    if walk.is_empty() {
        return None;
    }
    process_for(alloc, walk, log, 1, 0).ok()
}

/// Takes the next item into a book as a worker does; how long the book was locked, in seconds, and how
/// many rows were added. None where it is refused.
fn receive_next<Id: Names, R: Wait + Clock>(
    rt: &R,
    alloc: Global,
    log: &PartLog<Id>,
    walk: &mut Walk<Id>,
    shared: &Mutex<Book<Id>>,
    room: &mut Room,
) -> Option<(f64, usize)>
    requires { Id.outputs ≡ 1 }
{
    if !advance(log, walk) {
        return None;
    }
    let Some(delivery) = delivery_of(alloc, log, walk) else {
        return None;
    };
    if room.prepare(delivery.len()).is_err() {
        return None;
    }
    let mut book = shared.lock(rt);
    receive(rt, walk, delivery, &mut *book, room)
}

/// Takes a delivery into a book; how long that took, in seconds, and how many rows were added. None where it
/// is refused.
fn receive<Id: Names, R: Clock>(
    rt: &R,
    walk: &Walk<Id>,
    delivery: Delivery<Id>,
    book: &mut Book<Id>,
    room: &mut Room,
) -> Option<(f64, usize)> {
    let Ok(start) = Instant::now(rt) else {
        return None;
    };
    let rows = added(walk, delivery, book, room)?;
    let took = start.elapsed(rt).ok()?.as_secs_f64();
    Some((took, rows))
}

/// How many rows a delivery adds to a book. None where it is refused.
fn added<Id: Names>(
    walk: &Walk<Id>,
    delivery: Delivery<Id>,
    book: &mut Book<Id>,
    room: &mut Room,
) -> Option<usize> {
    if delivery.output() != book.output() {
        return None;
    }
    match book.receive(walk, delivery, room) {
        Ok(Delivered::Added(rows)) => Some(rows),
        _ => None,
    }
}

/// Takes the next items into a book; how long it was locked for them together, in seconds. None where one
/// has another number of rows.
fn receive_all<Id: Names, R: Wait + Clock>(
    rt: &R,
    alloc: Global,
    log: &PartLog<Id>,
    walk: &mut Walk<Id>,
    shared: &Mutex<Book<Id>>,
    room: &mut Room,
    items: usize,
) -> Option<f64>
    requires { Id.outputs ≡ 1 }
{
    let mut all = 0.0;
    for _ in 0..items {
        let (took, rows) = receive_next(rt, alloc, log, walk, shared, room)?;
        if rows != RECORDS {
            return None;
        }
        all += took;
    }
    Some(all)
}

/// Appends the mark of a program that forwards each record, and items of 100 records.
pub(crate) fn fill<Id: Names, R: Wait>(
    rt: &R,
    alloc: Global,
    log: &PartLog<Id>,
    items: usize,
) -> Option<()> {
    if !mark(rt, alloc, log) {
        return None;
    }
    for _ in 0..items {
        if !append(rt, alloc, log) {
            return None;
        }
    }
    Some(())
}

fn mark<Id: Names, R: Wait>(rt: &R, alloc: Global, log: &PartLog<Id>) -> bool {
    match (Name::new(NAME), program_of(alloc, &FORWARD)) {
        (Some(name), Some(program)) => log.mark(rt, alloc, name, 1, program).is_ok(),
        _ => false,
    }
}

fn append<Id: Names, R: Wait>(rt: &R, alloc: Global, log: &PartLog<Id>) -> bool {
    match batch_of(alloc, RECORDS) {
        Some(batch) => log.append(rt, alloc, batch).is_ok(),
        None => false,
    }
}

/// How long a book was locked for one of the last `timed` items of a log, in nanoseconds, after `items`
/// others. None where there were too few.
pub(crate) fn held<Id: Names, R: Wait + Clock>(
    rt: &R,
    alloc: Global,
    log: &PartLog<Id>,
    shared: &Mutex<Book<Id>>,
    items: usize,
    timed: usize,
) -> Option<f64>
    requires { Id.outputs ≡ 1 }
{
    let mut walk = Walk::new(log.partition());
    let mut room = Room::new(alloc);
    held_by(rt, alloc, log, &mut walk, shared, &mut room, items, timed)
}

fn held_by<Id: Names, R: Wait + Clock>(
    rt: &R,
    alloc: Global,
    log: &PartLog<Id>,
    walk: &mut Walk<Id>,
    shared: &Mutex<Book<Id>>,
    room: &mut Room,
    items: usize,
    timed: usize,
) -> Option<f64>
    requires { Id.outputs ≡ 1 }
{
    let (_, none) = receive_next(rt, alloc, log, walk, shared, room)?;
    if none != 0 {
        return None;
    }
    receive_all(rt, alloc, log, walk, shared, room, items)?;
    let took = receive_all(rt, alloc, log, walk, shared, room, timed)?;
    Some(took * 1_000_000_000.0 / nearest_u64_to_f64(timed as u64))
}

/// How long a book was locked for a delivery of 100 rows in nanoseconds, after this number of items. None
/// where there was no memory.
fn after<Id: Names, R: Wait + Clock>(
    rt: &R,
    alloc: Global,
    cells: Cells,
    items: usize,
) -> Option<f64>
    requires cells { cells ≡ Id.cells 0 }
    requires inputs { Id.inputs ≡ 1 }
    requires outputs { Id.outputs ≡ 1 }
{
    let Ok(book) = Book::new(alloc, 1, 0) else {
        return None;
    };
    let log: PartLog<Id> = PartLog::new(0, cells);
    if fill(rt, alloc, &log, items.wrapping_add(DELIVERIES)).is_none() {
        return None;
    }
    held(rt, alloc, &log, &Mutex::new(book), items, DELIVERIES)
}

/// The least that a delivery of 100 rows took in some turns, in nanoseconds, after this number of items.
pub(crate) fn least<R: Wait + Clock>(rt: &R, alloc: Global, items: usize, turns: u32) -> f64 {
    let mut least = f64::INFINITY;
    for _ in 0..turns {
        if let Ok(cells) = Cells::new(alloc, 65_536) {
            let took = after::<Brand, R>(rt, alloc, cells, items);
            least = least.min(took.unwrap_or(f64::INFINITY));
        }
    }
    least
}
